//! The text of all abbreviation tables (DWARF 5 section 7.5.3).

ghost use Rattle.std.specs.Prelude.{◌≡◌, ◌++◌, ◌<◌, ◌≤◌, Ok, None, length, IfOk, OnErr};
ghost use Rattle.abbrev_decl.specs.Declarations.{declaration_at};
ghost use Rattle.unit_text.specs.Tables.{AddsTo, TableEnds, headed_table, table_from_start, tables_text, zero_end};

use crate::declaration_text::push_declaration;
use abbrev_decl::{Steps, read_decl};
use dw_fields::{Cut, Fault, Order};
use dw_text::{keep_whole, push_hex_after, push_text};
use std::alloc::{AllocError, Global};

/// The place behind the code 0 at `place`.
#[tactic(auto, unfolding(crate::specs::Tables::zero_end))]
fn behind_zero(section: &[u8], place: u64) -> u64
    requires inside { place ≤ length section.now }
    requires zero { declaration_at section.now place ≡ Ok None }
    ensures place { result ≡ zero_end section.now place }
    ensures forward { place < result }
    ensures inside { result ≤ length section.now }
{
    let mut cut = Cut::new(section, place, section.len() as u64, Order::Little);
    match cut.uleb() {
        Ok(_) => cut.place(),
        Err(_) => unreachable!(),
    }
}

/// Appends the declarations of the table at `table`, and answers the place behind its code 0, or the
/// fault in it.
fn push_table(
    out: &mut Vec<u8>,
    section: &[u8],
    table: u64,
) -> Result<Result<u64, Fault>, AllocError>
    requires { table ≤ length section.now }
    ensures text { AddsTo result out.old.items out.new.items (table_from_start section.now table) }
    ensures ends { IfOk result (TableEnds table (length section.now)) }
{
    let mut steps = Steps::start(());
    let mut place = table;
    'declarations: loop {
        let found = match read_decl(section, place, &mut steps) {
            Ok(found) => found,
            Err(fault) => return Ok(Err(fault)),
        };
        match found {
            Some(pair) => {
                let (declaration, next) = pair;
                push_declaration(out, &declaration)?;
                place = next;
            }
            None => return Ok(Ok(behind_zero(section, place))),
        }
    }
}

/// Appends the line of the table at `table` and its declarations.
#[tactic(auto, unfolding(crate::specs::Tables::headed_table))]
fn push_headed(
    out: &mut Vec<u8>,
    section: &[u8],
    table: u64,
) -> Result<Result<u64, Fault>, AllocError>
    requires { table ≤ length section.now }
    ensures text { AddsTo result out.old.items out.new.items (headed_table section.now table) }
    ensures ends { IfOk result (TableEnds table (length section.now)) }
{
    push_hex_after(out, b"table 0x", table)?;
    push_text(out, b"\n")?;
    push_table(out, section, table)
}

/// Appends all tables up to the section's end, or up to the first fault.
fn push_tables(out: &mut Vec<u8>, section: &[u8]) -> Result<Option<Fault>, AllocError>
    ensures { AddsTo result out.old.items out.new.items (tables_text section.now) }
{
    let mut table = 0;
    while table < section.len() as u64 {
        match push_headed(out, section, table)? {
            Ok(next) => table = next,
            Err(fault) => return Ok(Some(fault)),
        }
    }
    Ok(None)
}

/// Appends the text of all abbreviation tables, from the section's start: the line of each table, and
/// each of its declarations with a line for each pair (DWARF 5 section 7.5.3).
///
/// Answers the first fault, where there is one: `DeclTruncated`, `LebTooLarge` or `ChildrenByte`. Unlike
/// after the other calls' refusals, all text before it then stays in `out`, the line of the table in which
/// it stands among it.
///
/// # Errors
/// Only want of memory; `out` is then as it was.
pub fn write_tables(
    _alloc: Global,
    section: &[u8],
    out: &mut Vec<u8>,
) -> Result<Option<Fault>, AllocError>
    ensures ok { IfOk result (λ fault. (fault ≡ (tables_text section.now).1)
        × (out.new.items ≡ out.old.items ++ (tables_text section.now).0)) }
    ensures err { OnErr result (out.new.items ≡ out.old.items) }
{
    let before = out.len();
    let done = push_tables(out, section);
    keep_whole(out, before, done)
}
