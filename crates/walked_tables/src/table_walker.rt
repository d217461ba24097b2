//! Declarations by walks that go on where the last one ended (DWARF 5 section 7.5.3).

ghost use Rattle.std.specs.Prelude.{◌≡◌, ◌+◌, ◌<◌, ◌≤◌, ◌^◌, ◌++◌, ◌∷◌, [], ℕ, true, false, IfErr, IfOk, Ok, Err, length, if◌then◌else◌};
ghost use Rattle.abbrev_decl.specs.Lookup.{first_declaration};
ghost use Rattle.walked_tables.specs.WalkedTables.{IsFirstAt, IsWalked};

use abbrev_decl::{Decl, Decls, FindFault, Scanner, Steps, decl_at, read_decl};
use std::alloc::Global;
use std::marker::Model;

/// How far a table was walked: the places of the declarations of the codes from 1 on, and where the walk
/// goes on.
#[derive(Drop)]
struct WalkedTable {
    table: u64,
    places: Vec<u64>,
    next: u64,
}

/// Puts a place behind the others, if there is room for it.
fn keep_place(places: &mut Vec<u64>, place: u64) -> bool
    ensures { places.new.items
        ≡ (if result then places.old.items ++ place ∷ [] else places.old.items) }
{
    places.push(place).is_ok()
}

/// Reads the next declaration of the table; tells whether its code is the next number, and its place was
/// kept.
fn read_next<L>(
    section: &[u8],
    walked: &mut WalkedTable,
    steps: &mut Steps<L>,
) -> Result<bool, FindFault>
    requires { IsWalked section.now walked.old.table walked.old.places.items walked.old.next }
    ensures walked { IsWalked section.now walked.new.table walked.new.places.items walked.new.next }
    ensures table { walked.new.table ≡ walked.old.table }
    ensures more { IfOk result (λ kept. kept ≡ true
        → length walked.new.places.items ≡ length walked.old.places.items + 1) }
    ensures no_more { IfOk result (λ kept. kept ≡ false
        → length walked.new.places.items ≡ length walked.old.places.items) }
    ensures fault { IfErr result (λ fault. (code : ℕ) → length walked.old.places.items < code
        → first_declaration section.now walked.old.table code ≡ Err fault) }
    ensures never_less { steps.old ≤ steps.new }
{
    let found = match read_decl(section, walked.next, steps) {
        Ok(found) => found,
        Err(fault) => return Err(FindFault::Broken(fault)),
    };
    let Some((declaration, next)) = found else {
        return Err(FindFault::CodeMissing);
    };
    if declaration.code() != walked.places.len() as u64 + 1 {
        return Ok(false);
    }
    if !keep_place(&mut walked.places, walked.next) {
        return Ok(false);
    }
    walked.next = next;
    Ok(true)
}

/// The declaration of a code whose place was kept.
fn kept_declaration<'f>(
    section: &'f [u8],
    table: u64,
    places: &[u64],
    next: u64,
    code: u64,
) -> Decl<'f>
    requires walked { IsWalked section.now table places.now next }
    requires some { 0 < code }
    requires kept { code ≤ length places.now }
    ensures { first_declaration section.entry.now table code ≡ Ok result }
{
    decl_at(section, places[(code - 1) as usize])
}

/// Walks on until the place of a code is kept, and answers its declaration. Where the codes don't stand in
/// their order, or there is no room for another place, the walk goes on without keeping places.
fn find_on<'f, L>(
    section: &'f [u8],
    walked: &mut WalkedTable,
    code: u64,
    steps: &mut Steps<L>,
) -> Result<Decl<'f>, FindFault>
    requires walked { IsWalked section.now walked.old.table walked.old.places.items
        walked.old.next }
    requires some { 0 < code }
    ensures answer { result ≡ first_declaration section.entry.now walked.old.table code }
    ensures walked { IsWalked section.entry.now walked.new.table walked.new.places.items
        walked.new.next }
    ensures never_less { steps.old ≤ steps.new }
{
    while (walked.places.len() as u64) < code {
        match read_next(section, walked, steps) {
            Ok(true) => {}
            Ok(false) => {
                let mut scanner = Scanner::new(section);
                return scanner.find(walked.next as u32, code, steps);
            }
            Err(fault) => return Err(fault),
        }
    }
    Ok(kept_declaration(
        section,
        walked.table,
        walked.places.as_slice(),
        walked.next,
        code,
    ))
}

/// Turns to a table: nothing of it was walked, where it isn't the one that was walked last.
fn turn_to(section: &[u8], walked: &mut WalkedTable, table: u64)
    requires walked { IsWalked section.now walked.old.table walked.old.places.items
        walked.old.next }
    requires inside { table ≤ length section.now }
    ensures walked { IsWalked section.now walked.new.table walked.new.places.items walked.new.next }
    ensures table { walked.new.table ≡ table }
{
    if walked.table != table {
        walked.table = table;
        walked.places.clear();
        walked.next = table;
    }
}

/// Finds declarations by walks that go on where the last one in the same table ended.
///
/// It serves a reading of units in their order: of one table at a time, the one that was asked for last, it
/// keeps the places of the declarations that it passed, eight bytes each. So it reads each declaration of a
/// table whose codes are 1, 2, 3 and so on once, and once more each time that it is asked for. Where a code is
/// not the next number, or there is no memory for a place, it walks on from there each time. To clauses it is
/// the bytes of its section.
#[derive(Drop)]
pub struct TableWalker<'f> {
    section: &'f [u8],
    walked: WalkedTable,
}

impl<'f> Model for TableWalker<'f> {
    ghost use Rattle.std.specs.Prelude.{ℕ, List};
    ghost use Rattle.walked_tables.specs.WalkedTables.{IsWalked};

    ghost Value = { List ℕ };

    ghost view = { λ w. w.section.now };

    ghost invariant = { λ w. IsWalked w.section.now w.walked.table w.walked.places.items
        w.walked.next };
}

impl<'f> TableWalker<'f> {
    /// Over the bytes of `.debug_abbrev`, of which nothing was walked. It takes no memory yet.
    pub fn new(alloc: Global, section: &'f [u8]) -> TableWalker<'f>
        requires { length section.now < 2 ^ 32 }
        ensures { result ≡ section.entry.now }
    {
        TableWalker {
            section,
            walked: WalkedTable {
                table: 0,
                places: Vec::new(alloc),
                next: 0,
            },
        }
    }
}

impl<'f> Decls<'f> for TableWalker<'f> {
    ghost use Rattle.std.specs.Prelude.{[], true, refl};
    ghost use Rattle.abbrev_decl.specs.Lookup.{left_alone};

    ghost section = { λ s. s };

    ghost seen = { λ s. [] };

    ghost placed = { λ s. [] };

    ghost spent = { λ s. true };

    ghost follows = { λ s t. s ≡ t };

    ghost counts = { λ s table code old new. old ≤ new };

    fn find<L>(
        &mut self,
        table: u32,
        code: u64,
        steps: &mut Steps<L>,
    ) -> Result<Decl<'f>, FindFault> {
        turn_to(self.section, &mut self.walked, u64::from(table));
        find_on(self.section, &mut self.walked, code, steps)
    }

    ghost reflexive = { λ x. refl };

    ghost transitive = { λ x y z p q. Prim.cc };

    ghost leaves = { λ x y same. left_alone x y same };
}
