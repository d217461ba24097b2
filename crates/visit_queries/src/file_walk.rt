//! The walk over all entries of a file.

ghost use Rattle.std.specs.Prelude.{◌≡◌, ◌++◌, OnErr, OnOk};
ghost use Rattle.elf_sections.specs.Shapes.{AreShort, sections_view};
ghost use Rattle.entry_tree.specs.Keys.{GainsOnly, IsDeclaredKey};
ghost use Rattle.entry_tree.specs.Units.{units_of};
ghost use Rattle.visit_queries.specs.Shown.{met_in};
ghost use Rattle.visit_queries.specs.Seen.{Walks, report_on};

use crate::unit_walk::show_units;
use crate::visitor::Visitor;
use crate::walk_stop::WalkStop;
use abbrev_decl::{Decls, Steps};
use dw_text::keep_whole;
use elf_sections::Sections;
use std::alloc::{AllocError, Global};
use unit_headers::UnitIndex;

/// Appends a visitor's report, or leaves the text as it was.
fn tell<V: Visitor>(visitor: &V, out: &mut Vec<u8>) -> Result<(), AllocError>
    ensures ok { OnOk result
        (out.new.items ≡ out.old.items ++ V.text visitor.now (V.state visitor.now)) }
    ensures err { OnErr result (out.new.items ≡ out.old.items) }
{
    let before = out.len();
    let done = visitor.report(out);
    keep_whole(out, before, done)
}

/// Shows a visitor the entries of all units, in unit and entry order, up to and with the first entry that
/// is answered `Enough`; then appends its report to `out` and drops it. Behind `Enough` no entry is shown
/// and no later unit is read. A unit's entries are read whole, with their names, before the first of them
/// is shown.
///
/// The index is that of the sections' units, and the source's section is `.debug_abbrev`.
///
/// # Errors
/// `Refused` where a unit is reached that is refused: at its header, at its root, at one of its entries, or
/// at the name of one of its entries, with the causes of [`unit_headers::UnitIndex::header`], [`root_facts`],
/// [`read_entries`] and [`form_values::resolve_text`]. `OutOfMemory` may come at any time. `out` is then as
/// it was, and the visitor is dropped.
#[tactic(auto, unfolding(crate::specs::Seen::report_on))]
pub fn walk<'f, D: Decls<'f>, L, V: Visitor>(
    alloc: Global,
    sections: &Sections<'f>,
    index: &UnitIndex<'f>,
    decls: &mut D,
    mut visitor: V,
    out: &mut Vec<u8>,
    steps: &mut Steps<L>,
) -> Result<(), WalkStop>
    requires section { D.section decls.old ≡ (sections_view sections.now).«abbrev» }
    requires index { index.now ≡ units_of (sections_view sections.now) }
    requires short { AreShort (sections_view sections.now) }
    ensures report { Walks result out.old.items out.new.items
        (report_on
        (record { state = V.state visitor; step = V.step visitor; text = V.text visitor })
        (met_in (sections_view sections.entry.now))) }
    ensures follows { D.follows decls.old decls.new }
    ensures placed { GainsOnly (IsDeclaredKey (D.section decls.old)) (D.placed decls.old)
        (D.placed decls.new) }
{
    show_units(alloc, sections, index, decls, &mut visitor, steps)?;
    tell(&visitor, out)?;
    Ok(())
}
