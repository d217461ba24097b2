//! The attributes of an entry.

ghost use Rattle.std.specs.Prelude.{◌≡◌, ◌≤◌, OnOk, IfOk};
ghost use Rattle.dw_fields.specs.Reading.{Gives, IsAddressSize};
ghost use Rattle.form_values.specs.View.{widths_of};
ghost use Rattle.entry_tree.specs.Views.{EntryView, attr_view};
ghost use Rattle.entry_tree.specs.Entries.{attr_at, attrs_at};
ghost use Rattle.entry_tree.specs.Kept.{kept_read};
ghost use Rattle.entry_tree.specs.Taken.{TakesAt, with_attrs};

use crate::attr_names::AttrNames;
use crate::entry::Attr;
use crate::sink::EntrySink;
use abbrev_decl::{AttrSpec, Attrs};
use dw_fields::{Cut, Fault};
use form_values::read_value;
use unit_headers::{UnitHeader, UnitRefusal};

/// The attribute of a pair.
#[inline(always)]
#[tactic(auto, unfolding(crate::specs::Entries::attr_at))]
pub(crate) fn read_attr<'f>(
    cut: &mut Cut<'f>,
    header: &UnitHeader,
    pair: AttrSpec,
) -> Result<Attr<'f>, Fault>
    requires { IsAddressSize header.now.address_size }
    ensures attr { Gives attr_view result (attr_at (widths_of header.now) pair) cut.old cut.new }
    ensures forward { OnOk result (cut.old.place ≤ cut.new.place) }
    ensures name { IfOk result (λ a. a.name ≡ pair.name) }
{
    let place = cut.place();
    let raw = read_value(cut, pair.form, header, pair.implicit)?;
    Ok(Attr {
        name: pair.name,
        form: pair.form,
        place,
        raw,
    })
}

/// Gives the sink the attributes of the pairs that are kept.
#[inline(always)]
pub(crate) fn give_attrs<'a, 'f: 'a, K: AttrNames, S: EntrySink<'f>>(
    cut: &mut Cut<'f>,
    header: &UnitHeader,
    pairs: Attrs<'a>,
    sink: &mut S,
) -> Result<(), UnitRefusal>
    requires { IsAddressSize header.now.address_size }
    ensures attrs { TakesAt result
        (λ s. kept_read K.keeps (attrs_at (widths_of header.now) pairs.entry s)) cut.old cut.new
        (λ done more. (x : S) (e : EntryView) → S.began x sink.old e
        → S.began x sink.new (with_attrs e more)) }
    ensures forward { OnOk result (cut.old.place ≤ cut.new.place) }
{
    let mut left = pairs;
    'pairs: while let Some(pair) = left.next() {
        if !K::keeps(pair.name) {
            match read_attr(cut, header, pair) {
                Ok(_) => continue,
                Err(fault) => return Err(UnitRefusal::Refused(fault)),
            }
        }
        let attr = match read_attr(cut, header, pair) {
            Ok(attr) => attr,
            Err(fault) => return Err(UnitRefusal::Refused(fault)),
        };
        match sink.add(attr) {
            Ok(()) => {}
            Err(_) => return Err(UnitRefusal::OutOfMemory),
        }
    }
    Ok(())
}
