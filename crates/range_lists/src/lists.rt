//! A list, entry after entry up to its end.
ghost use Rattle.std.specs.Prelude.{◌≡◌, ◌-◌, ◌++◌, OnOk, ℕ, Option, map, option_map, option_to_list};
ghost use Rattle.dw_fields.specs.Reading.{IsAddressSize, Reader, Reads};
ghost use Rattle.unit_headers.specs.Refusals.{Answers};
ghost use Rattle.range_lists.specs.Context.{Context, context_view};
ghost use Rattle.range_lists.specs.ListSteps.{list_at, span_from, step_view};
ghost use Rattle.range_lists.specs.declared.list_step.ListStep.{ListStep};

use crate::context::UnitContext;
use crate::list_step::ListStep;
use dw_fields::{Code, Cut, Fault, Order};
use std::alloc::{AllocError, Global};
use unit_headers::UnitRefusal;

/// What the entries of a list of one section list.
///
/// `View` is a value of this type without where its bytes lie, and `entry_at` is what stands at a
/// place, with the base of the offsets: none is the end of the list.
pub(crate) trait Listed<'f>: Copy {
    ghost View: { Type 0 };

    ghost view: { Self → View };

    ghost entry_at: { Context → ℕ → Reader (Option (ListStep View)) };

    /// Reads one entry; `None` is the end of the list.
    fn read_entry(
        cut: &mut Cut<'f>,
        unit: &UnitContext<'_, '_>,
        base: u64,
    ) -> Result<Option<ListStep<Self>>, Fault>
        requires { IsAddressSize unit.now.header.now.address_size }
        ensures { Reads (option_map (step_view view)) result (entry_at (context_view unit.now) base)
            cut.old cut.new };
}

/// The part of the section from the offset on. An offset past the end counts as the end.
#[tactic(auto, unfolding(crate::specs::ListSteps::span_from))]
pub(crate) fn list_cut<'f>(section: &'f [u8], order: Order, offset: u64) -> Cut<'f>
    ensures { result ≡ span_from section.entry.now order offset }
{
    let end = section.len() as u64;
    Cut::new(section, offset.min(end), end, order)
}

/// The list that begins at the cut's place, where the base of the offsets is `start`.
pub(crate) fn read_list<'f, E: Listed<'f>>(
    alloc: Global,
    unit: &UnitContext<'_, '_>,
    mut cut: Cut<'f>,
    start: u64,
) -> Result<Vec<E>, UnitRefusal>
    requires { IsAddressSize unit.now.header.now.address_size }
    ensures { Answers (λ list. map E.view list.items)
        result (list_at (E.entry_at (context_view unit.now)) start cut.entry) }
{
    let end = cut.end();
    let mut base = start;
    let mut list = Vec::new(alloc);
    for _turn in 0..cut.left() {
        let found = match E::read_entry(&mut cut, unit, base) {
            Ok(found) => found,
            Err(fault) => return Err(UnitRefusal::Refused(fault)),
        };
        let Some(turn) = found else {
            return Ok(list);
        };
        match add(&mut list, turn.listed) {
            Ok(()) => {}
            Err(_) => return Err(UnitRefusal::OutOfMemory),
        }
        base = turn.base;
    }
    Err(UnitRefusal::Refused(Fault::at(Code::ListUnended, end)))
}

fn add<T: Copy>(list: &mut Vec<T>, listed: Option<T>) -> Result<(), AllocError>
    ensures { OnOk result (list.new.items ≡ list.old.items ++ option_to_list listed) }
{
    match listed {
        Some(entry) => match list.push(entry) {
            Ok(()) => Ok(()),
            Err(_) => Err(AllocError),
        },
        None => Ok(()),
    }
}
