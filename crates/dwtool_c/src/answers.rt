//! What an export tells, and how it is handed to the caller.

ghost use Rattle.std.specs.Prelude.{◌≡◌, [], length, IfOk, List, ℕ, Result};
ghost use Rattle.dw_fields.specs.declared.fault_code.Fault.{Fault};
ghost use Rattle.unit_headers.specs.Refusals.{Answers};
ghost use Rattle.dwtool_c.specs.Answers.{Answer, Ends, IsTold, Meets, done, fitted, no_memory, none_such, on_unit, refused, refused_behind};

use crate::refusal::{DwtoolRefusal, no_refusal, unit_refusal};
use std::alloc::{AllocError, Global};
use unit_headers::UnitRefusal;

/// All was told.
pub const DONE: u8 = 0;
/// The file, a unit or the abbreviation tables are refused.
pub const REFUSED: u8 = 1;
/// There is no command, unit or section of this number.
pub const NONE_SUCH: u8 = 2;
/// Want of memory.
pub const NO_MEMORY: u8 = 5;

/// What an export tells: bytes of a text, or rows, up to a refusal where there is one.
#[derive(Drop)]
pub(crate) struct Told<T> {
    pub status: u8,
    pub items: Vec<T>,
    pub refusal: DwtoolRefusal,
}

impl<T> Told<T> {
    /// All of it.
    pub(crate) fn done(items: Vec<T>) -> Told<T>
        ensures { IsTold (done items.items) result.status result.items.items result.refusal }
    {
        Told {
            status: DONE,
            items,
            refusal: no_refusal(),
        }
    }

    /// What stands before a refusal, and the refusal.
    pub(crate) fn refused_behind(items: Vec<T>, refusal: DwtoolRefusal) -> Told<T>
        ensures { IsTold (refused_behind items.items refusal)
            result.status result.items.items result.refusal }
    {
        Told {
            status: REFUSED,
            items,
            refusal,
        }
    }

    /// A refusal, before which nothing is told.
    pub(crate) fn refused(alloc: Global, refusal: DwtoolRefusal) -> Told<T>
        ensures { IsTold (refused refusal) result.status result.items.items result.refusal }
    {
        Told::refused_behind(Vec::new(alloc), refusal)
    }

    /// There is nothing of this number.
    pub(crate) fn none_such(alloc: Global) -> Told<T>
        ensures { IsTold none_such result.status result.items.items result.refusal }
    {
        Told {
            status: NONE_SUCH,
            items: Vec::new(alloc),
            refusal: no_refusal(),
        }
    }
}

/// What was read of a unit, or its refusal.
pub(crate) fn told_of_unit<T>(
    alloc: Global,
    unit: u32,
    read: Result<Vec<T>, UnitRefusal>,
) -> Result<Told<T>, AllocError>
    ensures { (defined : Result (List T) Fault) → Answers (λ v. v.items) read defined
        → IfOk result (λ t. IsTold (on_unit unit defined) t.status t.items.items t.refusal) }
{
    match read {
        Ok(items) => Ok(Told::done(items)),
        Err(UnitRefusal::Refused(fault)) => Ok(Told::refused(alloc, unit_refusal(unit, fault))),
        Err(UnitRefusal::OutOfMemory) => Err(AllocError),
    }
}

/// Copies the front of the items that fits.
pub(crate) fn fill_front<T: Copy>(items: &[T], out: &mut [T])
    ensures { out.new ≡ fitted items.now out.old }
{
    let count = items.len().min(out.len());
    out[..count].copy_from_slice(&items[..count]);
}

/// Hands the caller what was told: the front that fits `out`, the length of the whole, and the
/// refusal. Answers the status.
pub(crate) fn hand_told<T: Copy>(
    told: &Told<T>,
    out: &mut [T],
    size: &mut usize,
    refusal: &mut DwtoolRefusal,
) -> u8
    ensures { (answer : Answer T)
        → IsTold answer told.now.status told.now.items.items told.now.refusal
        → Meets answer result out.old out.new size.new refusal.new }
{
    fill_front(told.items.as_slice(), out);
    *size = told.items.len();
    *refusal = told.refusal;
    told.status
}

/// Hands the caller nothing, for want of memory. Answers the status.
pub(crate) fn hand_nothing<T>(out: &mut [T], size: &mut usize, refusal: &mut DwtoolRefusal) -> u8
    ensures { Meets no_memory result out.old out.new size.new refusal.new }
{
    let _ = out;
    *size = 0;
    *refusal = no_refusal();
    NO_MEMORY
}

/// Hands the caller what was told, or nothing for want of memory. Answers the status.
pub(crate) fn hand_out<T: Copy>(
    told: Result<Told<T>, AllocError>,
    out: &mut [T],
    size: &mut usize,
    refusal: &mut DwtoolRefusal,
) -> u8
    ensures { (answer : Answer T)
        → IfOk told (λ t. IsTold answer t.status t.items.items t.refusal)
        → Ends answer result out.old out.new size.new refusal.new }
{
    match told {
        Ok(told) => hand_told(&told, out, size, refusal),
        Err(_) => hand_nothing(out, size, refusal),
    }
}
