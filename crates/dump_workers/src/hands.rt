//! How draw seats are handed out to the seats of a dump, and gathered behind a window.

ghost use Rattle.std.specs.Prelude.{◌≡◌, ◌<◌, ◌≤◌, ◌-◌, ◌+◌, ℕ, IfOk, OnOk, length, slice_index_or};
ghost use Rattle.elf_sections.specs.Shapes.{SectionsView};
ghost use Rattle.unit_draws.specs.declared.view.DrawView.{DrawView};
ghost use Rattle.unit_draws.specs.Seats.{IsSeatOf};
ghost use Rattle.dump_workers.specs.Seats.{DumpSeatView, SameSeat};
ghost use Rattle.dump_workers.specs.Windows.{EachComesBack, EachNotes, IsDrawnWork, IsGathered, IsHandedWork, MayJoinWork, SomeNotesReadings, with_spare};

use crate::reading::Reading;
use crate::refused::FileDraws;
use crate::seat::{DumpSeat, Work};
use std::alloc::AllocError;
use unit_draws::DrawSeat;

/// Gives the first seat of a dump the first draw seat, and each other one a draw seat that is split off it.
pub(crate) fn hand_out<'f, L>(draws: &FileDraws, first: DrawSeat, seats: &mut Vec<DumpSeat<'f, L>>)
    requires of { IsSeatOf draws.now first }
    requires number { first.knows.number ≡ 0 }
    requires spare { length seats.old.items ≤ 1 + first.knows.spare }
    requires fewer { first.knows.spare < first.knows.seats }
    requires some { 0 < length seats.old.items }
    ensures length { length seats.new.items ≡ length seats.old.items }
    ensures same { (i : ℕ) (d : DumpSeatView) → i < length seats.old.items
        → SameSeat (slice_index_or seats.old.items i d) (slice_index_or seats.new.items i d) }
    ensures handed { (i : ℕ) (d : DumpSeatView) → i < length seats.old.items
        → IsHandedWork draws.now (with_spare first.knows
        (first.knows.spare - (length seats.old.items - 1))) i
        (slice_index_or seats.new.items i d).work }
{
    let mut first = first;
    'seats: for place in 1..seats.len() {
        let seat = draws.split(&mut first);
        seats[place].change(Work::Drawing(seat));
    }
    seats[0].change(Work::Drawing(first));
}

/// Joins the draw seats of all seats into the first one, and puts what they read into one list.
///
/// # Errors
/// Want of memory, here or in a worker.
pub(crate) fn gather<'f, L>(
    draws: &FileDraws,
    seats: &mut Vec<DumpSeat<'f, L>>,
) -> Result<(DrawSeat, Vec<Reading>), AllocError>
    requires some { 0 < length seats.old.items }
    requires join { (i : ℕ) (d : DumpSeatView) → i < length seats.old.items
        → MayJoinWork draws.now i (slice_index_or seats.old.items i d).work }
    ensures length { length seats.new.items ≡ length seats.old.items }
    ensures same { (i : ℕ) (d : DumpSeatView) → i < length seats.old.items
        → SameSeat (slice_index_or seats.old.items i d) (slice_index_or seats.new.items i d) }
    ensures drawn { OnOk result ((i : ℕ) (d : DumpSeatView) → i < length seats.old.items
        → IsDrawnWork (slice_index_or seats.old.items i d).work) }
    ensures gathered { IfOk result (λ r. (s : SectionsView) (window : ℕ) (first : DrawView)
        → EachComesBack draws.now s window first seats.old.items
        → IsGathered draws.now s window first (length seats.old.items - 1) r.0 r.1.items) }
    ensures notes { IfOk result (λ r. (s : SectionsView) → EachNotes s seats.old.items
        → SomeNotesReadings s seats.old.items r.1.items) }
{
    let (mut first, mut readings) = seats[0].take_drawn()?;
    'seats: for place in 1..seats.len() {
        let (seat, mut more) = match seats[place].take_drawn() {
            Ok(drawn) => drawn,
            Err(_) => return Err(AllocError),
        };
        draws.join(&mut first, seat);
        match readings.append(&mut more) {
            Ok(()) => {}
            Err(_) => return Err(AllocError),
        }
    }
    Ok((first, readings))
}
