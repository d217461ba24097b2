//! The draws: how they are made, how seats are split off and joined, and how a unit is drawn.
ghost use Rattle.std.specs.Prelude.{◌≡◌, ◌≢◌, ◌<◌, ◌≤◌, ◌++◌, ℕ, IfOk, IfSome, IfNone, OnSome};
ghost use Rattle.unit_draws.specs.declared.view.TheConstants.{MOST_SEATS};
ghost use Rattle.unit_draws.specs.Windows.{first_words, window_count, IsUnitOfWindow};
ghost use Rattle.unit_draws.specs.Seats.{occurrences, IsSeatOf, first_seat, with_less_spare, seat_split_off, with_seat, with_unit, with_ended, with_lowered, KeepsNumbers, HasEverySeat, HasDrawnWindow, places_ahead};

use crate::refused::{RefusedUnits, TagOfRefused};
use crate::rule::{
    DrawNumber, DrawRule, JoinSeats, LoadBehindJoin, LoadLeast, LowerLeast, SplitSeat,
};
use crate::seat::DrawSeat;
use crate::view::{AboutDraws, DrawSizes, DrawView};
use crate::windows::{WINDOW, count_windows, length_of};
use atomic_table::Table;
use boxcar::tag::Tag;
use std::alloc::{AllocError, Global};
use std::marker::Model;

/// The words that threads draw units from: for each window the number of its next unit, and behind all of these for
/// each window the number of its least refused unit.
#[derive(Drop)]
pub struct Draws<U: RefusedUnits> {
    pub(crate) table: Table<(), DrawView, AboutDraws, DrawRule<U>, Global>,
    pub(crate) sizes: DrawSizes,
}

impl<U: RefusedUnits> Model for Draws<U> {
    ghost use Rattle.std.specs.Prelude.{◌≡◌, ◌+◌};
    ghost use Rattle.unit_draws.specs.Windows.{window_count};
    ghost use Rattle.unit_draws.specs.Seats.{DrawsView};

    ghost Value = { DrawsView };

    ghost view = { λ d. record {
      table = d.table.shared.table_id;
      sizes = d.sizes;
      tag = d.table.shared.key.tag.numbers;
    } };

    ghost invariant = { λ d. (d.table.shared.key.sizes ≡ d.sizes)
        × (d.table.shared.table_id.words
        ≡ window_count d.sizes.units + window_count d.sizes.units) };
}

/// The words of draws at the start: each window's next unit is its first one, and none is refused.
#[tactic(auto, unfolding(crate::specs::Windows::first_words))]
fn first_words(alloc: Global, units: u32) -> Result<Vec<u64>, AllocError>
    ensures { IfOk result (λ words. words.items ≡ first_words units) }
{
    let windows = count_windows(units);
    let mut words = vec![in alloc; 0u64; windows as usize]?;
    'windows: for window in 0..windows {
        words.push(u64::from(length_of(units, window)))?;
    }
    Ok(words)
}

impl<U: RefusedUnits> Draws<U> {
    /// Draws of so many units for so many seats, and their first seat. No unit is drawn. They take the tag of
    /// `refused`, by which units are refused, and keep nothing else of it.
    ///
    /// `seats` counts each seat that is ever split off, also where another took it in.
    pub fn new(
        alloc: Global,
        units: u32,
        seats: u32,
        refused: &U,
    ) -> Result<(Draws<U>, DrawSeat), AllocError>
        requires { (1 ≤ seats) × (seats ≤ MOST_SEATS) }
        ensures units { IfOk result (λ r. r.0.sizes.units ≡ units) }
        ensures seats { IfOk result (λ r. r.0.sizes.seats ≡ seats) }
        ensures tag { IfOk result (λ r. r.0.tag ≡ U.tag refused.now) }
        ensures of { IfOk result (λ r. IsSeatOf r.0 r.1) }
        ensures seat { IfOk result (λ r. r.1.knows ≡ first_seat r.0.sizes r.0.tag) }
    {
        let sizes = DrawSizes { units, seats };
        let words = first_words(alloc, units)?;
        let about = AboutDraws {
            sizes,
            tag: Tag::of::<U, TagOfRefused<U>>(refused),
        };
        let (table, seat) = Table::of_words(alloc, words.as_slice(), &about)?;
        let draws = Draws { table, sizes };
        let seat = DrawSeat {
            seat,
            number: 0,
            spare: seats - 1,
        };
        Ok((draws, seat))
    }

    /// Splits off a new seat. It takes the lowest spare number, and has drawn nothing.
    pub fn split(&self, seat: &mut DrawSeat) -> DrawSeat
        requires of { IsSeatOf self.now seat.old }
        requires spare { 0 < seat.old.knows.spare }
        ensures of { IsSeatOf self.now seat.new }
        ensures also { IsSeatOf self.now result }
        ensures old { seat.new.knows ≡ with_less_spare seat.old.knows }
        ensures new { result.knows ≡ seat_split_off seat.old.knows }
    {
        let number = self.sizes.seats - seat.spare;
        let new = self.table.shared.split_seat::<SplitSeat>(&mut seat.seat);
        seat.spare -= 1;
        DrawSeat {
            seat: new,
            number,
            spare: 0,
        }
    }

    /// Draws a unit of the window that no seat drew before, or answers `None` where all were drawn.
    ///
    /// After `None` the seat has seen the window end, and draws from it no more.
    pub fn draw(&self, seat: &mut DrawSeat, window: u32) -> Option<u32>
        requires of { IsSeatOf self.now seat.old }
        requires window { window < window_count self.now.sizes.units }
        requires open { occurrences window seat.old.knows.ended ≡ 0 }

        ensures of { IsSeatOf self.now seat.new }
        ensures numbers { KeepsNumbers seat.old.knows seat.new.knows }
        ensures unit { IfSome result (IsUnitOfWindow self.now.sizes.units window) }
        ensures fresh { IfSome result (λ u. occurrences u seat.old.knows.drawn ≡ 0) }
        ensures drawn { IfSome result (λ u. seat.new.knows ≡ with_unit seat.old.knows u) }

        // a loop that draws until `None` comes to its end
        ensures fewer { OnSome result
            (places_ahead window seat.new.knows < places_ahead window seat.old.knows) }

        ensures ended { IfNone result (seat.new.knows ≡ with_ended seat.old.knows window) }
        ensures whole { IfNone result
            (HasEverySeat seat.old.knows → HasDrawnWindow seat.old.knows window) }
    {
        let length = u64::from(length_of(self.sizes.units, window));
        let found = self
            .table
            .shared
            .fetch_add::<DrawNumber>(&mut seat.seat, window as usize, 1);
        if found < length {
            Some(WINDOW * window + found as u32)
        } else {
            None
        }
    }

    /// Takes a seat into another, which then has drawn and seen ended what both had.
    pub fn join(&self, into: &mut DrawSeat, from: DrawSeat)
        requires of { IsSeatOf self.now into.old }
        requires also { IsSeatOf self.now from }
        requires number { from.knows.number ≢ 0 }
        ensures of { IsSeatOf self.now into.new }
        ensures both { into.new.knows ≡ with_seat into.old.knows from.knows }
        ensures once { (u : ℕ) → occurrences u into.new.knows.drawn ≤ 1 }
        ensures whole { HasEverySeat into.new.knows
            → (w : ℕ) → 0 < occurrences w into.new.knows.ended → HasDrawnWindow into.new.knows w }
    {
        let DrawSeat {
            seat,
            number: _,
            spare: _,
        } = from;
        self.table
            .shared
            .join_seat::<JoinSeats>(&mut into.seat, seat);
        self.table.shared.load::<LoadBehindJoin>(&mut into.seat, 0);
    }

    /// Tells of a refused unit: the window's least one is at most this one afterwards.
    pub fn lower(&self, seat: &mut DrawSeat, unit: u32)
        requires of { IsSeatOf self.now seat.old }
        requires counted { unit < self.now.sizes.units }
        requires refused { U.refuses self.now.tag unit }
        ensures of { IsSeatOf self.now seat.new }
        ensures lowered { seat.new.knows ≡ with_lowered seat.old.knows unit }
    {
        let word = count_windows(self.sizes.units) + unit / WINDOW;
        self.table
            .shared
            .fetch_min::<LowerLeast>(&mut seat.seat, word as usize, u64::from(unit % WINDOW));
    }

    /// The least refused unit of the window that a seat told of, or `None` where none did.
    pub fn least(&self, seat: &mut DrawSeat, window: u32) -> Option<u32>
        requires of { IsSeatOf self.now seat.old }
        requires window { window < window_count self.now.sizes.units }
        ensures of { IsSeatOf self.now seat.new }
        ensures same { seat.new.knows ≡ seat.old.knows }
        ensures unit { IfSome result (IsUnitOfWindow self.now.sizes.units window) }
        ensures refused { IfSome result (U.refuses self.now.tag) }

        // it is no greater than those that the seat itself told of
        ensures most { IfSome result (λ least. (u : ℕ) → 0 < occurrences u seat.old.knows.lowered
            → IsUnitOfWindow self.now.sizes.units window u → least ≤ u) }
        ensures none { IfNone result ((u : ℕ)
            → IsUnitOfWindow self.now.sizes.units window u
            → occurrences u seat.old.knows.lowered ≡ 0) }
    {
        let length = u64::from(length_of(self.sizes.units, window));
        let word = count_windows(self.sizes.units) + window;
        let least = self
            .table
            .shared
            .load::<LoadLeast<U>>(&mut seat.seat, word as usize);
        if least < length {
            Some(WINDOW * window + least as u32)
        } else {
            None
        }
    }
}
