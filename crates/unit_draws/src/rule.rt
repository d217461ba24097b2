//! The rule of the windows' words, and what each atomic step on them tells.
use crate::refused::RefusedUnits;
use crate::view::{AboutDraws, DrawView};
use atomic_table::{Join, Play, Split, TableRule};
use std::marker::PhantomData;

/// Each unit that a window's next-unit word has passed was drawn once, by one seat, and a window's least word is of a
/// refused unit or the window's length.
pub(crate) struct DrawRule<U> {
    refused: PhantomData<U>,
}

impl<U: RefusedUnits> TableRule<(), DrawView, AboutDraws> for DrawRule<U> {
    ghost use Rattle.unit_draws.specs.Rule.{RuleHolds, first_of};

    ghost holds = { RuleHolds U.refuses };

    ghost first = { first_of };
}

/// An addition of 1 to a window's next-unit word.
pub(crate) struct DrawNumber;

impl Play<(), DrawView> for DrawNumber {
    ghost use Rattle.unit_draws.specs.Rule.{DrawsNumber};

    ghost then = { DrawsNumber };
}

/// The load behind a join, by which the seat learns that no two seats drew one unit.
pub(crate) struct LoadBehindJoin;

impl Play<(), DrawView> for LoadBehindJoin {
    ghost use Rattle.unit_draws.specs.Rule.{LearnsOfDrawn};

    ghost then = { LearnsOfDrawn };
}

/// A least word that becomes the smaller of what it was and the number of a refused unit.
pub(crate) struct LowerLeast;

impl Play<(), DrawView> for LowerLeast {
    ghost use Rattle.unit_draws.specs.Rule.{LowersUnit};

    ghost then = { LowersUnit };
}

/// A load of a window's least word.
pub(crate) struct LoadLeast<U> {
    refused: PhantomData<U>,
}

impl<U: RefusedUnits> Play<(), DrawView> for LoadLeast<U> {
    ghost use Rattle.unit_draws.specs.Rule.{TellsLeast};

    ghost then = { TellsLeast U.refuses };
}

/// How a seat hands on one of its spare numbers.
pub(crate) struct SplitSeat;

impl Split<DrawView> for SplitSeat {
    ghost use Rattle.unit_draws.specs.Seats.{with_less_spare, seat_split_off};

    ghost left = { with_less_spare };

    ghost right = { seat_split_off };
}

/// How a seat takes another in.
pub(crate) struct JoinSeats;

impl Join<DrawView> for JoinSeats {
    ghost use Rattle.unit_draws.specs.Seats.{with_seat, empty_seat};

    ghost both = { with_seat };

    ghost spent = { empty_seat };
}
