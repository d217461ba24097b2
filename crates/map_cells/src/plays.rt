//! The rule of a table's words, and what each atomic step tells.
use crate::about::{About, Facts};
use atomic_table::{Join, Play, Split, TableRule};
use map_core::View;
use std::marker::PhantomData;

/// The words are the state after a lawful list of events, and the passes know what is so.
pub struct TheRule<F> {
    facts: PhantomData<F>,
}

impl<F: Facts> TableRule<(), View, About> for TheRule<F> {
    ghost use Rattle.map_cells.specs.Rule.{TableHolds, first_of};

    ghost holds = { λ a s. TableHolds F.fits a s };

    ghost first = { first_of };
}

/// A load of the word that says which generation is current.
pub struct CurrentLoad<F> {
    facts: PhantomData<F>,
}

impl<F: Facts> Play<(), View> for CurrentLoad<F> {
    ghost use Rattle.map_cells.specs.Rule.{CurrentLooked};

    ghost then = { CurrentLooked F.fits };
}

/// A load of a finish word.
pub struct BlockLoad<F> {
    facts: PhantomData<F>,
}

impl<F: Facts> Play<(), View> for BlockLoad<F> {
    ghost use Rattle.map_cells.specs.Rule.{BlockLooked};

    ghost then = { BlockLooked F.fits };
}

/// A load of a key word.
pub struct KeyLoad<F> {
    facts: PhantomData<F>,
}

impl<F: Facts> Play<(), View> for KeyLoad<F> {
    ghost use Rattle.map_cells.specs.Rule.{KeyLooked};

    ghost then = { KeyLooked F.fits };
}

/// A load of a value word.
pub struct ValueLoad<F> {
    facts: PhantomData<F>,
}

impl<F: Facts> Play<(), View> for ValueLoad<F> {
    ghost use Rattle.map_cells.specs.Rule.{ValueLooked};

    ghost then = { ValueLooked F.fits };
}

/// A load of the count.
pub struct CountLoad<F> {
    facts: PhantomData<F>,
}

impl<F: Facts> Play<(), View> for CountLoad<F> {
    ghost use Rattle.map_cells.specs.Rule.{CountLooked};

    ghost then = { CountLooked F.fits };
}

/// An exchange of a key word from empty to a key.
pub struct Claim<F> {
    facts: PhantomData<F>,
}

impl<F: Facts> Play<(), View> for Claim<F> {
    ghost use Rattle.map_cells.specs.Rule.{Claimed};

    ghost then = { Claimed F.fits };
}

/// An exchange of a value word from unset to a value.
pub struct Publish<F> {
    facts: PhantomData<F>,
}

impl<F: Facts> Play<(), View> for Publish<F> {
    ghost use Rattle.map_cells.specs.Rule.{Published};

    ghost then = { Published F.fits };
}

/// An exchange of a key word from empty to sealed.
pub struct SealKey<F> {
    facts: PhantomData<F>,
}

impl<F: Facts> Play<(), View> for SealKey<F> {
    ghost use Rattle.map_cells.specs.Rule.{KeyShut};

    ghost then = { KeyShut F.fits };
}

/// An exchange of a value word from unset to closed.
pub struct SealValue<F> {
    facts: PhantomData<F>,
}

impl<F: Facts> Play<(), View> for SealValue<F> {
    ghost use Rattle.map_cells.specs.Rule.{ValueShut};

    ghost then = { ValueShut F.fits };
}

/// An addition of 1 to a take word.
pub struct TakeBlock<F> {
    facts: PhantomData<F>,
}

impl<F: Facts> Play<(), View> for TakeBlock<F> {
    ghost use Rattle.map_cells.specs.Rule.{Took};

    ghost then = { Took F.fits };
}

/// An exchange of a finish word from 0 to 1.
pub struct FinishBlock<F> {
    facts: PhantomData<F>,
}

impl<F: Facts> Play<(), View> for FinishBlock<F> {
    ghost use Rattle.map_cells.specs.Rule.{Ended};

    ghost then = { Ended F.fits };
}

/// An exchange of the word that says which generation is current, to the next generation.
pub struct Switch<F> {
    facts: PhantomData<F>,
}

impl<F: Facts> Play<(), View> for Switch<F> {
    ghost use Rattle.map_cells.specs.Rule.{Left};

    ghost then = { Left F.fits };
}

/// An addition of 1 to the count.
pub struct Count<F> {
    facts: PhantomData<F>,
}

impl<F: Facts> Play<(), View> for Count<F> {
    ghost use Rattle.map_cells.specs.Rule.{Counted};

    ghost then = { Counted F.fits };
}

/// The second step of a join.
pub struct Settle<F> {
    facts: PhantomData<F>,
}

impl<F: Facts> Play<(), View> for Settle<F> {
    ghost use Rattle.map_cells.specs.Rule.{Settled};

    ghost then = { Settled F.fits };
}

/// How a pass hands on one of its spare numbers.
pub struct SplitPass;

impl Split<View> for SplitPass {
    ghost use Rattle.map_core.specs.Knowing.{halved, newcomer};

    ghost left = { halved };

    ghost right = { newcomer };
}

/// How a pass takes another in.
pub struct JoinPasses;

impl Join<View> for JoinPasses {
    ghost use Rattle.map_core.specs.Knowing.{put_together, gone};

    ghost both = { put_together };

    ghost spent = { gone };
}
