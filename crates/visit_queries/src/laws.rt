//! What the definition of what a visitor has seen says in other words. The function does nothing: its
//! contract is the law.

ghost use Rattle.std.specs.Prelude.{ℕ, List};
ghost use Rattle.visit_queries.specs.Shown.{Met};
ghost use Rattle.visit_queries.specs.Seen.{IsSeen, Step, seen_by};

/// Entries are seen one after another, each answered `More`, up to the end of what is met, up to and with
/// an entry that is answered `Enough`, or up to a unit that is refused.
#[tactic(auto, using(crate::proofs::SeenLaws::is_seen))]
pub fn entries_are_seen_up_to_enough()
    ensures { (step : Step) (met : List Met) (state : List ℕ)
        → IsSeen step met state (seen_by step met state) }
{}
