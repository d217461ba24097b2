//! Laws of the machine and of calls. Each function does nothing: what it ensures is the law.
ghost use Rattle.std.specs.Prelude.{◌≡◌, ℕ, List, true};
ghost use Rattle.map_core.specs.declared.entry.Entry.{Entry};
ghost use Rattle.map_core.specs.declared.layout.Layout.{Layout};
ghost use Rattle.map_core.specs.declared.view.View.{View};
ghost use Rattle.map_core.specs.PlainMap.{plain_get};
ghost use Rattle.map_core.specs.History.{plain_map, value_in, is_in};
ghost use Rattle.map_core.specs.Machine.{State, Sound};
ghost use Rattle.map_core.specs.Events.{Event, Lawful};
ghost use Rattle.map_core.specs.Calls.{Call, CallsInOrder, HoldCallsOnce};

/// Which pairs of a key and a value fit, by a list of numbers that is read off a value.
pub trait Fitting {
    ghost fits: { List ℕ → ℕ → ℕ → Type 0 };
}

/// Calls through one pass stand in one history: their points ascend, and the pass's own entries are those that it
/// had, those of the passes that it took in, and one for each insert that placed, in order.
pub fn calls_in_order<T: Fitting>()
    ensures { (tag : List ℕ) (capacity : ℕ) (cs : List Call) (v w : View)
        (calls : CallsInOrder (T.fits tag) capacity cs v w) → is_in v.number v.numbers ≡ true
        → HoldCallsOnce capacity (T.fits tag) cs v w calls }
{}

/// A table after any lawful events keeps all the facts of the machine.
#[tactic(auto, using(crate::proofs::SoundLemmas::lawful_sound))]
pub fn lawful_events<T: Fitting>()
    ensures { (tag : List ℕ) (l : Layout) (events : List Event) (s : State)
        → Lawful l (T.fits tag) events s → Sound l (T.fits tag) s }
{}

/// The map of a front has the value of the first entry with the key.
#[tactic(auto, using(crate::proofs::CallLemmas::map_get))]
pub fn first_value_is_kept()
    ensures { (front : List Entry) (key : ℕ)
        → plain_get (plain_map front) key ≡ value_in front key }
{}
