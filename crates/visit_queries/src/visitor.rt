//! Visitors of entries, and what they are shown.

ghost use Rattle.std.specs.Prelude.{◌≡◌, ℕ, List, IfOk, OnOk};
ghost use Rattle.visit_queries.specs.declared.visitor.Turn.{Turn};
ghost use Rattle.visit_queries.specs.Shown.{ShownEntry, shown_entry};
ghost use Rattle.visit_queries.specs.Seen.{Reports};

use std::alloc::AllocError;

/// An entry as a visitor is shown it.
#[derive(Clone, Copy, Debug)]
pub struct EntryView<'v> {
    /// The number of its unit.
    pub unit: u32,
    /// The place of its code in `.debug_info`.
    pub place: u64,
    /// How many entries of its unit it stands below.
    pub depth: u32,
    /// Its tag.
    pub tag: u64,
    /// The text of its first attribute `DW_AT_name`, without the zero byte. `None` where it has no such
    /// attribute, or the first one's value is no text.
    pub name: Option<&'v [u8]>,
}

/// What a visitor answers to an entry.
#[derive(Clone, Copy, Debug, PartialEq, Eq)]
pub enum Turn {
    /// It is to be shown the next entry.
    More,
    /// It has seen enough.
    Enough,
}

/// Is shown entries one after another, and reports on them at the end.
///
/// Its meanings: `state` is what it has seen, as a list; `step` is the state and the turn that an entry
/// makes of a state; `text` is the report on a state.
pub trait Visitor: Drop {
    ghost state: { Self → List ℕ };

    ghost step: { Self → ShownEntry → List ℕ → List ℕ × Turn };

    ghost text: { Self → List ℕ → List ℕ };

    /// Takes one entry.
    ///
    /// # Errors
    /// Want of memory; nothing is said of the state then.
    fn see(&mut self, entry: EntryView<'_>) -> Result<Turn, AllocError>
        ensures step { IfOk result (λ turn. step self.old (shown_entry entry.entry) (state self.old)
            ≡ (state self.new, turn)) }
        ensures same_step { OnOk result ((e : ShownEntry) (s : List ℕ)
            → step self.new e s ≡ step self.old e s) }
        ensures same_text { OnOk result ((s : List ℕ) → text self.new s ≡ text self.old s) };

    /// Appends the text of its state.
    ///
    /// # Errors
    /// Want of memory; `out` then holds what it held, and behind that a prefix of the text.
    fn report(&self, out: &mut Vec<u8>) -> Result<(), AllocError>
        ensures { Reports result out.old.items out.new.items (text self.now (state self.now)) };
}

/// A visitor in a box is one itself.
impl Visitor for Box<dyn Visitor> {
    ghost state = { λ b. (Visitor-box b).state b.value };

    ghost step = { λ b e s. (Visitor-box b).step b.value e s };

    ghost text = { λ b s. (Visitor-box b).text b.value s };

    fn see(&mut self, entry: EntryView<'_>) -> Result<Turn, AllocError> {
        (**self).see(entry)
    }

    fn report(&self, out: &mut Vec<u8>) -> Result<(), AllocError> {
        (**self).report(out)
    }
}
