//! The facts of a unit as they are found through the table (DWARF 5 section 3.1.1).

ghost use Rattle.std.specs.Prelude.{◌≡◌, ◌⊎◌, ◌<◌, ◌≤◌, ℕ, true, IfOk, IfSome, IsSome, OnOk, length, slice_index};
ghost use Rattle.unit_headers.specs.Headers.{unit_count};
ghost use Rattle.entry_tree.specs.Facts.{FactsFit};
ghost use Rattle.entry_tree.specs.Keys.{GainsOnly};
ghost use Rattle.entry_tree.specs.Units.{unit_facts};
ghost use Rattle.map_core.specs.Machine.{IsWord};
ghost use Rattle.map_cells.specs.Seen.{Follows};
ghost use Rattle.handle_cache.specs.Handles.{Belongs, HasWords, IsFactKey, IsRootKey, IsWordKey, front_keys, is_spent, own_keys, sections_in};
ghost use Rattle.handle_cache.specs.Scanned.{FitsFile, word_key};
ghost use Rattle.handle_cache.specs.Words.{AreWords};

use crate::cached::Cached;
use crate::facts::HandlePass;
use crate::handle::Handle;
use crate::words::{WORDS, facts_of_words, words_of_facts};
use abbrev_decl::Steps;
use dw_fields::Fault;
use entry_tree::root_facts;
use form_values::UnitFacts;

/// The key of the first word of the first unit. Keys of declarations are below it.
const FIRST_WORD: u64 = 1 << 63;

/// The key of one of a unit's words.
fn word_key(unit: u32, word: usize) -> u64
    requires { word < 8 }
    ensures is { result ≡ word_key unit word }
    ensures word { IsWord result }
{
    FIRST_WORD + (u64::from(unit) * WORDS as u64 + word as u64)
}

impl<'f> Handle<'f> {
    /// The facts of unit `unit`: the bases, the lowest address, the offset of the line program, and the
    /// place behind the root, as the unit's header and its root tell them.
    ///
    /// It asks the table first, and counts no step where the table has the unit's eight words. Else it reads
    /// the header and the root, and puts the words into the table. A table without room stays as it is.
    ///
    /// # Errors
    /// Those of [`unit_headers::UnitIndex::header`], and then those of [`entry_tree::root_facts`].
    pub fn unit<L>(
        &self,
        pass: &mut HandlePass<'f>,
        unit: u32,
        steps: &mut Steps<L>,
    ) -> Result<UnitFacts, Fault>
        requires belongs { Belongs self.now pass.old }
        requires unit { unit < unit_count (sections_in self.now).info (sections_in self.now).order }
        ensures answer { result ≡ unit_facts (sections_in self.now) unit }
        ensures belongs { Belongs self.now pass.new }
        ensures follows { Follows pass.old pass.new }
        ensures known { HasWords (front_keys pass.old) unit 8 → steps.new ≡ steps.old }
        ensures noted { OnOk result
            (HasWords (front_keys pass.new) unit 8 ⊎ (is_spent pass.new ≡ true)) }
        ensures placed { GainsOnly (IsFactKey (sections_in self.now) unit)
            (own_keys pass.old) (own_keys pass.new) }
    {
        self.recall();
        if let Some(words) = self.find_words(pass, unit) {
            return Ok(facts_of_words(&words));
        }
        let facts = self.read_facts(pass, unit, steps)?;
        self.keep_words(
            pass,
            unit,
            &words_of_facts(&facts, self.sections.info.len() as u64),
        );
        Ok(facts)
    }

    /// The words that the table has for a unit, if it has all.
    fn find_words(&self, pass: &mut HandlePass<'f>, unit: u32) -> Option<[u64; WORDS]>
        requires belongs { Belongs self.now pass.old }
        ensures belongs { Belongs self.now pass.new }
        ensures follows { Follows pass.old pass.new }
        ensures own { own_keys pass.new ≡ own_keys pass.old }
        ensures values { IfSome result (λ words. (word : ℕ) → word < 8
            → FitsFile self.now.file (word_key unit word) (slice_index words word)) }
        ensures held { IfSome result (λ words. HasWords (front_keys pass.new) unit 8) }
        ensures kept { HasWords (front_keys pass.old) unit 8 → IsSome result }
    {
        let mut words = [0; WORDS];
        for word in 0..WORDS {
            let Some(value) = self.find_value(pass, word_key(unit, word)) else {
                return None;
            };
            words[word] = value;
        }
        Some(words)
    }

    /// Puts the words of a unit into the table.
    fn keep_words(&self, pass: &mut HandlePass<'f>, unit: u32, words: &[u64; WORDS])
        requires belongs { Belongs self.now pass.old }
        requires each { AreWords words.now }
        requires values { (word : ℕ) → word < 8
            → FitsFile self.now.file (word_key unit word) (slice_index words.now word) }
        ensures belongs { Belongs self.now pass.new }
        ensures follows { Follows pass.old pass.new }
        ensures noted { HasWords (front_keys pass.new) unit 8 ⊎ (is_spent pass.new ≡ true) }
        ensures placed { GainsOnly (IsWordKey unit) (own_keys pass.old) (own_keys pass.new) }
    {
        for word in 0..WORDS {
            self.keep_value(pass, word_key(unit, word), words[word]);
        }
    }

    /// Reads the header and the root of a unit.
    #[tactic(auto, unfolding(entry_tree::specs::Units::unit_facts))]
    fn read_facts<L>(
        &self,
        pass: &mut HandlePass<'f>,
        unit: u32,
        steps: &mut Steps<L>,
    ) -> Result<UnitFacts, Fault>
        requires belongs { Belongs self.now pass.old }
        requires unit { unit < unit_count (sections_in self.now).info (sections_in self.now).order }
        ensures answer { result ≡ unit_facts (sections_in self.now) unit }
        ensures fit { IfOk result (FactsFit (length (sections_in self.now).info)) }
        ensures belongs { Belongs self.now pass.new }
        ensures follows { Follows pass.old pass.new }
        ensures placed { GainsOnly (IsRootKey (sections_in self.now) unit)
            (own_keys pass.old) (own_keys pass.new) }
    {
        let header = self.header(unit)?;
        let mut cached = Cached { handle: self, pass };
        root_facts(&mut cached, &header, self.sections(), steps)
    }
}
