//! The eight words in which the table keeps the facts of a unit.

ghost use Rattle.std.specs.Prelude.{◌≡◌, ◌<◌, ◌≤◌, ◌^◌, IfSome};
ghost use Rattle.entry_tree.specs.Facts.{FactsFit};
ghost use Rattle.map_core.specs.Machine.{IsWord};
ghost use Rattle.handle_cache.specs.Words.{AreWords, address_of_halves, fact_of_word, facts_of_words, high_half, low_half, word_of_fact, words_of_facts};

use form_values::{Bases, UnitFacts};

/// How many words a unit has.
pub(crate) const WORDS: usize = 8;

/// The word of an absent fact.
const ABSENT: u64 = 1;

/// What is added to the number of a fact, so that its word is neither 0 nor that of an absent one.
const PRESENT: u64 = 2;

/// The word of a fact.
#[tactic(auto, unfolding(crate::specs::Words::word_of_fact))]
fn word_of_fact(fact: Option<u64>) -> u64
    requires { IfSome fact (λ n. n ≤ 2 ^ 40) }
    ensures is { result ≡ word_of_fact fact }
    ensures word { IsWord result }
{
    match fact {
        Some(number) => number + PRESENT,
        None => ABSENT,
    }
}

/// The fact that a word tells.
#[tactic(auto, unfolding(crate::specs::Words::fact_of_word))]
fn fact_of_word(word: u64) -> Option<u64>
    ensures { result ≡ fact_of_word word }
{
    if word == ABSENT {
        None
    } else {
        Some(word.saturating_sub(PRESENT))
    }
}

/// The low 32 bits of an address.
#[tactic(auto, unfolding(crate::specs::Words::low_half))]
fn low_half(address: Option<u64>) -> Option<u64>
    ensures is { result ≡ low_half address }
    ensures most { IfSome result (λ n. n ≤ 2 ^ 40) }
{
    match address {
        Some(number) => Some(number % (1 << 32)),
        None => None,
    }
}

/// Its high 32 bits.
#[tactic(auto, unfolding(crate::specs::Words::high_half))]
fn high_half(address: Option<u64>) -> Option<u64>
    ensures is { result ≡ high_half address }
    ensures most { IfSome result (λ n. n ≤ 2 ^ 40) }
{
    match address {
        Some(number) => Some(number >> 32),
        None => None,
    }
}

/// The address of its halves.
#[tactic(auto, unfolding(crate::specs::Words::address_of_halves))]
fn address_of_halves(low: Option<u64>, high: Option<u64>) -> Option<u64>
    ensures { result ≡ address_of_halves low high }
{
    match (low, high) {
        (Some(low), Some(high)) => Some(high.wrapping_mul(1 << 32).wrapping_add(low)),
        _ => None,
    }
}

/// The words of a unit's facts.
#[tactic(auto, unfolding(crate::specs::Words::words_of_facts))]
pub(crate) fn words_of_facts(facts: &UnitFacts, end: u64) -> [u64; WORDS]
    requires fit { FactsFit end facts.now }
    requires end { end < 2 ^ 32 }
    ensures words { result ≡ words_of_facts facts.entry.now }
    ensures each { AreWords result }
{
    [
        word_of_fact(facts.bases.text),
        word_of_fact(facts.bases.address),
        word_of_fact(facts.bases.ranges),
        word_of_fact(facts.bases.locations),
        word_of_fact(low_half(facts.low_pc)),
        word_of_fact(high_half(facts.low_pc)),
        word_of_fact(facts.line),
        word_of_fact(facts.root_end),
    ]
}

/// The facts that the words of a unit tell.
#[tactic(auto, unfolding(crate::specs::Words::facts_of_words))]
pub(crate) fn facts_of_words(words: &[u64; WORDS]) -> UnitFacts
    ensures { result ≡ facts_of_words words.entry.now }
{
    UnitFacts {
        bases: Bases {
            text: fact_of_word(words[0]),
            address: fact_of_word(words[1]),
            ranges: fact_of_word(words[2]),
            locations: fact_of_word(words[3]),
        },
        low_pc: address_of_halves(fact_of_word(words[4]), fact_of_word(words[5])),
        line: fact_of_word(words[6]),
        root_end: fact_of_word(words[7]),
    }
}
