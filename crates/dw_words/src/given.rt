//! The words behind a command.

ghost use Rattle.std.specs.Prelude.{◌≡◌, IfOk, IfSome, [], map, codes};
ghost use Rattle.std.specs.Option.{unwrap_or};
ghost use Rattle.std.specs.String.{string_bytes};
ghost use Rattle.clap.specs.Words.{all_of, first_of, found_of, rows_of};
ghost use Rattle.dw_words.specs.GivenWords.{AreFewWorkers, GivenWords, IsMeaning, meaning, settle, worker_count};
ghost use Rattle.dw_words.specs.Parser.{Ends, workers_of};

use crate::numbers::read_decimal;
use crate::parser::parse;
use crate::refusals::WordsRefusal;
use clap::ArgMatches;
use std::alloc::{AllocError, Global};

/// The greatest number of workers that words may ask for.
pub const MOST_WORKERS: u64 = 64;

/// What the words behind a command give.
#[derive(Debug, Drop)]
pub struct Given<'w> {
    /// The value of `--workers`, from 1 to [`MOST_WORKERS`], where it is given.
    pub workers: Option<u64>,
    /// Whether `--stats` is given.
    pub stats: bool,
    /// The positional words, in order.
    pub rest: Vec<&'w str>,
}

/// Reads the words behind a command.
///
/// Before a word `--`, the word `--workers` takes the next word as its value, `--workers=V` has the
/// value V, and `--stats` is a flag. All other words, and all words behind the first `--`, are the
/// positional words.
///
/// # Errors
///
/// [`WordsRefusal::NoMeaning`] where an option is given twice or has no value, the number of workers
/// isn't a decimal number from 1 to [`MOST_WORKERS`], `--stats` has a value, or another word before
/// `--` begins with `-` and isn't `-` alone. [`WordsRefusal::OutOfMemory`] for want of memory.
pub fn read_given<'w>(alloc: Global, words: &'w [String]) -> Result<Given<'w>, WordsRefusal>
    ensures meaning { IsMeaning result (meaning (map string_bytes words.entry.now)) }
    ensures workers { IfOk result (λ given. IfSome given.workers AreFewWorkers) }
{
    let matches = parse(alloc, words)?;
    given_in(alloc, &matches)
}

/// What is found in the matches of a parse.
fn given_in<'w>(alloc: Global, matches: &ArgMatches<'w>) -> Result<Given<'w>, WordsRefusal>
    ensures meaning { (g : GivenWords) → Ends (rows_of (found_of matches.now)) g
        → IsMeaning result (settle g) }
    ensures workers { IfOk result (λ given. IfSome given.workers AreFewWorkers) }
{
    let workers = workers_in(matches)?;
    let stats = matches.get_flag("stats");
    let rest = rest_in(alloc, matches)?;
    Ok(Given {
        workers,
        stats,
        rest,
    })
}

/// The number of workers, where it is given.
fn workers_in(matches: &ArgMatches<'_>) -> Result<Option<u64>, WordsRefusal>
    ensures workers { result
        ≡ workers_of (first_of (codes "workers") (rows_of (found_of matches.now))) }
    ensures few { IfOk result (λ workers. IfSome workers AreFewWorkers) }
{
    match matches.get_str("workers") {
        Some(value) => match read_worker_count(value) {
            Some(count) => Ok(Some(count)),
            None => Err(WordsRefusal::NoMeaning),
        },
        None => Ok(None),
    }
}

/// The positional words.
fn rest_in<'w>(alloc: Global, matches: &ArgMatches<'w>) -> Result<Vec<&'w str>, AllocError>
    ensures { IfOk result (λ rest. map (λ word. word.now) rest.items
        ≡ unwrap_or (all_of (codes "rest") (rows_of (found_of matches.now))) []) }
{
    let mut rest = Vec::new(alloc);
    match matches.get_raw("rest") {
        Some(words) => {
            rest.extend_from_slice(words)?;
            Ok(rest)
        }
        None => Ok(rest),
    }
}

/// The number of workers that a word names.
#[tactic(auto, unfolding(crate::specs::GivenWords::worker_count))]
fn read_worker_count(word: &str) -> Option<u64>
    ensures count { result ≡ worker_count word.now }
    ensures few { IfSome result AreFewWorkers }
{
    match read_decimal(word) {
        Some(count) if 1 <= count && count <= MOST_WORKERS => Some(count),
        _ => None,
    }
}
