//! The reading of a command line.

ghost use Rattle.std.specs.Prelude.{◌≡◌, IfOk, IfSome, map, option_map};
ghost use Rattle.std.specs.String.{string_bytes};
ghost use Rattle.dw_words.specs.GivenWords.{AreFewWorkers, meaning_view};
ghost use Rattle.dw_words.specs.Requests.{AreAddresses, AreFewUnits, IsWithinLimits, IsRequest, addresses_of};
ghost use Rattle.dw_words.specs.Requests.{addresses_request, asked, dump_request, exercise_asked};
ghost use Rattle.dw_words.specs.Requests.{exercise_request, file_asked, file_request};
ghost use Rattle.dw_words.specs.Requests.{meaning_of, plain_asked, query_request, request_view};
ghost use Rattle.dw_words.specs.Requests.{unit_count, words_alone};

use crate::command::{Command, find_command};
use crate::given::{Given, read_given};
use crate::numbers::{read_address, read_decimal};
use crate::refusals::WordsRefusal;
use std::alloc::Global;

/// The number of workers where none is given.
pub const DEFAULT_WORKERS: u64 = 4;

/// The greatest number of units that words may ask to be generated.
pub const MOST_UNITS: u64 = 9999;

/// A command line that has a meaning.
#[derive(Debug, Drop)]
pub enum Request<'w> {
    /// `units`, `sections`, `abbrev`, `lines` or `ranges`.
    File {
        /// The command.
        command: Command,
        /// The name of the file that it reads.
        file: &'w str,
    },
    /// `dump`: the entries and attributes of every unit.
    Dump {
        /// The name of the file.
        file: &'w str,
        /// The number of workers, from 1 to [`MOST_WORKERS`](crate::MOST_WORKERS).
        workers: u64,
        /// Whether `--stats` is given.
        stats: bool,
    },
    /// `addr`: one line per address.
    Addresses {
        /// The name of the file.
        file: &'w str,
        /// The addresses, in order; at least one.
        addresses: Vec<u64>,
    },
    /// `query`: the report of a visitor.
    Query {
        /// The name of the visitor.
        visitor: &'w str,
        /// The name of the file.
        file: &'w str,
    },
    /// `exercise`: dumps of a generated file.
    Exercise {
        /// The number of units, from 1 to [`MOST_UNITS`].
        units: u64,
        /// The number of workers, from 1 to [`MOST_WORKERS`](crate::MOST_WORKERS).
        workers: u64,
    },
}

/// Reads the words after the program's name: a command, and behind it what [`read_given`] reads.
///
/// | words | request |
/// |---|---|
/// | `units FILE`, and so `sections`, `abbrev`, `lines`, `ranges` | [`Request::File`] |
/// | `dump [--workers W] [--stats] FILE` | [`Request::Dump`] |
/// | `addr FILE ADDRESS..` | [`Request::Addresses`] |
/// | `query NAME FILE` | [`Request::Query`] |
/// | `exercise N [--workers W]` | [`Request::Exercise`] |
///
/// # Errors
///
/// [`WordsRefusal::NoMeaning`] where the words have none of these forms.
/// [`WordsRefusal::OutOfMemory`] for want of memory.
#[tactic(auto, unfolding(crate::specs::Requests::meaning_of))]
pub fn read_words<'w>(alloc: Global, words: &'w [String]) -> Result<Request<'w>, WordsRefusal>
    ensures request { IsRequest result (meaning_of (map string_bytes words.entry.now)) }
    ensures workers { IfOk result (λ request. IsWithinLimits (request_view request)) }
{
    let [name, behind @ ..] = words else {
        return Err(WordsRefusal::NoMeaning);
    };
    let given = read_given(alloc, behind)?;
    request_of(alloc, name.as_str(), &given)
}

/// What the words behind a command of this name ask for.
#[tactic(auto, unfolding(crate::specs::Requests::asked))]
fn request_of<'w>(alloc: Global, name: &str, given: &Given<'w>) -> Result<Request<'w>, WordsRefusal>
    requires { IfSome given.now.workers AreFewWorkers }
    ensures request { IsRequest result (asked name.now (meaning_view given.now)) }
    ensures workers { IfOk result (λ request. IsWithinLimits (request_view request)) }
{
    match name {
        "addr" => match words_alone(given) {
            Some(words) => addresses_request(alloc, words),
            None => Err(WordsRefusal::NoMeaning),
        },
        _ => match plain_request(name, given) {
            Some(request) => Ok(request),
            None => Err(WordsRefusal::NoMeaning),
        },
    }
}

/// The same for the commands that want no list of their own.
#[tactic(auto, unfolding(crate::specs::Requests::plain_asked))]
fn plain_request<'w>(name: &str, given: &Given<'w>) -> Option<Request<'w>>
    requires { IfSome given.now.workers AreFewWorkers }
    ensures request { option_map request_view result
        ≡ plain_asked name.now (meaning_view given.now) }
    ensures workers { IfSome result (λ request. IsWithinLimits (request_view request)) }
{
    match name {
        "query" => match words_alone(given) {
            Some(words) => query_request(words),
            None => None,
        },
        "dump" => dump_request(
            given.workers.unwrap_or(DEFAULT_WORKERS),
            given.stats,
            given.rest.as_slice(),
        ),
        "exercise" => exercise_asked(given),
        _ => file_asked(name, given),
    }
}

/// `COMMAND FILE`, of a command that takes no option.
#[tactic(auto, unfolding(crate::specs::Requests::file_asked))]
fn file_asked<'w>(name: &str, given: &Given<'w>) -> Option<Request<'w>>
    ensures request { option_map request_view result
        ≡ file_asked name.now (meaning_view given.now) }
    ensures workers { IfSome result (λ request. IsWithinLimits (request_view request)) }
{
    match find_command(name) {
        Some(command) => match words_alone(given) {
            Some(words) => file_request(command, words),
            None => None,
        },
        None => None,
    }
}

#[tactic(auto, unfolding(crate::specs::Requests::file_request))]
fn file_request<'w>(command: Command, words: &[&'w str]) -> Option<Request<'w>>
    ensures request { option_map request_view result
        ≡ file_request command (map (λ word. word.now) words.now) }
    ensures workers { IfSome result (λ request. IsWithinLimits (request_view request)) }
{
    let [file] = words else {
        return None;
    };
    Some(Request::File {
        command,
        file: *file,
    })
}

/// `dump [--workers W] [--stats] FILE`.
#[tactic(auto, unfolding(crate::specs::Requests::dump_request))]
fn dump_request<'w>(workers: u64, stats: bool, words: &[&'w str]) -> Option<Request<'w>>
    requires { AreFewWorkers workers }
    ensures request { option_map request_view result
        ≡ dump_request workers stats (map (λ word. word.now) words.now) }
    ensures workers { IfSome result (λ request. IsWithinLimits (request_view request)) }
{
    let [file] = words else {
        return None;
    };
    Some(Request::Dump {
        file: *file,
        workers,
        stats,
    })
}

/// `addr FILE ADDRESS..`.
#[tactic(auto, unfolding(crate::specs::Requests::addresses_request))]
fn addresses_request<'w>(alloc: Global, words: &[&'w str]) -> Result<Request<'w>, WordsRefusal>
    ensures request { IsRequest result (addresses_request (map (λ word. word.now) words.now)) }
    ensures workers { IfOk result (λ request. IsWithinLimits (request_view request)) }
{
    let [file, behind @ ..] = words else {
        return Err(WordsRefusal::NoMeaning);
    };
    let [_, ..] = behind else {
        return Err(WordsRefusal::NoMeaning);
    };
    let addresses = read_addresses(alloc, behind)?;
    Ok(Request::Addresses {
        file: *file,
        addresses,
    })
}

/// The words as addresses.
fn read_addresses(alloc: Global, words: &[&str]) -> Result<Vec<u64>, WordsRefusal>
    ensures { AreAddresses (λ v. v.items) result (addresses_of (map (λ word. word.now) words.now)) }
{
    let mut addresses = Vec::new(alloc);
    for word in words {
        match read_address(word) {
            Some(address) => addresses.push(address)?,
            None => return Err(WordsRefusal::NoMeaning),
        }
    }
    Ok(addresses)
}

/// `query NAME FILE`.
#[tactic(auto, unfolding(crate::specs::Requests::query_request))]
fn query_request<'w>(words: &[&'w str]) -> Option<Request<'w>>
    ensures request { option_map request_view result
        ≡ query_request (map (λ word. word.now) words.now) }
    ensures workers { IfSome result (λ request. IsWithinLimits (request_view request)) }
{
    let [visitor, file] = words else {
        return None;
    };
    Some(Request::Query {
        visitor: *visitor,
        file: *file,
    })
}

/// `exercise N [--workers W]`.
fn exercise_asked<'w>(given: &Given<'w>) -> Option<Request<'w>>
    requires { IfSome given.now.workers AreFewWorkers }
    ensures request { option_map request_view result ≡ exercise_asked (meaning_view given.now) }
    ensures workers { IfSome result (λ request. IsWithinLimits (request_view request)) }
{
    if given.stats {
        return None;
    }
    exercise_request(
        given.workers.unwrap_or(DEFAULT_WORKERS),
        given.rest.as_slice(),
    )
}

#[tactic(auto, unfolding(crate::specs::Requests::exercise_request))]
fn exercise_request<'w>(workers: u64, words: &[&'w str]) -> Option<Request<'w>>
    requires { AreFewWorkers workers }
    ensures request { option_map request_view result
        ≡ exercise_request workers (map (λ word. word.now) words.now) }
    ensures workers { IfSome result (λ request. IsWithinLimits (request_view request)) }
{
    let [word] = words else {
        return None;
    };
    match read_unit_count(word) {
        Some(units) => Some(Request::Exercise { units, workers }),
        None => None,
    }
}

/// The number of units that a word names.
#[tactic(auto, unfolding(crate::specs::Requests::unit_count))]
fn read_unit_count(word: &str) -> Option<u64>
    ensures count { result ≡ unit_count word.now }
    ensures few { IfSome result AreFewUnits }
{
    match read_decimal(word) {
        Some(count) if 1 <= count && count <= MOST_UNITS => Some(count),
        _ => None,
    }
}

/// The positional words, where no option is given.
#[tactic(auto, unfolding(crate::specs::Requests::words_alone))]
fn words_alone<'g, 'w>(given: &'g Given<'w>) -> Option<&'g [&'w str]>
    ensures { option_map (λ words. map (λ word. word.now) words.now) result
        ≡ words_alone (meaning_view given.now) }
{
    if given.workers.is_some() || given.stats {
        return None;
    }
    Some(given.rest.as_slice())
}
