//! The parse of the words by `clap`.

ghost use Rattle.std.specs.Prelude.{◌≡◌, IfOk, map};
ghost use Rattle.std.specs.String.{string_bytes};
ghost use Rattle.clap.specs.Words.{app_of};
ghost use Rattle.dw_words.specs.GivenWords.{meaning};
ghost use Rattle.dw_words.specs.Parser.{IsParse, words_app};

use crate::refusals::WordsRefusal;
use clap::error::ErrorKind;
use clap::{Arg, ArgAction, ArgMatches, Command};
use std::alloc::{AllocError, Global};

/// Parses the words. An error of `clap` is want of memory where its kind says so, and else says that
/// the words have no meaning.
pub(crate) fn parse<'w>(alloc: Global, words: &'w [String]) -> Result<ArgMatches<'w>, WordsRefusal>
    ensures { IsParse result (meaning (map string_bytes words.entry.now)) }
{
    let command = parser(alloc)?;
    match command.try_get_matches_from(words) {
        Ok(matches) => Ok(matches),
        Err(error) => match error.kind() {
            ErrorKind::OutOfMemory => Err(WordsRefusal::OutOfMemory),
            _ => Err(WordsRefusal::NoMeaning),
        },
    }
}

/// The command that `clap` is given: an option with a value, a flag, and words.
fn parser<'w>(alloc: Global) -> Result<Command<'w>, AllocError>
    ensures { IfOk result (λ c. app_of c ≡ words_app) }
{
    let workers = Arg::new(alloc, "workers").long("workers");
    let stats = Arg::new(alloc, "stats")
        .long("stats")
        .action(ArgAction::SetTrue);
    let rest = Arg::new(alloc, "rest").action(ArgAction::Append);
    let command = Command::new(alloc, "dwtool")
        .no_binary_name(true)
        .disable_help_flag(true);
    let command = command.arg(workers)?;
    let command = command.arg(stats)?;
    let command = command.arg(rest)?;
    Ok(command)
}
