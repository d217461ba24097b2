//! The words of a command line of `dwtool`.
//!
//! [`read_words`] reads a whole command line as a [`Request`]. [`read_given`] reads the words behind
//! the command with `clap`: the options `--workers` and `--stats`, and all other words in their
//! order. Their contracts give the meaning of every list of words, as `specs/Requests.antt` and
//! `specs/GivenWords.antt` define it, with no word of `clap`. [`read_decimal`] and [`read_address`]
//! read numbers.
#![tactic(auto)]

mod command;
mod given;
mod numbers;
mod parser;
mod refusals;
mod request;

pub use command::{Command, find_command};
pub use given::{Given, MOST_WORKERS, read_given};
pub use numbers::{read_address, read_decimal};
pub use refusals::WordsRefusal;
pub use request::{DEFAULT_WORKERS, MOST_UNITS, Request, read_words};
