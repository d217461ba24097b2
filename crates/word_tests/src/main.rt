//! Reads the words of the lines that standard input has, and prints behind each line what it means.
//!
//! A line is one of these; in the first two `~` stands for an empty word:
//!
//! - `given WORD ..`: the words behind a command. Printed are the number of workers where it is given,
//!   `stats`, and the positional words in brackets, or `nothing`.
//! - `words WORD ..`: a whole command line. Printed is what it asks for.
//! - `number [TEXT]`: the text as a decimal number, and as an address.
//!
//! The clauses of `dw_words` say what words mean. These lines show what no clause can: that they are read
//! where memory is ample. What each line must print was written by hand.
#![tactic(auto)]

use dw_words::{Request, WordsRefusal, read_address, read_decimal, read_given, read_words};
use std::alloc::{AllocError, Global};
use std::io;

fn main(rt: HostRuntime) -> io::Result<()> {
    let alloc = rt.alloc();
    for line in rt.lines(alloc) {
        let line = line?;
        let text = meaning_of(alloc, line.as_str())?;
        println!(rt; "{line} => {text}")?;
    }
    let refusal = WordsRefusal::OutOfMemory;
    println!(rt; "{refusal}")
}

/// What a line means, as a text.
fn meaning_of(alloc: Global, line: &str) -> Result<String, AllocError> {
    let (verb, rest) = line.split_once(' ').unwrap_or((line, ""));
    match verb {
        "given" => {
            let words = words_of(alloc, rest)?;
            given_text(alloc, words.as_slice())
        }
        "words" => {
            let words = words_of(alloc, rest)?;
            request_text(alloc, words.as_slice())
        }
        _ => {
            let text = rest.strip_prefix("[").unwrap_or(rest);
            let text = text.strip_suffix("]").unwrap_or(text);
            let decimal = number_text(alloc, read_decimal(text))?;
            let address = number_text(alloc, read_address(text))?;
            format!(in alloc; "{decimal} {address}")
        }
    }
}

/// The words of a line; `~` is an empty word.
fn words_of(alloc: Global, line: &str) -> Result<Vec<String>, AllocError> {
    let mut words = Vec::new(alloc);
    for word in line.split_whitespace() {
        let word = if word == "~" { "" } else { word };
        words.push(String::from_str(alloc, word)?)?;
    }
    Ok(words)
}

/// A number, or that there is none.
fn number_text(alloc: Global, number: Option<u64>) -> Result<String, AllocError> {
    match number {
        Some(number) => format!(in alloc; "{number}"),
        None => String::from_str(alloc, "none"),
    }
}

/// What words behind a command give, as a text.
fn given_text(alloc: Global, words: &[String]) -> Result<String, AllocError> {
    let given = match read_given(alloc, words) {
        Ok(given) => given,
        Err(refusal) => return format!(in alloc; "{refusal}"),
    };
    let mut text = match given.workers {
        Some(count) => format!(in alloc; "{count} ")?,
        None => String::new(alloc),
    };
    if given.stats {
        text.push_str("stats ")?;
    }
    for word in &given.rest {
        text.push_str("[")?;
        text.push_str(word)?;
        text.push_str("]")?;
    }
    if text.as_str() == "" {
        text.push_str("nothing")?;
    }
    Ok(text)
}

/// What a command line asks for, as a text.
fn request_text(alloc: Global, words: &[String]) -> Result<String, AllocError> {
    match read_words(alloc, words) {
        Ok(Request::File { command, file }) => format!(in alloc; "{command:?} [{file}]"),
        Ok(
            Request::Dump {
                file,
                workers,
                stats,
            },
        ) => format!(in alloc; "dump [{file}] {workers} {stats}"),
        Ok(Request::Addresses { file, addresses }) => {
            let mut text = format!(in alloc; "addr [{file}]")?;
            for address in &addresses {
                let one = format!(in alloc; " {address}")?;
                text.push_str(one.as_str())?;
            }
            Ok(text)
        }
        Ok(Request::Query { visitor, file }) => format!(in alloc; "query [{visitor}] [{file}]"),
        Ok(Request::Exercise { units, workers }) => {
            format!(in alloc; "exercise {units} {workers}")
        }
        Err(refusal) => format!(in alloc; "{refusal}"),
    }
}
