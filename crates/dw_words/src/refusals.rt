//! Why words give nothing.

ghost use Rattle.std.specs.Prelude.{◌≡◌};
ghost use Rattle.dw_words.specs.declared.refusals.WordsRefusal.TheVariants.{OutOfMemory};

use std::alloc::{AllocError, AllocFailed};
use std::error::Error;
use std::fmt;

/// Why words give nothing.
#[derive(Clone, Copy, Debug, PartialEq, Eq, Drop)]
pub enum WordsRefusal {
    /// The words have no meaning.
    NoMeaning,
    /// Memory ran out.
    OutOfMemory,
}

impl fmt::Display for WordsRefusal {
    ghost use Rattle.std.specs.Prelude.{Some};
    ghost use Rattle.dw_words.specs.RefusalMessages.{words_message};

    ghost output = { λ refusal. Some (words_message refusal) };

    fn fmt<W: fmt::Write>(&self, f: &mut fmt::Formatter<W>) -> fmt::Result {
        f.write_str(match self {
            WordsRefusal::NoMeaning => "words not understood",
            WordsRefusal::OutOfMemory => "out of memory",
        })
    }
}

impl Error for WordsRefusal {}

impl From<AllocError> for WordsRefusal {
    ghost from_gives = { λ _ e. e ≡ OutOfMemory };

    fn from(_: AllocError) -> WordsRefusal {
        WordsRefusal::OutOfMemory
    }
}

impl<T: Drop> From<AllocFailed<T>> for WordsRefusal {
    ghost from_gives = { λ _ e. e ≡ OutOfMemory };

    fn from(_: AllocFailed<T>) -> WordsRefusal {
        WordsRefusal::OutOfMemory
    }
}
