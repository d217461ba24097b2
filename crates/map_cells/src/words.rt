//! What a key word and a value word may be.
ghost use Rattle.std.specs.Prelude.{◌≡◌};
ghost use Rattle.map_cells.specs.Words.{key_number, value_number, IsProperKey, IsProperValue};

/// A key word: empty, sealed, or a key, which is neither 0 nor the greatest number.
#[derive(Clone, Copy)]
pub enum KeyWord {
    Empty,
    Sealed,
    Key(u64),
}

/// A value word: unset, closed, or a value, which is neither 0 nor the greatest number.
#[derive(Clone, Copy)]
pub enum ValueWord {
    Unset,
    Closed,
    Value(u64),
}

impl KeyWord {
    /// What a word of this number is.
    pub(crate) fn of(word: u64) -> KeyWord
        ensures number { key_number result ≡ word }
        ensures proper { IsProperKey result }
    {
        match word {
            0 => KeyWord::Empty,
            u64::MAX => KeyWord::Sealed,
            key => KeyWord::Key(key),
        }
    }
}

impl ValueWord {
    /// What a word of this number is.
    pub(crate) fn of(word: u64) -> ValueWord
        ensures number { value_number result ≡ word }
        ensures proper { IsProperValue result }
    {
        match word {
            0 => ValueWord::Unset,
            u64::MAX => ValueWord::Closed,
            value => ValueWord::Value(value),
        }
    }
}
