//! Numbers on a command line.

ghost use Rattle.std.specs.Prelude.{◌≡◌, ◌≤◌};
ghost use Rattle.dw_words.specs.Numbers.{address_of_word, decimal_of, number_in};

/// The number of a word of one to twenty decimal digits, or `None` where the word is none or its
/// number doesn't fit 64 bits. No sign stands before the digits.
pub fn read_decimal(word: &str) -> Option<u64>
    ensures { result ≡ decimal_of word.now }
{
    read_number(word, 10, 20)
}

/// The address of a word: `0x` and one to sixteen hexadecimal digits of either case, or a decimal
/// number as [`read_decimal`] takes it. `None` where the word is neither.
#[tactic(auto, unfolding(crate::specs::Numbers::address_of_word))]
pub fn read_address(word: &str) -> Option<u64>
    ensures { result ≡ address_of_word word.now }
{
    match word.strip_prefix("0x") {
        Some(digits) => read_number(digits, 16, 16),
        None => read_decimal(word),
    }
}

/// The number of one digit to `most` digits in the base.
#[tactic(auto, unfolding(crate::specs::Numbers::number_in))]
fn read_number(word: &str, base: u32, most: usize) -> Option<u64>
    requires least { 2 ≤ base }
    requires greatest { base ≤ 36 }
    ensures { result ≡ number_in base most word.now }
{
    if word.len() > most || word.starts_with('+') {
        return None;
    }
    u64::from_str_radix(word, base).ok()
}
