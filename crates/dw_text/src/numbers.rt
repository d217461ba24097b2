//! Numbers: decimal, hexadecimal without leading zeros, fixed sixteen hexadecimal digits, and
//! signed decimal.
ghost use Rattle.std.specs.Prelude.{◌≡◌};
ghost use Rattle.dw_text.specs.Added.{Adds, labelled};
ghost use Rattle.dw_text.specs.Numbers.{decimal, hex, sixteen, signed};

use crate::digits::{fill_hex, fill_sixteen};
use crate::words::push_text;
use itoa::write_digits;
use std::alloc::AllocError;

/// As many digits as a `u64` has in the base ten.
const MOST_DECIMAL: usize = 20;
/// As many digits as a `u64` has in the base sixteen.
const MOST_HEX: usize = 16;

/// Appends a number in decimal digits.
#[tactic(auto, using(crate::proofs::Fill::few_digits))]
pub fn push_decimal(out: &mut Vec<u8>, number: u64) -> Result<(), AllocError>
    ensures { Adds result out.old.items out.new.items (decimal number) }
{
    let mut digits = [0; MOST_DECIMAL];
    let first = write_digits(number, &mut digits, MOST_DECIMAL);
    out.extend_from_slice(&digits[first..])
}

/// Appends a number in hexadecimal digits, without leading zeros and in small letters.
pub fn push_hex(out: &mut Vec<u8>, number: u64) -> Result<(), AllocError>
    ensures { Adds result out.old.items out.new.items (hex number) }
{
    let mut digits = [0; MOST_HEX];
    let first = fill_hex(&mut digits, MOST_HEX, number);
    out.extend_from_slice(&digits[first..])
}

/// Appends a number in exactly sixteen hexadecimal digits.
pub fn push_sixteen(out: &mut Vec<u8>, number: u64) -> Result<(), AllocError>
    ensures { Adds result out.old.items out.new.items (sixteen number) }
{
    let mut digits = [0; MOST_HEX];
    fill_sixteen(&mut digits, number);
    out.extend_from_slice(&digits)
}

/// Appends a signed number in decimal digits, behind `-` where it is below 0.
pub fn push_signed(out: &mut Vec<u8>, number: i64) -> Result<(), AllocError>
    ensures { Adds result out.old.items out.new.items (signed number) }
{
    if number < 0 {
        push_decimal_after(out, b"-", number.unsigned_abs())
    } else {
        push_decimal(out, number.unsigned_abs())
    }
}

/// Appends a word, and behind it a number in decimal digits.
#[tactic(auto, unfolding(crate::specs::Added::labelled))]
pub fn push_decimal_after(out: &mut Vec<u8>, word: &[u8], number: u64) -> Result<(), AllocError>
    ensures { Adds result out.old.items out.new.items (labelled word.now (decimal number)) }
{
    push_text(out, word)?;
    push_decimal(out, number)?;
    Ok(())
}

/// Appends a word, and behind it a number in hexadecimal digits.
#[tactic(auto, unfolding(crate::specs::Added::labelled))]
pub fn push_hex_after(out: &mut Vec<u8>, word: &[u8], number: u64) -> Result<(), AllocError>
    ensures { Adds result out.old.items out.new.items (labelled word.now (hex number)) }
{
    push_text(out, word)?;
    push_hex(out, number)?;
    Ok(())
}

/// Appends a word, and behind it a number in exactly sixteen hexadecimal digits.
#[tactic(auto, unfolding(crate::specs::Added::labelled))]
pub fn push_sixteen_after(out: &mut Vec<u8>, word: &[u8], number: u64) -> Result<(), AllocError>
    ensures { Adds result out.old.items out.new.items (labelled word.now (sixteen number)) }
{
    push_text(out, word)?;
    push_sixteen(out, number)?;
    Ok(())
}

/// Appends a word, and behind it a signed number in decimal digits.
#[tactic(auto, unfolding(crate::specs::Added::labelled))]
pub fn push_signed_after(out: &mut Vec<u8>, word: &[u8], number: i64) -> Result<(), AllocError>
    ensures { Adds result out.old.items out.new.items (labelled word.now (signed number)) }
{
    push_text(out, word)?;
    push_signed(out, number)?;
    Ok(())
}
