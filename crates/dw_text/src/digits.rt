//! The hexadecimal digits of a number, written from its end.
ghost use Rattle.std.specs.Prelude.{◌≡◌, ◌+◌, ◌*◌, ◌/◌, ◌%◌, ◌≤◌, ◌∷◌, ◌++◌, false, length, drop};
ghost use Rattle.std.specs.Fmt.{digit_glyph};
ghost use Rattle.dw_text.specs.Bytes.{hex_bytes};
ghost use Rattle.dw_text.specs.Numbers.{hex, sixteen};

use crate::glyphs::glyph;

/// The two hexadecimal digits of each byte.
static PAIRS: [u8; 512] =
    *b"000102030405060708090a0b0c0d0e0f101112131415161718191a1b1c1d1e1f202122232425262728292a2b2c2d2e2f303132333435363738393a3b3c3d3e3f404142434445464748494a4b4c4d4e4f505152535455565758595a5b5c5d5e5f606162636465666768696a6b6c6d6e6f707172737475767778797a7b7c7d7e7f808182838485868788898a8b8c8d8e8f909192939495969798999a9b9c9d9e9fa0a1a2a3a4a5a6a7a8a9aaabacadaeafb0b1b2b3b4b5b6b7b8b9babbbcbdbebfc0c1c2c3c4c5c6c7c8c9cacbcccdcecfd0d1d2d3d4d5d6d7d8d9dadbdcdddedfe0e1e2e3e4e5e6e7e8e9eaebecedeeeff0f1f2f3f4f5f6f7f8f9fafbfcfdfeff";

/// Fills in the two hexadecimal digits of a byte at a place.
#[inline(always)]
fn fill_pair(into: &mut [u8], place: usize, byte: u8)
    requires { place + 2 ≤ length into.old }
    ensures { drop place into.new ≡ digit_glyph false (byte / 16) ∷ digit_glyph false (byte % 16)
        ∷ drop (place + 2) into.old }
{
    let pair = byte as usize * 2;
    let (high, low) = (PAIRS[pair], PAIRS[pair + 1]);
    into[place] = high;
    into[place + 1] = low;
}

/// Fills in the hexadecimal digits of a byte, one or two, so that they end at `end`, and answers where
/// they begin.
#[inline(always)]
fn fill_front(into: &mut [u8], end: usize, byte: u8) -> usize
    requires { (2 ≤ end) × (end ≤ length into.old) }
    ensures begins { result ≤ end }
    ensures few { end ≤ result + 2 }
    ensures text { drop result into.new ≡ hex byte ++ drop end into.old }
{
    if byte >= 16 {
        fill_pair(into, end - 2, byte);
        return end - 2;
    }
    into[end - 1] = glyph(byte);
    end - 1
}

/// Fills in the hexadecimal digits of `number` so that they end at `end`, and answers where they
/// begin.
#[inline]
pub fn fill_hex(into: &mut [u8], end: usize, number: u64) -> usize
    requires room { 16 ≤ end }
    requires within { end ≤ length into.old }
    ensures begins { result ≤ end }
    ensures few { end ≤ result + 16 }
    ensures text { drop result into.new ≡ hex number ++ drop end into.old }
{
    let mut first = end;
    let mut rest = number;
    while rest >= 256 {
        first -= 2;
        fill_pair(into, first, (rest % 256) as u8);
        rest /= 256;
    }
    fill_front(into, first, rest as u8)
}

/// Fills the sixteen hexadecimal digits of `number`, leading zeros among them.
#[inline(always)]
pub fn fill_sixteen(into: &mut [u8; 16], number: u64)
    ensures { into.new ≡ sixteen number }
{
    let mut first = 16;
    let mut rest = number;
    while first > 0 {
        first -= 1;
        into[first] = glyph((rest % 16) as u8);
        rest /= 16;
    }
}

/// Fills in two hexadecimal digits for each byte so that they end at `end`, and answers where they begin.
pub fn fill_hex_bytes(into: &mut [u8], end: usize, bytes: &[u8]) -> usize
    requires room { 2 * length bytes.now ≤ end }
    requires within { end ≤ length into.old }
    ensures begins { result + 2 * length bytes.now ≡ end }
    ensures text { drop result into.new ≡ hex_bytes bytes.now ++ drop end into.old }
{
    let mut first = end;
    let mut left = bytes.len();
    while left > 0 {
        left -= 1;
        first -= 2;
        fill_pair(into, first, bytes[left]);
    }
    first
}
