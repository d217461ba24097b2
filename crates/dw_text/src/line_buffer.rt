//! A short line that is written from its end to its start.

ghost use Rattle.std.specs.Prelude.{◌≡◌, ◌+◌, ◌-◌, ◌*◌, ◌≤◌, [], ◌++◌, length, drop};
ghost use Rattle.dw_text.specs.Added.{labelled};
ghost use Rattle.dw_text.specs.Bytes.{hex_bytes};
ghost use Rattle.dw_text.specs.Numbers.{decimal, hex, signed, sixteen};

use crate::digits::{fill_hex, fill_hex_bytes, fill_sixteen};
use itoa::write_digits;
use std::marker::Model;

/// How many bytes a line has room for.
const ROOM: usize = 256;

/// A line of at most 256 bytes. Each piece is put before those that stand, so that the digits of a
/// number come straight to their places, and the line is appended to a text by one copy.
#[derive(Drop)]
pub struct LineBuffer {
    bytes: [u8; ROOM],
    first: usize,
}

impl Model for LineBuffer {
    ghost use Rattle.std.specs.Prelude.{◌≤◌, ℕ, List, drop};

    ghost Value = { List ℕ };

    ghost view = { λ b. drop b.first b.bytes };

    ghost invariant = { λ b. b.first ≤ 256 };
}

impl LineBuffer {
    /// An empty line.
    pub fn new() -> LineBuffer
        ensures { result ≡ [] }
    {
        LineBuffer {
            bytes: [0; ROOM],
            first: ROOM,
        }
    }

    /// The line.
    #[inline]
    pub fn text(&self) -> &[u8]
        ensures { result.now ≡ self.now }
    {
        &self.bytes[self.first..]
    }

    /// Takes all pieces away.
    #[inline]
    pub fn clear(&mut self)
        ensures { self.new ≡ [] }
    {
        self.first = ROOM;
    }

    /// Puts a word before what stands.
    #[inline(always)]
    pub fn prepend_text(&mut self, word: &[u8])
        requires { length self.old + length word.now ≤ 256 }
        ensures { self.new ≡ word.now ++ self.old }
    {
        let first = self.first - word.len();
        self.bytes[first..self.first].copy_from_slice(word);
        self.first = first;
    }

    /// Puts a word and a decimal number before what stands.
    #[inline(always)]
    #[tactic(auto, unfolding(crate::specs::Added::labelled))]
    pub fn prepend_decimal_after(&mut self, word: &[u8], number: u64)
        requires { length self.old + length word.now + 20 ≤ 256 }
        ensures text { self.new ≡ labelled word.now (decimal number) ++ self.old }
        ensures size { length self.new ≤ length self.old + length word.now + 20 }
    {
        self.first = write_digits(number, &mut self.bytes, self.first);
        self.prepend_text(word);
    }

    /// Puts a word and a hexadecimal number before what stands.
    #[inline(always)]
    #[tactic(auto, unfolding(crate::specs::Added::labelled))]
    pub fn prepend_hex_after(&mut self, word: &[u8], number: u64)
        requires { length self.old + length word.now + 16 ≤ 256 }
        ensures text { self.new ≡ labelled word.now (hex number) ++ self.old }
        ensures size { length self.new ≤ length self.old + length word.now + 16 }
    {
        self.first = fill_hex(&mut self.bytes, self.first, number);
        self.prepend_text(word);
    }

    /// Puts a word and exactly sixteen hexadecimal digits of a number before what stands.
    #[inline(always)]
    #[tactic(auto, unfolding(crate::specs::Added::labelled))]
    pub fn prepend_sixteen_after(&mut self, word: &[u8], number: u64)
        requires { length self.old + length word.now + 16 ≤ 256 }
        ensures text { self.new ≡ labelled word.now (sixteen number) ++ self.old }
        ensures size { length self.new ≤ length self.old + length word.now + 16 }
    {
        let mut digits = [0; 16];
        fill_sixteen(&mut digits, number);
        self.prepend_text(&digits);
        self.prepend_text(word);
    }

    /// Puts a signed number before what stands, with `-` before it where it is below 0.
    #[inline(always)]
    fn prepend_signed(&mut self, number: i64)
        requires { length self.old + 21 ≤ 256 }
        ensures text { self.new ≡ signed number ++ self.old }
        ensures size { length self.new ≤ length self.old + 21 }
    {
        if number < 0 {
            self.prepend_decimal_after(b"-", number.unsigned_abs());
        } else {
            self.prepend_decimal_after(b"", number.unsigned_abs());
        }
    }

    /// Puts a word and a signed decimal number before what stands.
    #[inline(always)]
    #[tactic(auto, unfolding(crate::specs::Added::labelled))]
    pub fn prepend_signed_after(&mut self, word: &[u8], number: i64)
        requires { length self.old + length word.now + 21 ≤ 256 }
        ensures text { self.new ≡ labelled word.now (signed number) ++ self.old }
        ensures size { length self.new ≤ length self.old + length word.now + 21 }
    {
        self.prepend_signed(number);
        self.prepend_text(word);
    }

    /// Takes bytes away from the front.
    #[inline(always)]
    fn drop_front(&mut self, count: usize)
        requires { count ≤ length self.old }
        ensures { self.new ≡ drop count self.old }
    {
        self.first += count;
    }

    /// Puts the last `count` of thirty-two bytes before what stands. All of them are copied, since a copy
    /// of a fixed length is a few moves; the next piece is written over those before the last.
    #[inline(always)]
    pub fn prepend_last(&mut self, bytes: &[u8; 32], count: usize)
        requires room { length self.old + 32 ≤ 256 }
        requires within { count ≤ 32 }
        ensures { self.new ≡ drop (32 - count) bytes.now ++ self.old }
    {
        self.prepend_text(bytes);
        self.drop_front(32 - count);
    }

    /// Puts a word and two hexadecimal digits for each byte before what stands.
    #[inline(always)]
    #[tactic(auto, unfolding(crate::specs::Added::labelled))]
    pub fn prepend_hex_bytes_after(&mut self, word: &[u8], bytes: &[u8])
        requires { length self.old + length word.now + 2 * length bytes.now ≤ 256 }
        ensures text { self.new ≡ labelled word.now (hex_bytes bytes.now) ++ self.old }
        ensures size { length self.new ≤ length self.old + length word.now + 2 * length bytes.now }
    {
        self.first = fill_hex_bytes(&mut self.bytes, self.first, bytes);
        self.prepend_text(word);
    }
}
