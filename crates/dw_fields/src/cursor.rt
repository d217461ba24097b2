//! A part of a section with a place in it, and the fields that can stand there.

ghost use Rattle.std.specs.Prelude.{◌≡◌, ◌+◌, ◌*◌, ◌<◌, ◌≤◌, ◌^◌, ◌==◌, false, length, position, All, OnOk, IfOk, IfSome, if◌then◌else◌};
ghost use Rattle.dw_fields.specs.Span.{rest_of, until};
ghost use Rattle.dw_fields.specs.Leb.{FitsSigned64, FitsUnsigned64, Leb, SignedLeb};
ghost use Rattle.dw_fields.specs.Reading.{Gives, IsAddressSize, Moves, Spells, bytes_at, length_at, number_at, offset_at, sleb_at, text_at, uleb_at};

use crate::byte_order::Order;
use crate::fault_code::{Code, Fault};
use crate::leb128::{last_group, signed_value, unsigned_value};
use std::marker::Model;
use string_tables::first_zero;

/// An initial length (DWARF 5 section 7.4).
#[derive(Clone, Copy, Debug, PartialEq, Eq)]
pub struct Length {
    /// Whether it is of the 64-bit format.
    pub wide: bool,
    /// The number of bytes behind it.
    pub value: u64,
}

/// A part of a section that is read from front to back. Places are offsets from the section's
/// start.
#[derive(Drop)]
pub struct Cut<'a> {
    bytes: &'a [u8],
    place: u64,
    end: u64,
    order: Order,
}

impl<'a> Model for Cut<'a> {
    ghost use Rattle.std.specs.Prelude.{◌≤◌, length};
    ghost use Rattle.dw_fields.specs.Span.{Span};

    ghost Value = { Span };

    ghost view = { λ c. record {
      bytes = c.bytes.now;
      place = c.place;
      end = c.end;
      order = c.order;
    } };

    ghost invariant = { λ c. (c.place ≤ c.end) × (c.end ≤ length c.bytes.now) };
}

impl<'a> Cut<'a> {
    /// The part of `bytes` from `place` up to `end`.
    #[inline]
    pub fn new(bytes: &'a [u8], place: u64, end: u64, order: Order) -> Cut<'a>
        requires begins { place ≤ end }
        requires ends { end ≤ length bytes.now }
        ensures { result ≡ record {
          bytes = bytes.entry.now;
          place = place;
          end = end;
          order = order;
        } }
    {
        Cut {
            bytes,
            place,
            end,
            order,
        }
    }

    /// The offset of the next field from the section's start.
    #[inline]
    pub fn place(&self) -> u64
        ensures value { result ≡ self.now.place }
        ensures within { result ≤ self.now.end }
    {
        self.place
    }

    /// The offset that no field passes.
    #[inline]
    pub fn end(&self) -> u64
        ensures value { result ≡ self.now.end }
        ensures within { result ≤ length self.now.bytes }
    {
        self.end
    }

    /// How many bytes are left.
    #[inline]
    pub fn left(&self) -> u64
        ensures { self.now.place + result ≡ self.now.end }
    {
        self.end - self.place
    }

    /// The same part once more, to be read ahead.
    #[inline]
    pub fn fork(&self) -> Cut<'a>
        ensures { result ≡ self.now }
    {
        Cut {
            bytes: self.bytes,
            place: self.place,
            end: self.end,
            order: self.order,
        }
    }

    /// The next `n` bytes as a part of their own, which no field passes.
    #[inline]
    pub fn front(&self, n: u64) -> Cut<'a>
        requires { self.now.place + n ≤ self.now.end }
        ensures { result ≡ until self.now (self.now.place + n) }
    {
        Cut {
            bytes: self.bytes,
            place: self.place,
            end: self.place + n,
            order: self.order,
        }
    }

    /// Moves past the next `n` bytes.
    #[inline]
    pub fn pass(&mut self, n: u64)
        requires { self.old.place + n ≤ self.old.end }
        ensures { self.new ≡ record self.old { place = self.old.place + n } }
    {
        self.place += n;
    }

    /// The next `n` bytes.
    ///
    /// # Errors
    /// `Truncated` at the place where fewer bytes are left.
    #[inline]
    #[tactic(auto, unfolding(crate::specs::Reading::bytes_at))]
    pub fn bytes(&mut self, n: u64) -> Result<&'a [u8], Fault>
        ensures field { Gives (λ x. x.now) result (bytes_at n) self.old self.new }
        ensures moves { OnOk result (Moves n self.old self.new) }
        ensures size { IfOk result (λ x. length x.now ≡ n) }
    {
        let start = self.place;
        if n > self.end - start {
            return Err(Fault::at(Code::Truncated, start));
        }
        let bytes = self.bytes;
        self.place = start + n;
        Ok(&bytes[start as usize..(start + n) as usize])
    }

    /// A byte.
    ///
    /// # Errors
    /// `Truncated` at the place where none is left.
    #[inline]
    #[tactic(auto, unfolding(crate::specs::Reading::number_at))]
    pub fn u8(&mut self) -> Result<u8, Fault>
        ensures field { Gives (λ x. x) result (number_at 1) self.old self.new }
        ensures moves { OnOk result (Moves 1 self.old self.new) }
    {
        let field = self.bytes(1)?;
        Ok(field[0])
    }

    /// A number of 2 bytes.
    ///
    /// # Errors
    /// `Truncated` at the place where fewer bytes are left.
    #[inline]
    #[tactic(auto, unfolding(crate::specs::Reading::number_at))]
    pub fn u16(&mut self) -> Result<u16, Fault>
        ensures field { Gives (λ x. x) result (number_at 2) self.old self.new }
        ensures moves { OnOk result (Moves 2 self.old self.new) }
    {
        let order = self.order;
        let field = self.bytes(2)?;
        Ok(order.u16(field))
    }

    /// A number of 3 bytes.
    ///
    /// # Errors
    /// `Truncated` at the place where fewer bytes are left.
    #[inline]
    #[tactic(auto, unfolding(crate::specs::Reading::number_at))]
    pub fn u24(&mut self) -> Result<u32, Fault>
        ensures field { Gives (λ x. x) result (number_at 3) self.old self.new }
        ensures moves { OnOk result (Moves 3 self.old self.new) }
    {
        let order = self.order;
        let field = self.bytes(3)?;
        Ok(order.u24(field))
    }

    /// A number of 4 bytes.
    ///
    /// # Errors
    /// `Truncated` at the place where fewer bytes are left.
    #[inline]
    #[tactic(auto, unfolding(crate::specs::Reading::number_at))]
    pub fn u32(&mut self) -> Result<u32, Fault>
        ensures field { Gives (λ x. x) result (number_at 4) self.old self.new }
        ensures moves { OnOk result (Moves 4 self.old self.new) }
    {
        let order = self.order;
        let field = self.bytes(4)?;
        Ok(order.u32(field))
    }

    /// A number of 8 bytes.
    ///
    /// # Errors
    /// `Truncated` at the place where fewer bytes are left.
    #[inline]
    #[tactic(auto, unfolding(crate::specs::Reading::number_at))]
    pub fn u64(&mut self) -> Result<u64, Fault>
        ensures field { Gives (λ x. x) result (number_at 8) self.old self.new }
        ensures moves { OnOk result (Moves 8 self.old self.new) }
    {
        let order = self.order;
        let field = self.bytes(8)?;
        Ok(order.u64(field))
    }

    /// A number of 16 bytes.
    ///
    /// # Errors
    /// `Truncated` at the place where fewer bytes are left.
    #[inline]
    #[tactic(auto, unfolding(crate::specs::Reading::number_at))]
    pub fn u128(&mut self) -> Result<u128, Fault>
        ensures field { Gives (λ x. x) result (number_at 16) self.old self.new }
        ensures moves { OnOk result (Moves 16 self.old self.new) }
    {
        let order = self.order;
        let field = self.bytes(16)?;
        Ok(order.u128(field))
    }

    /// An address of `size` bytes.
    ///
    /// # Errors
    /// `Truncated` at the place where fewer bytes are left.
    #[inline]
    pub fn address(&mut self, size: u8) -> Result<u64, Fault>
        requires { IsAddressSize size }
        ensures field { Gives (λ x. x) result (number_at size) self.old self.new }
        ensures moves { OnOk result (Moves size self.old self.new) }
        ensures fits { IfOk result (λ x. x < 2 ^ (8 * size)) }
    {
        match size {
            2 => Ok(u64::from(self.u16()?)),
            4 => Ok(u64::from(self.u32()?)),
            8 => self.u64(),
            _ => unreachable!(),
        }
    }

    /// An offset: 8 bytes in the 64-bit format (`wide`), else 4.
    ///
    /// # Errors
    /// `Truncated` at the place where fewer bytes are left.
    #[inline]
    #[tactic(auto, unfolding(crate::specs::Reading::offset_at))]
    pub fn offset(&mut self, wide: bool) -> Result<u64, Fault>
        ensures field { Gives (λ x. x) result (offset_at wide) self.old self.new }
        ensures moves { OnOk result (Moves (if wide then 8 else 4) self.old self.new) }
        ensures fits { wide ≡ false → IfOk result (λ x. x < 2 ^ 32) }
    {
        if wide {
            return self.u64();
        }
        Ok(u64::from(self.u32()?))
    }

    /// An initial length.
    ///
    /// # Errors
    /// At the length's first byte: `Truncated` where the length passes the end, `LengthReserved`
    /// where its first word is from 0xfffffff0 to 0xfffffffe.
    #[tactic(auto, unfolding(crate::specs::Reading::length_at))]
    pub fn length(&mut self) -> Result<Length, Fault>
        ensures field { Gives (λ x. x) result length_at self.old self.new }
        ensures moves { OnOk result (Moves 4 self.old self.new) }
    {
        let mut ahead = self.fork();
        let word = ahead.u32()?;
        if word < 0xffff_fff0 {
            *self = ahead;
            return Ok(Length {
                wide: false,
                value: u64::from(word),
            });
        }
        if word != 0xffff_ffff {
            return Err(Fault::at(Code::LengthReserved, self.place));
        }
        match ahead.u64() {
            Ok(value) => {
                *self = ahead;
                Ok(Length { wide: true, value })
            }
            Err(fault) => Err(Fault::at(fault.code, self.place)),
        }
    }

    /// The bytes before the next zero byte, which is passed too.
    ///
    /// # Errors
    /// `TextUnended` at the place where no zero byte stands before the end.
    #[tactic(auto, unfolding(crate::specs::Reading::text_at))]
    pub fn text(&mut self) -> Result<&'a [u8], Fault>
        ensures field { Gives (λ x. x.now) result text_at self.old self.new }
        ensures moves { OnOk result (Moves 1 self.old self.new) }
    {
        let rest = self.rest();
        match first_zero(rest) {
            Some(count) => {
                self.place += count as u64 + 1;
                Ok(&rest[..count])
            }
            None => Err(Fault::at(Code::TextUnended, self.place)),
        }
    }

    /// An unsigned LEB128 number; padding is accepted.
    ///
    /// # Errors
    /// At the number's first byte: `Truncated` where no byte with a clear top bit stands before the
    /// end, else `LebTooLarge` where the value is outside `u64`.
    #[inline]
    #[tactic(auto, using(crate::proofs::LebLaws::spells_unsigned))]
    pub fn uleb(&mut self) -> Result<u64, Fault>
        ensures field { Gives (λ x. x) result uleb_at self.old self.new }
        ensures moves { OnOk result (Moves 1 self.old self.new) }
        ensures spells { Spells Leb FitsUnsigned64 result self.old self.new }
    {
        self.unsigned()
    }

    /// A signed LEB128 number; padding is accepted.
    ///
    /// # Errors
    /// At the number's first byte: `Truncated` where no byte with a clear top bit stands before the
    /// end, else `LebTooLarge` where the value is outside `i64`.
    #[inline]
    #[tactic(auto, using(crate::proofs::LebLaws::spells_signed))]
    pub fn sleb(&mut self) -> Result<i64, Fault>
        ensures field { Gives (λ x. x) result sleb_at self.old self.new }
        ensures moves { OnOk result (Moves 1 self.old self.new) }
        ensures spells { Spells SignedLeb FitsSigned64 result self.old self.new }
    {
        self.signed()
    }

    #[inline]
    #[tactic(auto, unfolding(crate::specs::Reading::uleb_at))]
    fn unsigned(&mut self) -> Result<u64, Fault>
        ensures field { Gives (λ x. x) result uleb_at self.old self.new }
        ensures moves { OnOk result (Moves 1 self.old self.new) }
        ensures fits { All (λ b. b < 256) (rest_of self.old) }
    {
        let rest = self.rest();
        match last_group(rest) {
            Some(last) => match unsigned_value(&rest[..last + 1]) {
                Some(value) => {
                    self.place += last as u64 + 1;
                    Ok(value)
                }
                None => Err(Fault::at(Code::LebTooLarge, self.place)),
            },
            None => Err(Fault::at(Code::Truncated, self.place)),
        }
    }

    #[inline]
    #[tactic(auto, unfolding(crate::specs::Reading::sleb_at))]
    fn signed(&mut self) -> Result<i64, Fault>
        ensures field { Gives (λ x. x) result sleb_at self.old self.new }
        ensures moves { OnOk result (Moves 1 self.old self.new) }
        ensures fits { All (λ b. b < 256) (rest_of self.old) }
    {
        let rest = self.rest();
        match last_group(rest) {
            Some(last) => match signed_value(&rest[..last + 1]) {
                Some(value) => {
                    self.place += last as u64 + 1;
                    Ok(value)
                }
                None => Err(Fault::at(Code::LebTooLarge, self.place)),
            },
            None => Err(Fault::at(Code::Truncated, self.place)),
        }
    }

    #[inline]
    fn rest(&self) -> &'a [u8]
        ensures value { result.now ≡ rest_of self.now }
        ensures size { self.now.place + length result.now ≡ self.now.end }
    {
        &self.bytes[self.place as usize..self.end as usize]
    }
}
