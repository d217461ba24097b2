//! Texts, and words of tables, in sections that may be absent.

ghost use Rattle.std.specs.Prelude.{◌≡◌, ◌+◌, ◌≤◌, option_map, IfSome};
ghost use Rattle.form_values.specs.Resolved.{SameText, text_from, text_in as text_within, word_at, word_place_of};
ghost use Rattle.dw_fields.specs.Reading.{IsAddressSize};

use dw_fields::{Code, Cut, Order};
use string_tables::first_zero;

/// The text that begins at an offset of a section, `.debug_str` or `.debug_line_str`, without the zero
/// byte that ends it.
///
/// # Errors
/// `NoSection` where the section is absent, `TextOutside` where the offset is at or past its end,
/// `TextUnended` where no zero byte follows.
#[inline]
#[tactic(auto, unfolding(crate::specs::Resolved::text_in))]
pub fn text_in<'f>(section: Option<&'f [u8]>, offset: u64) -> Result<&'f [u8], Code>
    ensures { SameText result (text_within (option_map (λ b. b.now) section.entry) offset) }
{
    match section {
        Some(section) => text_at_offset(section, offset),
        None => Err(Code::NoSection),
    }
}

/// The text that begins at an offset of a section.
#[tactic(auto, unfolding(crate::specs::Resolved::text_from))]
pub fn text_at_offset<'f>(section: &'f [u8], offset: u64) -> Result<&'f [u8], Code>
    ensures { SameText result (text_from section.entry.now offset) }
{
    if offset >= section.len() as u64 {
        return Err(Code::TextOutside);
    }
    let rest = &section[offset as usize..];
    match first_zero(rest) {
        Some(end) => Ok(&rest[..end]),
        None => Err(Code::TextUnended),
    }
}

/// The place of the word that an index names in a table, where the whole word is within `length` bytes.
#[tactic(auto, unfolding(crate::specs::Resolved::word_place_of))]
fn word_place(base: u64, index: u64, size: u64, length: u64) -> Option<u64>
    ensures place { result ≡ word_place_of size length base index }
    ensures inside { IfSome result (λ place. place + size ≤ length) }
{
    let Some(skipped) = index.checked_mul(size) else {
        return None;
    };
    let Some(place) = base.checked_add(skipped) else {
        return None;
    };
    match place.checked_add(size) {
        Some(end) if end <= length => Some(place),
        _ => None,
    }
}

/// The word of `size` bytes that an index names in a table.
///
/// # Errors
/// `IndexOutside` where the word isn't wholly in its section.
#[tactic(auto, unfolding(crate::specs::Resolved::word_at, dw_fields::specs::Reading::number_at, dw_fields::specs::Reading::bytes_at))]
pub fn word(table: &[u8], order: Order, size: u8, base: u64, index: u64) -> Result<u64, Code>
    requires { IsAddressSize size }
    ensures { result ≡ word_at size order table.now base index }
{
    let length = table.len() as u64;
    let Some(place) = word_place(base, index, u64::from(size), length) else {
        return Err(Code::IndexOutside);
    };
    match Cut::new(table, place, length, order).address(size) {
        Ok(word) => Ok(word),
        Err(_) => unreachable!(),
    }
}
