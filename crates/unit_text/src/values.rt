//! The lines of attributes: the name, and the text of the value (DWARF 5 section 7.5.5).
//!
//! A line is made in a [`LineBuffer`] from its end to its start, and appended by one copy. Bytes and texts,
//! which have no bound, are appended behind a line that holds what stands before them.

ghost use Rattle.std.specs.Prelude.{◌≡◌, ◌+◌, ◌≤◌, ◌++◌, [], ◌∷◌, IsTrue, Ok, codes, length};
ghost use Rattle.dw_fields.specs.Reading.{IsAddressSize};
ghost use Rattle.dw_names.specs.Texts.{attribute_text};
ghost use Rattle.dw_text.specs.Added.{Adds, labelled};
ghost use Rattle.dw_text.specs.Bytes.{hex_bytes};
ghost use Rattle.dw_text.specs.Escapes.{escaped};
ghost use Rattle.dw_text.specs.Numbers.{decimal, hex, signed, sixteen};
ghost use Rattle.entry_tree.specs.Views.{attr_view};
ghost use Rattle.form_values.specs.View.{TextOffset, is_address, is_list, is_text, raw_view};
ghost use Rattle.unit_text.specs.Pieces.{Puts};
ghost use Rattle.unit_text.specs.UnitView.{unit_view};
ghost use Rattle.unit_text.specs.Units.{attr_text, value_line};
ghost use Rattle.unit_text.specs.Values.{address_text, address_value, counted, flag_text, list_value, offset_text, quoted, text_value};

use crate::pieces::as_put;
use crate::plain_texts::{is_short_and_plain, plain_text};
use crate::unit::Unit;
use dw_fields::Fault;
use dw_names::{prepend_attribute_after, push_attribute_after};
use dw_text::{
    LineBuffer, push_decimal_after, push_escaped_after, push_hex_bytes_after, push_text,
};
use entry_tree::Attr;
use form_values::{Raw, resolve_address, resolve_list, resolve_text, text_in};
use std::alloc::AllocError;
use unit_headers::UnitRefusal;

/// Puts the name of an attribute before the text of its value in `line`, and appends the line.
fn put_line(out: &mut Vec<u8>, line: &mut LineBuffer, name: u64) -> Result<(), UnitRefusal>
    requires { length line.old ≤ 192 }
    ensures { Puts result out.old.items out.new.items
        (Ok (labelled (codes "  ") (attribute_text name) ++ line.old)) }
{
    prepend_attribute_after(line, b"  ", name);
    as_put(push_text(out, line.text()))
}

/// Appends the line of a number in decimal digits.
#[tactic(auto, unfolding(crate::specs::Units::value_line, crate::specs::Pieces::joined))]
fn put_decimal(
    out: &mut Vec<u8>,
    line: &mut LineBuffer,
    name: u64,
    word: &[u8],
    number: u64,
) -> Result<(), UnitRefusal>
    requires { length word.now ≤ 32 }
    ensures { Puts result out.old.items out.new.items
        (value_line name (Ok (labelled word.now (decimal number)))) }
{
    line.clear();
    line.prepend_text(b"\n");
    line.prepend_decimal_after(word, number);
    put_line(out, line, name)
}

/// Appends the line of a number in hexadecimal digits.
#[tactic(auto, unfolding(crate::specs::Units::value_line, crate::specs::Pieces::joined))]
fn put_hex(
    out: &mut Vec<u8>,
    line: &mut LineBuffer,
    name: u64,
    word: &[u8],
    number: u64,
) -> Result<(), UnitRefusal>
    requires { length word.now ≤ 32 }
    ensures { Puts result out.old.items out.new.items
        (value_line name (Ok (labelled word.now (hex number)))) }
{
    line.clear();
    line.prepend_text(b"\n");
    line.prepend_hex_after(word, number);
    put_line(out, line, name)
}

/// Appends the line of a number with a sign.
#[tactic(auto, unfolding(crate::specs::Units::value_line, crate::specs::Pieces::joined))]
fn put_signed(
    out: &mut Vec<u8>,
    line: &mut LineBuffer,
    name: u64,
    number: i64,
) -> Result<(), UnitRefusal>
    ensures { Puts result out.old.items out.new.items
        (value_line name (Ok (labelled (codes " signed ") (signed number)))) }
{
    line.clear();
    line.prepend_text(b"\n");
    line.prepend_signed_after(b" signed ", number);
    put_line(out, line, name)
}

/// Appends the line of a type unit's signature.
#[tactic(auto, unfolding(crate::specs::Units::value_line, crate::specs::Pieces::joined))]
fn put_signature(
    out: &mut Vec<u8>,
    line: &mut LineBuffer,
    name: u64,
    signature: u64,
) -> Result<(), UnitRefusal>
    ensures { Puts result out.old.items out.new.items
        (value_line name (Ok (labelled (codes " signature 0x") (sixteen signature)))) }
{
    line.clear();
    line.prepend_text(b"\n");
    line.prepend_sixteen_after(b" signature 0x", signature);
    put_line(out, line, name)
}

#[tactic(auto, unfolding(crate::specs::Values::flag_text))]
fn flag_text(flag: bool) -> &'static [u8]
    ensures text { result.now ≡ flag_text flag }
    ensures size { length result.now ≤ 32 }
{
    if flag { b" flag yes" } else { b" flag no" }
}

/// Appends the line of a flag.
#[tactic(auto, unfolding(crate::specs::Units::value_line, crate::specs::Pieces::joined))]
fn put_flag(
    out: &mut Vec<u8>,
    line: &mut LineBuffer,
    name: u64,
    flag: bool,
) -> Result<(), UnitRefusal>
    ensures { Puts result out.old.items out.new.items
        (value_line name (Ok (flag_text flag))) }
{
    line.clear();
    line.prepend_text(b"\n");
    line.prepend_text(flag_text(flag));
    put_line(out, line, name)
}

/// Appends bytes behind their number.
#[tactic(auto, unfolding(crate::specs::Values::counted))]
fn push_counted(out: &mut Vec<u8>, word: &[u8], bytes: &[u8]) -> Result<(), AllocError>
    ensures { Adds result out.old.items out.new.items (counted word.now bytes.now) }
{
    push_decimal_after(out, word, bytes.len() as u64)?;
    if bytes.len() == 0 {
        return Ok(());
    }
    push_hex_bytes_after(out, b" ", bytes)?;
    Ok(())
}

/// Puts bytes behind their number before what stands.
#[inline(always)]
#[tactic(auto, unfolding(crate::specs::Values::counted))]
fn prepend_counted(line: &mut LineBuffer, word: &[u8], bytes: &[u8])
    requires room { length line.old ≤ 1 }
    requires short { (length word.now ≤ 32) × (length bytes.now ≤ 64) }
    ensures text { line.new ≡ counted word.now bytes.now ++ line.old }
    ensures size { length line.new ≤ 182 }
{
    if bytes.len() != 0 {
        line.prepend_hex_bytes_after(b" ", bytes);
    }
    line.prepend_decimal_after(word, bytes.len() as u64);
}

/// Appends the line of a few bytes behind their number.
#[tactic(auto, unfolding(crate::specs::Units::value_line, crate::specs::Pieces::joined))]
fn put_few(
    out: &mut Vec<u8>,
    line: &mut LineBuffer,
    name: u64,
    word: &[u8],
    bytes: &[u8],
) -> Result<(), UnitRefusal>
    requires { (length word.now ≤ 32) × (length bytes.now ≤ 64) }
    ensures { Puts result out.old.items out.new.items
        (value_line name (Ok (counted word.now bytes.now))) }
{
    line.clear();
    line.prepend_text(b"\n");
    prepend_counted(line, word, bytes);
    put_line(out, line, name)
}

/// Appends the line of many bytes behind their number.
#[tactic(auto, unfolding(crate::specs::Units::value_line, crate::specs::Pieces::joined))]
fn put_many(out: &mut Vec<u8>, name: u64, word: &[u8], bytes: &[u8]) -> Result<(), UnitRefusal>
    ensures { Puts result out.old.items out.new.items
        (value_line name (Ok (counted word.now bytes.now))) }
{
    as_put(push_attribute_after(out, b"  ", name))?;
    as_put(push_counted(out, word, bytes))?;
    as_put(push_text(out, b"\n"))?;
    Ok(())
}

/// Appends the line of bytes behind their number.
fn put_counted(
    out: &mut Vec<u8>,
    line: &mut LineBuffer,
    name: u64,
    word: &[u8],
    bytes: &[u8],
) -> Result<(), UnitRefusal>
    requires { length word.now ≤ 32 }
    ensures { Puts result out.old.items out.new.items
        (value_line name (Ok (counted word.now bytes.now))) }
{
    if bytes.len() <= 64 {
        put_few(out, line, name, word, bytes)
    } else {
        put_many(out, name, word, bytes)
    }
}

/// Appends the line of bytes without their number.
#[tactic(auto, unfolding(crate::specs::Units::value_line, crate::specs::Pieces::joined))]
fn put_bytes(out: &mut Vec<u8>, name: u64, bytes: &[u8]) -> Result<(), UnitRefusal>
    ensures { Puts result out.old.items out.new.items
        (value_line name (Ok (labelled (codes " bytes ") (hex_bytes bytes.now)))) }
{
    as_put(push_attribute_after(out, b"  ", name))?;
    as_put(push_hex_bytes_after(out, b" bytes ", bytes))?;
    as_put(push_text(out, b"\n"))?;
    Ok(())
}

/// Appends the line of a text in quotes that has no escapes.
#[tactic(auto, unfolding(crate::specs::Units::value_line, crate::specs::Pieces::joined))]
fn put_plain(
    out: &mut Vec<u8>,
    line: &mut LineBuffer,
    name: u64,
    text: &[u8],
) -> Result<(), UnitRefusal>
    requires short { length text.now ≤ 160 }
    requires plain { escaped text.now ≡ text.now }
    ensures { Puts result out.old.items out.new.items (value_line name (Ok (quoted text.now))) }
{
    line.clear();
    line.prepend_text(b"\"\n");
    line.prepend_text(text);
    line.prepend_text(b" text \"");
    put_line(out, line, name)
}

/// Appends a text in quotes, escaped.
#[tactic(auto, unfolding(crate::specs::Values::quoted))]
fn push_quoted(out: &mut Vec<u8>, text: &[u8]) -> Result<(), AllocError>
    ensures { Adds result out.old.items out.new.items (quoted text.now) }
{
    push_escaped_after(out, b" text \"", text)?;
    push_text(out, b"\"")?;
    Ok(())
}

/// Appends the line of a text in quotes.
#[tactic(auto, unfolding(crate::specs::Units::value_line, crate::specs::Pieces::joined))]
fn put_quoted(out: &mut Vec<u8>, name: u64, text: &[u8]) -> Result<(), UnitRefusal>
    ensures { Puts result out.old.items out.new.items (value_line name (Ok (quoted text.now))) }
{
    as_put(push_attribute_after(out, b"  ", name))?;
    as_put(push_quoted(out, text))?;
    as_put(push_text(out, b"\n"))?;
    Ok(())
}

/// Appends the line of a text in quotes, by one copy where it is short and has no escapes.
fn put_any_text(
    out: &mut Vec<u8>,
    line: &mut LineBuffer,
    name: u64,
    text: &[u8],
) -> Result<(), UnitRefusal>
    ensures { Puts result out.old.items out.new.items (value_line name (Ok (quoted text.now))) }
{
    if is_short_and_plain(text) {
        put_plain(out, line, name, text)
    } else {
        put_quoted(out, name, text)
    }
}

/// Appends the line of an address, resolved; refused at the attribute's place.
#[tactic(auto, unfolding(crate::specs::Values::address_value, crate::specs::Values::address_text, crate::specs::Units::value_line, crate::specs::Pieces::joined))]
fn put_address(
    out: &mut Vec<u8>,
    line: &mut LineBuffer,
    unit: &Unit<'_, '_>,
    attr: &Attr<'_>,
) -> Result<(), UnitRefusal>
    requires size { IsAddressSize unit.now.header.now.address_size }
    requires kind { IsTrue (is_address (raw_view attr.now.raw)) }
    ensures { Puts result out.old.items out.new.items (value_line attr.now.name
        (address_value (unit_view unit.now) attr.now.place (raw_view attr.now.raw))) }
{
    match resolve_address(&attr.raw, unit.header, unit.sections, &unit.facts.bases) {
        Ok(address) => put_hex(out, line, attr.name, b" address 0x", address),
        Err(code) => Err(UnitRefusal::Refused(Fault::at(code, attr.place))),
    }
}

/// Appends the line of a text, resolved; refused at the attribute's place.
#[tactic(auto, unfolding(crate::specs::Values::text_value, crate::specs::Units::value_line, crate::specs::Pieces::joined))]
fn put_text(
    out: &mut Vec<u8>,
    line: &mut LineBuffer,
    unit: &Unit<'_, '_>,
    attr: &Attr<'_>,
) -> Result<(), UnitRefusal>
    requires { IsTrue (is_text (raw_view attr.now.raw)) }
    ensures { Puts result out.old.items out.new.items (value_line attr.now.name
        (text_value (unit_view unit.now) attr.now.place (raw_view attr.now.raw))) }
{
    match resolve_text(&attr.raw, unit.header, unit.sections, &unit.facts.bases) {
        Ok(text) => put_any_text(out, line, attr.name, text),
        Err(code) => Err(UnitRefusal::Refused(Fault::at(code, attr.place))),
    }
}

/// Appends the line of a text at an offset of `.debug_str`; refused at the attribute's place. For a text that
/// is short and has no escapes one walk finds its end and that.
#[tactic(auto, unfolding(crate::specs::Values::text_value, form_values::specs::Resolved::text_of, crate::specs::Units::value_line, crate::specs::Pieces::joined))]
fn put_text_at(
    out: &mut Vec<u8>,
    line: &mut LineBuffer,
    unit: &Unit<'_, '_>,
    attr: &Attr<'_>,
    offset: u64,
) -> Result<(), UnitRefusal>
    ensures { Puts result out.old.items out.new.items (value_line attr.now.name
        (text_value (unit_view unit.now) attr.now.place (TextOffset offset))) }
{
    if let Some(text) = plain_text(unit.sections.text, offset) {
        return put_plain(out, line, attr.name, text);
    }
    match text_in(unit.sections.text, offset) {
        Ok(text) => put_quoted(out, attr.name, text),
        Err(code) => Err(UnitRefusal::Refused(Fault::at(code, attr.place))),
    }
}

/// Appends the line of a list's place or of other data's, resolved; refused at the attribute's place.
#[tactic(auto, unfolding(crate::specs::Values::list_value, crate::specs::Values::offset_text, crate::specs::Units::value_line, crate::specs::Pieces::joined))]
fn put_list(
    out: &mut Vec<u8>,
    line: &mut LineBuffer,
    unit: &Unit<'_, '_>,
    attr: &Attr<'_>,
) -> Result<(), UnitRefusal>
    requires { IsTrue (is_list (raw_view attr.now.raw)) }
    ensures { Puts result out.old.items out.new.items (value_line attr.now.name
        (list_value (unit_view unit.now) attr.now.place (raw_view attr.now.raw))) }
{
    match resolve_list(&attr.raw, unit.header, unit.sections, &unit.facts.bases) {
        Ok(offset) => put_hex(out, line, attr.name, b" offset 0x", offset),
        Err(code) => Err(UnitRefusal::Refused(Fault::at(code, attr.place))),
    }
}

/// Appends the line of an attribute, which is made in `line`; refused at the attribute's place where its
/// value can't be resolved.
// it stands in the loop over attributes, whatever else calls it
#[inline(always)]
#[tactic(auto, unfolding(crate::specs::Units::attr_text, crate::specs::Values::value_text))]
pub(crate) fn put_attr(
    out: &mut Vec<u8>,
    line: &mut LineBuffer,
    unit: &Unit<'_, '_>,
    attr: &Attr<'_>,
) -> Result<(), UnitRefusal>
    requires { IsAddressSize unit.now.header.now.address_size }
    ensures { Puts result out.old.items out.new.items
        (attr_text (unit_view unit.now) (attr_view attr.now)) }
{
    match attr.raw {
        Raw::Address(_) | Raw::AddressIndex(_) => put_address(out, line, unit, attr),
        Raw::Block(bytes) => put_counted(out, line, attr.name, b" block ", bytes),
        Raw::Expression(bytes) => put_counted(out, line, attr.name, b" expression ", bytes),
        Raw::Unsigned(number) => put_decimal(out, line, attr.name, b" unsigned ", number),
        Raw::Signed(number) => put_signed(out, line, attr.name, number),
        Raw::Wide(bytes) => put_bytes(out, attr.name, bytes),
        Raw::Flag(flag) => put_flag(out, line, attr.name, flag),
        Raw::TextOffset(offset) => put_text_at(out, line, unit, attr, offset),
        Raw::Text(_) | Raw::LineTextOffset(_) | Raw::TextIndex(_) => put_text(
            out, line, unit, attr,
        ),
        Raw::Local(offset) => put_hex(out, line, attr.name, b" entry 0x", offset),
        Raw::Global(offset) => put_hex(out, line, attr.name, b" global 0x", offset),
        Raw::Signature(signature) => put_signature(out, line, attr.name, signature),
        Raw::Offset(_) | Raw::RangeIndex(_) | Raw::LocationIndex(_) => {
            put_list(out, line, unit, attr)
        }
        Raw::Supplement(offset) => put_hex(out, line, attr.name, b" supplement 0x", offset),
    }
}
