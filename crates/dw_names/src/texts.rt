//! Tags, attributes and forms as texts.
ghost use Rattle.std.specs.Prelude.{option_map};
ghost use Rattle.dw_text.specs.Added.{Adds, labelled};
ghost use Rattle.dw_names.specs.Named.{named_or_hex};
ghost use Rattle.dw_names.specs.Texts.{attribute_text, form_text, tag_text};

use crate::attributes::attribute_name;
use crate::forms::form_name;
use crate::tags::tag_name;
use dw_text::{push_hex_after, push_text, push_text_after};
use std::alloc::AllocError;

/// Appends a word, and behind it a name, or `0x` and the number's hexadecimal digits where there is
/// no name.
#[tactic(auto, unfolding(dw_text::specs::Added::labelled, crate::specs::Named::named_or_hex))]
fn push_named_after(
    out: &mut Vec<u8>,
    word: &[u8],
    name: Option<&[u8]>,
    number: u64,
) -> Result<(), AllocError>
    ensures { Adds result out.old.items out.new.items
        (labelled word.now (named_or_hex (option_map (λ name. name.now) name.entry) number)) }
{
    push_text(out, word)?;
    match name {
        Some(name) => push_text(out, name)?,
        None => push_hex_after(out, b"0x", number)?,
    }
    Ok(())
}

/// Appends a word, and behind it the name of a tag, or `0x` and its hexadecimal digits.
#[tactic(auto, unfolding(crate::specs::Texts::tag_text))]
pub fn push_tag_after(out: &mut Vec<u8>, word: &[u8], tag: u64) -> Result<(), AllocError>
    ensures { Adds result out.old.items out.new.items (labelled word.now (tag_text tag)) }
{
    push_named_after(out, word, tag_name(tag), tag)
}

/// Appends a word, and behind it the name of an attribute, or `0x` and its hexadecimal digits.
#[tactic(auto, unfolding(crate::specs::Texts::attribute_text))]
pub fn push_attribute_after(
    out: &mut Vec<u8>,
    word: &[u8],
    attribute: u64,
) -> Result<(), AllocError>
    ensures { Adds result out.old.items out.new.items
        (labelled word.now (attribute_text attribute)) }
{
    push_named_after(out, word, attribute_name(attribute), attribute)
}

/// Appends a word, and behind it the name of a form, or `0x` and its hexadecimal digits.
#[tactic(auto, unfolding(crate::specs::Texts::form_text))]
pub fn push_form_after(out: &mut Vec<u8>, word: &[u8], form: u64) -> Result<(), AllocError>
    ensures { Adds result out.old.items out.new.items (labelled word.now (form_text form)) }
{
    push_named_after(out, word, form_name(form), form)
}
