//! The text of one abbreviation declaration (DWARF 5 section 7.5.3).

ghost use Rattle.std.specs.Prelude.{◌≡◌};
ghost use Rattle.dw_text.specs.Added.{Adds};
ghost use Rattle.unit_text.specs.Declarations.{children_text, declaration_text, implicit_text, pair_text, pairs_text};

use abbrev_decl::{AttrSpec, Attrs, Decl};
use dw_names::{push_attribute_after, push_form_after, push_tag_after};
use dw_numbers::form;
use dw_text::{push_decimal_after, push_signed_after, push_text};
use std::alloc::AllocError;

/// The word of a declaration whose entries have children.
#[tactic(auto, unfolding(crate::specs::Declarations::children_text))]
fn children_text(children: bool) -> &'static [u8]
    ensures { result.now ≡ children_text children }
{
    if children { b" children" } else { b"" }
}

/// Appends the number of the form implicit_const.
#[tactic(auto, unfolding(crate::specs::Declarations::implicit_text))]
fn push_implicit(out: &mut Vec<u8>, pair: AttrSpec) -> Result<(), AllocError>
    ensures { Adds result out.old.items out.new.items (implicit_text pair) }
{
    if pair.form == form::IMPLICIT_CONST {
        push_signed_after(out, b" ", pair.implicit)?;
    }
    Ok(())
}

/// Appends the line of a pair.
#[tactic(auto, unfolding(crate::specs::Declarations::pair_text))]
fn push_pair(out: &mut Vec<u8>, pair: AttrSpec) -> Result<(), AllocError>
    ensures { Adds result out.old.items out.new.items (pair_text pair) }
{
    push_attribute_after(out, b"  ", pair.name)?;
    push_form_after(out, b" ", pair.form)?;
    push_implicit(out, pair)?;
    push_text(out, b"\n")?;
    Ok(())
}

/// Appends a line for each pair that is left.
fn push_pairs(out: &mut Vec<u8>, mut attrs: Attrs<'_>) -> Result<(), AllocError>
    ensures { Adds result out.old.items out.new.items (pairs_text attrs.entry) }
{
    while let Some(pair) = attrs.next() {
        push_pair(out, pair)?;
    }
    Ok(())
}

/// Appends the lines of a declaration.
#[tactic(auto, unfolding(crate::specs::Declarations::declaration_text))]
pub(crate) fn push_declaration(out: &mut Vec<u8>, declaration: &Decl<'_>) -> Result<(), AllocError>
    ensures { Adds result out.old.items out.new.items (declaration_text declaration.now) }
{
    push_decimal_after(out, b" ", declaration.code())?;
    push_tag_after(out, b" ", declaration.tag())?;
    push_text(out, children_text(declaration.children()))?;
    push_text(out, b"\n")?;
    push_pairs(out, declaration.attrs())?;
    Ok(())
}
