//! Words, and texts behind words.
ghost use Rattle.dw_text.specs.Added.{Adds, labelled};

use std::alloc::AllocError;

/// Appends a text as it stands.
pub fn push_text(out: &mut Vec<u8>, text: &[u8]) -> Result<(), AllocError>
    ensures { Adds result out.old.items out.new.items text.now }
{
    out.extend_from_slice(text)
}

/// Appends a word, and behind it a text as it stands.
#[tactic(auto, unfolding(crate::specs::Added::labelled))]
pub fn push_text_after(out: &mut Vec<u8>, word: &[u8], text: &[u8]) -> Result<(), AllocError>
    ensures { Adds result out.old.items out.new.items (labelled word.now text.now) }
{
    push_text(out, word)?;
    push_text(out, text)?;
    Ok(())
}
