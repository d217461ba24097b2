//! Escaped text.
ghost use Rattle.std.specs.Prelude.{◌≡◌, ◌+◌, ◌<◌, ◌≤◌, IsTrue, false, get_or, length};
ghost use Rattle.dw_text.specs.Added.{Adds, labelled};
ghost use Rattle.dw_text.specs.Escapes.{IsPlainFrom, escape, escaped, is_plain};

use crate::glyphs::glyph;
use crate::words::push_text;
use std::alloc::AllocError;

/// How many bytes are tested at a time.
const BLOCK: usize = 16;

/// Whether a byte stands for itself in a text: a printable ASCII character that isn't `"` or `\`.
#[tactic(auto, using(std::proofs::lemmas::Bool::Decides::nat_tests), unfolding(crate::specs::Escapes::is_plain))]
#[inline(always)]
fn is_plain(byte: u8) -> bool
    ensures { result ≡ is_plain byte }
{
    byte >= b' ' && byte <= b'~' && byte != b'"' && byte != b'\\'
}

/// Whether the sixteen bytes from a place on all stand for themselves. No test ends the loop early, so that it
/// becomes a few steps on all sixteen at once.
#[inline(always)]
fn are_plain(text: &[u8], from: usize) -> bool
    requires { from + 16 ≤ length text.now }
    ensures { IsTrue result → IsPlainFrom text.now from (from + 16) }
{
    let mut count = 0;
    let mut plain = true;
    while count < BLOCK {
        plain = plain & is_plain(text[from + count]);
        count += 1;
    }
    plain
}

/// A place up to which the bytes from `from` on stand for themselves, by whole blocks.
#[inline(always)]
fn plain_blocks(text: &[u8], from: usize) -> usize
    requires { from ≤ length text.now }
    ensures begins { from ≤ result }
    ensures within { result ≤ length text.now }
    ensures plain { IsPlainFrom text.now from result }
{
    let mut end = from;
    while text.len() - end >= BLOCK && are_plain(text, end) {
        end += BLOCK;
    }
    end
}

/// Where the run of bytes that stand for themselves ends, from `from` on: at the first other byte, or at the
/// end of the text.
#[inline]
pub fn plain_end(text: &[u8], from: usize) -> usize
    requires { from ≤ length text.now }
    ensures begins { from ≤ result }
    ensures within { result ≤ length text.now }
    ensures plain { IsPlainFrom text.now from result }
    ensures stops { result < length text.now → is_plain (get_or text.now result 0) ≡ false }
{
    let mut end = plain_blocks(text, from);
    while end < text.len() && is_plain(text[end]) {
        end += 1;
    }
    end
}

/// Appends one byte as a text shows it.
#[tactic(auto, using(std::proofs::lemmas::Bool::Decides::nat_tests), unfolding(crate::specs::Escapes::escape))]
fn push_escape(out: &mut Vec<u8>, byte: u8) -> Result<(), AllocError>
    ensures { Adds result out.old.items out.new.items (escape byte) }
{
    if is_plain(byte) {
        push_text(out, &[byte])
    } else if byte == b'"' || byte == b'\\' {
        push_text(out, &[b'\\', byte])
    } else {
        push_text(out, &[b'\\', b'x', glyph(byte / 16), glyph(byte % 16)])
    }
}

/// Appends a text with its escapes: a printable ASCII character stands for itself, but `"` and `\`
/// stand behind a `\`, and any other byte is `\x` and two hexadecimal digits.
pub fn push_escaped(out: &mut Vec<u8>, text: &[u8]) -> Result<(), AllocError>
    ensures { Adds result out.old.items out.new.items (escaped text.now) }
{
    let mut done = 0;
    while done < text.len() {
        let end = plain_end(text, done);
        push_text(out, &text[done..end])?;
        if end == text.len() {
            return Ok(());
        }
        push_escape(out, text[end])?;
        done = end + 1;
    }
    Ok(())
}

/// Appends a word, and behind it a text with its escapes.
#[tactic(auto, unfolding(crate::specs::Added::labelled))]
pub fn push_escaped_after(out: &mut Vec<u8>, word: &[u8], text: &[u8]) -> Result<(), AllocError>
    ensures { Adds result out.old.items out.new.items (labelled word.now (escaped text.now)) }
{
    push_text(out, word)?;
    push_escaped(out, text)?;
    Ok(())
}
