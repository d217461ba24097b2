//! The hexadecimal digits of bytes.
ghost use Rattle.std.specs.Prelude.{◌≡◌, ◌≤◌, length};
ghost use Rattle.dw_text.specs.Added.{Adds, labelled};
ghost use Rattle.dw_text.specs.Bytes.{hex_bytes};

use crate::glyphs::glyph;
use crate::words::push_text;
use std::alloc::AllocError;

/// How many bytes are written at a time.
const CHUNK: usize = 32;

/// Appends two hexadecimal digits for each of a few bytes.
fn push_chunk(out: &mut Vec<u8>, bytes: &[u8]) -> Result<(), AllocError>
    requires { length bytes.now ≤ 32 }
    ensures { Adds result out.old.items out.new.items (hex_bytes bytes.now) }
{
    let mut digits = [0; 2 * CHUNK];
    let mut filled = 0;
    for byte in bytes {
        digits[filled] = glyph(*byte / 16);
        digits[filled + 1] = glyph(*byte % 16);
        filled += 2;
    }
    push_text(out, &digits[..filled])
}

/// Appends two hexadecimal digits for each byte, in their order.
pub fn push_hex_bytes(out: &mut Vec<u8>, bytes: &[u8]) -> Result<(), AllocError>
    ensures { Adds result out.old.items out.new.items (hex_bytes bytes.now) }
{
    let mut rest = bytes;
    while !rest.is_empty() {
        let (front, behind) = rest.split_at(rest.len().min(CHUNK));
        push_chunk(out, front)?;
        rest = behind;
    }
    Ok(())
}

/// Appends a word, and behind it two hexadecimal digits for each byte.
#[tactic(auto, unfolding(crate::specs::Added::labelled))]
pub fn push_hex_bytes_after(out: &mut Vec<u8>, word: &[u8], bytes: &[u8]) -> Result<(), AllocError>
    ensures { Adds result out.old.items out.new.items (labelled word.now (hex_bytes bytes.now)) }
{
    push_text(out, word)?;
    push_hex_bytes(out, bytes)?;
    Ok(())
}
