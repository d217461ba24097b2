//! Short texts without escapes, whose lines are appended by one copy.

ghost use Rattle.std.specs.Prelude.{◌≡◌, ◌<◌, ◌≤◌, IfSome, IsTrue, Ok, length, option_map};
ghost use Rattle.dw_text.specs.Escapes.{escaped};
ghost use Rattle.form_values.specs.Resolved.{text_from, text_in as text_within};

use dw_text::plain_end;

/// The longest text that stands in a line that is made whole.
const LONGEST: usize = 160;

/// Whether a text is short and all of its bytes stand for themselves.
pub(crate) fn is_short_and_plain(text: &[u8]) -> bool
    ensures short { IsTrue result → length text.now ≤ 160 }
    ensures plain { IsTrue result → escaped text.now ≡ text.now }
{
    text.len() <= LONGEST && plain_end(text, 0) == text.len()
}

/// The text at an offset of a section that may be absent, where the text is there, is short, and all of
/// its bytes stand for themselves.
#[tactic(auto, unfolding(form_values::specs::Resolved::text_in))]
pub(crate) fn plain_text<'f>(section: Option<&'f [u8]>, offset: u64) -> Option<&'f [u8]>
    ensures text { IfSome result (λ text.
        text_within (option_map (λ b. b.now) section.entry) offset ≡ Ok text.now) }
    ensures short { IfSome result (λ text. length text.now ≤ 160) }
    ensures plain { IfSome result (λ text. escaped text.now ≡ text.now) }
{
    match section {
        Some(section) if offset < section.len() as u64 => plain_text_at(section, offset as usize),
        _ => None,
    }
}

/// The text at a place of a section, where it is short and all of its bytes stand for themselves.
#[inline(always)]
fn plain_text_at<'f>(section: &'f [u8], place: usize) -> Option<&'f [u8]>
    requires { place < length section.now }
    ensures text { IfSome result (λ text. text_from section.entry.now place ≡ Ok text.now) }
    ensures short { IfSome result (λ text. length text.now ≤ 160) }
    ensures plain { IfSome result (λ text. escaped text.now ≡ text.now) }
{
    let end = plain_end(section, place);
    if end < section.len() && section[end] == 0 && end - place <= LONGEST {
        Some(&section[place..end])
    } else {
        None
    }
}
