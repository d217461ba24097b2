//! Text that is appended to a list of bytes: decimal and hexadecimal numbers, fixed sixteen digits,
//! signed decimal, escaped text and the hexadecimal digits of bytes.
//!
//! Each call appends exactly its text, or answers want of memory and has appended some part of it.
//! A caller that promises more after want of memory cuts its list back itself, once. No call takes
//! memory but by the list's own growth.
#![tactic(auto)]

mod bytes;
mod digits;
mod escapes;
mod glyphs;
mod line_buffer;
mod numbers;
mod whole;
mod words;

pub use bytes::{push_hex_bytes, push_hex_bytes_after};
pub use escapes::{plain_end, push_escaped, push_escaped_after};
pub use line_buffer::LineBuffer;
pub use numbers::{
    push_decimal, push_decimal_after, push_hex, push_hex_after, push_signed, push_signed_after,
    push_sixteen, push_sixteen_after,
};
pub use whole::keep_whole;
pub use words::{push_text, push_text_after};
