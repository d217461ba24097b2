//! Bytes spelled by hexadecimal digits.

use dw_fields::Order;
use std::alloc::{AllocError, Global};

/// The bytes that the pairs of digits of `text` spell. A `_` between them and what stands in
/// brackets count for nothing; an odd last digit is left out, and any other character is the digit
/// 0. A `~` stands before a number of the file's byte order, which is spelled with its lowest byte
/// first and goes up to the next character that is no digit.
pub fn bytes_of(alloc: Global, text: &str, order: Order) -> Result<Vec<u8>, AllocError> {
    let mut bytes = Vec::new(alloc);
    let mut explained = false;
    let mut first: Option<u8> = None;
    let mut number: Option<usize> = None;
    for character in text.as_bytes() {
        if matches!(*character, b'[' | b'_' | b'~') {
            turn_number(&mut bytes, number.take(), order);
        }
        match *character {
            b'[' => explained = true,
            b']' => explained = false,
            b'_' => {}
            _ if explained => {}
            b'~' => number = Some(bytes.len()),
            digit => match first.take() {
                Some(high) => bytes.push(high.wrapping_mul(16) | digit_of(digit))?,
                None => first = Some(digit_of(digit)),
            },
        }
    }
    turn_number(&mut bytes, number, order);
    Ok(bytes)
}

/// Turns the bytes of a number that begins there, where the highest byte stands first.
fn turn_number(bytes: &mut Vec<u8>, start: Option<usize>, order: Order) {
    if let (Some(start), Order::Big) = (start, order) {
        if let Some(number) = bytes.as_mut_slice().get_mut(start..) {
            number.reverse();
        }
    }
}

/// The bytes of the parts of `PART+PART..`, one behind another: a part is `HEX`, or `N*HEX` for `N`
/// times its bytes.
pub fn joined_bytes_of(alloc: Global, text: &str, order: Order) -> Result<Vec<u8>, AllocError> {
    let mut bytes = Vec::new(alloc);
    for part in text.split('+') {
        let (times, hex) = part.split_once('*').unwrap_or(("1", part));
        let piece = bytes_of(alloc, hex, order)?;
        for _ in 0..times.parse::<u32>().unwrap_or(0) {
            bytes.extend_from_slice(piece.as_slice())?;
        }
    }
    Ok(bytes)
}

fn digit_of(byte: u8) -> u8 {
    match byte {
        b'0'..=b'9' => byte - b'0',
        b'a'..=b'f' => byte - b'a' + 10,
        _ => 0,
    }
}
