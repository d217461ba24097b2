//! Single calls of a cut over a few bytes.

use dw_fields::{Cut, Fault, Length, Order};
use std::alloc::{AllocError, Global};

/// Makes the call of this name at the start of the bytes, and gives its answer and the place behind
/// it.
pub fn call(alloc: Global, name: &str, bytes: &[u8]) -> Result<String, AllocError> {
    let end = bytes.len() as u64;
    match name.strip_prefix("big-") {
        Some(name) => answer(alloc, name, Cut::new(bytes, 0, end, Order::Big)),
        None => answer(alloc, name, Cut::new(bytes, 0, end, Order::Little)),
    }
}

fn answer(alloc: Global, name: &str, mut cut: Cut<'_>) -> Result<String, AllocError> {
    let value = match name {
        "u8" => number(alloc, widened(cut.u8()))?,
        "u16" => number(alloc, widened(cut.u16()))?,
        "u24" => number(alloc, widened(cut.u24()))?,
        "u32" => number(alloc, widened(cut.u32()))?,
        "u64" => number(alloc, cut.u64())?,
        "u128" => long_number(alloc, cut.u128())?,
        "uleb" => number(alloc, cut.uleb())?,
        "sleb" => signed_number(alloc, cut.sleb())?,
        "address2" => number(alloc, cut.address(2))?,
        "offset" => number(alloc, cut.offset(true))?,
        "length" => length(alloc, cut.length())?,
        _ => text_size(alloc, cut.text())?,
    };
    let place = cut.place();
    format!(in alloc; "{value}\nplace {place}\n")
}

fn widened<T: Into<u64>>(read: Result<T, Fault>) -> Result<u64, Fault> {
    match read {
        Ok(value) => Ok(value.into()),
        Err(fault) => Err(fault),
    }
}

fn refused(alloc: Global, fault: Fault) -> Result<String, AllocError> {
    let code = fault.code.number();
    let place = fault.place;
    format!(in alloc; "refusal {code} at {place}")
}

fn number(alloc: Global, read: Result<u64, Fault>) -> Result<String, AllocError> {
    match read {
        Ok(value) => format!(in alloc; "{value}"),
        Err(fault) => refused(alloc, fault),
    }
}

fn signed_number(alloc: Global, read: Result<i64, Fault>) -> Result<String, AllocError> {
    match read {
        Ok(value) => format!(in alloc; "{value}"),
        Err(fault) => refused(alloc, fault),
    }
}

fn long_number(alloc: Global, read: Result<u128, Fault>) -> Result<String, AllocError> {
    match read {
        Ok(value) => {
            let high = u64::try_from(value >> 64).unwrap_or(0);
            format!(in alloc; "high half {high}")
        }
        Err(fault) => refused(alloc, fault),
    }
}

fn length(alloc: Global, read: Result<Length, Fault>) -> Result<String, AllocError> {
    match read {
        Ok(length) => {
            let value = length.value;
            let wide = length.wide;
            format!(in alloc; "{value} wide {wide}")
        }
        Err(fault) => refused(alloc, fault),
    }
}

fn text_size(alloc: Global, read: Result<&[u8], Fault>) -> Result<String, AllocError> {
    match read {
        Ok(text) => {
            let size = text.len();
            format!(in alloc; "{size} bytes")
        }
        Err(fault) => refused(alloc, fault),
    }
}
