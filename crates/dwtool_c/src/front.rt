//! Texts that go into a caller's buffer piece by piece.

ghost use Rattle.dwtool_c.specs.Fronts.{PutsBehind};

use crate::answers::fill_front;
use crate::refusal::DwtoolRefusal;
use std::alloc::AllocError;

/// How many bytes of a text there are, and the refusal that ends it.
#[derive(Drop)]
pub(crate) struct Put {
    pub size: usize,
    pub refusal: Option<DwtoolRefusal>,
}

/// Puts bytes behind a text of `size` bytes, whose front stands in the buffer: as many of them as
/// fit. Answers the length of both.
///
/// # Errors
/// Where that is more than 64 bits hold; the buffer is then as it was.
#[tactic(auto, using(crate::proofs::Fitted::front_stays))]
pub(crate) fn put_behind(out: &mut [u8], size: usize, bytes: &[u8]) -> Result<usize, AllocError>
    ensures { PutsBehind result bytes.now out.old out.new size }
{
    let Some(end) = size.checked_add(bytes.len()) else {
        return Err(AllocError);
    };
    if size < out.len() {
        fill_front(bytes, &mut out[size..]);
    }
    Ok(end)
}
