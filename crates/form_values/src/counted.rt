//! Bytes behind their count, as blocks and expressions have them.

ghost use Rattle.std.specs.Prelude.{◌≡◌, ◌≤◌, OnOk};
ghost use Rattle.dw_fields.specs.Span.{at};
ghost use Rattle.dw_fields.specs.Reading.{Gives, number_at, uleb_at};
ghost use Rattle.form_values.specs.FormTable.{behind, counted_bytes};

use dw_fields::{Cut, Fault};

/// Takes `count` bytes behind the count, which `ahead` has passed. Where they don't fit, the cut still
/// stands before the count.
#[inline]
fn bytes_behind<'f>(cut: &mut Cut<'f>, mut ahead: Cut<'f>, count: u64) -> Result<&'f [u8], Fault>
    requires same { ahead ≡ at cut.old ahead.place }
    requires ahead { cut.old.place ≤ ahead.place }
    ensures bytes { Gives (λ b. b.now) result (behind ahead.entry.place count) cut.old cut.new }
    ensures forward { OnOk result (cut.old.place ≤ cut.new.place) }
{
    let bytes = ahead.bytes(count)?;
    *cut = ahead;
    Ok(bytes)
}

/// Bytes behind a count of 1 byte.
#[inline]
#[tactic(auto, unfolding(crate::specs::FormTable::counted_bytes))]
pub fn counted_by_u8<'f>(cut: &mut Cut<'f>) -> Result<&'f [u8], Fault>
    ensures bytes { Gives (λ b. b.now) result (counted_bytes (number_at 1)) cut.old cut.new }
    ensures forward { OnOk result (cut.old.place ≤ cut.new.place) }
{
    let mut ahead = cut.fork();
    let count = ahead.u8()?;
    bytes_behind(cut, ahead, u64::from(count))
}

/// Bytes behind a count of 2 bytes.
#[inline]
#[tactic(auto, unfolding(crate::specs::FormTable::counted_bytes))]
pub fn counted_by_u16<'f>(cut: &mut Cut<'f>) -> Result<&'f [u8], Fault>
    ensures bytes { Gives (λ b. b.now) result (counted_bytes (number_at 2)) cut.old cut.new }
    ensures forward { OnOk result (cut.old.place ≤ cut.new.place) }
{
    let mut ahead = cut.fork();
    let count = ahead.u16()?;
    bytes_behind(cut, ahead, u64::from(count))
}

/// Bytes behind a count of 4 bytes.
#[inline]
#[tactic(auto, unfolding(crate::specs::FormTable::counted_bytes))]
pub fn counted_by_u32<'f>(cut: &mut Cut<'f>) -> Result<&'f [u8], Fault>
    ensures bytes { Gives (λ b. b.now) result (counted_bytes (number_at 4)) cut.old cut.new }
    ensures forward { OnOk result (cut.old.place ≤ cut.new.place) }
{
    let mut ahead = cut.fork();
    let count = ahead.u32()?;
    bytes_behind(cut, ahead, u64::from(count))
}

/// Bytes behind a count that is a ULEB128.
#[inline]
#[tactic(auto, unfolding(crate::specs::FormTable::counted_bytes))]
pub fn counted_by_uleb<'f>(cut: &mut Cut<'f>) -> Result<&'f [u8], Fault>
    ensures bytes { Gives (λ b. b.now) result (counted_bytes uleb_at) cut.old cut.new }
    ensures forward { OnOk result (cut.old.place ≤ cut.new.place) }
{
    let mut ahead = cut.fork();
    let count = ahead.uleb()?;
    bytes_behind(cut, ahead, count)
}
