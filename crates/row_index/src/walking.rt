//! The row that an address belongs to, found by a walk over all rows.

ghost use Rattle.std.specs.Prelude.{◌≡◌, map};
ghost use Rattle.row_index.specs.Rows.{covers, found_in, row_at};

use crate::rows::KeptRow;

/// Whether a row and the next one cover an address.
#[inline]
fn covers(row: &KeptRow, next: &KeptRow, address: u64) -> bool
    ensures { result ≡ covers row.now next.now address }
{
    !row.end && row.address <= address && address < next.address
}

/// The first row of a unit that covers an address with the next one.
fn first_row(rows: &[KeptRow], address: u64) -> Option<KeptRow>
    ensures { result ≡ row_at rows.now address }
{
    for place in 1..rows.len() {
        if covers(&rows[place - 1], &rows[place], address) {
            return Some(rows[place - 1]);
        }
    }
    None
}

/// The first unit that has such a row, with the row.
pub(crate) fn first_found(units: &[Vec<KeptRow>], address: u64) -> Option<(usize, KeptRow)>
    ensures { result ≡ found_in (map (λ u. u.items) units.now) address }
{
    for unit in 0..units.len() {
        if let Some(row) = first_row(&units[unit], address) {
            return Some((unit, row));
        }
    }
    None
}
