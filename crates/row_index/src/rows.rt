//! A row as an index keeps it, and the rows of one unit.

ghost use Rattle.std.specs.Prelude.{◌≡◌, ◌<◌, ◌≤◌, ◌&&◌, ℕ, take, drop, not, length, nat_le, nat_lt};
ghost use Rattle.std.specs.Option.{option_or};
ghost use Rattle.row_index.specs.Kept.{kept_row};
ghost use Rattle.row_index.specs.Rows.{covers, row_at};
ghost use Rattle.row_index.specs.Runs.{Rises, breaks, interval_of};

use interval_index::Interval;
use line_machine::{OfRow, Row};

/// What an index keeps of a row of the line table (DWARF 5 section 6.2.2).
#[derive(Clone, Copy, Debug, PartialEq, Eq)]
pub struct KeptRow {
    /// The address of an instruction, or of its first operation.
    pub address: u64,
    /// The line in the source file; modulo `2^64`.
    pub line: u64,
    /// The number of the source file; the greatest one stands for all from there on.
    pub file: u32,
    /// Whether the address is the first behind a sequence of instructions.
    pub end: bool,
}

impl OfRow for KeptRow {
    ghost use Rattle.row_index.specs.Kept.{kept_row};

    ghost kept = { kept_row };

    #[inline]
    fn of_row(row: &Row) -> KeptRow {
        KeptRow {
            address: row.address,
            line: row.line,
            file: row.file.min(u64::from(u32::MAX)) as u32,
            end: row.end,
        }
    }
}

/// Whether a run ends behind `row`, so that no address is between it and the next one.
#[inline]
fn breaks(row: &KeptRow, next: &KeptRow) -> bool
    ensures { result ≡ breaks row.now next.now }
{
    row.end || next.address < row.address
}

/// How many rows there are up to the first break, or to the end.
pub(crate) fn run_length(rows: &[KeptRow]) -> usize
    requires { 0 < length rows.now }
    ensures some { 0 < result }
    ensures within { result ≤ length rows.now }
    ensures rises { Rises (take result rows.now) }
    ensures cut { (a : ℕ) → row_at rows.now a
        ≡ option_or (row_at (take result rows.now) a) (row_at (drop result rows.now) a) }
{
    for place in 1..rows.len() {
        if breaks(&rows[place - 1], &rows[place]) {
            return place;
        }
    }
    rows.len()
}

/// The row of a run that an address belongs to.
pub(crate) fn row_in(rows: &[KeptRow], address: u64) -> Option<KeptRow>
    requires { Rises rows.now }
    ensures { result ≡ row_at rows.now address }
{
    let count = rows.partition_point(|row| row.address <= address);
    if count == 0 {
        return None;
    }
    if count == rows.len() {
        return None;
    }
    Some(rows[count - 1])
}

/// The addresses of a run: those from its first row's up to its last row's.
pub(crate) fn interval_of(rows: &[KeptRow]) -> Interval
    ensures { result ≡ interval_of rows.now }
{
    if rows.is_empty() {
        Interval { low: 0, high: 0 }
    } else {
        Interval {
            low: rows[0].address,
            high: rows[rows.len() - 1].address,
        }
    }
}
