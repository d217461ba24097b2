//! The rows of many units, found by address.

ghost use Rattle.std.specs.Prelude.{◌≡◌, ℕ, map, IfOk};
ghost use Rattle.row_index.specs.Indexed.{IsIndexed};
ghost use Rattle.row_index.specs.Rows.{found_in};

use crate::rows::KeptRow;
use crate::runs::{Run, intervals_of, row_of, runs_of};
use crate::walking::first_found;
use interval_index::IntervalIndex;
use std::alloc::{AllocError, Global};
use std::marker::Model;

/// The runs of the rows of many units, by address.
#[derive(Drop)]
struct RunIndex {
    runs: Vec<Run>,
    index: IntervalIndex,
}

impl RunIndex {
    /// The first of these units that has a row to which `address` belongs, with the first such row.
    fn find(&self, units: &[Vec<KeptRow>], address: u64) -> Option<(usize, KeptRow)>
        requires { IsIndexed (map (λ u. u.items) units.now) self.now.runs.items self.now.index }
        ensures { result ≡ found_in (map (λ u. u.items) units.now) address }
    {
        match self.index.first(address) {
            Some(number) => row_of(units, &self.runs[number], address),
            None => None,
        }
    }
}

/// Finds the row that an address belongs to, among the rows of many units.
///
/// Contracts see it as the rows of each unit. It takes, beside the rows, at most 72 bytes for each
/// run of rows; files as compilers make them have one run a sequence. Rows that are left unsorted
/// take nothing more.
#[derive(Drop)]
pub struct RowIndex {
    units: Vec<Vec<KeptRow>>,
    runs: Option<RunIndex>,
}

impl Model for RowIndex {
    ghost use Rattle.std.specs.Prelude.{ℕ, List, map, IfSome};
    ghost use Rattle.row_index.specs.declared.rows.KeptRow.{KeptRow};
    ghost use Rattle.row_index.specs.Indexed.{IsIndexed};

    ghost Value = { List (List KeptRow) };

    ghost view = { λ x. map (λ v. v.items) x.units.items };

    ghost invariant = { λ x. IfSome x.runs
        (λ r. IsIndexed (map (λ v. v.items) x.units.items) r.runs.items r.index) };
}

impl RowIndex {
    /// The index of these rows of each unit.
    ///
    /// # Errors
    /// [`AllocError`] for want of memory.
    pub fn build(alloc: Global, units: Vec<Vec<KeptRow>>) -> Result<RowIndex, AllocError>
        ensures { IfOk result (λ index. index ≡ map (λ v. v.items) units.items) }
    {
        let runs = runs_of(alloc, &units)?;
        let intervals = intervals_of(alloc, &units, &runs)?;
        let index = IntervalIndex::build(alloc, &intervals)?;
        Ok(RowIndex {
            units,
            runs: Some(RunIndex { runs, index }),
        })
    }

    /// These rows of each unit as they are: each address is found by a walk. For a few addresses that
    /// takes less time than an index. No memory is taken.
    pub fn unsorted(units: Vec<Vec<KeptRow>>) -> RowIndex
        ensures { result ≡ map (λ v. v.items) units.items }
    {
        RowIndex { units, runs: None }
    }

    /// The first unit, counted from 0, that has a row to which `address` belongs, with the first such
    /// row; or `None` where no unit has one. No memory is taken.
    pub fn find(&self, address: u64) -> Option<(usize, KeptRow)>
        ensures { result ≡ found_in self.now address }
    {
        match &self.runs {
            Some(runs) => runs.find(&self.units, address),
            None => self.find_slowly(address),
        }
    }

    /// The same, found by a walk over all rows.
    pub fn find_slowly(&self, address: u64) -> Option<(usize, KeptRow)>
        ensures { result ≡ found_in self.now address }
    {
        first_found(&self.units, address)
    }
}
