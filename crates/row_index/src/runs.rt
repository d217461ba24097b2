//! The runs of many units: stretches of rows in which no address falls.

ghost use Rattle.std.specs.Prelude.{◌≡◌, ◌<◌, ◌≤◌, ◌+◌, ℕ, List, [], length, map, get_or, IfOk, OnOk};
ghost use Rattle.row_index.specs.declared.rows.KeptRow.{KeptRow};
ghost use Rattle.row_index.specs.Rows.{found_in, row_at};
ghost use Rattle.row_index.specs.Runs.{
  AreRunsOf,
  IsRunOf,
  Splits,
  interval_of,
  rows_of,
  told_by,
  told_by_run,
};

use crate::rows::{KeptRow, interval_of, row_in, run_length};
use interval_index::Interval;
use std::alloc::{AllocError, Global};

/// Rows of one unit in which no address falls, and only the last may end a sequence.
#[derive(Clone, Copy)]
pub(crate) struct Run {
    /// The number of the unit.
    pub unit: usize,
    /// The number of the first row in its unit.
    pub start: usize,
    /// The number behind that of the last row.
    pub stop: usize,
}

/// The runs of all units, in order.
pub(crate) fn runs_of(alloc: Global, units: &[Vec<KeptRow>]) -> Result<Vec<Run>, AllocError>
    ensures runs { IfOk result (λ v. AreRunsOf (map (λ u. u.items) units.now) v.items) }
    ensures told { IfOk result (λ v. (a : ℕ) → told_by (map (λ u. u.items) units.now) v.items a
        ≡ found_in (map (λ u. u.items) units.now) a) }
{
    let mut runs = Vec::new(alloc);
    for unit in 0..units.len() {
        add_runs(unit, &units[unit], &mut runs)?;
    }
    Ok(runs)
}

/// Puts the runs of one unit behind the others.
fn add_runs(unit: usize, rows: &[KeptRow], runs: &mut Vec<Run>) -> Result<(), AllocError>
    ensures { OnOk result ((units : List (List KeptRow)) → unit < length units
        → get_or units unit [] ≡ rows.now → Splits units unit runs.old.items runs.new.items) }
{
    let mut start = 0;
    while start < rows.len() {
        let stop = start + run_length(&rows[start..]);
        runs.push(Run { unit, start, stop })?;
        start = stop;
    }
    Ok(())
}

/// The rows of a run.
#[inline]
pub(crate) fn rows_of<'u>(units: &'u [Vec<KeptRow>], run: &Run) -> &'u [KeptRow]
    requires { IsRunOf (map (λ u. u.items) units.now) run.now }
    ensures { result.now ≡ rows_of (map (λ u. u.items) units.now) run.now }
{
    &units[run.unit][run.start..run.stop]
}

/// The row of a run that an address belongs to, with its unit.
pub(crate) fn row_of(units: &[Vec<KeptRow>], run: &Run, address: u64) -> Option<(usize, KeptRow)>
    requires { IsRunOf (map (λ u. u.items) units.now) run.now }
    ensures { result ≡ told_by_run (map (λ u. u.items) units.now) run.now address }
{
    match row_in(rows_of(units, run), address) {
        Some(row) => Some((run.unit, row)),
        None => None,
    }
}

/// The intervals of the runs, in their order.
pub(crate) fn intervals_of(
    alloc: Global,
    units: &[Vec<KeptRow>],
    runs: &[Run],
) -> Result<Vec<Interval>, AllocError>
    requires { AreRunsOf (map (λ u. u.items) units.now) runs.now }
    ensures { IfOk result (λ v. v.items
        ≡ map (λ run. interval_of (rows_of (map (λ u. u.items) units.now) run)) runs.now) }
{
    let mut intervals = Vec::with_capacity(alloc, runs.len())?;
    for run in runs {
        intervals.push(interval_of(rows_of(units, run)))?;
    }
    Ok(intervals)
}
