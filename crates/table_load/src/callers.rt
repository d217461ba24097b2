//! The callers of a table: one pass for each thread, and what its calls answered.
ghost use Rattle.std.specs.Prelude.{◌<◌, ◌^◌};
ghost use Rattle.map_core.specs.Machine.{IsWord};
ghost use Rattle.map_core.specs.Passes.{AtRest};
ghost use Rattle.map_cells.specs.Seen.{IsOf};

use crate::keys::{key_of, value_of};
use crate::tally::Tally;
use share_map::{AnyPair, Pass, Table};
use std::alloc::{AllocError, Global};
use std::ops::Range;

/// One thread's pass at rest, and what its calls answered.
#[derive(Drop)]
pub(crate) struct Caller<'t> {
    pub index: u64,
    table: &'t Table<AnyPair>,
    pass: Pass<AnyPair>,
    pub tally: Tally,
    ghost of: { IsOf table.now pass },
    ghost rest: { AtRest pass.knows },
}

impl<'t> Caller<'t> {
    fn new(index: u64, table: &'t Table<AnyPair>, pass: Pass<AnyPair>) -> Caller<'t>
        requires of { IsOf table.now pass }
        requires rest { AtRest pass.knows }
    {
        Caller {
            index,
            table,
            pass,
            tally: Tally::new(),
        }
    }

    /// A caller of the same table at another index, while there are spare passes.
    fn split(&mut self, index: u64) -> Option<Caller<'t>> {
        if self.pass.spare() == 0 {
            return None;
        }
        let pass = self.table.split(&mut self.pass);
        Some(Caller::new(index, self.table, pass))
    }

    #[inline]
    fn insert(&mut self, tally: &mut Tally, number: u64)
        requires { number < 2 ^ 32 }
    {
        let answer = self
            .table
            .insert(&mut self.pass, key_of(number), value_of(number));
        tally.note_insert(answer);
    }

    #[inline]
    fn find(&mut self, tally: &mut Tally, number: u64) {
        let answer = self.table.find(&mut self.pass, key_of(number));
        tally.note_find(answer);
    }

    /// Inserts the pairs of these numbers. A thread has its caller by value, so that no two write to one cache line.
    pub fn insert_all(mut self, numbers: Range<u64>) -> Caller<'t>
        requires { numbers.end < 2 ^ 32 }
    {
        let mut tally = Tally::new();
        for number in numbers.start..numbers.end {
            self.insert(&mut tally, number);
        }
        self.tally.add(tally);
        self
    }

    /// Looks the keys of these numbers up, so many times.
    pub fn find_all(mut self, numbers: Range<u64>, rounds: u64) -> Caller<'t> {
        let mut tally = Tally::new();
        for _ in 0..rounds {
            for number in numbers.start..numbers.end {
                self.find(&mut tally, number);
            }
        }
        self.tally.add(tally);
        self
    }
}

/// So many callers of a table, or fewer where it has fewer passes.
pub(crate) fn callers<'t>(
    alloc: Global,
    table: &'t Table<AnyPair>,
    pass: Pass<AnyPair>,
    count: u64,
) -> Result<Vec<Caller<'t>>, AllocError>
    requires of { IsOf table.now pass }
    requires rest { AtRest pass.knows }
{
    let mut all = Vec::new(alloc);
    let mut first = Caller::new(0, table, pass);
    for index in 1..count {
        let Some(next) = first.split(index) else {
            break;
        };
        all.push(next)?;
    }
    all.push(first)?;
    Ok(all)
}
