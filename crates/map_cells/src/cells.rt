//! The cells of a table: how they are made, and how passes are split off and joined.
ghost use Rattle.std.specs.Prelude.{◌≡◌, ◌≢◌, ◌<◌, IfOk};
ghost use Rattle.map_core.specs.Passes.{AtRest};
ghost use Rattle.map_cells.specs.Seen.{IsOf, Continues};
ghost use Rattle.map_cells.specs.Passing.{BeginsCells, IsSplit, IsJoined};
ghost use Rattle.map_cells.specs.Whole.{ClosesTable};

use crate::about::{About, Facts, TagOfFacts};
use crate::pass::Pass;
use crate::places::count_words;
use crate::plays::{JoinPasses, Settle, SplitPass, TheRule};
use atomic_table::Table;
use boxcar::tag::Tag;
use map_core::{COUNT_WORD, Layout, View};
use std::alloc::{AllocError, Global};
use std::marker::{Model, PhantomData};

/// The words of a table, which threads share.
#[derive(Drop)]
pub struct Cells<F: Facts> {
    pub(crate) table: Table<(), View, About, TheRule<F>, Global>,
    pub(crate) layout: Layout,
}

impl<F: Facts> Model for Cells<F> {
    ghost use Rattle.std.specs.Prelude.{◌≡◌};
    ghost use Rattle.map_core.specs.Places.{word_count};
    ghost use Rattle.map_cells.specs.Seen.{CellsView};

    ghost Value = { CellsView };

    ghost view = { λ c. record {
      table = c.table.shared.table_id;
      layout = c.layout;
      tag = c.table.shared.key.tag.numbers;
    } };

    ghost invariant = { λ c. (c.table.shared.key.layout ≡ c.layout)
        × (c.table.shared.table_id.words ≡ word_count c.layout)
        × (c.table.shared.table_id.slots ≡ 0) };
}

impl<F: Facts> Cells<F> {
    /// A table with no entries, and its first pass. It takes the tag of `facts`, and keeps nothing else of them.
    pub fn new(
        alloc: Global,
        layout: Layout,
        passes: u32,
        facts: &F,
    ) -> Result<(Cells<F>, Pass<F>), AllocError>
        requires { passes ≡ layout.passes }
        ensures { IfOk result (λ r. BeginsCells layout (F.tag facts.now) r.0 r.1) }
    {
        let words = vec![in alloc; 0u64; count_words(&layout)]?;
        let about = About {
            layout,
            tag: Tag::of::<F, TagOfFacts<F>>(facts),
        };
        let (table, seat) = Table::of_words(alloc, words.as_slice(), &about)?;
        let cells = Cells { table, layout };
        let pass = Pass {
            seat,
            number: 0,
            spare: passes - 1,
            entries: 0,
            count_seen: 0,
            generation: 0,
            padding: [0; 8],
            facts: PhantomData,
        };
        Ok((cells, pass))
    }

    /// The sizes of the table.
    pub fn layout(&self) -> &Layout
        ensures { result.now ≡ self.now.layout }
    {
        &self.layout
    }

    /// Splits off a new pass, which knows as much. It takes one of the spare numbers.
    pub fn split(&self, pass: &mut Pass<F>) -> Pass<F>
        requires of { IsOf self.now pass.old }
        requires spare { 0 < pass.old.knows.spare }
        requires rest { AtRest pass.old.knows }
        ensures of { IsOf self.now pass.new × IsOf self.now result }
        ensures continues { Continues pass.old pass.new }
        ensures passes { IsSplit F.fits pass.old.knows pass.new.knows result.knows }
    {
        let number = self.layout.passes - pass.spare;
        let seat = self.table.shared.split_seat::<SplitPass>(&mut pass.seat);
        pass.spare -= 1;
        Pass {
            seat,
            number,
            spare: 0,
            entries: 0,
            count_seen: pass.count_seen,
            generation: pass.generation,
            padding: [0; 8],
            facts: PhantomData,
        }
    }

    /// Takes a pass into another, which then knows as much as both.
    pub fn join(&self, into: &mut Pass<F>, from: Pass<F>)
        requires of { IsOf self.now into.old }
        requires also { IsOf self.now from }
        requires number { from.knows.number ≢ 0 }
        requires rest { AtRest into.old.knows }
        requires quiet { AtRest from.knows }
        ensures of { IsOf self.now into.new }
        ensures continues { Continues into.old into.new }
        ensures passes { IsJoined F.fits into.old.knows from.knows into.new.knows }
    {
        let Pass {
            seat,
            number: _,
            spare: _,
            entries,
            count_seen: _,
            generation: _,
            padding: _,
            facts: _,
        } = from;
        self.table
            .shared
            .join_seat::<JoinPasses>(&mut into.seat, seat);
        self.table.shared.load::<Settle<F>>(&mut into.seat, 0);
        into.entries += entries;
    }

    /// Takes the table and a pass apart, and answers the count of entries. What then holds of the whole table held at
    /// every moment before.
    pub fn close(self, pass: Pass<F>) -> u64
        requires { IsOf self pass }
        ensures { ClosesTable F.fits self pass.knows result }
    {
        let Cells { table, layout: _ } = self;
        let Pass {
            seat,
            number: _,
            spare: _,
            entries: _,
            count_seen: _,
            generation: _,
            padding: _,
            facts: _,
        } = pass;
        let closed = table.close_with(seat);
        let count = closed.word(COUNT_WORD);
        closed.free();
        count
    }
}
