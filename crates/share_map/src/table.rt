//! The table and its calls.
ghost use Rattle.std.specs.Prelude.{◌≡◌, ◌≢◌, ◌↔◌, ◌<◌, ◌≤◌, ℕ, length, Some, IfOk, IsTrue};
ghost use Rattle.map_core.specs.declared.layout.TheConstants.{MOST_ENTRIES, MOST_PASSES};
ghost use Rattle.map_core.specs.Sizes.{cells_of};
ghost use Rattle.map_core.specs.History.{value_in};
ghost use Rattle.map_core.specs.Machine.{IsWord};
ghost use Rattle.map_core.specs.Calls.{own, FindsAt};
ghost use Rattle.map_core.specs.Passes.{AtRest, PassFacts};
ghost use Rattle.map_cells.specs.Seen.{IsOf, Continues, Follows};
ghost use Rattle.map_cells.specs.Passing.{IsSplit, IsJoined};
ghost use Rattle.map_cells.specs.Steps.{Rises};
ghost use Rattle.map_cells.specs.Walks.{Walks};
ghost use Rattle.map_cells.specs.Whole.{WasCurrent};
ghost use Rattle.share_map.specs.Answers.{IsNew, HasRoom, Inserts, PutTogether};
ghost use Rattle.share_map.specs.declared.answers.Kept.TheVariants.{Found};

use crate::answers::{Full, Kept, Shape};
use block_moves::{Helped, help};
use map_cells::{Cells, Facts, Layout, Pass, Put, SeekEnd};
use std::alloc::{AllocError, Global};
use std::marker::Model;

/// A map from keys to values that threads share without locks.
#[derive(Drop)]
pub struct Table<F: Facts> {
    cells: Cells<F>,
}

impl<F: Facts> Model for Table<F> {
    ghost use Rattle.map_cells.specs.Seen.{CellsView};

    ghost Value = { CellsView };

    ghost view = { λ t. t.cells };
}

impl<F: Facts> Table<F> {
    /// An empty table with room for `capacity` entries and `passes` passes, and its first pass. Which pairs it may
    /// hold is read off `facts`, of which it keeps nothing.
    pub fn new(
        alloc: Global,
        capacity: u64,
        passes: u32,
        facts: &F,
    ) -> Result<(Table<F>, Pass<F>), AllocError>
        requires capacity { (1 ≤ capacity) × (capacity ≤ MOST_ENTRIES) }
        requires passes { (1 ≤ passes) × (passes ≤ MOST_PASSES) }
        ensures { IfOk result (λ r. IsNew capacity passes (F.tag facts.now) r.0 r.1) }
    {
        let layout = Layout::of(capacity, passes);
        let (cells, pass) = Cells::new(alloc, layout, passes, facts)?;
        Ok((Table { cells }, pass))
    }

    /// The cells of the table, for single steps of `map_cells` beside its calls.
    pub fn cells(&self) -> &Cells<F>
        ensures { result.now ≡ self.now }
    {
        &self.cells
    }

    /// The value of a key, or that it has none. It looks in the pass's own generation first.
    pub fn find(&self, pass: &mut Pass<F>, key: u64) -> Option<u64>
        requires of { IsOf self.now pass.old }
        requires rest { AtRest pass.old.knows }
        requires key { IsWord key }
        ensures of { IsOf self.now pass.new }
        ensures rest { AtRest pass.new.knows }
        ensures facts { PassFacts F.fits pass.new.knows }
        ensures follows { Follows pass.old pass.new }
        ensures find { FindsAt (F.fits self.now.tag) pass.old.knows pass.new.knows key result }
        // what was in the pass's front is found
        ensures kept { (v : ℕ) → value_in pass.old.knows.front key ≡ Some v → result ≡ Some v }
    {
        pass.recall();
        // where no move goes on this settles it, with no load but those of the key's cells
        match self.cells.seek_in(pass, pass.generation(), key) {
            SeekEnd::Value(value) => return Some(value),
            SeekEnd::Missing => return None,
            SeekEnd::Closed => {}
        }
        let generation = self.cells.current(pass);
        self.cells.seek_from(pass, generation, key)
    }

    /// Puts a pair in, unless the key has a value. Where it was placed and a move of the table's cells to a larger
    /// generation is due, the call helps with it.
    pub fn insert(&self, pass: &mut Pass<F>, key: u64, value: u64) -> Result<Kept, Full>
        requires of { IsOf self.now pass.old }
        requires rest { AtRest pass.old.knows }
        requires key { IsWord key }
        requires value { IsWord value }
        requires fits { F.fits self.now.tag key value }
        ensures of { IsOf self.now pass.new }
        ensures rest { AtRest pass.new.knows }
        ensures facts { PassFacts F.fits pass.new.knows }
        ensures follows { Follows pass.old pass.new }
        ensures insert { Inserts (F.fits self.now.tag) self.now.layout.capacity key value
            pass.old.knows pass.new.knows result }
        // what was in the pass's front is met
        ensures kept { (v : ℕ) → value_in pass.old.knows.front key ≡ Some v
            → result ≡ Ok (Found v) }
    {
        let capacity = self.cells.layout().capacity;
        let seen = self.last_count(pass);
        let generation = self.cells.current(pass);
        if seen >= capacity {
            return match self.cells.seek_from(pass, generation, key) {
                Some(found) => Ok(Kept::Found(found)),
                None => Err(Full),
            };
        }
        match self.cells.put_from(pass, generation, key, value) {
            Put::Placed => {
                let count = self.cells.count(pass);
                self.relieve_from(pass, generation, count);
                Ok(Kept::Placed)
            }
            Put::Found(found) => Ok(Kept::Found(found)),
            Put::Exhausted => Err(Full),
        }
    }

    // Helps while a move is due, where the pass has just counted an entry in this generation. Nearly always none is, and
    // the count alone says so.
    fn relieve_from(&self, pass: &mut Pass<F>, generation: u32, count: u64)
        requires of { IsOf self.now pass.old }
        requires rest { AtRest pass.old.knows }
        requires here { pass.old.knows.generation ≡ generation }
        requires few { length (own pass.old.knows) ≤ count }
        requires most { count ≤ length pass.old.knows.front }
        ensures of { IsOf self.now pass.new }
        ensures table { pass.new.table ≡ pass.old.table }
        ensures rest { AtRest pass.new.knows }
        ensures rises { Rises pass.old.knows pass.new.knows }
        ensures facts { PassFacts F.fits pass.new.knows }
        ensures room { HasRoom pass.new.knows }
    {
        pass.recall();
        let layout = self.cells.layout();
        if generation == layout.last {
            return;
        }
        if 4 * count < 3 * layout.cells(generation) {
            return;
        }
        self.relieve(pass);
    }

    // Helps while a move is due.
    fn relieve(&self, pass: &mut Pass<F>)
        requires of { IsOf self.now pass.old }
        requires rest { AtRest pass.old.knows }
        ensures of { IsOf self.now pass.new }
        ensures table { pass.new.table ≡ pass.old.table }
        ensures rest { AtRest pass.new.knows }
        ensures rises { Rises pass.old.knows pass.new.knows }
        ensures facts { PassFacts F.fits pass.new.knows }
        ensures room { HasRoom pass.new.knows }
    {
        pass.recall();
        loop {
            match help(&self.cells, pass) {
                Helped::Nothing => return,
                Helped::LastFull => return,
                Helped::Switched { .. } => {}
            }
        }
    }

    // The greatest count that the pass has seen. A pass that has seen none loads it, so that it finds a full table full.
    fn last_count(&self, pass: &mut Pass<F>) -> u64
        requires { IsOf self.now pass.old }
        ensures of { IsOf self.now pass.new }
        ensures walk { Walks F.fits pass.old.knows pass.new.knows }
        ensures seen { result ≡ pass.new.knows.count_seen }
    {
        pass.recall();
        let seen = pass.count_seen();
        if seen > 0 {
            return seen;
        }
        self.cells.counted(pass)
    }

    /// Splits off a new pass, which knows as much. It takes one of the spare numbers.
    pub fn split(&self, pass: &mut Pass<F>) -> Pass<F>
        requires of { IsOf self.now pass.old }
        requires spare { 0 < pass.old.knows.spare }
        requires rest { AtRest pass.old.knows }
        ensures of { IsOf self.now pass.new × IsOf self.now result }
        ensures rest { AtRest pass.new.knows × AtRest result.knows }
        ensures continues { Continues pass.old pass.new }
        ensures passes { IsSplit F.fits pass.old.knows pass.new.knows result.knows }
    {
        self.cells.split(pass)
    }

    /// Takes a pass into another, which then knows as much as both.
    pub fn join(&self, into: &mut Pass<F>, from: Pass<F>)
        requires of { IsOf self.now into.old }
        requires also { IsOf self.now from }
        requires number { from.knows.number ≢ 0 }
        requires rest { AtRest into.old.knows }
        requires quiet { AtRest from.knows }
        ensures of { IsOf self.now into.new }
        ensures rest { AtRest into.new.knows }
        ensures continues { Continues into.old into.new }
        ensures passes { IsJoined F.fits into.old.knows from.knows into.new.knows }
        ensures own { PutTogether into.old.knows from.knows into.new.knows }
    {
        self.cells.join(into, from)
    }

    /// The generation that the table is in: the one that this call found current.
    pub fn shape(&self, pass: &mut Pass<F>) -> Shape
        requires of { IsOf self.now pass.old }
        requires rest { AtRest pass.old.knows }
        ensures of { IsOf self.now pass.new }
        ensures rest { AtRest pass.new.knows }
        ensures facts { PassFacts F.fits pass.new.knows }
        ensures follows { Follows pass.old pass.new }
        ensures own { own pass.new.knows ≡ own pass.old.knows }
        ensures risen { pass.old.knows.generation ≤ result.generation }
        // it is current where the pass's front, as the call leaves it, is the whole history
        ensures current { WasCurrent F.fits result.generation pass.new.knows }
        ensures cells { result.cells ≡ cells_of result.generation }
        ensures last { IsTrue result.last ↔ (result.generation ≡ self.now.layout.last) }
    {
        let current = self.cells.current(pass);
        let layout = self.cells.layout();
        Shape {
            generation: current,
            cells: layout.cells(current),
            last: current == layout.last,
        }
    }
}
