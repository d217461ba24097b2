//! The two walks from a generation upwards: one looks a key up, the other puts a pair in.
ghost use Rattle.std.specs.Prelude.{◌≡◌, None, Some, IfSome, IfNone, true};
ghost use Rattle.map_core.specs.History.{value_in, is_in};
ghost use Rattle.map_core.specs.Places.{Within, IsCell};
ghost use Rattle.map_core.specs.Machine.{IsWord, Reaches};
ghost use Rattle.map_core.specs.Passes.{look};
ghost use Rattle.map_cells.specs.Seen.{IsOf};
ghost use Rattle.map_cells.specs.Steps.{ClosedTo, SettledTo, MayPublish};
ghost use Rattle.map_cells.specs.Walks.{Walks, ClaimsAtMost, WalksToClaim};
ghost use Rattle.map_cells.specs.Puts.{HoldsKey, SeeksAt, SeeksIn, TakesAt};
ghost use Rattle.map_cells.specs.Puts.{MayPut, PutsAt, PutsIn, IsPut};

use crate::about::Facts;
use crate::cells::Cells;
use crate::pass::Pass;
use crate::places::{home, next};
use crate::words::{KeyWord, ValueWord};
use map_core::Cell;

/// What a put came to: this call's exchange set the value, a value was there, or no cell was left.
#[derive(Clone, Copy)]
pub enum Put {
    Placed,
    Found(u64),
    Exhausted,
}

/// How a look-up ended in one generation: with the key's value, with no value in the whole table, or the key is closed
/// in this generation, so that it may stand in the next.
#[derive(Clone, Copy)]
pub enum SeekEnd {
    Value(u64),
    Missing,
    Closed,
}

// How a put ended in one generation.
#[derive(Clone, Copy)]
pub(crate) enum PutEnd {
    Placed,
    Found(u64),
    Closed,
}

// What one cell says of a key that is looked up.
#[derive(Clone, Copy)]
pub(crate) enum Sought {
    Value(u64),
    Missing,
    Other,
    Closed,
}

// What the walk of a key makes of one cell: it was claimed for the key, the key stands in it, another one does, or it
// is sealed.
#[derive(Clone, Copy)]
pub(crate) enum Taken {
    Claimed,
    Stands,
    Other,
    Closed,
}

// What one cell makes of a pair that is put in.
#[derive(Clone, Copy)]
pub(crate) enum Tried {
    Placed,
    Found(u64),
    Other,
    Closed,
}

impl<F: Facts> Cells<F> {
    // The value of a key, or that it has none, as far as one cell of its walk tells.
    fn seek_at(&self, pass: &mut Pass<F>, cell: Cell, key: u64) -> Sought
        requires of { IsOf self.now pass.old }
        requires cell { IsCell self.now.layout cell.generation cell.index }
        requires key { IsWord key }
        requires reached { Reaches pass.old.knows.layout (look pass.old.knows.known)
            cell.generation cell.index key }
        requires closed { ClosedTo pass.old.knows cell.generation key }
        ensures of { IsOf self.now pass.new }
        ensures walk { Walks F.fits pass.old.knows pass.new.knows }
        ensures sought { SeeksAt cell.generation cell.index key pass.new.knows result }
    {
        match self.key_at(pass, cell) {
            KeyWord::Empty => Sought::Missing,
            KeyWord::Sealed => Sought::Closed,
            KeyWord::Key(found) => {
                if found != key {
                    return Sought::Other;
                }
                match self.value_at(pass, cell) {
                    ValueWord::Unset => Sought::Missing,
                    ValueWord::Closed => Sought::Closed,
                    ValueWord::Value(value) => Sought::Value(value),
                }
            }
        }
    }

    // What the walk of a key makes of one cell, which is claimed for the key where it is empty.
    fn take_key(&self, pass: &mut Pass<F>, cell: Cell, key: u64) -> Taken
        requires of { IsOf self.now pass.old }
        requires cell { IsCell self.now.layout cell.generation cell.index }
        requires key { IsWord key }
        requires free { pass.old.knows.claim ≡ None }
        requires reached { Reaches pass.old.knows.layout (look pass.old.knows.known)
            cell.generation cell.index key }
        requires settled { SettledTo pass.old.knows cell.generation key }
        ensures of { IsOf self.now pass.new }
        ensures takes { WalksToClaim F.fits cell.generation cell.index
            pass.old.knows pass.new.knows }
        ensures taken { TakesAt cell.generation cell.index key pass.new.knows result }
    {
        match self.key_at(pass, cell) {
            KeyWord::Empty => match self.claim(pass, cell, key) {
                KeyWord::Empty => Taken::Claimed,
                KeyWord::Sealed => Taken::Closed,
                KeyWord::Key(winner) => {
                    if winner == key {
                        Taken::Stands
                    } else {
                        Taken::Other
                    }
                }
            },
            KeyWord::Sealed => Taken::Closed,
            KeyWord::Key(found) => {
                if found == key {
                    Taken::Stands
                } else {
                    Taken::Other
                }
            }
        }
    }

    // Puts a pair into one cell of its key's walk, unless another key stands there. A value that is there is found by
    // a load alone.
    fn put_at(&self, pass: &mut Pass<F>, cell: Cell, key: u64, value: u64) -> Tried
        requires of { IsOf self.now pass.old }
        requires cell { IsCell self.now.layout cell.generation cell.index }
        requires key { IsWord key }
        requires value { IsWord value }
        requires may { MayPublish F.fits cell.generation key value pass.old.knows }
        requires settled { SettledTo pass.old.knows cell.generation key }
        requires free { pass.old.knows.claim ≡ None }
        requires reached { Reaches pass.old.knows.layout (look pass.old.knows.known)
            cell.generation cell.index key }
        ensures of { IsOf self.now pass.new }
        ensures put { PutsAt F.fits cell.generation cell.index key value
            pass.old.knows pass.new.knows result }
    {
        match self.take_key(pass, cell, key) {
            Taken::Claimed => self.put_value(pass, cell, key, value),
            Taken::Stands => match self.value_at(pass, cell) {
                ValueWord::Unset => self.put_value(pass, cell, key, value),
                ValueWord::Closed => Tried::Closed,
                ValueWord::Value(found) => Tried::Found(found),
            },
            Taken::Other => Tried::Other,
            Taken::Closed => Tried::Closed,
        }
    }

    // Puts a value into a cell in which its key was seen, unless a value is there or the cell is closed.
    fn put_value(&self, pass: &mut Pass<F>, cell: Cell, key: u64, value: u64) -> Tried
        requires of { IsOf self.now pass.old }
        requires cell { IsCell self.now.layout cell.generation cell.index }
        requires key { IsWord key }
        requires value { IsWord value }
        requires may { MayPublish F.fits cell.generation key value pass.old.knows }
        requires claim { ClaimsAtMost cell.generation cell.index pass.old.knows }
        requires seen { HoldsKey cell.generation cell.index key pass.old.knows }
        requires reached { Reaches pass.old.knows.layout (look pass.old.knows.known)
            cell.generation cell.index key }
        ensures of { IsOf self.now pass.new }
        ensures free { pass.new.knows.claim ≡ None }
        ensures put { PutsAt F.fits cell.generation cell.index key value
            pass.old.knows pass.new.knows result }
    {
        match self.publish(pass, cell, key, value) {
            ValueWord::Unset => Tried::Placed,
            ValueWord::Closed => Tried::Closed,
            ValueWord::Value(found) => Tried::Found(found),
        }
    }

    /// The value of a key, as far as one generation tells, where the key was seen closed below it. It adds nothing.
    pub fn seek_in(&self, pass: &mut Pass<F>, generation: u32, key: u64) -> SeekEnd
        requires of { IsOf self.now pass.old }
        requires generation { Within self.now.layout generation }
        requires key { IsWord key }
        requires closed { ClosedTo pass.old.knows generation key }
        ensures of { IsOf self.now pass.new }
        ensures walk { Walks F.fits pass.old.knows pass.new.knows }
        ensures ended { SeeksIn generation key pass.new.knows result }
    {
        pass.recall();
        let cells = self.layout().cells(generation);
        let mut index = home(generation, key);
        let mut steps = 0;
        while steps < cells {
            match self.seek_at(pass, Cell { generation, index }, key) {
                Sought::Value(value) => return SeekEnd::Value(value),
                Sought::Missing => return SeekEnd::Missing,
                Sought::Closed => return SeekEnd::Closed,
                Sought::Other => {}
            }
            index = next(index, cells);
            steps += 1;
        }
        SeekEnd::Closed
    }

    // Puts a pair into one generation, unless the key has a value there or is closed.
    fn put_in(&self, pass: &mut Pass<F>, generation: u32, key: u64, value: u64) -> PutEnd
        requires of { IsOf self.now pass.old }
        requires generation { Within self.now.layout generation }
        requires key { IsWord key }
        requires value { IsWord value }
        requires may { MayPublish F.fits generation key value pass.old.knows }
        requires settled { SettledTo pass.old.knows generation key }
        requires free { pass.old.knows.claim ≡ None }
        ensures of { IsOf self.now pass.new }
        ensures put { PutsIn F.fits generation key value pass.old.knows pass.new.knows result }
    {
        pass.recall();
        let cells = self.layout().cells(generation);
        let mut index = home(generation, key);
        let mut steps = 0;
        while steps < cells {
            match self.put_at(pass, Cell { generation, index }, key, value) {
                Tried::Placed => return PutEnd::Placed,
                Tried::Found(found) => return PutEnd::Found(found),
                Tried::Closed => return PutEnd::Closed,
                Tried::Other => {}
            }
            index = next(index, cells);
            steps += 1;
        }
        PutEnd::Closed
    }

    /// The value of a key, in a generation that was seen current or above it. It adds nothing.
    pub fn seek_from(&self, pass: &mut Pass<F>, generation: u32, key: u64) -> Option<u64>
        requires of { IsOf self.now pass.old }
        requires key { IsWord key }
        requires current { is_in generation pass.old.knows.currents ≡ true }
        ensures of { IsOf self.now pass.new }
        ensures walk { Walks F.fits pass.old.knows pass.new.knows }
        ensures some { IfSome result (λ v. value_in pass.new.knows.front key ≡ Some v) }
        ensures none { IfNone result (value_in pass.new.knows.front key ≡ None) }
    {
        pass.recall();
        let last = self.layout().last;
        let mut here = generation;
        while here <= last {
            match self.seek_in(pass, here, key) {
                SeekEnd::Value(value) => return Some(value),
                SeekEnd::Missing => return None,
                SeekEnd::Closed => {}
            }
            here += 1;
        }
        None
    }

    /// Puts a pair into a generation or above it, unless the key has a value there. The generation was seen current,
    /// and the pair fits; or the one below it was, and the pair is seen published there.
    pub fn put_from(&self, pass: &mut Pass<F>, generation: u32, key: u64, value: u64) -> Put
        requires of { IsOf self.now pass.old }
        requires key { IsWord key }
        requires value { IsWord value }
        requires generation { Within self.now.layout generation }
        requires may { MayPut F.fits generation key value pass.old.knows }
        requires free { pass.old.knows.claim ≡ None }
        ensures of { IsOf self.now pass.new }
        ensures put { IsPut F.fits generation key value pass.old.knows pass.new.knows result }
    {
        pass.recall();
        let last = self.layout().last;
        let mut here = generation;
        while here <= last {
            match self.put_in(pass, here, key, value) {
                PutEnd::Placed => return Put::Placed,
                PutEnd::Found(found) => return Put::Found(found),
                PutEnd::Closed => {}
            }
            here += 1;
        }
        Put::Exhausted
    }
}
