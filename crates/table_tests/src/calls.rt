//! Calls of a table by a pass at rest, and rows of calls with what each must answer.
ghost use Rattle.std.specs.Prelude.{◌≤◌, IfOk};
ghost use Rattle.map_core.specs.declared.layout.TheConstants.{MOST_ENTRIES, MOST_PASSES};
ghost use Rattle.map_core.specs.Machine.{IsWord};
ghost use Rattle.table_tests.specs.States.{Idle};

use map_cells::Cells;
use share_map::{AnyPair, Full, Kept, Pass, Shape, Table};
use std::alloc::{AllocError, Global};
use std::process::Abort;

/// A call, and what it must answer.
#[derive(Clone, Copy)]
pub(crate) enum Call {
    /// An insert of a new pair.
    Places(u64, u64),
    /// An insert of another value for a key that has this one.
    Meets(u64, u64),
    /// An insert of a key for which there is no room.
    Refuses(u64),
    /// A find of a key that has this value.
    Finds(u64, u64),
    /// A find of a key that has none.
    Lacks(u64),
    /// The table is in this generation of so many cells, which is the last or not.
    IsIn(u32, u64, bool),
    /// The pass has placed so many entries.
    HasPlaced(u64),
    /// The pass has this number, and so many spare ones.
    HasPasses(u32, u32),
}

/// The number, if it may be a key or a value.
pub(crate) fn word(number: u64) -> u64
    ensures { IsWord result }
{
    if number == 0 || number == u64::MAX {
        1
    } else {
        number
    }
}

/// A table of these sizes, and its first pass.
pub(crate) fn new_table(
    alloc: Global,
    capacity: u64,
    passes: u32,
) -> Result<(Table<AnyPair>, Pass<AnyPair>), AllocError>
    requires capacity { (1 ≤ capacity) × (capacity ≤ MOST_ENTRIES) }
    requires passes { (1 ≤ passes) × (passes ≤ MOST_PASSES) }
    ensures { IfOk result (λ r. Idle r.0 r.1) }
{
    Table::new(alloc, capacity, passes, &AnyPair)
}

/// The cells of a table, for single steps of this pass.
pub(crate) fn cells_for<'t>(table: &'t Table<AnyPair>, pass: &Pass<AnyPair>) -> &'t Cells<AnyPair>
    requires { Idle table.now pass.now }
    ensures { Idle result.now pass.now }
{
    let _ = pass;
    table.cells()
}

pub(crate) fn insert(
    table: &Table<AnyPair>,
    pass: &mut Pass<AnyPair>,
    key: u64,
    value: u64,
) -> Result<Kept, Full>
    requires { Idle table.now pass.old }
    ensures { Idle table.now pass.new }
{
    table.insert(pass, word(key), word(value))
}

pub(crate) fn find(table: &Table<AnyPair>, pass: &mut Pass<AnyPair>, key: u64) -> Option<u64>
    requires { Idle table.now pass.old }
    ensures { Idle table.now pass.new }
{
    table.find(pass, word(key))
}

pub(crate) fn shape(table: &Table<AnyPair>, pass: &mut Pass<AnyPair>) -> Shape
    requires { Idle table.now pass.old }
    ensures { Idle table.now pass.new }
{
    table.shape(pass)
}

/// Splits off a pass, which must have a spare one.
pub(crate) fn split<R: Abort>(
    rt: &R,
    table: &Table<AnyPair>,
    pass: &mut Pass<AnyPair>,
) -> Pass<AnyPair>
    requires { Idle table.now pass.old }
    ensures old { Idle table.now pass.new }
    ensures new { Idle table.now result }
{
    assert!(rt; pass.spare() > 0);
    table.split(pass)
}

/// Takes in a pass, which must not be the first.
pub(crate) fn join<R: Abort>(
    rt: &R,
    table: &Table<AnyPair>,
    into: &mut Pass<AnyPair>,
    from: Pass<AnyPair>,
)
    requires idle { Idle table.now into.old }
    requires also { Idle table.now from }
    ensures { Idle table.now into.new }
{
    assert!(rt; from.number() != 0);
    table.join(into, from)
}

// Whether a call answers as it must.
fn answers(table: &Table<AnyPair>, pass: &mut Pass<AnyPair>, call: Call) -> bool
    requires { Idle table.now pass.old }
    ensures { Idle table.now pass.new }
{
    match call {
        Call::Places(key, value) => insert(table, pass, key, value) == Ok(Kept::Placed),
        Call::Meets(key, value) => insert(table, pass, key, 1) == Ok(Kept::Found(value)),
        Call::Refuses(key) => insert(table, pass, key, 1) == Err(Full),
        Call::Finds(key, value) => find(table, pass, key) == Some(value),
        Call::Lacks(key) => find(table, pass, key).is_none(),
        Call::IsIn(generation, cells, last) => {
            let wanted = Shape {
                generation,
                cells,
                last,
            };
            shape(table, pass) == wanted
        }
        Call::HasPlaced(count) => pass.placed() == count,
        Call::HasPasses(number, spare) => pass.number() == number && pass.spare() == spare,
    }
}

/// Makes calls one after another.
pub(crate) fn check_calls<R: Abort>(
    rt: &R,
    table: &Table<AnyPair>,
    pass: &mut Pass<AnyPair>,
    calls: &[Call],
)
    requires { Idle table.now pass.old }
    ensures { Idle table.now pass.new }
{
    for number in 0..calls.len() {
        assert!(rt; answers(table, pass, calls[number]), "call {number}");
    }
}

/// Inserts the keys from one number up to below another, each with 100 more than itself.
pub(crate) fn fill<R: Abort>(
    rt: &R,
    table: &Table<AnyPair>,
    pass: &mut Pass<AnyPair>,
    from: u64,
    end: u64,
)
    requires { Idle table.now pass.old }
    ensures { Idle table.now pass.new }
{
    for key in from..end {
        let placed = answers(table, pass, Call::Places(key, key.wrapping_add(100)));
        assert!(rt; placed, "key {key}");
    }
}

/// The keys from 1 up to below the number have these values.
pub(crate) fn check_found<R: Abort>(
    rt: &R,
    table: &Table<AnyPair>,
    pass: &mut Pass<AnyPair>,
    end: u64,
)
    requires { Idle table.now pass.old }
    ensures { Idle table.now pass.new }
{
    for key in 1..end {
        let found = answers(table, pass, Call::Finds(key, key.wrapping_add(100)));
        assert!(rt; found, "key {key}");
    }
}
