//! Two threads over one opened file.
//!
//! Each has the declarations of a pass of its own over the handle that both borrow: `thread::join_mut` takes
//! such closures only where a `Handle` is `Sync` and a `HandlePass` is `Send`.
ghost use Rattle.std.specs.Prelude.{◌≡◌, ◌<◌};
ghost use Rattle.map_cells.specs.Seen.{Follows};
ghost use Rattle.handle_cache.specs.Handles.{Belongs};
ghost use Rattle.handle_cache.specs.SourceLaws.{KeepsSource};

use crate::files::{ONE_UNIT, TWO_CODES, file_of};
use abbrev_decl::{Decls, Steps};
use handle_cache::{Cached, Handle, HandlePass};
use std::process::Abort;
use std::test::Fail;
use std::thread::{Threads, join_mut};

/// What finding a code came to: the place of its declaration, and how many steps were counted.
#[derive(Clone, Copy, Debug, PartialEq, Eq)]
struct Found {
    place: Option<u64>,
    steps: u64,
}

/// Finds one declaration of the first table.
fn find_one(cached: &mut Cached<'_, '_>, code: u64) -> Found
    requires { 0 < code }
    ensures name { cached.new.pass.ghost_name ≡ cached.old.pass.ghost_name }
    ensures kept { KeepsSource cached.old.handle.now cached.old.pass.now
        cached.new.handle.now cached.new.pass.now }
{
    let mut steps = Steps::start(());
    let place = match cached.find(0, code, &mut steps) {
        Ok(declaration) => Some(declaration.place()),
        Err(_) => None,
    };
    Found {
        place,
        steps: steps.count(),
    }
}

/// Two threads: one finds this code, the other that code.
fn find_both<R: Threads>(
    rt: &R,
    one: &mut Cached<'_, '_>,
    this: u64,
    other: &mut Cached<'_, '_>,
    that: u64,
) -> (Found, Found)
    requires codes { (0 < this) × (0 < that) }
    ensures one { (one.new.pass.ghost_name ≡ one.old.pass.ghost_name)
        × KeepsSource one.old.handle.now one.old.pass.now one.new.handle.now one.new.pass.now }
    ensures other { (other.new.pass.ghost_name ≡ other.old.pass.ghost_name)
        × KeepsSource other.old.handle.now other.old.pass.now
        other.new.handle.now other.new.pass.now }
{
    join_mut(
        rt,
        &mut || find_one(one, this),
        &mut || find_one(other, that),
    )
}

/// The same over the passes of two readers of one file.
fn find_codes<'f, R: Threads>(
    rt: &R,
    handle: &Handle<'f>,
    first: &mut HandlePass<'f>,
    this: u64,
    second: &mut HandlePass<'f>,
    that: u64,
) -> (Found, Found)
    requires ready { Belongs handle.now first.old × Belongs handle.now second.old }
    requires codes { (0 < this) × (0 < that) }
    ensures ready { Belongs handle.now first.new × Belongs handle.now second.new }
    ensures first { Follows first.old first.new }
    ensures second { Follows second.old second.new }
{
    let mut one = Cached {
        handle,
        pass: first,
    };
    let mut other = Cached {
        handle,
        pass: second,
    };
    find_both(rt, &mut one, this, &mut other, that)
}

#[test]
fn each_thread_finds_what_the_other_placed(rt: HostRuntime) -> Result<(), Fail> {
    let file = file_of(rt.alloc(), &TWO_CODES, &ONE_UNIT)?;
    let (handle, mut first) = Handle::open(rt.alloc(), file.as_slice(), 3)?;
    let mut second = handle.table().split(&mut first);
    let (found, also) = find_codes(&rt, &handle, &mut first, 1, &mut second, 2);
    assert_eq!(rt; (found.place, found.steps), (Some(0), 1));
    assert_eq!(rt; (also.place, also.steps), (Some(7), 2));
    handle.table().join(&mut first, second);
    assert_eq!(rt; first.placed(), 2);
    let mut third = handle.table().split(&mut first);
    let (found, also) = find_codes(&rt, &handle, &mut first, 2, &mut third, 1);
    assert_eq!(rt; (found.place, found.steps), (Some(7), 0));
    assert_eq!(rt; (also.place, also.steps), (Some(0), 0));
    assert_eq!(rt; (first.placed(), third.placed()), (2, 0));
    Ok(())
}
