//! What a whole dump left in the table.

ghost use Rattle.std.specs.Prelude.{◌≡◌, length, min};
ghost use Rattle.map_core.specs.Calls.{own};
ghost use Rattle.handle_cache.specs.Handles.{Belongs, sections_in};
ghost use Rattle.dump_workers.specs.Passes.{HasAllPasses};
ghost use Rattle.dump_workers.specs.TableKeys.{HoldsFile, published_count};

use crate::ends::{Published, Whole};
use handle_cache::{Handle, HandlePass};

/// What a whole dump left in the table, told by the first pass once all others are joined into it: as many
/// keys as the pass and those have placed, and no more than the table has room for.
pub fn published<'f>(handle: &Handle<'f>, whole: Whole, pass: &HandlePass<'f>) -> Published
    requires belongs { Belongs handle.now pass.now }
    requires first { pass.now.knows.number ≡ 0 }
    ensures number { result.number
        ≡ min (length (own pass.now.knows)) handle.now.table.layout.capacity }

    // once all passes are joined, these are the file's keys
    ensures file { HasAllPasses pass.now.knows → HoldsFile (sections_in handle.now) pass.now
        → result.number ≡ published_count (sections_in handle.now) }

    ensures units { result.units ≡ whole.units }
    ensures entries { result.entries ≡ whole.entries }
    ensures workers { result.workers ≡ whole.workers }
{
    pass.recall();
    Published {
        number: pass.placed().min(handle.capacity()),
        units: whole.units,
        entries: whole.entries,
        workers: whole.workers,
    }
}
