//! What the keys of a file are, as a law.

ghost use Rattle.std.specs.Prelude.{◌↔◌, ℕ, Contains};
ghost use Rattle.map_core.specs.Passes.{Distinct};
ghost use Rattle.handle_cache.specs.Handles.{sections_in};
ghost use Rattle.dump_workers.specs.FileKeys.{IsFileKey};
ghost use Rattle.dump_workers.specs.TableKeys.{table_keys};

use handle_cache::Handle;

/// The list of a file's keys has each key that one of its units uses, no other, and none twice.
///
/// This is a law, for proofs; the call does nothing.
pub fn table_keys_are_the_files_keys(handle: &Handle<'_>)
    ensures each { (k : ℕ) → Contains (table_keys (sections_in handle.now)) k
        ↔ IsFileKey (sections_in handle.now) k }
    ensures once { Distinct (table_keys (sections_in handle.now)) }
{
    let _ = handle;
}
