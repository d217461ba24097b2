//! The draws of a file's units, by which its refused units are told.
ghost use Rattle.std.specs.Prelude.{◌≡◌};

use boxcar::tag::{Names, Tag};
use handle_cache::Handle;
use unit_draws::{Draws, RefusedUnits};

/// How a file's bytes are read off its handle, as a tag.
struct FileBytes;

impl<'f> Names<Handle<'f>> for FileBytes {
    ghost numbers = { λ h. h.file };
}

/// The units of an opened file, by the file's bytes.
#[derive(Drop)]
pub struct FileUnits {
    file: Tag,
}

impl FileUnits {
    /// The units of a handle's file.
    pub(crate) fn of(handle: &Handle<'_>) -> FileUnits
        ensures { result.file.numbers ≡ handle.now.file }
    {
        FileUnits {
            file: Tag::of::<Handle<'_>, FileBytes>(handle),
        }
    }
}

impl RefusedUnits for FileUnits {
    ghost use Rattle.dump_workers.specs.RefusedUnits.{RefusesUnit};

    ghost tag = { λ u. u.file.numbers };

    ghost refuses = { RefusesUnit };
}

/// The draws of a file's units.
pub(crate) type FileDraws = Draws<FileUnits>;
