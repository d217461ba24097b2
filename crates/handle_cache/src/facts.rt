//! What the table of a file may hold.

use share_map::{Facts, Pass};

/// What the table of a file may hold: of each key the value that scanning the file gives.
///
/// The key of a declaration is `table * 2^32 + code`, and its value the declaration's place in
/// `.debug_abbrev` plus 1. The key of word `j` of unit `i` is `2^63 + 8 * i + j`, and its value that word.
#[derive(Clone, Copy, Debug)]
pub struct FileFacts<'f> {
    /// The bytes of the file.
    pub file: &'f [u8],
}

impl<'f> Facts for FileFacts<'f> {
    ghost use Rattle.handle_cache.specs.Scanned.{FitsFile};

    ghost tag = { λ f. f.file.now };

    ghost fits = { FitsFile };
}

/// What one reader of an opened file knows of the file's table.
pub type HandlePass<'f> = Pass<FileFacts<'f>>;
