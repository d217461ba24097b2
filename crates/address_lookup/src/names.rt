//! The directories and files that the rows of a unit name (DWARF 5 section 6.2.4).

ghost use Rattle.std.specs.Prelude.{◌≡◌, [], get_or, map, option_map, slice_get};
ghost use Rattle.line_programs.specs.Shapes.{name_view};
ghost use Rattle.address_lookup.specs.Kept.{found_place, kept_place};
ghost use Rattle.address_lookup.specs.Places.{place_view};

use crate::place::Place;
use line_programs::{FileName, LineHeader};
use row_index::KeptRow;

/// A unit that has a line table, and the header of its program.
#[derive(Drop)]
pub(crate) struct UnitNames<'f> {
    /// The number of the unit.
    pub number: u32,
    /// The header, with the directories and files.
    pub header: LineHeader<'f>,
}

/// The path of the directory with this number; it is empty where there is none.
fn directory_at<'f>(directories: &[&'f [u8]], number: u64) -> &'f [u8]
    ensures { result.now ≡ get_or (map (λ b. b.now) directories.now) number [] }
{
    match directories.get(number as usize) {
        Some(directory) => *directory,
        None => b"",
    }
}

/// The file with this number, if there is one.
fn file_at<'f>(files: &[FileName<'f>], number: u32) -> Option<FileName<'f>>
    ensures { option_map name_view result ≡ slice_get (map name_view files.now) number }
{
    match files.get(number as usize) {
        Some(file) => Some(*file),
        None => None,
    }
}

impl<'f> UnitNames<'f> {
    /// The place of a row of the unit.
    fn place_of(&self, row: &KeptRow) -> Place<'f>
        ensures { place_view result ≡ kept_place self.now row.now }
    {
        match file_at(self.header.files(), row.file) {
            Some(file) => Place {
                unit: self.number,
                line: row.line,
                directory: directory_at(self.header.directories(), file.directory),
                name: Some(file.path),
            },
            None => Place {
                unit: self.number,
                line: row.line,
                directory: b"",
                name: None,
            },
        }
    }
}

/// The place of a row that was found, with the number of its unit among these.
pub(crate) fn found_place<'f>(
    units: &[UnitNames<'f>],
    found: Option<(usize, KeptRow)>,
) -> Option<Place<'f>>
    ensures { option_map place_view result ≡ found_place units.now found }
{
    let Some((number, row)) = found else {
        return None;
    };
    match units.get(number) {
        Some(unit) => Some(unit.place_of(&row)),
        None => None,
    }
}
