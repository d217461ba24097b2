//! The places of addresses.

ghost use Rattle.std.specs.Prelude.{◌≡◌, ◌∷◌, [], ◌++◌, IfOk, OnOk, length, option_map};
ghost use Rattle.elf_sections.specs.Shapes.{AreShort, sections_view};
ghost use Rattle.address_lookup.specs.Places.{place_view};
ghost use Rattle.dwtool_c.specs.Answers.{EndsBoth, IsTold};
ghost use Rattle.dwtool_c.specs.Places.{AreTold, found_of, name_bytes, names_of, place_names_answer, place_row, place_rows_answer, places_of};

use crate::answers::{Told, hand_nothing, hand_told};
use crate::refusal::{DwtoolRefusal, file_refusal};
use crate::units::read_index;
use abbrev_decl::{Scanner, Steps};
use address_lookup::{AddressIndex, Place};
use elf_sections::{Elf, OpenRefusal, Sections};
use std::alloc::{AllocError, Global};

/// The address has no place.
pub const NO_PLACE: u32 = 0;
/// The address has a place in a file that the line table has no name of.
pub const NO_NAME: u32 = 1;
/// The address has a place in a file with a name.
pub const NAMED: u32 = 2;

/// The place of an address (DWARF 5 section 6.2). Its directory and then its name stand in the bytes
/// of names, from `start` on, as the line table has them.
#[repr(C)]
#[derive(Clone, Copy, Debug, PartialEq, Eq)]
pub struct DwtoolPlace {
    /// The line in the file; modulo `2^64`; 0 where there is no place.
    pub line: u64,
    /// Where the directory begins in the bytes of names.
    pub start: u64,
    /// The bytes of the directory.
    pub directory_size: u64,
    /// The bytes of the name, behind the directory.
    pub name_size: u64,
    /// The number of the unit whose line table has the address, from 0.
    pub unit: u32,
    /// Whether there is a place, and a name: `NO_PLACE`, `NO_NAME` or `NAMED`.
    pub found: u32,
}

/// The rows of places, and their names one behind the other.
#[derive(Drop)]
struct Places {
    rows: Vec<DwtoolPlace>,
    names: Vec<u8>,
}

/// The bytes of a place's name.
fn name_bytes<'f>(name: Option<&'f [u8]>) -> &'f [u8]
    ensures { result.now ≡ name_bytes (option_map (λ b. b.now) name.entry) }
{
    match name {
        Some(name) => name,
        None => b"",
    }
}

/// Whether there is a name.
fn found_of(name: Option<&[u8]>) -> u32
    ensures { result ≡ found_of (option_map (λ b. b.now) name.entry) }
{
    match name {
        Some(_) => NAMED,
        None => NO_NAME,
    }
}

/// The row of a place whose names begin at `start`.
fn place_row(start: u64, place: Option<Place<'_>>) -> DwtoolPlace
    ensures { result ≡ place_row start (option_map place_view place.entry) }
{
    match place {
        Some(place) => DwtoolPlace {
            line: place.line,
            start,
            directory_size: place.directory.len() as u64,
            name_size: name_bytes(place.name).len() as u64,
            unit: place.unit,
            found: found_of(place.name),
        },
        None => DwtoolPlace {
            line: 0,
            start,
            directory_size: 0,
            name_size: 0,
            unit: 0,
            found: NO_PLACE,
        },
    }
}

/// Appends the directory and the name of a place.
fn push_names(names: &mut Vec<u8>, place: Option<Place<'_>>) -> Result<(), AllocError>
    ensures { OnOk result (names.new.items
        ≡ names.old.items ++ names_of (option_map place_view place.entry)) }
{
    match place {
        Some(place) => {
            names.extend_from_slice(place.directory)?;
            names.extend_from_slice(name_bytes(place.name))?;
            Ok(())
        }
        None => Ok(()),
    }
}

/// Puts the row and the names of a place behind the others.
fn push_place(places: &mut Places, place: Option<Place<'_>>) -> Result<(), AllocError>
    ensures rows { OnOk result (places.new.rows.items ≡ places.old.rows.items
        ++ place_row (length places.old.names.items) (option_map place_view place.entry) ∷ []) }
    ensures names { OnOk result (places.new.names.items ≡ places.old.names.items
        ++ names_of (option_map place_view place.entry)) }
{
    let row = place_row(places.names.len() as u64, place);
    match places.rows.push(row) {
        Ok(()) => push_names(&mut places.names, place),
        Err(_) => Err(AllocError),
    }
}

/// The rows and the names of the places of these addresses.
fn find_places(
    alloc: Global,
    index: &AddressIndex<'_>,
    addresses: &[u64],
) -> Result<Places, AllocError>
    ensures { IfOk result (λ p. AreTold (places_of index.now addresses.now)
        p.rows.items p.names.items) }
{
    let mut places = Places {
        rows: Vec::new(alloc),
        names: Vec::new(alloc),
    };
    for address in addresses {
        push_place(&mut places, index.place_of(*address))?;
    }
    Ok(places)
}

/// The same, in some sections.
fn read_places(
    alloc: Global,
    sections: &Sections<'_>,
    addresses: &[u64],
) -> Result<Places, AllocError>
    requires { AreShort (sections_view sections.now) }
    ensures { IfOk result (λ p. AreTold (places_of (sections_view sections.now) addresses.now)
        p.rows.items p.names.items) }
{
    let units = read_index(alloc, sections)?;
    let mut scanner = Scanner::new(sections.abbrev);
    let mut steps = Steps::start(());
    let index = AddressIndex::build(alloc, sections, &units, &mut scanner, &mut steps)?;
    find_places(alloc, &index, addresses)
}

/// What is told of places.
#[derive(Drop)]
struct ToldPlaces {
    rows: Told<DwtoolPlace>,
    names: Told<u8>,
}

/// The rows and names of the places of addresses in a file's bytes, or the file's refusal.
#[tactic(auto, unfolding(crate::specs::Places::place_rows_answer, crate::specs::Places::place_names_answer))]
fn tell_places(alloc: Global, file: &[u8], addresses: &[u64]) -> Result<ToldPlaces, AllocError>
    ensures rows { IfOk result (λ t. IsTold (place_rows_answer addresses.now file.now)
        t.rows.status t.rows.items.items t.rows.refusal) }
    ensures names { IfOk result (λ t. IsTold (place_names_answer addresses.now file.now)
        t.names.status t.names.items.items t.names.refusal) }
{
    match Elf::read(alloc, file) {
        Ok(elf) => {
            let places = read_places(alloc, &elf.debug_sections(), addresses)?;
            Ok(ToldPlaces {
                rows: Told::done(places.rows),
                names: Told::done(places.names),
            })
        }
        Err(OpenRefusal::Refused(refusal)) => {
            let refusal = file_refusal(&refusal);
            Ok(ToldPlaces {
                rows: Told::refused(alloc, refusal),
                names: Told::refused(alloc, refusal),
            })
        }
        Err(OpenRefusal::OutOfMemory) => Err(AllocError),
    }
}

/// The places of addresses: a row for each, in their order, and the directories and names of all one
/// behind the other. `places` gets the front of the rows that fits, `count` is how many there are;
/// `names` gets the front of the bytes that fits, `size` is how many there are. One index of the
/// whole file is made for all addresses.
///
/// The place of an address is that of the first pair of neighbouring rows, in the order of units and
/// rows, that covers it. A unit whose header, first entry or line program is refused has no rows.
///
/// # Errors
/// Answers `DONE`; `REFUSED` where the section table is refused, and then nothing is told; or
/// `NO_MEMORY`, and then both buffers are as they were, and `count` and `size` are 0.
#[unsafe(no_mangle)]
pub extern "C" fn dwtool_places(
    alloc: Global,
    file: &[u8],
    addresses: &[u64],
    places: &mut [DwtoolPlace],
    count: &mut usize,
    names: &mut [u8],
    size: &mut usize,
    refusal: &mut DwtoolRefusal,
) -> u8
    ensures { EndsBoth (place_rows_answer addresses.now file.now)
        (place_names_answer addresses.now file.now) result
        places.old places.new count.new names.old names.new size.new refusal.new }
{
    match tell_places(alloc, file, addresses) {
        Ok(told) => {
            hand_told(&told.names, names, size, refusal);
            hand_told(&told.rows, places, count, refusal)
        }
        Err(_) => {
            hand_nothing(names, size, refusal);
            hand_nothing(places, count, refusal)
        }
    }
}
