//! The line of an address: docs/FORMATS.md, 'Texts'.

ghost use Rattle.std.specs.Prelude.{◌≡◌, map, option_map};
ghost use Rattle.dw_text.specs.Added.{Adds};
ghost use Rattle.address_lookup.specs.Places.{place_view};
ghost use Rattle.dw_run.specs.AddressLines.{address_line, path_text, place_line, place_path, stands_alone};

use address_lookup::Place;
use dw_text::{push_decimal_after, push_escaped, push_escaped_after, push_text};
use std::alloc::AllocError;

/// Whether the name of a file stands alone: it begins with `/`, or the directory is empty.
fn stands_alone(directory: &[u8], name: &[u8]) -> bool
    ensures { result ≡ stands_alone directory.now name.now }
{
    let [_, ..] = directory else {
        return true;
    };
    let [first, ..] = name else {
        return false;
    };
    *first == b'/'
}

/// Appends the path of a file in a directory.
#[tactic(auto, unfolding(crate::specs::AddressLines::path_text))]
fn push_path(out: &mut Vec<u8>, directory: &[u8], name: &[u8]) -> Result<(), AllocError>
    ensures { Adds result out.old.items out.new.items (path_text directory.now name.now) }
{
    if stands_alone(directory, name) {
        return push_escaped(out, name);
    }
    push_escaped(out, directory)?;
    push_escaped_after(out, b"/", name)?;
    Ok(())
}

/// Appends the path of a place, or what stands where the line table has no such file.
#[tactic(auto, unfolding(crate::specs::AddressLines::place_path))]
fn push_place_path(out: &mut Vec<u8>, place: &Place<'_>) -> Result<(), AllocError>
    ensures { Adds result out.old.items out.new.items (place_path (place_view place.now)) }
{
    match place.name {
        Some(name) => push_path(out, place.directory, name),
        None => push_text(out, b"??"),
    }
}

/// Appends the line of a place.
#[tactic(auto, unfolding(crate::specs::AddressLines::place_line))]
fn push_place_line(out: &mut Vec<u8>, place: &Place<'_>) -> Result<(), AllocError>
    ensures { Adds result out.old.items out.new.items (place_line (place_view place.now)) }
{
    push_place_path(out, place)?;
    push_decimal_after(out, b":", place.line)?;
    push_text(out, b"\n")?;
    Ok(())
}

/// Appends the line of an address that has this place, or none.
pub(crate) fn push_address_line(
    out: &mut Vec<u8>,
    place: Option<Place<'_>>,
) -> Result<(), AllocError>
    ensures { Adds result out.old.items out.new.items
        (address_line (option_map place_view place.entry)) }
{
    match &place {
        Some(place) => push_place_line(out, place),
        None => push_text(out, b"??:0\n"),
    }
}
