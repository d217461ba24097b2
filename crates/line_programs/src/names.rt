//! The entries of directories and files by their formats (DWARF 5 section 6.2.4.1).

ghost use Rattle.std.specs.Prelude.{◌≡◌, ◌+◌, ◌-◌, ◌≤◌};
ghost use Rattle.dw_fields.specs.Reading.{IsAddressSize};
ghost use Rattle.form_values.specs.View.{raw_view};
ghost use Rattle.unit_headers.specs.Refusals.{Answers, AnswersAt};
ghost use Rattle.line_programs.specs.Shapes.{name_view};
ghost use Rattle.line_programs.specs.Names.{field_at, index_of, name_at, paths_in, set_field, weight};

use crate::formats::{DIRECTORY_INDEX, Format, PATH};
use crate::front::in_header;
use crate::path_texts::PathTexts;
use dw_fields::Cut;
use form_values::{Raw, Widths, read_form};
use std::alloc::Global;
use unit_headers::UnitRefusal;

/// A file of a line program's header. `directory` is the number of its directory.
#[derive(Clone, Copy, Debug)]
pub struct FileName<'f> {
    /// The path, as it stands in the header or in the section of texts that the header names.
    pub path: &'f [u8],
    /// The number of the directory that the path is relative to.
    pub directory: u64,
}

/// The number of a directory index.
#[tactic(auto, unfolding(crate::specs::Names::index_of))]
fn index_of(value: &Raw<'_>) -> u64
    ensures { result ≡ index_of (raw_view value.now) }
{
    match *value {
        Raw::Unsigned(number) => number,
        _ => 0,
    }
}

/// Sets what a value says of its entry; `left` counts the paths that are left, this one included.
/// Only the last path counts, and those before it aren't resolved.
///
/// # Errors
/// `NoSection`, `TextOutside` and `TextUnended` at the value of a path that stands in another
/// section, or want of memory.
#[tactic(auto, unfolding(crate::specs::Names::set_field))]
fn set_field<'f>(
    alloc: Global,
    texts: &mut PathTexts<'f>,
    content: u64,
    left: u64,
    place: u64,
    value: &Raw<'f>,
    name: FileName<'f>,
) -> Result<FileName<'f>, UnitRefusal>
    ensures entry { Answers name_view result
        (set_field texts.old content left place (raw_view value.entry.now) (name_view name.entry)) }
    ensures texts { texts.new ≡ texts.old }
{
    match content {
        PATH => {
            if left != 1 {
                return Ok(name);
            }
            let path = texts.path(alloc, value, place)?;
            Ok(FileName {
                path,
                directory: name.directory,
            })
        }
        DIRECTORY_INDEX => Ok(FileName {
            path: name.path,
            directory: index_of(value),
        }),
        _ => Ok(name),
    }
}

/// Reads one value by its format.
#[tactic(auto, unfolding(crate::specs::Names::field_at))]
fn read_field<'f>(
    alloc: Global,
    cut: &mut Cut<'f>,
    texts: &mut PathTexts<'f>,
    widths: Widths,
    left: u64,
    format: Format,
    name: FileName<'f>,
) -> Result<FileName<'f>, UnitRefusal>
    requires { IsAddressSize widths.address_size }
    ensures entry { AnswersAt name_view result
        (field_at texts.old widths left format (name_view name.entry)) cut.old cut.new }
    ensures texts { texts.new ≡ texts.old }
{
    let place = cut.place();
    let value = in_header(read_form(cut, format.form, widths, 0))?;
    set_field(alloc, texts, format.content, left, place, &value, name)
}

/// 1 for a path, 0 for any other content type.
fn weight(content: u64) -> u64
    ensures { result ≡ weight content }
{
    if content == PATH { 1 } else { 0 }
}

/// How many of the formats are paths.
pub(crate) fn paths_in(formats: &[Format]) -> u64
    ensures { result ≡ paths_in formats.now }
{
    let mut count = 0;
    for format in formats {
        count += weight(format.content);
    }
    count
}

/// Reads one entry: its values in the order of its formats.
#[tactic(auto, unfolding(crate::specs::Names::name_at))]
pub(crate) fn read_name<'f>(
    alloc: Global,
    cut: &mut Cut<'f>,
    texts: &mut PathTexts<'f>,
    widths: Widths,
    formats: &[Format],
    paths: u64,
) -> Result<FileName<'f>, UnitRefusal>
    requires size { IsAddressSize widths.address_size }
    requires counted { paths ≡ paths_in formats.now }
    ensures entry { AnswersAt name_view result
        (name_at texts.old widths formats.now) cut.old cut.new }
    ensures texts { texts.new ≡ texts.old }
{
    let mut left = paths;
    let mut name = FileName {
        path: b"",
        directory: 0,
    };
    for format in formats {
        name = read_field(alloc, cut, texts, widths, left, *format, name)?;
        left = left.saturating_sub(weight(format.content));
    }
    Ok(name)
}
