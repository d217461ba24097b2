//! The tables of directories and files (DWARF 5 section 6.2.4, items 12 to 20).

ghost use Rattle.std.specs.Prelude.{◌≡◌, [], map, IfOk};
ghost use Rattle.dw_fields.specs.Reading.{IsAddressSize};
ghost use Rattle.unit_headers.specs.Refusals.{Answers, AnswersAt};
ghost use Rattle.line_programs.specs.Shapes.{name_view};
ghost use Rattle.dw_fields.specs.Times.{times};
ghost use Rattle.line_programs.specs.Formats.{format_at};
ghost use Rattle.line_programs.specs.Tables.{formats_at, name_table_at, names_at};

use crate::formats::{Format, read_format};
use crate::front::in_header;
use crate::names::{FileName, paths_in, read_name};
use crate::path_texts::PathTexts;
use dw_fields::{Code, Cut, Fault};
use form_values::Widths;
use std::alloc::{AllocError, Global};
use unit_headers::UnitRefusal;

/// A table of directories or of files, in the order of their numbers.
#[tactic(auto, unfolding(crate::specs::Tables::name_table_at))]
pub(crate) fn read_table<'f>(
    alloc: Global,
    cut: &mut Cut<'f>,
    texts: &mut PathTexts<'f>,
    widths: Widths,
) -> Result<Vec<FileName<'f>>, UnitRefusal>
    requires { IsAddressSize widths.address_size }
    ensures table { AnswersAt (λ v. map name_view v.items) result
        (name_table_at texts.old widths) cut.old cut.new }
    ensures texts { texts.new ≡ texts.old }
{
    let formats = read_formats(alloc, cut)?;
    let formats = formats.as_slice();
    let place = cut.place();
    let count = in_header(cut.uleb())?;
    if count != 0 && formats.is_empty() {
        return Err(UnitRefusal::from(Fault::at(Code::LineForm, place)));
    }
    read_names(alloc, cut, texts, widths, formats, count)
}

/// An entry format: a count of pairs, and the pairs.
#[tactic(auto, unfolding(crate::specs::Tables::formats_at))]
fn read_formats(alloc: Global, cut: &mut Cut<'_>) -> Result<Vec<Format>, UnitRefusal>
    ensures { AnswersAt (λ v. v.items) result formats_at cut.old cut.new }
{
    let count = in_header(cut.u8())?;
    read_pairs(alloc, cut, count)
}

/// So many pairs of a format.
fn read_pairs(alloc: Global, cut: &mut Cut<'_>, count: u8) -> Result<Vec<Format>, UnitRefusal>
    ensures { AnswersAt (λ v. v.items) result (times count format_at) cut.old cut.new }
{
    let mut formats = Vec::new(alloc);
    'pairs: for _turn in 0..count {
        let format = read_format(cut)?;
        formats.push(format)?;
    }
    Ok(formats)
}

/// So many entries of these formats.
#[tactic(auto, unfolding(crate::specs::Tables::names_at))]
fn read_names<'f>(
    alloc: Global,
    cut: &mut Cut<'f>,
    texts: &mut PathTexts<'f>,
    widths: Widths,
    formats: &[Format],
    count: u64,
) -> Result<Vec<FileName<'f>>, UnitRefusal>
    requires { IsAddressSize widths.address_size }
    ensures entries { AnswersAt (λ v. map name_view v.items) result
        (names_at texts.old widths formats.now count) cut.old cut.new }
    ensures texts { texts.new ≡ texts.old }
{
    let paths = paths_in(formats);
    let mut names = Vec::new(alloc);
    'entries: for _turn in 0..count {
        let name = read_name(alloc, cut, texts, widths, formats, paths)?;
        names.push(name)?;
    }
    Ok(names)
}

/// The paths of directories.
pub(crate) fn paths<'f>(alloc: Global, names: &[FileName<'f>]) -> Result<Vec<&'f [u8]>, AllocError>
    ensures { IfOk result (λ v. map (λ b. b.now) v.items
        ≡ map (λ d. d.path) (map name_view names.entry.now)) }
{
    let mut paths = Vec::with_capacity(alloc, names.len())?;
    'names: for name in names {
        paths.push(name.path)?;
    }
    Ok(paths)
}
