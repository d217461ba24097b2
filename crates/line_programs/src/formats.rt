//! Entry formats: what the directories and files of a header say, and in which forms (DWARF 5 section
//! 6.2.4, items 11 to 18, and section 6.2.4.1).

ghost use Rattle.std.specs.Prelude.{◌≡◌};
ghost use Rattle.dw_fields.specs.Reading.{Reads};
ghost use Rattle.line_programs.specs.Formats.{format_at, is_accepted, is_index_form, is_path_form, is_profile_form};

use crate::front::in_header;
use dw_fields::{Code, Cut, Fault};
use form_values::form;

/// `DW_LNCT_path`: the content type of a path.
pub(crate) const PATH: u64 = 1;
/// `DW_LNCT_directory_index`: the content type of a directory's number.
pub(crate) const DIRECTORY_INDEX: u64 = 2;

/// One pair of an entry format: a content type and the form of its value.
#[derive(Clone, Copy, Debug, PartialEq, Eq)]
pub struct Format {
    /// The content type (DWARF 5 table 7.27): 1 is a path, 2 the number of a directory.
    pub content: u64,
    /// The form of the value.
    pub form: u64,
}

#[tactic(auto, unfolding(crate::specs::Formats::is_path_form))]
fn is_path_form(form: u64) -> bool
    ensures { result ≡ is_path_form form }
{
    form == form::STRING || form == form::STRP || form == form::LINE_STRP
}

#[tactic(auto, unfolding(crate::specs::Formats::is_index_form))]
fn is_index_form(form: u64) -> bool
    ensures { result ≡ is_index_form form }
{
    form == form::DATA1
        || form == form::DATA2
        || form == form::DATA4
        || form == form::DATA8
        || form == form::UDATA
}

/// Every form of the standard whose value takes at least a byte and stands where its form says.
#[tactic(auto, unfolding(crate::specs::Formats::is_profile_form))]
fn is_profile_form(form: u64) -> bool
    ensures { result ≡ is_profile_form form }
{
    0 < form
        && form < 0x2d
        && form != 0x02
        && form != form::INDIRECT
        && form != form::FLAG_PRESENT
        && form != form::IMPLICIT_CONST
}

#[tactic(auto, unfolding(crate::specs::Formats::is_accepted))]
fn is_accepted(content: u64, form: u64) -> bool
    ensures { result ≡ is_accepted content form }
{
    match content {
        PATH => is_path_form(form),
        DIRECTORY_INDEX => is_index_form(form),
        _ => is_profile_form(form),
    }
}

/// A pair, judged as it is read: `LineForm` at a form that its content type can't have.
#[tactic(auto, unfolding(crate::specs::Formats::format_at))]
pub(crate) fn read_format(cut: &mut Cut<'_>) -> Result<Format, Fault>
    ensures { Reads (λ f. f) result format_at cut.old cut.new }
{
    let content = in_header(cut.uleb())?;
    let place = cut.place();
    let form = in_header(cut.uleb())?;
    if !is_accepted(content, form) {
        return Err(Fault::at(Code::LineForm, place));
    }
    Ok(Format { content, form })
}
