//! The texts that paths name in `.debug_str` and `.debug_line_str` (DWARF 5 section 6.2.4.1).

ghost use Rattle.std.specs.Prelude.{◌≡◌, ◌<◌, ◌≤◌, length, option_map, IfOk};
ghost use Rattle.elf_sections.specs.Shapes.{sections_view};
ghost use Rattle.form_values.specs.Resolved.{refused_at, text_from, text_in};
ghost use Rattle.form_values.specs.View.{raw_view};
ghost use Rattle.string_tables.specs.StringTables.{text_in_table};
ghost use Rattle.unit_headers.specs.Refusals.{Answers};
ghost use Rattle.line_programs.specs.Names.{path_of};

use dw_fields::{Code, Fault, Order};
use elf_sections::Sections;
use form_values::Raw;
use std::alloc::{AllocError, Global};
use std::marker::Model;
use string_tables::{StringTable, first_zero};
use unit_headers::UnitRefusal;

/// A section of texts, and what was learned of where they end.
///
/// Texts are found by walks until these took as many bytes as the section has. Then a table of the
/// ends is made, by one more walk over the section, and asked from there on. So few paths cost no
/// table, and many paths to one long text no square of its length.
#[derive(Drop)]
struct TextFinder<'f> {
    bytes: &'f [u8],
    /// How many bytes walks may still take.
    budget: usize,
    table: Option<StringTable<'f>>,
}

impl<'f> Model for TextFinder<'f> {
    ghost use Rattle.std.specs.Prelude.{◌≡◌, List, ℕ, IfSome};

    ghost Value = { List ℕ };

    ghost view = { λ t. t.bytes.now };

    ghost invariant = { λ t. IfSome t.table (λ table. table ≡ t.bytes.now) };
}

impl<'f> TextFinder<'f> {
    fn new(bytes: &'f [u8]) -> TextFinder<'f>
        ensures { result ≡ bytes.entry.now }
    {
        TextFinder {
            bytes,
            budget: bytes.len(),
            table: None,
        }
    }

    /// The text that begins at a place, without the zero byte that ends it: none at or past the
    /// section's end, or where no zero byte follows.
    fn text_at(&mut self, alloc: Global, place: usize) -> Result<Option<&'f [u8]>, AllocError>
        ensures text { IfOk result (λ t. option_map (λ b. b.now) t ≡ text_in_table self.old place) }
        ensures same { self.new ≡ self.old }
    {
        match &self.table {
            Some(table) => Ok(table.text_at(place)),
            None => self.walk_from(alloc, place),
        }
    }

    /// The same by a walk, or by the table that is made where the walk is too long.
    #[tactic(auto, using(crate::proofs::Fronts::front_missed), unfolding(string_tables::specs::StringTables::text_in_table, string_tables::specs::StringTables::before_zero))]
    fn walk_from(&mut self, alloc: Global, place: usize) -> Result<Option<&'f [u8]>, AllocError>
        ensures text { IfOk result (λ t. option_map (λ b. b.now) t ≡ text_in_table self.old place) }
        ensures same { self.new ≡ self.old }
    {
        let bytes = self.bytes;
        if place >= bytes.len() {
            return Ok(None);
        }
        let rest = &bytes[place..];
        let near = self.budget.min(rest.len());
        match first_zero(&rest[..near]) {
            Some(count) => {
                self.budget -= count + 1;
                Ok(Some(&rest[..count]))
            }
            None if near == rest.len() => {
                self.budget -= near;
                Ok(None)
            }
            None => {
                let table = StringTable::new(alloc, bytes)?;
                let text = table.text_at(place);
                self.table = Some(table);
                Ok(text)
            }
        }
    }

    /// The text at an offset, for a path whose value stands at `place`.
    ///
    /// # Errors
    /// At the value: `TextOutside` where the offset is at or past the section's end, `TextUnended`
    /// where no zero byte follows. Or want of memory.
    #[tactic(auto, unfolding(form_values::specs::Resolved::text_from, string_tables::specs::StringTables::text_in_table, string_tables::specs::StringTables::before_zero))]
    fn text_from(&mut self, alloc: Global, offset: u64, place: u64) -> Result<&'f [u8], UnitRefusal>
        ensures text { Answers (λ b. b.now) result (refused_at place (text_from self.old offset)) }
        ensures same { self.new ≡ self.old }
    {
        if offset >= self.bytes.len() as u64 {
            return Err(UnitRefusal::from(Fault::at(Code::TextOutside, place)));
        }
        match self.text_at(alloc, offset as usize)? {
            Some(text) => Ok(text),
            None => Err(UnitRefusal::from(Fault::at(Code::TextUnended, place))),
        }
    }
}

/// The finder of a section that may be absent.
fn finder_of<'f>(section: Option<&'f [u8]>) -> Option<TextFinder<'f>>
    ensures { result ≡ option_map (λ b. b.now) section.entry }
{
    match section {
        Some(bytes) => Some(TextFinder::new(bytes)),
        None => None,
    }
}

/// The text at an offset of a section that may be absent, for a path whose value stands at `place`.
#[tactic(auto, unfolding(form_values::specs::Resolved::text_in))]
fn text_in<'f>(
    finder: &mut Option<TextFinder<'f>>,
    alloc: Global,
    offset: u64,
    place: u64,
) -> Result<&'f [u8], UnitRefusal>
    ensures text { Answers (λ b. b.now) result (refused_at place (text_in finder.old offset)) }
    ensures same { finder.new ≡ finder.old }
{
    match finder {
        Some(finder) => finder.text_from(alloc, offset, place),
        None => Err(UnitRefusal::from(Fault::at(Code::NoSection, place))),
    }
}

/// The sections of a file, with a finder of the texts that paths name.
///
/// It is handed from header to header, so that a run over all line programs of a file goes over
/// each section of texts twice at most, and beyond that over no more than 128 bytes for each path.
#[derive(Drop)]
pub struct PathTexts<'f> {
    sections: Sections<'f>,
    text: Option<TextFinder<'f>>,
    line_text: Option<TextFinder<'f>>,
}

impl<'f> Model for PathTexts<'f> {
    ghost use Rattle.std.specs.Prelude.{◌≡◌};
    ghost use Rattle.elf_sections.specs.Shapes.{SectionsView, sections_view};

    ghost Value = { SectionsView };

    ghost view = { λ p. sections_view p.sections };

    ghost invariant = { λ p. (p.text ≡ (sections_view p.sections).text)
        × (p.line_text ≡ (sections_view p.sections).line_text) };
}

impl<'f> PathTexts<'f> {
    /// A finder that has gone over nothing yet.
    pub fn new(sections: &Sections<'f>) -> PathTexts<'f>
        ensures { result ≡ sections_view sections.entry.now }
    {
        PathTexts {
            sections: *sections,
            text: finder_of(sections.text),
            line_text: finder_of(sections.line_text),
        }
    }

    /// The byte order of the file.
    pub(crate) fn order(&self) -> Order
        ensures { result ≡ self.now.order }
    {
        self.sections.order
    }

    /// `.debug_line`.
    pub(crate) fn line_section(&self) -> Option<&'f [u8]>
        ensures { option_map (λ b. b.now) result ≡ self.now.line }
    {
        self.sections.line
    }

    /// The text of a path whose value stands at `place`.
    ///
    /// # Errors
    /// At the value, where it stands in another section: `NoSection` where that is absent,
    /// `TextOutside` where the offset is at or past its end, `TextUnended` where no zero byte follows.
    /// Or want of memory.
    #[tactic(auto, unfolding(crate::specs::Names::path_of))]
    pub(crate) fn path(
        &mut self,
        alloc: Global,
        value: &Raw<'f>,
        place: u64,
    ) -> Result<&'f [u8], UnitRefusal>
        ensures path { Answers (λ b. b.now) result
            (refused_at place (path_of self.old (raw_view value.entry.now))) }
        ensures same { self.new ≡ self.old }
    {
        match *value {
            Raw::Text(text) => Ok(text),
            Raw::TextOffset(offset) => text_in(&mut self.text, alloc, offset, place),
            Raw::LineTextOffset(offset) => text_in(&mut self.line_text, alloc, offset, place),
            _ => Ok(b""),
        }
    }
}
