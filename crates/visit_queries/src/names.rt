//! The names of entries (DWARF 5 section 2.15).

ghost use Rattle.std.specs.Prelude.{◌≡◌, option_map};
ghost use Rattle.std.specs.Result.{result_map_both};
ghost use Rattle.elf_sections.specs.Shapes.{sections_view};
ghost use Rattle.entry_tree.specs.Views.{attr_view};
ghost use Rattle.visit_queries.specs.NamedEntries.{named_head};
ghost use Rattle.visit_queries.specs.Shown.{name_in, shown_entry};

use crate::visitor::EntryView;
use dw_fields::Fault;
use elf_sections::Sections;
use entry_tree::{Attr, EntryHead};
use form_values::{Bases, Raw, resolve_text};
use unit_headers::UnitHeader;

/// A unit, and what the names of its entries hang on.
#[derive(Clone, Copy, Debug)]
pub(crate) struct NamedUnit<'f> {
    /// The number of the unit.
    pub number: u32,
    /// Its header.
    pub header: UnitHeader,
    /// The sections that it is of.
    pub sections: Sections<'f>,
    /// Where its tables begin.
    pub bases: Bases,
}

impl<'f> NamedUnit<'f> {
    /// The text of an attribute, if its value is one; refused at the attribute's place.
    #[inline(always)]
    #[tactic(auto, unfolding(crate::specs::Shown::name_in))]
    fn name_in(&self, attr: Option<Attr<'f>>) -> Result<Option<&'f [u8]>, Fault>
        ensures { result_map_both (option_map (λ name. name.now)) (λ f. f) result
            ≡ name_in (sections_view self.entry.now.sections) self.entry.now.header
            self.entry.now.bases (option_map attr_view attr.entry) }
    {
        let Some(attr) = attr else {
            return Ok(None);
        };
        match attr.raw {
            Raw::Text(_) | Raw::TextOffset(_) | Raw::LineTextOffset(_) | Raw::TextIndex(_) => {
                match resolve_text(&attr.raw, &self.header, &self.sections, &self.bases) {
                    Ok(text) => Ok(Some(text)),
                    Err(code) => Err(Fault::at(code, attr.place)),
                }
            }
            _ => Ok(None),
        }
    }

    /// An entry of this unit with its name, which is that of the attribute.
    #[inline(always)]
    #[tactic(auto, unfolding(crate::specs::NamedEntries::named_head))]
    pub(crate) fn name_entry(
        &self,
        head: EntryHead,
        name: Option<Attr<'f>>,
    ) -> Result<EntryView<'f>, Fault>
        ensures { result_map_both shown_entry (λ f. f) result
            ≡ named_head self.entry.now head (option_map attr_view name.entry) }
    {
        let name = self.name_in(name)?;
        Ok(EntryView {
            unit: self.number,
            place: head.place,
            depth: head.depth,
            tag: head.tag,
            name,
        })
    }
}
