//! Entries of a unit that get their names as they are read.

ghost use Rattle.std.specs.Prelude.{◌≡◌, ◌==◌, ◌++◌, ◌∷◌, [], map, option_map, unwrap_or, Ok, OnOk};
ghost use Rattle.std.specs.Option.{option_or};
ghost use Rattle.std.specs.List.{find};
ghost use Rattle.dw_numbers.specs.declared.attribute.TheConstants.{NAME};
ghost use Rattle.entry_tree.specs.Views.{AttrView, attr_view};
ghost use Rattle.unit_headers.specs.Refusals.{Answers};
ghost use Rattle.visit_queries.specs.NamedEntries.{shown_so_far};
ghost use Rattle.visit_queries.specs.Shown.{shown_entry};

use crate::names::NamedUnit;
use crate::visitor::EntryView;
use dw_fields::Fault;
use dw_numbers::attribute;
use entry_tree::{Attr, EntryHead, EntrySink};
use std::alloc::AllocError;
use unit_headers::UnitRefusal;

/// The entries of a unit so far, as a visitor is shown them, and the first refusal of a name among them. An
/// entry that was begun has the attribute that names it, if that was given.
#[derive(Drop)]
pub(crate) struct NamedEntries<'f> {
    unit: NamedUnit<'f>,
    views: Vec<EntryView<'f>>,
    refused: Option<Fault>,
    head: EntryHead,
    name: Option<Attr<'f>>,
}

/// Puts an entry at the list's end.
#[inline(always)]
fn add_view<'f>(views: &mut Vec<EntryView<'f>>, view: EntryView<'f>) -> Result<(), AllocError>
    ensures { OnOk result (map shown_entry views.new.items
        ≡ map shown_entry views.old.items ++ shown_entry view.entry ∷ []) }
{
    match views.push(view) {
        Ok(()) => Ok(()),
        Err(_) => Err(AllocError),
    }
}

/// The attribute that was kept, or this one, if it names its entry.
#[inline(always)]
fn first_name<'f>(kept: Option<Attr<'f>>, attr: Attr<'f>) -> Option<Attr<'f>>
    ensures { option_map attr_view result ≡ option_or (option_map attr_view kept.entry)
        (find (λ (a : AttrView). a.name == NAME) (attr_view attr.entry ∷ [])) }
{
    match kept {
        Some(kept) => Some(kept),
        None => {
            if attr.name == attribute::NAME {
                Some(attr)
            } else {
                None
            }
        }
    }
}

/// The first of two refusals.
fn first_refusal(kept: Option<Fault>, fault: Fault) -> Fault
    ensures { result ≡ unwrap_or kept fault }
{
    match kept {
        Some(kept) => kept,
        None => fault,
    }
}

impl<'f> NamedEntries<'f> {
    /// No entry of this unit so far. The list's room is used again.
    pub(crate) fn new(unit: NamedUnit<'f>, mut views: Vec<EntryView<'f>>) -> NamedEntries<'f>
        ensures unit { result.unit ≡ unit.entry }
        ensures none { shown_so_far result ≡ Ok [] }
    {
        views.clear();
        NamedEntries {
            unit,
            views,
            refused: None,
            head: EntryHead {
                place: 0,
                depth: 0,
                code: 0,
                tag: 0,
            },
            name: None,
        }
    }

    /// The entries; refused where a name is.
    pub(crate) fn finish(self) -> Result<Vec<EntryView<'f>>, UnitRefusal>
        ensures { Answers (λ views. map shown_entry views.items) result (shown_so_far self.entry) }
    {
        match self.refused {
            Some(fault) => Err(UnitRefusal::Refused(fault)),
            None => Ok(self.views),
        }
    }
}

impl<'f> EntrySink<'f> for NamedEntries<'f> {
    ghost use Rattle.visit_queries.specs.NamedEntries.{BeganNamed, TookNamed};
    ghost use Rattle.visit_queries.specs.NamedLaws.{nothing_taken, taken_together};

    ghost took = { λ x y entries. TookNamed x y entries };

    ghost began = { λ x y entry. BeganNamed x y entry };

    #[inline(always)]
    fn begin(&mut self, head: EntryHead, _room: usize) -> Result<(), AllocError> {
        self.head = head;
        self.name = None;
        Ok(())
    }

    #[inline(always)]
    fn add(&mut self, attr: Attr<'f>) -> Result<(), AllocError> {
        self.name = first_name(self.name, attr);
        Ok(())
    }

    #[inline(always)]
    fn end(&mut self) -> Result<(), AllocError> {
        match self.unit.name_entry(self.head, self.name) {
            Ok(view) => add_view(&mut self.views, view),
            Err(fault) => {
                self.refused = Some(first_refusal(self.refused, fault));
                Ok(())
            }
        }
    }

    ghost nothing = { λ x. nothing_taken x };

    ghost together = { λ x y z es fs p q. taken_together x y z es fs p q };
}
