//! Abbreviation declarations (DWARF 5, section 7.5.3).

ghost use Rattle.std.specs.Prelude.{◌≡◌, ◌≤◌, ◌+◌, length};
ghost use Rattle.abbrev_decl.specs.Counting.{ticked};
ghost use Rattle.abbrev_decl.specs.Pairs.{PairsWereRead, TakesPair, left_pairs, pairs_of, pairs_at};
ghost use Rattle.abbrev_decl.specs.Declarations.{EndsInside, HeadInside, Stands, StandsAs, at_head, declaration_at, head_at};

use crate::counter::Steps;
use crate::pairs::{AttrSpec, count_pairs, in_table, next_pair, read_number, skip_pairs, whole};
use dw_fields::{Code, Fault};
use std::marker::Model;

/// The front of a declaration; `pairs` is the place of its first pair.
#[derive(Clone, Copy, Debug, PartialEq, Eq)]
struct Head {
    code: u64,
    tag: u64,
    children: bool,
    pairs: u64,
}

/// An abbreviation declaration, which stays in its section: its pairs are read when they are asked
/// for, or stand in a list that was made of them.
#[derive(Drop)]
pub struct Decl<'f> {
    section: &'f [u8],
    code: u64,
    tag: u64,
    children: bool,
    place: u64,
    pairs: u64,
    list: Option<&'f [AttrSpec]>,
}

impl<'f> Model for Decl<'f> {
    ghost use Rattle.std.specs.Prelude.{◌≡◌};
    ghost use Rattle.abbrev_decl.specs.Shapes.{DeclView};
    ghost use Rattle.abbrev_decl.specs.Pairs.{PairsWereRead, left_pairs, pairs_of, pairs_at};

    ghost Value = { DeclView };

    ghost view = { λ d. record {
      code = d.code;
      tag = d.tag;
      children = d.children;
      place = d.place;
      pairs = pairs_of (pairs_at d.section.now d.pairs);
    } };

    ghost invariant = { λ d. PairsWereRead d.section.now d.pairs
        × (left_pairs d.list d.section.now d.pairs ≡ pairs_of (pairs_at d.section.now d.pairs)) };
}

impl<'f> Decl<'f> {
    /// The code by which entries name the declaration; never 0.
    pub fn code(&self) -> u64
        ensures { result ≡ self.now.code }
    {
        self.code
    }

    /// The tag of the entries.
    pub fn tag(&self) -> u64
        ensures { result ≡ self.now.tag }
    {
        self.tag
    }

    /// Whether the entries have children.
    pub fn children(&self) -> bool
        ensures { result ≡ self.now.children }
    {
        self.children
    }

    /// Where the declaration begins in `.debug_abbrev`.
    pub fn place(&self) -> u64
        ensures { result ≡ self.now.place }
    {
        self.place
    }

    /// The pairs, from the first.
    pub fn attrs(&self) -> Attrs<'f>
        ensures { result ≡ self.now.pairs }
    {
        Attrs {
            section: self.section,
            place: self.pairs,
            list: self.list,
        }
    }

    /// The same declaration once more.
    pub fn again(&self) -> Decl<'f>
        ensures { result ≡ self.now }
    {
        Decl {
            section: self.section,
            code: self.code,
            tag: self.tag,
            children: self.children,
            place: self.place,
            pairs: self.pairs,
            list: self.list,
        }
    }

    /// The same declaration with a list of its pairs, from which `attrs` takes them without reading
    /// them again.
    pub fn listed<'a>(&self, list: &'a [AttrSpec]) -> Decl<'a>
    where
        'f: 'a,
        requires { list.now ≡ self.now.pairs }
        ensures { result ≡ self.now }
    {
        Decl {
            section: self.section,
            code: self.code,
            tag: self.tag,
            children: self.children,
            place: self.place,
            pairs: self.pairs,
            list: Some(list),
        }
    }
}

/// The pairs of a declaration that are left.
#[derive(Drop)]
pub struct Attrs<'f> {
    section: &'f [u8],
    place: u64,
    list: Option<&'f [AttrSpec]>,
}

impl<'f> Model for Attrs<'f> {
    ghost use Rattle.std.specs.Prelude.{List};
    ghost use Rattle.abbrev_decl.specs.declared.pairs.AttrSpec.{AttrSpec};
    ghost use Rattle.abbrev_decl.specs.Pairs.{PairsWereRead, left_pairs};

    ghost Value = { List AttrSpec };

    ghost view = { λ a. left_pairs a.list a.section.now a.place };

    ghost invariant = { λ a. PairsWereRead a.section.now a.place };
}

impl<'f> Attrs<'f> {
    /// How many pairs are left.
    pub fn count(&self) -> usize
        ensures { result ≡ length self.now }
    {
        match self.list {
            Some(list) => list.len(),
            None => count_pairs(self.section, self.place),
        }
    }

    /// The next pair; `None` behind the last one.
    #[inline(always)]
    pub fn next(&mut self) -> Option<AttrSpec>
        ensures { TakesPair result self.old self.new }
    {
        match self.list {
            Some(list) => match list.split_first() {
                Some((pair, others)) => {
                    self.list = Some(others);
                    Some(*pair)
                }
                None => None,
            },
            None => match next_pair(self.section, self.place) {
                Some((pair, place)) => {
                    self.place = place;
                    Some(pair)
                }
                None => None,
            },
        }
    }
}

/// Reads the front of the declaration at `place`; `None` is a code 0.
#[inline(always)]
#[tactic(auto, unfolding(crate::specs::Declarations::head_at))]
fn read_head(section: &[u8], place: u64) -> Result<Option<Head>, Fault>
    requires { place ≤ length section.now }
    ensures answer { result ≡ head_at section.now place }
    ensures inside { HeadInside place (length section.now) result }
{
    let (code, behind) = read_number(section, place)?;
    if code == 0 {
        return Ok(None);
    }
    let (tag, byte) = read_number(section, behind)?;
    let mut cut = whole(section, byte);
    let children = in_table(cut.u8())?;
    if 1 < children {
        return Err(Fault::at(Code::ChildrenByte, byte));
    }
    Ok(Some(Head {
        code,
        tag,
        children: children == 1,
        pairs: cut.place(),
    }))
}

/// Reads the declaration at `place` in `.debug_abbrev` and the place behind it; `None` is the code
/// 0 that ends a table. Counts one step, whatever the answer.
///
/// # Errors
/// The first in the order of the fields.
/// - `DeclTruncated` at a field that passes the section's end.
/// - `LebTooLarge` at a LEB128 of more than 64 bits.
/// - `ChildrenByte` at a children byte above 1.
#[inline(always)]
#[tactic(auto, unfolding(crate::specs::Declarations::declaration_at))]
pub fn read_decl<'f, L>(
    section: &'f [u8],
    place: u64,
    steps: &mut Steps<L>,
) -> Result<Option<(Decl<'f>, u64)>, Fault>
    requires { place ≤ length section.now }
    ensures answer { result ≡ declaration_at section.entry.now place }
    ensures inside { EndsInside place (length section.entry.now) result }
    ensures counted { steps.new ≡ ticked steps.old }
    ensures never_less { steps.old ≤ steps.new }
{
    steps.tick();
    let Some(head) = read_head(section, place)? else {
        return Ok(None);
    };
    let next = skip_pairs(section, head.pairs)?;
    Ok(Some((at_head(section, place, head), next)))
}

/// The declaration that begins with a front.
#[inline(always)]
fn at_head<'f>(section: &'f [u8], place: u64, head: Head) -> Decl<'f>
    requires { PairsWereRead section.now head.pairs }
    ensures { result ≡ at_head place head (pairs_of (pairs_at section.entry.now head.pairs)) }
{
    Decl {
        section,
        code: head.code,
        tag: head.tag,
        children: head.children,
        place,
        pairs: head.pairs,
        list: None,
    }
}

/// The declaration that is known to stand at `place`. Counts no step.
#[tactic(auto, unfolding(crate::specs::Declarations::declaration_at))]
pub fn decl_at<'f>(section: &'f [u8], place: u64) -> Decl<'f>
    requires inside { place ≤ length section.now }
    requires stands { Stands (declaration_at section.now place) }
    ensures { StandsAs result (declaration_at section.entry.now place) }
{
    match read_head(section, place) {
        Ok(Some(head)) => at_head(section, place, head),
        _ => unreachable!(),
    }
}
