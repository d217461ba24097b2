//! The first declaration of a code.

ghost use Rattle.std.specs.Prelude.{◌≡◌, ℕ, List, [], Bool, true, ◌<◌, ◌≤◌, ◌^◌, length, refl, Contains, IfOk, OnOk};
ghost use Rattle.abbrev_decl.specs.Counting.{ticked_by};
ghost use Rattle.abbrev_decl.specs.Lookup.{IsFirst, IsSmallFound, LeavesSource, Notes, PlacesAtMost, declarations_walked, first_declaration, key, left_alone};
ghost use Rattle.abbrev_decl.specs.Declarations.{StandsInside};

use crate::counter::Steps;
use crate::declarations::{Decl, read_decl};
use dw_fields::Fault;
use std::marker::Model;

/// Why a code has no declaration.
#[derive(Clone, Copy, Debug, PartialEq, Eq)]
pub enum FindFault {
    /// The table ends without it.
    CodeMissing,
    /// A declaration before it can't be read; the fault is that of `read_decl`.
    Broken(Fault),
}

/// Gives the first declaration of a code.
///
/// Its meanings: `section` is the bytes of `.debug_abbrev`; `seen` is a list of keys; `placed` is
/// the list of the keys that it put there itself; `spent` says that it has no room for more;
/// `follows` is what stays between two of its states; `counts` is what it may make of a counter of
/// work, from a state, when it is asked for a code of a table. The key of a declaration is
/// `table * 2^32 + code`.
///
/// Whoever asks one several times needs `follows` alone: the laws say that it chains, and that from
/// it the section is kept, what was seen stays seen, and what was spent stays spent.
pub trait Decls<'f> {
    ghost section: { Self → List ℕ };

    ghost seen: { Self → List ℕ };

    ghost placed: { Self → List ℕ };

    ghost spent: { Self → Bool };

    ghost follows: { Self → Self → Type 0 };

    ghost counts: { Self → ℕ → ℕ → ℕ → ℕ → Type 0 };

    /// The first declaration with this code, walking from `table`, a place in `.debug_abbrev`.
    ///
    /// # Errors
    /// `CodeMissing` where the walk ends at a code 0 without it, and `Broken` where it ends at a
    /// declaration that can't be read.
    fn find<L>(
        &mut self,
        table: u32,
        code: u64,
        steps: &mut Steps<L>,
    ) -> Result<Decl<'f>, FindFault>
        requires inside { table ≤ length (section self.old) }
        requires some { 0 < code }
        ensures answer { result ≡ first_declaration (section self.old) table code }
        ensures follows { follows self.old self.new }
        ensures counted { counts self.old table code steps.old steps.new }
        ensures never_less { steps.old ≤ steps.new }
        ensures known { code < 2 ^ 32 → Contains (seen self.old) (key table code)
            → steps.new ≡ steps.old }
        ensures placed { PlacesAtMost (placed self.old) (placed self.new) (key table code)
            (IsSmallFound code result) }
        ensures noted { code < 2 ^ 32
            → OnOk result (Notes (seen self.new) (spent self.new) (key table code)) };

    ghost reflexive: { (x : Self) → follows x x };

    ghost transitive: { (x y z : Self) → follows x y → follows y z → follows x z };

    ghost leaves: { (x y : Self) → follows x y
        → LeavesSource (section x) (section y) (seen x) (seen y) (spent x) (spent y) };
}

/// Finds declarations by walking from the table's start, each time anew.
#[derive(Drop)]
pub struct Scanner<'f> {
    section: &'f [u8],
}

impl<'f> Model for Scanner<'f> {
    ghost use Rattle.std.specs.Prelude.{ℕ, List};

    ghost Value = { List ℕ };

    ghost view = { λ s. s.section.now };
}

impl<'f> Scanner<'f> {
    /// Over the bytes of `.debug_abbrev`.
    pub fn new(section: &'f [u8]) -> Scanner<'f>
        ensures { result ≡ section.entry.now }
    {
        Scanner { section }
    }
}

impl<'f> Decls<'f> for Scanner<'f> {
    ghost section = { λ s. s };

    ghost seen = { λ s. [] };

    ghost placed = { λ s. [] };

    ghost spent = { λ s. true };

    ghost follows = { λ s t. s ≡ t };

    ghost counts = { λ s table code old new.
        new ≡ ticked_by (declarations_walked s table code) old };

    fn find<L>(
        &mut self,
        table: u32,
        code: u64,
        steps: &mut Steps<L>,
    ) -> Result<Decl<'f>, FindFault> {
        scan(self.section, u64::from(table), code, steps)
    }

    ghost reflexive = { λ x. refl };

    ghost transitive = { λ x y z p q. Prim.cc };

    ghost leaves = { λ x y same. left_alone x y same };
}

/// Walks from `table` to the first declaration with this code.
fn scan<'f, L>(
    section: &'f [u8],
    table: u64,
    code: u64,
    steps: &mut Steps<L>,
) -> Result<Decl<'f>, FindFault>
    requires { table ≤ length section.now }
    ensures answer { result ≡ first_declaration section.entry.now table code }
    ensures counted { steps.new
        ≡ ticked_by (declarations_walked section.entry.now table code) steps.old }
    ensures never_less { steps.old ≤ steps.new }
{
    let mut place = table;
    'walk: loop {
        let found = match read_decl(section, place, steps) {
            Ok(found) => found,
            Err(fault) => return Err(FindFault::Broken(fault)),
        };
        match found {
            Some(pair) => {
                let (declaration, next) = pair;
                if declaration.code() == code {
                    return Ok(declaration);
                }
                place = next;
            }
            None => return Err(FindFault::CodeMissing),
        }
    }
}

/// The first declaration of a code is the one that the walk from the table's start meets first:
/// before it stand declarations of other codes alone, and the walk reads those and one more. One
/// that was found stands at its place.
///
/// This is a law, for proofs; the call does nothing.
pub fn first_declaration_is_first(section: &[u8], table: u64, code: u64)
    ensures first { IsFirst section.now table code (declarations_walked section.now table code)
        (first_declaration section.now table code) }
    ensures stands { IfOk (first_declaration section.now table code) (StandsInside section.now) }
{}
