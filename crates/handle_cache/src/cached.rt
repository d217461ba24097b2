//! Declarations as they are found through the table (DWARF 5 section 7.5.3).

ghost use Rattle.std.specs.Prelude.{◌≡◌, ◌⊎◌, ◌+◌, ◌<◌, ◌≤◌, ◌^◌, IfOk, IfSome, IsOk, IsSome, OnOk, Ok, Contains, length};
ghost use Rattle.abbrev_decl.specs.Declarations.{StandsInside};
ghost use Rattle.abbrev_decl.specs.Lookup.{IsSmallFound, Notes, PlacesAtMost, first_declaration, key};
ghost use Rattle.map_core.specs.Machine.{IsWord};
ghost use Rattle.map_cells.specs.Seen.{Follows};
ghost use Rattle.handle_cache.specs.Handles.{Belongs, CountsWalk, front_keys, is_spent, own_keys, sections_in};
ghost use Rattle.handle_cache.specs.Scanned.{FitsFile};

use crate::facts::HandlePass;
use crate::handle::Handle;
use abbrev_decl::{Decl, Decls, FindFault, Scanner, Steps, decl_at, first_declaration_is_first};
use std::marker::Model;

/// The first code that is never put into the table.
const CODE_LIMIT: u64 = 1 << 32;

/// The declarations of an opened file as one reader finds them.
///
/// It asks the table first, and counts no step where the table has the code's place. Else it walks from the
/// start of the declarations, as a [`Scanner`] does, and puts that one declaration into the table. A table
/// without room stays as it is. Codes of 2^32 and more are always walked to.
#[derive(Drop)]
pub struct Cached<'h, 'f> {
    /// The opened file.
    pub handle: &'h Handle<'f>,
    /// The reader's pass.
    pub pass: &'h mut HandlePass<'f>,
    /// The pass is of the handle's table, and at rest.
    pub ghost belongs: { Belongs handle.now pass.now },
}

impl<'h, 'f> Decls<'f> for Cached<'h, 'f> {
    ghost use Rattle.handle_cache.specs.SourceLaws.{KeepsSource, keeps_leaves, keeps_same, keeps_then};
    ghost use Rattle.std.proofs.Common.{refl, ◌∙◌};

    ghost section = { λ c. (sections_in c.handle.now).«abbrev» };

    ghost seen = { λ c. front_keys c.pass.now };

    ghost placed = { λ c. own_keys c.pass.now };

    ghost spent = { λ c. is_spent c.pass.now };

    ghost follows = { λ c d. (d.pass.ghost_name ≡ c.pass.ghost_name)
        × KeepsSource c.handle.now c.pass.now d.handle.now d.pass.now };

    ghost counts = { λ c table code old new.
        CountsWalk (sections_in c.handle.now).«abbrev» table code old new };

    fn find<L>(
        &mut self,
        table: u32,
        code: u64,
        steps: &mut Steps<L>,
    ) -> Result<Decl<'f>, FindFault> {
        let mut scanner = Scanner::new(self.handle.declarations());
        self.handle
            .declaration(self.pass, &mut scanner, table, code, steps)
    }

    ghost reflexive = { λ x. (refl, keeps_same x.handle.now x.pass.now) };

    ghost transitive = { λ x y z p q. (
      q.0 ∙ p.0,
      keeps_then x.handle.now y.handle.now z.handle.now
          x.pass.now y.pass.now z.pass.now p.1 q.1,
    ) };

    ghost leaves = { λ x y p. keeps_leaves x.handle.now x.pass.now y.handle.now y.pass.now p.1 };
}

/// The key of a declaration in the table.
fn declaration_key(table: u32, code: u64) -> u64
    requires table { table < 2 ^ 31 }
    requires some { 0 < code }
    requires small { code < 2 ^ 32 }
    ensures is { result ≡ key table code }
    ensures word { IsWord result }
{
    u64::from(table) * CODE_LIMIT + code
}

impl<'f> Handle<'f> {
    /// The first declaration with this code, walking from `table`. Where the table doesn't have it, this source
    /// walks to it.
    pub(crate) fn declaration<W: Decls<'f>, L>(
        &self,
        pass: &mut HandlePass<'f>,
        walk: &mut W,
        table: u32,
        code: u64,
        steps: &mut Steps<L>,
    ) -> Result<Decl<'f>, FindFault>
        requires belongs { Belongs self.now pass.old }
        requires section { W.section walk.old ≡ (sections_in self.now).«abbrev» }
        requires inside { table ≤ length (sections_in self.now).«abbrev» }
        requires some { 0 < code }
        ensures answer { result ≡ first_declaration (sections_in self.now).«abbrev» table code }
        ensures belongs { Belongs self.now pass.new }
        ensures follows { Follows pass.old pass.new }
        ensures walk { W.follows walk.old walk.new }
        ensures counted { (steps.new ≡ steps.old) ⊎ W.counts walk.old table code steps.old steps.new }
        ensures never_less { steps.old ≤ steps.new }
        ensures known { code < 2 ^ 32 → Contains (front_keys pass.old) (key table code)
            → steps.new ≡ steps.old }
        ensures placed { PlacesAtMost (own_keys pass.old) (own_keys pass.new) (key table code)
            (IsSmallFound code result) }
        ensures noted { code < 2 ^ 32
            → OnOk result (Notes (front_keys pass.new) (is_spent pass.new) (key table code)) }
    {
        if code < CODE_LIMIT {
            return self.small_declaration(pass, walk, table, code, steps);
        }
        walk.find(table, code, steps)
    }

    /// The bytes of `.debug_abbrev`.
    pub(crate) fn declarations(&self) -> &'f [u8]
        ensures { result.now ≡ (sections_in self.now).«abbrev» }
    {
        self.sections.abbrev
    }

    /// Each declaration that a walk finds stands in its section. It does nothing: a proof learns it by this
    /// call.
    fn recall_walk(&self, table: u32, code: u64)
        ensures { IfOk (first_declaration (sections_in self.now).«abbrev» table code)
            (StandsInside (sections_in self.now).«abbrev») }
    {
        first_declaration_is_first(self.declarations(), u64::from(table), code);
    }

    /// The same for a code that may be in the table.
    fn small_declaration<W: Decls<'f>, L>(
        &self,
        pass: &mut HandlePass<'f>,
        walk: &mut W,
        table: u32,
        code: u64,
        steps: &mut Steps<L>,
    ) -> Result<Decl<'f>, FindFault>
        requires belongs { Belongs self.now pass.old }
        requires section { W.section walk.old ≡ (sections_in self.now).«abbrev» }
        requires inside { table ≤ length (sections_in self.now).«abbrev» }
        requires some { 0 < code }
        requires small { code < 2 ^ 32 }
        ensures answer { result ≡ first_declaration (sections_in self.now).«abbrev» table code }
        ensures belongs { Belongs self.now pass.new }
        ensures follows { Follows pass.old pass.new }
        ensures walk { W.follows walk.old walk.new }
        ensures counted { (steps.new ≡ steps.old) ⊎ W.counts walk.old table code steps.old steps.new }
        ensures never_less { steps.old ≤ steps.new }
        ensures known { Contains (front_keys pass.old) (key table code) → steps.new ≡ steps.old }
        ensures placed { PlacesAtMost (own_keys pass.old) (own_keys pass.new) (key table code)
            (IsOk result) }
        ensures noted { OnOk result
            (Notes (front_keys pass.new) (is_spent pass.new) (key table code)) }
    {
        match self.find_place(pass, table, code) {
            Some(value) => Ok(self.declaration_there(table, code, value)),
            None => {
                let found = walk.find(table, code, steps);
                if let Ok(declaration) = &found {
                    self.keep_declaration(pass, table, code, declaration);
                }
                found
            }
        }
    }

    /// What the table has for a declaration.
    fn find_place(&self, pass: &mut HandlePass<'f>, table: u32, code: u64) -> Option<u64>
        requires belongs { Belongs self.now pass.old }
        requires inside { table ≤ length (sections_in self.now).«abbrev» }
        requires some { 0 < code }
        requires small { code < 2 ^ 32 }
        ensures belongs { Belongs self.now pass.new }
        ensures follows { Follows pass.old pass.new }
        ensures own { own_keys pass.new ≡ own_keys pass.old }
        ensures value { IfSome result (FitsFile self.now.file (key table code)) }
        ensures held { IfSome result (λ v. Contains (front_keys pass.new) (key table code)) }
        ensures kept { Contains (front_keys pass.old) (key table code) → IsSome result }
    {
        self.recall();
        self.find_value(pass, declaration_key(table, code))
    }

    /// The declaration that the table's value of its key tells.
    fn declaration_there(&self, table: u32, code: u64, value: u64) -> Decl<'f>
        requires inside { table ≤ length (sections_in self.now).«abbrev» }
        requires small { code < 2 ^ 32 }
        requires value { FitsFile self.now.file (key table code) value }
        ensures { first_declaration (sections_in self.now).«abbrev» table code ≡ Ok result }
    {
        self.recall();
        self.recall_walk(table, code);
        let section = self.declarations();
        decl_at(section, value.saturating_sub(1))
    }

    /// Puts the declaration that a walk found into the table.
    fn keep_declaration(
        &self,
        pass: &mut HandlePass<'f>,
        table: u32,
        code: u64,
        declaration: &Decl<'f>,
    )
        requires belongs { Belongs self.now pass.old }
        requires inside { table ≤ length (sections_in self.now).«abbrev» }
        requires some { 0 < code }
        requires small { code < 2 ^ 32 }
        requires first { first_declaration (sections_in self.now).«abbrev» table code
            ≡ Ok declaration.now }
        ensures belongs { Belongs self.now pass.new }
        ensures follows { Follows pass.old pass.new }
        ensures noted { Notes (front_keys pass.new) (is_spent pass.new) (key table code) }
        ensures placed { PlacesAtMost (own_keys pass.old) (own_keys pass.new) (key table code)
            (FitsFile self.now.file (key table code) (declaration.entry.now.place + 1)) }
    {
        self.recall();
        self.recall_walk(table, code);
        let value = declaration.place() + 1;
        self.keep_value(pass, declaration_key(table, code), value);
    }
}
