//! Declarations as they are found through the table, with walks that go on (DWARF 5 section 7.5.3).

ghost use Rattle.std.specs.Prelude.{◌≡◌};
ghost use Rattle.handle_cache.specs.Handles.{Belongs, sections_in};

use crate::facts::HandlePass;
use crate::handle::Handle;
use abbrev_decl::{Decl, Decls, FindFault, Steps};
use std::marker::Model;
use walked_tables::TableWalker;

/// The declarations of an opened file as one reader of several units finds them.
///
/// It asks the table first, as [`Cached`](crate::Cached) does, and counts no step where the table has the
/// code's place. Else its walker goes on from where the last walk in the same table of declarations ended, and
/// that one declaration is put into the table, but none that the walk passed. A table without room stays as it
/// is. Codes of 2^32 and more are always walked to.
///
/// The walker lives longer than the source: a reader keeps it from unit to unit.
#[derive(Drop)]
pub struct CachedWalk<'h, 'f> {
    /// The opened file.
    pub handle: &'h Handle<'f>,
    /// The reader's pass.
    pub pass: &'h mut HandlePass<'f>,
    /// The reader's walker, over the file's `.debug_abbrev`.
    pub walker: &'h mut TableWalker<'f>,
    /// The pass is of the handle's table, and at rest.
    pub ghost belongs: { Belongs handle.now pass.now },
    /// The walker goes over the handle's declarations.
    pub ghost walks: { walker.now ≡ (sections_in handle.now).«abbrev» },
}

impl<'h, 'f> Decls<'f> for CachedWalk<'h, 'f> {
    ghost use Rattle.handle_cache.specs.Handles.{front_keys, is_spent, own_keys};
    ghost use Rattle.handle_cache.specs.SourceLaws.{KeepsSource, keeps_leaves, keeps_same, keeps_then};
    ghost use Rattle.std.specs.Prelude.{◌≤◌};
    ghost use Rattle.std.proofs.Common.{refl, ◌∙◌};

    ghost section = { λ c. (sections_in c.handle.now).«abbrev» };

    ghost seen = { λ c. front_keys c.pass.now };

    ghost placed = { λ c. own_keys c.pass.now };

    ghost spent = { λ c. is_spent c.pass.now };

    ghost follows = { λ c d. (d.pass.ghost_name ≡ c.pass.ghost_name)
        × (d.walker.ghost_name ≡ c.walker.ghost_name)
        × KeepsSource c.handle.now c.pass.now d.handle.now d.pass.now };

    ghost counts = { λ c table code old new. old ≤ new };

    fn find<L>(
        &mut self,
        table: u32,
        code: u64,
        steps: &mut Steps<L>,
    ) -> Result<Decl<'f>, FindFault> {
        self.handle
            .declaration(self.pass, self.walker, table, code, steps)
    }

    ghost reflexive = { λ x. (refl, refl, keeps_same x.handle.now x.pass.now) };

    ghost transitive = { λ x y z p q. (
      q.0 ∙ p.0,
      q.1 ∙ p.1,
      keeps_then x.handle.now y.handle.now z.handle.now
          x.pass.now y.pass.now z.pass.now p.2 q.2,
    ) };

    ghost leaves = { λ x y p. keeps_leaves x.handle.now x.pass.now y.handle.now y.pass.now p.2 };
}
