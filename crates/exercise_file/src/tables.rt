//! The tables of declarations, and the texts that all units share.

ghost use Rattle.std.specs.Prelude.{◌≡◌, ◌++◌, OnOk};
ghost use Rattle.exercise_file.specs.Generated.{table, texts};

use crate::pieces::Piece;
use std::alloc::AllocError;

/// A table of declarations in `.debug_abbrev`.
pub(super) struct TablePiece;

impl Piece for TablePiece {
    ghost bytes = { λ _. table };

    #[tactic(auto, unfolding(crate::specs::Generated::table, crate::specs::Generated::unit_declaration, crate::specs::Generated::type_declaration, crate::specs::Generated::function_declaration, crate::specs::Generated::variable_declaration))]
    fn push(out: &mut Vec<u8>, number: u64) -> Result<(), AllocError> {
        let _ = number;
        out.extend_from_slice(&[
            0x01, 0x11, 0x01, 0x03, 0x1f, 0x25, 0x0e, 0x11, 0x01, 0x12, 0x06, 0x55, 0x17, 0x00,
            0x00, 0x02, 0x24, 0x00, 0x03, 0x0e, 0x0b, 0x0b, 0x3e, 0x0b, 0x00, 0x00, 0x03, 0x2e,
            0x00, 0x03, 0x0e, 0x3f, 0x19, 0x3b, 0x0b, 0x49, 0x13, 0x11, 0x01, 0x12, 0x06, 0x00,
            0x00, 0x04, 0x34, 0x00, 0x03, 0x0e, 0x3b, 0x0b, 0x49, 0x13, 0x00, 0x00, 0x00,
        ])
    }
}

/// The texts of `.debug_str`.
#[tactic(auto, unfolding(crate::specs::Generated::texts))]
pub(super) fn shared_texts() -> &'static [u8]
    ensures { result.now ≡ texts }
{
    b"gen\0int\0f0\0f1\0f2\0f3\0v\0"
}
