//! Names of tags (DWARF 5 section 7.5.3, table 7.3), without `DW_TAG_`.
ghost use Rattle.std.specs.Prelude.{◌≡◌, ◌+◌, ◌≤◌, ◌++◌, IfSome, length, option_map};
ghost use Rattle.dw_names.specs.Tags.{tag_name};
ghost use Rattle.dw_names.specs.Texts.{tag_text};
ghost use Rattle.dw_text.specs.Added.{labelled};

use crate::rows::{Row, UNNAMED, name_in, prepend_name_after};
use dw_text::LineBuffer;

/// The names of tags, each in the row of its number.
static TAGS: [Row; 80] = [
    UNNAMED,
    *b"\x0a                     array_type",
    *b"\x0a                     class_type",
    *b"\x0b                    entry_point",
    *b"\x10               enumeration_type",
    *b"\x10               formal_parameter",
    UNNAMED,
    UNNAMED,
    *b"\x14           imported_declaration",
    UNNAMED,
    *b"\x05                          label",
    *b"\x0d                  lexical_block",
    UNNAMED,
    *b"\x06                         member",
    UNNAMED,
    *b"\x0c                   pointer_type",
    *b"\x0e                 reference_type",
    *b"\x0c                   compile_unit",
    *b"\x0b                    string_type",
    *b"\x0e                 structure_type",
    UNNAMED,
    *b"\x0f                subroutine_type",
    *b"\x07                        typedef",
    *b"\x0a                     union_type",
    *b"\x16         unspecified_parameters",
    *b"\x07                        variant",
    *b"\x0c                   common_block",
    *b"\x10               common_inclusion",
    *b"\x0b                    inheritance",
    *b"\x12             inlined_subroutine",
    *b"\x06                         module",
    *b"\x12             ptr_to_member_type",
    *b"\x08                       set_type",
    *b"\x0d                  subrange_type",
    *b"\x09                      with_stmt",
    *b"\x12             access_declaration",
    *b"\x09                      base_type",
    *b"\x0b                    catch_block",
    *b"\x0a                     const_type",
    *b"\x08                       constant",
    *b"\x0a                     enumerator",
    *b"\x09                      file_type",
    *b"\x06                         friend",
    *b"\x08                       namelist",
    *b"\x0d                  namelist_item",
    *b"\x0b                    packed_type",
    *b"\x0a                     subprogram",
    *b"\x17        template_type_parameter",
    *b"\x18       template_value_parameter",
    *b"\x0b                    thrown_type",
    *b"\x09                      try_block",
    *b"\x0c                   variant_part",
    *b"\x08                       variable",
    *b"\x0d                  volatile_type",
    *b"\x0f                dwarf_procedure",
    *b"\x0d                  restrict_type",
    *b"\x0e                 interface_type",
    *b"\x09                      namespace",
    *b"\x0f                imported_module",
    *b"\x10               unspecified_type",
    *b"\x0c                   partial_unit",
    *b"\x0d                  imported_unit",
    UNNAMED,
    *b"\x09                      condition",
    *b"\x0b                    shared_type",
    *b"\x09                      type_unit",
    *b"\x15          rvalue_reference_type",
    *b"\x0e                 template_alias",
    *b"\x0c                   coarray_type",
    *b"\x10               generic_subrange",
    *b"\x0c                   dynamic_type",
    *b"\x0b                    atomic_type",
    *b"\x09                      call_site",
    *b"\x13            call_site_parameter",
    *b"\x0d                  skeleton_unit",
    *b"\x0e                 immutable_type",
    UNNAMED,
    UNNAMED,
    UNNAMED,
    UNNAMED,
];

/// The name of a tag, or `None` where the standard gives it none (DWARF 5 section 7.5.3).
pub fn tag_name(tag: u64) -> Option<&'static [u8]>
    ensures name { option_map (λ name. name.now) result ≡ tag_name tag }
    ensures size { IfSome result (λ name. length name.now ≤ 32) }
{
    name_in(&TAGS, tag)
}

/// Puts a word and the name of a tag, or `0x` and its hexadecimal digits, before what stands.
#[tactic(auto, unfolding(crate::specs::Texts::tag_text))]
#[inline(always)]
pub fn prepend_tag_after(line: &mut LineBuffer, word: &[u8], tag: u64)
    requires { length line.old + length word.now + 32 ≤ 256 }
    ensures text { line.new ≡ labelled word.now (tag_text tag) ++ line.old }
    ensures size { length line.new ≤ length line.old + length word.now + 32 }
{
    prepend_name_after(line, word, &TAGS, tag)
}
