//! A section by its name.

ghost use Rattle.std.specs.Prelude.{◌≡◌, ◌<◌, ◌^◌, length, map, option_map, IfSome};
ghost use Rattle.elf_sections.specs.Rows.{bytes_named, AllShort};
ghost use Rattle.elf_sections.specs.Shapes.{row};

use crate::section::Section;

/// The bytes of the first of these sections that has this name.
#[tactic(auto, unfolding(crate::specs::Rows::bytes_named))]
pub(crate) fn first_named<'f>(sections: &[Section<'f>], name: &[u8]) -> Option<&'f [u8]>
    requires { AllShort (map row sections.now) }
    ensures bytes { option_map (λ b. b.now) result ≡ bytes_named name.now (map row sections.now) }
    ensures short { IfSome result (λ b. length b.now < 2 ^ 31) }
{
    for section in sections {
        if section.name == name {
            return Some(section.bytes);
        }
    }
    None
}
