//! Numbers at the places of a file.

ghost use Rattle.std.specs.Prelude.{◌≡◌, ◌+◌, ◌≤◌, length};
ghost use Rattle.elf_sections.specs.Layouts.{field, word, word_size};

use crate::class_layout::ClassLayout;
use dw_fields::Order;

/// The number in the two bytes at a place.
#[tactic(auto, unfolding(crate::specs::Layouts::field))]
pub(crate) fn u16_at(file: &[u8], order: Order, place: u64) -> u16
    requires { place + 2 ≤ length file.now }
    ensures { result ≡ field order 2 place file.now }
{
    order.u16(&file[place as usize..])
}

/// The number in the four bytes at a place.
#[tactic(auto, unfolding(crate::specs::Layouts::field))]
pub(crate) fn u32_at(file: &[u8], order: Order, place: u64) -> u32
    requires { place + 4 ≤ length file.now }
    ensures { result ≡ field order 4 place file.now }
{
    order.u32(&file[place as usize..])
}

/// The number in the eight bytes at a place.
#[tactic(auto, unfolding(crate::specs::Layouts::field))]
fn u64_at(file: &[u8], order: Order, place: u64) -> u64
    requires { place + 8 ≤ length file.now }
    ensures { result ≡ field order 8 place file.now }
{
    order.u64(&file[place as usize..])
}

/// How many bytes an address, an offset or a size has in the file.
#[tactic(auto, unfolding(crate::specs::Layouts::word_size))]
pub(crate) fn word_size(layout: ClassLayout) -> u64
    ensures size { result ≡ word_size layout }
    ensures least { 4 ≤ result }
    ensures most { result ≤ 8 }
{
    if layout.wide { 8 } else { 4 }
}

/// The address, offset or size at a place.
#[tactic(auto, unfolding(crate::specs::Layouts::word_size))]
pub(crate) fn word_at(file: &[u8], layout: ClassLayout, place: u64) -> u64
    requires { place + word_size layout ≤ length file.now }
    ensures { result ≡ word layout place file.now }
{
    if layout.wide {
        u64_at(file, layout.order, place)
    } else {
        u64::from(u32_at(file, layout.order, place))
    }
}
