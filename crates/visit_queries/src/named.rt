//! Visitors that have names.

ghost use Rattle.std.specs.Prelude.{◌≡◌, map, option_map};
ghost use Rattle.std.specs.String.{string_bytes};
ghost use Rattle.visit_queries.specs.Named.{Named, first_named, place_named as place_among};

use crate::visitor::Visitor;

/// A visitor that a command line can name.
#[derive(Drop)]
pub struct NamedVisitor {
    /// The name.
    pub name: String,
    /// The visitor.
    pub visitor: Box<dyn Visitor>,
}

/// What contracts see of a visitor that has a name.
pub trait IsNamed {
    ghost named: { Self → Named };
}

impl IsNamed for NamedVisitor {
    ghost use Rattle.std.specs.String.{string_bytes};

    ghost named = { λ v. record {
      name = string_bytes v.name;
      meanings = record {
        state = (Visitor-box v.visitor).state v.visitor.value;
        step = (Visitor-box v.visitor).step v.visitor.value;
        text = (Visitor-box v.visitor).text v.visitor.value;
      };
    } };
}

/// The place of the first visitor of a name.
fn place_named(visitors: &[NamedVisitor], name: &str) -> Option<usize>
    ensures { result ≡ place_among name.now (map (λ v. string_bytes v.name) visitors.now) }
{
    for (place, visitor) in visitors.iter().enumerate() {
        if visitor.name.as_str() == name {
            return Some(place);
        }
    }
    None
}

/// The first visitor of a name; the others are dropped.
pub fn pick(mut visitors: Vec<NamedVisitor>, name: &str) -> Option<NamedVisitor>
    ensures { option_map ⟦<NamedVisitor as IsNamed>⟧.named result
        ≡ first_named name.now (map ⟦<NamedVisitor as IsNamed>⟧.named visitors.items) }
{
    match place_named(visitors.as_slice(), name) {
        Some(place) => Some(visitors.swap_remove(place)),
        None => None,
    }
}
