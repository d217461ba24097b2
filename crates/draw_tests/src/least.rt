//! The least refused unit of a window.

use std::test::Fail;
use unit_draws::{Draws, RefusedUnits};

/// Units of which each may be told of.
#[derive(Clone, Copy)]
pub(crate) struct EveryUnit;

impl RefusedUnits for EveryUnit {
    ghost use Rattle.std.specs.Prelude.{[]};

    ghost tag = { λ _. [] };

    ghost refuses = { λ _ _. Unit {0} };
}

#[test]
fn a_seat_is_told_of_the_least_unit(rt: HostRuntime) -> Result<(), Fail> {
    let (draws, mut one) = Draws::new(rt.alloc(), 300, 2, &EveryUnit)?;
    let mut two = draws.split(&mut one);
    assert_eq!(rt; draws.least(&mut one, 0), None);
    draws.lower(&mut two, 7);
    assert_eq!(rt; draws.least(&mut one, 0), Some(7));
    draws.lower(&mut one, 9);
    assert_eq!(rt; draws.least(&mut one, 0), Some(7));
    draws.lower(&mut one, 3);
    assert_eq!(rt; draws.least(&mut two, 0), Some(3));
    assert_eq!(rt; draws.least(&mut two, 1), None);
    draws.lower(&mut one, 299);
    assert_eq!(rt; draws.least(&mut two, 1), Some(299));
    draws.join(&mut one, two);
    draws.lower(&mut one, 256);
    assert_eq!(rt; draws.least(&mut one, 1), Some(256));
    assert_eq!(rt; draws.least(&mut one, 0), Some(3));
    Ok(())
}
