//! The windows of units, and how seats draw from them.

use crate::least::EveryUnit;
use std::test::Fail;
use unit_draws::{Draws, count_windows};

#[test]
fn units_stand_in_windows_of_256(rt: HostRuntime) {
    let counts = [
        (0, 1),
        (1, 1),
        (256, 1),
        (257, 2),
        (512, 2),
        (600, 3),
        (131073, 513),
    ];
    for (units, windows) in counts {
        assert_eq!(rt; count_windows(units), windows, "{units} units");
    }
}

#[test]
#[tactic(auto, unfolding(unit_draws::specs::Seats::occurrences))]
fn a_file_without_units_has_one_window_that_is_empty(rt: HostRuntime) -> Result<(), Fail> {
    let (draws, mut seat) = Draws::new(rt.alloc(), 0, 1, &EveryUnit)?;
    assert_eq!(rt; draws.least(&mut seat, 0), None);
    assert_eq!(rt; draws.draw(&mut seat, 0), None);
    Ok(())
}

#[test]
#[tactic(auto, unfolding(unit_draws::specs::Seats::occurrences))]
fn more_seats_than_units(rt: HostRuntime) -> Result<(), Fail> {
    let (draws, mut one) = Draws::new(rt.alloc(), 2, 3, &EveryUnit)?;
    let mut two = draws.split(&mut one);
    let mut three = draws.split(&mut one);
    assert_eq!(rt; [one.number(), two.number(), three.number()], [0, 1, 2]);
    assert_eq!(rt; [one.spare(), two.spare(), three.spare()], [0, 0, 0]);
    assert_eq!(rt; draws.draw(&mut three, 0), Some(0));
    assert_eq!(rt; draws.draw(&mut one, 0), Some(1));
    assert_eq!(rt; draws.draw(&mut two, 0), None);
    assert_eq!(rt; draws.draw(&mut three, 0), None);
    draws.join(&mut three, two);
    draws.join(&mut one, three);
    assert_eq!(rt; one.number(), 0);
    Ok(())
}

#[test]
#[tactic(auto, unfolding(unit_draws::specs::Seats::occurrences))]
fn the_last_window_of_the_limit_has_one_unit(rt: HostRuntime) -> Result<(), Fail> {
    let (draws, mut seat) = Draws::new(rt.alloc(), 131073, 65536, &EveryUnit)?;
    assert_eq!(rt; seat.spare(), 65535);
    assert_eq!(rt; draws.draw(&mut seat, 512), Some(131072));
    assert_eq!(rt; draws.draw(&mut seat, 512), None);
    assert_eq!(rt; draws.draw(&mut seat, 511), Some(130816));
    assert_eq!(rt; draws.draw(&mut seat, 0), Some(0));
    assert_eq!(rt; draws.draw(&mut seat, 511), Some(130817));
    Ok(())
}
