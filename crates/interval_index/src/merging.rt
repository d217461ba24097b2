//! Two lists of boundaries merged into one.

ghost use Rattle.std.specs.Prelude.{◌≡◌, ◌+◌, ◌<◌, ◌∷◌, List, [], true, false, length, IfOk, IfSome, MatchOption};
ghost use Rattle.interval_index.specs.Intervals.{lesser};
ghost use Rattle.interval_index.specs.Boundaries.{Merges, SidesView, comes_first};

use crate::boundaries::Boundary;
use std::alloc::{AllocError, Global};
use std::marker::Model;

/// What is left of two lists of boundaries, with the owner on each side before its next boundary.
#[derive(Drop)]
struct Sides<'a> {
    first: &'a [Boundary],
    first_owner: Option<usize>,
    second: &'a [Boundary],
    second_owner: Option<usize>,
}

impl<'a> Model for Sides<'a> {
    ghost use Rattle.std.specs.Prelude.{◌≡◌};
    ghost use Rattle.interval_index.specs.Boundaries.{SidesView};

    ghost Value = { SidesView };

    ghost view = { λ s. record {
      first = s.first.now;
      first_owner = s.first_owner;
      second = s.second.now;
      second_owner = s.second_owner;
    } };
}

/// Both lists in one, in ascending order where they are.
pub(crate) fn merge(
    alloc: Global,
    first: &[Boundary],
    second: &[Boundary],
) -> Result<Vec<Boundary>, AllocError>
    ensures { IfOk result (λ v. Merges (record {
      first = first.now;
      first_owner = None;
      second = second.now;
      second_owner = None;
    }) v.items) }
{
    let mut sides = Sides {
        first,
        first_owner: None,
        second,
        second_owner: None,
    };
    let mut merged = Vec::with_capacity(alloc, first.len() + second.len())?;
    while let Some(boundary) = next(&mut sides) {
        merged.push(boundary)?;
    }
    Ok(merged)
}

/// The next boundary of the merged list.
#[inline]
fn next(sides: &mut Sides<'_>) -> Option<Boundary>
    ensures merged { MatchOption result (Merges sides.old [])
        (λ b. (rest : List _) → Merges sides.new rest → Merges sides.old (b ∷ rest)) }
    ensures fewer { IfSome result (λ _. length sides.new.first + length sides.new.second
        < length sides.old.first + length sides.old.second) }
{
    if precedes(sides.first, sides.second) {
        Some(pass_first(sides))
    } else if sides.second.is_empty() {
        None
    } else {
        Some(pass_second(sides))
    }
}

/// Whether the first list's next boundary comes before the second's.
#[inline]
fn precedes(first: &[Boundary], second: &[Boundary]) -> bool
    ensures { result ≡ comes_first first.now second.now }
{
    match (first.first(), second.first()) {
        (None, _) => false,
        (Some(_), None) => true,
        (Some(one), Some(other)) => one.from <= other.from,
    }
}

/// Passes the first side's next boundary.
#[inline]
fn pass_first(sides: &mut Sides<'_>) -> Boundary
    requires { comes_first sides.old.first sides.old.second ≡ true }
    ensures merged { (rest : List _) → Merges sides.new rest → Merges sides.old (result ∷ rest) }
    ensures fewer { length sides.new.first + length sides.new.second
        < length sides.old.first + length sides.old.second }
{
    let boundary = sides.first[0];
    sides.first = &sides.first[1..];
    sides.first_owner = boundary.owner;
    Boundary {
        from: boundary.from,
        owner: owner_of(sides),
    }
}

/// Passes the second side's next boundary.
#[inline]
fn pass_second(sides: &mut Sides<'_>) -> Boundary
    requires later { comes_first sides.old.first sides.old.second ≡ false }
    requires some { 0 < length sides.old.second }
    ensures merged { (rest : List _) → Merges sides.new rest → Merges sides.old (result ∷ rest) }
    ensures fewer { length sides.new.first + length sides.new.second
        < length sides.old.first + length sides.old.second }
{
    let boundary = sides.second[0];
    sides.second = &sides.second[1..];
    sides.second_owner = boundary.owner;
    Boundary {
        from: boundary.from,
        owner: owner_of(sides),
    }
}

/// Who owns the numbers before the next boundary: of two owners the one with the lower number.
#[inline]
fn owner_of(sides: &Sides<'_>) -> Option<usize>
    ensures { result ≡ lesser sides.now.first_owner sides.now.second_owner }
{
    match (sides.first_owner, sides.second_owner) {
        (Some(one), Some(other)) => Some(one.min(other)),
        (Some(one), None) => Some(one),
        (None, other) => other,
    }
}
