//! What draws are told when they are made, and what a seat knows.
use boxcar::tag::Tag;
use std::collections::LinkedList;

/// How many seats there may be at most.
pub const MOST_SEATS: u32 = 65536;

/// How many units are drawn, and how many seats there may be.
#[derive(Clone, Copy)]
pub struct DrawSizes {
    pub units: u32,
    pub seats: u32,
}

/// The sizes of draws, and the tag by which units are refused.
#[derive(Drop)]
pub struct AboutDraws {
    pub sizes: DrawSizes,
    pub tag: Tag,
}

/// What a seat knows of its draws. It exists in proofs alone: no value of it is made.
///
/// `numbers` has the seat's own number and those of the seats joined into it, `spare` is how many seats may still be
/// split off. `drawn` has the units that it drew, `ended` the windows that it saw end, and `lowered` the refused units
/// that it told of, each with those of the seats joined into it. `tag` has the numbers by which units are refused.
pub struct DrawView {
    pub units: u32,
    pub seats: u32,
    pub tag: LinkedList<u64>,
    pub number: u32,
    pub numbers: LinkedList<u32>,
    pub spare: u32,
    pub drawn: LinkedList<u32>,
    pub ended: LinkedList<u32>,
    pub lowered: LinkedList<u32>,
}
