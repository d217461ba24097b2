//! What a pass knows.
use crate::cell::Cell;
use crate::entry::Entry;
use crate::layout::Layout;
use std::collections::LinkedList;

/// What a pass knows of a table. It exists in proofs alone: no value of it is made.
///
/// `live` is false in what a pass leaves that was joined into another. `layout` has the table's sizes, `tag` the numbers
/// by which pairs fit. `number` is the pass's own, `numbers` this one and those of the passes joined into it, and
/// `spare` how many passes may still be split off. `front` is the beginning of the history that the pass has seen, and
/// `generation` the last that it has seen current. Between the two steps of a join
/// `beside` and `beside_numbers` are the front and the numbers of the other pass. `claim` is the cell that it has
/// claimed and whose value it has not yet seen set, `uncounted` its entries that it has not counted, and `counted`
/// how many it has. `known` has the places and words that it has loaded, `count_seen` the greatest count, and
/// `currents` the generations that it has seen current.
pub struct View {
    pub live: bool,
    pub layout: Layout,
    pub tag: LinkedList<u64>,
    pub number: u32,
    pub numbers: LinkedList<u32>,
    pub spare: u32,
    pub front: LinkedList<Entry>,
    pub beside: LinkedList<Entry>,
    pub beside_numbers: LinkedList<u32>,
    pub generation: u32,
    pub claim: Option<Cell>,
    pub uncounted: LinkedList<Entry>,
    pub counted: u64,
    pub known: LinkedList<(u64, u64)>,
    pub count_seen: u64,
    pub currents: LinkedList<u32>,
}
