//! A gate that holds the first worker until another has come, and one that counts the
//! units that are read.

use dw_outside::Gate;
use std::sync::atomic::{AtomicU32, Ordering};
use std::thread::yield_now;

/// How often a worker looks whether another has come.
const MOST_LOOKS: u32 = 100_000_000;

/// How many workers are inside, and how many there were at most.
#[derive(Drop)]
pub(crate) struct MeetingGate {
    inside: AtomicU32,
    most: AtomicU32,
}

impl MeetingGate {
    /// A gate with nobody inside.
    pub(crate) fn new() -> MeetingGate {
        MeetingGate {
            inside: AtomicU32::new(0),
            most: AtomicU32::new(0),
        }
    }

    /// How many workers were inside at once, at most.
    pub(crate) fn most(&self) -> u32 {
        self.most.load(Ordering::SeqCst)
    }
}

impl Gate for MeetingGate {
    fn enter(&self, _worker: u32, _unit: u32) {
        let inside = self.inside.fetch_add(1, Ordering::SeqCst).wrapping_add(1);
        self.most.fetch_max(inside, Ordering::SeqCst);
        for _ in 0..MOST_LOOKS {
            if self.most() >= 2 {
                return;
            }
            yield_now();
        }
    }

    fn leave(&self, _worker: u32, _unit: u32) {
        self.inside.fetch_sub(1, Ordering::SeqCst);
    }
}

/// How often a worker that reads a unit behind the refused one lets others run first.
const YIELDS: u32 = 1000;

/// A gate that counts the units that are read. A worker waits before a unit behind the refused one until that one was
/// read.
#[derive(Drop)]
pub(crate) struct RefusalGate {
    refused: u32,
    entered: AtomicU32,
    left: AtomicU32,
}

impl RefusalGate {
    /// A gate for a file of which this unit is the first refused one.
    pub(crate) fn new(refused: u32) -> RefusalGate {
        RefusalGate {
            refused,
            entered: AtomicU32::new(0),
            left: AtomicU32::new(0),
        }
    }

    /// How many units were read.
    pub(crate) fn entered(&self) -> u32 {
        self.entered.load(Ordering::SeqCst)
    }

    /// Waits until the refused unit was read.
    fn wait(&self) {
        for _ in 0..MOST_LOOKS {
            if self.left.load(Ordering::SeqCst) > 0 {
                return;
            }
            yield_now();
        }
    }
}

impl Gate for RefusalGate {
    fn enter(&self, _worker: u32, unit: u32) {
        self.entered.fetch_add(1, Ordering::SeqCst);
        if unit > self.refused {
            self.wait();
            for _ in 0..YIELDS {
                yield_now();
            }
        }
    }

    fn leave(&self, _worker: u32, unit: u32) {
        if unit == self.refused {
            self.left.fetch_add(1, Ordering::SeqCst);
        }
    }
}
