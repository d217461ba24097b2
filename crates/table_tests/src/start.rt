//! How the threads of a test come to run at one time.

use std::hint::spin_loop;
use std::sync::atomic::{AtomicU64, Ordering};

/// Waits until so many threads have come, or a while.
pub(crate) fn meet(arrived: &AtomicU64, all: u64) {
    arrived.fetch_add(1, Ordering::SeqCst);
    for _ in 0..1000000 {
        if arrived.load(Ordering::SeqCst) >= all {
            break;
        }
        spin_loop();
    }
}
