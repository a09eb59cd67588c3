//! A gate at which two workers see each other.

use attempt_log::Gate;
use std::hint::spin_loop;
use std::sync::atomic::{AtomicBool, Ordering};

// How often a worker looks for the other at the most.
const LOOKS: u32 = 100_000_000;

/// A flag of each of two workers, and whether it saw the other's.
#[derive(Drop)]
pub(crate) struct Flags {
    raised: Pair,
    seen: Pair,
}

// A bit of each of two workers.
#[derive(Drop)]
struct Pair {
    first: AtomicBool,
    second: AtomicBool,
}

impl Pair {
    fn new() -> Pair {
        Pair {
            first: AtomicBool::new(false),
            second: AtomicBool::new(false),
        }
    }

    // The bit of worker 0, or of another.
    fn of(&self, is_first: bool) -> &AtomicBool {
        if is_first { &self.first } else { &self.second }
    }
}

impl Flags {
    /// Flags that nobody has raised.
    pub(crate) fn new() -> Flags {
        Flags {
            raised: Pair::new(),
            seen: Pair::new(),
        }
    }

    /// Whether each of the two workers saw the other's flag while it held its own up.
    pub(crate) fn both_saw(&self) -> bool {
        self.seen.first.load(Ordering::SeqCst) && self.seen.second.load(Ordering::SeqCst)
    }
}

impl Gate for Flags {
    fn before(&self, worker: u32, turn: u64) {
        if turn > 0 {
            return;
        }
        let is_first = worker == 0;
        // Of a worker's calls the first alone counts, so that a later batch shows nothing.
        if self.raised.of(is_first).load(Ordering::SeqCst) {
            return;
        }
        self.raised.of(is_first).store(true, Ordering::SeqCst);
        for _ in 0..LOOKS {
            if self.raised.of(!is_first).load(Ordering::SeqCst) {
                self.seen.of(is_first).store(true, Ordering::SeqCst);
                return;
            }
            // So that it looks for seconds: on a busy machine the other may begin late.
            spin_loop();
        }
    }

    fn after(&self, _worker: u32, _turn: u64) {}
}
