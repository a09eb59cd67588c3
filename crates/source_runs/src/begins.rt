//! A gate that counts how often each worker begins.

use attempt_log::Gate;
use std::alloc::Global;
use std::io;
use std::sync::atomic::{AtomicU64, Ordering};

/// There are at most this many workers.
pub(crate) const MOST_WORKERS: u32 = 64;

/// How often each worker was let through before its first turn, which it is once in each batch, on every schedule.
#[derive(Drop)]
pub(crate) struct Begins {
    counts: Vec<AtomicU64>,
}

impl Begins {
    /// Nobody has begun.
    pub(crate) fn new(alloc: Global) -> io::Result<Begins> {
        let mut counts = Vec::new(alloc);
        for _ in 0..MOST_WORKERS {
            counts.push(AtomicU64::new(0))?;
        }
        Ok(Begins { counts })
    }

    /// How often all workers began together.
    pub(crate) fn calls(&self) -> u64 {
        let mut calls: u64 = 0;
        for count in &self.counts {
            calls = calls.wrapping_add(count.load(Ordering::SeqCst));
        }
        calls
    }

    /// How many workers began.
    pub(crate) fn workers(&self) -> u64 {
        let mut workers: u64 = 0;
        for count in &self.counts {
            if count.load(Ordering::SeqCst) > 0 {
                workers = workers.wrapping_add(1);
            }
        }
        workers
    }
}

impl Gate for Begins {
    fn before(&self, worker: u32, turn: u64) {
        if turn > 0 {
            return;
        }
        if let Some(count) = self.counts.as_slice().get(worker as usize) {
            count.fetch_add(1, Ordering::SeqCst);
        }
    }

    fn after(&self, _worker: u32, _turn: u64) {}
}
