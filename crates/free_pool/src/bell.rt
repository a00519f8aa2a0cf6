//! What workers sleep on while no task may run.

use std::hint::spin_loop;
use std::sync::Wait;
use std::sync::atomic::{AtomicU64, Ordering};

/// How often all workers together look at a time before they sleep, for some 100 microseconds of a processor: to
/// wake a worker takes longer than a short task.
const LOOKS: u32 = 2_000;

/// The bits of a count that a sleep compares.
const LOW: u64 = 0xffff_ffff;

/// A bell that is rung whenever a task has ended, or nothing more is to be claimed.
#[derive(Drop)]
pub(crate) struct Bell {
    /// How often it was rung.
    rung: AtomicU64,
    /// How many workers sleep, or are about to.
    sleepers: AtomicU64,
    /// How often a worker that waits looks before it sleeps.
    looks: u32,
}

impl Bell {
    /// A bell that wasn't rung, for this number of workers.
    pub(crate) fn new(workers: u32) -> Bell {
        Bell {
            rung: AtomicU64::new(0),
            sleepers: AtomicU64::new(0),
            looks: LOOKS / workers.max(1),
        }
    }

    /// How often it was rung so far.
    pub(crate) fn rung(&self) -> u64 {
        self.rung.load(Ordering::SeqCst)
    }

    /// Rings, and wakes all that sleep.
    pub(crate) fn ring(&self) {
        self.rung.fetch_add(1, Ordering::SeqCst);
        // Who counts itself among the sleepers after this look finds the new count, and doesn't sleep.
        if self.sleepers.load(Ordering::SeqCst) > 0 {
            self.rung.wake_all();
        }
    }

    /// Waits until it is rung once more than so often. It may come back earlier.
    pub(crate) fn wait<R: Wait>(&self, rt: &R, rung: u64) {
        for _ in 0..self.looks {
            if self.rung() != rung {
                return;
            }
            spin_loop();
        }
        self.sleepers.fetch_add(1, Ordering::SeqCst);
        self.rung.park(rt, (rung & LOW) as u32);
        self.sleepers.fetch_sub(1, Ordering::SeqCst);
    }
}
