//! How far the telling is behind the tasks that have ended.

use std::sync::atomic::{AtomicU64, Ordering};

/// How many tasks may have ended since the worker that tells was last there, before others begin none until
/// it has been there again. Their lines take some megabytes.
const LONG: u64 = 16_384;

/// How many tasks had ended when the worker that tells last had the turn.
#[derive(Drop)]
pub(crate) struct Backlog {
    seen: AtomicU64,
    /// How many more may end before others wait.
    longest: u64,
}

impl Backlog {
    /// None has ended. At a closed gate, which may hold one worker until it has seen another, nobody waits.
    pub(crate) fn new(is_open: bool) -> Backlog {
        Backlog {
            seen: AtomicU64::new(0),
            longest: if is_open { LONG } else { u64::MAX },
        }
    }

    /// The worker that tells has the turn, and so many tasks have ended.
    pub(crate) fn meet(&self, ended: u64) {
        self.seen.store(ended, Ordering::SeqCst);
    }

    /// The worker that tells doesn't come any more, so nobody waits for it.
    pub(crate) fn close(&self) {
        self.seen.store(u64::MAX, Ordering::SeqCst);
    }

    /// Whether others are to wait for the worker that tells, where so many tasks have ended. Where none of
    /// them left a text, they aren't.
    pub(crate) fn is_long(&self, ended: u64, is_silent: bool) -> bool {
        !is_silent && ended.saturating_sub(self.seen.load(Ordering::SeqCst)) > self.longest
    }
}
