//! How a giver and a worker look at a desk while they wait.

use crate::desk::{CLOSED, Desk, LAID, TAKEN};
use crate::steps::Deed;
use std::hint::spin_loop;
use std::thread::yield_now;

/// At the first looks, this many, one spins between two; at later ones one lets another thread run.
const SPINS: u32 = 200;

impl<T: Drop, K, D: Deed<T, K>> Desk<T, K, D> {
    /// Looks until there is work or none will come, `looks` times at most. A look is a plain load.
    pub fn look_for_work(&self, looks: u32) {
        for look in 0..looks {
            if self.has_news() {
                return;
            }
            pause(look);
        }
    }

    /// Whether there is work, or none will come.
    pub(crate) fn has_news(&self) -> bool {
        let word = self.table.shared.peek(0);
        word == LAID || word == CLOSED
    }

    /// Whether a worker has the work in hand. That is a plain load.
    pub(crate) fn is_taken(&self) -> bool {
        self.table.shared.peek(0) == TAKEN
    }

    /// Looks until no worker has the work in hand, `looks` times at most.
    pub fn look_for_end(&self, looks: u32) {
        for look in 0..looks {
            if !self.is_taken() {
                return;
            }
            pause(look);
        }
    }
}

/// What one does between two looks.
pub(crate) fn pause(look: u32) {
    if look < SPINS {
        spin_loop();
    } else {
        yield_now();
    }
}
