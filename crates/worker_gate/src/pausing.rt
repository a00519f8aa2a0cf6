//! How a seat waits for the turn.

use crate::hall::HallOf;
use crate::view::View;
use atomic_table::TableRule;
use cell_store::Held;
use std::hint::spin_loop;
use std::snapshot::Snapshot;
use std::thread::yield_now;

/// How often the one that waits looks before it tries again.
const LOOKS: u32 = 32;

/// At the first looks, this many, it spins, twice as long each time; at others it lets another thread
/// run.
const SPINS: u32 = 6;

impl<E: Drop, V: Held, P: TableRule<Option<Box<E>>, View<E, V>, Snapshot<E>>> HallOf<E, V, P> {
    /// Looks until nobody has the turn, `LOOKS` times at most. A look is a plain load, which takes
    /// the word from no other thread.
    pub(crate) fn wait_a_while(&self) {
        for look in 0..LOOKS {
            if self.table.shared.peek(0) == 0 {
                return;
            }
            if look < SPINS {
                spin(1 << look);
            } else {
                yield_now();
            }
        }
    }
}

/// Spins `times` times.
fn spin(times: u32) {
    for _ in 0..times {
        spin_loop();
    }
}
