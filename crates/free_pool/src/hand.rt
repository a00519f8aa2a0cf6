//! What a worker has in hand.

ghost use Rattle.std.specs.Prelude.{◌≡◌, []};

use cell_store::Held;
use graph_update::{Done, Job};
use std::alloc::Global;
use std::collections::VecDeque;
use std::snapshot::Snapshot;
use task_order::Key;

/// The jobs of a worker. Each turn fills the lists anew, in the room that earlier turns took.
#[derive(Drop)]
pub(crate) struct Hand<V: Held> {
    /// What is claimed and not yet performed, the last one claimed first.
    pub(crate) jobs: VecDeque<Job<V>>,
    /// What is performed and has not yet ended.
    pub(crate) dones: VecDeque<Done<V>>,
    /// The keys of the tasks that acted in the last turn, for contracts alone.
    pub(crate) acted: Vec<Snapshot<Key>>,
}

impl<V: Held> Hand<V> {
    /// Nothing.
    pub(crate) fn new(alloc: Global) -> Hand<V>
        ensures { result.dones.items ≡ [] }
    {
        Hand {
            jobs: VecDeque::new(alloc),
            dones: VecDeque::new(alloc),
            acted: Vec::new(alloc),
        }
    }
}
