//! What is known of a seat.

use cell_store::Held;
use graph_update::{Job, OverCause};
use std::collections::LinkedList;
use task_order::Key;

/// What a seat of a hall knows, for contracts alone: no value of it is made.
pub struct View<S, V: Held> {
    /// Its number.
    pub number: u64,
    /// How many seats were split from it.
    pub splits: u64,
    /// The numbers of those of them that aren't joined yet.
    pub unjoined: LinkedList<u64>,
    /// What was claimed under it and isn't finished.
    pub jobs: LinkedList<Job<V>>,
    /// The keys of the tasks that ended under it.
    pub finished: LinkedList<Key>,
    /// The mark that was set under it.
    pub over: Option<OverCause>,
    /// How often it was refused.
    pub tries: u64,
    /// Who had the turn when it was refused last.
    pub holder: u64,
    /// While it has the turn, the engine that it found.
    pub found: Option<S>,
    /// The engine that the hall began with; none where the seat was joined away.
    pub origin: Option<S>,
    /// At the seat with the number 0, how many entries have been drained.
    pub drained: u64,
}
