//! What a look at a desk comes to.

use crate::seats::{Giver, Task, Ticket, Worker};

/// What a giver finds.
pub enum Collected<T, K> {
    /// The work was performed, with what came of it.
    Done(Giver<T, K>, T),
    /// No worker had taken it, so it is back as it was given.
    Back(Giver<T, K>, T),
    /// A worker has it in hand.
    Away(Ticket<T, K>),
}

/// What a worker finds.
pub enum Taken<T, K> {
    /// Work, which no other one has.
    Work(Task<T, K>, T),
    /// None yet.
    Nothing(Worker<T, K>),
    /// None, and none will come.
    Closed,
}
