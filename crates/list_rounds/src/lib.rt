//! Rounds over a plain list of pending tasks and a store: all tasks that are clear act, and then all that
//! are clear then. Which tasks are clear is found out elsewhere.
#![tactic(auto)]

mod acting;
mod laws;
mod parts;
mod renaming;
mod rounds;

pub use crew::OverCause as RunFault;
pub use rounds::ListRounds;
