//! Rounds whose clear tasks are found by marks on a board, without a graph.
#![tactic(auto)]

mod finding;
mod laws;
mod marking;
mod pending;
mod running;
mod searching;
mod writers;

pub use laws::{marked_laws, marked_source_laws};
pub use list_rounds::RunFault;
pub use running::run_marks;
