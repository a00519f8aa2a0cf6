//! The engine of the kinetic dependence graph: tasks are claimed and ended in any order.
#![tactic(auto)]

mod acting;
mod agenda;
mod answers;
mod beginning;
mod claiming;
mod engine;
mod finishing;
mod laws;
mod pending;
mod ready;
mod renaming;
mod rewriting;
mod sends;
mod touching;
mod uncounted;

pub use answers::{BeginFault, Counts, Upcoming};
pub use crew::{OverCause, perform};
pub use engine::Engine;
use kdg_graph::NodeId;
pub use sends::engine_sends;

/// A claimed task of an engine with its bundle.
pub type Job<V> = crew::Job<NodeId, V>;

/// A performed task of an engine with what it did.
pub type Done<V> = crew::Done<NodeId, V>;

/// What a claim of an engine answers.
pub type Claim<V> = crew::Claim<NodeId, V>;

/// Why an engine did not end a task.
pub type FinishFault<V> = crew::FinishFault<NodeId, V>;
