//! Breadth-first levels of a directed graph, as an application made of a stored closure.
#![tactic(auto)]

mod edges;
mod laws;
mod level;
mod visits;
mod walk;

pub use laws::levels_are_shortest;
pub use level::Level;
pub use visits::{MOST_LEVEL, push_visit, visit};
pub use walk::Walk;
