//! The live graph of an ordered algorithm: the pending tasks with the sets that are recorded for
//! them, and which of them stand in the way of which.
#![tactic(auto)]

mod arrival;
mod change;
mod entry;
mod exchange;
mod graph;
mod lane;
mod laters;
pub mod laws;
mod location;
mod locations;
mod node_id;
mod node_list;
mod ordered_nodes;
mod room;
mod source_lane;
mod sources;

pub use change::{Fresh, SetChange};
pub use graph::Graph;
pub use laters::Laters;
pub use node_id::NodeId;
pub use sources::Sources;
