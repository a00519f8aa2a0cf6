//! What the tasks wrote, kept in the order of their keys.
#![tactic(auto)]

mod block;
mod blocks;
mod laws;
mod log;
mod seen_entries;

pub use laws::{join_laws, part_laws, put_laws};
pub use log::Log;
