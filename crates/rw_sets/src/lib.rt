//! Sets of locations with the access to each, their conflicts and their merges.
#![tactic(auto)]

mod access;
mod few;
mod laws;
mod pairs;
mod rw_set;
#[cfg(test)]
mod tests;
mod walk;

pub use access::Access;
pub use laws::{conflict_laws, independence_laws, lookup_laws, merge_laws, pair_laws, within_laws};
pub use rw_set::RwSet;
