//! Breadth-first levels of a directed graph by one search, level by level, which comes to just what its
//! visits come to as tasks.
#![tactic(auto)]

mod counting;
mod found;
mod laws;
mod searching;

pub use searching::search;
