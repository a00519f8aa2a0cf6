//! Ordered applications whose tasks can rest: whether a task is in the way of another is known from one
//! location, until a task acts that has this location in its set.
#![tactic(auto)]

mod resting;

pub use resting::{Resting, rest_laws};
