//! Ordered applications as small as can be, each of which does something that the others don't: what the
//! executors are tested with beside the example application.
#![tactic(auto)]

mod homeless;
mod trails;

pub use homeless::HomelessTrails;
pub use trails::{Trail, Trails};
