//! What workers hold: the jobs that are handed to them, and what they did.
#![tactic(auto)]

mod answers;
mod job;
mod performing;

pub use answers::{Claim, FinishFault, OverCause};
pub use job::{Done, Job};
pub use performing::perform;
