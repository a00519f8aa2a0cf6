//! Rounds: all tasks that are clear are performed at once, and then all that are clear then.
#![tactic(auto)]

mod acting;
mod begun;
mod beside;
mod claiming;
mod crossing;
mod draining;
mod finishing;
mod flow;
mod hands;
pub mod laws;
mod partners;
mod performing;
mod round_lists;
mod rounds;
mod shares;
mod sharing;
mod staffing;
mod work;

pub use flow::Flow;
pub use graph_update::OverCause as RunFault;
pub use performing::perform_in_turn;
pub use rounds::{rounds_to, run_rounds};
