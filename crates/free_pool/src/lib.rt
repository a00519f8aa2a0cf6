//! Workers without rounds: each claims tasks as soon as it has performed and ended others.
#![tactic(auto)]

mod acting;
mod backlog;
mod bell;
mod beside;
mod free;
mod hand;
mod lead;
mod lead_turn;
mod pick;
mod plan;
mod stream;
mod team;
mod turns;
mod worker;

pub use free::run_free;
pub use source_pool::{Flow, RunFault};
pub use stream::free_to;
