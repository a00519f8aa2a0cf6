//! How a run writes its text while it goes on: what is told goes to a sink once a write pays.
#![tactic(auto)]

mod outlet;
mod text_sink;
mod told_text;

pub use outlet::Outlet;
pub use text_sink::TextSink;
