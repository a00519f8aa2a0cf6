//! Applications made of a stored operator, such as a closure, a table of sets and a lookahead.
#![tactic(auto)]

mod deed;
mod hook;
mod hook_app;

pub use deed::Deed;
pub use hook::Hook;
pub use hook_app::HookApp;
