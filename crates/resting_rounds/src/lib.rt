//! Rounds over resting tasks: a task that meets an earlier one at a location isn't looked at again before
//! a task acts whose set has that location.
#![tactic(auto)]

mod front;
mod laws;
mod looking;
mod running;
mod waiting;
mod watch_list;

pub use list_rounds::RunFault;
pub use running::run_resting;
