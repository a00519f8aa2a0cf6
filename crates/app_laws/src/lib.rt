//! What an ordered application is, and its sequential execution: always the earliest pending task.
#![tactic(auto)]

mod app;
mod child;
mod family;
mod laws;
mod listing;
mod serial_run;

pub use app::{App, Effect, SetAnswer, act_at_home, act_by_bundle, give_back};
pub use child::{Child, ChildList};
pub use family::family_laws;
pub use laws::{execution_laws, lawful, naming_laws, orderly_laws, renaming_laws};
pub use listing::starts_by_path;
pub use serial_run::{
    Finals, SerialFault, act, first_tasks, new_paths_pay, put_children, serial, store_of,
};
