//! The command line, the top calls from words and bytes to bytes, and their answers.
#![tactic(auto)]

mod described;
mod faults;
mod inputs;
mod laws;
mod problem;
mod running;
mod searching;
mod status;
mod telling;
mod whole_run;
mod words;

pub use laws::round_count_laws;
pub use status::{Status, fault_line};
pub use telling::{run_and_tell, tell};
pub use whole_run::{run, run_in_memory, run_plain};
pub use words::{Command, Mode, Options, read_words};
