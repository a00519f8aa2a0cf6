//! Bytes, lists of numbers and lines: what every reader and printer stands on.
#![tactic(auto)]

mod fault;
mod lines;
mod no_room;
mod num_list;
mod number;
mod steps;
#[cfg(test)]
mod tests;
mod text;
mod tokens;

pub use fault::{Fault, LineFault, ReadFail, first_fault_law};
pub use lines::{Line, Lines, without_comment};
pub use no_room::NoRoom;
pub use num_list::NumList;
pub use number::{NumFault, digits_law, push_i64, push_u64, read_i64, read_u64};
pub use steps::Steps;
pub use text::Text;
pub use tokens::Tokens;
