//! Reads where matrices over the field of two elements have their ones, in the Matrix Market
//! format, as it is used for sparse matrices.
#![tactic(auto)]

mod banner;
mod faults;
mod line_form;
mod pattern;
mod plain_line;
mod reader;

pub use pattern::{Pattern, PlaceList};
pub use reader::read_mtx;
