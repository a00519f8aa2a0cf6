//! Elimination over the field of two elements as an ordered application, whose sets move.
#![tactic(auto)]

mod blocks;
mod cover;
mod finals;
mod laws;
mod line;
mod lines;
mod matrix;
mod ones;
mod places;
mod resting;
mod start;
mod step;
mod touched;

pub use blocks::block_pattern;
pub use cover::LineCover;
pub use laws::elimination_laws;
pub use line::Line2;
pub use matrix::Matrix;
pub use ones::OneSet;
