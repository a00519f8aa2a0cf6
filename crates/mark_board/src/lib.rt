//! A board on which markers note, at each location, the least rank that came there.
#![tactic(auto)]

mod board;
mod laws;
mod least;
mod marker;
mod steps;
mod view;
mod words;

pub use board::Board;
pub use laws::free_laws;
pub use least::Least;
pub use marker::Marker;
pub use view::{Mark, View};
