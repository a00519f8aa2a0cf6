//! The decks of the trials.

pub use worked_decks::{C17, RING};
