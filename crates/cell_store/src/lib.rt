//! A store of cells, of which a task takes those in its set and gives back those that it writes.
#![tactic(auto)]

mod bundle;
mod cell;
mod cell_list;
mod exchange;
mod few_cells;
mod held;
mod laws;
mod place;
mod store;
#[cfg(test)]
mod tests;

pub use bundle::{Bundle, Shell};
pub use cell::{Cell, Seen};
pub use held::Held;
pub use laws::{home_laws, independence_laws, location_laws, return_laws, value_laws};
pub use store::Store;
