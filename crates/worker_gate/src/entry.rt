//! What a try to take the turn comes to.

use crate::hall::Seat;
use crate::lending::Turn;

/// A turn, or the seat again.
pub enum EntryOf<T, S> {
    /// The seat has the turn.
    Turn(T),
    /// Another seat has it.
    Busy {
        /// The seat that tried.
        seat: S,
        /// The number of the one that has the turn.
        holder: u32,
    },
}

/// What a try to take the turn of a hall comes to.
pub type Entry<'h, 'a, A> = EntryOf<Turn<'h, 'a, A>, Seat<'a, A>>;
