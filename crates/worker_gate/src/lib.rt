//! Workers that share one engine: a hall, in which one seat at a time has the turn on it.
#![tactic(auto)]

mod entry;
mod hall;
mod laws;
mod lending;
mod pausing;
mod post;
mod sends;
mod slot;
mod steps;
mod turn;
mod view;

pub use entry::{Entry, EntryOf};
pub use hall::{Hall, HallOf, Kept, Seat, SeatOf};
pub use laws::{continuing_laws, leaving_laws, turn_laws};
pub use lending::{Lease, Turn};
pub use post::{Post, post_sends};
pub use sends::{hall_shares, seat_sends};
pub use steps::Did;
pub use view::View;
