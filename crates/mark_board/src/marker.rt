//! Who may mark a board.

use crate::view::View;
use atomic_table::Seat;
use std::marker::Model;

/// A seat at a board. Contracts see it as its number, the markers that were split from it, and its
/// marks of this round.
#[derive(Drop)]
pub struct Marker {
    pub(crate) seat: Seat<(), View>,
    pub(crate) renewals: u32,
}

impl Model for Marker {
    ghost use Rattle.std.specs.Prelude.{◌≡◌, [], false};
    ghost use Rattle.mark_board.specs.Markers.{MarkerState};
    ghost use Rattle.mark_board.specs.Words.{AreOfLastRounds, of_round};

    ghost Value = { MarkerState };

    ghost view = { λ m. record {
      board = record { table = m.seat.table_id; renewals = m.renewals };
      number = m.seat.me.0.number;
      splits = m.seat.me.0.splits;
      unjoined = m.seat.me.0.unjoined;
      marks = of_round m.renewals m.seat.me.0.marks;
    } };

    ghost invariant = { λ m. (m.seat.me.1 ≡ []) × (m.seat.me.0.spent ≡ false) × AreOfLastRounds m.renewals m.seat.me.0.marks };
}
