//! Who sits at a desk.

use crate::view::View;
use atomic_table::Seat;
use std::marker::Model;
use std::snapshot::Snapshot;

/// Who may give work at a desk: nothing that it gave is away.
#[derive(Drop)]
pub struct Giver<T, K> {
    pub(crate) seat: Seat<Option<T>, View<T, K>>,
}

impl<T, K> Model for Giver<T, K> {
    ghost use Rattle.std.specs.Prelude.{◌≡◌, None};
    ghost use Rattle.work_desk.specs.Desk.{giving};
    ghost use Rattle.work_desk.specs.Seats.{SeatState};

    ghost Value = { SeatState K };

    ghost view = { λ g. record { desk = g.seat.table_id; key = g.seat.me.0.key } };

    ghost invariant = { λ g. g.seat.me ≡ giving g.seat.me.0.key None };
}

/// What a giver has for work that it gave.
#[derive(Drop)]
pub struct Ticket<T, K> {
    pub(crate) seat: Seat<Option<T>, View<T, K>>,
    pub(crate) given: Snapshot<T>,
}

impl<T, K> Model for Ticket<T, K> {
    ghost use Rattle.std.specs.Prelude.{◌≡◌};
    ghost use Rattle.work_desk.specs.Desk.{waiting};
    ghost use Rattle.work_desk.specs.Seats.{BusyState};

    ghost Value = { BusyState T K };

    ghost view = { λ t. record { desk = t.seat.table_id; key = t.seat.me.0.key; given = t.given.value } };

    ghost invariant = { λ t. t.seat.me ≡ waiting t.seat.me.0.key t.given.value };
}

/// Who performs work at a desk, with none in hand.
#[derive(Drop)]
pub struct Worker<T, K> {
    pub(crate) seat: Seat<Option<T>, View<T, K>>,
}

impl<T, K> Model for Worker<T, K> {
    ghost use Rattle.std.specs.Prelude.{◌≡◌};
    ghost use Rattle.work_desk.specs.Desk.{resting};
    ghost use Rattle.work_desk.specs.Seats.{SeatState};

    ghost Value = { SeatState K };

    ghost view = { λ w. record { desk = w.seat.table_id; key = w.seat.me.0.key } };

    ghost invariant = { λ w. w.seat.me ≡ resting w.seat.me.0.key };
}

/// What a worker has for work that it took.
#[derive(Drop)]
pub struct Task<T, K> {
    pub(crate) seat: Seat<Option<T>, View<T, K>>,
    pub(crate) given: Snapshot<T>,
}

impl<T, K> Model for Task<T, K> {
    ghost use Rattle.std.specs.Prelude.{◌≡◌, None};
    ghost use Rattle.work_desk.specs.Desk.{working};
    ghost use Rattle.work_desk.specs.Seats.{BusyState};

    ghost Value = { BusyState T K };

    ghost view = { λ t. record { desk = t.seat.table_id; key = t.seat.me.0.key; given = t.given.value } };

    ghost invariant = { λ t. t.seat.me ≡ working t.seat.me.0.key t.given.value None };
}
