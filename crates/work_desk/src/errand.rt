//! Work that a kept worker has.

ghost use Rattle.std.specs.Prelude.{◌≡◌};
ghost use Rattle.work_desk.specs.Answers.{IsAnswer};

use crate::desk::Desk;
use crate::outcomes::Collected;
use crate::partner::Partner;
use crate::seats::Ticket;
use crate::steps::Deed;
use std::marker::Model;
use std::sync::Arc;

/// Work that a kept worker was given and that hasn't come back. It is seen as that work and what
/// the desk was told.
#[derive(Drop)]
pub struct Errand<T: Drop, K, D: Deed<T, K>> {
    pub(crate) desk: Arc<Desk<T, K, D>>,
    pub(crate) ticket: Ticket<T, K>,
}

impl<T: Drop, K, D: Deed<T, K>> Model for Errand<T, K, D> {
    ghost use Rattle.std.specs.Arc.{arc_value};
    ghost use Rattle.std.specs.Prelude.{◌≡◌};
    ghost use Rattle.work_desk.specs.Seats.{ErrandState};

    ghost Value = { ErrandState T K };

    ghost view = { λ e. record { key = e.ticket.key; given = e.ticket.given } };

    ghost invariant = { λ e. e.ticket.desk ≡ (arc_value e.desk).desk };
}

/// What comes of an errand.
pub enum Answer<T: Drop, K, D: Deed<T, K>> {
    /// The work was performed, with what came of it.
    Done(Partner<T, K, D>, T),
    /// No worker had taken it, so it is back as it was given.
    Back(Partner<T, K, D>, T),
    /// The worker has had it in hand for longer than one waits.
    Lost,
}

impl<T: Drop, K, D: Deed<T, K>> Errand<T, K, D> {
    /// Whether a worker has the work in hand now, so that `collect` would wait for it. That is a plain load.
    pub fn is_away(&self) -> bool {
        self.desk.is_taken()
    }

    /// What came of the work. Only a worker that has it in hand is waited for.
    pub fn collect(self) -> Answer<T, K, D>
        ensures { IsAnswer D.done self result }
    {
        let Errand { desk, ticket } = self;
        match desk.collect_at_last(ticket) {
            Collected::Done(giver, y) => Answer::Done(Partner { desk, giver }, y),
            Collected::Back(giver, x) => Answer::Back(Partner { desk, giver }, x),
            Collected::Away(_) => Answer::Lost,
        }
    }
}
