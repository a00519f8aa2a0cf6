//! A desk, and what its giver and its worker do there.

ghost use Rattle.std.specs.Prelude.{◌≡◌, [], IfOk, IsSome, Some};
ghost use Rattle.work_desk.specs.Desk.{seen};
ghost use Rattle.work_desk.specs.Outcomes.{IsCollected, IsTaken};
ghost use Rattle.work_desk.specs.declared.view.Part.TheVariants.{Shut};

use crate::outcomes::{Collected, Taken};
use crate::seats::{Giver, Task, Ticket, Worker};
use crate::steps::{
    CloseStep, CollectStep, Deed, FinishStep, Kept, LayStep, OpenStep, RevokeStep, Seats, TakeStep,
};
use crate::view::View;
use atomic_table::{Seat, Table};
use kdg_text::NoRoom;
use std::alloc::Global;
use std::marker::Model;
use std::snapshot::Snapshot;

/// Nothing is given.
const IDLE: u64 = 0;

/// Something was given, which no worker has taken.
pub(crate) const LAID: u64 = 1;

/// A worker has it in hand.
pub(crate) const TAKEN: u64 = 2;

/// What came of it lies there.
const FINISHED: u64 = 3;

/// Nothing more is given.
pub(crate) const CLOSED: u64 = 4;

/// A place where one gives work, and another takes it and puts back what comes of it.
#[derive(Drop)]
pub struct Desk<T: Drop, K, D: Deed<T, K>> {
    pub(crate) table: Table<Option<T>, View<T, K>, K, Kept<D>, Global>,
}

impl<T: Drop, K, D: Deed<T, K>> Model for Desk<T, K, D> {
    ghost use Rattle.std.specs.Prelude.{◌≡◌};
    ghost use Rattle.work_desk.specs.Seats.{SeatState};

    ghost Value = { SeatState K };

    ghost view = { λ d. record { desk = d.table.shared.table_id; key = d.table.shared.key } };

    ghost invariant = { λ d. (d.table.shared.table_id.words ≡ 1) × (d.table.shared.table_id.slots ≡ 1) };
}

impl<T: Drop, K, D: Deed<T, K>> Desk<T, K, D> {
    /// A desk with nothing given, and who sits there.
    pub fn new(alloc: Global, key: &K) -> Result<(Desk<T, K, D>, Giver<T, K>, Worker<T, K>), NoRoom>
        ensures desk { IfOk result (λ made. made.0.key ≡ key.now) }
        ensures giver { IfOk result (λ made. made.1 ≡ made.0) }
        ensures worker { IfOk result (λ made. made.2 ≡ made.0) }
    {
        let mut slots = Vec::new(alloc);
        slots.push(None)?;
        match Table::new(alloc, &[IDLE], slots, key) {
            Ok((table, seat)) => Ok(opened(table, seat)),
            Err(_) => Err(NoRoom),
        }
    }

    /// Gives work. This waits for nobody and takes no memory.
    pub fn give(&self, giver: Giver<T, K>, x: T) -> Ticket<T, K>
        requires here { giver.desk ≡ self.now.desk }
        requires may { D.may giver.key x }
        ensures { result ≡ record { desk = giver.desk; key = giver.key; given = x } }
    {
        let Giver { mut seat } = giver;
        let given = Snapshot::of(&x);
        let board = &self.table.shared;
        let _none = board.exchange(&mut seat, 0, Some(x));
        board.store::<LayStep>(&mut seat, 0, LAID);
        Ticket { seat, given }
    }

    /// Takes what came of the work, or the work itself where no worker has taken it. This waits for
    /// nobody and takes no memory.
    pub fn collect(&self, ticket: Ticket<T, K>) -> Collected<T, K>
        requires here { ticket.desk ≡ self.now.desk }
        ensures { IsCollected D.done ticket result }
    {
        let Ticket { mut seat, given } = ticket;
        let board = &self.table.shared;
        if board.compare_exchange::<CollectStep<D>>(&mut seat, 0, FINISHED, IDLE) == FINISHED {
            let slot = board.exchange(&mut seat, 0, None);
            return Collected::Done(Giver { seat }, full(slot));
        }
        if board.compare_exchange::<RevokeStep>(&mut seat, 0, LAID, IDLE) == LAID {
            let slot = board.exchange(&mut seat, 0, None);
            return Collected::Back(Giver { seat }, full(slot));
        }
        Collected::Away(Ticket { seat, given })
    }

    /// Takes work, if there is some. This waits for nobody and takes no memory.
    pub fn try_take(&self, worker: Worker<T, K>) -> Taken<T, K>
        requires here { worker.desk ≡ self.now.desk }
        ensures { IsTaken D.may worker result }
    {
        let Worker { mut seat } = worker;
        let board = &self.table.shared;
        let found = board.compare_exchange::<TakeStep<D>>(&mut seat, 0, LAID, TAKEN);
        if found == LAID {
            let slot = board.exchange(&mut seat, 0, None);
            let x = full(slot);
            let given = Snapshot::of(&x);
            return Taken::Work(Task { seat, given }, x);
        }
        if found == CLOSED {
            return Taken::Closed;
        }
        Taken::Nothing(Worker { seat })
    }

    /// Puts back what came of the work. This waits for nobody and takes no memory.
    pub fn finish(&self, task: Task<T, K>, y: T) -> Worker<T, K>
        requires here { task.desk ≡ self.now.desk }
        requires done { D.done task.key task.given y }
        ensures { result ≡ record { desk = task.desk; key = task.key } }
    {
        let Task { mut seat, given: _ } = task;
        let board = &self.table.shared;
        let _none = board.exchange(&mut seat, 0, Some(y));
        board.store::<FinishStep>(&mut seat, 0, FINISHED);
        Worker { seat }
    }

    /// Tells the worker that nothing more comes. This waits for nobody and takes no memory.
    pub fn close(&self, giver: Giver<T, K>)
        requires here { giver.desk ≡ self.now.desk }
    {
        let Giver { mut seat } = giver;
        self.table.shared.store::<CloseStep>(&mut seat, 0, CLOSED);
    }
}

/// A desk over a new table with one empty slot, and who sits there.
fn opened<T: Drop, K, D: Deed<T, K>>(
    table: Table<Option<T>, View<T, K>, K, Kept<D>, Global>,
    mut seat: Seat<Option<T>, View<T, K>>,
) -> (Desk<T, K, D>, Giver<T, K>, Worker<T, K>)
    requires counts { (table.shared.table_id.words ≡ 1) × (table.shared.table_id.slots ≡ 1) }
    requires here { seat.table_id ≡ table.shared.table_id }
    requires shut { seat.me ≡ (seen table.shared.key Shut, []) }
    ensures desk { result.0 ≡ record { desk = table.shared.table_id; key = table.shared.key } }
    ensures giver { result.1 ≡ result.0 }
    ensures worker { result.2 ≡ result.0 }
{
    table.shared.load::<OpenStep>(&mut seat, 0);
    let other = table.shared.split_seat::<Seats>(&mut seat);
    (Desk { table }, Giver { seat }, Worker { seat: other })
}

/// What is in a full slot.
fn full<T>(slot: Option<T>) -> T
    requires { IsSome slot }
    ensures { slot ≡ Some result }
{
    match slot {
        Some(x) => x,
        None => unreachable!(),
    }
}
