//! How a seat takes the turn, and leaves it.

ghost use Rattle.std.specs.Prelude.{◌≡◌, ◌≢◌, [], suc, None, Some};
ghost use mathlib.Core.Option.{none};
ghost use Rattle.atomic_table.specs.Table.{step};
ghost use Rattle.graph_update.specs.Engine.{EngineState};
ghost use Rattle.worker_gate.specs.Steps.{TakesTurn, left_by};
ghost use Rattle.worker_gate.specs.Turns.{HasWaited, IsEntry, MayLeave};

use crate::entry::{Entry, EntryOf};
use crate::hall::{Hall, HallOf, Kept, Seat, SeatOf};
use crate::laws::continuing_laws;
use crate::lending::{Lease, Turn};
use crate::slot::{held, put};
use crate::steps::{Did, FreesTurnStep, TakesTurnStep};
use crate::view::View;
use app_laws::App;
use atomic_table::Seat as Chair;
use graph_update::Engine;
use std::snapshot::Snapshot;
use std::sync::Wait;

impl<'a, A: App> HallOf<Engine<'a, A>, A::Val, Kept> {
    /// Tries once to take the turn, with one compare-exchange. This waits for nobody and takes no
    /// memory.
    pub fn try_enter<'h>(&'h self, seat: Seat<'a, A>) -> Entry<'h, 'a, A>
        requires here { seat.hall ≡ self.now.id }
        ensures { IsEntry A.meaning seat.entry result }
    {
        let SeatOf {
            mut chair,
            number,
            splits,
        } = seat;
        let found = take_turn(self, &mut chair, u64::from(number) + 1);
        if found > 0 {
            return EntryOf::Busy {
                seat: SeatOf {
                    chair,
                    number,
                    splits,
                },
                holder: (found - 1) as u32,
            };
        }
        let board = &self.table.shared;
        let slot = put(board, &mut chair, None);
        EntryOf::Turn(Lease {
            board,
            chair,
            number,
            splits,
            engine: held(slot),
        })
    }

    /// Tries until it has the turn, which it may wait for. After a refusal it looks for a while before it
    /// tries again.
    pub fn enter<'h, R: Wait>(&'h self, rt: &R, mut seat: Seat<'a, A>) -> Turn<'h, 'a, A>
        requires here { seat.hall ≡ self.now.id }
        ensures { HasWaited A.meaning seat.entry result }
    {
        for _ in rt.forever() {
            match self.try_enter(seat) {
                EntryOf::Turn(turn) => return turn,
                EntryOf::Busy {
                    seat: back,
                    holder: _,
                } => seat = back,
            }
            self.wait_a_while();
        }
        unreachable!()
    }
}

/// The one step that takes the turn, where it is free.
fn take_turn<'a, A: App>(
    hall: &Hall<'a, A>,
    chair: &mut Chair<Option<Box<Engine<'a, A>>>, View<Engine<'a, A>, A::Val>>,
    mine: u64,
) -> u64
    requires here { chair.old.table_id ≡ hall.now.id }
    requires mine { mine ≡ suc chair.old.me.0.number }
    requires none { chair.old.me.1 ≡ [] }
    requires waits { chair.old.me.0.found ≡ None }
    requires lives { chair.old.me.0.origin ≢ None }
    ensures here { chair.new.table_id ≡ chair.old.table_id }
    ensures id { chair.new.id ≡ chair.old.id }
    ensures tells { TakesTurn A.meaning (step 1 0 0 mine none) chair.old.me result chair.new.me }
{
    continuing_laws::<A>();
    hall.table
        .shared
        .compare_exchange::<TakesTurnStep>(chair, 0, 0, mine)
}

impl<'h, 'a, A: App> Lease<'h, Engine<'a, A>, A::Val, Snapshot<Engine<'a, A>>, Kept> {
    /// Puts the engine back as it is now, and frees the turn. What was done in the turn is named for
    /// contracts alone. This waits for nobody and takes no memory.
    pub fn leave<P: Did<A::Val>>(self) -> Seat<'a, A>
        requires { MayLeave A.meaning self P.jobs P.ended }
        ensures hall { result.hall ≡ self.entry.hall }
        ensures view { (found : EngineState A A.Val) → self.entry.view.found ≡ Some found → result.view ≡ left_by P.jobs P.ended self.entry.view found self.entry.engine }
    {
        continuing_laws::<A>();
        let Lease {
            board,
            mut chair,
            number,
            splits,
            engine,
        } = self;
        let _none = put(board, &mut chair, Some(engine));
        board.store::<FreesTurnStep<P>>(&mut chair, 0, 0);
        SeatOf {
            chair,
            number,
            splits,
        }
    }
}
