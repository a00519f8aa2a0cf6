//! A hall and its seats.

ghost use Rattle.std.specs.Prelude.{◌≡◌, ◌+◌, ◌<◌, ◌^◌, Contains, [], ◌∷◌, None, Some, IfOk, IfErr};
ghost use Rattle.std.specs.declared.alloc.Global.{Global};
ghost use Rattle.std.specs.declared.boxed.Box.{Box};
ghost use Rattle.graph_update.specs.Engine.{EngineState};
ghost use Rattle.run_laws.specs.Rest.{NoneRuns};
ghost use Rattle.worker_gate.specs.Fits.{Fits, nothing_since};
ghost use Rattle.worker_gate.specs.Hall.{first_view, sum_of};
ghost use Rattle.worker_gate.specs.Steps.{first_half, second_half, both_views};

use crate::laws::continuing_laws;
use crate::slot::held;
use crate::steps::Seats;
use crate::view::View;
use app_laws::App;
use atomic_table::{Refused, Seat as Chair, Table, TableRule};
use cell_store::Held;
use graph_update::Engine;
use kdg_text::NoRoom;
use run_laws::rest_laws;
use std::alloc::{AllocFailed, Global};
use std::marker::Model;
use std::snapshot::Snapshot;

/// What a hall keeps between any two steps.
pub struct Kept;

impl<'a, A: App> TableRule<
    Option<Box<Engine<'a, A>>>,
    View<Engine<'a, A>, A::Val>,
    Snapshot<Engine<'a, A>>,
> for Kept {
    ghost use Rattle.worker_gate.specs.Hall.{HallRule, first_view};

    ghost holds = { λ key. HallRule A.meaning key.value };

    ghost first = { λ key. first_view key.value };
}

/// Something that workers share: the one whose seat has the turn works on it.
#[derive(Drop)]
pub struct HallOf<E: Drop, V: Held, P: TableRule<Option<Box<E>>, View<E, V>, Snapshot<E>>> {
    pub(crate) table: Table<Option<Box<E>>, View<E, V>, Snapshot<E>, P, Global>,
}

impl<E: Drop, V: Held, P: TableRule<Option<Box<E>>, View<E, V>, Snapshot<E>>> Model
    for HallOf<E, V, P> {
    ghost use Rattle.std.specs.Prelude.{◌≡◌};
    ghost use Rattle.worker_gate.specs.Turns.{HallState};

    ghost Value = { HallState E };

    ghost view = { λ h. record { id = h.table.shared.table_id; origin = h.table.shared.key.value } };

    ghost invariant = { λ h. (h.table.shared.table_id.words ≡ 1) × (h.table.shared.table_id.slots ≡ 1) };
}

/// Who may take the turn in a hall.
#[derive(Drop)]
pub struct SeatOf<E, V: Held> {
    pub(crate) chair: Chair<Option<Box<E>>, View<E, V>>,
    pub(crate) number: u32,
    pub(crate) splits: u32,
}

impl<E, V: Held> Model for SeatOf<E, V> {
    ghost use Rattle.std.specs.Prelude.{◌≡◌, ◌≢◌, [], None};
    ghost use Rattle.worker_gate.specs.Turns.{SeatState};

    ghost Value = { SeatState E V };

    ghost view = { λ s. record { hall = s.chair.table_id; view = s.chair.me.0 } };

    ghost invariant = { λ s. (s.chair.me.1 ≡ []) × (s.chair.me.0.found ≡ None) × (s.chair.me.0.origin ≢ None)
        × (s.chair.me.0.number ≡ s.number) × (s.chair.me.0.splits ≡ s.splits) };
}

/// An engine that workers share.
pub type Hall<'a, A> = HallOf<Engine<'a, A>, <A as App>::Val, Kept>;

/// Who may take the turn on a hall's engine.
pub type Seat<'a, A> = SeatOf<Engine<'a, A>, <A as App>::Val>;

impl<'a, A: App> HallOf<Engine<'a, A>, A::Val, Kept> {
    /// A hall with one seat, which has the number 0. After `NoRoom` the engine comes back as it was.
    pub fn begin(
        alloc: Global,
        engine: Engine<'a, A>,
    ) -> Result<(Hall<'a, A>, Seat<'a, A>), (Engine<'a, A>, NoRoom)>
        requires idle { NoneRuns engine.progress.nodes }
        requires unmarked { engine.progress.over ≡ None }
        ensures hall { IfOk result (λ made. made.0.origin ≡ engine.entry) }
        ensures seat { IfOk result (λ made. made.1 ≡ record { hall = made.0.id; view = first_view engine.entry }) }
        ensures returned { IfErr result (λ back. back.0 ≡ engine.entry) }
    {
        continuing_laws::<A>();
        rest_laws::<A>();
        let _pending = engine.graph();
        let origin = Snapshot::of(&engine);
        let boxed = match Box::new(alloc, engine) {
            Ok(boxed) => boxed,
            Err(AllocFailed { value }) => return Err((value, NoRoom)),
        };
        match full_slot(alloc, boxed) {
            Ok(slots) => opened(alloc, slots, &origin),
            Err(boxed) => Err((Box::into_inner(boxed), NoRoom)),
        }
    }

    /// One more seat, with the next number. This waits for nobody and takes no memory.
    pub fn split(&self, seat: &mut Seat<'a, A>) -> Seat<'a, A>
        requires here { seat.old.hall ≡ self.now.id }
        requires first { seat.old.view.number ≡ 0 }
        requires few { seat.old.view.splits + 2 < 2 ^ 32 }
        ensures left { seat.new ≡ record seat.old { view = first_half seat.old.view } }
        ensures right { result ≡ record { hall = self.now.id; view = second_half seat.old.view } }
    {
        let chair = self.table.shared.split_seat::<Seats>(&mut seat.chair);
        seat.splits += 1;
        SeatOf {
            chair,
            number: seat.splits,
            splits: 0,
        }
    }

    /// The seat takes over what the other one has, which was split from it. This waits for nobody and
    /// takes no memory.
    pub fn join(&self, seat: &mut Seat<'a, A>, other: Seat<'a, A>)
        requires here { seat.old.hall ≡ self.now.id }
        requires other_here { other.hall ≡ self.now.id }
        requires unjoined { Contains seat.old.view.unjoined other.view.number }
        ensures { seat.new ≡ record seat.old { view = both_views seat.old.view other.entry.view } }
    {
        continuing_laws::<A>();
        let SeatOf {
            chair,
            number: _,
            splits: _,
        } = other;
        self.table.shared.join_seat::<Seats>(&mut seat.chair, chair);
    }

    /// Gives the engine back, once all seats are joined. This waits for nobody and takes no memory.
    pub fn close(self, seat: Seat<'a, A>) -> Engine<'a, A>
        requires here { seat.hall ≡ self.id }
        requires first { seat.view.number ≡ 0 }
        requires alone { seat.view.unjoined ≡ [] }
        ensures { Fits A.meaning self.entry.origin result (sum_of (seat.entry.view ∷ [])) }
    {
        continuing_laws::<A>();
        let HallOf { table } = self;
        let SeatOf {
            chair,
            number: _,
            splits: _,
        } = seat;
        let mut closed = table.close_with(chair);
        let slot = closed.take(0);
        closed.free();
        Box::into_inner(held(slot))
    }
}

/// A list of one full slot, or what should lie in it.
fn full_slot<E>(alloc: Global, boxed: Box<E>) -> Result<Vec<Option<Box<E>>>, Box<E>>
    ensures full { IfOk result (λ slots. slots.items ≡ Some boxed ∷ []) }
    ensures returned { IfErr result (λ back. back ≡ boxed) }
{
    let mut slots = Vec::new(alloc);
    match slots.push(Some(boxed)) {
        Ok(()) => Ok(slots),
        Err(AllocFailed { value }) => {
            slots.destroy_empty();
            Err(held(value))
        }
    }
}

/// A hall over a full slot, with its first seat.
fn opened<'a, A: App>(
    alloc: Global,
    slots: Vec<Option<Box<Engine<'a, A>>>>,
    origin: &Snapshot<Engine<'a, A>>,
) -> Result<(Hall<'a, A>, Seat<'a, A>), (Engine<'a, A>, NoRoom)>
    requires full { (b : Box (EngineState A A.Val) Global) × (slots.items ≡ Some b ∷ []) × (b.value ≡ origin.now.value) }
    requires fits { Fits A.meaning origin.now.value origin.now.value (nothing_since origin.now.value.progress) }
    ensures hall { IfOk result (λ made. made.0.origin ≡ origin.now.value) }
    ensures seat { IfOk result (λ made. made.1 ≡ record { hall = made.0.id; view = first_view origin.now.value }) }
    ensures returned { IfErr result (λ back. back.0 ≡ origin.now.value) }
{
    match Table::new(alloc, &[0], slots, origin) {
        Ok((table, chair)) => Ok((
            HallOf { table },
            SeatOf {
                chair,
                number: 0,
                splits: 0,
            },
        )),
        Err(Refused { mut slots }) => {
            let slot = slots.pop();
            slots.destroy_empty();
            match slot {
                Some(slot) => Err((Box::into_inner(held(slot)), NoRoom)),
                None => unreachable!(),
            }
        }
    }
}
