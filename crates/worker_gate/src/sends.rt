//! That a seat may go to another thread, and a hall be seen from there.

ghost use denote.Param.Send.{IsSend, IsSync};
ghost use denote.Ref.{NamedLft};
ghost use Rattle.graph_update.specs.contracts.engine.Engine as engine;
ghost use Rattle.worker_gate.specs.contracts.hall.HallOf as hall;
ghost use Rattle.worker_gate.specs.contracts.hall.SeatOf as seat;

use crate::view::View;
use app_laws::App;
use atomic_table::TableRule;
use graph_update::{Engine, engine_sends};
use std::snapshot::Snapshot;

/// A seat may go to another thread, where the application may be seen from there.
pub fn seat_sends<A: App + Sync>()
    ensures { (ℓ : NamedLft) → IsSend (seat.the_row (engine.the_row ℓ A.row A.Val.row A.Horizon.row A.App) A.Val.row) }
{
    engine_sends::<A>();
}

/// A hall may be seen from other threads, where the application may be.
pub fn hall_shares<
    'a,
    A: App + Sync + 'a,
    P: TableRule<Option<Box<Engine<'a, A>>>, View<Engine<'a, A>, A::Val>, Snapshot<Engine<'a, A>>>,
>()
    ensures { (ℓ : NamedLft) → IsSync (hall.the_row (engine.the_row ℓ A.row A.Val.row A.Horizon.row A.App) A.Val.row P.row P.TableRule) }
{
    engine_sends::<A>();
}
