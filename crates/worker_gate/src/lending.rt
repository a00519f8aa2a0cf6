//! A seat that has the turn, with what is in the slot.

ghost use Rattle.std.specs.Prelude.{◌≡◌, []};
ghost use Rattle.std.specs.Borrow.{Lends, sem};
ghost use mir.Syntax.{named};
ghost use Rattle.worker_gate.specs.contracts.lending.Lease.{the_row};
ghost use Rattle.worker_gate.specs.Turns.{with_engine};

use crate::hall::Kept;
use crate::view::View;
use app_laws::App;
use atomic_table::{Seat as Chair, Shared, TableRule};
use cell_store::Held;
use graph_update::Engine;
use std::marker::Model;
use std::snapshot::Snapshot;

/// A seat that has the turn, with what it took out of the slot. It is spent where the turn is left.
pub struct Lease<'h, S, V: Held, K, P: TableRule<Option<Box<S>>, View<S, V>, K>> {
    pub(crate) board: &'h Shared<Option<Box<S>>, View<S, V>, K, P>,
    pub(crate) chair: Chair<Option<Box<S>>, View<S, V>>,
    pub(crate) number: u32,
    pub(crate) splits: u32,
    pub(crate) engine: Box<S>,
}

impl<'h, S, V: Held, K, P: TableRule<Option<Box<S>>, View<S, V>, K>> Model
    for Lease<'h, S, V, K, P> {
    ghost use Rattle.std.specs.Prelude.{◌≡◌, ◌≢◌, None, [], ◌∷◌};
    ghost use Rattle.worker_gate.specs.Turns.{TurnState};

    ghost Value = { TurnState S V };

    ghost view = { λ t. record { hall = t.chair.table_id; view = t.chair.me.0; engine = t.engine.value } };

    ghost invariant = { λ t. (t.chair.me.1 ≡ (0, None) ∷ []) × (t.chair.me.0.found ≢ None) × (t.chair.me.0.origin ≢ None) × (t.chair.table_id ≡ t.board.now.table_id)
        × (t.board.now.table_id.words ≡ 1) × (t.board.now.table_id.slots ≡ 1) × (t.chair.me.0.number ≡ t.number) × (t.chair.me.0.splits ≡ t.splits) };
}

/// A seat that has the turn on a hall's engine. It is spent where the turn is left.
pub type Turn<'h, 'a, A> = Lease<'h, Engine<'a, A>, <A as App>::Val, Snapshot<Engine<'a, A>>, Kept>;

impl<'h, S, V: Held, K, P: TableRule<Option<Box<S>>, View<S, V>, K>> Lease<'h, S, V, K, P> {
    /// The engine. What is done to it stays when the turn is left.
    pub fn engine(&mut self) -> &mut S
        ensures* writes_back { sem 𝓛 (Lends (the_row (record { mir = named 1; lft = [] }) S.row V.row K.row P.row P.TableRule) S.row self.entry result (with_engine self.old)) }
        ensures value { result.now ≡ self.old.engine }
    {
        &mut self.engine
    }
}
