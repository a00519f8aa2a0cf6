//! What each step on the table of a hall tells.

ghost use Rattle.std.specs.Prelude.{List, []};
ghost use Rattle.task_order.specs.declared.key.Key.{Key};
ghost use Rattle.run_laws.specs.Jobs.{Job};
ghost use Rattle.worker_gate.specs.Steps.{TakesTurn, FreesTurn, first_half, second_half, both_views, spent};

use crate::view::View;
use app_laws::App;
use atomic_table::{Join, Play, Split};
use graph_update::Engine;
use std::marker::{Brand, PhantomData};

/// What a turn leaves to its seat, for contracts alone.
pub trait Did<V> {
    /// The jobs that the seat then has.
    ghost jobs: { List (Job V) };

    /// The keys of the tasks that ended in the turn.
    ghost ended: { List Key };
}

impl<V> Did<V> for Brand {
    ghost jobs = { [] };

    ghost ended = { [] };
}

/// The turn is taken, or it isn't since another seat has it.
pub(crate) struct TakesTurnStep;

impl<'a, A: App> Play<Option<Box<Engine<'a, A>>>, View<Engine<'a, A>, A::Val>> for TakesTurnStep {
    ghost then = { TakesTurn A.meaning };
}

/// The turn is free again.
pub(crate) struct FreesTurnStep<P> {
    did: PhantomData<P>,
}

impl<'a, A: App, P: Did<A::Val>> Play<Option<Box<Engine<'a, A>>>, View<Engine<'a, A>, A::Val>>
    for FreesTurnStep<P> {
    ghost then = { FreesTurn P.jobs P.ended };
}

/// A seat is split in two, or two are joined.
pub(crate) struct Seats;

impl<'a, A: App> Split<View<Engine<'a, A>, A::Val>> for Seats {
    ghost left = { first_half };

    ghost right = { second_half };
}

impl<'a, A: App> Join<View<Engine<'a, A>, A::Val>> for Seats {
    ghost both = { both_views };

    ghost spent = { spent };
}
