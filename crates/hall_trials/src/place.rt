//! Halls that have begun.

ghost use Rattle.std.specs.Prelude.{◌≡◌, [], None, IfOk};
ghost use Rattle.run_laws.specs.Rest.{NoneRuns};
ghost use Rattle.hall_trials.specs.Team.{IsFirst};

use app_laws::App;
use graph_update::Engine;
use kdg_text::NoRoom;
use std::alloc::Global;
use worker_gate::{Hall, Seat};

/// A hall with its first seat.
#[derive(Drop)]
pub struct Place<'a, A: App> {
    /// The application of the hall's engine.
    pub app: &'a A,
    /// The hall.
    pub hall: Hall<'a, A>,
    /// Its first seat.
    pub seat: Seat<'a, A>,
}

/// Begins a hall over an engine, which is let go where memory runs out.
pub fn begin_hall<'a, A: App>(alloc: Global, engine: Engine<'a, A>) -> Result<Place<'a, A>, NoRoom>
    requires idle { NoneRuns engine.progress.nodes }
    requires unmarked { engine.progress.over ≡ None }
    ensures origin { IfOk result (λ place. place.hall.origin ≡ engine.entry) }
    ensures app { IfOk result (λ place. place.app.now ≡ place.hall.origin.app) }
    ensures first { IfOk result (λ place. IsFirst place.hall [] place.seat) }
    ensures whole { IfOk result (λ place. place.seat.view.splits ≡ 0) }
{
    let app = engine.app();
    match Hall::<A>::begin(alloc, engine) {
        Ok((hall, seat)) => Ok(Place { app, hall, seat }),
        Err((engine, NoRoom)) => {
            drop(engine);
            Err(NoRoom)
        }
    }
}
