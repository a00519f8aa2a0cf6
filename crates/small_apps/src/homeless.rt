ghost use Rattle.std.specs.Prelude.{◌≡◌, IfErr, IfOk};
ghost use Rattle.app_laws.specs.Applications.{IsEffect, IsFitTask, IsTaken};
ghost use Rattle.small_apps.specs.Trails.{trails};

use crate::{Trail, Trails};
use app_laws::{App, Effect, SetAnswer};
use cell_store::{Bundle, Store};
use kdg_text::{NoRoom, Steps};
use std::alloc::Global;
use std::sync::ledger::Ledger;
use task_order::{Body, PendingTasks, Task};

/// The two places of `Trails`, of which it is said that tasks work at home, though no way to do so is given.
/// So where a task acts at home, memory always lacks.
#[derive(Drop)]
pub struct HomelessTrails {
    trails: Trails,
}

impl HomelessTrails {
    /// The places of `trails`.
    pub fn new(trails: Trails) -> HomelessTrails {
        HomelessTrails { trails }
    }
}

impl App for HomelessTrails {
    ghost use Rattle.std.specs.Prelude.{true};
    ghost use Rattle.small_apps.specs.Lawful as lawful;

    type Val = Trail;

    type Horizon = ();

    ghost meaning = { λ app. trails };

    ghost tells = { λ app horizon tasks. Unit {0} };

    ghost has_fixed_sets = { λ app. true };

    fn cells(&self) -> u32 {
        self.trails.cells()
    }

    fn sets<L: Ledger>(
        &self,
        body: &Body,
        store: &Store<Trail>,
        steps: &mut Steps<L>,
    ) -> Result<SetAnswer, NoRoom> {
        self.trails.sets(body, store, steps)
    }

    fn sets_are_fixed(&self) -> bool {
        true
    }

    fn horizon(&self, _alloc: Global) -> Result<(), NoRoom> {
        Ok(())
    }

    fn touch(&self, _horizon: &mut (), _body: &Body) {}

    fn safe<P: PendingTasks>(&self, _task: &Task, _pending: &P, _horizon: &mut ()) -> bool {
        true
    }

    fn run(&self, task: &Task, bundle: Bundle<Trail>) -> Result<Effect<Trail>, Bundle<Trail>>
        requires fit { IsFitTask trails task.now }
        requires cells { IsTaken trails task.now bundle }
        ensures effect { IfOk result (IsEffect trails task.now bundle) }
        ensures returned { IfErr result (λ back. back ≡ bundle) }
    {
        self.trails.run(task, bundle)
    }

    fn works_at_home(&self) -> bool {
        true
    }

    ghost lawful = { λ app. lawful.are_lawful };
}
