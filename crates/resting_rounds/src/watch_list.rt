//! The pending tasks of a run, from one look to the next.

ghost use Rattle.std.specs.Prelude.{◌≡◌, IfOk, OnOk};
ghost use Rattle.task_order.specs.declared.task.Task.{Task};
ghost use Rattle.commuting.specs.States.{State};
ghost use Rattle.resting_rounds.specs.Found.{IsFound};
ghost use Rattle.resting_rounds.specs.Waiting.{AreWaiting};

use crate::front::{Front, new_front};
use crate::looking::{Found, look, nothing};
use crate::waiting::{Waiting, all_awake};
use kdg_text::NoRoom;
use list_rounds::ListRounds;
use resting_tasks::Resting;
use std::alloc::Global;
use std::mem::swap;
use task_order::Task;

/// The pending tasks of a run between two rounds, and what a look at them works with.
#[derive(Drop)]
pub(crate) struct WatchList<'t, C: Drop> {
    /// The tasks in order, and what each of them watches.
    waiting: Vec<Waiting<'t>>,
    /// The declared sets of the tasks that acted since the last look.
    acted: C,
    /// What the last look has gathered.
    front: Front<C>,
    /// What it found.
    pub(crate) found: Found<'t, C>,
}

impl<'t, C: Drop> WatchList<'t, C> {
    /// After the clear tasks of the last look acted, the others are the pending ones.
    pub(crate) fn go_on(&mut self)
        ensures waiting { self.new.waiting ≡ self.old.found.later }
        ensures acted { self.new.acted ≡ self.old.found.acting }
    {
        swap(&mut self.waiting, &mut self.found.later);
        swap(&mut self.acted, &mut self.found.acting);
    }
}

/// A list of these tasks, all of which are awake.
pub(crate) fn watch_list<'t, A: Resting>(
    app: &A,
    alloc: Global,
    tasks: &'t [Task],
) -> Result<WatchList<'t, A::Cover>, NoRoom>
    ensures { (state : State A.Val) → tasks.now ≡ state.pending →
        IfOk result (λ list. AreWaiting (A.meaning app.now) (A.covers app.now list.acted) state list.waiting.items) }
{
    let waiting = all_awake(alloc, tasks)?;
    Ok(WatchList {
        waiting,
        acted: app.no_cover(alloc),
        front: new_front(app, alloc),
        found: nothing(app, alloc),
    })
}

/// Looks at the pending tasks of a run, and finds the clear ones. What was found before is dropped.
pub(crate) fn find_clear<A: Resting>(
    run: &ListRounds<'_, A>,
    list: &mut WatchList<'_, A::Cover>,
) -> Result<(), NoRoom>
    requires { AreWaiting (A.meaning run.now.app) (A.covers run.now.app list.old.acted) run.now.state list.old.waiting.items }
    ensures { OnOk result (IsFound (A.meaning run.now.app) (A.covers run.now.app) run.now.state run.now.state.pending list.new.found) }
{
    let app = run.app();
    let store = run.store();
    look(
        app,
        store,
        &list.waiting,
        &list.acted,
        &mut list.front,
        &mut list.found,
    )
}
