//! What the declared sets of the earliest pending tasks have.

ghost use Rattle.std.specs.Prelude.{◌≡◌, ◌≤◌, ◌+◌, List, Some, length, slice_get, IfSome, IfNone, IfOk, OnOk};
ghost use Rattle.task_order.specs.declared.task.Task.{Task};
ghost use Rattle.cell_store.specs.Values.{homes, values_of};
ghost use Rattle.app_laws.specs.Applications.{AreFitTasks};
ghost use Rattle.resting_rounds.specs.Front.{HasCores, IsFront};
ghost use Rattle.resting_rounds.specs.Sets.{HasSet, IsMeeting, MeetAt};
ghost use Rattle.resting_rounds.specs.Waiting.{first_tasks, tasks_of};

use crate::laws::basis;
use crate::waiting::Waiting;
use cell_store::Store;
use kdg_text::NoRoom;
use resting_tasks::Resting;
use std::alloc::Global;
use task_order::Task;

/// A cover that grows over pending tasks, the earliest first, and how many of them it has.
#[derive(Drop)]
pub(crate) struct Reach<C: Drop> {
    cover: C,
    count: usize,
}

/// What a look has gathered of the earliest pending tasks.
#[derive(Drop)]
pub(crate) struct Front<C: Drop> {
    /// Their declared sets.
    sets: Reach<C>,
    /// Their cores.
    cores: Reach<C>,
    /// The declared set of a task under test.
    pub(crate) own: C,
}

/// A front that has gathered nothing.
pub(crate) fn new_front<A: Resting>(app: &A, alloc: Global) -> Front<A::Cover>
    ensures { (cells : List A.Val) (tasks : List Task) → IsFront (A.meaning app.now) (A.covers app.now) cells tasks 0 result }
{
    Front {
        sets: Reach {
            cover: app.no_cover(alloc),
            count: 0,
        },
        cores: Reach {
            cover: app.no_cover(alloc),
            count: 0,
        },
        own: app.no_cover(alloc),
    }
}

/// Forgets all that was gathered.
pub(crate) fn restart<A: Resting>(app: &A, front: &mut Front<A::Cover>)
    ensures { (cells : List A.Val) (tasks : List Task) → IsFront (A.meaning app.now) (A.covers app.now) cells tasks 0 front.new }
{
    app.clear(&mut front.sets.cover);
    front.sets.count = 0;
    app.clear(&mut front.cores.cover);
    front.cores.count = 0;
}

/// A location at which the task at a place meets an earlier one, where there is one: both their declared
/// sets have it. Where there is none, the task's own set is gathered too. All cells are home.
pub(crate) fn meeting<A: Resting>(
    app: &A,
    store: &Store<A::Val>,
    waiting: &[Waiting<'_>],
    place: usize,
    task: &Task,
    front: &mut Front<A::Cover>,
) -> Result<Option<u32>, NoRoom>
    requires home { store.now ≡ homes (values_of store.now) }
    requires cells { (A.meaning app.now).is_fit_cells (values_of store.now) }
    requires fit { AreFitTasks (A.meaning app.now) (tasks_of waiting.now) }
    requires there { slice_get (tasks_of waiting.now) place ≡ Some task.now }
    requires front { IsFront (A.meaning app.now) (A.covers app.now) (values_of store.now) (tasks_of waiting.now) place front.old }
    ensures answer { IfOk result (IsMeeting (A.meaning app.now) (values_of store.now) (first_tasks place waiting.now) task.now) }
    ensures own { IfOk result (λ met. IfNone met (HasSet (A.meaning app.now) (A.covers app.now front.new.own) (values_of store.now) task.now)) }
    ensures front { OnOk result (IsFront (A.meaning app.now) (A.covers app.now) (values_of store.now) (tasks_of waiting.now) (place + 1) front.new) }
{
    let met = quick_meeting(app, store, waiting, place, task, front)?;
    if met.is_some() {
        return Ok(met);
    }
    app.clear(&mut front.own);
    app.cover(&task.body, store, &mut front.own)?;
    let met = meeting_of_own(app, store, waiting, place, front)?;
    if met.is_none() {
        app.join(&mut front.sets.cover, &front.own)?;
        front.sets.count += 1;
    }
    Ok(met)
}

/// Such a location, where it is found without the task's whole set: its core, or the core of an earlier one.
fn quick_meeting<A: Resting>(
    app: &A,
    store: &Store<A::Val>,
    waiting: &[Waiting<'_>],
    place: usize,
    task: &Task,
    front: &mut Front<A::Cover>,
) -> Result<Option<u32>, NoRoom>
    requires home { store.now ≡ homes (values_of store.now) }
    requires cells { (A.meaning app.now).is_fit_cells (values_of store.now) }
    requires fit { AreFitTasks (A.meaning app.now) (tasks_of waiting.now) }
    requires there { slice_get (tasks_of waiting.now) place ≡ Some task.now }
    requires front { IsFront (A.meaning app.now) (A.covers app.now) (values_of store.now) (tasks_of waiting.now) place front.old }
    ensures met { IfOk result (λ met. IfSome met (MeetAt (A.meaning app.now) (values_of store.now) (first_tasks place waiting.now) task.now)) }
    ensures front { OnOk result (IsFront (A.meaning app.now) (A.covers app.now) (values_of store.now) (tasks_of waiting.now) place front.new) }
{
    basis::<A>();
    let core = app.core(&task.body);
    if app.has(&front.sets.cover, core) {
        return Ok(Some(core));
    }
    gather_cores(app, waiting, place, &mut front.cores)?;
    Ok(app.common(&task.body, store, &front.cores.cover))
}

/// The cores of all tasks before a place are gathered.
fn gather_cores<A: Resting>(
    app: &A,
    waiting: &[Waiting<'_>],
    place: usize,
    cores: &mut Reach<A::Cover>,
) -> Result<(), NoRoom>
    requires some_cells { (cells : List A.Val) × (A.meaning app.now).is_fit_cells cells }
    requires fit { AreFitTasks (A.meaning app.now) (tasks_of waiting.now) }
    requires within { place ≤ length waiting.now }
    requires cores { HasCores (A.meaning app.now) (A.covers app.now) (tasks_of waiting.now) place cores.old }
    ensures { OnOk result (HasCores (A.meaning app.now) (A.covers app.now) (tasks_of waiting.now) place cores.new) }
{
    basis::<A>();
    while cores.count < place {
        let task = waiting[cores.count].task;
        let core = app.core(&task.body);
        app.put(&mut cores.cover, core)?;
        cores.count += 1;
    }
    Ok(())
}

/// A location at which the front's own set meets those of the tasks before a place, where there is one. Their
/// sets are gathered until it does.
fn meeting_of_own<A: Resting>(
    app: &A,
    store: &Store<A::Val>,
    waiting: &[Waiting<'_>],
    place: usize,
    front: &mut Front<A::Cover>,
) -> Result<Option<u32>, NoRoom>
    requires home { store.now ≡ homes (values_of store.now) }
    requires cells { (A.meaning app.now).is_fit_cells (values_of store.now) }
    requires fit { AreFitTasks (A.meaning app.now) (tasks_of waiting.now) }
    requires within { place ≤ length waiting.now }
    requires front { IsFront (A.meaning app.now) (A.covers app.now) (values_of store.now) (tasks_of waiting.now) place front.old }
    ensures answer { (task : Task) → HasSet (A.meaning app.now) (A.covers app.now front.old.own) (values_of store.now) task →
        IfOk result (IsMeeting (A.meaning app.now) (values_of store.now) (first_tasks place waiting.now) task) }
    ensures all { IfOk result (λ met. IfNone met (front.new.sets.count ≡ place)) }
    ensures front { OnOk result (IsFront (A.meaning app.now) (A.covers app.now) (values_of store.now) (tasks_of waiting.now) place front.new) }
    ensures own { front.new.own ≡ front.old.own }
{
    let mut met = app.shared(&front.own, &front.sets.cover);
    while met.is_none() && front.sets.count < place {
        let task = waiting[front.sets.count].task;
        app.gather(&task.body, store, &mut front.sets.cover)?;
        front.sets.count += 1;
        met = app.shared(&front.own, &front.sets.cover);
    }
    Ok(met)
}
