//! How the clear tasks of a round are found.

ghost use Rattle.std.specs.Prelude.{◌≡◌, ◌+◌, ◌<◌, true, Some, [], length, slice_get, IfSome, IfNone, IfOk, OnOk};
ghost use Rattle.task_order.specs.declared.task.Task.{Task};
ghost use Rattle.cell_store.specs.Values.{homes, values_of};
ghost use Rattle.commuting.specs.Clear.{IsReady};
ghost use Rattle.commuting.specs.Rounds.{is_clear};
ghost use Rattle.commuting.specs.States.{State};
ghost use Rattle.resting_rounds.specs.Found.{IsFound};
ghost use Rattle.resting_rounds.specs.Front.{IsFront};
ghost use Rattle.resting_rounds.specs.Sets.{HasSet};
ghost use Rattle.resting_rounds.specs.Waiting.{AreWaiting, MeetsEarlierAt, first_tasks, state_in, tasks_of};

use crate::front::{Front, meeting, restart};
use crate::laws::basis;
use crate::waiting::{Waiting, still_watched};
use cell_store::Store;
use kdg_text::NoRoom;
use resting_tasks::Resting;
use std::alloc::Global;
use std::collections::VecDeque;
use task_order::Task;

/// What a look finds.
#[derive(Drop)]
pub(crate) struct Found<'t, C: Drop> {
    /// Copies of the clear tasks, in order.
    pub(crate) clear: VecDeque<Task>,
    /// Their declared sets.
    pub(crate) acting: C,
    /// The others, in order, each of which watches a location.
    pub(crate) later: Vec<Waiting<'t>>,
}

/// Nothing found.
pub(crate) fn nothing<'t, A: Resting>(app: &A, alloc: Global) -> Found<'t, A::Cover> {
    Found {
        clear: VecDeque::new(alloc),
        acting: app.no_cover(alloc),
        later: Vec::new(alloc),
    }
}

/// Looks at the pending tasks in order: each that doesn't rest any more is tested against the earlier ones.
/// `acted` has the declared sets of the tasks that acted since the last look. What was found and gathered
/// before is dropped.
pub(crate) fn look<'t, A: Resting>(
    app: &A,
    store: &Store<A::Val>,
    waiting: &[Waiting<'t>],
    acted: &A::Cover,
    front: &mut Front<A::Cover>,
    found: &mut Found<'t, A::Cover>,
) -> Result<(), NoRoom>
    requires home { store.now ≡ homes (values_of store.now) }
    requires ready { IsReady (A.meaning app.now) (state_in store.now waiting.now) }
    requires waiting { AreWaiting (A.meaning app.now) (A.covers app.now acted.now) (state_in store.now waiting.now) waiting.now }
    ensures { OnOk result (IsFound (A.meaning app.now) (A.covers app.now) (state_in store.now waiting.now) (tasks_of waiting.now) found.new) }
{
    restart(app, front);
    forget(app, found);
    for place in 0..waiting.len() {
        look_at(app, store, waiting, place, acted, front, found)?;
    }
    Ok(())
}

/// Drops what was found.
fn forget<A: Resting>(app: &A, found: &mut Found<'_, A::Cover>)
    ensures { (state : State A.Val) → IsFound (A.meaning app.now) (A.covers app.now) state [] found.new }
{
    found.clear.clear();
    app.clear(&mut found.acting);
    found.later.clear();
}

/// Looks at the pending task at a place, where those before it were looked at.
fn look_at<'t, A: Resting>(
    app: &A,
    store: &Store<A::Val>,
    waiting: &[Waiting<'t>],
    place: usize,
    acted: &A::Cover,
    front: &mut Front<A::Cover>,
    found: &mut Found<'t, A::Cover>,
) -> Result<(), NoRoom>
    requires home { store.now ≡ homes (values_of store.now) }
    requires ready { IsReady (A.meaning app.now) (state_in store.now waiting.now) }
    requires waiting { AreWaiting (A.meaning app.now) (A.covers app.now acted.now) (state_in store.now waiting.now) waiting.now }
    requires within { place < length waiting.now }
    requires front { IsFront (A.meaning app.now) (A.covers app.now) (values_of store.now) (tasks_of waiting.now) place front.old }
    requires found { IsFound (A.meaning app.now) (A.covers app.now) (state_in store.now waiting.now) (first_tasks place waiting.now) found.old }
    ensures front { OnOk result (IsFront (A.meaning app.now) (A.covers app.now) (values_of store.now) (tasks_of waiting.now) (place + 1) front.new) }
    ensures found { OnOk result (IsFound (A.meaning app.now) (A.covers app.now) (state_in store.now waiting.now) (first_tasks (place + 1) waiting.now) found.new) }
{
    basis::<A>();
    let task = waiting[place].task;
    match resting_at(app, store, waiting, place, acted, front)? {
        Some(loc) => {
            found.later.push(Waiting {
                task,
                watched: Some(loc),
            })?;
        }
        None => {
            let copy = task.copy()?;
            found.clear.push_back(copy)?;
            app.join(&mut found.acting, &front.own)?;
        }
    }
    Ok(())
}

/// The location that the task at a place watches, unless a task that acted had it; or else one where it
/// meets an earlier task. Where there is none, the front's own set is the task's.
fn resting_at<A: Resting>(
    app: &A,
    store: &Store<A::Val>,
    waiting: &[Waiting<'_>],
    place: usize,
    acted: &A::Cover,
    front: &mut Front<A::Cover>,
) -> Result<Option<u32>, NoRoom>
    requires home { store.now ≡ homes (values_of store.now) }
    requires ready { IsReady (A.meaning app.now) (state_in store.now waiting.now) }
    requires waiting { AreWaiting (A.meaning app.now) (A.covers app.now acted.now) (state_in store.now waiting.now) waiting.now }
    requires within { place < length waiting.now }
    requires front { IsFront (A.meaning app.now) (A.covers app.now) (values_of store.now) (tasks_of waiting.now) place front.old }
    ensures rests { (task : Task) → slice_get (tasks_of waiting.now) place ≡ Some task →
        IfOk result (λ met. IfSome met (MeetsEarlierAt (A.meaning app.now) (state_in store.now waiting.now) task)) }
    ensures clear { (task : Task) → slice_get (tasks_of waiting.now) place ≡ Some task →
        IfOk result (λ met. IfNone met (is_clear (A.meaning app.now) (state_in store.now waiting.now) task ≡ true)) }
    ensures own { (task : Task) → slice_get (tasks_of waiting.now) place ≡ Some task →
        IfOk result (λ met. IfNone met (HasSet (A.meaning app.now) (A.covers app.now front.new.own) (values_of store.now) task)) }
    ensures front { OnOk result (IsFront (A.meaning app.now) (A.covers app.now) (values_of store.now) (tasks_of waiting.now) (place + 1) front.new) }
{
    basis::<A>();
    let one = &waiting[place];
    let watched = still_watched(app, one.watched, acted);
    if watched.is_some() {
        return Ok(watched);
    }
    let met = meeting(app, store, waiting, place, one.task, front)?;
    Ok(met)
}
