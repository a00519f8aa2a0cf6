//! How one clear task acts.

ghost use Rattle.std.specs.Prelude.{◌≡◌, ◌+◌, ◌<◌, ◌≤◌, ◌++◌, ◌∷◌, Contains, List, ℕ, length, slice_get, IfErr, IfSome, IsTrue, OnOk};
ghost use Rattle.std.specs.List.{AllByRecursion};
ghost use Rattle.task_order.specs.declared.key.Key.{Key};
ghost use Rattle.task_order.specs.declared.task.Task.{Task};
ghost use Rattle.task_order.specs.TaskList.{put_all, without};
ghost use Rattle.cell_store.specs.Values.{homes, values_of};
ghost use Rattle.output_log.specs.Entries.{IsNewEntry};
ghost use Rattle.app_laws.specs.Applications.{starts_of};
ghost use Rattle.app_laws.specs.Execution.{children_from};
ghost use Rattle.commuting.specs.Clear.{IsReady};
ghost use Rattle.crew.specs.declared.answers.OverCause.TheVariants as cause;
ghost use Rattle.list_rounds.specs.Acting.{HasActed, IsTooMany};
ghost use Rattle.list_rounds.specs.Course.{state_in};
ghost use Rattle.list_rounds.specs.Rounds.{most_tasks};

use crate::RunFault;
use crate::laws::basis;
use crate::parts::RunParts;
use app_laws::{App, Child, act, put_children};
use kdg_text::Steps;
use std::sync::ledger::Ledger;
use task_order::{Body, Key, Task, TaskList, ascending_laws, put_in_laws, without_laws};

/// Has a pending task act on the cells, which are all home: it leaves the pending ones, its children come
/// in, and its text is logged. It is refused where there would be more tasks than the limit. The horizon
/// then tells of those that are pending. No contract rests on `in_front`, which is where tasks are looked for.
pub(crate) fn act_one<A: App, L: Ledger>(
    app: &A,
    task: Task,
    limit: u64,
    parts: &mut RunParts<A::Val>,
    horizon: &mut A::Horizon,
    in_front: &mut bool,
    steps: &mut Steps<L>,
) -> Result<(), RunFault>
    requires ready { IsReady (A.meaning app.now) (state_in parts.old) }
    requires home { parts.old.store ≡ homes (values_of parts.old.store) }
    requires there { Contains parts.old.pending task }
    requires new { IsNewEntry task.key parts.old.log.entries }
    requires within { parts.old.ended + length parts.old.pending ≤ limit }
    requires limited { limit ≤ most_tasks }
    requires told { A.tells app.now horizon.old parts.old.pending }
    ensures acted { OnOk result (HasActed (A.meaning app.now) parts.old task parts.new) }
    ensures told { OnOk result (A.tells app.now horizon.new parts.new.pending) }
    ensures within { OnOk result (parts.new.ended + length parts.new.pending ≤ limit) }
    ensures fault { IfErr result (IsTooMany (A.meaning app.now) parts.old task limit) }
{
    basis::<A>();
    let (children, text) = act(app, &task, &mut parts.store, steps)?;
    leave(&mut parts.pending, &task.key, in_front);
    parts.ended += 1;
    let made = children.items();
    within(
        parts.ended + parts.pending.len() as u64 + made.len() as u64,
        limit,
    )?;
    touch_end(app, horizon, &task.body, made);
    put_children(&mut parts.pending, &task.key, made)?;
    parts.log.reserve_for(&text)?;
    parts.log.put(task.key, text);
    Ok(())
}

/// A task leaves the pending ones. As long as each clear task of a round was the earliest, `in_front`, the next
/// one mostly is, and is found without a search. Once one isn't, the tasks before it stay, and none will be.
#[inline(always)]
fn leave(pending: &mut TaskList, key: &Key, in_front: &mut bool)
    ensures { pending.new ≡ without key.now pending.old }
{
    ascending_laws();
    put_in_laws();
    without_laws();
    if *in_front {
        if is_earliest(pending, key) {
            let _ = pending.take_first();
            return;
        }
        *in_front = false;
    }
    let _ = pending.remove(key);
}

/// Whether the key is that of the earliest of the tasks.
#[inline(always)]
fn is_earliest(pending: &TaskList, key: &Key) -> bool
    ensures { IsTrue result → IfSome (slice_get pending.now 0) (λ first. first.key ≡ key.now) }
{
    match pending.first() {
        Some(first) => first.key == *key,
        None => false,
    }
}

/// A task with this body ended, and its children came to the pending ones.
#[inline(always)]
fn touch_end<A: App>(app: &A, horizon: &mut A::Horizon, ended: &Body, children: &[Child])
    requires ended { (prio : ℕ) × (A.meaning app.now).is_fit_task prio ended.now }
    requires children { AllByRecursion (λ child. (A.meaning app.now).is_fit_task child.prio child.body) children.now }
    ensures { (task : Task) (parent : Key) (before after : List Task) → task.body ≡ ended.now →
        A.tells app.now horizon.old (before ++ task ∷ after) →
        A.tells app.now horizon.new (put_all (children_from parent 0 (starts_of children.now)) (before ++ after)) }
{
    app.touch(horizon, ended);
    touch_children(app, horizon, children);
}

/// Its children came.
#[inline(always)]
fn touch_children<A: App>(app: &A, horizon: &mut A::Horizon, children: &[Child])
    requires { AllByRecursion (λ child. (A.meaning app.now).is_fit_task child.prio child.body) children.now }
    ensures { (parent : Key) (tasks : List Task) → A.tells app.now horizon.old tasks →
        A.tells app.now horizon.new (put_all (children_from parent 0 (starts_of children.now)) tasks) }
{
    for child in children {
        app.touch(horizon, &child.body);
    }
}

/// Refuses a number of created tasks that is above the limit.
pub(crate) fn within(created: u64, limit: u64) -> Result<(), RunFault>
    ensures ok { OnOk result (created ≤ limit) }
    ensures over { IfErr result (λ fault. (fault ≡ cause.Budget created limit) × (limit < created)) }
{
    if created <= limit {
        Ok(())
    } else {
        Err(RunFault::Budget { created, limit })
    }
}
