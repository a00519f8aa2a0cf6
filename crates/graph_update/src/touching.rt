//! What a horizon is told of the pending tasks.

ghost use Rattle.std.specs.Prelude.{◌≡◌, ℕ, Bool, List, ◌∷◌, ◌++◌, map, IfOk};
ghost use Rattle.std.specs.List.{AllByRecursion};
ghost use Rattle.task_order.specs.declared.key.Key.{Key};
ghost use Rattle.task_order.specs.declared.task.Task.{Task};
ghost use Rattle.task_order.specs.TaskList.{put_all};
ghost use Rattle.kdg_graph.specs.Rewrite.{fresh_tasks};
ghost use Rattle.app_laws.specs.Names.{HaveNames, IsNaming, renamed};
ghost use Rattle.run_laws.specs.Events.{fresh_from};

use app_laws::{App, Child};
use kdg_text::NoRoom;
use std::alloc::Global;
use task_order::Body;

/// A task with this body ended, and its children came to the pending ones.
#[inline(always)]
pub(crate) fn touch_end<A: App>(app: &A, horizon: &mut A::Horizon, ended: &Body, children: &[Child])
    requires ended { (prio : ℕ) × (A.meaning app.now).is_fit_task prio ended.now }
    requires children { AllByRecursion (λ child. (A.meaning app.now).is_fit_task child.prio child.body) children.now }
    ensures { (task : Task) (parent : Key) (before after : List Task) → task.body ≡ ended.now →
        A.tells app.now horizon.old (before ++ task ∷ after) →
        A.tells app.now horizon.new (put_all (fresh_tasks (fresh_from parent 0 children.now)) (before ++ after)) }
{
    app.touch(horizon, ended);
    touch_children(app, horizon, children);
}

/// Its children came.
#[inline(always)]
fn touch_children<A: App>(app: &A, horizon: &mut A::Horizon, children: &[Child])
    requires { AllByRecursion (λ child. (A.meaning app.now).is_fit_task child.prio child.body) children.now }
    ensures { (parent : Key) (tasks : List Task) → A.tells app.now horizon.old tasks →
        A.tells app.now horizon.new (put_all (fresh_tasks (fresh_from parent 0 children.now)) tasks) }
{
    for child in children {
        app.touch(horizon, &child.body);
    }
}

/// What is known of the pending tasks after they got names in the same order: the same, where paths tell
/// nothing else, and nothing otherwise.
pub(crate) fn horizon_under_names<A: App>(
    alloc: Global,
    app: &A,
    horizon: A::Horizon,
) -> Result<A::Horizon, NoRoom>
    ensures { IfOk result (λ now. (tasks : List Task) (name : List ℕ → List ℕ) (has_name : List ℕ → Bool) →
        IsNaming name has_name → HaveNames has_name tasks → A.tells app.now horizon tasks → A.tells app.now now (map (renamed name) tasks)) }
{
    if app.ignores_paths() {
        Ok(horizon)
    } else {
        app.horizon(alloc)
    }
}
