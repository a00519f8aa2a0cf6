//! The pending tasks of a run, and what each of them watches.

ghost use Rattle.std.specs.Prelude.{◌≡◌, ◌<◌, ℕ, Some, None, IfOk};
ghost use Rattle.std.specs.List.{AllByRecursion};
ghost use Rattle.resting_rounds.specs.Waiting.{still_watched, tasks_of};

use kdg_text::NoRoom;
use resting_tasks::Resting;
use std::alloc::Global;
use task_order::{Task, TaskList};

/// A pending task, which is awake or watches a location. There it meets an earlier pending task, unless a
/// task acted since whose set had the location.
#[derive(Drop)]
pub(crate) struct Waiting<'t> {
    pub(crate) task: &'t Task,
    /// The location, where it isn't awake.
    pub(crate) watched: Option<u32>,
}

/// Copies of the pending tasks, in order.
pub(crate) fn copies(alloc: Global, pending: &TaskList) -> Result<Vec<Task>, NoRoom>
    ensures { IfOk result (λ tasks. tasks.items ≡ pending.now) }
{
    let mut tasks = Vec::with_capacity(alloc, pending.len())?;
    for task in pending.iter() {
        let copy = task.copy()?;
        tasks.push(copy)?;
    }
    Ok(tasks)
}

/// These tasks, all of which are awake.
pub(crate) fn all_awake<'t>(alloc: Global, tasks: &'t [Task]) -> Result<Vec<Waiting<'t>>, NoRoom>
    ensures tasks { IfOk result (λ waiting. tasks_of waiting.items ≡ tasks.now) }
    ensures awake { IfOk result (λ waiting. AllByRecursion (λ one. one.watched ≡ None) waiting.items) }
{
    let mut waiting = Vec::with_capacity(alloc, tasks.len())?;
    for task in tasks {
        waiting.push(Waiting {
            task,
            watched: None,
        })?;
    }
    Ok(waiting)
}

/// The location that a task watches, unless a task that acted had it.
pub(crate) fn still_watched<A: Resting>(
    app: &A,
    watched: Option<u32>,
    acted: &A::Cover,
) -> Option<u32>
    requires { (loc : ℕ) → watched ≡ Some loc → loc < (A.meaning app.now).count }
    ensures { result ≡ still_watched (A.covers app.now acted.now) watched }
{
    let loc = watched?;
    if app.has(acted, loc) { None } else { Some(loc) }
}
