//! How the pending tasks of a run get short paths.

ghost use Rattle.std.specs.Prelude.{◌≡◌, ◌<◌, ◌^◌, [], length, IfOk, IsTrue};
ghost use Rattle.output_log.specs.Entries.{with_texts};
ghost use Rattle.app_laws.specs.Applications.{IgnoresNames, PathsAreIgnored};
ghost use Rattle.app_laws.specs.Order.{AreApart, Pairwise};
ghost use Rattle.list_rounds.specs.Renaming.{IsRenumbered};

use crate::parts::RunParts;
use app_laws::{App, first_tasks, new_paths_pay, starts_by_path};
use cell_store::Held;
use kdg_text::NoRoom;
use outer_edge::Gate;
use output_log::Log;
use std::alloc::Global;
use task_order::TaskList;

/// Whether the pending tasks are to get new paths, where `ended` tasks had ended when they last got some.
/// So it is only where nobody sees a path: the application ignores them, and the gate is open. Then enough
/// tasks have ended since that new paths take little beside them, the earliest one's path is long, and no
/// text is logged that waits for a task.
pub(crate) fn needs_new_paths<A: App, G: Gate>(
    app: &A,
    gate: &G,
    parts: &RunParts<A::Val>,
    ended: u64,
) -> bool
    ensures ignored { IsTrue result → PathsAreIgnored (A.meaning app.now) }
    ensures horizon { IsTrue result → (horizon : A.Horizon) → IgnoresNames (A.tells app.now horizon) }
    ensures silent { IsTrue result → with_texts parts.now.log.entries ≡ [] }
{
    new_paths_pay(parts.ended.saturating_sub(ended), parts.pending.len())
        && gate.is_open()
        && app.ignores_paths()
        && begins_long(&parts.pending)
        && parts.log.is_silent()
}

/// Whether the earliest task's path is long.
fn begins_long(pending: &TaskList) -> bool {
    match pending.first() {
        Some(task) => task.key.path.is_long(),
        None => false,
    }
}

/// The pending tasks get paths of one number: they are numbered in the order of their paths, as first tasks
/// are. What is logged is forgotten.
pub(crate) fn renumbered<V: Held>(alloc: Global, parts: RunParts<V>) -> Result<RunParts<V>, NoRoom>
    requires few { length parts.pending < 2 ^ 32 }
    requires apart { Pairwise (λ task other. AreApart task.key.path other.key.path) parts.pending }
    ensures { IfOk result (IsRenumbered parts) }
{
    let RunParts {
        store,
        mut pending,
        log: _,
        text,
        ended,
    } = parts;
    let mut tasks = Vec::with_capacity(alloc, pending.len())?;
    while let Some(task) = pending.take_first() {
        tasks.push(task)?;
    }
    let first = starts_by_path(tasks)?;
    let named = first_tasks(alloc, &first)?;
    Ok(RunParts {
        store,
        pending: named,
        log: Log::new(alloc),
        text,
        ended,
    })
}
