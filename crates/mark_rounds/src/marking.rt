//! How pending tasks mark their sets.

ghost use Rattle.std.specs.Prelude.{◌≡◌, ◌<◌, ◌≤◌, ◌^◌, ◌++◌, length, IfOk, OnOk};
ghost use Rattle.std.specs.List.{AllByRecursion};
ghost use Rattle.rw_sets.specs.Accesses.{IsInRange};
ghost use Rattle.cell_store.specs.Values.{homes, values_of};
ghost use Rattle.app_laws.specs.Applications.{AreFitTasks, IsFitTask, set_in};
ghost use Rattle.mark_board.specs.Ranks.{marks_from};
ghost use Rattle.mark_rounds.specs.Pending.{sets_in, tasks_in};

use app_laws::{App, SetAnswer, lawful};
use cell_store::{Store, value_laws};
use kdg_text::{NoRoom, Steps};
use mark_board::{Board, Marker};
use rw_sets::RwSet;
use std::alloc::Global;
use std::sync::ledger::Ledger;
use task_order::{Task, TaskList};

/// The tasks of a list, in order.
pub(crate) fn in_order<'p>(alloc: Global, pending: &'p TaskList) -> Result<Vec<&'p Task>, NoRoom>
    ensures { IfOk result (λ tasks. tasks_in tasks.items ≡ pending.now) }
{
    let tasks = pending.iter().collect(alloc)?;
    Ok(tasks)
}

/// The declared sets of tasks, in their order, where all cells are home. What was in the list is dropped.
pub(crate) fn find_sets<A: App, L: Ledger>(
    app: &A,
    tasks: &[&Task],
    store: &Store<A::Val>,
    sets: &mut Vec<RwSet>,
    steps: &mut Steps<L>,
) -> Result<(), NoRoom>
    requires fit { AreFitTasks (A.meaning app.now) (tasks_in tasks.now) }
    requires home { store.now ≡ homes (values_of store.now) }
    requires cells { (A.meaning app.now).is_fit_cells (values_of store.now) }
    ensures { OnOk result (sets.new.items ≡ sets_in (A.meaning app.now) (values_of store.now) tasks.now) }
{
    sets.clear();
    for rank in 0..tasks.len() {
        let set = declared_set(app, tasks[rank], store, steps)?;
        sets.push(set)?;
    }
    Ok(())
}

/// The declared set of a task, where all cells are home.
fn declared_set<A: App, L: Ledger>(
    app: &A,
    task: &Task,
    store: &Store<A::Val>,
    steps: &mut Steps<L>,
) -> Result<RwSet, NoRoom>
    requires fit { IsFitTask (A.meaning app.now) task.now }
    requires home { store.now ≡ homes (values_of store.now) }
    requires cells { (A.meaning app.now).is_fit_cells (values_of store.now) }
    ensures { IfOk result (λ set. set ≡ set_in (A.meaning app.now) (values_of store.now) task.now) }
{
    lawful::<A>();
    value_laws::<A::Val>();
    match app.sets(&task.body, store, steps)? {
        SetAnswer::Known(set) => Ok(set),
        SetAnswer::Out(_) => unreachable!(),
    }
}

/// Marks each set with its place, from 0.
pub(crate) fn mark_sets(board: &Board, marker: &mut Marker, sets: &[RwSet])
    requires here { marker.old.board ≡ board.now.id }
    requires few { length sets.now ≤ 2 ^ 32 }
    requires wide { AllByRecursion (λ set. IsInRange set board.now.cells) sets.now }
    ensures { marker.new ≡ record marker.old { marks = marker.old.marks ++ marks_from 0 sets.now } }
{
    for (rank, set) in sets.iter().enumerate() {
        board.mark(marker, rank as u32, set);
    }
}
