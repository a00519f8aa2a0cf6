//! How the clear tasks of a round are found.

ghost use Rattle.std.specs.Prelude.{◌≡◌, ◌<◌, ◌≤◌, ◌^◌, Some, length, slice_get, IfOk, OnOk};
ghost use Rattle.cell_store.specs.Values.{homes, values_of};
ghost use Rattle.commuting.specs.Clear.{IsReady};
ghost use Rattle.commuting.specs.Rounds.{clear_tasks, is_clear};
ghost use Rattle.commuting.specs.States.{state_of};
ghost use Rattle.mark_rounds.specs.Board.{IsAlone, IsFresh};
ghost use Rattle.mark_rounds.specs.Pending.{HaveMarked, marked_state, state_in, tasks_in};
ghost use Rattle.mark_rounds.specs.Writers.{HaveFirstWriters};

use crate::laws::basis;
use crate::marking::{find_sets, in_order, mark_sets};
use crate::pending::MarkedTasks;
use crate::writers::note_writers;
use app_laws::App;
use cell_store::Store;
use kdg_text::{NoRoom, Steps};
use mark_board::{Board, Marker};
use rw_sets::RwSet;
use std::alloc::Global;
use std::collections::VecDeque;
use std::sync::ledger::Ledger;
use task_order::{Task, TaskList};

/// What the search for clear tasks keeps from one round to the next, so that its memory is used again.
#[derive(Drop)]
pub(crate) struct RoundLists {
    /// The declared sets of the pending tasks.
    sets: Vec<RwSet>,
    /// At each location that one of these writes, the place of the first that does.
    writers: Vec<u32>,
    /// Copies of the clear tasks.
    pub(crate) clear: VecDeque<Task>,
}

impl RoundLists {
    /// Empty lists for the locations below `cells`.
    pub(crate) fn new(alloc: Global, cells: u32) -> Result<RoundLists, NoRoom>
        ensures { IfOk result (λ lists. length lists.writers.items ≡ cells) }
    {
        Ok(RoundLists {
            sets: Vec::new(alloc),
            writers: vec![in alloc; 0; cells as usize]?,
            clear: VecDeque::new(alloc),
        })
    }
}

/// Finds the clear tasks of a round: each pending task marks its declared set with its place in their
/// order, and those whose places are free and that are safe are clear. The board is to have no mark. What was in
/// the lists is dropped.
pub(crate) fn find_clear<A: App, L: Ledger>(
    app: &A,
    pending: &TaskList,
    store: &Store<A::Val>,
    board: &Board,
    marker: &mut Marker,
    lists: &mut RoundLists,
    horizon: &mut A::Horizon,
    steps: &mut Steps<L>,
) -> Result<(), NoRoom>
    requires home { store.now ≡ homes (values_of store.now) }
    requires ready { IsReady (A.meaning app.now) (state_of (values_of store.now) pending.now) }
    requires few { length pending.now ≤ 2 ^ 32 }
    requires fresh { IsFresh (A.meaning app.now).count board.now marker.old }
    requires told { A.tells app.now horizon.old pending.now }
    requires wide { length lists.old.writers.items ≡ (A.meaning app.now).count }
    ensures found { OnOk result (lists.new.clear.items ≡ clear_tasks (A.meaning app.now) (state_of (values_of store.now) pending.now)) }
    ensures alone { OnOk result (IsAlone (A.meaning app.now).count board.now marker.new) }
    ensures told { OnOk result (A.tells app.now horizon.new pending.now) }
    ensures wide { length lists.new.writers.items ≡ length lists.old.writers.items }
{
    basis::<A>();
    let tasks = in_order(*lists.sets.allocator(), pending)?;
    find_sets(app, &tasks, store, &mut lists.sets, steps)?;
    mark_sets(board, marker, &lists.sets);
    note_writers(&mut lists.writers, &lists.sets);
    test_all(app, &tasks, lists, store, board, marker, horizon)
}

/// Takes copies of the clear ones of the tasks, each of which has marked the set at its place with it.
fn test_all<A: App>(
    app: &A,
    tasks: &[&Task],
    lists: &mut RoundLists,
    store: &Store<A::Val>,
    board: &Board,
    marker: &mut Marker,
    horizon: &mut A::Horizon,
) -> Result<(), NoRoom>
    requires one_each { length lists.old.sets.items ≡ length tasks.now }
    requires writers { HaveFirstWriters lists.old.writers.items 0 lists.old.sets.items }
    requires marked { HaveMarked (A.meaning app.now) (marked_state tasks.now lists.old.sets.items (values_of store.now)) board.now marker.old }
    requires few { length tasks.now ≤ 2 ^ 32 }
    requires told { A.tells app.now horizon.old (tasks_in tasks.now) }
    ensures found { OnOk result (lists.new.clear.items ≡ clear_tasks (A.meaning app.now) (state_of (values_of store.now) (tasks_in tasks.now))) }
    ensures same { marker.new ≡ marker.old }
    ensures told { A.tells app.now horizon.new (tasks_in tasks.now) }
    ensures wide { lists.new.writers ≡ lists.old.writers }
{
    let marked = MarkedTasks::of(tasks, &lists.sets, &lists.writers, store);
    choose_clear(app, &marked, board, marker, horizon, &mut lists.clear)
}

/// Takes copies of the clear ones of the tasks, each of which has marked its set with its place.
fn choose_clear<A: App>(
    app: &A,
    pending: &MarkedTasks<'_, '_, A::Val>,
    board: &Board,
    marker: &mut Marker,
    horizon: &mut A::Horizon,
    clear: &mut VecDeque<Task>,
) -> Result<(), NoRoom>
    requires marked { HaveMarked (A.meaning app.now) pending.now board.now marker.old }
    requires few { length pending.now.tasks ≤ 2 ^ 32 }
    requires told { A.tells app.now horizon.old pending.now.tasks }
    ensures found { OnOk result (clear.new.items ≡ clear_tasks (A.meaning app.now) (state_in pending.now)) }
    ensures same { marker.new ≡ marker.old }
    ensures told { A.tells app.now horizon.new pending.now.tasks }
{
    clear.clear();
    for rank in 0..pending.len() {
        let task = pending.task(rank);
        if is_clear_at(app, rank, task, pending, board, marker, horizon) {
            let copy = task.copy()?;
            clear.push_back(copy)?;
        }
    }
    Ok(())
}

/// Whether the task at a place is clear, where each task has marked its set with its place.
fn is_clear_at<A: App>(
    app: &A,
    rank: usize,
    task: &Task,
    pending: &MarkedTasks<'_, '_, A::Val>,
    board: &Board,
    marker: &mut Marker,
    horizon: &mut A::Horizon,
) -> bool
    requires there { slice_get pending.now.tasks rank ≡ Some task.now }
    requires within { rank < length pending.now.tasks }
    requires marked { HaveMarked (A.meaning app.now) pending.now board.now marker.old }
    requires few { length pending.now.tasks ≤ 2 ^ 32 }
    requires told { A.tells app.now horizon.old pending.now.tasks }
    ensures answer { result ≡ is_clear (A.meaning app.now) (state_in pending.now) task.now }
    ensures same { marker.new ≡ marker.old }
    ensures told { A.tells app.now horizon.new pending.now.tasks }
{
    basis::<A>();
    if !board.free(marker, rank as u32, pending.set(rank)) {
        return false;
    }
    app.safe(task, pending, horizon)
}
