//! How an execution begins: its cells are all home, and each first task is a node with its declared
//! set.

ghost use Rattle.std.specs.Prelude.{◌≡◌, ◌+◌, ◌≤◌, ◌<◌, ◌^◌, [], length, IfOk};
ghost use Rattle.cell_store.specs.Values.{homes, values_of};
ghost use Rattle.app_laws.specs.Applications.{AreFitStarts, IsFitTask, set_in};
ghost use Rattle.run_laws.specs.Answers.{AreFirstNodes};

use app_laws::{App, SetAnswer, lawful};
use cell_store::{Store, value_laws};
use kdg_graph::Graph;
use kdg_graph::laws::put_laws;
use kdg_text::{NoRoom, Steps};
use rw_sets::RwSet;
use std::alloc::Global;
use std::sync::ledger::Ledger;
use task_order::{Key, Path, Start, Task};

/// A store of the application's cells, all of them home.
pub(crate) fn home_store<A: App>(
    alloc: Global,
    app: &A,
    cells: Vec<A::Val>,
) -> Result<Store<A::Val>, NoRoom>
    requires { (A.meaning app.now).is_fit_cells cells.items }
    ensures { IfOk result (λ store. store ≡ homes cells.items) }
{
    lawful::<A>();
    // As many as this number, which is below 2^32.
    let _count: u32 = app.cells();
    Store::new(alloc, cells)
}

/// Puts the first tasks into an empty graph as nodes, with the sets that they declare in cells that are
/// all home.
pub(crate) fn put_first<A: App, L: Ledger>(
    alloc: Global,
    app: &A,
    mut graph: Graph,
    first: &[Start],
    store: &Store<A::Val>,
    steps: &mut Steps<L>,
) -> Result<Graph, NoRoom>
    requires empty { graph ≡ [] }
    requires home { store.now ≡ homes (values_of store.now) }
    requires fit_cells { (A.meaning app.now).is_fit_cells (values_of store.now) }
    requires fit_first { AreFitStarts (A.meaning app.now) first.now }
    requires few { length first.now < 2 ^ 32 }
    ensures nodes { IfOk result (AreFirstNodes (A.meaning app.now) (values_of store.now) first.now) }
    ensures steps { steps.new ≤ steps.old + length first.now }
{
    put_laws();
    for (number, start) in first.iter().enumerate() {
        let path = Path::root(alloc, number as u32)?;
        let key = Key {
            prio: start.prio,
            path,
        };
        let task = Task {
            key,
            body: start.body,
        };
        let set = home_set(app, &task, store, steps)?;
        let Ok(_) = graph.insert(task, set) else {
            return Err(NoRoom);
        };
    }
    Ok(graph)
}

/// A graph without nodes. Where sets may change, later nodes are asked for, so that it keeps the order
/// of all.
pub(crate) fn empty_graph<A: App>(alloc: Global, app: &A) -> Graph
    ensures { result ≡ [] }
{
    if app.sets_are_fixed() {
        Graph::new(alloc)
    } else {
        Graph::ordered(alloc)
    }
}

/// The set that a task declares in cells that are all home.
fn home_set<A: App, L: Ledger>(
    app: &A,
    task: &Task,
    store: &Store<A::Val>,
    steps: &mut Steps<L>,
) -> Result<RwSet, NoRoom>
    requires home { store.now ≡ homes (values_of store.now) }
    requires fit_cells { (A.meaning app.now).is_fit_cells (values_of store.now) }
    requires fit_task { IsFitTask (A.meaning app.now) task.now }
    ensures set { IfOk result (λ set. set ≡ set_in (A.meaning app.now) (values_of store.now) task.now) }
    ensures step { steps.new ≡ steps.old + 1 }
{
    lawful::<A>();
    value_laws::<A::Val>();
    match app.sets(&task.body, store, steps)? {
        SetAnswer::Known(set) => Ok(set),
        SetAnswer::Out(_) => unreachable!(),
    }
}
