ghost use Rattle.std.specs.Prelude.{IfOk};
ghost use Rattle.kdg_graph.specs.Nodes.{HasNode};

use crate::plain::{plain_laters, plain_running, plain_sources, plain_writer};
use Access::{Read, Write};
use kdg_graph::{Fresh, Graph, NodeId, SetChange};
use kdg_text::NoRoom;
use rw_sets::{Access, RwSet};
use std::alloc::Global;
use std::process::Abort;
use std::test::Fail;
use task_order::{Body, Key, Path, PendingTasks, Task, TaskList};

/// The locations that calls name are below this one.
const LOCATIONS: u32 = 10;

/// The first task with this number, at a priority.
fn task(alloc: Global, prio: u64, number: u32) -> Result<Task, NoRoom> {
    let path = Path::root(alloc, number)?;
    let body = Body {
        kind: 0,
        at: number,
        arg: 0,
    };
    Ok(Task {
        key: Key { prio, path },
        body,
    })
}

/// The set with these accesses.
fn set(alloc: Global, pairs: &[(u32, Access)]) -> Result<RwSet, NoRoom> {
    let mut set = RwSet::new(alloc);
    for pair in pairs {
        set.add(pair.0, pair.1)?;
    }
    Ok(set)
}

/// The node of a first task.
fn node(graph: &Graph, alloc: Global, prio: u64, number: u32) -> Result<NodeId, Fail>
    ensures { IfOk result (HasNode graph.now) }
{
    let key = task(alloc, prio, number)?.key;
    Ok(graph.find(&key).ok_or("no such node")?)
}

/// The priorities, the numbers, the locations and the accesses of three tasks, out of order.
const THREE: &[(u64, u32, u32, Access)] = &[(1, 1, 6, Write), (2, 2, 5, Read), (1, 0, 5, Write)];

/// The graph, which had no nodes, with three, of which the first and the third share a location.
/// They are put in out of order.
fn three_nodes(rt: &impl Abort, alloc: Global, mut graph: Graph) -> Result<Graph, NoRoom> {
    for &(prio, number, loc, access) in THREE {
        insert(
            rt,
            &mut graph,
            task(alloc, prio, number)?,
            set(alloc, &[(loc, access)])?,
        )?;
    }
    Ok(graph)
}

/// Puts in a task whose key no node has.
fn insert(rt: &impl Abort, graph: &mut Graph, task: Task, set: RwSet) -> Result<(), NoRoom> {
    assert!(rt; graph.find(&task.key).is_none());
    graph.insert(task, set).map_err(|_| NoRoom)?;
    Ok(())
}

/// Whether these are the sources, in their order.
fn has_sources(graph: &Graph, alloc: Global, wanted: &[NodeId]) -> Result<bool, NoRoom> {
    let sources: Vec<NodeId> = graph.sources().collect(alloc)?;
    Ok(sources.as_slice() == wanted)
}

/// Whether these are the later nodes of a node, in their order.
fn has_laters(graph: &Graph, alloc: Global, node: NodeId, wanted: &[NodeId]) -> Result<bool, NoRoom>
    requires { HasNode graph.now node }
{
    let laters: Vec<NodeId> = graph.later_of(node).collect(alloc)?;
    Ok(laters.as_slice() == wanted)
}

/// Starts the first node, and checks that it is no source any more.
fn start_first(rt: &impl Abort, graph: &mut Graph, alloc: Global) -> Result<(), Fail> {
    let first = node(graph, alloc, 1, 0)?;
    graph.mark_running(first);
    let second = node(graph, alloc, 1, 1)?;
    assert!(rt; has_sources(graph, alloc, &[second])?);
    Ok(())
}

/// Ends the node of a first task at priority 1, and changes nothing else.
fn end(rt: &impl Abort, graph: &mut Graph, alloc: Global, number: u32) -> Result<(), Fail> {
    let node = node(graph, alloc, 1, number)?;
    let ended = graph.rewrite(node, Vec::new(alloc), &mut Vec::new(alloc));
    assert!(rt; ended.is_ok());
    Ok(())
}

#[test]
fn sources_wait_for_earlier_nodes(rt: HostRuntime) -> Result<(), Fail> {
    let alloc = rt.alloc();
    check_waiting(&rt, alloc, Graph::new(alloc))?;
    check_waiting(&rt, alloc, Graph::ordered(alloc))
}

/// Puts three nodes into a graph without nodes, and checks its sources then, and after the first node
/// has started and ended.
fn check_waiting(rt: &impl Abort, alloc: Global, graph: Graph) -> Result<(), Fail> {
    let mut graph = three_nodes(rt, alloc, graph)?;
    check_three(rt, &graph, alloc)?;
    check_two(rt, &mut graph, alloc)
}

/// Checks which of the three nodes wait for which.
fn check_three(rt: &impl Abort, graph: &Graph, alloc: Global) -> Result<(), Fail> {
    let first = node(graph, alloc, 1, 0)?;
    let second = node(graph, alloc, 1, 1)?;
    let third = node(graph, alloc, 2, 2)?;
    assert!(rt; has_sources(graph, alloc, &[first, second])?);
    assert!(rt; has_laters(graph, alloc, first, &[third])?);
    assert!(rt; graph.least() == Some(first));
    Ok(())
}

/// Starts and ends the first of the three nodes, and checks that the others are sources then.
fn check_two(rt: &impl Abort, graph: &mut Graph, alloc: Global) -> Result<(), Fail> {
    let second = node(graph, alloc, 1, 1)?;
    let third = node(graph, alloc, 2, 2)?;
    start_first(rt, graph, alloc)?;
    end(rt, graph, alloc, 0)?;
    assert!(rt; has_sources(graph, alloc, &[second, third])?);
    assert!(rt; graph.least() == Some(second));
    Ok(())
}

/// Ends the first node, gives the third a set that conflicts with the second's, and adds a fourth
/// node with the same set.
fn rewrite_three(rt: &impl Abort, graph: &mut Graph, alloc: Global) -> Result<(), Fail> {
    let third = node(graph, alloc, 2, 2)?;
    let first = node(graph, alloc, 1, 0)?;
    let child = task(alloc, 3, 3)?;
    assert!(rt; third != first);
    assert!(rt; graph.find(&child.key).is_none());
    let change = SetChange {
        node: third,
        set: set(alloc, &[(6, Read)])?,
    };
    let fresh = Fresh {
        task: child,
        set: set(alloc, &[(6, Read)])?,
    };
    let changed = Vec::from_array(alloc, [change])?;
    let mut fresh = Vec::from_array(alloc, [fresh])?;
    assert!(rt; graph.rewrite(first, changed, &mut fresh).is_ok());
    Ok(())
}

#[test]
fn a_rewrite_replaces_sets_and_adds_nodes(rt: HostRuntime) -> Result<(), Fail> {
    let alloc = rt.alloc();
    check_rewritten(&rt, alloc, Graph::new(alloc))?;
    check_rewritten(&rt, alloc, Graph::ordered(alloc))
}

/// Puts three nodes into a graph without nodes, rewrites them, and checks what is there then.
fn check_rewritten(rt: &impl Abort, alloc: Global, graph: Graph) -> Result<(), Fail> {
    let mut graph = three_nodes(rt, alloc, graph)?;
    let third = node(&graph, alloc, 2, 2)?;
    rewrite_three(rt, &mut graph, alloc)?;
    check_fourth(rt, &graph, alloc, third)
}

/// Checks the node that a rewrite added, which waits for the second one, as `third` does.
fn check_fourth(rt: &impl Abort, graph: &Graph, alloc: Global, third: NodeId) -> Result<(), Fail> {
    let second = node(graph, alloc, 1, 1)?;
    let fourth = node(graph, alloc, 3, 3)?;
    assert!(rt; has_laters(graph, alloc, second, &[third, fourth])?);
    assert!(rt; graph.task(fourth).body.at == 3);
    assert!(rt; graph.set(fourth).contains(6) == Some(Read));
    assert!(rt; !graph.running(fourth));
    assert!(rt; graph.len() == 3);
    Ok(())
}

/// What is done to the first tasks of a graph, which are named by their numbers.
#[derive(Clone, Copy)]
enum Call {
    /// Puts in a task whose set has these accesses.
    Insert(u32, [(u32, Access); 2]),
    Start(u32),
    End(u32),
    /// Ends a task, and gives another one a set with these accesses.
    Replace(u32, u32, [(u32, Access); 2]),
}

fn run(rt: &impl Abort, graph: &mut Graph, alloc: Global, call: Call) -> Result<(), Fail> {
    match call {
        Call::Insert(number, pairs) => {
            insert(rt, graph, task(alloc, 1, number)?, set(alloc, &pairs)?)?
        }
        Call::Start(number) => {
            let node = node(graph, alloc, 1, number)?;
            graph.mark_running(node);
        }
        Call::End(number) => end(rt, graph, alloc, number)?,
        Call::Replace(ended, changed, pairs) => {
            replace(rt, graph, alloc, (ended, changed), set(alloc, &pairs)?)?
        }
    }
    Ok(())
}

/// Ends the first of two tasks, and gives the second another set.
fn replace(
    rt: &impl Abort,
    graph: &mut Graph,
    alloc: Global,
    (ended, changed): (u32, u32),
    set: RwSet,
) -> Result<(), Fail> {
    let changed = node(graph, alloc, 1, changed)?;
    let ended = node(graph, alloc, 1, ended)?;
    assert!(rt; changed != ended);
    let change = SetChange { node: changed, set };
    let changes = Vec::from_array(alloc, [change])?;
    assert!(rt; graph.rewrite(ended, changes, &mut Vec::new(alloc)).is_ok());
    Ok(())
}

/// Puts the task that a call puts in into a list of tasks, or takes out the one that it ends.
fn follow(rt: &impl Abort, tasks: &mut TaskList, alloc: Global, call: Call) -> Result<(), NoRoom> {
    match call {
        Call::Insert(number, _) => {
            let task = task(alloc, 1, number)?;
            assert!(rt; tasks.get(&task.key).is_none());
            tasks.insert(task).map_err(|_| NoRoom)?;
        }
        Call::Start(_) => {}
        Call::End(number) | Call::Replace(number, _, _) => {
            tasks.remove(&task(alloc, 1, number)?.key);
        }
    }
    Ok(())
}

/// Checks the sources and the later nodes of each node against a plain search, and how many nodes
/// there are and which is the earliest against the list of their tasks.
fn check_plain(
    rt: &impl Abort,
    graph: &Graph,
    tasks: &TaskList,
    alloc: Global,
) -> Result<(), Fail> {
    let plain = plain_sources(graph, tasks, alloc)?;
    assert!(rt; has_sources(graph, alloc, plain.as_slice())?);
    for task in tasks.iter() {
        check_laters(rt, graph, tasks, alloc, &task.key)?;
    }
    check_counts(rt, graph, tasks, alloc)?;
    check_writers(rt, graph, tasks);
    Ok(())
}

/// Checks the later nodes of the node whose task has the key.
fn check_laters(
    rt: &impl Abort,
    graph: &Graph,
    tasks: &TaskList,
    alloc: Global,
    key: &Key,
) -> Result<(), Fail> {
    let node = graph.find(key).ok_or("no such node")?;
    let plain = plain_laters(graph, tasks, alloc, key)?;
    assert!(rt; has_laters(graph, alloc, node, plain.as_slice())?);
    Ok(())
}

/// Checks how many nodes there are, how many of them run, and which is the earliest.
fn check_counts(
    rt: &impl Abort,
    graph: &Graph,
    tasks: &TaskList,
    alloc: Global,
) -> Result<(), NoRoom> {
    let running = plain_running(graph, tasks, alloc)?.len();
    assert!(rt; graph.running_len() == running);
    assert!(rt; graph.len() == tasks.len());
    assert!(rt; graph.is_empty() == tasks.is_empty());
    assert!(rt; earliest(graph) == tasks.first());
    Ok(())
}

/// The earliest of pending tasks, however they are kept.
fn earliest<P: PendingTasks>(pending: &P) -> Option<&Task> {
    pending.earliest()
}

/// The earliest of pending tasks that writes a location, however they are kept.
fn earliest_writing<P: PendingTasks>(pending: &P, loc: u32) -> Option<&Task> {
    pending.earliest_writing(loc)
}

/// Checks at each location that a call may name, and at one beyond them, which node and which task is
/// the earliest that writes it.
fn check_writers(rt: &impl Abort, graph: &Graph, tasks: &TaskList) {
    for loc in 0..=LOCATIONS {
        let plain = plain_writer(graph, tasks, loc);
        assert!(rt; earliest_writing(graph, loc) == plain);
        let node = match plain {
            Some(task) => graph.find(&task.key),
            None => None,
        };
        assert!(rt; graph.earliest_writing(loc) == node);
    }
}

/// Does all this to a graph of each kind.
fn run_all(rt: &impl Abort, alloc: Global, calls: &[Call]) -> Result<(), Fail> {
    run_on(rt, alloc, Graph::new(alloc), calls)?;
    run_on(rt, alloc, Graph::ordered(alloc), calls)
}

/// Does all this to a graph without nodes, which it checks after each step, and settles after each
/// third one.
fn run_on(rt: &impl Abort, alloc: Global, mut graph: Graph, calls: &[Call]) -> Result<(), Fail> {
    let mut tasks = TaskList::new(alloc);
    for calls in calls.chunks(3) {
        for call in calls {
            run(rt, &mut graph, alloc, *call)?;
            follow(rt, &mut tasks, alloc, *call)?;
            check_plain(rt, &graph, &tasks, alloc)?;
        }
        graph.settle();
        check_plain(rt, &graph, &tasks, alloc)?;
    }
    Ok(())
}

/// Readers and writers of a location or two that come out of order, start, end and get other sets.
const COMINGS_AND_GOINGS: [Call; 16] = [
    Call::Insert(4, [(7, Read); 2]),
    Call::Insert(2, [(7, Write); 2]),
    Call::Insert(3, [(7, Read); 2]),
    Call::Insert(0, [(7, Read); 2]),
    Call::Insert(1, [(8, Write); 2]),
    Call::Insert(6, [(8, Write); 2]),
    Call::Insert(5, [(9, Write); 2]),
    Call::Start(0),
    Call::Start(5),
    Call::End(0),
    Call::Replace(1, 6, [(7, Write); 2]),
    Call::Replace(2, 5, [(7, Write); 2]),
    Call::End(3),
    Call::End(4),
    Call::End(5),
    Call::End(6),
];

#[test]
fn sources_and_laters_are_those_of_a_plain_search(rt: HostRuntime) -> Result<(), Fail> {
    let calls = COMINGS_AND_GOINGS;
    run_all(&rt, rt.alloc(), &calls)
}

/// Tasks that end in turn, each of which leaves another one a set at other locations.
const EXCHANGES: [Call; 14] = [
    Call::Insert(0, [(1, Write), (2, Write)]),
    Call::Insert(7, [(3, Read), (4, Write)]),
    Call::Insert(1, [(1, Read), (3, Write)]),
    Call::Insert(2, [(2, Write), (3, Read)]),
    Call::Insert(3, [(1, Read), (2, Read)]),
    Call::Insert(4, [(1, Write), (3, Write)]),
    Call::Insert(5, [(2, Read), (4, Read)]),
    Call::Insert(6, [(1, Read), (4, Write)]),
    Call::Replace(0, 4, [(1, Write), (2, Read)]),
    Call::Replace(7, 3, [(1, Write), (2, Read)]),
    Call::Replace(1, 5, [(1, Read), (4, Read)]),
    Call::Replace(2, 6, [(1, Read), (4, Read)]),
    Call::Replace(3, 5, [(2, Write), (3, Write)]),
    Call::End(4),
];

#[test]
fn sets_that_are_exchanged_leave_what_a_plain_search_finds(rt: HostRuntime) -> Result<(), Fail> {
    let calls = EXCHANGES;
    run_all(&rt, rt.alloc(), &calls)
}
