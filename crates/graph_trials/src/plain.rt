use kdg_graph::{Graph, NodeId};
use kdg_text::NoRoom;
use rw_sets::Access;
use std::alloc::Global;
use task_order::{Key, Task, TaskList};

/// The sources, found by comparing the sets of all pairs of nodes, whose tasks are given.
pub(crate) fn plain_sources(
    graph: &Graph,
    tasks: &TaskList,
    alloc: Global,
) -> Result<Vec<NodeId>, NoRoom> {
    let mut sources = Vec::new(alloc);
    for task in tasks.iter() {
        if let Some(node) = graph.find(&task.key) {
            if !graph.running(node) && !is_blocked(graph, tasks, &task.key) {
                sources.push(node)?;
            }
        }
    }
    Ok(sources)
}

/// Whether some earlier node is in conflict with the node whose task has the key.
fn is_blocked(graph: &Graph, tasks: &TaskList, key: &Key) -> bool {
    let Some(node) = graph.find(key) else {
        return false;
    };
    for other in tasks.iter() {
        if other.key.compare(key).is_lt() {
            if let Some(earlier) = graph.find(&other.key) {
                if graph.set(earlier).conflicts(graph.set(node)) {
                    return true;
                }
            }
        }
    }
    false
}

/// The later nodes in conflict with the node whose task has the key, found by comparing its set with
/// that of each later node.
pub(crate) fn plain_laters(
    graph: &Graph,
    tasks: &TaskList,
    alloc: Global,
    key: &Key,
) -> Result<Vec<NodeId>, NoRoom> {
    let mut laters = Vec::new(alloc);
    let Some(node) = graph.find(key) else {
        return Ok(laters);
    };
    for other in tasks.iter() {
        if key.compare(&other.key).is_lt() {
            if let Some(later) = graph.find(&other.key) {
                if graph.set(node).conflicts(graph.set(later)) {
                    laters.push(later)?;
                }
            }
        }
    }
    Ok(laters)
}

/// The running nodes, found by the keys of all tasks.
pub(crate) fn plain_running(
    graph: &Graph,
    tasks: &TaskList,
    alloc: Global,
) -> Result<Vec<NodeId>, NoRoom> {
    let mut running = Vec::new(alloc);
    for task in tasks.iter() {
        if let Some(node) = graph.find(&task.key) {
            if graph.running(node) {
                running.push(node)?;
            }
        }
    }
    Ok(running)
}

/// The first of the tasks whose node's set writes a location, found by looking at one after another.
pub(crate) fn plain_writer<'t>(graph: &Graph, tasks: &'t TaskList, loc: u32) -> Option<&'t Task> {
    for task in tasks.iter() {
        if let Some(node) = graph.find(&task.key) {
            if graph.set(node).contains(loc) == Some(Access::Write) {
                return Some(task);
            }
        }
    }
    None
}
