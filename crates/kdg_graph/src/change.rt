use crate::NodeId;
use rw_sets::RwSet;
use task_order::Task;

/// A new recorded set for a node.
#[derive(Debug, Drop)]
pub struct SetChange {
    pub node: NodeId,
    pub set: RwSet,
}

/// A new task with its recorded set.
#[derive(Debug, Drop)]
pub struct Fresh {
    pub task: Task,
    pub set: RwSet,
}
