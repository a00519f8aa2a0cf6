use crate::NodeId;
use rw_sets::RwSet;
use std::marker::Model;
use task_order::Task;

/// A node as the list of nodes keeps it.
#[derive(Drop)]
pub(crate) struct Entry {
    // first, so that it stands beside what tells that a node is there
    pub(crate) running: bool,
    pub(crate) id: NodeId,
    pub(crate) task: Task,
    pub(crate) set: RwSet,
}

impl Model for Entry {
    ghost use Rattle.kdg_graph.specs.Node.{Node};

    ghost Value = { Node };

    ghost view = { λ e. record { id = e.id; task = e.task; set = e.set; running = e.running } };
}
