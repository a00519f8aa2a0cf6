ghost use Rattle.std.specs.Prelude.{◌≡◌, Contains, Some};
ghost use Rattle.kdg_graph.specs.Edges.{sources_of};
ghost use Rattle.kdg_graph.specs.Node.{Node};
ghost use Rattle.kdg_graph.specs.Nodes.{IsGraph, node_at, tasks_of};
ghost use Rattle.app_laws.specs.Applications.{tasks_before};
ghost use Rattle.graph_update.specs.Engine.{AreCovered, HaveFixedSets};

use app_laws::App;
use kdg_graph::laws::{node_laws, source_laws, writer_laws};
use kdg_graph::{Graph, NodeId};
use run_laws::lower_laws;
use std::marker::Model;
use task_order::{PendingTasks, Task};

/// The pending tasks of a graph, seen as its nodes. The earliest is looked for once, for whoever tests
/// many tasks while the graph stays as it is.
#[derive(Drop)]
pub(crate) struct Pending<'g> {
    graph: &'g Graph,
    earliest: Option<&'g Task>,
}

impl<'g> Model for Pending<'g> {
    ghost use Rattle.std.specs.Prelude.{List, ◌≡◌, slice_get};
    ghost use Rattle.std.specs.Map.Iter.{deref};
    ghost use Rattle.std.specs.Option.{option_map};
    ghost use Rattle.task_order.specs.TaskList.{IsAscending};
    ghost use Rattle.kdg_graph.specs.Node.{Node};
    ghost use Rattle.kdg_graph.specs.Nodes.{tasks_of};

    ghost Value = { List Node };

    ghost view = { λ p. p.graph.now };

    ghost invariant = { λ p. (option_map deref p.earliest ≡ slice_get (tasks_of p.graph.now) 0) × IsAscending (tasks_of p.graph.now) };
}

impl<'g> Pending<'g> {
    /// Those of the graph.
    #[inline(always)]
    pub(crate) fn of(graph: &'g Graph) -> Pending<'g>
        ensures { result ≡ graph.now }
    {
        Pending {
            graph,
            earliest: graph.earliest(),
        }
    }

    /// Whether the task of a source is safe. A horizon that tells of the pending tasks does so after it.
    #[inline(always)]
    pub(crate) fn is_safe<A: App>(&self, source: NodeId, app: &A, horizon: &mut A::Horizon) -> bool
        requires graph { IsGraph self.now }
        requires source { Contains (sources_of self.now) source }
        requires covered { AreCovered (A.meaning app.now) self.now }
        requires fixed { HaveFixedSets (A.meaning app.now) self.now }
        requires told { A.tells app.now horizon.old (tasks_of self.now) }
        ensures told { A.tells app.now horizon.new (tasks_of self.now) }
        ensures answer { (node : Node) → node_at self.now source ≡ Some node →
            result ≡ (A.meaning app.now).is_safe node.task (tasks_before node.task.key (tasks_of self.now)) }
    {
        lower_laws();
        node_laws();
        source_laws();
        writer_laws();
        app.safe(self.graph.task(source), self, horizon)
    }
}

impl<'g> PendingTasks for Pending<'g> {
    ghost use Rattle.kdg_graph.specs.Edges.{writers_of};
    ghost use Rattle.kdg_graph.specs.Nodes.{tasks_of};

    ghost tasks = { λ nodes. tasks_of nodes };

    ghost writers = { λ nodes loc. tasks_of (writers_of nodes loc) };

    #[inline(always)]
    fn earliest(&self) -> Option<&Task> {
        self.earliest
    }

    #[inline(always)]
    fn earliest_writing(&self, loc: u32) -> Option<&Task> {
        PendingTasks::earliest_writing(self.graph, loc)
    }
}
