ghost use Rattle.std.specs.Prelude.{◌≡◌};
ghost use Rattle.std.specs.Iterator.{YieldsFirst, item_count};
ghost use Rattle.kdg_graph.specs.Nodes.{IsGraph};
ghost use Rattle.kdg_graph.specs.Edges.{sources_of};
ghost use Rattle.kdg_graph.specs.Selected.{AreSome, listed_in, unblocked_of};

use crate::NodeId;
use crate::ordered_nodes::OrderedNodes;
use crate::source_lane::SourceLane;
use std::marker::Model;

/// The ids of the sources of a graph, in key order, seen as the list of those that are left.
///
/// They are those of the unblocked nodes that are not running.
#[derive(Drop)]
pub struct Sources<'g> {
    nodes: &'g OrderedNodes,
    unblocked: &'g SourceLane,
    /// The unblocked node that was looked at last.
    last: Option<NodeId>,
    /// Where those in key order begin that weren't looked at.
    place: usize,
}

impl<'g> Model for Sources<'g> {
    ghost use Rattle.std.specs.Prelude.{List};
    ghost use Rattle.kdg_graph.specs.declared.node_id.NodeId.{NodeId};
    ghost use Rattle.kdg_graph.specs.Selected.{AreLeft, ids_in, left_in, not_running};

    ghost Value = { List NodeId };

    ghost view = { λ s. not_running s.nodes.now.nodes (left_in s.nodes.now.nodes (ids_in s.unblocked.now) s.last) };

    ghost invariant = { λ s. AreLeft s.nodes.now.nodes s.unblocked.now s.place s.last };
}

impl<'g> Sources<'g> {
    /// Those among the unblocked nodes.
    pub(crate) fn among(nodes: &'g OrderedNodes, unblocked: &'g SourceLane) -> Sources<'g>
        requires unblocked { listed_in nodes.now.nodes unblocked.now ≡ unblocked_of nodes.now.nodes }
        requires some { AreSome nodes.now.nodes unblocked.now }
        ensures { result ≡ sources_of nodes.now.nodes }
    {
        let _graph = nodes.len();
        Sources {
            nodes,
            unblocked,
            last: None,
            place: 0,
        }
    }
}

impl<'g> Iterator for Sources<'g> {
    type Item = NodeId;

    ghost next_gives = { YieldsFirst (λ ids. ids) };

    ghost remaining = { item_count (λ ids. ids) };

    #[inline(always)]
    fn next(&mut self) -> Option<NodeId> {
        loop {
            let place = self.unblocked.settled_from(self.place);
            let settled = self.unblocked.settled().get(place);
            let id = self.unblocked.earliest(self.nodes, settled, self.last)?;
            self.place = place + usize::from(settled == Some(id));
            self.last = Some(id);
            let node = self.nodes.entry(id);
            if !node.running {
                return Some(id);
            }
        }
    }
}
