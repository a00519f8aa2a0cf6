ghost use Rattle.std.specs.Prelude.{◌≡◌, IfSome, slice_get};
ghost use Rattle.std.specs.Iterator.{YieldsFirst, item_count};
ghost use Rattle.kdg_graph.specs.Edges.{laters_of};
ghost use Rattle.kdg_graph.specs.Kept.{IsOrderShown};
ghost use Rattle.kdg_graph.specs.Locations.{AreFiled};
ghost use Rattle.kdg_graph.specs.Nodes.{HasNode, later_than, least_of, node_at};

use crate::NodeId;
use crate::lane::Lane;
use crate::locations::Locations;
use crate::ordered_nodes::OrderedNodes;
use rw_sets::RwSet;
use std::marker::Model;
use task_order::Key;

/// The ids of the later nodes whose recorded sets conflict with that of one node, in key order,
/// seen as the list of those that are left.
///
/// Each is found among the nodes of one location of the set after another: behind the id of the one
/// before, or else by a search. Where the order of all nodes is kept, this ends at the first location
/// where the first of all that are left is found.
#[derive(Drop)]
pub struct Laters<'g> {
    nodes: &'g OrderedNodes,
    order: Option<&'g Lane>,
    locations: &'g Locations,
    set: &'g RwSet,
    from: NodeId,
    after: &'g Key,
    // where that node mostly stands among all nodes, and among those of a location
    place: usize,
    near: usize,
}

impl<'g> Model for Laters<'g> {
    ghost use Rattle.std.specs.Prelude.{List, filter};
    ghost use Rattle.kdg_graph.specs.declared.node_id.NodeId.{NodeId};
    ghost use Rattle.rw_sets.specs.Accesses.{conflicts_with};
    ghost use Rattle.kdg_graph.specs.Nodes.{ids_of, later_than};
    ghost use Rattle.kdg_graph.specs.Kept.{IsOrderShown};
    ghost use Rattle.kdg_graph.specs.Walk.{IsWalk};

    ghost Value = { List NodeId };

    ghost view = { λ l. ids_of (filter (λ other. conflicts_with l.set.now other.set) (later_than l.after.now l.nodes.now.nodes)) };

    ghost invariant = { λ l. IsWalk l.nodes.now.nodes l.locations.now.locations.items l.from l.after.now × IsOrderShown l.nodes.now.nodes l.order };
}

impl<'g> Laters<'g> {
    /// Those of a node.
    pub(crate) fn of(
        nodes: &'g OrderedNodes,
        order: Option<&'g Lane>,
        locations: &'g Locations,
        id: NodeId,
    ) -> Laters<'g>
        requires there { HasNode nodes.now.nodes id }
        requires order { IsOrderShown nodes.now.nodes order }
        requires filed { AreFiled nodes.now.nodes locations.now.locations.items }
        ensures { IfSome (node_at nodes.now.nodes id) (λ node. result ≡ laters_of nodes.now.nodes node) }
    {
        let _graph = nodes.len();
        let node = nodes.entry(id);
        Laters {
            nodes,
            order,
            locations,
            set: &node.set,
            from: id,
            after: &node.task.key,
            place: 0,
            near: 0,
        }
    }
}

impl<'g> Iterator for Laters<'g> {
    type Item = NodeId;

    ghost next_gives = { YieldsFirst (λ ids. ids) };

    ghost remaining = { item_count (λ ids. ids) };

    fn next(&mut self) -> Option<NodeId> {
        self.place = place_behind(self.nodes, self.order, self.from, self.place);
        let next = match self.order {
            Some(order) => Some(order.get(self.place)?),
            None => None,
        };
        let id = self.locations.first_in_conflict(
            self.nodes, self.set, self.from, self.after, self.near, next,
        )?;
        let node = self.nodes.entry(id);
        self.from = id;
        self.after = &node.task.key;
        self.near = self.near.saturating_add(1);
        Some(id)
    }
}

/// Where the nodes later than one begin in the order of all, which mostly is at a place or close behind
/// it. Where that order isn't kept, this tells nothing.
#[inline(always)]
fn place_behind(nodes: &OrderedNodes, order: Option<&Lane>, id: NodeId, near: usize) -> usize
    requires there { HasNode nodes.now.nodes id }
    requires order { IsOrderShown nodes.now.nodes order }
    ensures { IfSome order.entry (λ lane. IfSome (node_at nodes.now.nodes id) (λ node. slice_get lane.now.ids.items result ≡ least_of (later_than node.task.key nodes.now.nodes))) }
{
    match order {
        Some(order) => nodes.rank_behind(order, id, near),
        None => near,
    }
}
