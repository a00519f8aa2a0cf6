ghost use Rattle.std.specs.Prelude.{◌≡◌, ◌+◌, ◌<◌, ◌≤◌, ℕ, [], ◌∷◌, ◌++◌, Some, IfSome, OnOk, length};
ghost use Rattle.std.specs.List.{AllByRecursion};
ghost use Rattle.std.specs.Option.{option_map};
ghost use Rattle.task_order.specs.TaskList.{IsNewKey};
ghost use Rattle.kdg_graph.specs.Node.{new_node};
ghost use Rattle.kdg_graph.specs.Nodes.{IsGraph, HasNode, ids_of, least_of, node_with_key, put_node, started, task_at, tasks_of};
ghost use Rattle.kdg_graph.specs.Edges.{sources_of};
ghost use Rattle.kdg_graph.specs.Locations.{AreFiled, HasRoomFor, HasTakenFor, HaveNoLess};
ghost use Rattle.kdg_graph.specs.Kept.{IsOrder};
ghost use Rattle.kdg_graph.specs.NodeStock.{places_in};
ghost use Rattle.kdg_graph.specs.Rewrite.{AreAdded, AreOfOwnNodes, HaveNewKeys, changed_sets, fresh_sets, without, with_sets};

use crate::exchange::refresh_lacking;
use crate::lane::Lane;
use crate::locations::Locations;
use crate::ordered_nodes::OrderedNodes;
use crate::room::{reserve_changed, reserve_fresh};
use crate::source_lane::SourceLane;
use crate::{Fresh, NodeId, SetChange, Sources};
use kdg_text::NoRoom;
use rw_sets::{RwSet, conflict_laws, lookup_laws};
use std::alloc::Global;
use std::marker::Model;
use task_order::{Key, Task};

/// For how many nodes room is made at once, so that it is seldom asked for.
const AHEAD: usize = 64;

/// The nodes of a graph, the order of those of each location, the unblocked ones, and the order of all
/// where one is wanted.
#[derive(Drop)]
pub(crate) struct NodeList {
    nodes: OrderedNodes,
    order: Option<Lane>,
    locations: Locations,
    sources: SourceLane,
    /// For at least how many more nodes there is room, but at the locations of their sets.
    spare: usize,
}

impl Model for NodeList {
    ghost use Rattle.kdg_graph.specs.Kept.{HasSpare, IsKept, IsOrder};
    ghost use Rattle.kdg_graph.specs.Locations.{rooms_of};
    ghost use Rattle.kdg_graph.specs.NodeStock.{NodeStock};

    ghost Value = { NodeStock };

    ghost view = { λ l. record {
      nodes = l.nodes.nodes;
      room = l.spare;
      rooms = rooms_of l.locations.locations.items;
    } };

    ghost invariant = { λ l. IsKept l.nodes.nodes l.locations.locations.items l.sources × IsOrder l.nodes.nodes l.order × HasSpare l.spare l.nodes l.order l.sources };
}

impl NodeList {
    /// No node, which takes no memory.
    pub(crate) fn new(alloc: Global) -> NodeList
        ensures { result.nodes ≡ [] }
    {
        NodeList::with_order(alloc, None)
    }

    /// No node, where all nodes are to be kept in key order besides.
    pub(crate) fn ordered(alloc: Global) -> NodeList
        ensures { result.nodes ≡ [] }
    {
        NodeList::with_order(alloc, Some(Lane::new(alloc)))
    }

    /// No node, with a list of them all where one is wanted.
    fn with_order(alloc: Global, order: Option<Lane>) -> NodeList
        requires { IfSome order (λ lane. lane.ids.items ≡ []) }
        ensures { result.nodes ≡ [] }
    {
        NodeList {
            nodes: OrderedNodes::new(alloc),
            order,
            locations: Locations::new(alloc),
            sources: SourceLane::new(alloc),
            spare: 0,
        }
    }

    /// The nodes.
    pub(crate) fn nodes(&self) -> &OrderedNodes
        ensures all { result.now.nodes ≡ self.now.nodes }
        ensures graph { IsGraph self.now.nodes }
    {
        &self.nodes
    }

    /// All nodes in key order, where that is kept.
    pub(crate) fn order(&self) -> Option<&Lane>
        ensures { IfSome result (λ lane. lane.now.ids.items ≡ ids_of self.now.nodes) }
    {
        self.order.as_ref()
    }

    /// The earliest node, which is the first unblocked one.
    pub(crate) fn least(&self) -> Option<NodeId>
        ensures { result ≡ least_of self.now.nodes }
    {
        let first = self.sources.settled_from(0);
        let settled = self.sources.settled().get(first);
        self.sources.earliest(&self.nodes, settled, None)
    }

    /// The node whose task has the key.
    pub(crate) fn find(&self, key: &Key) -> Option<NodeId>
        ensures { result ≡ option_map (λ node. node.id) (node_with_key self.now.nodes key.now) }
    {
        match &self.order {
            Some(order) => self.nodes.find_in(order, key),
            None => self.nodes.find(key),
        }
    }

    /// The nodes of each location.
    pub(crate) fn locations(&self) -> &Locations
        ensures { AreFiled self.now.nodes result.now.locations.items }
    {
        &self.locations
    }

    /// The sources.
    pub(crate) fn sources(&self) -> Sources<'_>
        ensures sources { result ≡ sources_of self.now.nodes }
        ensures graph { IsGraph self.now.nodes }
    {
        Sources::among(&self.nodes, &self.sources)
    }

    /// Puts the unblocked nodes that came to be so in order with the others, which changes nothing of the
    /// graph. It takes no memory.
    pub(crate) fn settle(&mut self)
        ensures nodes { self.new.nodes ≡ self.old.nodes }
        ensures graph { IsGraph self.new.nodes }
    {
        self.sources.settle(&self.nodes);
    }

    /// Makes room for one more node with the set.
    pub(crate) fn reserve(&mut self, set: &RwSet) -> Result<(), NoRoom>
        ensures room { OnOk result (0 < self.new.room) }
        ensures rooms { OnOk result (HasRoomFor (set.now ∷ []) self.new.rooms) }
        ensures nodes { self.new.nodes ≡ self.old.nodes }
    {
        self.reserve_nodes(1)?;
        self.locations.begin_reservation();
        self.locations.reserve(set)
    }

    /// Makes room for the changed sets and for the fresh nodes: at each location for as many as name it.
    pub(crate) fn reserve_all(
        &mut self,
        changed: &[SetChange],
        fresh: &[Fresh],
    ) -> Result<(), NoRoom>
        ensures room { OnOk result (length fresh.now ≤ self.new.room) }
        ensures rooms { OnOk result (HasRoomFor (changed_sets changed.now ++ fresh_sets fresh.now) self.new.rooms) }
        ensures nodes { self.new.nodes ≡ self.old.nodes }
    {
        self.reserve_nodes(fresh.len())?;
        self.locations.begin_reservation();
        reserve_changed(&mut self.locations, changed)?;
        reserve_fresh(&mut self.locations, fresh)
    }

    /// Makes room for `additional` more nodes, but at the locations of their sets.
    #[inline(always)]
    fn reserve_nodes(&mut self, additional: usize) -> Result<(), NoRoom>
        ensures room { OnOk result (additional ≤ self.new.room) }
        ensures nodes { self.new.nodes ≡ self.old.nodes }
    {
        if additional <= self.spare {
            return Ok(());
        }
        self.reserve_ahead(additional)
    }

    /// Makes room for `additional` more nodes, where `spare` may not tell that there is: for more than
    /// are asked for, if memory allows.
    #[inline(never)]
    fn reserve_ahead(&mut self, additional: usize) -> Result<(), NoRoom>
        ensures room { OnOk result (additional ≤ self.new.room) }
        ensures nodes { self.new.nodes ≡ self.old.nodes }
    {
        match self.reserve_lists(additional.max(AHEAD)) {
            Ok(()) => Ok(()),
            Err(NoRoom) => self.reserve_lists(additional),
        }
    }

    /// Asks all that is kept for room for `additional` more nodes.
    fn reserve_lists(&mut self, additional: usize) -> Result<(), NoRoom>
        ensures room { OnOk result (additional ≤ self.new.room) }
        ensures nodes { self.new.nodes ≡ self.old.nodes }
    {
        // Where one of them has no room, nothing is known of the others.
        self.spare = 0;
        self.nodes.reserve(additional)?;
        if let Some(order) = &mut self.order {
            order.reserve(additional)?;
        }
        let nodes = self.nodes.len().checked_add(additional).ok_or(NoRoom)?;
        self.sources.reserve(nodes, self.nodes.keys())?;
        self.spare = additional;
        Ok(())
    }

    /// Puts a node at its place, where `reserve` made room. It needs no memory.
    #[inline(always)]
    pub(crate) fn put(&mut self, task: Task, set: RwSet) -> NodeId
        requires room { 0 < self.old.room }
        requires rooms { HasRoomFor (set ∷ []) self.old.rooms }
        requires new { IsNewKey task.key (tasks_of self.old.nodes) }
        ensures nodes { self.new.nodes ≡ put_node (new_node result task set) self.old.nodes }
        ensures there { HasNode self.new.nodes result }
        ensures room { self.old.room ≤ self.new.room + 1 }
        ensures rooms { HasTakenFor (set ∷ []) self.old.rooms self.new.rooms }
        ensures graph { IsGraph self.new.nodes }
    {
        self.spare = self.spare.saturating_sub(1);
        let id = self.nodes.put(task, set);
        enter_order(&mut self.order, &self.nodes, id);
        let known = self.locations.enter(&self.nodes, id);
        self.sources.enter(&self.nodes, &self.locations, id, known);
        self.sources
            .forget_behind(&self.nodes, &self.locations, id, known.blocks_none);
        id
    }

    /// Takes a node out and gives its task. It needs no memory.
    pub(crate) fn remove(&mut self, id: NodeId) -> Task
        requires { HasNode self.old.nodes id }
        ensures task { task_at self.old.nodes id ≡ Some result }
        ensures nodes { self.new.nodes ≡ without id self.old.nodes }
        ensures room { self.old.room ≤ self.new.room }
        ensures rooms { HaveNoLess self.old.rooms self.new.rooms }
        ensures graph { IsGraph self.new.nodes }
    {
        conflict_laws();
        let unblocked = self.sources.is_listed(id);
        self.sources.forget(&self.nodes, id);
        let left = self.locations.leave(&self.nodes, id);
        leave_order(&mut self.order, &self.nodes, id);
        let node = self.nodes.remove(id);
        // No node that an unblocked one clashes with is earlier.
        self.sources.refresh_behind(
            &self.nodes,
            &self.locations,
            &node.set,
            &node.task.key,
            unblocked,
            left,
        );
        node.task
    }

    /// Replaces the set of a node, where `reserve` made room. It needs no memory, and no time where
    /// the set is the one that the node has.
    pub(crate) fn set_set(&mut self, id: NodeId, set: RwSet)
        requires there { HasNode self.old.nodes id }
        requires rooms { HasRoomFor (set ∷ []) self.old.rooms }
        ensures nodes { self.new.nodes ≡ with_sets (record { node = id; set = set } ∷ []) self.old.nodes }
        ensures room { self.old.room ≤ self.new.room }
        ensures rooms { HasTakenFor (set ∷ []) self.old.rooms self.new.rooms }
        ensures graph { IsGraph self.new.nodes }
    {
        lookup_laws();
        if self.nodes().entry(id).set == set {
            return;
        }
        self.exchange_set(id, set);
    }

    /// Replaces the set of a node by any. Only what the two sets don't have in common changes the nodes
    /// of locations, and only the fronts there are tested again.
    fn exchange_set(&mut self, id: NodeId, set: RwSet)
        requires there { HasNode self.old.nodes id }
        requires rooms { HasRoomFor (set ∷ []) self.old.rooms }
        ensures nodes { self.new.nodes ≡ with_sets (record { node = id; set = set } ∷ []) self.old.nodes }
        ensures room { self.old.room ≤ self.new.room }
        ensures rooms { HasTakenFor (set ∷ []) self.old.rooms self.new.rooms }
        ensures graph { IsGraph self.new.nodes }
    {
        self.sources.forget(&self.nodes, id);
        let before = self.nodes.set_set(id, set);
        self.locations.exchange(&self.nodes, id, &before);
        let node = self.nodes.entry(id);
        let (sources, nodes, locations) = (&mut self.sources, &self.nodes, &self.locations);
        sources.refresh(nodes, locations, id);
        refresh_lacking(
            sources,
            nodes,
            locations,
            &before,
            &node.set,
            &node.task.key,
        );
        refresh_lacking(
            sources,
            nodes,
            locations,
            &node.set,
            &before,
            &node.task.key,
        );
    }

    /// Replaces the sets that are named, where `reserve_all` made room. It needs no memory.
    pub(crate) fn set_sets(&mut self, changes: Vec<SetChange>)
        requires there { AllByRecursion (λ change. HasNode self.old.nodes change.node) changes.items }
        requires own { AreOfOwnNodes changes.items }
        requires rooms { HasRoomFor (changed_sets changes.items) self.old.rooms }
        requires graph { IsGraph self.old.nodes }
        ensures nodes { self.new.nodes ≡ with_sets changes.items self.old.nodes }
        ensures room { self.old.room ≤ self.new.room }
        ensures rooms { HasTakenFor (changed_sets changes.items) self.old.rooms self.new.rooms }
        ensures graph { IsGraph self.new.nodes }
    {
        for change in changes {
            self.set_set(change.node, change.set);
        }
    }

    /// Puts the fresh nodes in, where `reserve_all` made room, which leaves their list empty. It
    /// needs no memory.
    pub(crate) fn put_all(&mut self, fresh: &mut Vec<Fresh>)
        requires room { length fresh.old.items ≤ self.old.room }
        requires rooms { HasRoomFor (fresh_sets fresh.old.items) self.old.rooms }
        requires new { HaveNewKeys (tasks_of self.old.nodes) fresh.old.items }
        requires graph { IsGraph self.old.nodes }
        ensures none_left { fresh.new.items ≡ [] }
        ensures added { AreAdded self.old.nodes fresh.old.items self.new.nodes }
        ensures graph { IsGraph self.new.nodes }
    {
        for item in fresh.drain(..) {
            self.put(item.task, item.set);
        }
    }

    /// Marks a node as running, which makes it no source, but leaves it where it is kept.
    pub(crate) fn mark_running(&mut self, id: NodeId)
        requires { HasNode self.old.nodes id }
        ensures nodes { self.new.nodes ≡ started id self.old.nodes }
        ensures graph { IsGraph self.new.nodes }
    {
        self.nodes.mark_running(id);
    }
}

/// Puts a node into the order of all, where that is kept and has room for it.
#[inline(always)]
fn enter_order(order: &mut Option<Lane>, nodes: &OrderedNodes, id: NodeId)
    requires there { HasNode nodes.now.nodes id }
    requires others { IsOrder (without id nodes.now.nodes) order.old }
    requires room { IfSome order.old (λ lane. length lane.ids.items < lane.ids.capacity) }
    ensures order { IsOrder nodes.now.nodes order.new }
    ensures places { (before after : ℕ) → before ≤ after + 1 → places_in order.old before ≤ places_in order.new after + 1 }
{
    let _graph = nodes.len();
    if let Some(lane) = order {
        let _ = nodes.put_into(lane, id);
    }
}

/// Takes a node out of the order of all, where that is kept.
#[inline(always)]
fn leave_order(order: &mut Option<Lane>, nodes: &OrderedNodes, id: NodeId)
    requires there { HasNode nodes.now.nodes id }
    requires all { IsOrder nodes.now.nodes order.old }
    ensures order { IsOrder (without id nodes.now.nodes) order.new }
    ensures places { (before after : ℕ) → before ≤ after → places_in order.old before ≤ places_in order.new after }
{
    let _graph = nodes.len();
    if let Some(lane) = order {
        let _ = nodes.take_from(lane, id);
    }
}
