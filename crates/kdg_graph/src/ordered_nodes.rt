ghost use Rattle.std.specs.Prelude.{◌≡◌, ◌+◌, ◌^◌, ◌<◌, ◌≤◌, ◌||◌, Bool, List, [], ◌∷◌, Some, IfSome, MatchResult, OnOk, filter, length, slice_get};
ghost use Rattle.std.specs.Int.{from_bool};
ghost use Rattle.std.specs.Option.{option_cmp, option_map};
ghost use Rattle.task_order.specs.Key.{key_cmp};
ghost use Rattle.task_order.specs.TaskList.{IsNewKey};
ghost use Rattle.kdg_graph.specs.Node.{Node, new_node};
ghost use Rattle.kdg_graph.specs.Nodes.{IsGraph, HasNode, ids_of, least_of, node_at, node_with_key, put_node, set_at, started, tasks_of};
ghost use Rattle.kdg_graph.specs.Lanes.{AreLater, IsRank, IsRankPast, IsSearched};
ghost use Rattle.kdg_graph.specs.Locations.{IsLaneAmong, is_first_before};
ghost use Rattle.kdg_graph.specs.Rewrite.{with_sets, without};
ghost use Rattle.kdg_graph.specs.Selected.{TellsItsKey, arrival_cmp, is_behind, key_at};

use crate::NodeId;
use crate::arrival::Arrival;
use crate::entry::Entry;
use crate::lane::Lane;
use kdg_text::NoRoom;
use rw_sets::RwSet;
use slab::Slab;
use std::alloc::Global;
use std::cmp::Ordering;
use std::marker::Model;
use std::mem;
use task_order::{Key, Task, put_in_laws};

/// How many ids there are.
const IDS: usize = 1 << 32;

/// Nodes under their ids. They are seen in key order, and are kept in none: who needs an order keeps
/// the ids of some of them in a list of their own.
#[derive(Drop)]
pub(crate) struct OrderedNodes {
    slots: Slab<Entry>,
}

impl Model for OrderedNodes {
    ghost use Rattle.std.specs.Prelude.{◌-◌};
    ghost use Rattle.slab.specs.Slab.{slab_len};
    ghost use Rattle.kdg_graph.specs.Stored.{nodes_of, IsStored};
    ghost use Rattle.kdg_graph.specs.NodeStock.{NodeShelf, ids_left};

    ghost Value = { NodeShelf };

    ghost view = { λ o. record { nodes = nodes_of o.slots; numbers = ids_left o.slots.capacity (slab_len o.slots); keys = o.slots.capacity } };

    ghost invariant = { λ o. IsStored o.slots };
}

impl OrderedNodes {
    /// No nodes, which take no memory.
    pub(crate) fn new(alloc: Global) -> OrderedNodes
        ensures { result.nodes ≡ [] }
    {
        OrderedNodes {
            slots: Slab::new(alloc),
        }
    }

    /// How many nodes there are.
    pub(crate) fn len(&self) -> usize
        ensures len { result ≡ length self.now.nodes }
        ensures graph { IsGraph self.now.nodes }
    {
        self.slots.len()
    }

    /// How many nodes are running. This goes over all of them.
    pub(crate) fn running_len(&self) -> usize
        ensures { result ≡ length (filter (λ node. node.running) self.now.nodes) }
    {
        self.slots.iter().filter(|(_, node)| node.running).count()
    }

    /// The number that each id, and that of each node to come until `reserve`, is below.
    pub(crate) fn keys(&self) -> usize
        ensures { result ≡ self.now.keys }
    {
        self.slots.capacity()
    }

    /// The node with an id.
    pub(crate) fn entry(&self, id: NodeId) -> &Entry
        requires { HasNode self.now.nodes id }
        ensures { node_at self.now.nodes id ≡ Some result.now }
    {
        &self.slots[id.at as usize]
    }

    /// How many of some of the nodes, by their ids in key order, are earlier than the key.
    pub(crate) fn rank_among(&self, lane: &Lane, key: &Key) -> usize
        ensures rank { (some : List Node) → IsLaneAmong self.now.nodes some lane.now.ids.items → IsRank key.now some result }
        ensures inside { result ≤ length lane.now.ids.items }
        ensures graph { IsGraph self.now.nodes }
    {
        lane.rank(&self.slots, key)
    }

    /// How many of some of the nodes, by their ids in key order, are not later than the key: mostly
    /// none or few.
    pub(crate) fn rank_past(&self, lane: &Lane, key: &Key) -> usize
        ensures rank { (some : List Node) → IsLaneAmong self.now.nodes some lane.now.ids.items → IsRankPast key.now some result }
        ensures graph { IsGraph self.now.nodes }
        ensures inside { result ≤ length lane.now.ids.items }
    {
        lane.rank_past(&self.slots, key, 0)
    }

    /// How many of some of the nodes, by their ids in key order, are not later than a node, which mostly
    /// is one of these and stands at a place or close behind it.
    pub(crate) fn rank_behind(&self, lane: &Lane, id: NodeId, near: usize) -> usize
        requires { HasNode self.now.nodes id }
        ensures rank { (some : List Node) → IsLaneAmong self.now.nodes some lane.now.ids.items → IfSome (node_at self.now.nodes id) (λ node. IsRankPast node.task.key some result) }
        ensures inside { result ≤ length lane.now.ids.items }
        ensures graph { IsGraph self.now.nodes }
    {
        let _graph = self.len();
        let _small = lane.len();
        if let Some(place) = lane.find_near(near, id) {
            return place + 1;
        }
        let node = self.entry(id);
        lane.rank_past(&self.slots, &node.task.key, near)
    }

    /// The place of a node among some of the nodes, by their ids in key order, or else how many of these
    /// are earlier. Keys are compared only where its id isn't at a likely place.
    fn place_among(&self, lane: &Lane, id: NodeId) -> Result<usize, usize>
        requires { HasNode self.now.nodes id }
        ensures found { (some : List Node) → IsLaneAmong self.now.nodes some lane.now.ids.items → IfSome (node_at self.now.nodes id) (λ node. IsSearched node.task.key some result) }
        ensures inside { MatchResult result (λ place. place < length lane.now.ids.items) (λ place. place ≤ length lane.now.ids.items) }
        ensures graph { IsGraph self.now.nodes }
    {
        let _graph = self.len();
        if let Some(place) = lane.likely_place(id) {
            return Ok(place);
        }
        let node = self.entry(id);
        lane.search(&self.slots, &node.task.key)
    }

    /// Whether the first of some of the nodes, by their ids in key order, is earlier than the key.
    pub(crate) fn starts_before(&self, lane: &Lane, key: &Key) -> bool
        ensures first { (some : List Node) → IsLaneAmong self.now.nodes some lane.now.ids.items → result ≡ is_first_before key.now some }
        ensures graph { IsGraph self.now.nodes }
    {
        lane.starts_before(&self.slots, key)
    }

    /// The earlier of two nodes, or the one that there is.
    pub(crate) fn earlier(&self, one: Option<NodeId>, other: Option<NodeId>) -> Option<NodeId>
        requires one { IfSome one (HasNode self.now.nodes) }
        requires other { IfSome other (HasNode self.now.nodes) }
        ensures { (some : List Node) (p q : Node → Bool) → IsLaneAmong self.now.nodes some (ids_of some) → one ≡ least_of (filter p some) → other ≡ least_of (filter q some) → result ≡ least_of (filter (λ node. p node || q node) some) }
    {
        let Some(first) = one else {
            return other;
        };
        let Some(second) = other else {
            return one;
        };
        let _graph = self.len();
        let held = self.entry(first);
        let found = self.entry(second);
        if found.task.key.compare(&held.task.key).is_lt() {
            other
        } else {
            one
        }
    }

    /// Whether a node is later than another, if another is given.
    #[inline(always)]
    pub(crate) fn is_behind(&self, id: NodeId, last: Option<NodeId>) -> bool
        requires there { HasNode self.now.nodes id }
        requires last { IfSome last (HasNode self.now.nodes) }
        ensures { IfSome (node_at self.now.nodes id) (λ node. result ≡ is_behind self.now.nodes last node) }
    {
        match last {
            Some(last) => {
                let last = self.entry(last);
                last.task.key.compare(&self.entry(id).task.key).is_lt()
            }
            None => true,
        }
    }

    /// An id that is to be put in order among others, with what its node's key tells, if there is one.
    #[inline(always)]
    pub(crate) fn arrival(&self, id: NodeId) -> Arrival
        ensures told { TellsItsKey self.now.nodes result }
        ensures id { result.id ≡ id }
    {
        match self.slots.get(id.at as usize) {
            Some(node) => Arrival {
                prio: node.task.key.prio,
                beginning: node.task.key.path.beginning(),
                id,
            },
            None => Arrival::new(id),
        }
    }

    /// How the keys of two such nodes compare. Mostly neither node is read.
    #[inline(always)]
    pub(crate) fn compare(&self, one: &Arrival, other: &Arrival) -> Ordering
        ensures { result ≡ arrival_cmp self.now.nodes one.now other.now }
    {
        match one.prio.cmp(&other.prio) {
            Ordering::Equal => match one.beginning.cmp(&other.beginning) {
                Ordering::Equal => self.compare_keys(one.id, other.id),
                order => order,
            },
            order => order,
        }
    }

    /// How the keys of two nodes compare. One that isn't there comes first.
    #[inline(never)]
    fn compare_keys(&self, one: NodeId, other: NodeId) -> Ordering
        ensures { result ≡ option_cmp key_cmp (key_at self.now.nodes one) (key_at self.now.nodes other) }
    {
        match (
            self.slots.get(one.at as usize),
            self.slots.get(other.at as usize),
        ) {
            (Some(one), Some(other)) => one.task.key.compare(&other.task.key),
            (Some(_), None) => Ordering::Greater,
            (None, Some(_)) => Ordering::Less,
            (None, None) => Ordering::Equal,
        }
    }

    /// Puts a node into a list of ids in key order, which has room for it, and tells its place there.
    #[inline(always)]
    pub(crate) fn put_into(&self, lane: &mut Lane, id: NodeId) -> usize
        requires there { HasNode self.now.nodes id }
        requires room { length lane.old.ids.items < lane.old.ids.capacity }
        ensures ids { (some : List Node) → IsLaneAmong self.now.nodes some lane.old.ids.items → IfSome (node_at self.now.nodes id) (λ node. lane.new.ids.items ≡ ids_of (put_node node some)) }
        ensures place { (some : List Node) → IsLaneAmong self.now.nodes some lane.old.ids.items → IfSome (node_at self.now.nodes id) (λ node. IsRank node.task.key some result) }
        ensures room { lane.old.ids.capacity ≤ lane.new.ids.capacity }
        ensures len { length lane.new.ids.items ≡ length lane.old.ids.items + 1 }
    {
        if lane.len() == 0 {
            lane.insert(0, id);
            return 0;
        }
        self.put_among(lane, id)
    }

    /// Puts a node into a list that has some. It stays a call.
    #[inline(never)]
    fn put_among(&self, lane: &mut Lane, id: NodeId) -> usize
        requires there { HasNode self.now.nodes id }
        requires room { length lane.old.ids.items < lane.old.ids.capacity }
        ensures ids { (some : List Node) → IsLaneAmong self.now.nodes some lane.old.ids.items → IfSome (node_at self.now.nodes id) (λ node. lane.new.ids.items ≡ ids_of (put_node node some)) }
        ensures place { (some : List Node) → IsLaneAmong self.now.nodes some lane.old.ids.items → IfSome (node_at self.now.nodes id) (λ node. IsRank node.task.key some result) }
        ensures room { lane.old.ids.capacity ≤ lane.new.ids.capacity }
        ensures len { length lane.new.ids.items ≡ length lane.old.ids.items + 1 }
    {
        let node = self.entry(id);
        let place = self.rank_among(lane, &node.task.key);
        lane.insert(place, id);
        place
    }

    /// Puts a node into a list of which those from `end` on are known to be later.
    #[inline(always)]
    pub(crate) fn put_before(&self, lane: &mut Lane, id: NodeId, end: usize) -> usize
        requires there { HasNode self.now.nodes id }
        requires room { length lane.old.ids.items < lane.old.ids.capacity }
        requires known { IfSome (node_at self.now.nodes id) (λ node. AreLater self.now.nodes node.task.key lane.old.ids.items end) }
        ensures ids { (some : List Node) → IsLaneAmong self.now.nodes some lane.old.ids.items → IfSome (node_at self.now.nodes id) (λ node. lane.new.ids.items ≡ ids_of (put_node node some)) }
        ensures place { slice_get lane.new.ids.items result ≡ Some id }
        ensures room { lane.old.ids.capacity ≤ lane.new.ids.capacity }
        ensures len { length lane.new.ids.items ≡ length lane.old.ids.items + 1 }
    {
        let place = if end == 0 {
            0
        } else {
            lane.rank_until(&self.slots, &self.entry(id).task.key, end)
        };
        lane.insert(place, id);
        place
    }

    /// Takes a node out of a list of ids in key order, and tells whether it was there: mostly it is the
    /// first.
    #[inline(never)]
    pub(crate) fn take_from(&self, lane: &mut Lane, id: NodeId) -> bool
        requires { HasNode self.now.nodes id }
        ensures ids { (some : List Node) → IsLaneAmong self.now.nodes some lane.old.ids.items → lane.new.ids.items ≡ ids_of (without id some) }
        ensures room { lane.old.ids.capacity ≤ lane.new.ids.capacity }
        ensures len { length lane.new.ids.items + from_bool result ≡ length lane.old.ids.items }
    {
        // It is known of the nodes that no two have one id.
        let _ = &self.slots;
        if lane.starts_with(id) {
            let _ = lane.remove(0);
            true
        } else {
            self.take_within(lane, id)
        }
    }

    /// Takes a node out of a list, wherever it is. It stays a call.
    #[inline(never)]
    fn take_within(&self, lane: &mut Lane, id: NodeId) -> bool
        requires { HasNode self.now.nodes id }
        ensures ids { (some : List Node) → IsLaneAmong self.now.nodes some lane.old.ids.items → lane.new.ids.items ≡ ids_of (without id some) }
        ensures room { lane.old.ids.capacity ≤ lane.new.ids.capacity }
        ensures len { length lane.new.ids.items + from_bool result ≡ length lane.old.ids.items }
    {
        let Ok(place) = self.place_among(lane, id) else {
            return false;
        };
        let _ = lane.remove(place);
        true
    }

    /// The id of the node whose task has the key, found by a search among all of the nodes, by their ids
    /// in key order, that begins where one was last taken out.
    pub(crate) fn find_in(&self, order: &Lane, key: &Key) -> Option<NodeId>
        requires { order.now.ids.items ≡ ids_of self.now.nodes }
        ensures { result ≡ option_map (λ node. node.id) (node_with_key self.now.nodes key.now) }
    {
        match order.search(&self.slots, key) {
            Ok(place) => order.get(place),
            Err(_) => None,
        }
    }

    /// The id of the node whose task has the key. This goes over all nodes.
    pub(crate) fn find(&self, key: &Key) -> Option<NodeId>
        ensures { result ≡ option_map (λ node. node.id) (node_with_key self.now.nodes key.now) }
    {
        let (_, node) = self
            .slots
            .iter()
            .find(|(_, node)| node.task.key.compare(key).is_eq())?;
        Some(node.id)
    }

    /// Makes room for `additional` more nodes.
    pub(crate) fn reserve(&mut self, additional: usize) -> Result<(), NoRoom>
        ensures numbers { OnOk result (additional ≤ self.new.numbers) }
        ensures nodes { self.new.nodes ≡ self.old.nodes }
    {
        self.slots.reserve(additional)?;
        // Each key that may come is to be an id.
        if self.slots.capacity() > IDS {
            return Err(NoRoom);
        }
        Ok(())
    }

    /// Puts a node in, where `reserve` made room. It takes no memory.
    pub(crate) fn put(&mut self, task: Task, set: RwSet) -> NodeId
        requires numbers { 0 < self.old.numbers }
        requires new { IsNewKey task.key (tasks_of self.old.nodes) }
        ensures nodes { self.new.nodes ≡ put_node (new_node result task set) self.old.nodes }
        ensures numbers { self.old.numbers ≤ self.new.numbers + 1 }
        ensures keys { self.new.keys ≡ self.old.keys }
        ensures key { result.at < self.new.keys }
        ensures there { HasNode self.new.nodes result }
        ensures graph { IsGraph self.new.nodes }
    {
        put_in_laws();
        let _ascending = set.items();
        // Where an id is left no key has more than 32 bits.
        let id = NodeId {
            at: (self.slots.vacant_key() & (IDS - 1)) as u32,
        };
        let _ = self.slots.insert_reserved(Entry {
            id,
            task,
            set,
            running: false,
        });
        id
    }

    /// Takes a node out. It takes no memory.
    pub(crate) fn remove(&mut self, id: NodeId) -> Entry
        requires { HasNode self.old.nodes id }
        ensures node { node_at self.old.nodes id ≡ Some result }
        ensures nodes { self.new.nodes ≡ without id self.old.nodes }
        ensures numbers { self.old.numbers ≤ self.new.numbers }
        ensures keys { self.new.keys ≡ self.old.keys }
        ensures graph { IsGraph self.new.nodes }
    {
        self.slots.remove(id.at as usize)
    }

    /// Replaces the set of a node and gives the one that it had.
    pub(crate) fn set_set(&mut self, id: NodeId, set: RwSet) -> RwSet
        requires { HasNode self.old.nodes id }
        ensures before { set_at self.old.nodes id ≡ Some result }
        ensures nodes { self.new.nodes ≡ with_sets (record { node = id; set = set } ∷ []) self.old.nodes }
        ensures numbers { self.old.numbers ≤ self.new.numbers }
        ensures keys { self.new.keys ≡ self.old.keys }
        ensures graph { IsGraph self.new.nodes }
    {
        let _ascending = set.items();
        let named = &mut self.slots[id.at as usize];
        mem::replace(&mut named.set, set)
    }

    /// Marks a node as running.
    pub(crate) fn mark_running(&mut self, id: NodeId)
        requires { HasNode self.old.nodes id }
        ensures nodes { self.new.nodes ≡ started id self.old.nodes }
        ensures numbers { self.old.numbers ≤ self.new.numbers }
        ensures keys { self.new.keys ≡ self.old.keys }
        ensures graph { IsGraph self.new.nodes }
    {
        let named = &mut self.slots[id.at as usize];
        named.running = true;
    }
}
