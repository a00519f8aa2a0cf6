ghost use Rattle.std.specs.Prelude.{◌≡◌, ◌==◌, ◌-◌, ◌≤◌, ◌<◌, ◌+◌, ◌%◌, ◌^◌, ℕ, List, [], ◌∷◌, take, drop, filter, length, slice_get, slice_index_or, true, false, Some, OnOk, IfNone, IfSome};
ghost use Rattle.std.specs.List.{AllByRecursion};
ghost use Rattle.rw_sets.specs.declared.access.Access.TheVariants.{Read};
ghost use Rattle.rw_sets.specs.Accesses.{access_at, conflicts_with};
ghost use Rattle.kdg_graph.specs.Exchange.{AreFiledWith, midway};
ghost use Rattle.kdg_graph.specs.Node.{Node};
ghost use Rattle.kdg_graph.specs.Nodes.{HasKey, HasNode, IsGraph, ids_of, least_of, later_than, node_at};
ghost use Rattle.kdg_graph.specs.Edges.{is_blocked};
ghost use Rattle.kdg_graph.specs.Fronts.{fronts_after};
ghost use Rattle.kdg_graph.specs.Lanes.{IsRankPast};
ghost use Rattle.kdg_graph.specs.Locations.{AreFiled, HasMoreFor, HasRoomFor, HasTakenFor, HaveNoLess, HaveSameLanes, IsLaneAmong, clashing_at, front_after, is_first_before, lane_of, reserved_of, room_at, rooms_of};
ghost use Rattle.kdg_graph.specs.Rewrite.{without};

use crate::NodeId;
use crate::exchange::SetWalk;
use crate::lane::Lane;
use crate::location::{Location, Neighbours};
use crate::ordered_nodes::OrderedNodes;
use kdg_text::NoRoom;
use rw_sets::{Access, RwSet, conflict_laws};
use std::alloc::Global;
use std::ops::Range;
use task_order::Key;

/// The nodes of each location by the number of the location, which each have their place in key
/// order. A location beyond the last has no nodes.
#[derive(Drop)]
pub(crate) struct Locations {
    locations: Vec<Location>,
    // the number of the last reservation; where it comes again, as the 2^32nd after one, room may be
    // made for more nodes than come
    reservation: u32,
}

impl Locations {
    /// No locations, which take no memory.
    pub(crate) fn new(alloc: Global) -> Locations
        ensures { result.locations.items ≡ [] }
    {
        Locations {
            locations: Vec::new(alloc),
            reservation: 0,
        }
    }

    /// Begins another reservation, which has made room for no node so far.
    #[inline(always)]
    pub(crate) fn begin_reservation(&mut self)
        ensures locations { self.new.locations ≡ self.old.locations }
        ensures number { self.new.reservation ≡ (self.old.reservation + 1) % 2 ^ 32 }
    {
        self.reservation = self.reservation.wrapping_add(1);
    }

    /// Makes room for one more node at each location of a set, besides those for which this reservation
    /// made room before.
    #[inline(always)]
    pub(crate) fn reserve(&mut self, set: &RwSet) -> Result<(), NoRoom>
        ensures room { OnOk result (HasMoreFor (set.now ∷ []) (reserved_of self.old.reservation self.old.locations.items) (reserved_of self.new.reservation self.new.locations.items)) }
        ensures number { self.new.reservation ≡ self.old.reservation }
        ensures lanes { HaveSameLanes self.old.locations.items self.new.locations.items }
    {
        for pair in set.items() {
            self.reserve_at(pair.0)?;
        }
        Ok(())
    }

    /// Files a node that stands among the nodes, where `reserve` made room at each location of its
    /// set, and tells what it has before and behind it there. It takes no memory.
    #[inline(always)]
    pub(crate) fn enter(&mut self, nodes: &OrderedNodes, id: NodeId) -> Neighbours
        requires there { HasNode nodes.now.nodes id }
        requires room { IfSome (node_at nodes.now.nodes id) (λ node. HasRoomFor (node.set ∷ []) (rooms_of self.old.locations.items)) }
        requires filed { AreFiled (without id nodes.now.nodes) self.old.locations.items }
        ensures filed { AreFiled nodes.now.nodes self.new.locations.items }
        ensures first { IfSome (node_at nodes.now.nodes id) (λ node. result.first ≡ true → is_blocked nodes.now.nodes node ≡ false) }
        ensures blocked { IfSome (node_at nodes.now.nodes id) (λ node. result.blocked ≡ true → is_blocked nodes.now.nodes node ≡ true) }
        ensures blocks_none { IfSome (node_at nodes.now.nodes id) (λ node. result.blocks_none ≡ true → AllByRecursion (λ other. is_blocked (without id nodes.now.nodes) other ≡ true) (fronts_after node.set node.task.key nodes.now.nodes)) }
        ensures room { IfSome (node_at nodes.now.nodes id) (λ node. HasTakenFor (node.set ∷ []) (rooms_of self.old.locations.items) (rooms_of self.new.locations.items)) }
    {
        conflict_laws();
        let _graph = nodes.len();
        let node = nodes.entry(id);
        let mut first = true;
        let mut blocked = false;
        let mut blocks_none = true;
        for pair in node.set.items() {
            let here = self.locations[pair.0 as usize].enter(nodes, id, pair.1);
            first &= here.first;
            blocked |= here.blocked;
            blocks_none &= here.blocks_none;
        }
        Neighbours {
            first,
            blocked,
            blocks_none,
        }
    }

    /// Files a node that stands among the nodes no more, and tells whether any is left that its accesses
    /// clash with. It takes no memory.
    pub(crate) fn leave(&mut self, nodes: &OrderedNodes, id: NodeId) -> bool
        requires there { HasNode nodes.now.nodes id }
        requires filed { AreFiled nodes.now.nodes self.old.locations.items }
        ensures filed { AreFiled (without id nodes.now.nodes) self.new.locations.items }
        ensures none_left { IfSome (node_at nodes.now.nodes id) (λ node. result ≡ false → AllByRecursion (λ p. clashing_at p.0 p.1 (without id nodes.now.nodes) ≡ []) node.set) }
        ensures no_less { HaveNoLess (rooms_of self.old.locations.items) (rooms_of self.new.locations.items) }
    {
        let _graph = nodes.len();
        let node = nodes.entry(id);
        let mut left = false;
        for pair in node.set.items() {
            let here = &mut self.locations[pair.0 as usize];
            here.leave(nodes, id, pair.1);
            left |= here.clashing(pair.1).len() > 0;
        }
        left
    }

    /// Files a node anew whose set was another before, where `reserve` made room: only what the two
    /// sets don't have in common changes. It takes no memory.
    pub(crate) fn exchange(&mut self, nodes: &OrderedNodes, id: NodeId, before: &RwSet)
        requires there { HasNode nodes.now.nodes id }
        requires filed { IfSome (node_at nodes.now.nodes id) (λ node. AreFiledWith (without id nodes.now.nodes) node (access_at before.now) self.old.locations.items) }
        requires room { IfSome (node_at nodes.now.nodes id) (λ node. HasRoomFor (node.set ∷ []) (rooms_of self.old.locations.items)) }
        ensures filed { AreFiled nodes.now.nodes self.new.locations.items }
        ensures room { IfSome (node_at nodes.now.nodes id) (λ node. HasTakenFor (node.set ∷ []) (rooms_of self.old.locations.items) (rooms_of self.new.locations.items)) }
    {
        self.leave_lacking(nodes, id, before);
        self.enter_lacking(nodes, id, before);
    }

    /// Files a node no more at the locations where its set before had an access that it lacks now.
    fn leave_lacking(&mut self, nodes: &OrderedNodes, id: NodeId, before: &RwSet)
        requires there { HasNode nodes.now.nodes id }
        requires filed { IfSome (node_at nodes.now.nodes id) (λ node. AreFiledWith (without id nodes.now.nodes) node (access_at before.now) self.old.locations.items) }
        ensures filed { IfSome (node_at nodes.now.nodes id) (λ node. AreFiledWith (without id nodes.now.nodes) node (midway before.now node.set []) self.new.locations.items) }
        ensures no_less { HaveNoLess (rooms_of self.old.locations.items) (rooms_of self.new.locations.items) }
    {
        let _graph = nodes.len();
        let node = nodes.entry(id);
        let mut walk = SetWalk::new(&node.set);
        for pair in before.items() {
            if walk.has(pair.0, pair.1) {
                continue;
            }
            self.locations[pair.0 as usize].leave(nodes, id, pair.1);
        }
    }

    /// Files a node at the locations where it has an access that its set before lacked.
    fn enter_lacking(&mut self, nodes: &OrderedNodes, id: NodeId, before: &RwSet)
        requires there { HasNode nodes.now.nodes id }
        requires filed { IfSome (node_at nodes.now.nodes id) (λ node. AreFiledWith (without id nodes.now.nodes) node (midway before.now node.set []) self.old.locations.items) }
        requires room { IfSome (node_at nodes.now.nodes id) (λ node. HasRoomFor (node.set ∷ []) (rooms_of self.old.locations.items)) }
        ensures filed { AreFiled nodes.now.nodes self.new.locations.items }
        ensures room { IfSome (node_at nodes.now.nodes id) (λ node. HasTakenFor (node.set ∷ []) (rooms_of self.old.locations.items) (rooms_of self.new.locations.items)) }
    {
        let _graph = nodes.len();
        let node = nodes.entry(id);
        let mut walk = SetWalk::new(before);
        for pair in node.set.items() {
            if walk.has(pair.0, pair.1) {
                continue;
            }
            let _ = self.locations[pair.0 as usize].enter(nodes, id, pair.1);
        }
    }

    /// Whether an earlier node is in conflict with a node, by the first nodes of the locations of its
    /// set.
    pub(crate) fn is_blocked(&self, nodes: &OrderedNodes, id: NodeId) -> bool
        requires there { HasNode nodes.now.nodes id }
        requires filed { AreFiled nodes.now.nodes self.now.locations.items }
        ensures { IfSome (node_at nodes.now.nodes id) (λ node. result ≡ is_blocked nodes.now.nodes node) }
    {
        conflict_laws();
        let _graph = nodes.len();
        let node = nodes.entry(id);
        for pair in node.set.items() {
            if self.is_blocked_at(nodes, id, &node.task.key, pair.0, pair.1) {
                return true;
            }
        }
        false
    }

    /// The places, among the nodes that an access to a location clashes with, of those later than the
    /// key up to the first that writes the location, and this one. `first` tells whether it is known
    /// that all are later.
    #[inline(always)]
    pub(crate) fn front(
        &self,
        nodes: &OrderedNodes,
        loc: u32,
        access: Access,
        key: &Key,
        first: bool,
    ) -> Range<usize>
        requires first { first ≡ true → IsRankPast key.now (clashing_at loc access nodes.now.nodes) 0 }
        requires filed { AreFiled nodes.now.nodes self.now.locations.items }
        ensures ordered { result.start ≤ result.end }
        ensures inside { result.end ≤ length (lane_of self.now.locations.items loc access) }
        ensures ids { take (result.end - result.start) (drop result.start (lane_of self.now.locations.items loc access)) ≡ ids_of (front_after loc access key.now nodes.now.nodes) }
    {
        match self.lane(loc, access) {
            Some(lane) => {
                let start = rank_known(nodes, lane, key, first);
                self.front_from(nodes, lane, loc, access, key, start)
            }
            None => 0..0,
        }
    }

    /// The front behind a node, which mostly was put in last.
    pub(crate) fn front_behind(
        &self,
        nodes: &OrderedNodes,
        id: NodeId,
        loc: u32,
        access: Access,
        key: &Key,
    ) -> Range<usize>
        requires key { HasKey nodes.now.nodes id key.now }
        requires filed { AreFiled nodes.now.nodes self.now.locations.items }
        ensures ordered { result.start ≤ result.end }
        ensures inside { result.end ≤ length (lane_of self.now.locations.items loc access) }
        ensures ids { take (result.end - result.start) (drop result.start (lane_of self.now.locations.items loc access)) ≡ ids_of (front_after loc access key.now nodes.now.nodes) }
    {
        match self.lane(loc, access) {
            Some(lane) => {
                let start = nodes.rank_behind(lane, id, lane.last_put());
                self.front_from(nodes, lane, loc, access, key, start)
            }
            None => 0..0,
        }
    }

    /// The front behind those that are known not to be later, `start` of them. Where all write the
    /// location, it is the next one alone.
    #[inline(always)]
    fn front_from(
        &self,
        nodes: &OrderedNodes,
        lane: &Lane,
        loc: u32,
        access: Access,
        key: &Key,
        start: usize,
    ) -> Range<usize>
        requires lane { lane.now.ids.items ≡ lane_of self.now.locations.items loc access }
        requires rank { IsRankPast key.now (clashing_at loc access nodes.now.nodes) start }
        requires inside { start ≤ length lane.now.ids.items }
        requires filed { AreFiled nodes.now.nodes self.now.locations.items }
        ensures ordered { result.start ≤ result.end }
        ensures inside { result.end ≤ length (lane_of self.now.locations.items loc access) }
        ensures ids { take (result.end - result.start) (drop result.start (lane_of self.now.locations.items loc access)) ≡ ids_of (front_after loc access key.now nodes.now.nodes) }
    {
        let _graph = nodes.len();
        if start == lane.len() {
            return start..start;
        }
        if self.all_write(loc, access) {
            return start..start + 1;
        }
        let end = match self.writer_behind(nodes, loc, access, key, start) {
            Some(writer) => nodes.rank_behind(lane, writer, start),
            None => lane.len(),
        };
        start..end
    }

    /// The first node later than the key that writes a location, where `start` of those that an access
    /// clashes with are not later. Where none is, it is the first of all that write it.
    fn writer_behind(
        &self,
        nodes: &OrderedNodes,
        loc: u32,
        access: Access,
        key: &Key,
        start: usize,
    ) -> Option<NodeId>
        requires rank { IsRankPast key.now (clashing_at loc access nodes.now.nodes) start }
        requires filed { AreFiled nodes.now.nodes self.now.locations.items }
        ensures { result ≡ least_of (clashing_at loc Read (later_than key.now nodes.now.nodes)) }
    {
        if start > 0 {
            return self.first_after(nodes, loc, Access::Read, key);
        }
        self.first_writer(loc)
    }

    /// The first of all nodes that write a location.
    pub(crate) fn first_writer(&self, loc: u32) -> Option<NodeId>
        ensures { result ≡ slice_get (lane_of self.now.locations.items loc Read) 0 }
    {
        let writers = self.lane(loc, Access::Read)?;
        writers.get(0)
    }

    /// The id at a place among the nodes that an access to a location clashes with.
    pub(crate) fn at(&self, loc: u32, access: Access, place: usize) -> NodeId
        requires { place < length (lane_of self.now.locations.items loc access) }
        ensures { result ≡ slice_index_or (lane_of self.now.locations.items loc access) place result }
    {
        match self.lane(loc, access) {
            Some(lane) => lane.at(place),
            None => unreachable!(),
        }
    }

    /// The first node later than the key that an access to a location clashes with.
    pub(crate) fn first_after(
        &self,
        nodes: &OrderedNodes,
        loc: u32,
        access: Access,
        key: &Key,
    ) -> Option<NodeId>
        requires filed { AreFiled nodes.now.nodes self.now.locations.items }
        ensures { result ≡ least_of (clashing_at loc access (later_than key.now nodes.now.nodes)) }
    {
        let lane = self.lane(loc, access)?;
        let place = nodes.rank_past(lane, key);
        lane.get(place)
    }

    /// The first node behind a given one that an access clashes with. Where the access writes, the node
    /// mostly is one of these, at a place or close behind it.
    fn first_behind(
        &self,
        nodes: &OrderedNodes,
        id: NodeId,
        key: &Key,
        near: usize,
        loc: u32,
        access: Access,
    ) -> Option<NodeId>
        requires key { HasKey nodes.now.nodes id key.now }
        requires filed { AreFiled nodes.now.nodes self.now.locations.items }
        ensures { result ≡ least_of (clashing_at loc access (later_than key.now nodes.now.nodes)) }
    {
        if !access.is_write() {
            return self.first_after(nodes, loc, access, key);
        }
        let lane = self.lane(loc, access)?;
        let next = nodes.rank_behind(lane, id, near);
        lane.get(next)
    }

    /// The first node later than a node whose recorded set conflicts with a set. The first of all later
    /// nodes may be given: none is earlier, so the search ends where it is found. The node mostly stands
    /// at a place, or close behind it, among those of a location that the set writes.
    pub(crate) fn first_in_conflict(
        &self,
        nodes: &OrderedNodes,
        set: &RwSet,
        id: NodeId,
        key: &Key,
        near: usize,
        next: Option<NodeId>,
    ) -> Option<NodeId>
        requires key { HasKey nodes.now.nodes id key.now }
        requires filed { AreFiled nodes.now.nodes self.now.locations.items }
        requires next { IfSome next (λ id. least_of (later_than key.now nodes.now.nodes) ≡ Some id) }
        ensures first { result ≡ least_of (filter (λ other. conflicts_with set.now other.set) (later_than key.now nodes.now.nodes)) }
        ensures graph { IsGraph nodes.now.nodes }
    {
        let _graph = nodes.len();
        let mut first = None;
        for pair in set.items() {
            let other = self.first_behind(nodes, id, key, near, pair.0, pair.1);
            if next.is_some() && other == next {
                return other;
            }
            first = nodes.earlier(first, other);
        }
        first
    }

    /// Whether the first node that an access of a node to a location clashes with is earlier. Where the
    /// node writes it is one of these itself, and its id tells whether it is the first.
    fn is_blocked_at(
        &self,
        nodes: &OrderedNodes,
        id: NodeId,
        key: &Key,
        loc: u32,
        access: Access,
    ) -> bool
        requires key { HasKey nodes.now.nodes id key.now }
        requires access { IfSome (node_at nodes.now.nodes id) (λ node. access_at node.set loc ≡ Some access) }
        requires filed { AreFiled nodes.now.nodes self.now.locations.items }
        ensures { result ≡ is_first_before key.now (clashing_at loc access nodes.now.nodes) }
    {
        let _graph = nodes.len();
        let Some(lane) = self.lane(loc, access) else {
            return false;
        };
        match access {
            Access::Read => nodes.starts_before(lane, key),
            Access::Write => !lane.starts_with(id),
        }
    }

    /// Whether all nodes that an access to a location clashes with write it, by their number.
    fn all_write(&self, loc: u32, access: Access) -> bool
        ensures { result ≡ (length (lane_of self.now.locations.items loc access) == length (lane_of self.now.locations.items loc Read)) }
    {
        self.count(loc, access) == self.count(loc, Access::Read)
    }

    /// How many nodes an access to a location clashes with.
    fn count(&self, loc: u32, access: Access) -> usize
        ensures { result ≡ length (lane_of self.now.locations.items loc access) }
    {
        match self.lane(loc, access) {
            Some(lane) => lane.len(),
            None => 0,
        }
    }

    /// The nodes that an access to a location clashes with, if the location is kept.
    fn lane(&self, loc: u32, access: Access) -> Option<&Lane>
        ensures kept { IfSome result (λ lane. lane.now.ids.items ≡ lane_of self.now.locations.items loc access) }
        ensures beyond { IfNone result (lane_of self.now.locations.items loc access ≡ []) }
    {
        match self.locations.get(loc as usize) {
            Some(location) => Some(location.clashing(access)),
            None => None,
        }
    }

    /// Makes room for one more node at a location.
    fn reserve_at(&mut self, loc: u32) -> Result<(), NoRoom>
        ensures room { OnOk result (room_at (reserved_of self.old.reservation self.old.locations.items) loc + 1 ≤ room_at (reserved_of self.new.reservation self.new.locations.items) loc) }
        ensures no_less { OnOk result (HaveNoLess (reserved_of self.old.reservation self.old.locations.items) (reserved_of self.new.reservation self.new.locations.items)) }
        ensures number { self.new.reservation ≡ self.old.reservation }
        ensures lanes { HaveSameLanes self.old.locations.items self.new.locations.items }
    {
        let loc = loc as usize;
        self.reach(loc)?;
        self.locations[loc].reserve(self.reservation)
    }

    /// Keeps each location up to one.
    fn reach(&mut self, loc: usize) -> Result<(), NoRoom>
        ensures reached { OnOk result (loc < length self.new.locations.items) }
        ensures no_less { HaveNoLess (reserved_of self.old.reservation self.old.locations.items) (reserved_of self.new.reservation self.new.locations.items) }
        ensures number { self.new.reservation ≡ self.old.reservation }
        ensures lanes { HaveSameLanes self.old.locations.items self.new.locations.items }
    {
        let alloc = *self.locations.allocator();
        while self.locations.len() <= loc {
            self.locations.push(Location::new(alloc))?;
        }
        Ok(())
    }
}

/// How many of some of the nodes, by their ids in key order, are not later than the key: none, with no
/// key compared, where it is known that all are later.
#[inline(always)]
fn rank_known(nodes: &OrderedNodes, lane: &Lane, key: &Key, first: bool) -> usize
    ensures rank { (some : List Node) → IsLaneAmong nodes.now.nodes some lane.now.ids.items → (first ≡ true → IsRankPast key.now some 0) → IsRankPast key.now some result }
    ensures graph { IsGraph nodes.now.nodes }
    ensures inside { result ≤ length lane.now.ids.items }
{
    let _graph = nodes.len();
    if first {
        return 0;
    }
    nodes.rank_past(lane, key)
}
