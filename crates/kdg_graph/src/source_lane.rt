ghost use Rattle.std.specs.Prelude.{◌≡◌, ◌∷◌, ◌≤◌, ◌<◌, ◌||◌, ℕ, [], Bool, true, false, filter, get_or, length, IfSome, IsPermutation, OnOk};
ghost use Rattle.std.specs.List.{AllByRecursion};
ghost use Rattle.kdg_graph.specs.Node.{Node};
ghost use Rattle.kdg_graph.specs.Nodes.{HasKey, HasNode, IsGraph, ids_of, least_of, node_at};
ghost use Rattle.kdg_graph.specs.Edges.{is_blocked};
ghost use Rattle.kdg_graph.specs.Fronts.{fronts_after};
ghost use Rattle.kdg_graph.specs.Lanes.{IsRankPast};
ghost use Rattle.kdg_graph.specs.Locations.{AreFiled, clashing_at, front_after};
ghost use Rattle.kdg_graph.specs.Selected.{AreForgotten, AreInTurn, AreMarked, AreRefreshed, AreRetested, AreSelected, AreSome, HasGone, HaveMarks, IsInOrder, IsNext, TellsItsKey, arrived, forgotten, has_number, ids_in, is_left, is_recent, is_settled, listed_in, recent_among, recent_in, settled_among, settled_from, settled_in};
ghost use Rattle.kdg_graph.specs.declared.source_lane.Standing.TheVariants.{Absent};

use crate::NodeId;
use crate::arrival::Arrival;
use crate::lane::Lane;
use crate::location::Neighbours;
use crate::locations::Locations;
use crate::ordered_nodes::OrderedNodes;
use kdg_text::NoRoom;
use rw_sets::{Access, RwSet};
use std::alloc::Global;
use std::marker::Model;
use task_order::{Key, beginning_laws};

/// Where an id stands.
#[derive(Clone, Copy, PartialEq, Eq)]
pub(crate) enum Standing {
    /// In neither list, or there no more.
    Absent,
    /// Among those in key order.
    Settled,
    /// Among those that came since.
    Recent,
}

/// The ids of the nodes of a graph that no earlier node is in conflict with. Where a node comes, goes
/// or changes, it and the fronts behind it at the locations of its set are tested anew.
///
/// An id that goes out only loses its mark, and one that comes in waits, until `settle` takes those that
/// went out of the list and puts all others that came in order with the rest, which takes less than to
/// find a place for each at once.
#[derive(Drop)]
pub(crate) struct SourceLane {
    /// Those in key order, where they are marked so.
    settled: Lane,
    /// Those that came since, where they are marked so. One that went and came again may stand twice.
    arrivals: Vec<Arrival>,
    /// Where each id stands, by its number.
    standings: Vec<Standing>,
    /// How many ids of the list in key order are marked otherwise.
    gone: usize,
}

impl Model for SourceLane {
    ghost use Rattle.kdg_graph.specs.Selected.{AreMarked, HasGone, MarkedIds, recent_among, settled_among};

    ghost Value = { MarkedIds };

    ghost view = { λ s. record {
      entries = s.settled.ids.items;
      arrivals = s.arrivals.items;
      standings = s.standings.items;
      room = s.settled.ids.capacity;
    } };

    ghost invariant = { λ s. AreMarked (settled_among s.standings.items s.settled.ids.items) (recent_among s.standings.items s.arrivals.items) s.standings.items × HasGone s.standings.items s.settled.ids.items s.gone };
}

impl SourceLane {
    /// No ids, which take no memory.
    pub(crate) fn new(alloc: Global) -> SourceLane
        ensures entries { result.entries ≡ [] }
        ensures arrivals { result.arrivals ≡ [] }
    {
        SourceLane {
            settled: Lane::new(alloc),
            arrivals: Vec::new(alloc),
            standings: Vec::new(alloc),
            gone: 0,
        }
    }

    /// The list that has those in key order, where `settled_from` tells which places count.
    #[inline(always)]
    pub(crate) fn settled(&self) -> &Lane
        ensures { result.now.ids.items ≡ self.now.entries }
    {
        &self.settled
    }

    /// The first place in it, from one on, of an id that is still there, or the end.
    #[inline(always)]
    pub(crate) fn settled_from(&self, start: usize) -> usize
        ensures left { settled_from self.now result ≡ settled_from self.now start }
        ensures next { IsNext self.now result }
    {
        if self.gone == 0 {
            return start;
        }
        let mut place = start;
        while let Some(id) = self.settled.get(place) {
            if self.is_in_order(id) {
                return place;
            }
            place += 1;
        }
        place
    }

    /// Makes room for the ids of `nodes` nodes, and marks for the ids below `below`.
    pub(crate) fn reserve(&mut self, nodes: usize, below: usize) -> Result<(), NoRoom>
        ensures room { OnOk result (nodes ≤ self.new.room) }
        ensures marks { OnOk result (below ≤ length self.new.standings) }
        ensures no_less { self.old.room ≤ self.new.room }
        ensures no_fewer { length self.old.standings ≤ length self.new.standings }
        ensures settled { settled_in self.new ≡ settled_in self.old }
        ensures recent { recent_in self.new ≡ recent_in self.old }
    {
        let len = self.settled.len();
        self.settled.reserve(nodes.saturating_sub(len))?;
        reserve_marks(&mut self.standings, below)
    }

    /// Whether an id is marked as being among those in key order.
    #[inline(always)]
    fn is_in_order(&self, id: NodeId) -> bool
        ensures { result ≡ is_settled (get_or self.now.standings id.at Absent) }
    {
        marks_in_order(&self.standings, id)
    }

    /// Whether an id is marked as one that came since.
    #[inline(always)]
    fn is_waiting(&self, id: NodeId) -> bool
        ensures { result ≡ is_recent (get_or self.now.standings id.at Absent) }
    {
        marks_waiting(&self.standings, id)
    }

    /// Whether an id is there.
    #[inline(always)]
    pub(crate) fn is_listed(&self, id: NodeId) -> bool
        ensures mark { result ≡ (is_settled (get_or self.now.standings id.at Absent) || is_recent (get_or self.now.standings id.at Absent)) }
        ensures listed { result ≡ has_number id.at (ids_in self.now) }
    {
        // It is known that an id is marked just where it stands in one of the lists.
        let _ = &self.settled;
        self.is_in_order(id) || self.is_waiting(id)
    }

    /// The earliest of the nodes that are behind one, if one is given. The earliest of those in key order
    /// is known.
    #[inline(always)]
    pub(crate) fn earliest(
        &self,
        nodes: &OrderedNodes,
        settled: Option<NodeId>,
        last: Option<NodeId>,
    ) -> Option<NodeId>
        requires graph { IsGraph nodes.now.nodes }
        requires some { AreSome nodes.now.nodes self.now }
        requires last { IfSome last (HasNode nodes.now.nodes) }
        requires settled { settled ≡ least_of (filter (is_left nodes.now.nodes (settled_in self.now) last) nodes.now.nodes) }
        ensures { result ≡ least_of (filter (is_left nodes.now.nodes (ids_in self.now) last) nodes.now.nodes) }
    {
        let mut first = settled;
        for arrival in &self.arrivals {
            if !self.is_waiting(arrival.id) {
                continue;
            }
            if nodes.is_behind(arrival.id, last) {
                first = nodes.earlier(first, Some(arrival.id));
            }
        }
        first
    }

    /// Takes the id of a node out, if it is there: it only loses its mark.
    #[inline(always)]
    pub(crate) fn forget(&mut self, nodes: &OrderedNodes, id: NodeId)
        requires graph { IsGraph nodes.now.nodes }
        requires there { HasNode nodes.now.nodes id }
        requires some { AreSome nodes.now.nodes self.old }
        ensures { AreForgotten nodes.now.nodes (id ∷ []) self.old self.new }
    {
        let _small = self.settled.len();
        let fewer = usize::from(self.is_in_order(id));
        self.gone = self.gone.saturating_add(fewer);
        self.standings[id.at as usize] = Standing::Absent;
    }

    /// Puts the id of a node in, if it is not there: among those to be put in order, or in its place
    /// at once where there is no memory for that.
    #[inline(always)]
    fn list(&mut self, nodes: &OrderedNodes, id: NodeId)
        requires graph { IsGraph nodes.now.nodes }
        requires there { HasNode nodes.now.nodes id }
        requires some { AreSome nodes.now.nodes self.old }
        ensures { AreRetested nodes.now.nodes (λ _. true) (id ∷ []) self.old self.new }
    {
        if self.is_listed(id) {
            return;
        }
        let arrival = Arrival::new(id);
        if self.arrivals.push(arrival).is_ok() {
            self.standings[id.at as usize] = Standing::Recent;
        } else {
            self.list_at_once(nodes, id);
        }
    }

    /// Puts the id of a node that is not there in its place, once all others are in order. It takes no
    /// memory.
    #[inline(never)]
    fn list_at_once(&mut self, nodes: &OrderedNodes, id: NodeId)
        requires graph { IsGraph nodes.now.nodes }
        requires there { HasNode nodes.now.nodes id }
        requires absent { has_number id.at (ids_in self.old) ≡ false }
        requires some { AreSome nodes.now.nodes self.old }
        ensures { AreRetested nodes.now.nodes (λ _. true) (id ∷ []) self.old self.new }
    {
        self.settle(nodes);
        let _ = nodes.put_into(&mut self.settled, id);
        self.standings[id.at as usize] = Standing::Settled;
    }

    /// Takes those that went out of the list in key order, and puts those that came in order with the
    /// others. It takes no memory.
    #[inline(always)]
    pub(crate) fn settle(&mut self, nodes: &OrderedNodes)
        requires graph { IsGraph nodes.now.nodes }
        requires some { AreSome nodes.now.nodes self.old }
        ensures listed { listed_in nodes.now.nodes self.new ≡ listed_in nodes.now.nodes self.old }
        ensures none_gone { settled_in self.new ≡ self.new.entries }
        ensures none_came { self.new.arrivals ≡ [] }
        ensures some { AreSome nodes.now.nodes self.new }
        ensures room { self.old.room ≤ self.new.room }
        ensures marks { length self.new.standings ≡ length self.old.standings }
    {
        self.drop_gone();
        if !self.arrivals.is_empty() {
            self.settle_arrivals(nodes);
        }
    }

    /// Takes the ids that are marked otherwise out of the list in key order.
    #[inline(always)]
    fn drop_gone(&mut self)
        ensures none_gone { settled_in self.new ≡ self.new.entries }
        ensures settled { settled_in self.new ≡ settled_in self.old }
        ensures recent { recent_in self.new ≡ recent_in self.old }
        ensures room { self.old.room ≤ self.new.room }
        ensures marks { length self.new.standings ≡ length self.old.standings }
    {
        if self.gone > 0 {
            take_gone(&mut self.settled, &self.standings, self.gone);
            self.gone = 0;
        }
    }

    /// Puts those that came in order with the others, where the list has no others.
    fn settle_arrivals(&mut self, nodes: &OrderedNodes)
        requires graph { IsGraph nodes.now.nodes }
        requires none_gone { settled_in self.old ≡ self.old.entries }
        requires some { AreSome nodes.now.nodes self.old }
        ensures listed { listed_in nodes.now.nodes self.new ≡ listed_in nodes.now.nodes self.old }
        ensures none_gone { settled_in self.new ≡ self.new.entries }
        ensures none_came { self.new.arrivals ≡ [] }
        ensures some { AreSome nodes.now.nodes self.new }
        ensures room { self.old.room ≤ self.new.room }
        ensures marks { length self.new.standings ≡ length self.old.standings }
    {
        order_arrivals(&mut self.arrivals, nodes);
        put_in_order(
            &mut self.settled,
            &mut self.standings,
            &mut self.arrivals,
            nodes,
        );
    }

    /// Puts the id of a node in or takes it out, by whether an earlier node is in conflict with it.
    #[inline(always)]
    pub(crate) fn refresh(&mut self, nodes: &OrderedNodes, locations: &Locations, id: NodeId)
        requires graph { IsGraph nodes.now.nodes }
        requires there { HasNode nodes.now.nodes id }
        requires filed { AreFiled nodes.now.nodes locations.now.locations.items }
        requires some { AreSome nodes.now.nodes self.old }
        ensures { AreRefreshed nodes.now.nodes (id ∷ []) self.old self.new }
    {
        if locations.is_blocked(nodes, id) {
            self.forget(nodes, id);
        } else {
            self.list(nodes, id);
        }
    }

    /// Refreshes a node that came, as far as it isn't known whether an earlier one blocks it.
    #[inline(always)]
    pub(crate) fn enter(
        &mut self,
        nodes: &OrderedNodes,
        locations: &Locations,
        id: NodeId,
        known: Neighbours,
    )
        requires graph { IsGraph nodes.now.nodes }
        requires there { HasNode nodes.now.nodes id }
        requires filed { AreFiled nodes.now.nodes locations.now.locations.items }
        requires first { IfSome (node_at nodes.now.nodes id) (λ node. known.first ≡ true → is_blocked nodes.now.nodes node ≡ false) }
        requires blocked { IfSome (node_at nodes.now.nodes id) (λ node. known.blocked ≡ true → is_blocked nodes.now.nodes node ≡ true) }
        requires some { AreSome nodes.now.nodes self.old }
        ensures { AreRefreshed nodes.now.nodes (id ∷ []) self.old self.new }
    {
        if known.first {
            self.list(nodes, id);
        } else if known.blocked {
            self.forget(nodes, id);
        } else {
            self.refresh(nodes, locations, id);
        }
    }

    /// Takes the nodes of the fronts behind a node out, unless it is known to block none of them alone:
    /// then they aren't there.
    #[inline(always)]
    pub(crate) fn forget_behind(
        &mut self,
        nodes: &OrderedNodes,
        locations: &Locations,
        id: NodeId,
        blocks_none: bool,
    )
        requires graph { IsGraph nodes.now.nodes }
        requires there { HasNode nodes.now.nodes id }
        requires filed { AreFiled nodes.now.nodes locations.now.locations.items }
        requires some { AreSome nodes.now.nodes self.old }
        ensures ids { (test : Node → Bool) → AreSelected nodes.now.nodes test (listed_in nodes.now.nodes self.old)
            → IfSome (node_at nodes.now.nodes id) (λ node. (blocks_none ≡ true → AllByRecursion (λ other. test other ≡ false) (fronts_after node.set node.task.key nodes.now.nodes))
            → AreSelected nodes.now.nodes (forgotten (ids_of (fronts_after node.set node.task.key nodes.now.nodes)) test) (listed_in nodes.now.nodes self.new)) }
        ensures some { AreSome nodes.now.nodes self.new }
        ensures room { self.old.room ≤ self.new.room }
        ensures marks { length self.new.standings ≡ length self.old.standings }
    {
        if !blocks_none {
            let node = nodes.entry(id);
            self.forget_fronts(nodes, locations, id, &node.set, &node.task.key);
        }
    }

    /// Refreshes the nodes of the front behind a key at one location. `first` tells whether it is known
    /// that all nodes that the access clashes with are later.
    #[inline(always)]
    pub(crate) fn refresh_front(
        &mut self,
        nodes: &OrderedNodes,
        locations: &Locations,
        loc: u32,
        access: Access,
        key: &Key,
        first: bool,
    )
        requires graph { IsGraph nodes.now.nodes }
        requires first { first ≡ true → IsRankPast key.now (clashing_at loc access nodes.now.nodes) 0 }
        requires filed { AreFiled nodes.now.nodes locations.now.locations.items }
        requires some { AreSome nodes.now.nodes self.old }
        ensures { AreRefreshed nodes.now.nodes (ids_of (front_after loc access key.now nodes.now.nodes)) self.old self.new }
    {
        let front = locations.front(nodes, loc, access, key, first);
        for place in front.start..front.end {
            self.refresh(nodes, locations, locations.at(loc, access, place));
        }
    }

    /// Refreshes the nodes of the fronts behind a key at the locations of a set. `first` tells whether
    /// it is known that all nodes that its accesses clash with are later.
    pub(crate) fn refresh_fronts(
        &mut self,
        nodes: &OrderedNodes,
        locations: &Locations,
        set: &RwSet,
        key: &Key,
        first: bool,
    )
        requires graph { IsGraph nodes.now.nodes }
        requires first { first ≡ true → AllByRecursion (λ p. IsRankPast key.now (clashing_at p.0 p.1 nodes.now.nodes) 0) set.now }
        requires filed { AreFiled nodes.now.nodes locations.now.locations.items }
        requires some { AreSome nodes.now.nodes self.old }
        ensures { AreRefreshed nodes.now.nodes (ids_of (fronts_after set.now key.now nodes.now.nodes)) self.old self.new }
    {
        for pair in set.items() {
            self.refresh_front(nodes, locations, pair.0, pair.1, key, first);
        }
    }

    /// Refreshes the fronts behind a node, unless it is known that none is left that its accesses clash
    /// with.
    #[inline(always)]
    pub(crate) fn refresh_behind(
        &mut self,
        nodes: &OrderedNodes,
        locations: &Locations,
        set: &RwSet,
        key: &Key,
        first: bool,
        left: bool,
    )
        requires graph { IsGraph nodes.now.nodes }
        requires first { first ≡ true → AllByRecursion (λ p. IsRankPast key.now (clashing_at p.0 p.1 nodes.now.nodes) 0) set.now }
        requires none_left { left ≡ false → AllByRecursion (λ p. clashing_at p.0 p.1 nodes.now.nodes ≡ []) set.now }
        requires filed { AreFiled nodes.now.nodes locations.now.locations.items }
        requires some { AreSome nodes.now.nodes self.old }
        ensures { AreRefreshed nodes.now.nodes (ids_of (fronts_after set.now key.now nodes.now.nodes)) self.old self.new }
    {
        if left {
            self.refresh_fronts(nodes, locations, set, key, first);
        }
    }

    /// Takes the nodes of the front behind a node at one location out.
    fn forget_front(
        &mut self,
        nodes: &OrderedNodes,
        locations: &Locations,
        id: NodeId,
        loc: u32,
        access: Access,
        key: &Key,
    )
        requires graph { IsGraph nodes.now.nodes }
        requires key { HasKey nodes.now.nodes id key.now }
        requires filed { AreFiled nodes.now.nodes locations.now.locations.items }
        requires some { AreSome nodes.now.nodes self.old }
        ensures { AreForgotten nodes.now.nodes (ids_of (front_after loc access key.now nodes.now.nodes)) self.old self.new }
    {
        let behind = locations.front_behind(nodes, id, loc, access, key);
        for place in behind.start..behind.end {
            self.forget(nodes, locations.at(loc, access, place));
        }
    }

    /// Takes the nodes of the fronts behind a node at the locations of a set out.
    pub(crate) fn forget_fronts(
        &mut self,
        nodes: &OrderedNodes,
        locations: &Locations,
        id: NodeId,
        set: &RwSet,
        key: &Key,
    )
        requires graph { IsGraph nodes.now.nodes }
        requires key { HasKey nodes.now.nodes id key.now }
        requires filed { AreFiled nodes.now.nodes locations.now.locations.items }
        requires some { AreSome nodes.now.nodes self.old }
        ensures { AreForgotten nodes.now.nodes (ids_of (fronts_after set.now key.now nodes.now.nodes)) self.old self.new }
    {
        for pair in set.items() {
            self.forget_front(nodes, locations, id, pair.0, pair.1, key);
        }
    }
}

/// Whether an id is marked as being among those in key order.
#[inline(always)]
fn marks_in_order(standings: &[Standing], id: NodeId) -> bool
    ensures { result ≡ is_settled (get_or standings.now id.at Absent) }
{
    match standings.get(id.at as usize) {
        Some(standing) => *standing == Standing::Settled,
        None => false,
    }
}

/// Whether an id is marked as one that came since.
#[inline(always)]
fn marks_waiting(standings: &[Standing], id: NodeId) -> bool
    ensures { result ≡ is_recent (get_or standings.now id.at Absent) }
{
    match standings.get(id.at as usize) {
        Some(standing) => *standing == Standing::Recent,
        None => false,
    }
}

/// Makes marks for ids below a number, each of one that stands nowhere.
fn reserve_marks(standings: &mut Vec<Standing>, below: usize) -> Result<(), NoRoom>
    ensures same { (at : ℕ) → get_or standings.new.items at Absent ≡ get_or standings.old.items at Absent }
    ensures marks { OnOk result (below ≤ length standings.new.items) }
    ensures no_fewer { length standings.old.items ≤ length standings.new.items }
{
    if standings.len() < below {
        standings.resize(below, Standing::Absent)?;
    }
    Ok(())
}

/// Takes those out that are marked as being there no more, of which there are `gone`. Where a round had
/// all of them, none is looked at.
#[inline(always)]
fn take_gone(settled: &mut Lane, standings: &[Standing], gone: usize)
    requires { HasGone standings.now settled.old.ids.items gone }
    ensures left { settled.new.ids.items ≡ settled_among standings.now settled.old.ids.items }
    ensures room { settled.old.ids.capacity ≤ settled.new.ids.capacity }
{
    if gone == settled.len() {
        settled.clear();
        return;
    }
    let mut left = gone;
    let mut place = 0;
    while left > 0 {
        let Some(id) = settled.get(place) else {
            return;
        };
        if marks_in_order(standings, id) {
            place += 1;
        } else {
            let _ = settled.remove(place);
            left -= 1;
        }
    }
}

/// Sorts those that came. One alone is in order as it is, and what its key tells isn't looked up.
#[inline(always)]
fn order_arrivals(arrivals: &mut [Arrival], nodes: &OrderedNodes)
    ensures moved { IsPermutation (arrived arrivals.old) (arrived arrivals.new) }
    ensures told { 1 < length arrivals.new → AllByRecursion (TellsItsKey nodes.now.nodes) arrivals.new }
    ensures in_turn { AreInTurn nodes.now.nodes arrivals.new }
{
    if arrivals.len() > 1 {
        look_up(arrivals, nodes);
        arrivals.sort_unstable_by(|one, other| nodes.compare(one, other));
    }
}

/// Looks up what mostly tells how the key of each compares. Since it came its id may have become that
/// of another node, or of none.
fn look_up(arrivals: &mut [Arrival], nodes: &OrderedNodes)
    ensures ids { arrived arrivals.new ≡ arrived arrivals.old }
    ensures told { AllByRecursion (TellsItsKey nodes.now.nodes) arrivals.new }
{
    for arrival in arrivals.iter_mut() {
        *arrival = nodes.arrival(arrival.id);
    }
}

/// Puts the ids that are marked as having come in order with the others, the latest first, each by a
/// search back from the one before it. The others mostly are later than all that came, and then none is
/// moved. It leaves none of those that came, also of those that went or came twice.
fn put_in_order(
    settled: &mut Lane,
    standings: &mut [Standing],
    arrivals: &mut Vec<Arrival>,
    nodes: &OrderedNodes,
)
    requires graph { IsGraph nodes.now.nodes }
    requires there { AllByRecursion (λ arrival. HasNode nodes.now.nodes arrival.id) (recent_among standings.old arrivals.old.items) }
    requires told { 1 < length arrivals.old.items → AllByRecursion (TellsItsKey nodes.now.nodes) arrivals.old.items }
    requires in_turn { AreInTurn nodes.now.nodes arrivals.old.items }
    requires in_order { IsInOrder nodes.now.nodes settled.old.ids.items }
    requires marked { AreMarked settled.old.ids.items (recent_among standings.old arrivals.old.items) standings.old }
    requires room { length nodes.now.nodes ≤ settled.old.ids.capacity }
    requires marks { HaveMarks nodes.now.nodes (length standings.old) }
    ensures ids { (at : ℕ) → has_number at settled.new.ids.items ≡ (has_number at settled.old.ids.items || has_number at (arrived (recent_among standings.old arrivals.old.items))) }
    ensures none_left { arrivals.new.items ≡ [] }
    ensures in_order { IsInOrder nodes.now.nodes settled.new.ids.items }
    ensures marked { AreMarked settled.new.ids.items [] standings.new }
    ensures marks { length standings.new ≡ length standings.old }
    ensures room { settled.old.ids.capacity ≤ settled.new.ids.capacity }
{
    beginning_laws();
    let mut end = settled.len();
    while let Some(arrival) = arrivals.pop() {
        let id = arrival.id;
        if marks_waiting(standings, id) {
            end = nodes.put_before(settled, id, end);
            standings[id.at as usize] = Standing::Settled;
        }
    }
}
