//! The clear nodes that wait to be claimed.

ghost use Rattle.std.specs.Prelude.{◌≡◌, ◌+◌, ◌%◌, ◌^◌, ◌<◌, ◌≤◌, ◌++◌, [], ◌∷◌, length, slice_get, true, false, IsTrue, IfOk, IfSome, OnOk, OnErr};
ghost use Rattle.std.specs.List.{AllByRecursion, remove};
ghost use Rattle.std.specs.Option.{option_map};
ghost use Rattle.kdg_graph.specs.Nodes.{ids_of, tasks_of};
ghost use Rattle.kdg_graph.specs.Nodes.{IsGraph};
ghost use Rattle.graph_update.specs.Engine.{AreCovered, AreReady, HaveFixedSets};
ghost use Rattle.graph_update.specs.Ready.{AreEnough, IsLeftBy};
ghost use Rattle.run_laws.specs.Events.{IsOfClear, clear_nodes};

use crate::pending::Pending;
use app_laws::App;
use kdg_graph::laws::{node_laws, source_laws};
use kdg_graph::{Graph, NodeId};
use kdg_text::NoRoom;
use std::alloc::Global;
use tiered_list::TieredList;

/// For how many ids room is made at once: as many as a list has in place, so that few take no memory.
const ROOM: usize = 10;

/// Among which clear nodes one is picked.
pub(crate) enum Among {
    /// All that there are.
    All,
    /// Those that are known, or all where none is.
    Known,
}

/// The clear nodes that wait to be claimed, as far as they are known. One that was found stays until
/// it is claimed, since it stays clear.
#[derive(Drop)]
pub(crate) struct Ready {
    alloc: Global,
    /// Their ids, in key order.
    ids: TieredList<NodeId>,
    /// Whether these are all of them: no task has ended since the last look at the sources.
    is_current: bool,
}

impl Ready {
    /// Before the first look.
    pub(crate) fn new(alloc: Global) -> Ready
        ensures ids { result.ids.items ≡ [] }
        ensures current { result.is_current ≡ false }
    {
        Ready {
            alloc,
            ids: no_ids(alloc),
            is_current: false,
        }
    }

    /// A task has ended, so that other nodes may be clear now.
    pub(crate) fn expect_more(&mut self)
        ensures ids { self.new.ids ≡ self.old.ids }
        ensures current { self.new.is_current ≡ false }
    {
        self.is_current = false;
    }

    /// Forgets the nodes that it knows, as one of them may be claimed elsewhere.
    #[inline(always)]
    pub(crate) fn forget(&mut self)
        ensures ids { self.new.ids.items ≡ [] }
        ensures current { self.new.is_current ≡ false }
    {
        self.is_current = false;
        if self.ids.len() > 0 {
            self.ids = no_ids(self.alloc);
        }
    }

    /// Looks at the sources, unless all clear nodes are known, or some where it is among these that one
    /// is picked. After `NoRoom` all is as it was.
    #[inline(always)]
    pub(crate) fn look<A: App>(
        &mut self,
        among: &Among,
        app: &A,
        graph: &Graph,
        horizon: &mut A::Horizon,
    ) -> Result<(), NoRoom>
        requires graph { IsGraph graph.now }
        requires covered { AreCovered (A.meaning app.now) graph.now }
        requires fixed { HaveFixedSets (A.meaning app.now) graph.now }
        requires told { A.tells app.now horizon.old (tasks_of graph.now) }
        requires ready { AreReady (A.meaning app.now) graph.now self.old }
        ensures told { A.tells app.now horizon.new (tasks_of graph.now) }
        ensures enough { OnOk result (AreEnough among.now self.new) }
        ensures ready { AreReady (A.meaning app.now) graph.now self.new }
        ensures unchanged { OnErr result (self.new ≡ self.old) }
    {
        if self.is_enough(among) {
            return Ok(());
        }
        self.look_again(app, graph, horizon)
    }

    /// Looks at the sources. After `NoRoom` all is as it was. It stays a call, since most claims do without.
    #[inline(never)]
    fn look_again<A: App>(
        &mut self,
        app: &A,
        graph: &Graph,
        horizon: &mut A::Horizon,
    ) -> Result<(), NoRoom>
        requires graph { IsGraph graph.now }
        requires covered { AreCovered (A.meaning app.now) graph.now }
        requires fixed { HaveFixedSets (A.meaning app.now) graph.now }
        requires told { A.tells app.now horizon.old (tasks_of graph.now) }
        requires ready { AreReady (A.meaning app.now) graph.now self.old }
        ensures told { A.tells app.now horizon.new (tasks_of graph.now) }
        ensures current { OnOk result (self.new.is_current ≡ true) }
        ensures ready { AreReady (A.meaning app.now) graph.now self.new }
        ensures unchanged { OnErr result (self.new ≡ self.old) }
    {
        self.ids = clear_ids(self.alloc, &self.ids, app, graph, horizon)?;
        self.is_current = true;
        Ok(())
    }

    /// Whether one may be picked without a look.
    #[inline(always)]
    pub(crate) fn is_enough(&self, among: &Among) -> bool
        ensures { IsTrue result → AreEnough among.now self.now }
    {
        match among {
            Among::All => self.is_current,
            Among::Known => self.is_current || self.ids.len() > 0,
        }
    }

    /// How many ids are known.
    #[inline(always)]
    pub(crate) fn count(&self) -> usize
        ensures { result ≡ length self.now.ids.items }
    {
        self.ids.len()
    }

    /// The id at the remainder of a pick, where there is one, and its place.
    #[inline(always)]
    pub(crate) fn picked(&self, pick: u64) -> Option<(NodeId, usize)>
        ensures id { option_map (λ found. found.0) result ≡ slice_get self.now.ids.items (pick % length self.now.ids.items) }
        ensures place { IfSome result (λ found. found.1 ≡ pick % length self.now.ids.items) }
        ensures within { IfSome result (λ found. found.1 < length self.now.ids.items) }
    {
        let place = pick.checked_rem(self.ids.len() as u64)? as usize;
        let id = *self.ids.get(place)?;
        Some((id, place))
    }

    /// The first id, where one is known.
    #[inline(always)]
    pub(crate) fn first(&self) -> Option<NodeId>
        ensures { result ≡ slice_get self.now.ids.items 0 }
    {
        self.ids.get(0).copied()
    }

    /// The node of the id is claimed. Where it isn't the first one that is known, all are forgotten.
    #[inline(always)]
    pub(crate) fn spend(&mut self, id: NodeId)
        ensures { IsLeftBy id self.old self.new }
    {
        if is_at(&self.ids, 0, id) {
            self.ids.remove(0);
        } else {
            self.forget();
        }
    }

    /// The id at a place is no more.
    #[inline(always)]
    pub(crate) fn take(&mut self, place: usize)
        requires { place < length self.old.ids.items }
        ensures ids { self.new.ids.items ≡ remove self.old.ids.items place }
        ensures current { self.new.is_current ≡ self.old.is_current }
    {
        self.ids.remove(place);
    }
}

/// No ids. What stands for an id where there is none is never read.
fn no_ids(alloc: Global) -> TieredList<NodeId>
    ensures { result.items ≡ [] }
{
    TieredList::new(alloc, NodeId { at: 0 })
}

/// The ids of the clear nodes, in key order. Some are known: only the other sources are tested, as
/// long as the known ids are in key order.
fn clear_ids<A: App>(
    alloc: Global,
    known: &TieredList<NodeId>,
    app: &A,
    graph: &Graph,
    horizon: &mut A::Horizon,
) -> Result<TieredList<NodeId>, NoRoom>
    requires covered { AreCovered (A.meaning app.now) graph.now }
    requires fixed { HaveFixedSets (A.meaning app.now) graph.now }
    requires told { A.tells app.now horizon.old (tasks_of graph.now) }
    requires known { AllByRecursion (IsOfClear (A.meaning app.now) graph.now) known.now.items }
    ensures told { A.tells app.now horizon.new (tasks_of graph.now) }
    ensures ids { IfOk result (λ ids. ids.items ≡ ids_of (clear_nodes (A.meaning app.now) graph.now)) }
{
    node_laws();
    source_laws();
    let count = known.len();
    let mut passed = 0;
    let mut ids = no_ids(alloc);
    let mut room = 0;
    let pending = Pending::of(graph);
    for node in graph.sources() {
        if is_known(known, count, passed, node) {
            passed += 1;
            push(&mut ids, &mut room, node)?;
        } else if pending.is_safe(node, app, horizon) {
            push(&mut ids, &mut room, node)?;
        }
    }
    Ok(ids)
}

/// Whether this id stands at the place, of so many known ones. Mostly none is known, and then none is looked
/// up.
#[inline(always)]
fn is_known(known: &TieredList<NodeId>, count: usize, place: usize, id: NodeId) -> bool
    ensures there { result ≡ true → slice_get known.now.items place ≡ Some id }
    ensures small { result ≡ true → length known.now.items < 2 ^ 63 }
{
    place < count && is_at(known, place, id)
}

/// Whether this id stands at the place.
#[inline(always)]
fn is_at(ids: &TieredList<NodeId>, place: usize, id: NodeId) -> bool
    ensures there { result ≡ true → slice_get ids.now.items place ≡ Some id }
    ensures small { length ids.now.items < 2 ^ 63 }
{
    ids.get(place).is_some_and(|found| *found == id)
}

/// Puts an id behind the others, of which so many more have room. Where none has, it makes room for several.
#[inline(always)]
fn push(ids: &mut TieredList<NodeId>, room: &mut usize, id: NodeId) -> Result<(), NoRoom>
    requires { length ids.old.items + room.old ≤ ids.old.capacity }
    ensures items { OnOk result (ids.new.items ≡ ids.old.items ++ id ∷ []) }
    ensures room { OnOk result (length ids.new.items + room.new ≤ ids.new.capacity) }
{
    if *room == 0 {
        ids.reserve(ROOM)?;
        *room = ROOM;
    }
    *room -= 1;
    let len = ids.len();
    ids.insert(len, id);
    Ok(())
}
