//! How clear tasks act one after the other, each claimed, performed and ended at once.

ghost use Rattle.std.specs.Prelude.{◌≡◌, ◌+◌, ◌≤◌, length, None, Some, IfErr, IfOk, IfSome, OnOk, OnErr};
ghost use Rattle.kdg_graph.specs.Edges.{laters_of};
ghost use Rattle.kdg_graph.specs.Node.{Node};
ghost use Rattle.kdg_graph.specs.Nodes.{ids_of, node_at, tasks_of};
ghost use Rattle.run_laws.specs.Acting.{ActStaysSound, HasActed, IsActFault, RefusedActStaysSound};
ghost use Rattle.graph_update.specs.Answers.{IsUpcoming};
ghost use Rattle.graph_update.specs.Engine.{AreCovered, AsksForNoFixedSet, HaveFixedSets};
ghost use Rattle.run_laws.specs.Events.{IsOfClear, clear_nodes};

use crate::laws::{basis, end_basis};
use crate::pending::Pending;
use crate::ready::Among;
use crate::{Engine, OverCause, Upcoming};
use app_laws::{App, act_at_home};
use kdg_graph::laws::{node_laws, source_laws};
use kdg_graph::{Graph, NodeId};
use kdg_text::{NoRoom, Steps};
use run_laws::sound_finish_laws;
use std::sync::ledger::Ledger;

impl<'a, A: App> Engine<'a, A> {
    /// The ids of all clear nodes, in key order. What was in the list is dropped. After `NoRoom` it may
    /// lack some.
    pub fn find_clear(&mut self, ids: &mut Vec<NodeId>) -> Result<(), NoRoom>
        ensures same { self.new ≡ self.old }
        ensures ids { OnOk result (ids.new.items ≡ ids_of (clear_nodes (A.meaning self.old.app) self.old.progress.nodes)) }
    {
        self.settle();
        list_clear(self.app, &self.agenda.graph, &mut self.agenda.horizon, ids)
    }

    /// What a claim would find, without one: a clear node, of those that are known where some are. It looks
    /// for clear nodes only where none is known. After `NoRoom` all is as it was.
    #[inline(always)]
    pub fn next_clear(&mut self) -> Result<Upcoming, NoRoom>
        ensures same { self.new ≡ self.old }
        ensures next { IfOk result (IsUpcoming (A.meaning self.old.app) self.old.progress) }
    {
        if let Some(cause) = self.over() {
            return Ok(Upcoming::Over(cause));
        }
        match self.known_clear() {
            Some(node) => Ok(Upcoming::Clear(node)),
            None => self.look_for_clear(),
        }
    }

    /// A clear node, where one is known.
    #[inline(always)]
    fn known_clear(&self) -> Option<NodeId>
        ensures { IfSome result (IsOfClear (A.meaning self.now.app) self.now.progress.nodes) }
    {
        self.agenda.ready.first()
    }

    /// The first one of all clear nodes, where no mark stands.
    fn look_for_clear(&mut self) -> Result<Upcoming, NoRoom>
        requires not_over { self.old.progress.over ≡ None }
        ensures same { self.new ≡ self.old }
        ensures next { IfOk result (IsUpcoming (A.meaning self.old.app) self.old.progress) }
    {
        basis::<A>();
        self.settle();
        if self.agenda.graph.is_empty() {
            return Ok(Upcoming::Ended);
        }
        self.agenda.ready.look(
            &Among::All,
            self.app,
            &self.agenda.graph,
            &mut self.agenda.horizon,
        )?;
        match self.agenda.ready.first() {
            Some(node) => Ok(Upcoming::Clear(node)),
            None => Ok(Upcoming::NotYet),
        }
    }

    /// Claims a clear task, performs it and ends it, with nothing between. Neither the task nor its cells
    /// are copied, as they are where a job is handed out: it works on the cells where they are.
    ///
    /// Where its children are more than may be created, it stays claimed, and the mark tells. For want
    /// of memory either nothing changes, or it stays claimed within the limit, and the mark tells. What
    /// it wrote is dropped then, as where a job is dropped. Sets are asked for as by a finish.
    #[inline(always)]
    pub fn act<L: Ledger>(&mut self, node: NodeId, steps: &mut Steps<L>) -> Result<(), OverCause>
        requires clear { IsOfClear (A.meaning self.old.app) self.old.progress.nodes node }
        requires not_over { self.old.progress.over ≡ None }
        ensures app { self.new.app ≡ self.old.app }
        ensures acted { OnOk result (HasActed (A.meaning self.old.app) self.old.progress node self.new.progress) }
        ensures sound { OnOk result (ActStaysSound (A.meaning self.old.app) self.old.progress node self.new.progress) }
        ensures fault { IfErr result (IsActFault (A.meaning self.old.app) self.old.progress node self.new.progress) }
        ensures refused_sound { OnErr result (RefusedActStaysSound (A.meaning self.old.app) self.old.progress node self.new.progress) }
        ensures steps { (of : Node) → node_at self.old.progress.nodes node ≡ Some of → steps.new ≤ steps.old + length (laters_of self.old.progress.nodes of) }
        ensures no_step { AsksForNoFixedSet (A.has_fixed_sets self.old.app) steps.old steps.new }
    {
        basis::<A>();
        end_basis::<A>();
        sound_finish_laws::<A>();
        let (task, set) = (self.agenda.graph.task(node), self.agenda.graph.set(node));
        let Ok((children, text)) = act_at_home(self.app, task, set, &mut self.store) else {
            return Err(OverCause::NoRoom);
        };
        self.agenda.graph.mark_running(node);
        self.agenda.ready.spend(node);
        let ended = self.agenda.end_within(
            self.app,
            &self.store,
            &mut self.tally,
            node,
            &children,
            text,
            steps,
        );
        match ended {
            Ok(()) => Ok(()),
            Err(cause) => {
                self.store.drop_written(self.agenda.graph.set(node));
                self.tally.over = Some(cause);
                Err(cause)
            }
        }
    }
}

/// The ids of all clear nodes, which is quick where the pending tasks are in order.
#[inline(always)]
fn list_clear<A: App>(
    app: &A,
    graph: &Graph,
    horizon: &mut A::Horizon,
    ids: &mut Vec<NodeId>,
) -> Result<(), NoRoom>
    requires covered { AreCovered (A.meaning app.now) graph.now }
    requires fixed { HaveFixedSets (A.meaning app.now) graph.now }
    requires told { A.tells app.now horizon.old (tasks_of graph.now) }
    ensures told { A.tells app.now horizon.new (tasks_of graph.now) }
    ensures ids { OnOk result (ids.new.items ≡ ids_of (clear_nodes (A.meaning app.now) graph.now)) }
{
    node_laws();
    source_laws();
    ids.clear();
    let pending = Pending::of(graph);
    for node in graph.sources() {
        if pending.is_safe(node, app, horizon) {
            ids.push(node)?;
        }
    }
    Ok(())
}
