//! How a task ends.

ghost use Rattle.std.specs.Prelude.{◌≡◌, ◌+◌, ◌<◌, ◌≤◌, Some, length, IfErr, OnOk, OnErr};
ghost use Rattle.task_order.specs.declared.task.Task.{Task};
ghost use Rattle.cell_store.specs.Cells.{AreWrittenHome, bundle_of, cells_taken};
ghost use Rattle.kdg_graph.specs.Edges.{laters_of};
ghost use Rattle.kdg_graph.specs.Node.{Node};
ghost use Rattle.kdg_graph.specs.Nodes.{node_at};
ghost use Rattle.run_laws.specs.Answers.{IsFinishRefusal};
ghost use Rattle.graph_update.specs.AtHome.{EndsAtHome, IsBackHome, IsEndFault};
ghost use Rattle.graph_update.specs.Engine.{AreKnown, AsksForNoFixedSet, FinishStaysSound, IsOneStepEach, StaysSound, most_tasks, progress_of};
ghost use Rattle.run_laws.specs.Laws.{IsDone};
ghost use Rattle.run_laws.specs.Events.{IsFinished, IsOverLimit};

use crate::agenda::{Agenda, Tally};
use crate::laws::end_basis;
use crate::rewriting::{fresh_tasks, set_changes};
use crate::touching::touch_end;
use crate::{Done, Engine, FinishFault, OverCause};
use app_laws::{App, ChildList, Effect};
use cell_store::{Bundle, Held, Shell, Store};
use kdg_graph::NodeId;
use kdg_text::{Steps, Text};
use run_laws::{drain_laws, sound_finish_laws, stay_clear_laws};
use std::sync::ledger::Ledger;

impl<'a, A: App> Engine<'a, A> {
    /// Ends a task that was performed.
    ///
    /// That its children are more than may be created is found out first, without taking memory.
    /// Then all memory that is needed is taken before anything changes that stays: after `NoRoom` all
    /// is as it was, and the same task may be finished again. Each later node in conflict with the ended one is
    /// asked for its set at most once, and none is where the sets are fixed.
    #[inline(always)]
    pub fn finish<L: Ledger>(
        &mut self,
        done: Done<A::Val>,
        steps: &mut Steps<L>,
    ) -> Result<(), FinishFault<A::Val>>
        requires { IsDone (A.meaning self.old.app) self.old.progress done }
        ensures app { self.new.app ≡ self.old.app }
        ensures finished { OnOk result (IsFinished (A.meaning self.old.app) self.old.progress done self.new.progress) }
        ensures within { OnOk result (¬ IsOverLimit (A.meaning self.old.app) self.old.progress done) }
        ensures sound { OnOk result (FinishStaysSound (A.meaning self.old.app) self.old.progress done self.new.progress) }
        ensures refused { IfErr result (IsFinishRefusal (A.meaning self.old.app) self.old.progress done self.new.progress) }
        ensures refused_sound { OnErr result (StaysSound (A.meaning self.old.app) self.old.progress self.new.progress) }
        ensures steps { IsOneStepEach self.old.progress.nodes done.task.key steps.old steps.new }
        ensures no_step { AsksForNoFixedSet (A.has_fixed_sets self.old.app) steps.old steps.new }
    {
        drain_laws::<A>();
        let (pending, children) = (self.agenda.graph.len(), done.effect.children.items().len());
        let (created, limit) = (self.tally.created(pending, children), self.tally.limit);
        if created > limit {
            let cause = OverCause::Budget { created, limit };
            self.tally.over = self.tally.over.or(Some(cause));
            return Err(FinishFault::Budget {
                done,
                created,
                limit,
            });
        }
        let Done { node, task, effect } = done;
        match self.end_running(node, effect, steps) {
            Ok(()) => Ok(()),
            Err(effect) => Err(FinishFault::NoRoom {
                done: Done { node, task, effect },
            }),
        }
    }

    /// Ends the running task of a node, whose children are no more than may be created. Where memory
    /// runs out, what it did comes back and all is as it was.
    ///
    /// The new values are home while sets are asked for. They are taken out again where memory runs
    /// out.
    #[inline(always)]
    pub(crate) fn end_running<L: Ledger>(
        &mut self,
        node: NodeId,
        effect: Effect<A::Val>,
        steps: &mut Steps<L>,
    ) -> Result<(), Effect<A::Val>>
        ghost task: { Task }
        requires done { IsDone (A.meaning self.old.app) self.old.progress (record { node = node; task = task; effect = effect }) }
        requires within { self.old.progress.created + length effect.children ≤ self.old.progress.limit }
        ensures app { self.new.app ≡ self.old.app }
        ensures finished { OnOk result (IsFinished (A.meaning self.old.app) self.old.progress (record { node = node; task = task; effect = effect }) self.new.progress) }
        ensures sound { OnOk result (FinishStaysSound (A.meaning self.old.app) self.old.progress (record { node = node; task = task; effect = effect }) self.new.progress) }
        ensures returned { IfErr result (λ back. back ≡ effect) }
        ensures unchanged { OnErr result (self.new ≡ self.old) }
        ensures steps { IsOneStepEach self.old.progress.nodes task.key steps.old steps.new }
        ensures no_step { AsksForNoFixedSet (A.has_fixed_sets self.old.app) steps.old steps.new }
    {
        end_basis::<A>();
        sound_finish_laws::<A>();
        let Effect {
            bundle,
            children,
            text,
        } = effect;
        let shell = self.store.give(bundle);
        let ended = self.agenda.end_at_home(
            self.app,
            &self.store,
            &mut self.tally,
            node,
            &children,
            text,
            steps,
        );
        match ended {
            Ok(()) => Ok(()),
            Err(text) => {
                let bundle = regain(&mut self.store, shell);
                Err(Effect {
                    bundle,
                    children,
                    text,
                })
            }
        }
    }
}

/// Moves the cells that a shell writes out again. It stands apart and is laid in, so that the place for what
/// is moved is cleared only where a task did not end.
#[inline(always)]
fn regain<V: Held>(store: &mut Store<V>, shell: Shell<V>) -> Bundle<V>
    requires { AreWrittenHome store.old shell.set }
    ensures taken { store.new ≡ cells_taken store.old shell.set }
    ensures bundle { result ≡ bundle_of store.old shell }
{
    store.regain(shell)
}

impl<A: App> Agenda<A> {
    /// Ends a task as `end_at_home` does, unless with its children there would be more tasks than may be
    /// created. It tells why the task didn't end.
    #[inline(always)]
    pub(crate) fn end_within<L: Ledger>(
        &mut self,
        app: &A,
        store: &Store<A::Val>,
        tally: &mut Tally,
        node: NodeId,
        children: &ChildList,
        text: Text,
        steps: &mut Steps<L>,
    ) -> Result<(), OverCause>
        requires home { IsBackHome (A.meaning app.now) (progress_of store.now self.old.graph tally.old) node children.now text }
        requires limited { tally.old.limit ≤ most_tasks }
        requires known { AreKnown (A.meaning app.now) (A.tells app.now self.old.horizon) self.old.graph self.old.ready }
        ensures known { AreKnown (A.meaning app.now) (A.tells app.now self.new.horizon) self.new.graph self.new.ready }
        ensures ended { OnOk result (EndsAtHome (A.meaning app.now) (progress_of store.now self.old.graph tally.old) node children.now text (progress_of store.now self.new.graph tally.new)) }
        ensures within { OnOk result (tally.old.ended + length self.old.graph + length children.now ≤ tally.old.limit) }
        ensures cause { IfErr result (IsEndFault (tally.old.ended + length self.old.graph + length children.now) tally.old.limit) }
        ensures unchanged { OnErr result (progress_of store.now self.new.graph tally.new ≡ progress_of store.now self.old.graph tally.old) }
        ensures steps { (of : Node) → node_at self.old.graph node ≡ Some of → steps.new ≤ steps.old + length (laters_of self.old.graph of) }
        ensures no_step { AsksForNoFixedSet (A.has_fixed_sets app.now) steps.old steps.new }
    {
        let created = tally.created(self.graph.len(), children.items().len());
        let limit = tally.limit;
        if created > limit {
            return Err(OverCause::Budget { created, limit });
        }
        match self.end_at_home(app, store, tally, node, children, text, steps) {
            Ok(()) => Ok(()),
            Err(_) => Err(OverCause::NoRoom),
        }
    }

    /// Ends a task whose new values are home: its children are nodes in place of its own, the later nodes
    /// in conflict have new sets, its text is logged, and the horizon is told of both. Where memory runs
    /// out, the text comes back, and nodes and entries are as they were.
    #[inline(always)]
    pub(crate) fn end_at_home<L: Ledger>(
        &mut self,
        app: &A,
        store: &Store<A::Val>,
        tally: &mut Tally,
        node: NodeId,
        children: &ChildList,
        text: Text,
        steps: &mut Steps<L>,
    ) -> Result<(), Text>
        requires home { IsBackHome (A.meaning app.now) (progress_of store.now self.old.graph tally.old) node children.now text }
        requires within { tally.old.ended + length self.old.graph + length children.now ≤ tally.old.limit }
        requires known { AreKnown (A.meaning app.now) (A.tells app.now self.old.horizon) self.old.graph self.old.ready }
        ensures known { AreKnown (A.meaning app.now) (A.tells app.now self.new.horizon) self.new.graph self.new.ready }
        ensures ended { OnOk result (EndsAtHome (A.meaning app.now) (progress_of store.now self.old.graph tally.old) node children.now text (progress_of store.now self.new.graph tally.new)) }
        ensures returned { IfErr result (λ back. back ≡ text) }
        ensures unchanged { OnErr result (progress_of store.now self.new.graph tally.new ≡ progress_of store.now self.old.graph tally.old) }
        ensures steps { (of : Node) → node_at self.old.graph node ≡ Some of → steps.new ≤ steps.old + length (laters_of self.old.graph of) }
        ensures no_step { AsksForNoFixedSet (A.has_fixed_sets app.now) steps.old steps.new }
    {
        end_basis::<A>();
        sound_finish_laws::<A>();
        stay_clear_laws::<A>();
        let children = children.items();
        let Ok(()) = tally.log.reserve_for(&text) else {
            return Err(text);
        };
        let parent = &self.graph.task(node).key;
        let Ok(()) = fresh_tasks(&mut self.fresh, parent, children) else {
            return Err(text);
        };
        let Ok(changes) = set_changes(self.alloc, app, &self.graph, store, node, steps) else {
            return Err(text);
        };
        match self.graph.rewrite(node, changes, &mut self.fresh) {
            Ok(task) => {
                touch_end(app, &mut self.horizon, &task.body, children);
                self.ready.expect_more();
                tally.log.put(task.key, text);
                tally.ended += 1;
                Ok(())
            }
            Err(_) => Err(text),
        }
    }
}
