ghost use Rattle.std.specs.Prelude.{◌≡◌, ◌≢◌, ◌↔◌, ◌+◌, ◌<◌, ◌≤◌, ◌^◌, ℕ, List, [], length, Some, None, IfOk, IfErr, OnOk, OnErr, IsTrue};
ghost use Rattle.cell_store.specs.Values.{homes};
ghost use Rattle.output_log.specs.Entries.{joined_texts, with_texts};
ghost use Rattle.app_laws.specs.Applications.{AreFitStarts};
ghost use Rattle.crew.specs.declared.answers.OverCause.TheVariants as cause;
ghost use Rattle.run_laws.specs.Answers.{IsBegun};
ghost use Rattle.graph_update.specs.Answers.{counts_of};
ghost use Rattle.graph_update.specs.Engine.{IsBeginFault, IsKept, StaysSound};
ghost use Rattle.run_laws.specs.Events.{drainable, drained, marked};
ghost use Rattle.run_laws.specs.Sound.{IsSound};

use crate::agenda::{Agenda, Tally};
use crate::beginning::{empty_graph, home_store, put_first};
use crate::laws::basis;
use crate::ready::Ready;
use crate::{BeginFault, Counts, OverCause};
use app_laws::{App, Finals};
use cell_store::{Store, value_laws};
use kdg_graph::Graph;
use kdg_text::{NoRoom, Steps, Text};
use output_log::Log;
use run_laws::{begin_laws, drain_laws};
use std::alloc::Global;
use std::marker::Model;
use std::sync::ledger::Ledger;
use task_order::StartList;

/// An execution of an ordered application: its cells, its pending tasks as nodes of a graph, what
/// has been logged and not yet drained, and how many tasks have ended and may be created.
///
/// A task is claimed, performed elsewhere, and finished, and other tasks are claimed and finished
/// meanwhile, in any order.
#[derive(Drop)]
pub struct Engine<'a, A: App> {
    pub(crate) app: &'a A,
    pub(crate) agenda: Agenda<A>,
    pub(crate) store: Store<A::Val>,
    pub(crate) tally: Tally,
}

impl<'a, A: App> Model for Engine<'a, A> {
    ghost use Rattle.graph_update.specs.Engine.{AreKnown, IsKept, progress_of, EngineState};

    ghost Value = { EngineState A A.Val };

    ghost view = { λ e. record { app = e.app.now; progress = progress_of e.store e.agenda.graph e.tally } };

    ghost invariant = { λ e. IsKept (A.meaning e.app.now) (progress_of e.store e.agenda.graph e.tally)
        × AreKnown (A.meaning e.app.now) (A.tells e.app.now e.agenda.horizon) e.agenda.graph e.agenda.ready };
}

impl<'a, A: App> Engine<'a, A> {
    /// The first tasks, none of which is running, on these cells. At most `budget` tasks may be
    /// created, the first ones included. What was handed in is dropped after a fault.
    ///
    /// That the budget is too small is found out first, without taking memory. Each first task's
    /// set is asked for once.
    pub fn begin<L: Ledger>(
        alloc: Global,
        app: &'a A,
        cells: Vec<A::Val>,
        first: StartList,
        budget: u64,
        steps: &mut Steps<L>,
    ) -> Result<Engine<'a, A>, BeginFault>
        requires fit_cells { (A.meaning app.now).is_fit_cells cells.items }
        requires fit_first { AreFitStarts (A.meaning app.now) first }
        requires few { length first < 2 ^ 32 }
        requires budget { budget ≤ 1_000_000_000 }
        ensures begun { IfOk result (λ engine. IsBegun (A.meaning app.now) cells.items first budget engine.progress) }
        ensures app { IfOk result (λ engine. engine.app ≡ app.now) }
        ensures within { OnOk result (length first ≤ budget) }
        ensures sound { IfOk result (λ engine. IsSound (A.meaning app.now) engine.progress [] cells.items) }
        ensures fault { IfErr result (IsBeginFault first budget) }
        ensures steps { steps.new ≤ steps.old + length first }
    {
        basis::<A>();
        begin_laws::<A>();
        value_laws::<A::Val>();
        let starts = first.items();
        let asked = starts.len() as u64;
        if asked > budget {
            return Err(BeginFault::Budget {
                asked,
                limit: budget,
            });
        }
        let store = home_store(alloc, app, cells)?;
        let graph = empty_graph(alloc, app);
        let graph = put_first(alloc, app, graph, starts, &store, steps)?;
        let horizon = app.horizon(alloc)?;
        let agenda = Agenda {
            alloc,
            graph,
            horizon,
            ready: Ready::new(alloc),
            fresh: Vec::new(alloc),
        };
        let tally = Tally {
            log: Log::new(alloc),
            ended: 0,
            limit: budget,
            over: None,
        };
        Ok(Engine {
            app,
            agenda,
            store,
            tally,
        })
    }

    /// The application.
    pub fn app(&self) -> &'a A
        ensures { result.now ≡ self.now.app }
    {
        self.app
    }

    /// The pending tasks, which are the nodes of a graph.
    pub fn graph(&self) -> &Graph
        ensures nodes { result.now ≡ self.now.progress.nodes }
        ensures kept { IsKept (A.meaning self.now.app) self.now.progress }
    {
        &self.agenda.graph
    }

    /// How many tasks were created, have ended, are pending, and are running. This goes over the
    /// pending ones.
    pub fn counts(&self) -> Counts
        ensures counts { result ≡ counts_of self.now.progress }
        ensures kept { IsKept (A.meaning self.now.app) self.now.progress }
    {
        Counts {
            created: self.tally.ended + self.agenda.graph.len() as u64,
            ended: self.tally.ended,
            nodes: self.agenda.graph.len() as u64,
            running: self.agenda.graph.running_len() as u64,
        }
    }

    /// Why nothing more is to be claimed, where a mark stands.
    #[inline(always)]
    pub fn over(&self) -> Option<OverCause>
        ensures { result ≡ self.now.progress.over }
    {
        self.tally.over
    }

    /// How many tasks have ended.
    pub fn ended(&self) -> u64
        ensures { result ≡ self.now.progress.ended }
    {
        self.tally.ended
    }

    /// Puts the pending tasks in order before they are looked at, which changes nothing that is seen.
    #[inline(always)]
    pub(crate) fn settle(&mut self)
        ensures { self.new ≡ self.old }
    {
        self.agenda.graph.settle();
    }

    /// Nothing more is to be claimed, for want of memory, unless a mark stands that says why.
    pub fn give_up(&mut self)
        ensures marked { self.new ≡ record self.old { progress = marked (A.meaning self.old.app) self.old.progress cause.NoRoom } }
        ensures sound { StaysSound (A.meaning self.old.app) self.old.progress self.new.progress }
    {
        if self.tally.over.is_none() {
            self.tally.over = Some(OverCause::NoRoom);
        }
    }

    /// Takes the texts of the ended tasks that are earlier than every pending one out of the log,
    /// in the order of the tasks. After `NoRoom` all is as it was.
    pub fn drain(&mut self) -> Result<Text, NoRoom>
        ensures text { IfOk result (λ text. text ≡ joined_texts (drainable (A.meaning self.old.app) self.old.progress.nodes self.old.progress.log)) }
        ensures ok { OnOk result (self.new ≡ record self.old { progress = drained (A.meaning self.old.app) self.old.progress }) }
        ensures unchanged { OnErr result (self.new ≡ self.old) }
        ensures sound { StaysSound (A.meaning self.old.app) self.old.progress self.new.progress }
    {
        self.settle();
        drain_laws::<A>();
        match self.agenda.graph.least() {
            Some(least) => self
                .tally
                .log
                .take_below(&self.agenda.graph.task(least).key),
            None => self.tally.log.take_all(),
        }
    }

    /// Whether nothing is logged that has a text.
    pub fn is_silent(&self) -> bool
        ensures { IsTrue result ↔ (with_texts self.now.progress.log ≡ []) }
    {
        self.tally.log.is_silent()
    }

    /// The cells, all of them home, the texts of what was logged and not drained, and how many tasks
    /// have ended. After `NoRoom` all is dropped.
    pub fn end(mut self) -> Result<Finals<A::Val>, NoRoom>
        requires { self.progress.nodes ≡ [] }
        ensures store { IfOk result (λ finals. finals.store ≡ self.entry.progress.cells) }
        ensures text { IfOk result (λ finals. finals.text ≡ joined_texts self.entry.progress.log) }
        ensures count { IfOk result (λ finals. finals.count ≡ self.entry.progress.ended) }
        ensures whole { (values : List A.Val) × IsSound (A.meaning self.entry.app) self.entry.progress [] values × IfOk result (λ finals. finals.store ≡ homes values) }
    {
        basis::<A>();
        let text = self.tally.log.take_all()?;
        Ok(Finals {
            store: self.store,
            text,
            count: self.tally.ended,
        })
    }
}
