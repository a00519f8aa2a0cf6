//! How pending tasks become first tasks, which keeps paths short.

ghost use Rattle.std.specs.Prelude.{◌≡◌, ◌+◌, ◌≤◌, [], false, length, List, IfOk, OnOk};
ghost use Rattle.std.specs.List.{AllByRecursion};
ghost use Rattle.kdg_graph.specs.Nodes.{tasks_of};
ghost use Rattle.output_log.specs.Entries.{with_texts};
ghost use Rattle.run_laws.specs.Renaming.{IsRenamed};
ghost use Rattle.run_laws.specs.Sound.{IsSound};

use crate::Engine;
use crate::agenda::Agenda;
use crate::beginning::put_first;
use crate::laws::basis;
use crate::touching::horizon_under_names;
use app_laws::{App, naming_laws, starts_by_path};
use kdg_graph::{Fresh, Graph};
use kdg_text::{NoRoom, Steps};
use output_log::Log;
use run_laws::renaming_laws;
use std::alloc::Global;
use std::sync::ledger::Ledger;
use task_order::Task;

impl<'a, A: App> Engine<'a, A> {
    /// Gives the execution paths of one number: the pending tasks are numbered in the order of
    /// their paths, as first tasks are. So they keep their order, and their children theirs among them.
    /// What is logged writes nothing, and is forgotten.
    ///
    /// To stand for the sequential run from a start, an execution has the entries of all ended tasks. So
    /// where some have ended, it stands for no start after this, which is for callers who look at
    /// what is left to run alone.
    ///
    /// Each one's set is asked for once. After `NoRoom` all is dropped.
    pub fn renamed<L: Ledger>(self, steps: &mut Steps<L>) -> Result<Engine<'a, A>, NoRoom>
        requires idle { AllByRecursion (λ node. node.running ≡ false) self.progress.nodes }
        requires silent { with_texts self.progress.log ≡ [] }
        ensures app { IfOk result (λ engine. engine.app ≡ self.entry.app) }
        ensures renamed { IfOk result (λ engine. IsRenamed (A.meaning self.entry.app) self.entry.progress engine.progress) }
        ensures sound { (values : List A.Val) → IsSound (A.meaning self.entry.app) self.entry.progress [] values →
            IfOk result (λ engine. IsSound (A.meaning self.entry.app) engine.progress [] values) }
        ensures steps { steps.new ≤ steps.old + length self.entry.progress.nodes }
    {
        basis::<A>();
        renaming_laws::<A>();
        naming_laws();
        let Engine {
            app,
            agenda,
            store,
            mut tally,
        } = self;
        let Agenda {
            alloc,
            mut graph,
            horizon,
            mut ready,
            mut fresh,
        } = agenda;
        let tasks = take_tasks(alloc, &mut graph, &mut fresh)?;
        let first = starts_by_path(tasks)?;
        let graph = put_first(alloc, app, graph, &first, &store, steps)?;
        let horizon = horizon_under_names(alloc, app, horizon)?;
        ready.forget();
        let agenda = Agenda {
            alloc,
            graph,
            horizon,
            ready,
            fresh,
        };
        tally.log = Log::new(alloc);
        Ok(Engine {
            app,
            agenda,
            store,
            tally,
        })
    }
}

/// Takes all nodes out of a graph, the earliest first, and gives their tasks in that order. The graph
/// keeps its memory. What was in the list of fresh tasks is dropped.
fn take_tasks(alloc: Global, graph: &mut Graph, fresh: &mut Vec<Fresh>) -> Result<Vec<Task>, NoRoom>
    ensures tasks { IfOk result (λ tasks. tasks.items ≡ tasks_of graph.old) }
    ensures none_left { OnOk result (graph.new ≡ []) }
{
    fresh.clear();
    let mut tasks = Vec::with_capacity(alloc, graph.len())?;
    graph.settle();
    while let Some(node) = graph.least() {
        let Ok(task) = graph.rewrite(node, Vec::new(alloc), fresh) else {
            return Err(NoRoom);
        };
        graph.settle();
        tasks.push(task)?;
    }
    Ok(tasks)
}
