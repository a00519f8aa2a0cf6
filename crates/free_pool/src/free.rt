//! A run by workers of which none waits for the end of a round.

ghost use Rattle.std.specs.Prelude.{◌≡◌, ◌≤◌, None, IfOk, IfErr};
ghost use Rattle.cell_store.specs.Values.{values_of};
ghost use Rattle.run_laws.specs.Rest.{NoneRuns};
ghost use Rattle.source_pool.specs.Runs.{IsRunFault};
ghost use Rattle.free_pool.specs.Runs.{IsRunEnd};

use crate::stream::free_to;
use app_laws::{App, Finals};
use graph_update::Engine;
use outer_edge::Gate;
use source_pool::{Flow, RunFault};
use std::alloc::Global;
use std::sync::Wait;
use std::thread::Threads;
use text_outlet::TextSink;

/// Runs an execution to its end by workers that share it, none of which waits for the end of a round:
/// each ends what it has performed and claims what it performs next, in one turn.
///
/// The caller is worker 0; for each other worker a thread is started, and where one can't be, its work
/// is done here. The gate chooses for each worker at each of its turns, counted from 0. At a closed one a
/// worker claims one task in a turn, among all clear ones. At an open one tasks of at most a microsecond
/// act within the turn; of longer ones a worker claims, among those that are known or all where none is,
/// as many as make up for the turn, up to its share of those that are pending. Each claimed task is
/// performed once the gate lets its worker pass. It may wait. What was handed in is dropped after a fault.
///
/// At an open gate, where nobody sees when a task is performed, a single worker shares the execution with
/// nobody, and runs it in rounds.
pub fn run_free<'a, R: Threads + Wait + Sync, A: App + Sync, G: Gate + Sync>(
    rt: &R,
    alloc: Global,
    engine: Engine<'a, A>,
    gate: &G,
    seed: u64,
    workers: u32,
) -> Result<Finals<A::Val>, RunFault>
    requires workers { (1 ≤ workers) × (workers ≤ 64) }
    requires at_rest { NoneRuns engine.progress.nodes }
    requires not_over { engine.progress.over ≡ None }
    ensures end { IfOk result (IsRunEnd (A.meaning engine.entry.app) engine.entry.progress) }
    ensures fit { IfOk result (λ finals. (A.meaning engine.entry.app).is_fit_cells (values_of finals.store)) }
    ensures fault { IfErr result (IsRunFault (A.meaning engine.entry.app) engine.entry.progress) }
{
    let mut sink = TextSink::new(alloc);
    match free_to(rt, alloc, engine, gate, seed, workers, &mut sink) {
        Flow::Ended {
            mut finals,
            rounds: _,
            failed: false,
        } => {
            finals.text = sink.into_text();
            Ok(finals)
        }
        Flow::Budget { created, limit, .. } => Err(RunFault::Budget { created, limit }),
        Flow::Ended { failed: true, .. } | Flow::NoRoom => Err(RunFault::NoRoom),
    }
}
