//! What runs in a hall come to, beside the serial run.

ghost use Rattle.std.specs.Prelude.{◌≡◌, ◌<◌, ◌≤◌, None, length, IfOk, IfSome};
ghost use Rattle.run_laws.specs.Rest.{NoneRuns};
ghost use Rattle.hall_trials.specs.Ends.{HasGoneOn, IsSequentialEnd};

use crate::inputs::Startable;
use crate::team::worked;
use app_laws::{App, Finals, SerialFault, serial};
use cell_store::{Held, Seen, Store};
use graph_update::{BeginFault, Engine};
use kdg_text::NoRoom;
use output_log::join_laws;
use run_laws::course_run_laws;
use std::alloc::Global;
use std::snapshot::Snapshot;
use std::sync::Wait;
use std::thread::Threads;

/// The most tasks that are created.
const BUDGET: u64 = 10_000;

/// How often an execution runs, and by how many workers.
#[derive(Clone, Copy)]
pub struct Trial {
    pub runs: u32,
    pub workers: u32,
}

/// Whether each run comes to what the serial run comes to.
pub fn runs_are_serial<R: Threads + Wait + Sync, A: Startable + Sync>(
    rt: &R,
    alloc: Global,
    app: &A,
    trial: Trial,
) -> Result<bool, NoRoom>
where
    A::Val: PartialEq,
    requires { trial.workers ≤ 64 }
{
    let (cells, first) = (app.start_cells()?, app.start_tasks()?);
    match serial(alloc, app, cells, first, BUDGET) {
        Ok(wanted) => {
            let alike = runs_come_to(rt, alloc, app, trial, &wanted);
            drop(wanted);
            alike
        }
        Err(SerialFault::Budget { .. }) => Ok(false),
        Err(SerialFault::NoRoom) => Err(NoRoom),
    }
}

/// Whether each run comes to this.
fn runs_come_to<R: Threads + Wait + Sync, A: Startable + Sync>(
    rt: &R,
    alloc: Global,
    app: &A,
    trial: Trial,
    wanted: &Finals<A::Val>,
) -> Result<bool, NoRoom>
where
    A::Val: PartialEq,
    requires { trial.workers ≤ 64 }
{
    for _ in 0..trial.runs {
        if !one_comes_to(rt, alloc, app, trial.workers, wanted)? {
            return Ok(false);
        }
    }
    Ok(true)
}

/// Whether one run by so many workers comes to this.
fn one_comes_to<R: Threads + Wait + Sync, A: Startable + Sync>(
    rt: &R,
    alloc: Global,
    app: &A,
    workers: u32,
    wanted: &Finals<A::Val>,
) -> Result<bool, NoRoom>
where
    A::Val: PartialEq,
    requires { workers ≤ 64 }
{
    match begin(alloc, app)? {
        Some(engine) => comes_to(rt, alloc, engine, workers, wanted),
        None => Ok(false),
    }
}

/// Whether an engine that so many workers run comes to this.
fn comes_to<R: Threads + Wait + Sync, A: App + Sync>(
    rt: &R,
    alloc: Global,
    engine: Engine<'_, A>,
    workers: u32,
    wanted: &Finals<A::Val>,
) -> Result<bool, NoRoom>
where
    A::Val: PartialEq,
    requires few { workers ≤ 64 }
    requires idle { NoneRuns engine.progress.nodes }
    requires unmarked { engine.progress.over ≡ None }
{
    match run_by(rt, alloc, engine, workers)? {
        Some(finals) => {
            let alike = are_alike(&finals, wanted);
            drop(finals);
            Ok(alike)
        }
        None => Ok(false),
    }
}

/// What a run by so many workers comes to, which is the end of the sequential run. There is none where a
/// task is left.
pub fn run_by<R: Threads + Wait + Sync, A: App + Sync>(
    rt: &R,
    alloc: Global,
    engine: Engine<'_, A>,
    workers: u32,
) -> Result<Option<Finals<A::Val>>, NoRoom>
    requires few { workers ≤ 64 }
    requires idle { NoneRuns engine.progress.nodes }
    requires unmarked { engine.progress.over ≡ None }
    ensures { IfOk result (λ ended. IfSome ended (IsSequentialEnd (A.meaning engine.entry.app) engine.entry.progress)) }
{
    // Its contract tells what every engine keeps: the log has no more entries than tasks have ended.
    let _graph = engine.graph();
    let origin = Snapshot::of(&engine);
    let engine = worked(rt, alloc, engine, workers)?;
    finals_of(engine, &origin)
}

/// An engine at an application's start. There is none where it has too many first tasks.
pub fn begin<A: Startable>(alloc: Global, app: &A) -> Result<Option<Engine<'_, A>>, NoRoom>
    ensures idle { IfOk result (λ begun. IfSome begun (λ engine. NoneRuns engine.progress.nodes)) }
    ensures unmarked { IfOk result (λ begun. IfSome begun (λ engine. engine.progress.over ≡ None)) }
{
    let (cells, first) = (app.start_cells()?, app.start_tasks()?);
    match Engine::begin_uncounted(alloc, app, cells, first, BUDGET) {
        Ok(engine) => Ok(Some(engine)),
        Err(BeginFault::Budget { .. }) => Ok(None),
        Err(BeginFault::NoRoom) => Err(NoRoom),
    }
}

/// What an engine comes to that has gone on from an origin, where no task is pending.
fn finals_of<'a, A: App>(
    engine: Engine<'a, A>,
    origin: &Snapshot<Engine<'a, A>>,
) -> Result<Option<Finals<A::Val>>, NoRoom>
    requires gone_on { HasGoneOn A.meaning origin.now.value engine }
    requires logged { length origin.now.value.progress.log ≤ origin.now.value.progress.ended }
    ensures { IfOk result (λ ended. IfSome ended (IsSequentialEnd (A.meaning origin.now.value.app) origin.now.value.progress)) }
{
    course_run_laws::<A>();
    join_laws();
    match engine.graph().least() {
        Some(_) => {
            drop(engine);
            Ok(None)
        }
        None => Ok(Some(engine.end()?)),
    }
}

/// Whether two runs come to the same cells, text and number of tasks.
fn are_alike<V: Held + PartialEq>(left: &Finals<V>, right: &Finals<V>) -> bool {
    left.count == right.count
        && left.text.bytes() == right.text.bytes()
        && have_same_cells(&left.store, &right.store)
}

/// Whether two stores have the same cells, all of them home.
fn have_same_cells<V: Held + PartialEq>(left: &Store<V>, right: &Store<V>) -> bool {
    if left.len() != right.len() {
        return false;
    }
    for loc in 0..left.len() {
        if !have_same_cell(left, right, loc) {
            return false;
        }
    }
    true
}

/// Whether two stores have the same cell at a location, and it is home.
fn have_same_cell<V: Held + PartialEq>(left: &Store<V>, right: &Store<V>, loc: u32) -> bool
    requires left { loc < length left.now }
    requires right { loc < length right.now }
{
    match (left.peek(loc), right.peek(loc)) {
        (Seen::At(one), Seen::At(other)) => one == other,
        _ => false,
    }
}
