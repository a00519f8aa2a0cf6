//! Rounds over an engine, and workers without rounds.

ghost use Rattle.std.specs.Prelude.{◌≡◌, ◌≤◌, ◌<◌, ◌^◌, None, length, IfOk};
ghost use Rattle.app_laws.specs.Applications.{AreFitStarts};
ghost use Rattle.run_laws.specs.Rest.{NoneRuns};

use super::outcomes::{Aim, cause_of, copies_of, list_of, serial_meets};
use super::starts::Startable;
use app_laws::{App, Finals};
use free_pool::run_free;
use graph_update::{Engine, OverCause};
use kdg_text::NoRoom;
use outer_edge::{Gate, Seeded};
use source_pool::run_rounds;
use std::alloc::Global;
use std::sync::Wait;
use std::thread::Threads;
use task_order::{Key, Start};

/// The choices of a seed at a gate that isn't open, so that each of them counts.
struct Watched;

impl Gate for Watched {
    fn choose(&self, seed: u64, worker: u32, turn: u64) -> u64 {
        Seeded.choose(seed, worker, turn)
    }

    fn pass(&self, _worker: u32, _key: &Key) {}
}

/// An engine that begins with these cells and first tasks.
pub fn engine_at<'a, A: App>(
    alloc: Global,
    app: &'a A,
    cells: &[A::Val],
    first: &[Start],
    budget: u64,
) -> Result<Engine<'a, A>, OverCause>
    requires fit_cells { (A.meaning app.now).is_fit_cells cells.now }
    requires fit_first { AreFitStarts (A.meaning app.now) first.now }
    requires few { length first.now < 2 ^ 32 }
    requires budget { budget ≤ 1_000_000_000 }
    ensures at_rest { IfOk result (λ engine. NoneRuns engine.progress.nodes) }
    ensures not_over { IfOk result (λ engine. engine.progress.over ≡ None) }
{
    let (cells, first) = (copies_of(alloc, cells)?, list_of(alloc, first)?);
    match Engine::begin_uncounted(alloc, app, cells, first, budget) {
        Ok(engine) => Ok(engine),
        Err(fault) => Err(cause_of(fault)),
    }
}

/// What rounds by three workers at a gate come to from these cells and first tasks, and how many there are.
fn rounds_finals<R: Threads + Sync, A: App + Sync, G: Gate + Sync>(
    rt: &R,
    alloc: Global,
    gate: &G,
    app: &A,
    cells: &[A::Val],
    first: &[Start],
    budget: u64,
) -> Result<(Finals<A::Val>, u64), OverCause>
    requires fit_cells { (A.meaning app.now).is_fit_cells cells.now }
    requires fit_first { AreFitStarts (A.meaning app.now) first.now }
    requires few { length first.now < 2 ^ 32 }
    requires budget { budget ≤ 1_000_000_000 }
{
    let engine = engine_at(alloc, app, cells, first, budget)?;
    run_rounds(rt, alloc, engine, gate, 1, 3)
}

/// How many tasks there are in rounds at an open gate, and how many rounds.
pub fn rounds_counts<R: Threads + Sync, A: App + Sync>(
    rt: &R,
    alloc: Global,
    app: &A,
    cells: &[A::Val],
    first: &[Start],
    budget: u64,
) -> Result<(u64, u64), OverCause>
    requires fit_cells { (A.meaning app.now).is_fit_cells cells.now }
    requires fit_first { AreFitStarts (A.meaning app.now) first.now }
    requires few { length first.now < 2 ^ 32 }
    requires budget { budget ≤ 1_000_000_000 }
{
    let (finals, rounds) = rounds_finals(rt, alloc, &Seeded, app, cells, first, budget)?;
    Ok((finals.count, rounds))
}

/// Whether so many rounds at an open gate from an application's start come to all tasks, as many as are
/// allowed.
pub fn start_ends_in_rounds<R: Threads + Sync, A: Startable + Sync>(
    rt: &R,
    alloc: Global,
    app: &A,
    budget: u64,
    rounds: u64,
) -> Result<bool, NoRoom>
    requires { budget ≤ 1_000_000_000 }
{
    let (cells, first) = (app.start_cells()?, app.start_tasks()?);
    match rounds_counts(rt, alloc, app, &cells, first.items(), budget) {
        Ok(counts) => Ok(counts.0 == budget && counts.1 == rounds),
        Err(_) => Ok(false),
    }
}

/// Whether rounds at an open gate from an application's start come to more tasks than allowed.
pub fn start_is_over_in_rounds<R: Threads + Sync, A: Startable + Sync>(
    rt: &R,
    alloc: Global,
    app: &A,
    budget: u64,
) -> Result<bool, NoRoom>
    requires { budget ≤ 1_000_000_000 }
{
    let (cells, first) = (app.start_cells()?, app.start_tasks()?);
    match rounds_counts(rt, alloc, app, &cells, first.items(), budget) {
        Err(OverCause::Budget { limit, .. }) => Ok(limit == budget),
        _ => Ok(false),
    }
}

/// Whether rounds at a gate meet an aim.
fn rounds_at_meet<R: Threads + Sync, A: App + Sync, G: Gate + Sync, W: Aim<A::Val>>(
    rt: &R,
    alloc: Global,
    gate: &G,
    app: &A,
    cells: &[A::Val],
    first: &[Start],
    budget: u64,
    aim: &W,
) -> Result<bool, OverCause>
    requires fit_cells { (A.meaning app.now).is_fit_cells cells.now }
    requires fit_first { AreFitStarts (A.meaning app.now) first.now }
    requires few { length first.now < 2 ^ 32 }
    requires budget { budget ≤ 1_000_000_000 }
{
    let (finals, _) = rounds_finals(rt, alloc, gate, app, cells, first, budget)?;
    Ok(aim.is_met(&finals))
}

/// Whether rounds at a gate that is open and at one that isn't meet an aim.
pub fn rounds_meet<R: Threads + Sync, A: App + Sync, W: Aim<A::Val>>(
    rt: &R,
    alloc: Global,
    app: &A,
    cells: &[A::Val],
    first: &[Start],
    budget: u64,
    aim: &W,
) -> Result<bool, OverCause>
    requires fit_cells { (A.meaning app.now).is_fit_cells cells.now }
    requires fit_first { AreFitStarts (A.meaning app.now) first.now }
    requires few { length first.now < 2 ^ 32 }
    requires budget { budget ≤ 1_000_000_000 }
{
    let open = rounds_at_meet(rt, alloc, &Seeded, app, cells, first, budget, aim)?;
    let watched = rounds_at_meet(rt, alloc, &Watched, app, cells, first, budget, aim)?;
    Ok(open && watched)
}

/// Whether the serial run meets an aim, and rounds at a gate that is open and at one that isn't.
pub fn runs_meet<R: Threads + Sync, A: App + Sync, W: Aim<A::Val>>(
    rt: &R,
    alloc: Global,
    app: &A,
    cells: &[A::Val],
    first: &[Start],
    budget: u64,
    aim: &W,
) -> Result<bool, OverCause>
    requires fit_cells { (A.meaning app.now).is_fit_cells cells.now }
    requires fit_first { AreFitStarts (A.meaning app.now) first.now }
    requires few { length first.now < 2 ^ 32 }
    requires budget { budget ≤ 1_000_000_000 }
{
    let in_turn = serial_meets(alloc, app, cells, first, budget, aim)?;
    Ok(in_turn && rounds_meet(rt, alloc, app, cells, first, budget, aim)?)
}

/// Whether a run without rounds by three workers at a gate meets an aim.
fn free_run_at_meets<R: Threads + Wait + Sync, A: App + Sync, G: Gate + Sync, W: Aim<A::Val>>(
    rt: &R,
    alloc: Global,
    gate: &G,
    app: &A,
    cells: &[A::Val],
    first: &[Start],
    budget: u64,
    aim: &W,
) -> Result<bool, OverCause>
    requires fit_cells { (A.meaning app.now).is_fit_cells cells.now }
    requires fit_first { AreFitStarts (A.meaning app.now) first.now }
    requires few { length first.now < 2 ^ 32 }
    requires budget { budget ≤ 1_000_000_000 }
{
    let engine = engine_at(alloc, app, cells, first, budget)?;
    let finals = run_free(rt, alloc, engine, gate, 1, 3)?;
    Ok(aim.is_met(&finals))
}

/// Whether runs without rounds at a gate that is open and at one that isn't meet an aim.
pub fn free_runs_meet<R: Threads + Wait + Sync, A: App + Sync, W: Aim<A::Val>>(
    rt: &R,
    alloc: Global,
    app: &A,
    cells: &[A::Val],
    first: &[Start],
    budget: u64,
    aim: &W,
) -> Result<bool, OverCause>
    requires fit_cells { (A.meaning app.now).is_fit_cells cells.now }
    requires fit_first { AreFitStarts (A.meaning app.now) first.now }
    requires few { length first.now < 2 ^ 32 }
    requires budget { budget ≤ 1_000_000_000 }
{
    let open = free_run_at_meets(rt, alloc, &Seeded, app, cells, first, budget, aim)?;
    let watched = free_run_at_meets(rt, alloc, &Watched, app, cells, first, budget, aim)?;
    Ok(open && watched)
}
