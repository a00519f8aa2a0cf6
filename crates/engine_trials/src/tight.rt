//! A task that finds no memory: each executor tells so, and nobody waits for a worker that gave up.

ghost use Rattle.std.specs.Prelude.{◌≡◌, ◌≤◌, ◌<◌, ◌^◌, length, IfOk};
ghost use Rattle.app_laws.specs.Applications.{AreFitStarts};
ghost use Rattle.hook_app.specs.Kept.{HookKeeps, IsAnswered, IsAsked};
ghost use Rattle.engine_trials.specs.Adding.{adding, adding_sets, later_additions};

use super::adder::{Adder, act, sets, start};
use super::outcomes::{copies_of, list_of};
use super::rounds::engine_at;
use app_laws::{App, Effect, SerialFault, serial};
use cell_store::Bundle;
use free_pool::run_free;
use hook_app::{Hook, HookApp};
use kdg_text::NoRoom;
use mark_rounds::run_marks;
use outer_edge::{MemSink, Seeded};
use source_pool::{Flow, RunFault, rounds_to, run_rounds};
use std::alloc::Global;
use std::sync::Wait;
use std::test::Fail;
use std::thread::Threads;
use task_order::{Start, StartList, Task};

/// Whether each executor is without memory where the adder's last addition to the second cell hands its
/// bundle back, long after the sum was told.
fn all_are_tight<R: Threads + Wait + Sync>(
    rt: &R,
    alloc: Global,
    workers: u32,
) -> Result<bool, NoRoom>
    requires { (1 ≤ workers) × (workers ≤ 64) }
{
    let add = |task: &Task, bundle: Bundle<u64>| -> Result<Effect<u64>, Bundle<u64>>
        requires { IsAsked adding adding_sets task.now bundle }
        ensures { IsAnswered adding adding_sets task.now bundle result }
    {
        if task.body.at == 1 && task.key.prio == 2 {
            return Err(bundle);
        }
        act(alloc, task, bundle)
    };
    are_tight_by(rt, alloc, workers, add)
}

/// Whether they are by an operator that keeps the adder's deed.
fn are_tight_by<R: Threads + Wait + Sync, H: Hook<u64> + Sync>(
    rt: &R,
    alloc: Global,
    workers: u32,
    hook: H,
) -> Result<bool, NoRoom>
    requires workers { (1 ≤ workers) × (workers ≤ 64) }
    requires keeps { HookKeeps adding 3 adding_sets 1 (H.may hook) (H.gives hook) }
{
    let (sets, first) = (sets(alloc)?, first_tasks(alloc)?);
    let app = HookApp::new(&Adder, 3, sets, 1, hook);
    are_tight(rt, alloc, workers, &app, &[0, 0, 0], first.items())
}

/// The sum, and two additions behind it.
fn first_tasks(alloc: Global) -> Result<StartList, NoRoom>
    ensures { IfOk result (λ first. first ≡ later_additions) }
{
    let mut first = StartList::new(alloc);
    first.push(start(0, 2, 0))?;
    first.push(start(0, 0, 1))?;
    first.push(start(0, 1, 10))?;
    Ok(first)
}

/// Whether a run from these cells and first tasks is without memory, in turn, by marks, in rounds, without
/// rounds, and where its text goes out.
fn are_tight<R: Threads + Wait + Sync, A: App + Sync>(
    rt: &R,
    alloc: Global,
    workers: u32,
    app: &A,
    cells: &[A::Val],
    first: &[Start],
) -> Result<bool, NoRoom>
    requires workers { (1 ≤ workers) × (workers ≤ 64) }
    requires fit_cells { (A.meaning app.now).is_fit_cells cells.now }
    requires fit_first { AreFitStarts (A.meaning app.now) first.now }
    requires few { length first.now < 2 ^ 32 }
{
    let in_turn = is_tight_in_turn(alloc, app, cells, first)?;
    let by_marks = is_tight_by_marks(alloc, workers, app, cells, first)?;
    let in_rounds = is_tight_in_rounds(rt, alloc, workers, app, cells, first)?;
    let free = is_tight_without_rounds(rt, alloc, workers, app, cells, first)?;
    let as_stream = is_tight_as_stream(rt, alloc, workers, app, cells, first)?;
    Ok(in_turn && by_marks && in_rounds && free && as_stream)
}

/// Whether a run in turn is without memory.
fn is_tight_in_turn<A: App>(
    alloc: Global,
    app: &A,
    cells: &[A::Val],
    first: &[Start],
) -> Result<bool, NoRoom>
    requires fit_cells { (A.meaning app.now).is_fit_cells cells.now }
    requires fit_first { AreFitStarts (A.meaning app.now) first.now }
    requires few { length first.now < 2 ^ 32 }
{
    let (cells, first) = (copies_of(alloc, cells)?, list_of(alloc, first)?);
    let run = serial(alloc, app, cells, first, 100);
    Ok(matches!(run, Err(SerialFault::NoRoom)))
}

/// Whether a run by marks is without memory.
fn is_tight_by_marks<A: App>(
    alloc: Global,
    workers: u32,
    app: &A,
    cells: &[A::Val],
    first: &[Start],
) -> Result<bool, NoRoom>
    requires fit_cells { (A.meaning app.now).is_fit_cells cells.now }
    requires fit_first { AreFitStarts (A.meaning app.now) first.now }
    requires few { length first.now < 2 ^ 32 }
{
    let (cells, first) = (copies_of(alloc, cells)?, list_of(alloc, first)?);
    let run = run_marks(alloc, app, cells, first, 100, &Seeded, workers);
    Ok(matches!(run, Err(RunFault::NoRoom)))
}

/// Whether a run in rounds is without memory.
fn is_tight_in_rounds<R: Threads + Sync, A: App + Sync>(
    rt: &R,
    alloc: Global,
    workers: u32,
    app: &A,
    cells: &[A::Val],
    first: &[Start],
) -> Result<bool, NoRoom>
    requires workers { (1 ≤ workers) × (workers ≤ 64) }
    requires fit_cells { (A.meaning app.now).is_fit_cells cells.now }
    requires fit_first { AreFitStarts (A.meaning app.now) first.now }
    requires few { length first.now < 2 ^ 32 }
{
    let engine = engine_at(alloc, app, cells, first, 100).map_err(|_| NoRoom)?;
    let run = run_rounds(rt, alloc, engine, &Seeded, 1, workers);
    Ok(matches!(run, Err(RunFault::NoRoom)))
}

/// Whether a run without rounds is without memory.
fn is_tight_without_rounds<R: Threads + Wait + Sync, A: App + Sync>(
    rt: &R,
    alloc: Global,
    workers: u32,
    app: &A,
    cells: &[A::Val],
    first: &[Start],
) -> Result<bool, NoRoom>
    requires workers { (1 ≤ workers) × (workers ≤ 64) }
    requires fit_cells { (A.meaning app.now).is_fit_cells cells.now }
    requires fit_first { AreFitStarts (A.meaning app.now) first.now }
    requires few { length first.now < 2 ^ 32 }
{
    let engine = engine_at(alloc, app, cells, first, 100).map_err(|_| NoRoom)?;
    let run = run_free(rt, alloc, engine, &Seeded, 1, workers);
    Ok(matches!(run, Err(RunFault::NoRoom)))
}

/// Whether a run whose text goes out is without memory, and its sink has just the sum's line.
fn is_tight_as_stream<R: Threads + Sync, A: App + Sync>(
    rt: &R,
    alloc: Global,
    workers: u32,
    app: &A,
    cells: &[A::Val],
    first: &[Start],
) -> Result<bool, NoRoom>
    requires workers { (1 ≤ workers) × (workers ≤ 64) }
    requires fit_cells { (A.meaning app.now).is_fit_cells cells.now }
    requires fit_first { AreFitStarts (A.meaning app.now) first.now }
    requires few { length first.now < 2 ^ 32 }
{
    let mut sink = MemSink::with_room(alloc, 16, 16, Vec::new(alloc))?;
    let engine = engine_at(alloc, app, cells, first, 100).map_err(|_| NoRoom)?;
    let flow = rounds_to(rt, alloc, engine, &Seeded, 1, workers, &mut sink);
    Ok(matches!(flow, Flow::NoRoom) && sink.held() == b"sum 0\n".as_slice())
}

#[test]
fn no_memory_in_the_middle_ends_each_run(rt: HostRuntime) -> Result<(), Fail> {
    for workers in 1..=3 {
        assert!(rt; all_are_tight(&rt, rt.alloc(), workers)?);
    }
    Ok(())
}
