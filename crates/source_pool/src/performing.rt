//! How the jobs of a round are performed by some workers.

ghost use Rattle.std.specs.Prelude.{◌≡◌, ◌+◌, ◌-◌, ◌<◌, ◌≤◌, ◌^◌, List, min, length, sum_by, OnOk};
ghost use Rattle.std.specs.List.{AllByRecursion, AllZip};
ghost use Rattle.crew.specs.Jobs.{MayRun};
ghost use Rattle.source_pool.specs.Course.{IsJobDone, RunPoint};
ghost use Rattle.source_pool.specs.Performing.{AreDone, AreDoneInSomeTurn};
ghost use Rattle.source_pool.specs.Round.{BeginsRound, IsRoundDrawn};

use crate::claiming::{Picks, draw};
use crate::finishing::order_ends;
use crate::hands::perform_together;
use crate::laws::{drawing_laws, kept_laws};
use crate::round_lists::RoundLists;
use app_laws::App;
use cell_store::Held;
use graph_update::{Done, Engine, Job};
use kdg_text::NoRoom;
use outer_edge::Gate;
use std::collections::VecDeque;
use std::ops::Range;
use std::thread::Threads;
use task_order::{ascending_laws, earlier_laws};

/// Draws the jobs of all clear tasks, has them performed, and puts what was done in the order of its
/// keys. Where the gate isn't open job number `i` is worker `i mod workers`'s, and each worker performs its
/// jobs in order. What was in the lists is dropped.
pub(crate) fn perform_round<R: Threads + Sync, A: App + Sync, G: Gate + Sync>(
    rt: &R,
    engine: &mut Engine<'_, A>,
    picks: &mut Picks<'_, G>,
    workers: u32,
    lists: &mut RoundLists<A>,
) -> Result<(), NoRoom>
    ghost from: { RunPoint A.Val }
    requires workers { 1 ≤ workers }
    requires begins { BeginsRound (A.meaning engine.old.app) from engine.old.progress }
    requires told { lists.old.partners ≡ engine.old.app }
    ensures app { engine.new.app ≡ engine.old.app }
    ensures told { lists.new.partners ≡ lists.old.partners }
    ensures drawn { OnOk result (IsRoundDrawn (A.meaning engine.old.app) from (AreDone (A.meaning engine.old.app) lists.new.dones.items) engine.old.progress engine.new.progress) }
{
    drawing_laws::<A>();
    kept_laws::<A>();
    ascending_laws();
    earlier_laws();
    draw(engine, picks, &mut lists.jobs)?;
    perform_drawn(rt, engine.app(), picks.gate(), workers, lists)?;
    order_ends(&mut lists.dones);
    Ok(())
}

/// Performs the jobs that were drawn, each by its worker. Where threads don't pay, the caller performs
/// all jobs in order.
fn perform_drawn<R: Threads + Sync, A: App + Sync, G: Gate + Sync>(
    rt: &R,
    app: &A,
    gate: &G,
    workers: u32,
    lists: &mut RoundLists<A>,
) -> Result<(), NoRoom>
    requires workers { 1 ≤ workers }
    requires may_run { AllByRecursion (MayRun (A.meaning app.now)) lists.old.jobs.items }
    requires told { lists.old.partners ≡ app.now }
    ensures done { OnOk result (AreDoneInSomeTurn (A.meaning app.now) lists.old.jobs.items lists.new.dones.items) }
    ensures told { lists.new.partners ≡ lists.old.partners }
{
    let cells = cells_in(&lists.jobs);
    let is_enough = lists.work.note_round(lists.jobs.len(), cells);
    if workers > 1 && is_enough {
        perform_together(rt, app, gate, workers, lists)
    } else {
        perform_in_turn(app, gate, 0..workers, &mut lists.jobs, &mut lists.dones)
    }
}

/// How many cells the jobs have in all, or the greatest number where that is more.
fn cells_in<V: Held>(jobs: &VecDeque<Job<V>>) -> usize
    ensures { result ≡ min (sum_by (λ job. length job.bundle.set) jobs.now.items) (2 ^ 64 - 1) }
{
    let mut cells = 0usize;
    for number in 0..jobs.len() {
        cells = cells.saturating_add(jobs[number].bundle.len());
    }
    cells
}

/// Performs the jobs in order, as these workers in turn, each job once the gate lets its worker pass: the first
/// job as the first of `workers`, and the one behind the last worker's as the first again. `dones` then has what
/// was done, in that order; what was in it is dropped. For want of memory the jobs that are left stay.
// Room for all of it is made first, and a job isn't handed to `crew::perform`: what holds either a done task or
// a job that comes back would be moved twice.
#[inline(always)]
pub fn perform_in_turn<A: App, G: Gate>(
    app: &A,
    gate: &G,
    workers: Range<u32>,
    jobs: &mut VecDeque<Job<A::Val>>,
    dones: &mut VecDeque<Done<A::Val>>,
) -> Result<(), NoRoom>
    requires { AllByRecursion (MayRun (A.meaning app.now)) jobs.old.items }
    ensures { OnOk result (AllZip (IsJobDone (A.meaning app.now)) jobs.old.items dones.new.items) }
{
    dones.clear();
    dones.reserve(jobs.len())?;
    let mut worker = workers.start;
    while let Some(job) = jobs.pop_front() {
        gate.pass(worker, &job.task.key);
        let Job { node, task, bundle } = job;
        let Ok(effect) = app.run(&task, bundle) else {
            return Err(NoRoom);
        };
        dones.push_back_reserved(Done { node, task, effect });
        worker = next_worker(worker, workers.start, workers.end);
    }
    Ok(())
}

/// Who of the workers from `first` on, and before `end`, comes after this one.
#[inline(always)]
fn next_worker(worker: u32, first: u32, end: u32) -> u32
    ensures next { worker + 1 < end → result ≡ worker + 1 }
    ensures again { end ≤ worker + 1 → result ≡ first }
{
    let next = worker.saturating_add(1);
    if next < end { next } else { first }
}
