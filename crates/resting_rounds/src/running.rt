//! Runs in rounds whose pending tasks rest.

ghost use Rattle.std.specs.Prelude.{◌≡◌, ◌<◌, ◌≤◌, ◌^◌, length, IfOk, IfErr};
ghost use Rattle.cell_store.specs.Values.{values_of};
ghost use Rattle.app_laws.specs.Applications.{AreFitStarts};
ghost use Rattle.list_rounds.specs.Rounds.{IsRunFault, most_tasks, start_state};
ghost use Rattle.list_rounds.specs.Runs.{IsRoundsEnd};
ghost use Rattle.resting_rounds.specs.Waiting.{AreWaiting};

use crate::laws::basis;
use crate::waiting::copies;
use crate::watch_list::{WatchList, find_clear, watch_list};
use app_laws::Finals;
use kdg_text::Steps;
use list_rounds::{ListRounds, RunFault};
use outer_edge::Gate;
use resting_tasks::Resting;
use std::alloc::Global;
use std::marker::Brand;
use std::sync::ledger::{Blank, Ledger};
use task_order::{StartList, Task};

/// Runs an execution whose tasks rest to its end in rounds, and counts them. In each round all clear tasks
/// act, in the order of their keys. A task that meets an earlier pending one at a location isn't looked at
/// again before a task acts whose set has that location. Before task number `i` of a round acts, the gate
/// lets worker `i mod workers` pass.
///
/// At most `budget` tasks may be created, which are the first ones. What was handed in is dropped after a
/// fault.
pub fn run_resting<A: Resting, G: Gate>(
    alloc: Global,
    app: &A,
    cells: Vec<A::Val>,
    first: StartList,
    budget: u64,
    gate: &G,
    workers: u32,
) -> Result<(Finals<A::Val>, u64), RunFault>
    requires fit_cells { (A.meaning app.now).is_fit_cells cells.items }
    requires fit_first { AreFitStarts (A.meaning app.now) first }
    requires few { length first < 2 ^ 32 }
    requires budget { budget ≤ most_tasks }
    ensures end { IfOk result (λ run. IsRoundsEnd (A.meaning app.now) (start_state cells.items first) budget run.0 run.1) }
    ensures fit { IfOk result (λ run. (A.meaning app.now).is_fit_cells (values_of run.0.store)) }
    ensures fault { IfErr result (IsRunFault (A.meaning app.now) (start_state cells.items first) budget) }
{
    let run = ListRounds::begin(alloc, app, cells, first, budget)?;
    let tasks = copies(alloc, run.pending())?;
    counted_resting::<A, G, Brand>(alloc, run, &tasks, gate, workers, Blank::new(1))
}

/// The rounds from a beginning on, with its pending tasks and a count of the sets that are asked for.
fn counted_resting<'a, A: Resting, G: Gate, L: Ledger>(
    alloc: Global,
    run: ListRounds<'a, A>,
    tasks: &[Task],
    gate: &G,
    workers: u32,
    blank: Blank,
) -> Result<(Finals<A::Val>, u64), RunFault>
    requires name { blank.name ≡ L.name }
    requires parts { blank.parts ≡ L.parts }
    requires some { 0 < blank.parts }
    requires tasks { tasks.now ≡ run.state.pending }
    ensures end { IfOk result (λ end. IsRoundsEnd (A.meaning run.entry.app) run.entry.start run.entry.limit end.0 end.1) }
    ensures fit { IfOk result (λ end. (A.meaning run.entry.app).is_fit_cells (values_of end.0.store)) }
    ensures fault { IfErr result (IsRunFault (A.meaning run.entry.app) run.entry.start run.entry.limit) }
{
    let mut steps = Steps::<L>::new(blank);
    let app = run.app();
    let mut horizon = app.horizon(alloc)?;
    let mut list = watch_list(app, alloc, tasks)?;
    all_rounds(run, gate, workers, &mut list, &mut horizon, &mut steps)
}

/// All rounds that are left of a run, before each of which `list` has its pending tasks.
fn all_rounds<'a, A: Resting, G: Gate, L: Ledger>(
    mut run: ListRounds<'a, A>,
    gate: &G,
    workers: u32,
    list: &mut WatchList<'_, A::Cover>,
    horizon: &mut A::Horizon,
    steps: &mut Steps<L>,
) -> Result<(Finals<A::Val>, u64), RunFault>
    requires told { A.tells run.app horizon.old run.state.pending }
    requires waiting { AreWaiting (A.meaning run.app) (A.covers run.app list.old.acted) run.state list.old.waiting.items }
    ensures end { IfOk result (λ end. IsRoundsEnd (A.meaning run.entry.app) run.entry.start run.entry.limit end.0 end.1) }
    ensures fit { IfOk result (λ end. (A.meaning run.entry.app).is_fit_cells (values_of end.0.store)) }
    ensures fault { IfErr result (IsRunFault (A.meaning run.entry.app) run.entry.start run.entry.limit) }
{
    basis::<A>();
    while !run.pending().is_empty() {
        find_clear(&run, list)?;
        run = run.act_round(&mut list.found.clear, gate, workers, horizon, steps)?;
        list.go_on();
    }
    let rounds = run.rounds();
    Ok((run.end()?, rounds))
}
