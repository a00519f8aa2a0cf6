//! Runs in rounds whose clear tasks are found by marks.

ghost use Rattle.std.specs.Prelude.{◌≡◌, ◌<◌, ◌≤◌, ◌^◌, length, IfOk, IfErr};
ghost use Rattle.cell_store.specs.Values.{values_of};
ghost use Rattle.app_laws.specs.Applications.{AreFitStarts};
ghost use Rattle.list_rounds.specs.Rounds.{IsRunFault, most_tasks, start_state};
ghost use Rattle.list_rounds.specs.Runs.{IsRoundsEnd};
ghost use Rattle.mark_rounds.specs.Board.{IsFresh};

use crate::searching::{Search, search_run};
use app_laws::{App, Finals};
use kdg_text::Steps;
use list_rounds::{ListRounds, RunFault};
use outer_edge::Gate;
use std::alloc::Global;
use std::marker::Brand;
use std::sync::ledger::{Blank, Ledger};
use task_order::StartList;

/// Runs an execution to its end in rounds, and counts them. In each round every pending task marks the
/// locations of its declared set with its place in the order of keys; those whose places are free and that
/// are safe are the clear tasks, which act in that order. Before task number `i` of a round acts, the
/// gate lets worker `i mod workers` pass.
///
/// At most `budget` tasks may be created, the first ones included. What was handed in is dropped after a
/// fault.
pub fn run_marks<A: App, G: Gate>(
    alloc: Global,
    app: &A,
    cells: Vec<A::Val>,
    first: StartList,
    budget: u64,
    gate: &G,
    workers: u32,
) -> Result<(Finals<A::Val>, u64), RunFault>
    requires fit_cells { (A.meaning app.now).is_fit_cells cells.items }
    requires fit_first { AreFitStarts (A.meaning app.now) first }
    requires few { length first < 2 ^ 32 }
    requires budget { budget ≤ most_tasks }
    ensures end { IfOk result (λ run. IsRoundsEnd (A.meaning app.now) (start_state cells.items first) budget run.0 run.1) }
    ensures fit { IfOk result (λ run. (A.meaning app.now).is_fit_cells (values_of run.0.store)) }
    ensures fault { IfErr result (IsRunFault (A.meaning app.now) (start_state cells.items first) budget) }
{
    let run = ListRounds::begin(alloc, app, cells, first, budget)?;
    counted_marks::<A, G, Brand>(alloc, run, gate, workers, Blank::new(1))
}

/// The rounds from a beginning on, with a count of the sets that are asked for.
fn counted_marks<'a, A: App, G: Gate, L: Ledger>(
    alloc: Global,
    run: ListRounds<'a, A>,
    gate: &G,
    workers: u32,
    blank: Blank,
) -> Result<(Finals<A::Val>, u64), RunFault>
    requires name { blank.name ≡ L.name }
    requires parts { blank.parts ≡ L.parts }
    requires some { 0 < blank.parts }
    ensures end { IfOk result (λ end. IsRoundsEnd (A.meaning run.entry.app) run.entry.start run.entry.limit end.0 end.1) }
    ensures fit { IfOk result (λ end. (A.meaning run.entry.app).is_fit_cells (values_of end.0.store)) }
    ensures fault { IfErr result (IsRunFault (A.meaning run.entry.app) run.entry.start run.entry.limit) }
{
    let mut steps = Steps::<L>::new(blank);
    let app = run.app();
    let mut search = Search::new(alloc, app.cells())?;
    let mut horizon = app.horizon(alloc)?;
    all_rounds(run, gate, workers, &mut search, &mut horizon, &mut steps)
}

/// All rounds that are left of a run, before each of which the board of `search` has no mark.
fn all_rounds<'a, A: App, G: Gate, L: Ledger>(
    mut run: ListRounds<'a, A>,
    gate: &G,
    workers: u32,
    search: &mut Search,
    horizon: &mut A::Horizon,
    steps: &mut Steps<L>,
) -> Result<(Finals<A::Val>, u64), RunFault>
    requires cells { search.old.cells ≡ (A.meaning run.app).count }
    requires wide { length search.old.lists.writers.items ≡ (A.meaning run.app).count }
    requires fresh { IsFresh (A.meaning run.app).count search.old.board search.old.marker }
    requires told { A.tells run.app horizon.old run.state.pending }
    ensures end { IfOk result (λ end. IsRoundsEnd (A.meaning run.entry.app) run.entry.start run.entry.limit end.0 end.1) }
    ensures fit { IfOk result (λ end. (A.meaning run.entry.app).is_fit_cells (values_of end.0.store)) }
    ensures fault { IfErr result (IsRunFault (A.meaning run.entry.app) run.entry.start run.entry.limit) }
{
    while !run.pending().is_empty() {
        search_run(&run, search, horizon, steps)?;
        run = run.act_round(&mut search.lists.clear, gate, workers, horizon, steps)?;
        run = run.with_short_paths(search.alloc, gate)?;
        search.renew()?;
    }
    let rounds = run.rounds();
    Ok((run.end()?, rounds))
}
