//! A run in rounds, between two of them.

ghost use Rattle.std.specs.Prelude.{◌≡◌, ◌≢◌, ◌+◌, ◌<◌, ◌≤◌, ◌^◌, [], length, IfOk, IfErr, OnOk};
ghost use Rattle.cell_store.specs.Values.{homes, values_of};
ghost use Rattle.app_laws.specs.Applications.{AreFitStarts};
ghost use Rattle.app_laws.specs.Serial.{IsRun};
ghost use Rattle.commuting.specs.Rounds.{TakesRounds, clear_tasks};
ghost use Rattle.commuting.specs.States.{execution_from};
ghost use Rattle.list_rounds.specs.Renaming.{IsSameRun};
ghost use Rattle.list_rounds.specs.Rounds.{IsKept, IsNext, IsRoundFault, IsRunFault, begun, most_tasks, start_state};

use crate::RunFault;
use crate::acting::{act_one, within};
use crate::laws::basis;
use crate::parts::{RunParts, drain};
use crate::renaming::{needs_new_paths, renumbered};
use app_laws::{App, Finals, first_tasks, store_of};
use cell_store::Store;
use kdg_text::{NoRoom, Steps, Text};
use outer_edge::Gate;
use output_log::Log;
use std::alloc::Global;
use std::collections::VecDeque;
use std::marker::Model;
use std::snapshot::Snapshot;
use std::sync::ledger::Ledger;
use task_order::{StartList, Task, TaskList};

/// A run of an ordered application in rounds, between two of them: its cells, all of them home, its
/// pending tasks, and the texts of the tasks that have ended.
///
/// It is seen as its application, the state that it began with, the limit of created tasks, the number of
/// rounds since, the state now, and how many tasks have ended. What keeps the rounds whole is its type: a
/// round that doesn't come to its end leaves nothing behind.
#[derive(Drop)]
pub struct ListRounds<'a, A: App> {
    app: &'a A,
    parts: RunParts<A::Val>,
    rounds: u64,
    limit: u64,
    /// How many tasks had ended when the pending ones last got new paths.
    renamed_at: u64,
    /// The cells and the first tasks that it began with, for clauses alone.
    first_cells: Snapshot<Vec<A::Val>>,
    first: Snapshot<StartList>,
}

impl<'a, A: App> Model for ListRounds<'a, A> {
    ghost use Rattle.list_rounds.specs.Course.{HasCome, state_in};
    ghost use Rattle.list_rounds.specs.Rounds.{RoundsState, start_state};

    ghost Value = { RoundsState A A.Val };

    ghost view = { λ r. record {
      app = r.app.now;
      start = start_state r.first_cells.value.items r.first.value;
      limit = r.limit;
      rounds = r.rounds;
      state = state_in r.parts;
      ended = r.parts.ended;
    } };

    ghost invariant = { λ r. HasCome (A.meaning r.app.now) (start_state r.first_cells.value.items r.first.value) r.limit r.rounds r.parts };
}

impl<'a, A: App> ListRounds<'a, A> {
    /// The first tasks on these cells. At most `budget` tasks may be created, the first ones included. What
    /// was handed in is dropped after a fault.
    pub fn begin(
        alloc: Global,
        app: &'a A,
        cells: Vec<A::Val>,
        first: StartList,
        budget: u64,
    ) -> Result<ListRounds<'a, A>, RunFault>
        requires fit_cells { (A.meaning app.now).is_fit_cells cells.items }
        requires fit_first { AreFitStarts (A.meaning app.now) first }
        requires few { length first < 2 ^ 32 }
        requires budget { budget ≤ most_tasks }
        ensures begun { IfOk result (λ run. run ≡ begun app.now (start_state cells.items first) budget) }
        ensures fault { IfErr result (IsRunFault (A.meaning app.now) (start_state cells.items first) budget) }
    {
        basis::<A>();
        let first_cells = Snapshot::of(&cells);
        let begun = Snapshot::of(&first);
        let starts = first.items();
        within(starts.len() as u64, budget)?;
        let pending = first_tasks(alloc, starts)?;
        let store = store_of(alloc, app, cells)?;
        let parts = RunParts {
            store,
            pending,
            log: Log::new(alloc),
            text: Text::new(alloc),
            ended: 0,
        };
        Ok(ListRounds {
            app,
            parts,
            rounds: 0,
            limit: budget,
            renamed_at: 0,
            first_cells,
            first: begun,
        })
    }

    /// The application.
    pub fn app(&self) -> &'a A
        ensures { result.now ≡ self.now.app }
    {
        self.app
    }

    /// The pending tasks, in the order of their keys.
    pub fn pending(&self) -> &TaskList
        ensures pending { result.now ≡ self.now.state.pending }
        ensures kept { IsKept (A.meaning self.now.app) self.now }
    {
        &self.parts.pending
    }

    /// The cells, all of which are home.
    pub fn store(&self) -> &Store<A::Val>
        ensures home { result.now ≡ homes self.now.state.cells }
        ensures cells { values_of result.now ≡ self.now.state.cells }
        ensures kept { IsKept (A.meaning self.now.app) self.now }
    {
        &self.parts.store
    }

    /// How many tasks have ended.
    pub fn ended(&self) -> u64
        ensures { result ≡ self.now.ended }
    {
        self.parts.ended
    }

    /// How many rounds there were.
    pub fn rounds(&self) -> u64
        ensures { result ≡ self.now.rounds }
    {
        self.rounds
    }

    /// One round: the clear tasks act where the cells are, in the order of their keys, and the list has none
    /// of them any more. Before task number `i` of the round acts, the gate lets worker `i mod workers` pass.
    /// The texts that no pending task is before then leave the log for the text of the run. The horizon is
    /// told which tasks come and go. It is refused as soon as a task makes more tasks than the limit, and
    /// tells how many there are then. What was handed in is dropped after a fault.
    pub fn act_round<G: Gate, L: Ledger>(
        self,
        clear: &mut VecDeque<Task>,
        gate: &G,
        workers: u32,
        horizon: &mut A::Horizon,
        steps: &mut Steps<L>,
    ) -> Result<ListRounds<'a, A>, RunFault>
        requires some { self.state.pending ≢ [] }
        requires told { A.tells self.app horizon.old self.state.pending }
        requires clear { clear.old.items ≡ clear_tasks (A.meaning self.app) self.state }
        ensures next { IfOk result (IsNext (A.meaning self.entry.app) self.entry) }
        ensures told { IfOk result (λ next. A.tells self.entry.app horizon.new next.state.pending) }
        ensures none { OnOk result (clear.new.items ≡ []) }
        ensures fault { IfErr result (IsRunFault (A.meaning self.entry.app) self.entry.start self.entry.limit) }
        ensures first { IfErr result (IsRoundFault (A.meaning self.entry.app) self.entry clear.old.items) }
    {
        basis::<A>();
        let ListRounds {
            app,
            mut parts,
            rounds,
            limit,
            renamed_at,
            first_cells,
            first,
        } = self;
        let mut worker = 0u32;
        let mut in_front = true;
        while let Some(task) = clear.pop_front() {
            gate.pass(worker, &task.key);
            worker = next_worker(worker, workers);
            act_one(app, task, limit, &mut parts, horizon, &mut in_front, steps)?;
        }
        drain(&mut parts)?;
        Ok(ListRounds {
            app,
            parts,
            rounds: rounds + 1,
            limit,
            renamed_at,
            first_cells,
            first,
        })
    }

    /// Gives the pending tasks short paths where that pays, and leaves all else: they are numbered in the
    /// order of their paths, as first tasks are. So they keep their order, and what is left comes to the
    /// same. It is done only where nobody sees a path: the application ignores them, and the gate is open.
    /// What was handed in is dropped where memory runs out.
    pub fn with_short_paths<G: Gate>(
        self,
        alloc: Global,
        gate: &G,
    ) -> Result<ListRounds<'a, A>, NoRoom>
        ensures same { IfOk result (IsSameRun A.meaning self.entry) }
        ensures told { (horizon : A.Horizon) → A.tells self.entry.app horizon self.entry.state.pending → IfOk result (λ next. A.tells self.entry.app horizon next.state.pending) }
    {
        basis::<A>();
        let ListRounds {
            app,
            parts,
            rounds,
            limit,
            renamed_at,
            first_cells,
            first,
        } = self;
        if !needs_new_paths(app, gate, &parts, renamed_at) {
            return Ok(ListRounds {
                app,
                parts,
                rounds,
                limit,
                renamed_at,
                first_cells,
                first,
            });
        }
        let renamed_at = parts.ended;
        let parts = renumbered(alloc, parts)?;
        Ok(ListRounds {
            app,
            parts,
            rounds,
            limit,
            renamed_at,
            first_cells,
            first,
        })
    }

    /// The end of a run in which nothing is pending. What it leaves is that of the sequential execution.
    pub fn end(self) -> Result<Finals<A::Val>, NoRoom>
        requires { self.state.pending ≡ [] }
        ensures run { IfOk result (IsRun (A.meaning self.entry.app).act self.entry.limit (execution_from self.entry.start)) }
        ensures rounds { OnOk result (TakesRounds (A.meaning self.entry.app) self.entry.rounds self.entry.start) }
        ensures fit { IfOk result (λ finals. (A.meaning self.entry.app).is_fit_cells (values_of finals.store)) }
    {
        basis::<A>();
        let ListRounds {
            app: _,
            parts,
            rounds: _,
            limit: _,
            renamed_at: _,
            first_cells: _,
            first: _,
        } = self;
        let RunParts {
            store,
            pending: _,
            mut log,
            mut text,
            ended,
        } = parts;
        let rest = log.take_all()?;
        text.push_all(rest.bytes())?;
        Ok(Finals {
            store,
            text,
            count: ended,
        })
    }
}

/// Who comes after this worker in turn.
#[inline(always)]
fn next_worker(worker: u32, workers: u32) -> u32
    ensures next { worker + 1 < workers → result ≡ worker + 1 }
    ensures again { workers ≤ worker + 1 → result ≡ 0 }
{
    let next = worker.saturating_add(1);
    if next < workers { next } else { 0 }
}
