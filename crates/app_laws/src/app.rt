ghost use Rattle.std.specs.Prelude.{◌≡◌, ◌+◌, length, ℕ, List, Ok, Err, IfOk, IfErr, OnErr, IsTrue, ◌∷◌, ◌++◌};
ghost use Rattle.cell_store.specs.Cells.{AreHome, AreWrittenOut, part_of, cells_given};
ghost use Rattle.app_laws.specs.Applications.{IsDoneAtHome, IsFitTask, IsTaken};
ghost use Rattle.cell_store.specs.Part.{Part};

use crate::ChildList;
use cell_store::{Bundle, Held, Store, return_laws};
use kdg_text::{NoRoom, Steps, Text};
use rw_sets::RwSet;
use std::alloc::Global;
use std::sync::ledger::Ledger;
use task_order::{Body, PendingTasks, Task};

/// What a task did: its bundle with the new values, its children, and the lines that it writes.
#[derive(Drop)]
pub struct Effect<V: Held> {
    pub bundle: Bundle<V>,
    pub children: ChildList,
    pub text: Text,
}

/// What is found of a declared set where some cells may be out.
#[derive(Drop)]
pub enum SetAnswer {
    /// The declared set.
    Known(RwSet),
    /// The first cell that is needed to find the set out and is out. The set has its location.
    Out(u32),
}

/// An ordered application: tasks with priorities, each of which declares the cells that it reads
/// and writes, works on those alone, and may create further tasks that are not earlier.
pub trait App {
    ghost use Rattle.task_order.specs.declared.task.Body.{Body};
    ghost use Rattle.task_order.specs.declared.task.Task.{Task};
    ghost use Rattle.rw_sets.specs.Accesses.{Accesses};
    ghost use Rattle.app_laws.specs.Applications.{Application, AgreesWith, AreFitTasks, IsFitTask, IsTaken, IsEffect, IsReady, IsDoneAtHome, tasks_before, FixedSetsAreKnown, PathsAreIgnored, IgnoresNames, IsLawful, IsSource, AreWriters};
    ghost use Rattle.task_order.specs.TaskList.{put_in};
    ghost use Rattle.std.specs.Prelude.{Bool, false};

    /// What a cell holds.
    type Val: Held;

    /// What the application means: its cells and tasks, their sets, and what they do.
    ghost meaning: { Self → Application Self.Val };

    /// What `safe` keeps of the pending tasks from one call to the next; `()` where it looks at the
    /// earliest one alone, or at none.
    type Horizon: Drop + Send;

    /// What a horizon tells is so of these pending tasks.
    ghost tells: { Self → Self.Horizon → List Task → Type 0 };

    /// How many cells there are.
    fn cells(&self) -> u32
        ensures { result ≡ (meaning self.now).count };

    /// The declared set of a task with this body, as far as the cells that are home tell it. Each
    /// call is one step.
    fn sets<L: Ledger>(
        &self,
        body: &Body,
        store: &Store<Self::Val>,
        steps: &mut Steps<L>,
    ) -> Result<SetAnswer, NoRoom>
        requires fit { (prio : ℕ) × (meaning self.now).is_fit_task prio body.now }
        requires cells { (values : List Self.Val) × (meaning self.now).is_fit_cells values × AgreesWith store.now values }
        ensures answer { IfOk result (λ answer. answer ≡ (meaning self.now).walk body.now store.now) }
        ensures step { steps.new ≡ steps.old + 1 };

    /// What `sets_are_fixed` tells.
    ghost has_fixed_sets: { Self → Bool } = { λ _. false };

    /// Whether each task's declared set is one and the same, whatever the cells hold. Then it isn't
    /// asked for again.
    fn sets_are_fixed(&self) -> bool
        ensures told { result ≡ has_fixed_sets self.now }
        ensures known { IsTrue result → FixedSetsAreKnown (meaning self.now) };

    /// Whether paths give tasks their order and tell nothing else. Then tasks may get other paths in
    /// the same order.
    fn ignores_paths(&self) -> bool
        ensures known { IsTrue result → PathsAreIgnored (meaning self.now) }
        ensures horizon { IsTrue result → (horizon : Self.Horizon) → IgnoresNames (tells self.now horizon) }
    {
        false
    }

    /// About how many nanoseconds a task has to do, where the application knows: an executor starts
    /// threads where they save time. No contract rests on it.
    fn task_nanos(&self) -> Option<u64> {
        None
    }

    /// A horizon that knows nothing.
    fn horizon(&self, alloc: Global) -> Result<Self::Horizon, NoRoom>
        ensures { IfOk result (λ horizon. (tasks : List Task) → tells self.now horizon tasks) };

    /// A task with this body came to the pending ones, or went.
    fn touch(&self, horizon: &mut Self::Horizon, body: &Body)
        requires fit { (prio : ℕ) × (meaning self.now).is_fit_task prio body.now }
        ensures came { (task : Task) (tasks : List Task) → task.body ≡ body.now → tells self.now horizon.old tasks → tells self.now horizon.new (put_in task tasks) }
        ensures went { (task : Task) (before after : List Task) → task.body ≡ body.now → tells self.now horizon.old (before ++ task ∷ after) → tells self.now horizon.new (before ++ after) };

    /// Whether a task may run although those of the pending tasks that are earlier haven't run yet:
    /// what they and their children may still do must not touch it. It is asked only where none of those
    /// conflicts with it.
    fn safe<P: PendingTasks>(&self, task: &Task, pending: &P, horizon: &mut Self::Horizon) -> bool
        requires fit { IsFitTask (meaning self.now) task.now }
        requires pending { AreFitTasks (meaning self.now) (P.tasks pending.now) }
        requires told { tells self.now horizon.old (P.tasks pending.now) }
        requires apart { IsSource (meaning self.now) task.now (tasks_before task.now.key (P.tasks pending.now)) }
        requires writers { FixedSetsAreKnown (meaning self.now) → AreWriters (meaning self.now) (P.writers pending.now) (P.tasks pending.now) }
        ensures told { tells self.now horizon.new (P.tasks pending.now) }
        ensures answer { result ≡ (meaning self.now).is_safe task.now (tasks_before task.now.key (P.tasks pending.now)) };

    /// Does what the task does, on its bundle alone. Where memory runs out, the bundle comes back
    /// as it was.
    fn run(
        &self,
        task: &Task,
        bundle: Bundle<Self::Val>,
    ) -> Result<Effect<Self::Val>, Bundle<Self::Val>>
        requires fit { IsFitTask (meaning self.now) task.now }
        requires cells { IsTaken (meaning self.now) task.now bundle }
        ensures effect { IfOk result (IsEffect (meaning self.now) task.now bundle) }
        ensures returned { IfErr result (λ back. back ≡ bundle) };

    /// Whether `run_at_home` is to be called. No contract rests on it.
    fn works_at_home(&self) -> bool {
        false
    }

    /// Does what the task does on cells that are home, and leaves them there: as where the bundle of
    /// its set is taken, `run` works on it, and it is given back. It finds its cells itself. Where memory
    /// runs out, the cells are as they were.
    fn run_at_home(
        &self,
        task: &Task,
        store: &mut Store<Self::Val>,
    ) -> Result<(ChildList, Text), NoRoom>
        requires fit { IsFitTask (meaning self.now) task.now }
        requires ready { (set : Accesses) × IsReady (meaning self.now) task.now store.old set }
        ensures done { (set : Accesses) → IsReady (meaning self.now) task.now store.old set → IfOk result (λ made. IsDoneAtHome (meaning self.now) task.now set store.old made.0 made.1 store.new) }
        ensures unchanged { OnErr result (store.new ≡ store.old) }
    {
        let (_, _) = (task, store);
        Err(NoRoom)
    }

    /// What is asked of an application.
    ghost lawful: { (app : Self) → IsLawful (meaning app) };
}

/// Gives back the bundle that a task left, or that came back from it as it was where memory ran out.
/// After `take` and `run` it ends the `run_at_home` of an application that has no shorter way.
#[inline(always)]
pub fn give_back<V: Held>(
    store: &mut Store<V>,
    ran: Result<Effect<V>, Bundle<V>>,
) -> Result<(ChildList, Text), NoRoom>
    requires effect { IfOk ran (λ effect. AreWrittenOut store.old effect.bundle.set) }
    requires returned { IfErr ran (λ back. AreWrittenOut store.old back.set) }
    ensures done { IfOk result (λ made. (bundle : Part V) × (ran ≡ Ok (record { bundle = bundle; children = made.0; text = made.1 })) × (store.new ≡ cells_given store.old bundle)) }
    ensures back { OnErr result ((back : Part V) × (ran ≡ Err back) × (store.new ≡ cells_given store.old back)) }
{
    match ran {
        Ok(
            Effect {
                bundle,
                children,
                text,
            },
        ) => {
            let _ = store.give(bundle);
            Ok((children, text))
        }
        Err(back) => {
            let _ = store.give(back);
            Err(NoRoom)
        }
    }
}

/// Does what the task does on cells that are home, and leaves them there, in the application's own way
/// or by its bundle.
#[inline(always)]
pub fn act_at_home<A: App>(
    app: &A,
    task: &Task,
    set: &RwSet,
    store: &mut Store<A::Val>,
) -> Result<(ChildList, Text), NoRoom>
    requires fit { IsFitTask (A.meaning app.now) task.now }
    requires home { AreHome store.old set.now }
    requires cells { IsTaken (A.meaning app.now) task.now (part_of store.old set.now) }
    ensures done { IfOk result (λ made. IsDoneAtHome (A.meaning app.now) task.now set.now store.old made.0 made.1 store.new) }
    ensures unchanged { OnErr result (store.new ≡ store.old) }
{
    if app.works_at_home() {
        return app.run_at_home(task, store);
    }
    act_by_bundle(app, task, set, store)
}

/// Does what the task does on cells that are home, by its bundle.
#[inline(always)]
pub fn act_by_bundle<A: App>(
    app: &A,
    task: &Task,
    set: &RwSet,
    store: &mut Store<A::Val>,
) -> Result<(ChildList, Text), NoRoom>
    requires fit { IsFitTask (A.meaning app.now) task.now }
    requires home { AreHome store.old set.now }
    requires cells { IsTaken (A.meaning app.now) task.now (part_of store.old set.now) }
    ensures done { IfOk result (λ made. IsDoneAtHome (A.meaning app.now) task.now set.now store.old made.0 made.1 store.new) }
    ensures unchanged { OnErr result (store.new ≡ store.old) }
{
    return_laws::<A::Val>();
    let bundle = store.take(set)?;
    give_back(store, app.run(task, bundle))
}
