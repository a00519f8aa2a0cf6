//! Whole trials: an engine begins and is driven, and what there is to see is handed out.

ghost use Rattle.std.specs.Prelude.{◌≤◌, [], IfOk, IfSome};
ghost use Rattle.run_laws.specs.Laws.{IsDone};
ghost use Rattle.engine_trials.specs.InHand.{AreInHand};

use super::driving::{
    Answer, answer_of, begin, claim, finish_all, give_first_tasks, gives, perform_next,
};
use super::starts::Startable;
use app_laws::App;
use cell_store::Held;
use graph_update::{BeginFault, Claim, Counts, Done, Engine, FinishFault, OverCause};
use kdg_text::NoRoom;
use outer_edge::Seeded;
use source_pool::perform_in_turn;
use std::alloc::Global;
use std::collections::VecDeque;
use task_order::Path;

/// An engine at an application's start, with no job in hand.
fn start<A: Startable>(alloc: Global, app: &A, budget: u64) -> Result<Engine<'_, A>, BeginFault>
    requires { budget ≤ 1_000_000_000 }
    ensures { IfOk result (λ engine. AreInHand (A.meaning engine.app) engine.progress []) }
{
    let (cells, first) = (app.start_cells()?, app.start_tasks()?);
    begin(alloc, app, cells, first, budget)
}

/// Why there is no engine at an application's start.
pub fn begin_fault<A: Startable>(alloc: Global, app: &A, budget: u64) -> Option<BeginFault>
    requires { budget ≤ 1_000_000_000 }
{
    start(alloc, app, budget).err()
}

/// What one more claim answers once claims with these picks have given the first tasks of the
/// numbers beside them. There is none where one of them gives another task.
pub fn answer_after<A: Startable>(
    alloc: Global,
    app: &A,
    picked: &[(u64, u32)],
) -> Result<Option<Answer>, BeginFault> {
    let mut engine = start(alloc, app, 1000)?;
    let answer = answer_to_picks(alloc, &mut engine, picked);
    drop(engine);
    Ok(answer?)
}

fn answer_to_picks<A: App>(
    alloc: Global,
    engine: &mut Engine<'_, A>,
    picked: &[(u64, u32)],
) -> Result<Option<Answer>, NoRoom>
    requires { AreInHand (A.meaning engine.old.app) engine.old.progress [] }
{
    let mut jobs = Vec::new(alloc);
    if !give_first_tasks(alloc, engine, &mut jobs, picked)? {
        return Ok(None);
    }
    Ok(Some(claim(engine, &mut jobs, 0)?))
}

/// How far it has come once the first tasks of these picks have all ended and a claim has given the
/// task of the path. There is none where another task is given, or one does not end.
pub fn counts_after<A: Startable>(
    alloc: Global,
    app: &A,
    picked: &[(u64, u32)],
    path: &Path,
) -> Result<Option<Counts>, BeginFault> {
    let mut engine = start(alloc, app, 1000)?;
    let counts = counts_of_engine(alloc, &mut engine, picked, path);
    drop(engine);
    Ok(counts?)
}

fn counts_of_engine<A: App>(
    alloc: Global,
    engine: &mut Engine<'_, A>,
    picked: &[(u64, u32)],
    path: &Path,
) -> Result<Option<Counts>, NoRoom>
    requires { AreInHand (A.meaning engine.old.app) engine.old.progress [] }
{
    if !gives_after(alloc, engine, picked, path)? {
        return Ok(None);
    }
    Ok(Some(engine.counts()))
}

/// Whether the first tasks of these picks have all ended and a claim has given the task of the path.
fn gives_after<A: App>(
    alloc: Global,
    engine: &mut Engine<'_, A>,
    picked: &[(u64, u32)],
    path: &Path,
) -> Result<bool, NoRoom>
    requires { AreInHand (A.meaning engine.old.app) engine.old.progress [] }
{
    let mut jobs = Vec::new(alloc);
    if !give_first_tasks(alloc, engine, &mut jobs, picked)? {
        return Ok(false);
    }
    match finish_all(engine, &mut jobs) {
        Ok(()) => gives(engine, &mut jobs, 0, path),
        Err(_) => Ok(false),
    }
}

/// How many of its first tasks, if one is claimed, two workers perform in turn.
pub fn performed_in_turn<A: Startable>(alloc: Global, app: &A) -> Result<usize, BeginFault> {
    let mut engine = start(alloc, app, 1000)?;
    let performed = first_in_turn(alloc, &mut engine);
    drop(engine);
    Ok(performed?)
}

fn first_in_turn<A: App>(alloc: Global, engine: &mut Engine<'_, A>) -> Result<usize, NoRoom> {
    let Claim::Job(job) = engine.claim(0)? else {
        return Ok(0);
    };
    let (mut jobs, mut dones) = (VecDeque::new(alloc), VecDeque::new(alloc));
    jobs.push_back(job)?;
    perform_in_turn(engine.app(), &Seeded, 0..2, &mut jobs, &mut dones)?;
    Ok(dones.len())
}

/// Whether the first task comes back, that of the path, since its only child is one task more than
/// allowed, and a claim answers that then.
pub fn is_over_at_first_end<A: Startable>(
    alloc: Global,
    app: &A,
    budget: u64,
    path: &Path,
) -> Result<bool, BeginFault>
    requires { budget ≤ 1_000_000_000 }
{
    let mut engine = start(alloc, app, budget)?;
    let is_over = is_over_at_end(alloc, &mut engine, budget, path);
    drop(engine);
    Ok(is_over?)
}

fn is_over_at_end<A: App>(
    alloc: Global,
    engine: &mut Engine<'_, A>,
    budget: u64,
    path: &Path,
) -> Result<bool, NoRoom>
    requires { AreInHand (A.meaning engine.old.app) engine.old.progress [] }
{
    let Some(done) = perform_first(alloc, engine)? else {
        return Ok(false);
    };
    let is_back = comes_back(engine, done, budget, path);
    let answer = answer_alone(engine)?;
    Ok(is_back && is_over(answer, budget))
}

/// Claims a task and performs it.
fn perform_first<A: App>(
    alloc: Global,
    engine: &mut Engine<'_, A>,
) -> Result<Option<Done<A::Val>>, NoRoom>
    requires { AreInHand (A.meaning engine.old.app) engine.old.progress [] }
    ensures { IfOk result (λ done. IfSome done (IsDone (A.meaning engine.new.app) engine.new.progress)) }
{
    perform_next(engine, &mut Vec::new(alloc))
}

/// Whether a task that ends comes back, that of the path, with its only child.
fn comes_back<A: App>(
    engine: &mut Engine<'_, A>,
    done: Done<A::Val>,
    budget: u64,
    path: &Path,
) -> bool
    requires { IsDone (A.meaning engine.old.app) engine.old.progress done }
{
    match engine.finish_uncounted(done) {
        Err(fault) => is_refused(&fault, budget, path),
        Ok(()) => false,
    }
}

/// Whether the task of the path came back with its only child, which is one task more than allowed.
fn is_refused<V: Held>(fault: &FinishFault<V>, budget: u64, path: &Path) -> bool {
    match fault {
        FinishFault::Budget {
            done,
            created,
            limit,
        } => {
            *created == budget.wrapping_add(1)
                && *limit == budget
                && done.task.key.path == *path
                && done.effect.children.items().len() == 1
        }
        _ => false,
    }
}

/// Whether a claim answers that there would be one task more than allowed.
fn is_over(answer: Answer, budget: u64) -> bool {
    match answer {
        Answer::Over(OverCause::Budget { created, limit }) => {
            created == budget.wrapping_add(1) && limit == budget
        }
        _ => false,
    }
}

/// What a claim answers whose job is let go.
fn answer_alone<A: App>(engine: &mut Engine<'_, A>) -> Result<Answer, NoRoom> {
    let claim = engine.claim(0)?;
    Ok(answer_of(&claim))
}
