//! An engine with the jobs in hand, which are those of its running tasks.

ghost use Rattle.std.specs.Prelude.{◌≡◌, ◌+◌, ◌<◌, ◌≤◌, ◌^◌, [], length, IfOk, IfErr, IfSome, OnOk};
ghost use Rattle.app_laws.specs.Applications.{AreFitStarts};
ghost use Rattle.graph_update.specs.Engine.{IsBeginFault};
ghost use Rattle.run_laws.specs.Laws.{IsDone};
ghost use Rattle.engine_trials.specs.InHand.{AreInHand, IsDoneBeside};

use app_laws::App;
use cell_store::Held;
use graph_update::{BeginFault, Claim, Done, Engine, Job, OverCause, perform};
use kdg_text::NoRoom;
use outer_edge::Still;
use run_laws::job_laws;
use std::alloc::Global;
use task_order::{Path, StartList};

/// What a claim answers, where its job goes to those in hand.
#[derive(Clone, Copy, Debug, PartialEq, Eq)]
pub enum Answer {
    Over(OverCause),
    Ended,
    NotYet,
    Job,
}

/// What a claim answered.
pub fn answer_of<V: Held>(claim: &Claim<V>) -> Answer {
    match claim {
        Claim::Over(cause) => Answer::Over(*cause),
        Claim::Ended => Answer::Ended,
        Claim::NotYet => Answer::NotYet,
        Claim::Job(_) => Answer::Job,
    }
}

/// An engine with no job in hand.
pub fn begin<'a, A: App>(
    alloc: Global,
    app: &'a A,
    cells: Vec<A::Val>,
    first: StartList,
    budget: u64,
) -> Result<Engine<'a, A>, BeginFault>
    requires fit_cells { (A.meaning app.now).is_fit_cells cells.items }
    requires fit_first { AreFitStarts (A.meaning app.now) first }
    requires few { length first < 2 ^ 32 }
    requires budget { budget ≤ 1_000_000_000 }
    ensures in_hand { IfOk result (λ engine. AreInHand (A.meaning engine.app) engine.progress []) }
    ensures fault { IfErr result (IsBeginFault first budget) }
{
    Engine::begin_uncounted(alloc, app, cells, first, budget)
}

/// Claims a task. Its job becomes the first of those in hand.
pub fn claim<A: App>(
    engine: &mut Engine<'_, A>,
    jobs: &mut Vec<Job<A::Val>>,
    pick: u64,
) -> Result<Answer, NoRoom>
    requires { AreInHand (A.meaning engine.old.app) engine.old.progress jobs.old.items }
    ensures { OnOk result (AreInHand (A.meaning engine.new.app) engine.new.progress jobs.new.items) }
{
    match engine.claim(pick)? {
        Claim::Over(cause) => Ok(Answer::Over(cause)),
        Claim::Ended => Ok(Answer::Ended),
        Claim::NotYet => Ok(Answer::NotYet),
        Claim::Job(job) => match jobs.insert(0, job) {
            Ok(()) => Ok(Answer::Job),
            Err(_) => Err(NoRoom),
        },
    }
}

/// Whether claims with the first pick give these answers, one after another.
pub fn claims_answer<A: App>(
    engine: &mut Engine<'_, A>,
    jobs: &mut Vec<Job<A::Val>>,
    answers: &[Answer],
) -> Result<bool, NoRoom>
    requires { AreInHand (A.meaning engine.old.app) engine.old.progress jobs.old.items }
    ensures { OnOk result (AreInHand (A.meaning engine.new.app) engine.new.progress jobs.new.items) }
{
    for &answer in answers {
        if claim(engine, jobs, 0)? != answer {
            return Ok(false);
        }
    }
    Ok(true)
}

/// Whether a claim gives the job of the path.
pub fn gives<A: App>(
    engine: &mut Engine<'_, A>,
    jobs: &mut Vec<Job<A::Val>>,
    pick: u64,
    path: &Path,
) -> Result<bool, NoRoom>
    requires { AreInHand (A.meaning engine.old.app) engine.old.progress jobs.old.items }
    ensures { OnOk result (AreInHand (A.meaning engine.new.app) engine.new.progress jobs.new.items) }
{
    match claim(engine, jobs, pick)? {
        Answer::Job => Ok(is_first(jobs, path)),
        _ => Ok(false),
    }
}

/// Whether the first of the jobs is that of the path.
fn is_first<V: Held>(jobs: &[Job<V>], path: &Path) -> bool {
    match jobs.first() {
        Some(job) => job.task.key.path == *path,
        None => false,
    }
}

/// Whether claims with these picks give the first tasks of the numbers beside them.
pub fn give_first_tasks<A: App>(
    alloc: Global,
    engine: &mut Engine<'_, A>,
    jobs: &mut Vec<Job<A::Val>>,
    picked: &[(u64, u32)],
) -> Result<bool, NoRoom>
    requires { AreInHand (A.meaning engine.old.app) engine.old.progress jobs.old.items }
    ensures { OnOk result (AreInHand (A.meaning engine.new.app) engine.new.progress jobs.new.items) }
{
    for &(pick, number) in picked {
        let path = Path::root(alloc, number)?;
        if !gives(engine, jobs, pick, &path)? {
            return Ok(false);
        }
    }
    Ok(true)
}

/// Claims a task and performs it. There is none where the claim gives none.
pub fn perform_next<A: App>(
    engine: &mut Engine<'_, A>,
    jobs: &mut Vec<Job<A::Val>>,
) -> Result<Option<Done<A::Val>>, NoRoom>
    requires { AreInHand (A.meaning engine.old.app) engine.old.progress jobs.old.items }
    ensures { IfOk result (λ done. IfSome done (IsDone (A.meaning engine.new.app) engine.new.progress)) }
{
    claim(engine, jobs, 0)?;
    if jobs.is_empty() {
        return Ok(None);
    }
    match perform_at(engine, jobs, 0) {
        Ok(done) => Ok(Some(done)),
        Err(fault) => Err(fault),
    }
}

/// Performs the job at a place among those in hand, which it leaves.
pub fn perform_at<A: App>(
    engine: &Engine<'_, A>,
    jobs: &mut Vec<Job<A::Val>>,
    place: usize,
) -> Result<Done<A::Val>, NoRoom>
    requires in_hand { AreInHand (A.meaning engine.now.app) engine.now.progress jobs.old.items }
    requires place { place < length jobs.old.items }
    ensures done { IfOk result (IsDone (A.meaning engine.now.app) engine.now.progress) }
    ensures beside { IfOk result (IsDoneBeside (A.meaning engine.now.app) engine.now.progress jobs.new.items) }
    ensures fewer { length jobs.new.items + 1 ≡ length jobs.old.items }
{
    job_laws::<A>();
    let job = jobs.remove(place);
    match perform(engine.app(), job, 0, &Still) {
        Ok(done) => Ok(done),
        Err(_) => Err(NoRoom),
    }
}

/// Performs the job at a place among those in hand, and ends its task.
pub fn finish_at<A: App>(
    engine: &mut Engine<'_, A>,
    jobs: &mut Vec<Job<A::Val>>,
    place: usize,
) -> Result<(), OverCause>
    requires in_hand { AreInHand (A.meaning engine.old.app) engine.old.progress jobs.old.items }
    requires place { place < length jobs.old.items }
    ensures in_hand { OnOk result (AreInHand (A.meaning engine.new.app) engine.new.progress jobs.new.items) }
    ensures fewer { OnOk result (length jobs.new.items + 1 ≡ length jobs.old.items) }
{
    let done = perform_at(engine, jobs, place)?;
    engine.finish_uncounted(done)?;
    Ok(())
}

/// Performs all jobs in hand and ends their tasks.
pub fn finish_all<A: App>(
    engine: &mut Engine<'_, A>,
    jobs: &mut Vec<Job<A::Val>>,
) -> Result<(), OverCause>
    requires { AreInHand (A.meaning engine.old.app) engine.old.progress jobs.old.items }
    ensures { OnOk result (AreInHand (A.meaning engine.new.app) engine.new.progress jobs.new.items) }
{
    while !jobs.is_empty() {
        finish_at(engine, jobs, 0)?;
    }
    Ok(())
}
