//! What a worker does in a turn.

ghost use Rattle.std.specs.Prelude.{◌≡◌, ◌≢◌, ◌<◌, ◌≤◌, List, [], ◌∷◌, ◌++◌, drop, length, None, Some, IfOk, IsTrue, IsFalse, OnErr, OnOk};
ghost use Rattle.std.specs.List.{AllByRecursion};
ghost use Rattle.std.specs.VecDeque.{deque_capacity, deque_len};
ghost use Rattle.crew.specs.Jobs.{IsPerformed, MayRun};
ghost use Rattle.graph_update.specs.Engine.{EngineState, FinishStaysSound};
ghost use Rattle.run_laws.specs.Answers.{jobs_after};
ghost use Rattle.run_laws.specs.Jobs.{Job};
ghost use Rattle.run_laws.specs.Laws.{IsDone};
ghost use Rattle.run_laws.specs.Moves.{Moved};
ghost use Rattle.worker_gate.specs.Fits.{drained_count};
ghost use Rattle.worker_gate.specs.Steps.{left_by};
ghost use Rattle.worker_gate.specs.Turns.{MayLeave};
ghost use Rattle.free_pool.specs.Acted.{jobs_stuck, keys_acted};
ghost use Rattle.free_pool.specs.Turns.{AreClaimed, AreDone, AreToPerform, GoesOn, IsAnswer, IsSeated, MayEnd, jobs_left, keys_ended, next_after};

use crate::acting::{Acting, Stuck, act_tasks};
use crate::bell::Bell;
use crate::hand::Hand;
use crate::pick::Pick;
use crate::plan::Plan;
use app_laws::App;
use cell_store::Held;
use graph_update::{Claim, Done, Engine, Job};
use kdg_text::{NoRoom, Steps};
use output_log::join_laws;
use run_laws::move_laws;
use std::collections::VecDeque;
use std::marker::Brand;
use std::sync::Wait;
use std::sync::ledger::Ledger;
use worker_gate::{Did, Hall, Seat, Turn};

/// What a turn leads to.
#[derive(Clone, Copy)]
pub enum Next {
    /// What was claimed is to be performed.
    Perform,
    /// Nothing was claimed, and another turn is to be taken.
    Again,
    /// No pending task may run now.
    Wait,
    /// Nothing more is to be claimed.
    Stop,
}

/// What came of a turn.
#[derive(Clone, Copy)]
pub(crate) struct Turned {
    /// How many of the tasks that were performed ended, from the first one on.
    pub(crate) ended: usize,
    pub(crate) next: Next,
}

/// Takes the turn, ends in it the tasks that were performed, and lets light tasks act there, or claims
/// others. It goes on only where all ended.
pub(crate) fn take_turn<'h, 'a, R: Wait, A: App, L: Ledger>(
    rt: &R,
    hall: &'h Hall<'a, A>,
    seat: Seat<'a, A>,
    hand: &mut Hand<A::Val>,
    pick: Pick,
    plan: &Plan,
    steps: &mut Steps<L>,
) -> (Seat<'a, A>, Turned)
    requires seated { IsSeated hall.now seat }
    requires done { AreDone (A.meaning hall.now.origin.app) seat.view.jobs hand.old.dones.items }
    ensures seated { IsSeated hall.now result.0 }
    ensures number { result.0.view.number ≡ seat.entry.view.number }
    ensures unjoined { result.0.view.unjoined ≡ seat.entry.view.unjoined }
    ensures jobs { GoesOn result.1.next → result.0.view.jobs ≡ jobs_left seat.entry.view.jobs result.1.ended hand.new.jobs.items }
    ensures may_run { AllByRecursion (MayRun (A.meaning hall.now.origin.app)) hand.new.jobs.items }
    ensures claimed { AreToPerform hand.new.jobs.items result.1.next }
    ensures all { GoesOn result.1.next → result.1.ended ≡ length hand.old.dones.items }
    ensures none { GoesOn result.1.next → hand.new.dones.items ≡ [] }
{
    let mut turn = hall.enter(rt, seat);
    let (turned, stuck) = work_in_turn(turn.engine(), hand, pick, plan, steps);
    (leave_as(turn, turned.ended, hand, &stuck), turned)
}

/// Takes the turn, and says in it that nothing more is to be claimed for want of memory. The jobs in hand
/// stay there. Who sleeps is woken to find that.
pub(crate) fn give_up<'h, 'a, R: Wait, A: App>(
    rt: &R,
    hall: &'h Hall<'a, A>,
    seat: Seat<'a, A>,
    bell: &Bell,
) -> Seat<'a, A>
    requires seated { IsSeated hall.now seat }
    ensures seated { IsSeated hall.now result }
    ensures number { result.view.number ≡ seat.entry.view.number }
    ensures unjoined { result.view.unjoined ≡ seat.entry.view.unjoined }
{
    move_laws::<A>();
    let mut turn = hall.enter(rt, seat);
    turn.engine().give_up();
    let seat = turn.leave::<Brand>();
    bell.ring();
    seat
}

/// Ends the tasks that were performed, and lets light tasks act, or claims others. Where an end is refused
/// or memory runs out, a mark stands afterwards. A task that was to act and didn't end comes back.
pub(crate) fn work_in_turn<'a, A: App, L: Ledger>(
    engine: &mut Engine<'a, A>,
    hand: &mut Hand<A::Val>,
    pick: Pick,
    plan: &Plan,
    steps: &mut Steps<L>,
) -> (Turned, Option<Stuck<Engine<'a, A>>>)
    requires may_end { MayEnd (A.meaning engine.old.app) engine.old.progress hand.old.dones.items }
    ensures app { engine.new.app ≡ engine.old.app }
    ensures moved { (had : List (Job A.Val)) → AreDone (A.meaning engine.old.app) had hand.old.dones.items → Moved (A.meaning engine.old.app) engine.old.progress had engine.new.progress (jobs_stuck result.1 ++ jobs_left had result.0.ended hand.new.jobs.items) (keys_ended had result.0.ended ++ keys_acted hand.new.acted.items) }
    ensures drained { drained_count engine.new.progress ≡ drained_count engine.old.progress }
    ensures may_run { AllByRecursion (MayRun (A.meaning engine.old.app)) hand.new.jobs.items }
    ensures claimed { AreToPerform hand.new.jobs.items result.0.next }
    ensures answer { IsAnswer (A.meaning engine.old.app) engine.new.progress result.0.next }
    ensures all { GoesOn result.0.next → result.0.ended ≡ length hand.old.dones.items }
    ensures none { GoesOn result.0.next → hand.new.dones.items ≡ [] }
    ensures goes_on { GoesOn result.0.next → result.1 ≡ None }
    ensures none_acts { plan.now.acts ≡ 0 → hand.new.acted.items ≡ [] }
{
    move_laws::<A>();
    hand.jobs.clear();
    hand.acted.clear();
    let performed = hand.dones.len();
    let ended = end_tasks(engine, &mut hand.dones, steps);
    if ended < performed {
        let next = Next::Stop;
        return (Turned { ended, next }, None);
    }
    if plan.backlog.is_long(engine.ended(), engine.is_silent()) {
        let next = Next::Again;
        return (Turned { ended, next }, None);
    }
    if plan.acts > 0 {
        let Acting { next, stuck } = act_tasks(engine, plan.acts, &mut hand.acted, steps);
        return (Turned { ended, next }, stuck);
    }
    let most = plan.batch(engine.known(), engine.graph().len());
    let next = claim_tasks(engine, pick, most, &mut hand.jobs);
    (Turned { ended, next }, None)
}

/// Ends the tasks that were performed, from the first one on, until an end is refused, and tells how many
/// ended. Where one is refused a mark stands.
fn end_tasks<A: App, L: Ledger>(
    engine: &mut Engine<'_, A>,
    dones: &mut VecDeque<Done<A::Val>>,
    steps: &mut Steps<L>,
) -> usize
    requires may_end { MayEnd (A.meaning engine.old.app) engine.old.progress dones.old.items }
    ensures app { engine.new.app ≡ engine.old.app }
    ensures moved { (had : List (Job A.Val)) → AreDone (A.meaning engine.old.app) had dones.old.items → Moved (A.meaning engine.old.app) engine.old.progress had engine.new.progress (drop result had) (keys_ended had result) }
    ensures drained { drained_count engine.new.progress ≡ drained_count engine.old.progress }
    ensures within { result ≤ length dones.old.items }
    ensures all { result ≡ length dones.old.items → dones.new.items ≡ [] }
    ensures refused { result < length dones.old.items → engine.new.progress.over ≢ None }
{
    move_laws::<A>();
    let mut ended = 0;
    while let Some(done) = dones.pop_front() {
        if !end_task(engine, done, steps) {
            return ended;
        }
        ended += 1;
    }
    ended
}

/// Ends a task that was performed. Where that is refused a mark stands, and the answer is false.
fn end_task<A: App, L: Ledger>(
    engine: &mut Engine<'_, A>,
    done: Done<A::Val>,
    steps: &mut Steps<L>,
) -> bool
    requires done { IsDone (A.meaning engine.old.app) engine.old.progress done }
    ensures app { engine.new.app ≡ engine.old.app }
    ensures ended { (job : Job A.Val) (jobs others : List (Job A.Val)) → IsPerformed (A.meaning engine.old.app) jobs done job others → IsTrue result → Moved (A.meaning engine.old.app) engine.old.progress jobs engine.new.progress others (done.task.key ∷ []) }
    ensures refused { (job : Job A.Val) (jobs others : List (Job A.Val)) → IsPerformed (A.meaning engine.old.app) jobs done job others → IsFalse result → Moved (A.meaning engine.old.app) engine.old.progress jobs engine.new.progress jobs [] }
    ensures sound { IsTrue result → FinishStaysSound (A.meaning engine.old.app) engine.old.progress done engine.new.progress }
    ensures over { IsFalse result → engine.new.progress.over ≢ None }
    ensures drained { drained_count engine.new.progress ≡ drained_count engine.old.progress }
{
    move_laws::<A>();
    join_laws();
    match engine.finish(done, steps) {
        Ok(()) => true,
        Err(_) => {
            engine.give_up();
            false
        }
    }
}

/// Claims tasks until `jobs` has `most`, or none is to be had, the first one by the pick.
fn claim_tasks<A: App>(
    engine: &mut Engine<'_, A>,
    pick: Pick,
    most: usize,
    jobs: &mut VecDeque<Job<A::Val>>,
) -> Next
    requires some { 1 ≤ most }
    requires none { jobs.old.items ≡ [] }
    ensures app { engine.new.app ≡ engine.old.app }
    ensures moved { Moved (A.meaning engine.old.app) engine.old.progress [] engine.new.progress jobs.new.items [] }
    ensures drained { drained_count engine.new.progress ≡ drained_count engine.old.progress }
    ensures may_run { AllByRecursion (MayRun (A.meaning engine.old.app)) jobs.new.items }
    ensures claimed { AreToPerform jobs.new.items result }
    ensures answer { IsAnswer (A.meaning engine.old.app) engine.new.progress result }
{
    move_laws::<A>();
    let mut pick = pick;
    while jobs.len() < most {
        let next = claim_next(engine, pick, jobs);
        pick = pick.after();
        if jobs.is_empty() {
            return next;
        }
        let Next::Perform = next else {
            // What is claimed already comes first.
            return Next::Perform;
        };
    }
    Next::Perform
}

/// Claims a task. Where memory runs out, a mark stands afterwards.
fn claim_next<A: App>(
    engine: &mut Engine<'_, A>,
    pick: Pick,
    jobs: &mut VecDeque<Job<A::Val>>,
) -> Next
    ensures app { engine.new.app ≡ engine.old.app }
    ensures moved { Moved (A.meaning engine.old.app) engine.old.progress jobs.old.items engine.new.progress jobs.new.items [] }
    ensures drained { drained_count engine.new.progress ≡ drained_count engine.old.progress }
    ensures claimed { AreClaimed (A.meaning engine.old.app) jobs.old.items result jobs.new.items }
    ensures answer { IsAnswer (A.meaning engine.old.app) engine.new.progress result }
{
    move_laws::<A>();
    let Ok(()) = jobs.reserve(1) else {
        engine.give_up();
        return Next::Stop;
    };
    match claim_by(engine, pick, jobs) {
        Ok(next) => next,
        Err(_) => {
            engine.give_up();
            Next::Stop
        }
    }
}

/// Claims a task, with some pick, and keeps its job where `jobs` has room. Each kind of claim keeps its own:
/// where both met first, a job would be moved there. After `NoRoom` all is as it was.
#[inline(always)]
fn claim_by<A: App>(
    engine: &mut Engine<'_, A>,
    pick: Pick,
    jobs: &mut VecDeque<Job<A::Val>>,
) -> Result<Next, NoRoom>
    requires room { deque_len jobs.old < deque_capacity jobs.old }
    ensures app { engine.new.app ≡ engine.old.app }
    ensures moved { OnOk result (Moved (A.meaning engine.old.app) engine.old.progress jobs.old.items engine.new.progress jobs.new.items []) }
    ensures drained { drained_count engine.new.progress ≡ drained_count engine.old.progress }
    ensures claimed { IfOk result (λ next. AreClaimed (A.meaning engine.old.app) jobs.old.items next jobs.new.items) }
    ensures answer { IfOk result (IsAnswer (A.meaning engine.old.app) engine.new.progress) }
    ensures unchanged { OnErr result (engine.new ≡ engine.old) }
    ensures kept { OnErr result (jobs.new.items ≡ jobs.old.items) }
{
    move_laws::<A>();
    match pick {
        Pick::Exact(number) => Ok(keep_claimed(engine.claim(number)?, jobs)),
        Pick::Known(number) => Ok(keep_claimed(engine.claim_known(number)?, jobs)),
    }
}

/// Keeps the job that a claim gave, where it gave one, and tells what the claim leads to.
#[inline(always)]
fn keep_claimed<V: Held>(answer: Claim<V>, jobs: &mut VecDeque<Job<V>>) -> Next
    requires room { deque_len jobs.old < deque_capacity jobs.old }
    ensures jobs { jobs.new.items ≡ jobs_after answer jobs.old.items }
    ensures next { result ≡ next_after answer }
{
    match answer {
        Claim::Job(job) => {
            jobs.push_front_reserved(job);
            Next::Perform
        }
        Claim::NotYet => Next::Wait,
        Claim::Over(_) | Claim::Ended => Next::Stop,
    }
}

/// Leaves the turn, in which the first `ended` tasks that were performed ended, those in the hand were claimed
/// or acted, and one may be stuck.
pub(crate) fn leave_as<'h, 'a, A: App>(
    turn: Turn<'h, 'a, A>,
    ended: usize,
    hand: &Hand<A::Val>,
    stuck: &Option<Stuck<Engine<'a, A>>>,
) -> Seat<'a, A>
    requires { MayLeave A.meaning turn (jobs_stuck stuck.now ++ jobs_left turn.view.jobs ended hand.now.jobs.items) (keys_ended turn.view.jobs ended ++ keys_acted hand.now.acted.items) }
    ensures hall { result.hall ≡ turn.entry.hall }
    ensures view { (found : EngineState A A.Val) → turn.entry.view.found ≡ Some found → result.view ≡ left_by (jobs_stuck stuck.now ++ jobs_left turn.entry.view.jobs ended hand.now.jobs.items) (keys_ended turn.entry.view.jobs ended ++ keys_acted hand.now.acted.items) turn.entry.view found turn.entry.engine }
{
    leave_with::<A, Brand>(turn, ended, hand, stuck)
}

/// Leaves the turn, by what contracts call the jobs and the keys.
fn leave_with<'h, 'a, A: App, P: Did<A::Val>>(
    turn: Turn<'h, 'a, A>,
    ended: usize,
    hand: &Hand<A::Val>,
    stuck: &Option<Stuck<Engine<'a, A>>>,
) -> Seat<'a, A>
    requires jobs { P.jobs ≡ jobs_stuck stuck.now ++ jobs_left turn.view.jobs ended hand.now.jobs.items }
    requires ended { P.ended ≡ keys_ended turn.view.jobs ended ++ keys_acted hand.now.acted.items }
    requires may { MayLeave A.meaning turn (jobs_stuck stuck.now ++ jobs_left turn.view.jobs ended hand.now.jobs.items) (keys_ended turn.view.jobs ended ++ keys_acted hand.now.acted.items) }
    ensures hall { result.hall ≡ turn.entry.hall }
    ensures view { (found : EngineState A A.Val) → turn.entry.view.found ≡ Some found → result.view ≡ left_by (jobs_stuck stuck.now ++ jobs_left turn.entry.view.jobs ended hand.now.jobs.items) (keys_ended turn.entry.view.jobs ended ++ keys_acted hand.now.acted.items) turn.entry.view found turn.entry.engine }
{
    turn.leave::<P>()
}
