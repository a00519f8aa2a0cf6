//! What is done in a turn.

ghost use Rattle.std.specs.Prelude.{◌≡◌, [], None, Some, IfNone, IfSome, IsTrue, IsFalse};
ghost use Rattle.run_laws.specs.Answers.{IsClaimAnswer, IsFinishRefusal};
ghost use Rattle.run_laws.specs.Events.{IsFinished, IsOverLimit};
ghost use Rattle.run_laws.specs.Jobs.{FinishFault};
ghost use Rattle.run_laws.specs.Laws.{IsDone};
ghost use Rattle.graph_update.specs.Engine.{EngineState, IsToRun};
ghost use Rattle.worker_gate.specs.Steps.{left_by};
ghost use Rattle.worker_gate.specs.Turns.{MayLeave};
ghost use Rattle.hall_trials.specs.Seated.{IsLeftBy, IsOnlyJob, IsSeated, jobs_claimed, jobs_left, keys_ended};

use app_laws::App;
use graph_update::{Claim, Done, Engine};
use kdg_text::NoRoom;
use std::marker::Brand;
use std::sync::Wait;
use worker_gate::{Did, Hall, Seat, Turn, leaving_laws, turn_laws};

/// Takes the turn and claims a task. There is no answer where memory runs out.
pub fn claim_in_turn<'h, 'a, R: Wait, A: App>(
    rt: &R,
    hall: &'h Hall<'a, A>,
    seat: Seat<'a, A>,
) -> (Seat<'a, A>, Option<Claim<A::Val>>)
    requires { IsSeated hall.now seat }
    ensures left { IsLeftBy hall.now seat.entry (jobs_claimed result.1 seat.entry.view.jobs) result.0 }
    ensures may_run { IfSome result.1 (IsToRun (A.meaning hall.now.origin.app)) }
{
    let mut turn = hall.enter(rt, seat);
    leaving_laws::<A>();
    let claim = claim_one(turn.engine());
    (leave_after_claim::<A, Brand>(turn, &claim), claim)
}

/// Takes the turn and ends the task that was performed, whose job is the only one of the seat. Where
/// that is refused, the job stays there, and the answer is false.
pub fn end_in_turn<'h, 'a, R: Wait, A: App>(
    rt: &R,
    hall: &'h Hall<'a, A>,
    seat: Seat<'a, A>,
    done: Done<A::Val>,
) -> (Seat<'a, A>, bool)
    requires seated { IsSeated hall.now seat }
    requires done { IsOnlyJob (A.meaning hall.now.origin.app) seat.view.jobs done }
    ensures { IsLeftBy hall.now seat.entry (jobs_left result.1 seat.entry.view.jobs) result.0 }
{
    let mut turn = hall.enter(rt, seat);
    leaving_laws::<A>();
    turn_laws::<A>();
    let ended = end_one(turn.engine(), done);
    (leave_after_end::<A, Brand>(turn, ended), ended)
}

/// Takes the turn, and says in it that nothing more is to be claimed.
pub fn give_up_in_turn<'h, 'a, R: Wait, A: App>(
    rt: &R,
    hall: &'h Hall<'a, A>,
    seat: Seat<'a, A>,
) -> Seat<'a, A>
    requires { IsSeated hall.now seat }
    ensures { IsLeftBy hall.now seat.entry seat.entry.view.jobs result }
{
    let mut turn = hall.enter(rt, seat);
    leaving_laws::<A>();
    turn.engine().give_up();
    turn.leave::<Brand>()
}

/// Claims a task. There is no answer where memory runs out.
fn claim_one<A: App>(engine: &mut Engine<'_, A>) -> Option<Claim<A::Val>>
    ensures app { engine.new.app ≡ engine.old.app }
    ensures answer { IfSome result (IsClaimAnswer (A.meaning engine.old.app) engine.old.progress 0 engine.new.progress) }
    ensures may_run { IfSome result (IsToRun (A.meaning engine.old.app)) }
    ensures unchanged { IfNone result (engine.new ≡ engine.old) }
{
    match engine.claim(0) {
        Ok(claim) => Some(claim),
        Err(NoRoom) => None,
    }
}

/// Ends a task, and tells whether that wasn't refused.
fn end_one<A: App>(engine: &mut Engine<'_, A>, done: Done<A::Val>) -> bool
    requires { IsDone (A.meaning engine.old.app) engine.old.progress done }
    ensures app { engine.new.app ≡ engine.old.app }
    ensures within { IsTrue result → ¬ IsOverLimit (A.meaning engine.old.app) engine.old.progress done }
    ensures finished { IsTrue result → IsFinished (A.meaning engine.old.app) engine.old.progress done engine.new.progress }
    ensures refused { IsFalse result → (fault : FinishFault A.Val) × IsFinishRefusal (A.meaning engine.old.app) engine.old.progress done engine.new.progress fault }
{
    match engine.finish_uncounted(done) {
        Ok(()) => true,
        Err(fault) => {
            drop(fault);
            false
        }
    }
}

fn leave_after_claim<'h, 'a, A: App, P: Did<A::Val>>(
    turn: Turn<'h, 'a, A>,
    claim: &Option<Claim<A::Val>>,
) -> Seat<'a, A>
    requires jobs { P.jobs ≡ jobs_claimed claim.now turn.view.jobs }
    requires ended { P.ended ≡ [] }
    requires may { MayLeave A.meaning turn (jobs_claimed claim.now turn.view.jobs) [] }
    ensures hall { result.hall ≡ turn.entry.hall }
    ensures view { (found : EngineState A A.Val) → turn.entry.view.found ≡ Some found → result.view ≡ left_by (jobs_claimed claim.now turn.entry.view.jobs) [] turn.entry.view found turn.entry.engine }
{
    turn.leave::<P>()
}

fn leave_after_end<'h, 'a, A: App, P: Did<A::Val>>(
    turn: Turn<'h, 'a, A>,
    ended: bool,
) -> Seat<'a, A>
    requires jobs { P.jobs ≡ jobs_left ended turn.view.jobs }
    requires ended { P.ended ≡ keys_ended ended turn.view.jobs }
    requires may { MayLeave A.meaning turn (jobs_left ended turn.view.jobs) (keys_ended ended turn.view.jobs) }
    ensures hall { result.hall ≡ turn.entry.hall }
    ensures view { (found : EngineState A A.Val) → turn.entry.view.found ≡ Some found → result.view ≡ left_by (jobs_left ended turn.entry.view.jobs) (keys_ended ended turn.entry.view.jobs) turn.entry.view found turn.entry.engine }
{
    turn.leave::<P>()
}
