//! What the rule of a hall rests on, and what it says of a turn.

ghost use Rattle.worker_gate.specs.Known.{FoundIsKnown, MovedIsKnown, PerformedMayEnd};
ghost use Rattle.worker_gate.specs.Laws.{MovesContinue, OriginsContinue, SameSumsContinue};
ghost use Rattle.worker_gate.specs.Leaving.{ClaimsAdd, DrainsAdd, EndsAdd, GivingUpAdds, MovedMayLeave, NothingIsDone, RefusalsAdd};

use app_laws::App;
use kdg_graph::laws::node_laws;
use output_log::join_laws;
use run_laws::{
    course_claim_laws, course_event_laws, course_run_laws, course_start_laws, lower_laws, move_laws,
};

/// An execution that goes on from an origin still does after a move under one of the seats, whatever
/// jobs the others have, and in whatever order the jobs of all seats are told.
pub fn continuing_laws<A: App>()
    ensures begin { (app : A) → OriginsContinue (A.meaning app) }
    ensures same { (app : A) → SameSumsContinue (A.meaning app) }
    ensures moves { (app : A) → MovesContinue (A.meaning app) }
{
    course_start_laws::<A>();
    course_claim_laws::<A>();
    course_event_laws::<A>();
    move_laws::<A>();
}

/// In a turn, whatever other seats have: the seat's jobs are those of running tasks, no two running
/// tasks conflict, no pending one conflicts with a later running one, and what ended under the seat
/// is pending no more. So it is of the engine that the turn finds, and after each move in it; and what
/// was performed of the seat's jobs may be ended.
pub fn turn_laws<A: App>()
    ensures found { FoundIsKnown A.meaning }
    ensures moved { MovedIsKnown A.meaning }
    ensures performed { PerformedMayEnd A.meaning }
{
    lower_laws();
    node_laws();
    course_run_laws::<A>();
    continuing_laws::<A>();
}

/// A turn may be left by what was done in it. At first that is nothing, and each call of the engine
/// adds to it what it answers; a drain only in a turn of the seat with the number 0.
pub fn leaving_laws<A: App>()
    ensures moved { MovedMayLeave A.meaning }
    ensures nothing { NothingIsDone A.meaning }
    ensures claims { ClaimsAdd A.meaning }
    ensures ends { EndsAdd A.meaning }
    ensures refusals { RefusalsAdd A.meaning }
    ensures gives_up { GivingUpAdds A.meaning }
    ensures drains { DrainsAdd A.meaning }
{
    move_laws::<A>();
    join_laws();
}
