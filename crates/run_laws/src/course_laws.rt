ghost use Rattle.run_laws.specs.CourseBasis.{CourseBasis};
ghost use Rattle.run_laws.specs.CourseLaws.{ActFaultsKeepCourse, ActsKeepCourse, AnyOrderKeepsCourse, BeginningsAreStarts, ClaimAnswersKeepCourse, ClaimsKeepCourse, CoursesFollow, CoursesMeanTheSequentialRun, DrainsKeepCourse, DrainsTakeTheNext, EndsKeepCourse, EventsKeepCourse, GivingUpKeepsCourse, NoNodesAreTheEnd, PassedLimitsKeepCourse, PassedLimitsNeverEnd, RefusalsKeepCourse, StartsHaveCome};

use crate::finish_laws::{finish_basis, sound_finish_laws};
use crate::laws::basis;
use app_laws::App;
use commuting::standing_laws;
use output_log::{join_laws, part_laws};
use task_order::{ascending_laws, key_order};

/// What is known of events, of states that stand for the rest of a run, and of runs, as one.
fn course_basis<A: App>()
    ensures { (app : A) → CourseBasis (A.meaning app) }
{
    basis::<A>();
    finish_basis::<A>();
    sound_finish_laws::<A>();
    standing_laws::<A>();
    key_order();
    ascending_laws();
    part_laws();
    join_laws();
}

/// A sound execution in which nothing is running has come from itself, and so has what begins.
pub fn course_start_laws<A: App>()
    ensures starts { (app : A) → StartsHaveCome (A.meaning app) }
    ensures begins { (app : A) → BeginningsAreStarts (A.meaning app) }
{
    course_basis::<A>();
}

/// The jobs in hand may come in any order, and a claim adds one; whatever it answers, an execution
/// has come from its start.
pub fn course_claim_laws<A: App>()
    ensures any_order { (app : A) → AnyOrderKeepsCourse (A.meaning app) }
    ensures claims { (app : A) → ClaimsKeepCourse (A.meaning app) }
    ensures answers { (app : A) → ClaimAnswersKeepCourse (A.meaning app) }
{
    course_basis::<A>();
}

/// Where a task ends, whichever of the running ones it is, its entry comes in at its place by key. A
/// refusal keeps the rest as it was.
pub fn course_end_laws<A: App>()
    ensures ends { (app : A) → EndsKeepCourse (A.meaning app) }
    ensures refused { (app : A) → RefusalsKeepCourse (A.meaning app) }
{
    course_basis::<A>();
}

/// Where a task's children are more than may be created, the sequential run doesn't end within the
/// limit, and the mark says so. A giving up changes nothing but the mark.
pub fn course_mark_laws<A: App>()
    ensures never_ends { (app : A) → PassedLimitsNeverEnd (A.meaning app) }
    ensures over_limit { (app : A) → PassedLimitsKeepCourse (A.meaning app) }
    ensures gives_up { (app : A) → GivingUpKeepsCourse (A.meaning app) }
{
    course_basis::<A>();
}

/// Where a task acts, the same jobs are in hand; and where it doesn't, these or the job of its node
/// more.
pub fn course_act_laws<A: App>()
    ensures acts { (app : A) → ActsKeepCourse (A.meaning app) }
    ensures fault { (app : A) → ActFaultsKeepCourse (A.meaning app) }
{
    course_basis::<A>();
}

/// What a drain takes out are the next entries, up to those of the ended tasks that are earlier than
/// each node.
pub fn course_drain_laws<A: App>()
    ensures drains { (app : A) → DrainsKeepCourse (A.meaning app) }
    ensures next { (app : A) → DrainsTakeTheNext (A.meaning app) }
{
    course_basis::<A>();
}

/// Whatever happens, in whatever order tasks end, and whatever jobs are in hand beside those that the
/// events tell of; also from a start that has itself come from an earlier one.
pub fn course_event_laws<A: App>()
    ensures events { (app : A) → EventsKeepCourse (A.meaning app) }
    ensures follow { (app : A) → CoursesFollow (A.meaning app) }
{
    course_basis::<A>();
}

/// The entries of the ended tasks, and what is left to run from the whole cells and the nodes' tasks,
/// make up the sequential run from the start, to every bound and within every limit. Where no node is
/// left, that run has come to its end.
pub fn course_run_laws<A: App>()
    ensures runs { (app : A) → CoursesMeanTheSequentialRun (A.meaning app) }
    ensures end { (app : A) → NoNodesAreTheEnd (A.meaning app) }
{
    course_basis::<A>();
}
