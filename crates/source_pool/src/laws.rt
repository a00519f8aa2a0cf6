ghost use Rattle.source_pool.specs.Basis.{Basis};
ghost use Rattle.source_pool.specs.KeptLaws.{ActsAreTheRound, ActsPassWithTheRound, DrainedEntriesAreFirst, DrainedTextsAreKept, EndsAreTheRound, EndsPassWithTheRound, KeptTextsAreFronts, RenamingsKeepTexts};
ghost use Rattle.source_pool.specs.Legs.{LegsBegin, LegsGoOn, RenamingsGoOn};
ghost use Rattle.source_pool.specs.TellingLaws.{AllIsWritten, FrontsAreWritten, NothingIsTold, TellingsAdd, TellingsBegin};
ghost use Rattle.source_pool.specs.Laws.{ActsBegin, ActsComeToRest, ActsGoOn, ClaimsGoInKeyOrder, ClaimsGoOn, ClaimsLeaveFewer, ClearNodesHaveClearTasks, DrainsKeepRest, DrawingsBegin, DrawnJobsAreTheRound, DrawnJobsDiffer, EndsComeToRest, EndsGoOn, FirstMayAct, FirstMayEnd, RestWithoutNodesIsTheEnd, RoundsAdd, RoundsAreTaken, RoundsHaveActs, RoundsHaveJobs, StartsAreAtRest, TooManyActsNeverEnd, TooManyNeverEnd, WholeIsHome};

use app_laws::{App, execution_laws, lawful, naming_laws, orderly_laws};
use cell_store::value_laws;
use commuting::{
    clear_tasks_all_commute, listed_tasks_come_to_same, round_laws as clear_round_laws,
    standing_laws,
};
use kdg_graph::laws::{node_laws, put_laws};
use outer_edge::Sink;
use output_log::{join_laws, part_laws};
use run_laws::{
    act_laws, clear_claim_laws, clear_laws, course_act_laws, course_claim_laws, course_drain_laws,
    course_end_laws, course_mark_laws, course_run_laws, course_start_laws, finish_state_laws,
    performed_laws, renaming_laws, rest_laws, stay_clear_laws,
};
use rw_sets::conflict_laws;
use task_order::{
    ascending_laws, earlier_laws, key_order, put_all_laws, put_in_laws, without_laws,
};

/// What the crates below promise, as one.
fn basis<A: App>()
    ensures { (app : A) → Basis (A.meaning app) }
{
    lawful::<A>();
    execution_laws::<A::Val>();
    orderly_laws::<A>();
    naming_laws();
    clear_tasks_all_commute::<A>();
    clear_round_laws::<A>();
    listed_tasks_come_to_same::<A>();
    standing_laws::<A>();
    course_start_laws::<A>();
    course_claim_laws::<A>();
    course_end_laws::<A>();
    course_act_laws::<A>();
    course_mark_laws::<A>();
    course_drain_laws::<A>();
    course_run_laws::<A>();
    finish_state_laws::<A>();
    performed_laws::<A>();
    renaming_laws::<A>();
    act_laws::<A>();
    clear_claim_laws::<A>();
    clear_laws::<A>();
    rest_laws::<A>();
    stay_clear_laws::<A>();
    node_laws();
    put_laws();
    key_order();
    earlier_laws();
    ascending_laws();
    put_in_laws();
    put_all_laws();
    without_laws();
    conflict_laws();
    part_laws();
    join_laws();
    value_laws::<A::Val>();
}

/// While jobs are drawn the whole state stays as it was, and where none is clear any more they are
/// the jobs of all clear tasks.
pub fn drawing_laws<A: App>()
    ensures starts { (app : A) → StartsAreAtRest (A.meaning app) }
    ensures begins { (app : A) → DrawingsBegin (A.meaning app) }
    ensures goes_on { (app : A) → ClaimsGoOn (A.meaning app) }
    ensures round { (app : A) → DrawnJobsAreTheRound (A.meaning app) }
    ensures some { (app : A) → RoundsHaveJobs (A.meaning app) }
    ensures differ { (app : A) → DrawnJobsDiffer (A.meaning app) }
    ensures fewer { (app : A) → ClaimsLeaveFewer (A.meaning app) }
    ensures in_key_order { (app : A) → ClaimsGoInKeyOrder (A.meaning app) }
    ensures clear { (app : A) → ClearNodesHaveClearTasks (A.meaning app) }
{
    basis::<A>();
}

/// Performed jobs may end, the first one first, until all have acted; where one passes the limit,
/// the sequential run does too.
pub fn ending_laws<A: App>()
    ensures first { (app : A) → FirstMayEnd (A.meaning app) }
    ensures goes_on { (app : A) → EndsGoOn (A.meaning app) }
    ensures too_many { (app : A) → TooManyNeverEnd (A.meaning app) }
    ensures rest { (app : A) → EndsComeToRest (A.meaning app) }
{
    basis::<A>();
}

/// While nothing is running, all clear tasks may act one after the other in key order, and then the
/// round is done; where one passes the limit, the sequential run does too.
pub fn acting_laws<A: App>()
    ensures begins { (app : A) → ActsBegin (A.meaning app) }
    ensures some { (app : A) → RoundsHaveActs (A.meaning app) }
    ensures first { (app : A) → FirstMayAct (A.meaning app) }
    ensures goes_on { (app : A) → ActsGoOn (A.meaning app) }
    ensures too_many { (app : A) → TooManyActsNeverEnd (A.meaning app) }
    ensures rest { (app : A) → ActsComeToRest (A.meaning app) }
{
    basis::<A>();
}

/// Between two rounds what is drained goes behind what was drained before.
pub fn draining_laws<A: App>()
    ensures { (app : A) → DrainsKeepRest (A.meaning app) }
{
    basis::<A>();
}

/// Rounds add up, and where no task is left they have come to the end of the sequential run.
pub fn rounds_laws<A: App>()
    ensures add { (app : A) → RoundsAdd (A.meaning app) }
    ensures taken { (app : A) → RoundsAreTaken (A.meaning app) }
    ensures end { (app : A) → RestWithoutNodesIsTheEnd (A.meaning app) }
    ensures home { (app : A) → WholeIsHome (A.meaning app) }
{
    basis::<A>();
}

/// A run may be told in legs: what is left of it goes on from where the leg before came to, also where
/// the pending tasks become first tasks there.
pub fn leg_laws<A: App>()
    ensures begins { (app : A) → LegsBegin (A.meaning app) }
    ensures goes_on { (app : A) → LegsGoOn (A.meaning app) }
    ensures renamed { (app : A) → RenamingsGoOn (A.meaning app) }
{
    basis::<A>();
}

/// What is kept of a run in rounds while it goes on: where nothing more is to be drained, what was drained
/// are the texts of the ended tasks that come before every pending one, and so a front of what the sequential
/// run writes. A round acts on as many tasks as are clear, and where one of them passes the limit, the whole
/// round does.
pub fn kept_laws<A: App>()
    ensures drained { (app : A) → DrainedTextsAreKept (A.meaning app) }
    ensures fronts { (app : A) → KeptTextsAreFronts (A.meaning app) }
    ensures acts { (app : A) → ActsAreTheRound (A.meaning app) }
    ensures ends { (app : A) → EndsAreTheRound (A.meaning app) }
    ensures acts_pass { (app : A) → ActsPassWithTheRound (A.meaning app) }
    ensures ends_pass { (app : A) → EndsPassWithTheRound (A.meaning app) }
    ensures renamed { (app : A) → RenamingsKeepTexts (A.meaning app) }
{
    basis::<A>();
}

/// Whatever was drained since a start in which nothing was running, in whatever order tasks have ended since,
/// comes first in what the sequential run logs.
pub fn drained_laws<A: App>()
    ensures { (app : A) → DrainedEntriesAreFirst (A.meaning app) }
{
    basis::<A>();
}

/// What an outlet tells adds up, and what a sink has got of it is a front of it; all of it, where nothing is
/// held and no write has failed.
pub fn telling_laws<K: Sink>()
    ensures begins { TellingsBegin K.contents K.faults }
    ensures none { NothingIsTold K.contents K.faults }
    ensures add { TellingsAdd K.contents K.faults }
    ensures all { AllIsWritten }
    ensures front { FrontsAreWritten }
{}
