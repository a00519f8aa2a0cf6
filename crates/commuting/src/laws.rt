ghost use Rattle.app_laws.specs.Applications.{PathsAreIgnored};
ghost use Rattle.commuting.specs.Commuting.{ClearTasksMayActAtOnce, ClearTasksStayClearInTurn, ClearTasksActInAnyOrder, ClearTasksMayAllActAtOnce};
ghost use Rattle.commuting.specs.Independent.{StaysReady, IndependentTasksCommute, IndependentTasksLeaveAlone, ClearTasksStayClear, ClearTasksAreIndependent, EarliestIsClear};
ghost use Rattle.commuting.specs.Basis.{LowerLaws, Basis};
ghost use Rattle.commuting.specs.Renaming.{NamesChangeNoRound, NamesChangeNoRounds, ListedTasksComeToSame};
ghost use Rattle.commuting.specs.Rounds.{ClearTasksAreListed, RoundsKeepReady, RoundsKeepStanding, EndsTakeRounds, RoundsEnd, RoundsAreOneNumber};
ghost use Rattle.commuting.specs.Standing.{StartsAreReady, StartsStandForThemselves, ClearTasksKeepStanding, EarlierEntriesAreFirst, NothingPendingIsTheEnd, TooManyTasksNeverEnd, RunsLogLater, RunsLogNewKeys};

use app_laws::{App, execution_laws, family_laws, lawful, naming_laws, renaming_laws};
use output_log::{join_laws, part_laws, put_laws};
use rw_sets::{conflict_laws, independence_laws};
use task_order::{
    ascending_laws, before_laws, earlier_laws, key_order, put_all_laws, put_in_laws, without_laws,
};

/// What the crates below promise of keys, lists of tasks, sets, children and logs, as one.
fn lower_laws()
    ensures { LowerLaws }
{
    key_order();
    earlier_laws();
    ascending_laws();
    put_in_laws();
    put_all_laws();
    before_laws();
    without_laws();
    independence_laws();
    conflict_laws();
    family_laws();
    put_laws();
    part_laws();
    join_laws();
}

/// That, the laws of an application, and those of its runs.
fn basis<A: App>()
    ensures { (app : A) → Basis (A.meaning app) }
{
    lower_laws();
    lawful::<A>();
    execution_laws::<A::Val>();
}

/// Pending tasks whose sets don't conflict may act in either order, and leave one another alone.
pub fn independent_tasks_commute<A: App>()
    ensures ready { (app : A) → StaysReady (A.meaning app) }
    ensures commute { (app : A) → IndependentTasksCommute (A.meaning app) }
    ensures left_alone { (app : A) → IndependentTasksLeaveAlone (A.meaning app) }
{
    basis::<A>();
}

/// A clear task stays clear until it acts, and no two clear tasks conflict. The earliest task is
/// clear.
pub fn clear_tasks_stay_clear<A: App>()
    ensures stay { (app : A) → ClearTasksStayClear (A.meaning app) }
    ensures independent { (app : A) → ClearTasksAreIndependent (A.meaning app) }
    ensures earliest { (app : A) → EarliestIsClear (A.meaning app) }
{
    basis::<A>();
}

/// A clear task may act at once: every run comes to the same cells, and its log is the same with
/// the task's entry at its place.
pub fn clear_tasks_commute<A: App>()
    ensures one { (app : A) → ClearTasksMayActAtOnce (A.meaning app) }
{
    basis::<A>();
}

/// Several clear tasks of one state may act at once, in any order: they come to one state, and
/// runs from there lack just their entries.
pub fn clear_tasks_all_commute<A: App>()
    ensures in_turn { (app : A) → ClearTasksStayClearInTurn (A.meaning app) }
    ensures any_order { (app : A) → ClearTasksActInAnyOrder (A.meaning app) }
    ensures runs { (app : A) → ClearTasksMayAllActAtOnce (A.meaning app) }
{
    basis::<A>();
}

/// A state, with the entries of the clear tasks that have acted so far in any order, stands for
/// what is left of the execution from its start. What is left is logged later than what came before
/// all that is pending, and under new keys.
pub fn standing_laws<A: App>()
    ensures starts_ready { (app : A) → StartsAreReady (A.meaning app) }
    ensures starts { (app : A) → StartsStandForThemselves (A.meaning app) }
    ensures acts { (app : A) → ClearTasksKeepStanding (A.meaning app) }
    ensures first { (app : A) → EarlierEntriesAreFirst (A.meaning app) }
    ensures end { (app : A) → NothingPendingIsTheEnd (A.meaning app) }
    ensures too_many { (app : A) → TooManyTasksNeverEnd (A.meaning app) }
    ensures later { (app : A) → RunsLogLater (A.meaning app) }
    ensures new_keys { (app : A) → RunsLogNewKeys (A.meaning app) }
{
    basis::<A>();
}

/// Rounds, in each of which all clear tasks act, lead to the end of an execution wherever it has
/// one.
pub fn round_laws<A: App>()
    ensures listed { (app : A) → ClearTasksAreListed (A.meaning app) }
    ensures ready { (app : A) → RoundsKeepReady (A.meaning app) }
    ensures standing { (app : A) → RoundsKeepStanding (A.meaning app) }
    ensures take_rounds { (app : A) → EndsTakeRounds (A.meaning app) }
    ensures end { (app : A) → RoundsEnd (A.meaning app) }
    ensures one_number { (app : A) → RoundsAreOneNumber (A.meaning app) }
{
    basis::<A>();
}

/// Where an application ignores paths, and pending tasks are first tasks in the order of their paths, what
/// is left of an execution comes to the same, in as many rounds.
pub fn listed_tasks_come_to_same<A: App>()
    ensures round { (app : A) → PathsAreIgnored (A.meaning app) → NamesChangeNoRound (A.meaning app) }
    ensures rounds { (app : A) → PathsAreIgnored (A.meaning app) → NamesChangeNoRounds (A.meaning app) }
    ensures same { (app : A) → PathsAreIgnored (A.meaning app) → ListedTasksComeToSame (A.meaning app) }
{
    basis::<A>();
    renaming_laws::<A>();
    naming_laws();
}
