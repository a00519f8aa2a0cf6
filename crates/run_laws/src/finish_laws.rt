ghost use Rattle.run_laws.specs.FinishBasis.{FinishBasis};
ghost use Rattle.run_laws.specs.Finishes.{EffectsAreOfWhole, FinishesActOnWhole, FinishesStayReady, PerformedTasksAreKnown};
ghost use Rattle.run_laws.specs.Laws.{FinishesKeepSound};

use app_laws::{App, family_laws, lawful};
use cell_store::{location_laws, return_laws, value_laws};
use commuting::{clear_tasks_stay_clear, independent_tasks_commute};
use kdg_graph::laws::{node_laws, rewrite_laws};
use output_log::{part_laws, put_laws};
use rw_sets::{conflict_laws, independence_laws, merge_laws, within_laws};
use task_order::{earlier_laws, key_order, put_all_laws, put_in_laws, without_laws};

/// What the crates below promise of what a task's end changes, as one.
pub fn finish_basis<A: App>()
    ensures { (app : A) → FinishBasis (A.meaning app) }
{
    lawful::<A>();
    independent_tasks_commute::<A>();
    clear_tasks_stay_clear::<A>();
    family_laws();
    node_laws();
    rewrite_laws();
    key_order();
    earlier_laws();
    put_in_laws();
    put_all_laws();
    without_laws();
    put_laws();
    part_laws();
    independence_laws();
    conflict_laws();
    merge_laws();
    within_laws();
    location_laws::<A::Val>();
    return_laws::<A::Val>();
    value_laws::<A::Val>();
}

/// What is known of a job of a sound execution that was performed, before its task ends.
pub fn performed_laws<A: App>()
    ensures { (app : A) → PerformedTasksAreKnown (A.meaning app) }
{
    finish_basis::<A>();
}

/// Where a task of a sound execution ends, the whole cells and the pending tasks are what its
/// operator makes of them, whatever other tasks are running.
pub fn finish_state_laws<A: App>()
    ensures effect { (app : A) → EffectsAreOfWhole (A.meaning app) }
    ensures whole { (app : A) → FinishesActOnWhole (A.meaning app) }
    ensures ready { (app : A) → FinishesStayReady (A.meaning app) }
{
    finish_basis::<A>();
}

/// Where a task ends, a sound execution stays sound.
pub fn sound_finish_laws<A: App>()
    ensures { (app : A) → FinishesKeepSound (A.meaning app) }
{
    finish_basis::<A>();
}
