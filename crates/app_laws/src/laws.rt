ghost use Rattle.std.specs.Prelude.{List, ℕ};
ghost use Rattle.task_order.specs.declared.start.Start.{Start};
ghost use Rattle.app_laws.specs.Execution.{Operator, Execution, start_of, after_steps};
ghost use Rattle.app_laws.specs.Applications.{IsLawful, AreFitStarts, ActsIgnorePaths};
ghost use Rattle.app_laws.specs.Laws.{IsFitExecution, StopsWhenClear, LogsEachStep, CreatedNeverFalls, EndsWithinLimit, StepsAdd, RunsBeginWithAStep, GreaterLimitsAgree, LogsGrowAtTheEnd, BoundedRunsLogAPart};
ghost use Rattle.app_laws.specs.Order.{IsOrderly};
ghost use Rattle.app_laws.specs.Renaming.{ListedTasksAreNamed, NamesChangeNoRun};

use crate::App;
use crate::serial_run::lower_laws;
use task_order::{ascending_laws, put_all_laws};

/// What holds of every execution of every operator, from any moment of it on.
pub fn execution_laws<V>()
    ensures adds { (act : Operator V) (e : Execution V) → StepsAdd act e }
    ensures stops { (act : Operator V) (e : Execution V) → StopsWhenClear act e }
    ensures logs { (act : Operator V) (e : Execution V) → LogsEachStep act e }
    ensures created { (act : Operator V) (e : Execution V) → CreatedNeverFalls act e }
    ensures ends { (act : Operator V) (e : Execution V) → EndsWithinLimit act e }
    ensures begins { (act : Operator V) (e : Execution V) → RunsBeginWithAStep act e }
    ensures greater_limits { (act : Operator V) (e : Execution V) → GreaterLimitsAgree act e }
    ensures grows { (act : Operator V) (e : Execution V) → LogsGrowAtTheEnd act e }
{}

/// The laws of an application, as one.
pub fn lawful<A: App>()
    ensures { (app : A) → IsLawful (A.meaning app) }
{}

/// An application's executions begin fit and orderly, and stay so.
pub fn orderly_laws<A: App>()
    ensures starts_orderly { (cells : List A.Val) (first : List Start) → IsOrderly (start_of cells first) }
    ensures starts_fit { (app : A) (cells : List A.Val) (first : List Start) →
        (A.meaning app).is_fit_cells cells → AreFitStarts (A.meaning app) first →
        IsFitExecution (A.meaning app) (start_of cells first) }
    ensures stays_fit { (app : A) (e : Execution A.Val) →
        IsFitExecution (A.meaning app) e → (steps : ℕ) →
        IsFitExecution (A.meaning app) (after_steps (A.meaning app).act steps e) }
    ensures stays_orderly { (app : A) (e : Execution A.Val) →
        IsFitExecution (A.meaning app) e → IsOrderly e → (steps : ℕ) →
        IsOrderly (after_steps (A.meaning app).act steps e) }
    ensures logs_a_part { (app : A) (e : Execution A.Val) →
        IsFitExecution (A.meaning app) e → IsOrderly e → BoundedRunsLogAPart (A.meaning app).act e }
{
    lower_laws();
    lawful::<A>();
}

/// Paths give tasks their order and tell nothing else: under other paths in the same order an execution
/// comes to the same.
pub fn renaming_laws<A: App>()
    ensures { (app : A) → ActsIgnorePaths (A.meaning app) → NamesChangeNoRun (A.meaning app) }
{
    lawful::<A>();
}

/// Pending tasks, none of whose paths goes on from another's, may be numbered in the order of their
/// paths: their descendants then stay in order too.
pub fn naming_laws()
    ensures { ListedTasksAreNamed }
{
    ascending_laws();
    put_all_laws();
}
