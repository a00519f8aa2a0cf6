ghost use Rattle.run_laws.specs.Acting.{ActFaultsKeepSound, ActsActOnWhole, ActsKeepSound};
ghost use Rattle.run_laws.specs.Basis.{CellLaws, LowerLaws, Basis};
ghost use Rattle.run_laws.specs.Laws.{JobsMayRun, BeginningsAreSound, ClaimsKeepSound, ClaimsTakeOneClear, ClearNodesAreHome, EventsKeepSound, MarksAndDrainsKeepSound, RecordedSetsSuffice, SomeIsClear, WholeIsOne};
ghost use Rattle.run_laws.specs.Renaming.{FirstNodesAreAsMany, ListedTasksFit, RenamingsKeepSound};
ghost use Rattle.run_laws.specs.Rest.{ActsLeaveClear, ClearNodesStayClear, IdleIsSound, NoJobsAreRest, NoJobsWhereNoneRuns};

use crate::finish_laws::{finish_basis, finish_state_laws, sound_finish_laws};
use app_laws::{App, lawful};
use cell_store::{location_laws, value_laws};
use commuting::standing_laws;
use kdg_graph::laws::{node_laws, put_laws};
use output_log::part_laws;
use rw_sets::{conflict_laws, independence_laws, within_laws};
use task_order::{earlier_laws, put_all_laws};

/// What the crates below promise of keys, lists of tasks, sets, logs and nodes, as one.
pub fn lower_laws()
    ensures { LowerLaws }
{
    earlier_laws();
    put_all_laws();
    conflict_laws();
    independence_laws();
    within_laws();
    part_laws();
    node_laws();
    put_laws();
}

/// What they promise of cells.
fn cell_laws<V>()
    ensures { CellLaws V }
{
    location_laws::<V>();
    value_laws::<V>();
}

/// Both, the laws of an application, and that its first tasks make a state that is ready.
pub fn basis<A: App>()
    ensures { (app : A) → Basis (A.meaning app) }
{
    lower_laws();
    cell_laws::<A::Val>();
    lawful::<A>();
    standing_laws::<A>();
}

/// Marks and drains change neither the jobs nor the whole cells.
pub fn drain_laws<A: App>()
    ensures sound { (app : A) → MarksAndDrainsKeepSound (A.meaning app) }
{
    basis::<A>();
}

/// An execution and its jobs have one list of whole cells.
pub fn whole_laws<A: App>()
    ensures one { (app : A) → WholeIsOne (A.meaning app) }
{
    basis::<A>();
}

/// A clear node is a clear task whose cells are home, and a running one is a clear task too. While nothing is running some node is
/// clear, unless none is there.
pub fn clear_laws<A: App>()
    ensures suffice { (app : A) → RecordedSetsSuffice (A.meaning app) }
    ensures some { (app : A) → SomeIsClear (A.meaning app) }
    ensures home { (app : A) → ClearNodesAreHome (A.meaning app) }
{
    basis::<A>();
}

/// What begins is sound, and nothing is running.
pub fn begin_laws<A: App>()
    ensures sound { (app : A) → BeginningsAreSound (A.meaning app) }
{
    basis::<A>();
}

/// Where nothing is running and the pending tasks become first tasks, what is there is as sound. They are as
/// many, and the application's.
pub fn renaming_laws<A: App>()
    ensures sound { (app : A) → RenamingsKeepSound (A.meaning app) }
    ensures fit { (app : A) → ListedTasksFit (A.meaning app) }
    ensures as_many { (app : A) → FirstNodesAreAsMany (A.meaning app) }
{
    basis::<A>();
}

/// Where a job is claimed, an execution stays sound with that job more, and its whole cells are the
/// same.
pub fn claim_laws<A: App>()
    ensures sound { (app : A) → ClaimsKeepSound (A.meaning app) }
{
    basis::<A>();
}

/// A claim takes one of the clear nodes: the others stay clear, and no other becomes clear.
pub fn clear_claim_laws<A: App>()
    ensures one { (app : A) → ClaimsTakeOneClear (A.meaning app) }
{
    basis::<A>();
}

/// A task that acts keeps an execution sound, whatever jobs are in hand beside it, and the whole cells are
/// what its operator makes of them; one that doesn't come to its end keeps it sound too.
pub fn act_laws<A: App>()
    ensures sound { (app : A) → ActsKeepSound (A.meaning app) }
    ensures fault { (app : A) → ActFaultsKeepSound (A.meaning app) }
    ensures whole { (app : A) → ActsActOnWhole (A.meaning app) }
{
    basis::<A>();
    finish_state_laws::<A>();
    sound_finish_laws::<A>();
}

/// Each job in hand may run, whatever else has happened since it was claimed.
pub fn job_laws<A: App>()
    ensures { (app : A) → JobsMayRun (A.meaning app) }
{
    basis::<A>();
}

/// Whatever happens, and in whatever order tasks end, an execution stays sound.
pub fn event_laws<A: App>()
    ensures sound { (app : A) → EventsKeepSound (A.meaning app) }
{
    basis::<A>();
    sound_finish_laws::<A>();
}

/// While nothing is running, all cells are home, each recorded set is the declared one, and the least
/// node is clear.
pub fn rest_laws<A: App>()
    ensures no_jobs { (app : A) → NoJobsWhereNoneRuns (A.meaning app) }
    ensures rest { (app : A) → NoJobsAreRest (A.meaning app) }
    ensures idle { (app : A) → IdleIsSound (A.meaning app) }
{
    basis::<A>();
}

/// A clear node stays clear until it is claimed, whatever else happens.
pub fn stay_clear_laws<A: App>()
    ensures stay { (app : A) → ClearNodesStayClear (A.meaning app) }
    ensures acts { (app : A) → ActsLeaveClear (A.meaning app) }
{
    basis::<A>();
    finish_basis::<A>();
    sound_finish_laws::<A>();
}
