ghost use Rattle.std.specs.Prelude.{◌≡◌, ◌<◌, ◌^◌, [], ◌∷◌, length, IfOk, IfErr};
ghost use Rattle.app_laws.specs.Applications.{AreFitStarts};
ghost use Rattle.small_apps.specs.Trails.{trails, first_trails, first_passings, follower_of, followers_of, place_of};

use app_laws::{App, Child, ChildList, Effect, SetAnswer};
use cell_store::{Bundle, Held, Store, value_laws};
use kdg_text::{NoRoom, Steps, Text};
use rw_sets::{Access, RwSet};
use std::alloc::Global;
use std::sync::ledger::Ledger;
use task_order::{Body, Path, PendingTasks, Start, StartList, Task};

/// What a place keeps: the path of the last task that passed there.
#[derive(Drop)]
pub struct Trail {
    pub path: Path,
}

impl Held for Trail {
    fn copy(&self) -> Result<Trail, NoRoom> {
        Ok(Trail {
            path: self.path.copy()?,
        })
    }
}

/// Two places, where each task leaves its path. So what a task does is told by its path, and tasks may
/// not get others.
///
/// A task passes at the place `at`. Where `arg` is not 0, two tasks follow there: one that none follows,
/// and one whose `arg` is less by one.
///
/// Its way to act at home always lacks memory, but it doesn't say that it works at home. So a run that asks
/// for that way ends at once.
#[derive(Drop)]
pub struct Trails {
    alloc: Global,
}

impl Trails {
    /// Two places.
    pub fn new(alloc: Global) -> Trails {
        Trails { alloc }
    }

    /// The places before any task passed.
    pub fn first_cells(&self) -> Result<Vec<Trail>, NoRoom>
        ensures cells { IfOk result (λ cells. cells.items ≡ first_trails) }
        ensures fit { IfOk result (λ cells. trails.is_fit_cells cells.items) }
    {
        Ok(vec![in self.alloc; new_trail(self.alloc)?, new_trail(self.alloc)?]?)
    }

    /// A first task at each place, after which `more` come one after the other, and as many beside them.
    pub fn first_tasks(&self, more: u64) -> Result<StartList, NoRoom>
        ensures tasks { IfOk result (λ tasks. tasks ≡ first_passings more) }
        ensures fit { IfOk result (AreFitStarts trails) }
        ensures few { IfOk result (λ tasks. length tasks < 2 ^ 32) }
    {
        let mut starts = StartList::new(self.alloc);
        starts.push(passing(0, more))?;
        starts.push(passing(1, more))?;
        Ok(starts)
    }
}

/// The trail at a place where no task has passed.
fn new_trail(alloc: Global) -> Result<Trail, NoRoom>
    ensures { IfOk result (λ trail. trail ≡ record { path = 0 ∷ [] }) }
{
    Ok(Trail {
        path: Path::root(alloc, 0)?,
    })
}

/// The first task at a place, which `more` follow.
fn passing(at: u32, more: u64) -> Start
    ensures { result ≡ record { prio = 0; body = record { kind = 0; at = at; arg = more } } }
{
    let body = Body {
        kind: 0,
        at,
        arg: more,
    };
    Start { prio: 0, body }
}

impl App for Trails {
    ghost use Rattle.std.specs.Prelude.{true};
    ghost use Rattle.app_laws.specs.Applications.{IsFitTask, IsTaken, IsEffect};
    ghost use Rattle.small_apps.specs.Lawful as lawful;

    type Val = Trail;

    type Horizon = ();

    ghost meaning = { λ app. trails };

    ghost tells = { λ app horizon tasks. Unit {0} };

    ghost has_fixed_sets = { λ app. true };

    fn cells(&self) -> u32 {
        2
    }

    fn sets<L: Ledger>(
        &self,
        body: &Body,
        _store: &Store<Trail>,
        steps: &mut Steps<L>,
    ) -> Result<SetAnswer, NoRoom> {
        steps.tick();
        Ok(SetAnswer::Known(place_of(self.alloc, body)?))
    }

    fn sets_are_fixed(&self) -> bool {
        true
    }

    fn horizon(&self, _alloc: Global) -> Result<(), NoRoom> {
        Ok(())
    }

    fn touch(&self, _horizon: &mut (), _body: &Body) {}

    fn safe<P: PendingTasks>(&self, _task: &Task, _pending: &P, _horizon: &mut ()) -> bool {
        true
    }

    fn run(&self, task: &Task, bundle: Bundle<Trail>) -> Result<Effect<Trail>, Bundle<Trail>>
        requires fit { IsFitTask trails task.now }
        requires cells { IsTaken trails task.now bundle }
        ensures effect { IfOk result (IsEffect trails task.now bundle) }
        ensures returned { IfErr result (λ back. back ≡ bundle) }
    {
        value_laws::<Trail>();
        let Ok(path) = task.key.path.copy() else {
            return Err(bundle);
        };
        let Ok(children) = followers(self.alloc, task) else {
            return Err(bundle);
        };
        let mut bundle = bundle;
        bundle.put(task.body.at, Trail { path });
        Ok(Effect {
            bundle,
            children,
            text: Text::new(self.alloc),
        })
    }

    fn run_at_home(
        &self,
        _task: &Task,
        _store: &mut Store<Trail>,
    ) -> Result<(ChildList, Text), NoRoom> {
        Err(NoRoom)
    }

    ghost lawful = { λ app. lawful.are_lawful };
}

/// The set of a task: it writes its place.
fn place_of(alloc: Global, body: &Body) -> Result<RwSet, NoRoom>
    ensures { IfOk result (λ set. set ≡ place_of body.now) }
{
    let mut set = RwSet::new(alloc);
    set.add(body.at, Access::Write)?;
    Ok(set)
}

/// The tasks that follow one.
fn followers(alloc: Global, task: &Task) -> Result<ChildList, NoRoom>
    ensures { IfOk result (λ children. children ≡ followers_of task.now.key.prio task.now.body) }
{
    let mut children = ChildList::new(alloc);
    if task.body.arg == 0 {
        return Ok(children);
    }
    let last = follower(alloc, task, 0)?;
    children.push(last).map_err(|_| NoRoom)?;
    let next = follower(alloc, task, task.body.arg - 1)?;
    children.push(next).map_err(|_| NoRoom)?;
    Ok(children)
}

/// A task that follows one, and is followed by as many as this.
fn follower(alloc: Global, task: &Task, arg: u64) -> Result<Child, NoRoom>
    ensures { IfOk result (λ child. child ≡ follower_of task.now.key.prio task.now.body arg) }
{
    Ok(Child {
        prio: task.key.prio,
        body: Body {
            kind: 0,
            at: task.body.at,
            arg,
        },
        set: place_of(alloc, &task.body)?,
    })
}
