//! Walkers along arrows that a deed holds, by a closure.

ghost use Rattle.std.specs.Prelude.{◌≡◌, ◌≤◌, ◌<◌, IfOk};
ghost use Rattle.hook_app.specs.Kept.{HookKeeps, IsAnswered, IsAsked};
ghost use Rattle.engine_trials.specs.Walking.{AreArrows, first_walkers, next_walkers, place_sets, walking};

use super::adder::{own_set, start};
use super::hooks::all_meet;
use super::outcomes::Aim;
use app_laws::{Child, ChildList, Effect};
use cell_store::Bundle;
use graph_update::OverCause;
use hook_app::{Deed, Hook, HookApp};
use kdg_text::{NoRoom, Text};
use rw_sets::RwSet;
use std::alloc::Global;
use std::sync::Wait;
use std::thread::Threads;
use task_order::{Body, StartList, Task};

/// Three places, from each of which an arrow leads to one of them. A walker adds its number to the cell
/// of its place and goes on along the arrow, five steps in all.
#[derive(Drop)]
pub struct Arrows {
    pub to: Vec<u32>,
}

impl Deed for Arrows {
    ghost use Rattle.engine_trials.specs.Walking.{walking};

    type Val = u64;

    ghost meaning = { λ arrows. walking arrows.to.items };
}

/// Whether the runs of three walkers, one on each place, whose arrows lead to these meet an aim, in so many
/// rounds.
pub fn walkers_meet<R: Threads + Wait + Sync, W: Aim<u64>>(
    rt: &R,
    alloc: Global,
    to: Vec<u32>,
    rounds: u64,
    aim: &W,
) -> Result<bool, OverCause>
    requires arrows { AreArrows to.items }
{
    let arrows = Arrows { to };
    let graph = &arrows;
    let walk = |task: &Task, bundle: Bundle<u64>| -> Result<Effect<u64>, Bundle<u64>>
        requires arrows { AreArrows graph.now.to.items }
        requires asked { IsAsked (walking graph.now.to.items) place_sets task.now bundle }
        ensures { IsAnswered (walking graph.entry.now.to.items) place_sets task.now bundle result }
    { graph.walk(alloc, task, bundle) };
    hook_meets(rt, alloc, graph, walk, rounds, aim)
}

/// Whether the runs of an operator that keeps the deed of these arrows do.
fn hook_meets<R: Threads + Wait + Sync, H: Hook<u64> + Sync, W: Aim<u64>>(
    rt: &R,
    alloc: Global,
    arrows: &Arrows,
    hook: H,
    rounds: u64,
    aim: &W,
) -> Result<bool, OverCause>
    requires keeps { HookKeeps (walking arrows.now.to.items) 3 place_sets 1 (H.may hook) (H.gives hook) }
{
    let (sets, first) = (sets(alloc)?, first_tasks(alloc)?);
    let app = HookApp::new(arrows, 3, sets, 1, hook);
    all_meet(rt, alloc, &app, &[0, 0, 0], first.items(), 100, rounds, aim)
}

/// The set of each place.
fn sets(alloc: Global) -> Result<Vec<RwSet>, NoRoom>
    ensures { IfOk result (λ sets. sets.items ≡ place_sets) }
{
    let mut sets = Vec::new(alloc);
    sets.push(own_set(alloc, 0)?)?;
    sets.push(own_set(alloc, 1)?)?;
    sets.push(own_set(alloc, 2)?)?;
    Ok(sets)
}

/// A walker on each place.
fn first_tasks(alloc: Global) -> Result<StartList, NoRoom>
    ensures { IfOk result (λ first. first ≡ first_walkers) }
{
    let mut first = StartList::new(alloc);
    first.push(start(0, 0, 1))?;
    first.push(start(0, 1, 10))?;
    first.push(start(0, 2, 100))?;
    Ok(first)
}

impl Arrows {
    /// Does what a walker does.
    pub fn walk(
        &self,
        alloc: Global,
        task: &Task,
        bundle: Bundle<u64>,
    ) -> Result<Effect<u64>, Bundle<u64>>
        requires arrows { AreArrows self.now.to.items }
        requires asked { IsAsked (walking self.now.to.items) place_sets task.now bundle }
        ensures { IsAnswered (walking self.now.to.items) place_sets task.now bundle result }
    {
        let Ok(children) = self.next(alloc, task) else {
            return Err(bundle);
        };
        let mut bundle = bundle;
        let sum = bundle.value(task.body.at).wrapping_add(task.body.arg);
        bundle.put(task.body.at, sum);
        Ok(Effect {
            bundle,
            children,
            text: Text::new(alloc),
        })
    }

    /// The walker's next step.
    fn next(&self, alloc: Global, task: &Task) -> Result<ChildList, NoRoom>
        requires arrows { AreArrows self.now.to.items }
        requires place { task.now.body.at < 3 }
        ensures { IfOk result (λ children. children ≡ next_walkers self.now.to.items task.now.key.prio task.now.body) }
    {
        let mut children = ChildList::new(alloc);
        if task.key.prio >= 4 {
            return Ok(children);
        }
        let at = self.to[task.body.at as usize];
        let next = Child {
            prio: task.key.prio + 1,
            body: Body { at, ..task.body },
            set: own_set(alloc, at)?,
        };
        children.push(next).map_err(|_| NoRoom)?;
        Ok(children)
    }
}
