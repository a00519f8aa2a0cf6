//! Tasks that add their numbers to cells, by a closure.

ghost use Rattle.std.specs.Prelude.{◌≡◌, ◌≢◌, ◌≤◌, IfOk};
ghost use Rattle.hook_app.specs.Kept.{HookKeeps, IsAnswered, IsAsked};
ghost use Rattle.hook_app.specs.OneLocation.{own_set};
ghost use Rattle.engine_trials.specs.Adding.{adding, adding_sets, first_additions, next_children, sum_line, sum_set};

use super::hooks::all_meet;
use super::outcomes::Aim;
use app_laws::{Child, ChildList, Effect};
use cell_store::Bundle;
use graph_update::OverCause;
use hook_app::{Deed, Hook, HookApp};
use kdg_text::{NoRoom, Text, push_u64};
use rw_sets::{Access, RwSet};
use std::alloc::Global;
use std::sync::Wait;
use std::thread::Threads;
use task_order::{Body, Start, StartList, Task};

/// Three cells. A task at cell 0 or 1 adds its number there, and a task like it follows at the next
/// priority, as long as that is at most 2. A task at cell 2 puts the sum of the others there.
#[derive(Drop)]
pub struct Adder;

impl Deed for Adder {
    ghost use Rattle.engine_trials.specs.Adding.{adding};

    type Val = u64;

    ghost meaning = { λ adder. adding };
}

/// Whether the adder's runs under a lookahead and a budget meet an aim, in so many rounds.
pub fn adder_meets<R: Threads + Wait + Sync, W: Aim<u64>>(
    rt: &R,
    alloc: Global,
    ahead: u64,
    budget: u64,
    rounds: u64,
    aim: &W,
) -> Result<bool, OverCause>
    requires ahead { ahead ≤ 1 }
    requires budget { budget ≤ 1_000_000_000 }
{
    let add = |task: &Task, bundle: Bundle<u64>| -> Result<Effect<u64>, Bundle<u64>>
        requires { IsAsked adding adding_sets task.now bundle }
        ensures { IsAnswered adding adding_sets task.now bundle result }
    { act(alloc, task, bundle) };
    hook_meets(rt, alloc, ahead, add, budget, rounds, aim)
}

/// Whether the runs of an operator that keeps the adder's deed do.
fn hook_meets<R: Threads + Wait + Sync, H: Hook<u64> + Sync, W: Aim<u64>>(
    rt: &R,
    alloc: Global,
    ahead: u64,
    hook: H,
    budget: u64,
    rounds: u64,
    aim: &W,
) -> Result<bool, OverCause>
    requires keeps { HookKeeps adding 3 adding_sets ahead (H.may hook) (H.gives hook) }
    requires budget { budget ≤ 1_000_000_000 }
{
    let (sets, first) = (sets(alloc)?, first_tasks(alloc)?);
    let app = HookApp::new(&Adder, 3, sets, ahead, hook);
    all_meet(
        rt,
        alloc,
        &app,
        &[0, 0, 0],
        first.items(),
        budget,
        rounds,
        aim,
    )
}

/// The set of each kind of task.
pub fn sets(alloc: Global) -> Result<Vec<RwSet>, NoRoom>
    ensures { IfOk result (λ sets. sets.items ≡ adding_sets) }
{
    let mut sets = Vec::new(alloc);
    sets.push(own_set(alloc, 0)?)?;
    sets.push(own_set(alloc, 1)?)?;
    sets.push(sum_set(alloc)?)?;
    Ok(sets)
}

/// The set of the sum.
fn sum_set(alloc: Global) -> Result<RwSet, NoRoom>
    ensures { IfOk result (λ set. set ≡ sum_set) }
{
    let mut set = RwSet::new(alloc);
    set.add(0, Access::Read)?;
    set.add(1, Access::Read)?;
    set.add(2, Access::Write)?;
    Ok(set)
}

/// The set that writes one cell.
pub fn own_set(alloc: Global, loc: u32) -> Result<RwSet, NoRoom>
    ensures { IfOk result (λ set. set ≡ own_set loc) }
{
    let mut set = RwSet::new(alloc);
    set.add(loc, Access::Write)?;
    Ok(set)
}

fn first_tasks(alloc: Global) -> Result<StartList, NoRoom>
    ensures { IfOk result (λ first. first ≡ first_additions) }
{
    let mut first = StartList::new(alloc);
    first.push(start(0, 0, 1))?;
    first.push(start(0, 1, 10))?;
    first.push(start(3, 2, 0))?;
    Ok(first)
}

/// A first task.
pub fn start(prio: u64, at: u32, arg: u64) -> Start
    ensures { result ≡ record { prio = prio; body = record { kind = 0; at = at; arg = arg } } }
{
    Start {
        prio,
        body: Body { kind: 0, at, arg },
    }
}

/// Does what a task does.
pub fn act(alloc: Global, task: &Task, bundle: Bundle<u64>) -> Result<Effect<u64>, Bundle<u64>>
    requires { IsAsked adding adding_sets task.now bundle }
    ensures { IsAnswered adding adding_sets task.now bundle result }
{
    if task.body.at == 2 {
        sum_up(alloc, task, bundle)
    } else {
        add(alloc, task, bundle)
    }
}

fn add(alloc: Global, task: &Task, bundle: Bundle<u64>) -> Result<Effect<u64>, Bundle<u64>>
    requires asked { IsAsked adding adding_sets task.now bundle }
    requires one { task.now.body.at ≢ 2 }
    ensures { IsAnswered adding adding_sets task.now bundle result }
{
    let Ok(children) = next_addition(alloc, task) else {
        return Err(bundle);
    };
    let mut bundle = bundle;
    let sum = bundle.value(task.body.at).wrapping_add(task.body.arg);
    bundle.put(task.body.at, sum);
    Ok(Effect {
        bundle,
        children,
        text: Text::new(alloc),
    })
}

fn next_addition(alloc: Global, task: &Task) -> Result<ChildList, NoRoom>
    ensures { IfOk result (λ children. children ≡ next_children task.now.key.prio task.now.body) }
{
    let mut children = ChildList::new(alloc);
    if task.key.prio >= 2 {
        return Ok(children);
    }
    let next = Child {
        prio: task.key.prio + 1,
        body: task.body,
        set: own_set(alloc, task.body.at)?,
    };
    children.push(next).map_err(|_| NoRoom)?;
    Ok(children)
}

fn sum_up(alloc: Global, _task: &Task, bundle: Bundle<u64>) -> Result<Effect<u64>, Bundle<u64>>
    requires asked { IsAsked adding adding_sets _task.now bundle }
    requires total { _task.now.body.at ≡ 2 }
    ensures { IsAnswered adding adding_sets _task.now bundle result }
{
    let sum = bundle.value(0).wrapping_add(bundle.value(1));
    let Ok(text) = line(alloc, sum) else {
        return Err(bundle);
    };
    let mut bundle = bundle;
    bundle.put(2, sum);
    Ok(Effect {
        bundle,
        children: ChildList::new(alloc),
        text,
    })
}

fn line(alloc: Global, sum: u64) -> Result<Text, NoRoom>
    ensures { IfOk result (λ text. text ≡ sum_line sum) }
{
    let mut text = Text::new(alloc);
    text.push_all(b"sum ")?;
    push_u64(&mut text, sum)?;
    text.push_byte(b'\n')?;
    Ok(text)
}
