//! An operator of one's own: a closure, and the application that it makes.

ghost use Rattle.std.specs.Prelude.{◌≡◌, ◌≤◌, ◌<◌, ◌^◌, length, IfOk};
ghost use Rattle.std.specs.List.{AllByRecursion};
ghost use Rattle.hook_app.specs.Kept.{HookKeeps, IsAnswered, IsAsked};
ghost use Rattle.hook_app.specs.OneLocation.{own_set};
ghost use Rattle.own_operator.specs.Mixing.{IsMixer, group_sets, group_tasks, mixing, multiplied, next_children};

use crate::mixer::Mixer;
use crate::setting::{Mode, Setting};
use app_laws::{Child, ChildList, Effect, Finals, serial};
use cell_store::Bundle;
use free_pool::run_free;
use graph_update::Engine;
use hook_app::{Hook, HookApp};
use kdg_text::{NoRoom, Text};
use outer_edge::Gate;
use rw_sets::{Access, RwSet};
use source_pool::run_rounds;
use std::alloc::Global;
use std::sync::Wait;
use std::thread::Threads;
use task_order::{Body, Start, StartList, Task};

/// A number of the form 8k + 5, so that products go through many values before one comes again. It is small, and so
/// is the code that multiplies by it or by its eighth power: a loop that lies across two lines of a processor's
/// cache of code would take longer where two threads share the processor's core.
const FACTOR: u64 = 13;

/// Does what a task does. Where memory runs out, the bundle comes back as it was.
fn mix(
    alloc: Global,
    mixer: Mixer,
    task: &Task,
    bundle: Bundle<u64>,
) -> Result<Effect<u64>, Bundle<u64>>
    requires { IsAsked (mixing mixer) (group_sets mixer.groups) task.now bundle }
    ensures { IsAnswered (mixing mixer) (group_sets mixer.groups) task.now bundle result }
{
    let Ok(children) = next_task(alloc, mixer, task) else {
        return Err(bundle);
    };
    let mut bundle = bundle;
    let product = multiplied(bundle.value(task.body.at), mixer.times);
    bundle.put(task.body.at, product);
    Ok(Effect {
        bundle,
        children,
        text: Text::new(alloc),
    })
}

/// The product of a value with that many factors, without what goes beyond 64 bits.
fn multiplied(value: u64, times: u32) -> u64
    ensures { result ≡ multiplied value times }
{
    let mut product = value;
    for _factor in 0..times {
        product = product.wrapping_mul(FACTOR);
    }
    product
}

/// The next task of the group, unless this is its last.
fn next_task(alloc: Global, mixer: Mixer, task: &Task) -> Result<ChildList, NoRoom>
    requires { (mixing mixer).is_fit_task task.now.key.prio task.now.body }
    ensures { IfOk result (λ children. children ≡ next_children mixer task.now.key.prio task.now.body) }
{
    let mut children = ChildList::new(alloc);
    let prio = task.key.prio + u64::from(mixer.lookahead);
    if prio >= mixer.end() {
        return Ok(children);
    }
    let next = Child {
        prio,
        body: task.body,
        set: own_set(alloc, task.body.at)?,
    };
    children.push(next).map_err(|_| NoRoom)?;
    Ok(children)
}

/// The set that writes the cell of a group.
fn own_set(alloc: Global, group: u32) -> Result<RwSet, NoRoom>
    ensures { IfOk result (λ set. set ≡ own_set group) }
{
    let mut set = RwSet::new(alloc);
    set.add(group, Access::Write)?;
    Ok(set)
}

/// The set of each group.
fn sets(alloc: Global, groups: u32) -> Result<Vec<RwSet>, NoRoom>
    ensures { IfOk result (λ sets. sets.items ≡ group_sets groups) }
{
    let mut sets = Vec::new(alloc);
    for group in 0..groups {
        sets.push(own_set(alloc, group)?)?;
    }
    Ok(sets)
}

/// A 1 in each cell.
fn first_cells(alloc: Global, groups: u32) -> Result<Vec<u64>, NoRoom>
    ensures count { IfOk result (λ cells. length cells.items ≡ groups) }
    ensures fit { IfOk result (λ cells. AllByRecursion (λ value. value < 2 ^ 64) cells.items) }
{
    Ok(Vec::from_elem(alloc, 1, groups as usize)?)
}

/// The first task of each group.
fn first_tasks(alloc: Global, mixer: Mixer) -> Result<StartList, NoRoom>
    requires { 1 ≤ mixer.lookahead }
    ensures { IfOk result (λ first. first ≡ group_tasks mixer.lookahead mixer.groups) }
{
    let mut first = StartList::new(alloc);
    for at in 0..mixer.groups {
        let prio = u64::from(at % mixer.lookahead);
        let body = Body {
            kind: 0,
            at,
            arg: 0,
        };
        first.push(Start { prio, body })?;
    }
    Ok(first)
}

/// Runs the operator to its end, with the gate's choices by the seed 1.
pub fn run<R: Threads + Wait + Sync, G: Gate + Sync>(
    rt: &R,
    alloc: Global,
    setting: &Setting,
    gate: &G,
) -> Result<Finals<u64>, NoRoom>
    requires workers { (1 ≤ setting.now.workers) × (setting.now.workers ≤ 64) }
    requires mixer { IsMixer setting.now.mixer }
{
    let mixer = setting.mixer;
    let act = |task: &Task, bundle: Bundle<u64>| -> Result<Effect<u64>, Bundle<u64>>
        requires { IsAsked (mixing mixer) (group_sets mixer.groups) task.now bundle }
        ensures { IsAnswered (mixing mixer) (group_sets mixer.groups) task.now bundle result }
    { mix(alloc, mixer, task, bundle) };
    run_by(rt, alloc, setting, gate, act)
}

/// Runs an operator that keeps the mixer's deed.
fn run_by<R: Threads + Wait + Sync, G: Gate + Sync, H: Hook<u64> + Sync>(
    rt: &R,
    alloc: Global,
    setting: &Setting,
    gate: &G,
    hook: H,
) -> Result<Finals<u64>, NoRoom>
    requires workers { (1 ≤ setting.now.workers) × (setting.now.workers ≤ 64) }
    requires mixer { IsMixer setting.now.mixer }
    requires keeps { HookKeeps (mixing setting.now.mixer) setting.now.mixer.groups (group_sets setting.now.mixer.groups) setting.now.mixer.lookahead (H.may hook) (H.gives hook) }
{
    let mixer = &setting.mixer;
    let (groups, ahead) = (mixer.groups, u64::from(mixer.lookahead));
    let app = HookApp::new(mixer, groups, sets(alloc, groups)?, ahead, hook);
    let (cells, first) = (first_cells(alloc, groups)?, first_tasks(alloc, *mixer)?);
    // No more tasks than that are created.
    let budget = u64::from(mixer.tasks);
    if let Mode::Serial = setting.mode {
        return serial(alloc, &app, cells, first, budget).map_err(|_| NoRoom);
    }
    let engine = Engine::begin_uncounted(alloc, &app, cells, first, budget).map_err(|_| NoRoom)?;
    if let Mode::Free = setting.mode {
        return run_free(rt, alloc, engine, gate, 1, setting.workers).map_err(|_| NoRoom);
    }
    let ended = run_rounds(rt, alloc, engine, gate, 1, setting.workers);
    let (finals, _) = ended.map_err(|_| NoRoom)?;
    Ok(finals)
}
