ghost use Rattle.std.specs.Prelude.{◌≡◌, ◌<◌, ◌≤◌, ◌+◌, ◌/◌, ◌^◌, ◌++◌, ◌↔◌, [], length, map, IfOk, IfErr, IsTrue, OnOk, ◌⊎◌};
ghost use Rattle.std.specs.List.{AllByRecursion};
ghost use Rattle.task_order.specs.TaskList.{IsNewKey, put_in, put_all};
ghost use Rattle.cell_store.specs.Values.{homes, values_of};
ghost use Rattle.app_laws.specs.Applications.{PathsAreIgnored, AreFitStarts, IsFitTask, handed, starts_of};
ghost use Rattle.app_laws.specs.Execution.{start_of, children_from, first_from};
ghost use Rattle.app_laws.specs.Lower.{LowerLaws};
ghost use Rattle.app_laws.specs.Order.{AreApart, Pairwise};
ghost use Rattle.app_laws.specs.Renumbering.{AreRenumbered};
ghost use Rattle.app_laws.specs.Serial.{IsRun, IsFault};

use crate::{App, Child, ChildList, SetAnswer, act_by_bundle, lawful, naming_laws, starts_by_path};
use cell_store::{Held, Store, value_laws};
use kdg_text::{NoRoom, Steps, Text};
use std::alloc::Global;
use std::marker::Brand;
use std::mem;
use std::sync::ledger::{Blank, Ledger};
use task_order::{Body, Key, Path, Start, StartList, Task, TaskList, key_order, put_in_laws};

/// What a run leaves that has ended.
#[derive(Drop)]
pub struct Finals<V: Held> {
    /// The cells after the last task, all of them home.
    pub store: Store<V>,
    /// What the tasks wrote, in the order of their keys, joined.
    pub text: Text,
    /// How many tasks ran.
    pub count: u64,
}

/// Why a run did not end.
#[derive(Clone, Copy, Debug, PartialEq, Eq)]
pub enum SerialFault {
    /// More tasks were created than allowed.
    Budget {
        /// How many were created when there first were more than allowed.
        created: u64,
        /// How many are allowed.
        limit: u64,
    },
    /// No memory was to be had.
    NoRoom,
}

impl From<NoRoom> for SerialFault {
    ghost use Rattle.std.specs.Prelude.{◌≡◌};
    ghost use Rattle.app_laws.specs.declared.serial_run.SerialFault.TheVariants.{NoRoom};

    ghost from_gives = { λ _ fault. fault ≡ NoRoom };

    fn from(_: NoRoom) -> SerialFault {
        SerialFault::NoRoom
    }
}

/// Runs the earliest pending task, until none is pending or more than `budget` were created. What
/// was handed in is dropped after a fault.
pub fn serial<A: App>(
    alloc: Global,
    app: &A,
    cells: Vec<A::Val>,
    first: StartList,
    budget: u64,
) -> Result<Finals<A::Val>, SerialFault>
    requires fit_cells { (A.meaning app.now).is_fit_cells cells.items }
    requires fit_first { AreFitStarts (A.meaning app.now) first }
    requires few { length first < 2 ^ 32 }
    requires budget { budget ≤ 1_000_000_000 }
    ensures run { IfOk result (IsRun (A.meaning app.now).act budget (start_of cells.items first)) }
    ensures fit { IfOk result (λ finals. (A.meaning app.now).is_fit_cells (values_of finals.store)) }
    ensures fault { IfErr result (IsFault (A.meaning app.now).act budget (start_of cells.items first)) }
{
    counted_run::<A, Brand>(alloc, app, cells, first, budget, Blank::new(1))
}

/// The run, with a count of the sets that it asks for. Now and then the pending tasks get short paths,
/// since long ones take time to compare.
fn counted_run<A: App, L: Ledger>(
    alloc: Global,
    app: &A,
    cells: Vec<A::Val>,
    first: StartList,
    budget: u64,
    blank: Blank,
) -> Result<Finals<A::Val>, SerialFault>
    requires name { blank.name ≡ L.name }
    requires parts { blank.parts ≡ L.parts }
    requires some { 0 < blank.parts }
    requires fit_cells { (A.meaning app.now).is_fit_cells cells.items }
    requires fit_first { AreFitStarts (A.meaning app.now) first }
    requires few { length first < 2 ^ 32 }
    requires budget { budget ≤ 1_000_000_000 }
    ensures run { IfOk result (IsRun (A.meaning app.now).act budget (start_of cells.items first)) }
    ensures fit { IfOk result (λ finals. (A.meaning app.now).is_fit_cells (values_of finals.store)) }
    ensures fault { IfErr result (IsFault (A.meaning app.now).act budget (start_of cells.items first)) }
{
    lower_laws();
    lawful::<A>();
    value_laws::<A::Val>();
    let mut steps = Steps::<L>::new(blank);
    let starts = first.items();
    within(starts.len() as u64, budget)?;
    let mut pending = first_tasks(alloc, starts)?;
    let mut store = store_of(alloc, app, cells)?;
    let mut text = Text::new(alloc);
    let mut count = 0u64;
    let mut since = 0u64;
    while let Some(task) = pending.take_first() {
        let (children, written) = act(app, &task, &mut store, &mut steps)?;
        count += 1;
        let made = children.items();
        within(count + pending.len() as u64 + made.len() as u64, budget)?;
        put_children(&mut pending, &task.key, made)?;
        append(&mut text, &written)?;
        since = shortened(alloc, app, &mut pending, since + 1)?;
    }
    Ok(Finals { store, text, count })
}

/// Gives the pending tasks short paths where that pays, when `since` tasks ran since it was last looked
/// whether the earliest one's path is long, and the application ignores paths. Answers how many ran since.
#[inline(always)]
fn shortened<A: App>(
    alloc: Global,
    app: &A,
    pending: &mut TaskList,
    since: u64,
) -> Result<u64, NoRoom>
    requires few { length pending.old < 2 ^ 32 }
    requires apart { Pairwise (λ task other. AreApart task.key.path other.key.path) pending.old }
    ensures pending { OnOk result ((pending.new ≡ pending.old) ⊎ (PathsAreIgnored (A.meaning app.now) × AreRenumbered pending.old pending.new)) }
    ensures since { IfOk result (λ left. left ≤ since) }
{
    if !new_paths_pay(since, pending.len()) {
        return Ok(since);
    }
    if app.ignores_paths() && begins_long(pending) {
        let tasks = mem::replace(pending, TaskList::new(alloc));
        *pending = renamed(alloc, tasks)?;
    }
    Ok(0)
}

/// Whether new paths for `pending` tasks take little beside what the `ran` tasks took that acted since.
///
/// Each pending task gets a new path and is put into a new list, which takes about as long as to put in a
/// child. Where 32 tasks ran for each of them, that is a small part of their time, while no path has grown
/// by more than those tasks. The 4 is for what new paths take however few are pending: where one task
/// follows another, 160 run from one time to the next.
#[inline(always)]
pub fn new_paths_pay(ran: u64, pending: usize) -> bool
    ensures { IsTrue result ↔ (pending + 4 ≤ ran / 32) }
{
    ran / 32 >= (pending as u64).saturating_add(4)
}

/// Whether the earliest task's path is long.
#[inline(never)]
fn begins_long(pending: &TaskList) -> bool {
    match pending.first() {
        Some(task) => task.key.path.is_long(),
        None => false,
    }
}

/// Gives tasks paths of one number: they are numbered in the order of their paths, as first
/// tasks are. So they keep their order, and their children theirs among them.
#[inline(never)]
fn renamed(alloc: Global, mut pending: TaskList) -> Result<TaskList, NoRoom>
    requires few { length pending < 2 ^ 32 }
    requires apart { Pairwise (λ task other. AreApart task.key.path other.key.path) pending }
    ensures { IfOk result (AreRenumbered pending) }
{
    naming_laws();
    let mut tasks = Vec::with_capacity(alloc, pending.len())?;
    while let Some(task) = pending.take_first() {
        tasks.push(task)?;
    }
    let first = starts_by_path(tasks)?;
    first_tasks(alloc, &first)
}

/// Appends what a task wrote, which mostly is nothing.
#[inline(always)]
fn append(text: &mut Text, written: &Text) -> Result<(), NoRoom>
    ensures { OnOk result (text.new ≡ text.old ++ written.now) }
{
    if written.is_empty() {
        return Ok(());
    }
    text.push_all(written.bytes())
}

/// What the crates below promise of keys and lists of tasks, as one.
pub(crate) fn lower_laws()
    ensures { LowerLaws }
{
    key_order();
    put_in_laws();
}

/// Refuses a number of created tasks that is above the limit.
#[inline(always)]
fn within(created: u64, limit: u64) -> Result<(), SerialFault>
    ensures ok { OnOk result (created ≤ limit) }
    ensures over { IfErr result (λ fault. (fault ≡ SerialFault.Budget created limit) × (limit < created)) }
{
    if created <= limit {
        Ok(())
    } else {
        Err(SerialFault::Budget { created, limit })
    }
}

/// A store of the application's cells, all of them home. After `NoRoom` they are dropped.
pub fn store_of<A: App>(alloc: Global, app: &A, cells: Vec<A::Val>) -> Result<Store<A::Val>, NoRoom>
    requires { (A.meaning app.now).is_fit_cells cells.items }
    ensures { IfOk result (λ store. store ≡ homes cells.items) }
{
    // As many as this number, which is below 2^32.
    let _count: u32 = app.cells();
    Store::new(alloc, cells)
}

/// Lets a task act on the cells, which are all home: finds out its set, and runs it on them there. The
/// answer is its children and its text.
#[inline(always)]
pub fn act<A: App, L: Ledger>(
    app: &A,
    task: &Task,
    store: &mut Store<A::Val>,
    steps: &mut Steps<L>,
) -> Result<(ChildList, Text), NoRoom>
    requires fit { IsFitTask (A.meaning app.now) task.now }
    requires home { store.old ≡ homes (values_of store.old) }
    requires cells { (A.meaning app.now).is_fit_cells (values_of store.old) }
    ensures store { let outcome = (A.meaning app.now).act task.now (values_of store.old) in
        OnOk result (store.new ≡ homes outcome.cells) }
    ensures children { let outcome = (A.meaning app.now).act task.now (values_of store.old) in
        IfOk result (λ made. made.0 ≡ map (handed (A.meaning app.now) outcome.cells) outcome.children) }
    ensures text { let outcome = (A.meaning app.now).act task.now (values_of store.old) in
        IfOk result (λ made. made.1 ≡ outcome.text) }
{
    lawful::<A>();
    value_laws::<A::Val>();
    if app.works_at_home() {
        return app.run_at_home(task, store);
    }
    let set = match app.sets(&task.body, store, steps)? {
        SetAnswer::Known(set) => set,
        SetAnswer::Out(_) => unreachable!(),
    };
    act_by_bundle(app, task, &set, store)
}

/// The first tasks, with their keys.
pub fn first_tasks(alloc: Global, first: &[Start]) -> Result<TaskList, NoRoom>
    requires few { length first.now < 2 ^ 32 }
    ensures tasks { IfOk result (λ tasks. tasks ≡ put_all (first_from 0 first.now) []) }
{
    let mut pending = TaskList::new(alloc);
    for (number, start) in first.iter().enumerate() {
        let key = Key {
            prio: start.prio,
            path: Path::root(alloc, number as u32)?,
        };
        put(&mut pending, key, start.body)?;
    }
    Ok(pending)
}

/// Puts the children of a task among the pending ones. After `NoRoom` some are among them.
#[inline(always)]
pub fn put_children(pending: &mut TaskList, parent: &Key, children: &[Child]) -> Result<(), NoRoom>
    requires few { length children.now < 2 ^ 32 }
    requires not_earlier { AllByRecursion (λ child. parent.now.prio ≤ child.prio) children.now }
    requires new { AllByRecursion (λ task. IsNewKey task.key pending.old) (children_from parent.now 0 (starts_of children.now)) }
    ensures put { OnOk result (pending.new ≡ put_all (children_from parent.now 0 (starts_of children.now)) pending.old) }
{
    for (number, child) in children.iter().enumerate() {
        put(
            pending,
            parent.child(number as u32, child.prio)?,
            child.body,
        )?;
    }
    Ok(())
}

/// Puts a task with a new key among the pending ones.
#[inline(always)]
fn put(pending: &mut TaskList, key: Key, body: Body) -> Result<(), NoRoom>
    requires new { IsNewKey key pending.old }
    ensures put { OnOk result (pending.new ≡ put_in (record { key = key; body = body }) pending.old) }
{
    pending.insert(Task { key, body }).map_err(|_| NoRoom)
}
