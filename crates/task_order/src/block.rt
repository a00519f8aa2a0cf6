ghost use Rattle.std.specs.Prelude.{◌≡◌, ◌+◌, ◌<◌, ◌≤◌, ◌-◌, ◌^◌, Some, [], ◌∷◌, ◌++◌, length, take, drop, slice_get, slice_index_or, IfOk, IfSome, IfNone, OnOk, OnErr, IsTrue, ◌↔◌};
ghost use Rattle.std.specs.Bool.{OnTrue, OnFalse};
ghost use Rattle.std.specs.List.{insert, remove};
ghost use Rattle.std.specs.Map.Iter.{deref};
ghost use Rattle.std.specs.Option.{option_map};
ghost use Rattle.std.specs.VecDeque.{deque_len, deque_capacity};
ghost use Rattle.std.specs.VecDeque.Iter.{deque_iter_rest};
ghost use Rattle.task_order.specs.declared.task.Task.{Task};
ghost use Rattle.task_order.specs.Key.{key_cmp};
ghost use Rattle.task_order.specs.TaskList.{IsAscending, tasks_before};
ghost use Rattle.task_order.specs.Blocks.{starts_by, full_length, IsEndOfPriority, IsFirstPriority, IsFirstBeginning};

use crate::{Key, Task};
use kdg_text::NoRoom;
use std::alloc::Global;
use std::cmp::Ordering;
use std::collections::{VecDeque, vec_deque};
use std::marker::Model;

/// How many tasks a block has when it is full.
const FULL: usize = 64;

/// How many tasks a search in a block passes at once.
const STRIDE: usize = 8;

/// How many tasks a search passes that begins near its end.
const NEAR: usize = 8;

/// How many tasks of its priority a key may come before, to be found from their end.
const LAST: usize = 2;

/// A part of a list of tasks.
#[derive(Drop)]
pub(crate) struct Block {
    tasks: VecDeque<Task>,
    // the first task's priority, and the beginning of its path, so that a search among blocks seldom
    // reads a task
    first_prio: u64,
    first_beginning: u64,
}

impl Model for Block {
    ghost use Rattle.std.specs.Prelude.{List};
    ghost use Rattle.task_order.specs.declared.task.Task.{Task};
    ghost use Rattle.std.specs.VecDeque.{deque_capacity};
    ghost use Rattle.task_order.specs.Blocks.{IsBlock};

    ghost Value = { List Task };

    ghost view = { λ block. block.tasks.items };

    ghost invariant = { λ block. IsBlock block.first_prio block.first_beginning block.tasks.items (deque_capacity block.tasks) };
}

/// The first task's priority, if there is one.
fn prio_of_first(tasks: &VecDeque<Task>) -> u64
    ensures { IsFirstPriority result tasks.now.items }
{
    match tasks.front() {
        Some(first) => first.key.prio,
        None => 0,
    }
}

/// The beginning of the first task's path, if there is one.
fn beginning_of_first(tasks: &VecDeque<Task>) -> u64
    ensures { IsFirstBeginning result tasks.now.items }
{
    match tasks.front() {
        Some(first) => first.key.path.beginning(),
        None => 0,
    }
}

/// Puts a task at a place, which usually is an end, where there is room for it.
fn put_at(tasks: &mut VecDeque<Task>, place: usize, task: Task)
    requires place { place ≤ length tasks.old.items }
    requires room { deque_len tasks.old < deque_capacity tasks.old }
    ensures tasks { tasks.new.items ≡ insert tasks.old.items place task }
    ensures capacity { deque_capacity tasks.old ≤ deque_capacity tasks.new }
{
    if place == tasks.len() {
        tasks.push_back_reserved(task);
        return;
    }
    if place == 0 {
        tasks.push_front_reserved(task);
        return;
    }
    match tasks.insert(place, task) {
        Ok(()) => {}
        Err(_) => unreachable!(),
    }
}

/// Moves the tasks from a place on to another queue, which is empty and has room for them.
fn move_end(tasks: &mut VecDeque<Task>, place: usize, end: &mut VecDeque<Task>)
    requires place { place ≤ length tasks.old.items }
    requires empty { end.old.items ≡ [] }
    requires room { deque_len tasks.old ≤ place + deque_capacity end.old }
    ensures front { tasks.new.items ≡ take place tasks.old.items }
    ensures end { end.new.items ≡ drop place tasks.old.items }
    ensures front_capacity { deque_capacity tasks.new ≡ deque_capacity tasks.old }
    ensures end_capacity { deque_capacity end.new ≡ deque_capacity end.old }
{
    while tasks.len() > place {
        let Some(task) = tasks.pop_back() else {
            unreachable!()
        };
        end.push_front_reserved(task);
    }
}

/// How many of the first tasks have at most this priority: in strides, and then one by one, since a step
/// that doesn't wait for the one before costs less than a step of a search by halves.
fn end_in(tasks: &[Task], prio: u64) -> usize
    ensures { IsEndOfPriority prio tasks.now result }
{
    let mut end: usize = 0;
    while is_within_at(tasks, end.saturating_add(STRIDE - 1), prio) {
        end += STRIDE;
    }
    while is_within_at(tasks, end, prio) {
        end += 1;
    }
    end
}

/// Whether there is a task at a place that has at most this priority.
fn is_within_at(tasks: &[Task], place: usize, prio: u64) -> bool
    ensures inside { OnTrue result (place < length tasks.now) }
    ensures above { OnFalse result ((d : Task) → place < length tasks.now → prio < (slice_index_or tasks.now place d).key.prio) }
    ensures small { length tasks.now < 2 ^ 63 }
{
    if place >= tasks.len() {
        return false;
    }
    tasks[place].key.prio <= prio
}

impl Block {
    /// An empty block.
    pub(crate) fn empty(alloc: Global) -> Result<Block, NoRoom>
        ensures { IfOk result (λ block. block ≡ []) }
    {
        let tasks = VecDeque::with_capacity(alloc, FULL)?;
        Ok(Block {
            tasks,
            first_prio: 0,
            first_beginning: 0,
        })
    }

    /// How many tasks there are.
    pub(crate) fn len(&self) -> usize
        ensures len { result ≡ length self.now }
        ensures few { result ≤ full_length }
    {
        self.tasks.len()
    }

    /// Whether no more tasks should come in.
    pub(crate) fn is_full(&self) -> bool
        ensures { IsTrue result ↔ (full_length ≤ length self.now) }
    {
        self.len() >= FULL
    }

    /// The task at a place.
    pub(crate) fn get(&self, place: usize) -> Option<&Task>
        ensures { option_map deref result ≡ slice_get self.now place }
    {
        self.tasks.get(place)
    }

    /// The tasks, in order.
    pub(crate) fn iter(&self) -> vec_deque::Iter<'_, Task>
        ensures { deque_iter_rest result ≡ self.now }
    {
        self.tasks.iter()
    }

    /// How many of the tasks are earlier than the key: in strides, and then one by one.
    pub(crate) fn rank(&self, key: &Key) -> usize
        requires { IsAscending self.now }
        ensures { result ≡ length (tasks_before key.now self.now) }
    {
        let mut place: usize = 0;
        while self.is_earlier_at(place.saturating_add(STRIDE - 1), key) {
            place += STRIDE;
        }
        while self.is_earlier_at(place, key) {
            place += 1;
        }
        place
    }

    /// The place of a key, where it is at most a few tasks behind a place that is behind an earlier one.
    pub(crate) fn place_near(&self, start: usize, key: &Key) -> Option<usize>
        requires { IsAscending self.now }
        ensures place { IfSome result (λ place. place ≡ length (tasks_before key.now self.now)) }
        ensures some { IfSome result (λ place. 0 < place) }
    {
        if !self.is_earlier_at(start.checked_sub(1)?, key) {
            return None;
        }
        let mut place = start;
        while self.is_earlier_at(place, key) {
            if place == start && self.is_earlier_at(start.saturating_add(NEAR), key) {
                return None;
            }
            place += 1;
        }
        Some(place)
    }

    /// The place of a key that is behind an earlier task, where at most a few tasks of its priority come
    /// behind that place.
    fn place_by_prio(&self, key: &Key) -> Option<usize>
        requires { IsAscending self.now }
        ensures place { IfSome result (λ place. place ≡ length (tasks_before key.now self.now)) }
        ensures some { IfSome result (λ place. 0 < place) }
    {
        let end = self.up_to(key.prio);
        let mut place = end;
        while !self.is_earlier_at(place.checked_sub(1)?, key) {
            if end - place >= LAST {
                return None;
            }
            place -= 1;
        }
        Some(place)
    }

    /// The place of a key that is behind an earlier task, where its priority ends in this block or goes
    /// on.
    pub(crate) fn place_behind(&self, key: &Key, goes_on: bool) -> Option<usize>
        requires { IsAscending self.now }
        ensures place { IfSome result (λ place. place ≡ length (tasks_before key.now self.now)) }
        ensures some { IfSome result (λ place. 0 < place) }
    {
        if !goes_on {
            if let Some(place) = self.place_by_prio(key) {
                return Some(place);
            }
        }
        let place = self.rank(key);
        if place > 0 { Some(place) } else { None }
    }

    /// How many of the tasks have at most this priority. Often these are all.
    fn up_to(&self, prio: u64) -> usize
        ensures { IsEndOfPriority prio self.now result }
    {
        match self.tasks.back() {
            Some(last) if last.key.prio <= prio => self.tasks.len(),
            _ => self.end_of_prio(prio),
        }
    }

    /// How many tasks have at most this priority, by a search in one of the two parts of the queue.
    fn end_of_prio(&self, prio: u64) -> usize
        ensures { IsEndOfPriority prio self.now result }
    {
        let (front, back) = self.tasks.as_slices();
        if is_within_at(back, 0, prio) {
            front.len() + end_in(back, prio)
        } else {
            end_in(front, prio)
        }
    }

    /// Whether there is a task at a place that is earlier than the key.
    fn is_earlier_at(&self, place: usize, key: &Key) -> bool
        requires { IsAscending self.now }
        ensures counted { IsTrue result ↔ (place < length (tasks_before key.now self.now)) }
        ensures small { length self.now < 2 ^ 64 }
    {
        if place >= self.len() {
            return false;
        }
        self.tasks[place].key.compare(key).is_lt()
    }

    /// Whether the first task is not later than the key.
    pub(crate) fn starts_by(&self, key: &Key) -> bool
        ensures { result ≡ starts_by key.now self.now }
    {
        match self.first_prio.cmp(&key.prio) {
            Ordering::Less => self.len() > 0,
            Ordering::Equal => self.first_path_is_by(key),
            Ordering::Greater => false,
        }
    }

    /// Whether the first task has at most this priority, and at this priority at most this beginning of
    /// its path, as far as that is known without reading it.
    pub(crate) fn starts_within(&self, prio: u64, beginning: u64) -> bool {
        match self.first_prio.cmp(&prio) {
            Ordering::Less => true,
            Ordering::Equal => self.first_beginning <= beginning,
            Ordering::Greater => false,
        }
    }

    /// Whether the first task, which has the key's priority, is not later than the key: mostly its path
    /// begins otherwise.
    fn first_path_is_by(&self, key: &Key) -> bool
        requires { IsFirstPriority key.now.prio self.now }
        ensures { result ≡ starts_by key.now self.now }
    {
        match self.first_beginning.cmp(&key.path.beginning()) {
            Ordering::Less => self.len() > 0,
            Ordering::Equal => self.first_is_by(key),
            Ordering::Greater => false,
        }
    }

    /// Whether the first task is not later than the key, by the task itself.
    fn first_is_by(&self, key: &Key) -> bool
        ensures { result ≡ starts_by key.now self.now }
    {
        match self.tasks.front() {
            Some(first) => first.key.compare(key).is_le(),
            None => false,
        }
    }

    /// Puts a task at a place of a block that isn't full.
    pub(crate) fn put(&mut self, place: usize, task: Task)
        requires place { place ≤ length self.old }
        requires room { length self.old < full_length }
        ensures { self.new ≡ insert self.old place task }
    {
        if place == 0 {
            self.first_prio = task.key.prio;
            self.first_beginning = task.key.path.beginning();
        }
        put_at(&mut self.tasks, place, task);
    }

    /// Takes the task at a place out.
    pub(crate) fn remove(&mut self, place: usize) -> Task
        requires { place < length self.old }
        ensures task { slice_get self.old place ≡ Some result }
        ensures left { self.new ≡ remove self.old place }
    {
        let Some(task) = self.tasks.remove(place) else {
            unreachable!()
        };
        self.first_prio = prio_of_first(&self.tasks);
        self.first_beginning = beginning_of_first(&self.tasks);
        task
    }

    /// Takes the first task out.
    pub(crate) fn take_first(&mut self) -> Option<Task>
        ensures first { IfSome result (λ task. self.old ≡ task ∷ self.new) }
        ensures empty { IfNone result ((self.old ≡ []) × (self.new ≡ [])) }
    {
        let task = self.tasks.pop_front()?;
        self.first_prio = prio_of_first(&self.tasks);
        self.first_beginning = beginning_of_first(&self.tasks);
        Some(task)
    }

    /// Cuts the tasks from a place on off.
    pub(crate) fn split_off(&mut self, place: usize) -> Result<Block, NoRoom>
        requires { place ≤ length self.old }
        ensures ok { OnOk result (self.new ≡ take place self.old) }
        ensures rest { IfOk result (λ rest. rest ≡ drop place self.old) }
        ensures unchanged { OnErr result (self.new ≡ self.old) }
    {
        let mut tasks = VecDeque::with_capacity(*self.tasks.allocator(), FULL)?;
        move_end(&mut self.tasks, place, &mut tasks);
        let first_prio = prio_of_first(&tasks);
        let first_beginning = beginning_of_first(&tasks);
        Ok(Block {
            tasks,
            first_prio,
            first_beginning,
        })
    }
}
