ghost use Rattle.std.specs.Prelude.{◌≡◌, ◌+◌, ◌-◌, ◌<◌, ◌≤◌, ◌⊎◌, ◌^◌, suc, true, false, [], ◌∷◌, ◌++◌, length, take, drop, slice_get, IfOk, IfErr, Some, IfSome, IfNone, OnOk, OnErr, slice_set};
ghost use Rattle.std.specs.Bool.{OnTrue, OnFalse};
ghost use Rattle.std.specs.List.{AllByRecursion, insert, remove};
ghost use Rattle.std.specs.List.Sorted.{IsPartitionPoint};
ghost use Rattle.std.specs.Iterator.{at_most};
ghost use Rattle.std.specs.Map.Iter.{deref, TakesFirst};
ghost use Rattle.std.specs.Option.{option_map};
ghost use Rattle.task_order.specs.Blocks.{tasks_in, starts_by, block_at, full_length, IsFilled, IsGapless, IsPlace, IsFound, IsElsewhere, HasRoom, IsFull, IsFree, AreOthersFilled};
ghost use Rattle.task_order.specs.TaskList.{IsAscending, IsNewKey, put_in, tasks_before, without};

use crate::block::Block;
use crate::{Key, Task};
use kdg_text::NoRoom;
use std::alloc::Global;
use std::collections::{VecDeque, vec_deque};
use std::marker::Model;

/// How many times as many blocks a step of a search passes as one that comes later.
const BRANCH: usize = 8;

/// How many tasks stay in a full block that is cut in two, at least.
const HALF: usize = 32;

/// The blocks of a list of tasks, in order.
#[derive(Drop)]
pub(crate) struct Blocks {
    blocks: VecDeque<Block>,
    // behind the task that was put in last; should that be another place by now, a search takes longer
    recent: (usize, usize),
}

impl Model for Blocks {
    ghost use Rattle.std.specs.Prelude.{List};
    ghost use Rattle.task_order.specs.declared.task.Task.{Task};

    ghost Value = { List (List Task) };

    ghost view = { λ blocks. blocks.blocks.items };
}

/// How many of the first blocks have a first task of at most this priority, and at this priority of at
/// most this beginning, as far as the blocks know: in strides that become shorter, since a step that
/// doesn't wait for the one before costs less than a step of a search by halves.
fn started_in(blocks: &[Block], prio: u64, beginning: u64) -> usize
    ensures { result ≤ length blocks.now }
{
    let mut count: usize = 0;
    let mut stride = longest_stride(blocks.len());
    while stride > 1 {
        while is_started_within_at(blocks, count.saturating_add(stride - 1), prio, beginning) {
            count += stride;
        }
        stride /= BRANCH;
    }
    while is_started_within_at(blocks, count, prio, beginning) {
        count += 1;
    }
    count
}

/// How many of `count` blocks the first steps of a search pass.
fn longest_stride(count: usize) -> usize
    ensures { 1 ≤ result }
{
    let most = count / BRANCH;
    let mut stride = 1;
    while stride < most {
        stride *= BRANCH;
    }
    stride
}

/// Whether there is a block at a place whose first task has at most this priority and beginning.
fn is_started_within_at(blocks: &[Block], at: usize, prio: u64, beginning: u64) -> bool
    ensures inside { OnTrue result (at < length blocks.now) }
    ensures small { length blocks.now < 2 ^ 63 }
{
    at < blocks.len() && blocks[at].starts_within(prio, beginning)
}

impl Blocks {
    /// No blocks, which take no memory.
    pub(crate) fn new(alloc: Global) -> Blocks
        ensures { result ≡ [] }
    {
        Blocks {
            blocks: VecDeque::new(alloc),
            recent: (0, 0),
        }
    }

    /// Where a key belongs: which block, and before how many of its tasks.
    pub(crate) fn place_of(&self, key: &Key) -> (usize, usize)
        requires ascending { IsAscending (tasks_in self.now) }
        requires gapless { IsGapless self.now }
        ensures { IsPlace key.now self.now result.0 result.1 }
    {
        match self.end_for(key) {
            Some(end) => end,
            None => match self.near(self.recent.0, self.recent.1, key) {
                Some(near) => near,
                None => self.place_among(key),
            },
        }
    }

    /// Where a key belongs, which is the front, or else is found by what the blocks know or by a search. It
    /// stays a call, so that the usual ways are short.
    #[inline(never)]
    fn place_among(&self, key: &Key) -> (usize, usize)
        requires ascending { IsAscending (tasks_in self.now) }
        requires gapless { IsGapless self.now }
        ensures { IsPlace key.now self.now result.0 result.1 }
    {
        if !self.is_started_at(0, key) {
            return (0, 0);
        }
        match self.place_by_first(key) {
            Some(place) => place,
            None => self.search(key),
        }
    }

    /// Where a key belongs, if that is close behind the task before a place: children of tasks in turn
    /// mostly go to places in turn, and tasks mostly leave in turn.
    fn near(&self, at: usize, start: usize, key: &Key) -> Option<(usize, usize)>
        requires ascending { IsAscending (tasks_in self.now) }
        requires gapless { IsGapless self.now }
        ensures { IfSome result (λ near. IsPlace key.now self.now near.0 near.1) }
    {
        if at >= self.count() {
            return None;
        }
        let place = self.blocks[at].place_near(start, key)?;
        self.unless_next_starts(at, place, key)
    }

    /// Whether there is a block at a place whose first task is not later than the key.
    fn is_started_at(&self, at: usize, key: &Key) -> bool
        ensures starts { result ≡ starts_by key.now (block_at self.now at) }
        ensures inside { OnTrue result (at < length self.now) }
    {
        match self.blocks.get(at) {
            Some(block) => block.starts_by(key),
            None => false,
        }
    }

    /// The end of the last block, where its last task is earlier than the key.
    fn end_for(&self, key: &Key) -> Option<(usize, usize)>
        requires { IsAscending (tasks_in self.now) }
        ensures { IfSome result (λ end. IsPlace key.now self.now end.0 end.1) }
    {
        let at = self.count().checked_sub(1)?;
        let len = self.block_len(at);
        let last = self.get(at, len.checked_sub(1)?)?;
        if last.key.compare(key).is_lt() {
            Some((at, len))
        } else {
            None
        }
    }

    /// Where a key belongs, where that is behind an earlier task of its block, by what the blocks know of
    /// their first tasks.
    fn place_by_first(&self, key: &Key) -> Option<(usize, usize)>
        requires ascending { IsAscending (tasks_in self.now) }
        requires gapless { IsGapless self.now }
        ensures { IfSome result (λ found. IsPlace key.now self.now found.0 found.1) }
    {
        let next = self.started_within(key.prio, key.path.beginning());
        let at = next.checked_sub(1)?;
        let goes_on = self.is_started_within(next, key.prio);
        let place = self.blocks[at].place_behind(key, goes_on)?;
        self.unless_next_starts(at, place, key)
    }

    /// How many blocks seem to have a first task of at most this priority and beginning, by a search in
    /// one of the two parts of the queue.
    fn started_within(&self, prio: u64, beginning: u64) -> usize
        ensures { result ≤ length self.now }
    {
        let (front, back) = self.blocks.as_slices();
        if is_started_within_at(back, 0, prio, beginning) {
            front.len() + started_in(back, prio, beginning)
        } else {
            started_in(front, prio, beginning)
        }
    }

    /// Whether there is a block at a place whose first task has at most this priority.
    fn is_started_within(&self, at: usize, prio: u64) -> bool {
        match self.blocks.get(at) {
            Some(block) => block.starts_within(prio, u64::MAX),
            None => false,
        }
    }

    /// A place in a block, unless it is the end, and the next block's first task is not later than the
    /// key.
    fn unless_next_starts(&self, at: usize, place: usize, key: &Key) -> Option<(usize, usize)>
        requires ascending { IsAscending (tasks_in self.now) }
        requires gapless { IsGapless self.now }
        requires inside { at < length self.now }
        requires counts { at + 1 < 2 ^ 64 }
        requires some { 0 < place }
        requires found { place ≡ length (tasks_before key.now (block_at self.now at)) }
        ensures { IfSome result (λ found. IsPlace key.now self.now found.0 found.1) }
    {
        if place < self.block_len(at) {
            return Some((at, place));
        }
        if self.is_started_at(at + 1, key) {
            return None;
        }
        Some((at, place))
    }

    /// Where a key belongs, by a search.
    fn search(&self, key: &Key) -> (usize, usize)
        requires ascending { IsAscending (tasks_in self.now) }
        requires gapless { IsGapless self.now }
        ensures { IsPlace key.now self.now result.0 result.1 }
    {
        match self.started_by(key).checked_sub(1) {
            Some(at) => (at, self.blocks[at].rank(key)),
            None => (0, 0),
        }
    }

    /// How many blocks there are.
    fn count(&self) -> usize
        ensures { result ≡ length self.now }
    {
        self.blocks.len()
    }

    /// How many blocks have a first task that is not later than the key, in the same way.
    fn started_by(&self, key: &Key) -> usize
        requires ascending { IsAscending (tasks_in self.now) }
        requires gapless { IsGapless self.now }
        ensures bound { result ≤ length self.now }
        ensures point { IsPartitionPoint (λ block. starts_by key.now block ≡ true) (λ block. starts_by key.now block ≡ false) self.now result }
    {
        let mut count: usize = 0;
        let mut stride = longest_stride(self.count());
        while stride > 1 {
            while self.is_started_at(count.saturating_add(stride - 1), key) {
                count += stride;
            }
            stride /= BRANCH;
        }
        while self.is_started_at(count, key) {
            count += 1;
        }
        count
    }

    /// Whether there is a block at a place that isn't full.
    fn has_room(&self, at: usize) -> bool
        ensures room { OnTrue result (HasRoom self.now at) }
        ensures full { OnFalse result (IsFull self.now at) }
    {
        match self.blocks.get(at) {
            Some(block) => !block.is_full(),
            None => false,
        }
    }

    /// Where a task with a new key comes into a block that isn't full. A full one is cut in two for
    /// it, or has a new one put before or behind it.
    pub(crate) fn make_place(&mut self, key: &Key) -> Result<(usize, usize), NoRoom>
        requires ascending { IsAscending (tasks_in self.old) }
        requires gapless { IsGapless self.old }
        requires new { IsNewKey key.now (tasks_in self.old) }
        ensures place { IfOk result (λ found. IsPlace key.now self.new found.0 found.1) }
        ensures free { IfOk result (λ found. IsFree self.new found.0) }
        ensures tasks { OnOk result (tasks_in self.new ≡ tasks_in self.old) }
        ensures unchanged { OnErr result (self.new ≡ self.old) }
    {
        let (at, place) = self.place_of(key);
        if self.has_room(at) {
            return Ok((at, place));
        }
        if self.blocks.is_empty() {
            self.insert_block(0)?;
            return Ok((0, 0));
        }
        if at == 0 && place == 0 {
            self.insert_block(0)?;
            return Ok((0, 0));
        }
        if place == self.block_len(at) {
            self.insert_block(at + 1)?;
            return Ok((at + 1, 0));
        }
        self.split(at, place.max(HALF))?;
        Ok((at, place))
    }

    /// Puts a task where its key belongs, into a block that isn't full.
    pub(crate) fn put(&mut self, at: usize, place: usize, task: Task)
        requires free { IsFree self.old at }
        requires place { IsPlace task.key self.old at place }
        ensures tasks { tasks_in self.new ≡ put_in task (tasks_in self.old) }
        ensures gapless { IsGapless self.new }
    {
        self.put_into(at, place, task);
    }

    /// Puts a task into a block that isn't full.
    fn put_into(&mut self, at: usize, place: usize, task: Task)
        requires room { HasRoom self.old at }
        requires place { place ≤ length (block_at self.old at) }
        ensures { self.new ≡ slice_set self.old at (insert (block_at self.old at) place task) }
    {
        self.recent = (at, place + 1);
        self.blocks[at].put(place, task);
    }

    /// How many tasks a block has.
    fn block_len(&self, at: usize) -> usize
        requires { at < length self.now }
        ensures len { result ≡ length (block_at self.now at) }
        ensures few { result ≤ full_length }
    {
        self.blocks[at].len()
    }

    /// Drops a block.
    #[cold]
    #[inline(never)]
    fn remove_block(&mut self, at: usize)
        requires { at < length self.old }
        ensures { self.new ≡ remove self.old at }
    {
        if at < self.recent.0 {
            self.recent.0 -= 1;
        }
        let _ = self.blocks.remove(at);
    }

    /// Takes a task out of a block.
    fn remove_from(&mut self, at: usize, place: usize) -> Task
        requires at { at < length self.old }
        requires place { place < length (block_at self.old at) }
        ensures task { slice_get (block_at self.old at) place ≡ Some result }
        ensures left { self.new ≡ slice_set self.old at (remove (block_at self.old at) place) }
    {
        if at == self.recent.0 && place < self.recent.1 {
            self.recent.1 -= 1;
        }
        self.blocks[at].remove(place)
    }

    /// Drops a block that is empty, unless it is the only one.
    fn drop_empty(&mut self, at: usize)
        requires at { at < length self.old }
        requires others { AreOthersFilled self.old at }
        ensures tasks { tasks_in self.new ≡ tasks_in self.old }
        ensures gapless { IsGapless self.new }
    {
        if self.blocks.len() > 1 && self.block_len(at) == 0 {
            self.remove_block(at);
        }
    }

    /// The place of the task with this key, where there is one.
    pub(crate) fn find(&self, key: &Key) -> Option<(usize, usize)>
        requires ascending { IsAscending (tasks_in self.now) }
        requires gapless { IsGapless self.now }
        ensures found { IfSome result (λ found. IsFound key.now self.now found.0 found.1) }
        ensures absent { IfNone result (IsNewKey key.now (tasks_in self.now)) }
    {
        let (at, place) = self.place_of(key);
        self.found_at(at, place, key)
    }

    /// The place, if the task there has the key.
    fn found_at(&self, at: usize, place: usize, key: &Key) -> Option<(usize, usize)>
        ensures found { IfSome result (λ found. IsFound key.now self.now found.0 found.1) }
        ensures absent { IfNone result (IsElsewhere key.now self.now at place) }
    {
        match self.get(at, place) {
            Some(task) if task.key.compare(key).is_eq() => Some((at, place)),
            _ => None,
        }
    }

    /// Takes the task with this key out, where it was found.
    pub(crate) fn remove(&mut self, at: usize, place: usize) -> Task
        requires ascending { IsAscending (tasks_in self.old) }
        requires gapless { IsGapless self.old }
        requires inside { at < length self.old }
        requires place { place < length (block_at self.old at) }
        ensures task { slice_get (block_at self.old at) place ≡ Some result }
        ensures left { tasks_in self.new ≡ without result.key (tasks_in self.old) }
        ensures gapless { IsGapless self.new }
    {
        let task = self.remove_from(at, place);
        self.drop_empty(at);
        task
    }

    /// Takes the first task out.
    pub(crate) fn take_first(&mut self) -> Option<Task>
        requires { IsGapless self.old }
        ensures first { IfSome result (λ task. tasks_in self.old ≡ task ∷ tasks_in self.new) }
        ensures empty { IfNone result (tasks_in self.old ≡ []) }
        ensures unchanged { IfNone result (self.new ≡ self.old) }
        ensures gapless { IsGapless self.new }
    {
        if self.blocks.is_empty() {
            return None;
        }
        if self.recent.0 == 0 {
            self.recent.1 = self.recent.1.saturating_sub(1);
        }
        let task = self.blocks[0].take_first()?;
        self.drop_empty(0);
        Some(task)
    }

    /// How many tasks are earlier than the key.
    pub(crate) fn rank(&self, key: &Key) -> usize
        requires ascending { IsAscending (tasks_in self.now) }
        requires gapless { IsGapless self.now }
        requires small { length (tasks_in self.now) < 2 ^ 63 }
        ensures { result ≡ length (tasks_before key.now (tasks_in self.now)) }
    {
        let (at, place) = self.place_of(key);
        let mut rank = place;
        for i in 0..at {
            rank += self.block_len(i);
        }
        rank
    }

    /// The first task.
    pub(crate) fn first(&self) -> Option<&Task>
        requires { IsGapless self.now }
        ensures { option_map deref result ≡ slice_get (tasks_in self.now) 0 }
    {
        self.get(0, 0)
    }

    /// The task at a place of a block.
    pub(crate) fn get(&self, at: usize, place: usize) -> Option<&Task>
        ensures { option_map deref result ≡ slice_get (block_at self.now at) place }
    {
        self.blocks.get(at)?.get(place)
    }

    /// Makes a new block, which is empty.
    #[cold]
    #[inline(never)]
    fn insert_block(&mut self, at: usize) -> Result<(), NoRoom>
        requires { at ≤ length self.old }
        ensures ok { OnOk result (self.new ≡ insert self.old at []) }
        ensures unchanged { OnErr result (self.new ≡ self.old) }
    {
        let block = Block::empty(*self.blocks.allocator())?;
        self.blocks.insert(at, block).map_err(|_| NoRoom)
    }

    /// Cuts a block in two.
    #[cold]
    #[inline(never)]
    fn split(&mut self, at: usize, place: usize) -> Result<(), NoRoom>
        requires at { at < length self.old }
        requires place { place ≤ length (block_at self.old at) }
        ensures ok { OnOk result (self.new ≡ take at self.old ++ take place (block_at self.old at) ∷ drop place (block_at self.old at) ∷ drop (at + 1) self.old) }
        ensures unchanged { OnErr result (self.new ≡ self.old) }
    {
        self.blocks.reserve(1)?;
        let rest = self.blocks[at].split_off(place)?;
        match self.blocks.insert(at + 1, rest) {
            Ok(()) => Ok(()),
            Err(_) => unreachable!(),
        }
    }

    /// The tasks, in order.
    pub(crate) fn iter(&self) -> Tasks<'_>
        ensures { result ≡ tasks_in self.now }
    {
        Tasks {
            tasks: None,
            blocks: self.blocks.iter(),
        }
    }
}

/// The tasks of a list, in order, seen as the list of those that are left.
#[derive(Drop)]
pub struct Tasks<'a> {
    tasks: Option<vec_deque::Iter<'a, Task>>,
    blocks: vec_deque::Iter<'a, Block>,
}

impl<'a> Model for Tasks<'a> {
    ghost use Rattle.std.specs.Prelude.{List, ◌++◌};
    ghost use Rattle.std.specs.VecDeque.Iter.{deque_iter_rest};
    ghost use Rattle.task_order.specs.declared.task.Task.{Task};
    ghost use Rattle.task_order.specs.Blocks.{tasks_in};
    ghost use Rattle.task_order.specs.Left.{tasks_left};

    ghost Value = { List Task };

    ghost view = { λ tasks. tasks_left tasks.tasks ++ tasks_in (deque_iter_rest tasks.blocks) };
}

impl<'a> Iterator for Tasks<'a> {
    type Item = &'a Task;

    ghost next_gives = { TakesFirst deref };

    ghost remaining = { λ tasks. at_most (length tasks) };

    fn next(&mut self) -> Option<&'a Task> {
        loop {
            if let Some(tasks) = &mut self.tasks {
                if let Some(task) = tasks.next() {
                    return Some(task);
                }
            }
            self.tasks = Some(self.blocks.next()?.iter());
        }
    }
}
