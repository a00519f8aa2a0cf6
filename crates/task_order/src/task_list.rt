ghost use Rattle.std.specs.Prelude.{◌≡◌, ◌<◌, ◌^◌, ◌↔◌, [], ◌∷◌, Some, length, slice_get, IsTrue, IfSome, IfNone, IfErr, OnOk, OnErr};
ghost use Rattle.std.specs.List.{Contains};
ghost use Rattle.std.specs.Map.Iter.{ShowsInOrder, deref};
ghost use Rattle.std.specs.Option.{option_map};
ghost use Rattle.task_order.specs.declared.task.Task.{Task};
ghost use Rattle.task_order.specs.TaskList.{IsAscending, IsNewKey, put_in, tasks_before, without};

use crate::blocks::{Blocks, Tasks};
use crate::{Key, Task};
use std::alloc::Global;
use std::marker::Model;

/// How many tasks a list can have.
const MOST: usize = usize::MAX / 2;

/// Tasks in the order of their keys, each key once.
///
/// The tasks stand in blocks. To find a key takes time in the logarithm of the number of tasks; to
/// put one in or to take one out moves some tasks of its block besides, but none at the two ends.
#[derive(Drop)]
pub struct TaskList {
    blocks: Blocks,
    len: usize,
}

impl Model for TaskList {
    ghost use Rattle.std.specs.Prelude.{List};
    ghost use Rattle.task_order.specs.declared.task.Task.{Task};
    ghost use Rattle.task_order.specs.Blocks.{tasks_in, AreBlocks};

    ghost Value = { List Task };

    ghost view = { λ list. tasks_in list.blocks };

    ghost invariant = { λ list. AreBlocks list.blocks list.len };
}

impl TaskList {
    /// An empty list, which takes no memory.
    pub fn new(alloc: Global) -> TaskList
        ensures { result ≡ [] }
    {
        TaskList {
            blocks: Blocks::new(alloc),
            len: 0,
        }
    }

    /// How many tasks there are.
    pub fn len(&self) -> usize
        ensures len { result ≡ length self.now }
        ensures ascending { IsAscending self.now }
        ensures small { result < 2 ^ 63 }
    {
        self.len
    }

    /// Whether there is no task.
    pub fn is_empty(&self) -> bool
        ensures { IsTrue result ↔ (self.now ≡ []) }
    {
        self.len == 0
    }

    /// The task at a place in the order, counted from 0. This walks to it: to go over all tasks,
    /// use `iter`.
    pub fn at(&self, i: usize) -> &Task
        requires { i < length self.now }
        ensures { slice_get self.now i ≡ Some result.now }
    {
        self.iter().nth(i).unwrap()
    }

    /// The earliest task.
    pub fn first(&self) -> Option<&Task>
        ensures { option_map deref result ≡ slice_get self.now 0 }
    {
        self.blocks.first()
    }

    /// The task with this key, where there is one.
    pub fn get(&self, key: &Key) -> Option<&Task>
        ensures found { IfSome result (λ task. (task.now.key ≡ key.now) × Contains self.now task.now) }
        ensures absent { IfNone result (IsNewKey key.now self.now) }
    {
        let (at, place) = self.blocks.find(key)?;
        self.blocks.get(at, place)
    }

    /// How many tasks are earlier than the key. This goes over the blocks before it.
    pub fn rank(&self, key: &Key) -> usize
        ensures { result ≡ length (tasks_before key.now self.now) }
    {
        self.blocks.rank(key)
    }

    /// The tasks, in order.
    pub fn iter(&self) -> Tasks<'_>
        ensures rest { result ≡ self.now }
        ensures ascending { IsAscending self.now }
        ensures runs { ShowsInOrder (deref {X = Task}) }
    {
        self.blocks.iter()
    }

    /// Puts a task at its place. Where memory runs out, the task comes back and the list is as it
    /// was.
    pub fn insert(&mut self, task: Task) -> Result<(), Task>
        requires { IsNewKey task.key self.old }
        ensures ok { OnOk result (self.new ≡ put_in task self.old) }
        ensures returned { IfErr result (λ back. back ≡ task) }
        ensures unchanged { OnErr result (self.new ≡ self.old) }
    {
        if self.len >= MOST {
            return Err(task);
        }
        let Ok((at, place)) = self.blocks.make_place(&task.key) else {
            return Err(task);
        };
        self.blocks.put(at, place, task);
        self.len += 1;
        Ok(())
    }

    /// Takes the earliest task out.
    pub fn take_first(&mut self) -> Option<Task>
        ensures ascending { IsAscending self.old }
        ensures first { IfSome result (λ task. self.old ≡ task ∷ self.new) }
        ensures empty { IfNone result (self.old ≡ []) }
        ensures stays_empty { IfNone result (self.new ≡ []) }
    {
        let task = self.blocks.take_first()?;
        self.len -= 1;
        Some(task)
    }

    /// Takes the task with this key out, where there is one.
    pub fn remove(&mut self, key: &Key) -> Option<Task>
        ensures left { self.new ≡ without key.now self.old }
        ensures found { IfSome result (λ task. (task.key ≡ key.now) × Contains self.old task) }
        ensures absent { IfNone result (IsNewKey key.now self.old) }
        ensures unchanged { IfNone result (self.new ≡ self.old) }
    {
        let (at, place) = self.blocks.find(key)?;
        let task = self.blocks.remove(at, place);
        self.len -= 1;
        Some(task)
    }
}
