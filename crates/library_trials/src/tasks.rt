//! Keys, and lists of tasks in their order.

ghost use Rattle.std.specs.Bool.{OnTrue};
ghost use Rattle.std.specs.Prelude.{◌≡◌, IfOk};
ghost use Rattle.task_order.specs.TaskList.{IsNewKey};

use crate::paths::path;
use kdg_text::NoRoom;
use std::alloc::Global;
use std::process::Abort;
use std::test::Fail;
use task_order::{Body, Key, Path, Start, StartList, Task, TaskList};

const BODY: Body = Body {
    kind: 2,
    at: 70_000,
    arg: 5_000_000_000,
};

/// Whether a key prints this.
fn is_printed(alloc: Global, key: &Key, text: &str) -> Result<bool, Fail> {
    Ok(format!(in alloc; "{key:?}")?.as_str() == text)
}

/// Whether no task of the list has the key.
fn is_new(tasks: &TaskList, key: &Key) -> bool
    ensures { OnTrue result (IsNewKey key.now tasks.now) }
{
    for task in tasks.iter() {
        if task.key.compare(key).is_eq() {
            return false;
        }
    }
    true
}

/// Puts a task into the list.
fn put(rt: &impl Abort, tasks: &mut TaskList, task: Task) -> Result<(), NoRoom> {
    assert!(rt; is_new(tasks, &task.key));
    tasks.insert(task).map_err(|_| NoRoom)
}

#[test]
fn paths_and_keys_grow(rt: HostRuntime) -> Result<(), Fail> {
    let parent = root_key(rt.alloc(), 2)?;
    let child = Key {
        prio: 3,
        path: parent.path.child(1)?,
    };
    assert!(rt; is_printed(rt.alloc(), &parent, "Key { prio: 3, path: [2] }")?);
    assert!(rt; is_printed(rt.alloc(), &child, "Key { prio: 3, path: [2, 1] }")?);
    assert!(rt; parent.child(1, 3)? == child);
    Ok(())
}

#[test]
fn keys_and_tasks_are_copied(rt: HostRuntime) -> Result<(), Fail> {
    let key = root_key(rt.alloc(), 2)?.child(1, 3)?;
    assert!(rt; key.copy()? == key);
    let task = Task { key, body: BODY };
    assert!(rt; task.copy()? == task);
    Ok(())
}

#[test]
fn first_tasks_are_listed(rt: HostRuntime) -> Result<(), Fail> {
    let start = Start {
        prio: 4,
        body: BODY,
    };
    let mut starts = StartList::new(rt.alloc());
    starts.push(start)?;
    assert!(rt; starts.items() == [start].as_slice());
    Ok(())
}

/// The priorities and the paths of five tasks, out of order.
const KEYS: &[(u64, u32, &[u32])] = &[
    (4, 0, &[]),
    (3, 3, &[]),
    (3, 2, &[1]),
    (3, 2, &[0]),
    (3, 2, &[]),
];

/// A list of five tasks, put in out of order.
fn five_tasks(rt: &impl Abort, alloc: Global) -> Result<TaskList, NoRoom> {
    let mut tasks = TaskList::new(alloc);
    for &(prio, first, rest) in KEYS {
        let path = path(alloc, first, rest)?;
        let key = Key { prio, path };
        put(rt, &mut tasks, Task { key, body: BODY })?;
    }
    Ok(tasks)
}

/// The first of them.
const FIRST: &str = "Key { prio: 3, path: [2] }";

/// All of them in their order.
const IN_ORDER: &[&str] = &[
    FIRST,
    "Key { prio: 3, path: [2, 0] }",
    "Key { prio: 3, path: [2, 1] }",
    "Key { prio: 3, path: [3] }",
    "Key { prio: 4, path: [0] }",
];

#[test]
fn tasks_are_walked_in_key_order(rt: HostRuntime) -> Result<(), Fail> {
    let tasks = five_tasks(&rt, rt.alloc())?;
    assert!(rt; are_in_order(&tasks, rt.alloc())?);
    Ok(())
}

/// Whether a list has the five tasks in their order.
fn are_in_order(tasks: &TaskList, alloc: Global) -> Result<bool, Fail> {
    let mut place = 0;
    for task in tasks.iter() {
        if place >= tasks.len() || task != tasks.at(place) {
            return Ok(false);
        }
        let key = IN_ORDER.get(place).ok_or("there are too many tasks")?;
        if !is_printed(alloc, &task.key, key)? {
            return Ok(false);
        }
        place += 1;
    }
    Ok(place == 5)
}

#[test]
fn tasks_come_out_in_key_order(rt: HostRuntime) -> Result<(), Fail> {
    let mut tasks = five_tasks(&rt, rt.alloc())?;
    for key in IN_ORDER {
        assert!(rt; !tasks.is_empty());
        assert!(rt; gives(&mut tasks, rt.alloc(), key)?);
    }
    assert!(rt; tasks.is_empty());
    assert!(rt; tasks.take_first().is_none());
    Ok(())
}

/// Whether the first task that is taken out of a list has a key that prints this.
fn gives(tasks: &mut TaskList, alloc: Global, key: &str) -> Result<bool, Fail> {
    let task = tasks.take_first().ok_or("none is left")?;
    is_printed(alloc, &task.key, key)
}

/// The key of a first task at priority 3.
fn root_key(alloc: Global, number: u32) -> Result<Key, NoRoom>
    ensures { IfOk result (λ key. key.prio ≡ 3) }
{
    let path = Path::root(alloc, number)?;
    Ok(Key { prio: 3, path })
}

#[test]
fn tasks_are_found_by_key(rt: HostRuntime) -> Result<(), Fail> {
    let tasks = five_tasks(&rt, rt.alloc())?;
    let present = root_key(rt.alloc(), 3)?;
    assert!(rt; tasks.rank(&present) == 3);
    assert!(rt; has_task(&tasks, &present));
    assert!(rt; begins_with(&tasks, rt.alloc(), FIRST)?);
    Ok(())
}

/// Whether the list has a task with the key.
fn has_task(tasks: &TaskList, key: &Key) -> bool {
    match tasks.get(key) {
        Some(found) => found.key == *key && found.body == BODY,
        None => false,
    }
}

/// Whether the key of the first task of a list prints this.
fn begins_with(tasks: &TaskList, alloc: Global, key: &str) -> Result<bool, Fail> {
    let first = tasks.first().ok_or("none is there")?;
    is_printed(alloc, &first.key, key)
}

#[test]
fn tasks_without_the_key_stay(rt: HostRuntime) -> Result<(), Fail> {
    let mut tasks = five_tasks(&rt, rt.alloc())?;
    let absent = root_key(rt.alloc(), 9)?;
    assert!(rt; tasks.get(&absent).is_none() && tasks.remove(&absent).is_none());
    assert!(rt; tasks.len() == 5);
    Ok(())
}

#[test]
fn tasks_leave_by_key(rt: HostRuntime) -> Result<(), Fail> {
    let mut tasks = five_tasks(&rt, rt.alloc())?;
    let present = root_key(rt.alloc(), 3)?;
    let removed = tasks.remove(&present).ok_or("the task is not there")?;
    assert!(rt; removed.key == present && tasks.get(&present).is_none());
    assert!(rt; gives(&mut tasks, rt.alloc(), FIRST)?);
    assert!(rt; tasks.len() == 3);
    Ok(())
}

#[test]
fn keys_are_sorted_by_priority_and_path(rt: HostRuntime) -> Result<(), Fail> {
    let mut keys = Vec::new(rt.alloc());
    for (prio, first) in [(3, 1), (2, 7), (3, 0)] {
        let path = Path::root(rt.alloc(), first)?;
        keys.push(Key { prio, path })?;
    }
    keys.sort()?;
    assert!(rt;
        format!(in rt.alloc(); "{keys:?}")?.as_str()
            == "[Key { prio: 2, path: [7] }, Key { prio: 3, path: [0] }, Key { prio: 3, path: [1] }]"
    );
    Ok(())
}
