//! The pending tasks of a round, for whoever tests whether one is safe.

ghost use Rattle.std.specs.Prelude.{◌≡◌, ◌<◌, Some, length, slice_get};
ghost use Rattle.std.specs.Map.Iter.{deref};
ghost use Rattle.std.specs.Option.{option_map};
ghost use Rattle.task_order.specs.TaskList.{IsAscending};
ghost use Rattle.rw_sets.specs.Accesses.{writes};
ghost use Rattle.cell_store.specs.Values.{values_of};
ghost use Rattle.mark_rounds.specs.Pending.{tasks_in, writers_among};
ghost use Rattle.mark_rounds.specs.Writers.{HaveFirstWriters};

use cell_store::{Held, Store};
use rw_sets::RwSet;
use std::marker::Model;
use std::snapshot::Snapshot;
use task_order::{PendingTasks, Task};

/// Pending tasks in the order of their keys, with the set of each.
#[derive(Drop)]
pub(crate) struct MarkedTasks<'t, 'p, V: Held> {
    tasks: &'p [&'t Task],
    sets: &'p [RwSet],
    /// At each location that one of the sets writes, the place of the first that does.
    writers: &'p [u32],
    /// The cells in which the sets were asked for, for clauses alone.
    store: Snapshot<Store<V>>,
}

impl<'t, 'p, V: Held> Model for MarkedTasks<'t, 'p, V> {
    ghost use Rattle.std.specs.Prelude.{◌≡◌, length};
    ghost use Rattle.task_order.specs.TaskList.{IsAscending};
    ghost use Rattle.cell_store.specs.Values.{values_of};
    ghost use Rattle.mark_rounds.specs.Pending.{MarkedState, tasks_in};
    ghost use Rattle.mark_rounds.specs.Writers.{HaveFirstWriters};

    ghost Value = { MarkedState V };

    ghost view = { λ p. record { tasks = tasks_in p.tasks.now; sets = p.sets.now; cells = values_of p.store.value } };

    ghost invariant = { λ p. (length p.sets.now ≡ length p.tasks.now) × IsAscending (tasks_in p.tasks.now) × HaveFirstWriters p.writers.now 0 p.sets.now };
}

impl<'t, 'p, V: Held> MarkedTasks<'t, 'p, V> {
    /// These tasks, each with the set at its place, which was asked for in these cells.
    pub(crate) fn of(
        tasks: &'p [&'t Task],
        sets: &'p [RwSet],
        writers: &'p [u32],
        store: &Store<V>,
    ) -> MarkedTasks<'t, 'p, V>
        requires one_each { length sets.now ≡ length tasks.now }
        requires ascending { IsAscending (tasks_in tasks.now) }
        requires writers { HaveFirstWriters writers.now 0 sets.now }
        ensures { result ≡ record { tasks = tasks_in tasks.now; sets = sets.now; cells = values_of store.now } }
    {
        MarkedTasks {
            tasks,
            sets,
            writers,
            store: Snapshot::of(store),
        }
    }

    /// How many there are.
    pub(crate) fn len(&self) -> usize
        ensures { result ≡ length self.now.tasks }
    {
        self.tasks.len()
    }

    /// The task at a place.
    pub(crate) fn task(&self, rank: usize) -> &Task
        requires { rank < length self.now.tasks }
        ensures { slice_get self.now.tasks rank ≡ Some result.now }
    {
        task_at(self.tasks, rank)
    }

    /// The set of the task at a place.
    pub(crate) fn set(&self, rank: usize) -> &RwSet
        requires { rank < length self.now.tasks }
        ensures { slice_get self.now.sets rank ≡ Some result.now }
    {
        set_at(self.sets, rank)
    }
}

impl<'t, 'p, V: Held> PendingTasks for MarkedTasks<'t, 'p, V> {
    ghost use Rattle.mark_rounds.specs.Pending.{writers_among};

    ghost tasks = { λ p. p.tasks };

    ghost writers = { λ p loc. writers_among p.tasks p.sets loc };

    fn earliest(&self) -> Option<&Task> {
        match self.tasks.first() {
            Some(task) => Some(*task),
            None => None,
        }
    }

    fn earliest_writing(&self, loc: u32) -> Option<&Task> {
        first_writing(self.tasks, self.sets, self.writers, loc)
    }
}

/// The task at a place.
fn task_at<'p>(tasks: &[&'p Task], rank: usize) -> &'p Task
    requires { rank < length tasks.now }
    ensures { slice_get (tasks_in tasks.now) rank ≡ Some result.now }
{
    tasks[rank]
}

/// The set at a place.
fn set_at(sets: &[RwSet], rank: usize) -> &RwSet
    requires { rank < length sets.now }
    ensures { slice_get sets.now rank ≡ Some result.now }
{
    &sets[rank]
}

/// The first of the tasks whose set, at the same place, writes the location. What is noted there is
/// left of other sets where none of these does.
fn first_writing<'p>(
    tasks: &[&'p Task],
    sets: &[RwSet],
    writers: &[u32],
    loc: u32,
) -> Option<&'p Task>
    requires one_each { length sets.now ≡ length tasks.now }
    requires writers { HaveFirstWriters writers.now 0 sets.now }
    ensures { option_map deref result ≡ slice_get (writers_among (tasks_in tasks.now) sets.now loc) 0 }
{
    let rank = *writers.get(loc as usize)? as usize;
    if is_written(sets.get(rank)?, loc) {
        Some(tasks[rank])
    } else {
        None
    }
}

/// Whether the set writes the location.
fn is_written(set: &RwSet, loc: u32) -> bool
    ensures { result ≡ writes set.now loc }
{
    match set.contains(loc) {
        Some(access) => access.is_write(),
        None => false,
    }
}
