//! By what the workers of a run claim.

ghost use Rattle.std.specs.Prelude.{◌≡◌, ◌≤◌, IsFalse};

use crate::backlog::Backlog;
use crate::pick::Pick;

/// About how many nanoseconds the tasks that a worker claims in a turn may have to do at most.
const BATCH: u64 = 200_000;

/// A task that has no more nanoseconds to do is short: it takes about as long to bring it and its cells from
/// another processor's cache.
const SHORT: u64 = 8_000;

/// About how many nanoseconds the short tasks that a worker claims in a turn may have to do, though others
/// might find none.
const SHARE: u64 = 64_000;

/// How many tasks a worker claims in a turn at most: others wait while as many end and are claimed.
const MOST: u64 = 64;

/// A task that has no more nanoseconds to do acts within the turn: it is done sooner than it is claimed there
/// and ended in another one.
const LIGHT: u64 = 1_000;

/// How many light tasks act in a turn at most: so many make up for the engine's way from another processor's
/// cache.
const ACTS: usize = 4_096;

/// By what the workers of a run claim.
#[derive(Drop)]
pub(crate) struct Plan {
    /// What the gate chooses by.
    pub(crate) seed: u64,
    /// How many workers there are.
    workers: u32,
    is_open: bool,
    /// How many tasks a worker claims in a turn at most.
    most: usize,
    /// How many short tasks it claims, up to its share of all tasks.
    short: usize,
    /// How many tasks act in a turn at most. Where some may, none is claimed.
    pub(crate) acts: usize,
    /// How far the telling is behind.
    pub(crate) backlog: Backlog,
}

impl Plan {
    /// Where the gate is open, so that nobody sees who performs a task and when, light tasks act within the
    /// turn, and of others a worker claims as many in a turn as make up for it. Where it isn't known how
    /// much a task has to do, and at a closed gate, it claims one.
    pub(crate) fn new(seed: u64, workers: u32, is_open: bool, task_nanos: Option<u64>) -> Plan
        ensures closed { IsFalse is_open → result.acts ≡ 0 }
    {
        let most = match task_nanos {
            Some(nanos) if is_open => tasks_in(BATCH, nanos),
            _ => 1,
        };
        let short = match task_nanos {
            Some(nanos) if is_open && nanos <= SHORT => tasks_in(SHARE, nanos),
            _ => 0,
        };
        let acts = match task_nanos {
            Some(nanos) if is_open && nanos <= LIGHT => ACTS,
            _ => 0,
        };
        Plan {
            seed,
            workers,
            is_open,
            most,
            short,
            acts,
            backlog: Backlog::new(is_open),
        }
    }

    /// Which tasks a worker claims in a turn, by what the gate chooses. At an open one nobody sees which task
    /// comes next.
    pub(crate) fn pick(&self, choice: u64) -> Pick {
        Pick::by(choice, self.is_open)
    }

    /// How many tasks a worker claims in a turn at most, of `pending` ones of which `clear` are known to be
    /// clear. It leaves half its share of the clear ones, so that others find some, and where all wait for
    /// the last of them they end at about one time. But of short tasks it claims up to its share of all: where
    /// each worker does so, what it finds clear next is mostly what follows its own tasks.
    pub(crate) fn batch(&self, clear: usize, pending: usize) -> usize
        ensures { 1 ≤ result }
    {
        let workers = (self.workers as usize).max(1);
        let half = clear / workers / 2;
        let share = self.short.min(pending / workers);
        self.most.min(half.max(share)).max(1)
    }
}

/// How many tasks of so many nanoseconds fill the time, within what a turn takes.
fn tasks_in(time: u64, nanos: u64) -> usize {
    (time / nanos.max(1)).min(MOST) as usize
}
