//! Whether it pays to keep workers for a run, and to have a round performed by more than one.

/// What it takes, in nanoseconds, that a job goes to another processor and what was done comes back,
/// and that both go through lists, beside a task that acts where it is.
const TRANSPORT: u64 = 3_000;

/// How many nanoseconds the tasks of a round must have to do beyond that, for kept workers to pay: a hand
/// is with its worker, and back, in some microseconds.
const HANDING: u64 = 50_000;

/// From this number of cells on, which the tasks of a round have in all, threads pay where it isn't
/// known how much a task has to do. In rounds of 3,500 to 8,192 cells four workers took from nothing
/// (matrices) to a tenth (pairs of nodes) longer than one, and in rounds of 16,400 cells as long or a
/// twentieth less.
const MANY_CELLS: usize = 16_384;

/// What is known of the work in rounds.
#[derive(Drop)]
pub(crate) struct Work {
    /// About how many nanoseconds a task has to do, where the application tells.
    task_nanos: Option<u64>,
    /// Whether a round so far had work enough for threads, a hint for the next one. Before the first
    /// one that isn't known.
    was_enough: Option<bool>,
}

impl Work {
    /// Nothing is known but what the application tells of a task.
    pub(crate) fn new(task_nanos: Option<u64>) -> Work {
        Work {
            task_nanos,
            was_enough: None,
        }
    }

    /// Whether workers are kept over the rounds of a run. That has to be known before the first one, so it
    /// is only where the application tells what its tasks have to do.
    pub(crate) fn keeps_workers(&self, workers: u32) -> bool {
        workers > 1 && self.task_nanos.is_some() && !self.tasks_are_light()
    }

    /// Whether no thread is to start in a round, or is likely to, by the rounds so far.
    pub(crate) fn stays_alone(&self, workers: u32) -> bool {
        workers < 2 || self.tasks_are_light() || self.was_enough == Some(false)
    }

    /// Whether it takes the cells of a round's tasks to tell how much work it has.
    pub(crate) fn goes_by_cells(&self) -> bool {
        self.task_nanos.is_none()
    }

    /// Whether a round of `tasks` tasks, which have `cells` cells in all, has work enough for threads.
    pub(crate) fn note_round(&mut self, tasks: usize, cells: usize) -> bool {
        let is_enough = match self.task_nanos {
            Some(nanos) => {
                nanos.saturating_sub(TRANSPORT).saturating_mul(tasks as u64) >= HANDING
            }
            None => cells >= MANY_CELLS,
        };
        self.was_enough = Some(is_enough || self.was_enough == Some(true));
        is_enough
    }

    /// Whether a task is performed sooner than it is handed to another thread.
    pub(crate) fn tasks_are_light(&self) -> bool {
        match self.task_nanos {
            Some(nanos) => nanos <= TRANSPORT,
            None => false,
        }
    }
}
