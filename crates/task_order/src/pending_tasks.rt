ghost use Rattle.std.specs.Prelude.{◌≡◌, slice_get};
ghost use Rattle.std.specs.Map.Iter.{deref};
ghost use Rattle.std.specs.Option.{option_map};
ghost use Rattle.task_order.specs.TaskList.{IsAscending};

use crate::Task;

/// Pending tasks, of which whoever asks may look at the earliest one, however they are kept.
pub trait PendingTasks {
    ghost use Rattle.std.specs.Prelude.{ℕ, List};
    ghost use Rattle.task_order.specs.declared.task.Task.{Task};

    /// All of them, in the order of their keys.
    ghost tasks: { Self → List Task };

    /// Those that are known to write a location, in the order of their keys.
    ghost writers: { Self → ℕ → List Task };

    /// The earliest task, unless none is pending.
    fn earliest(&self) -> Option<&Task>
        ensures first { option_map deref result ≡ slice_get (tasks self.now) 0 }
        ensures ascending { IsAscending (tasks self.now) };

    /// The earliest task that is known to write this location, unless there is none.
    fn earliest_writing(&self, loc: u32) -> Option<&Task>
        ensures { option_map deref result ≡ slice_get (writers self.now loc) 0 };
}
