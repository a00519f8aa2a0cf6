use cell_store::Held;

/// What stored operators do: which values and tasks are fit, and what a task makes of the values in
/// its set. It may depend on what the value holds.
pub trait Deed {
    ghost use Rattle.hook_app.specs.Deeds.{Deeds};

    /// What a cell holds.
    type Val: Held;

    /// What it means.
    ghost meaning: { Self → Deeds Self.Val };

    /// About how many nanoseconds the operator takes for a task, where that is known: an executor
    /// starts threads where they save time. No contract rests on it.
    fn task_nanos(&self) -> Option<u64> {
        None
    }
}
