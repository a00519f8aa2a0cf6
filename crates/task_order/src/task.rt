ghost use Rattle.std.specs.Prelude.{◌≡◌, IfOk};

use crate::Key;
use kdg_text::NoRoom;

/// What a task does: its kind, the place that it is about, and a number. The application says what
/// they mean.
#[derive(Clone, Copy, Debug, PartialEq, Eq)]
pub struct Body {
    pub kind: u8,
    pub at: u32,
    pub arg: u64,
}

/// A piece of work, and its place in the order of all tasks.
#[derive(Debug, Drop, PartialEq, Eq)]
pub struct Task {
    pub key: Key,
    pub body: Body,
}

impl Task {
    /// An equal task.
    pub fn copy(&self) -> Result<Task, NoRoom>
        ensures { IfOk result (λ task. task ≡ self.now) }
    {
        Ok(Task {
            key: self.key.copy()?,
            body: self.body,
        })
    }
}
