//! What tasks do, in numbers.

ghost use Rattle.std.specs.Prelude.{◌≡◌, ◌≤◌};
ghost use Rattle.own_operator.specs.Mixing.{end_of};

use hook_app::Deed;

/// A task multiplies the cell of its group that many times, and the next one of the group follows it.
#[derive(Clone, Copy)]
pub struct Mixer {
    /// How many multiplications a task makes.
    pub times: u32,
    /// By how much each task of a group comes later than the one before it, from 1 to 4096.
    pub lookahead: u32,
    /// How many groups there are, each of one cell, from 1 to 4096.
    pub groups: u32,
    /// How many tasks all groups have together, or up to one fewer a group where they don't come out even: from
    /// 4096 to 1,048,576.
    pub tasks: u32,
}

impl Deed for Mixer {
    ghost use Rattle.own_operator.specs.Mixing.{mixing};

    type Val = u64;

    ghost meaning = { mixing };

    // Eight factors are multiplied with each other before the program runs, and such a multiplication waits
    // some nanosecond for the one before it.
    fn task_nanos(&self) -> Option<u64> {
        Some(u64::from(self.times / 8))
    }
}

impl Mixer {
    /// The priority before which all tasks come.
    pub fn end(self) -> u64
        requires { 1 ≤ self.groups }
        ensures { result ≡ end_of self }
    {
        u64::from(self.lookahead) * u64::from(self.tasks / self.groups)
    }
}
