use crew::OverCause;
use kdg_graph::NodeId;
use kdg_text::NoRoom;

/// How far an execution has come.
#[derive(Clone, Copy, Debug, PartialEq, Eq)]
pub struct Counts {
    /// The tasks that were created, the first ones included.
    pub created: u64,
    /// The tasks that have ended.
    pub ended: u64,
    /// The pending tasks, running or not.
    pub nodes: u64,
    /// The running tasks.
    pub running: u64,
}

/// Why an execution did not begin.
#[derive(Clone, Copy, Debug, PartialEq, Eq)]
pub enum BeginFault {
    /// There are more first tasks than allowed.
    Budget {
        /// How many first tasks there are.
        asked: u64,
        /// How many tasks are allowed.
        limit: u64,
    },
    /// No memory was to be had.
    NoRoom,
}

impl From<NoRoom> for BeginFault {
    ghost use Rattle.std.specs.Prelude.{◌≡◌};
    ghost use Rattle.graph_update.specs.declared.answers.BeginFault.TheVariants.{NoRoom};

    ghost from_gives = { λ _ fault. fault ≡ NoRoom };

    fn from(_: NoRoom) -> BeginFault {
        BeginFault::NoRoom
    }
}

/// What comes next in an execution.
#[derive(Clone, Copy, Debug, PartialEq, Eq)]
pub enum Upcoming {
    /// An over mark stands.
    Over(OverCause),
    /// No task is pending.
    Ended,
    /// No pending task may run now.
    NotYet,
    /// The task of this node may run.
    Clear(NodeId),
}
