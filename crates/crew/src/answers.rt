use crate::{Done, Job};
use cell_store::Held;
use kdg_text::NoRoom;

/// Why nothing more is to be claimed.
#[derive(Clone, Copy, Debug, PartialEq, Eq)]
pub enum OverCause {
    /// More tasks would have been created than allowed.
    Budget {
        /// How many tasks there would have been.
        created: u64,
        /// How many are allowed.
        limit: u64,
    },
    /// Somebody found no memory and gave up.
    NoRoom,
}

impl From<NoRoom> for OverCause {
    ghost use Rattle.std.specs.Prelude.{◌≡◌};
    ghost use Rattle.crew.specs.declared.answers.OverCause.TheVariants.{NoRoom};

    ghost from_gives = { λ _ cause. cause ≡ NoRoom };

    fn from(_: NoRoom) -> OverCause {
        OverCause::NoRoom
    }
}

impl<N: Drop, V: Held> From<FinishFault<N, V>> for OverCause {
    ghost use Rattle.std.specs.Prelude.{◌≡◌};
    ghost use Rattle.crew.specs.Faults.{cause_of};

    ghost from_gives = { λ fault cause. cause ≡ cause_of fault };

    fn from(fault: FinishFault<N, V>) -> OverCause {
        match fault {
            FinishFault::Budget { created, limit, .. } => OverCause::Budget { created, limit },
            FinishFault::NoRoom { .. } => OverCause::NoRoom,
        }
    }
}

/// What a claim answers.
#[derive(Drop)]
pub enum Claim<N, V: Held> {
    /// An over mark stands.
    Over(OverCause),
    /// No task is pending.
    Ended,
    /// No pending task may run now.
    NotYet,
    /// A task that may run, with the cells that it works on.
    Job(Job<N, V>),
}

/// Why a task was not ended. It comes back, and may be ended again.
#[derive(Drop)]
pub enum FinishFault<N, V: Held> {
    /// With its children there would be more tasks than allowed.
    Budget {
        done: Done<N, V>,
        /// How many tasks there would be.
        created: u64,
        /// How many are allowed.
        limit: u64,
    },
    /// No memory was to be had.
    NoRoom {
        done: Done<N, V>,
    },
}
