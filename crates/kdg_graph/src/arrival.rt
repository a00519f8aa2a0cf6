ghost use Rattle.std.specs.Prelude.{◌≡◌};

use crate::NodeId;

/// An id that waits to be put in order, with what mostly tells how its key compares.
#[derive(Clone, Copy)]
pub(crate) struct Arrival {
    /// The priority of the node's task.
    pub(crate) prio: u64,
    /// The beginning of its path.
    pub(crate) beginning: u64,
    pub(crate) id: NodeId,
}

impl Arrival {
    /// An id of whose key nothing is told yet.
    #[inline(always)]
    pub(crate) fn new(id: NodeId) -> Arrival
        ensures { result.id ≡ id }
    {
        Arrival {
            prio: 0,
            beginning: 0,
            id,
        }
    }
}
