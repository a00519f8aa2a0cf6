//! What is pending, and what has been told of what ended.

ghost use Rattle.std.specs.Prelude.{◌≡◌, ◌+◌, ◌<◌, ◌^◌};

use crate::OverCause;
use crate::ready::Ready;
use app_laws::App;
use kdg_graph::{Fresh, Graph};
use output_log::Log;
use std::alloc::Global;

/// The pending tasks as nodes of a graph, and what is kept to find those that may run.
#[derive(Drop)]
pub(crate) struct Agenda<A: App> {
    pub(crate) alloc: Global,
    pub(crate) graph: Graph,
    /// What the application keeps of the tasks to tell whether one is safe.
    pub(crate) horizon: A::Horizon,
    pub(crate) ready: Ready,
    /// The children of a task that ends, which keeps its memory for those of others.
    pub(crate) fresh: Vec<Fresh>,
}

/// What was told of the tasks that have ended and is not yet drained, how many have ended and may be
/// created, and why nothing more is to be claimed.
#[derive(Drop)]
pub(crate) struct Tally {
    pub(crate) log: Log,
    pub(crate) ended: u64,
    pub(crate) limit: u64,
    pub(crate) over: Option<OverCause>,
}

impl Tally {
    /// How many tasks there are with `pending` pending ones, and with `children` of one of them.
    #[inline(always)]
    pub(crate) fn created(&self, pending: usize, children: usize) -> u64
        requires { self.now.ended + pending + children < 2 ^ 64 }
        ensures { result ≡ self.now.ended + pending + children }
    {
        self.ended + pending as u64 + children as u64
    }
}
