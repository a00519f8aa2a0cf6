//! The lists of a round.

ghost use Rattle.std.specs.Prelude.{◌≡◌, []};

use crate::hands::Hand;
use crate::partners::Partners;
use crate::work::Work;
use app_laws::App;
use graph_update::{Done, Job};
use kdg_graph::NodeId;
use std::alloc::Global;
use std::collections::VecDeque;

/// The lists of a round. Each round fills them anew, in the room that earlier rounds took.
#[derive(Drop)]
pub(crate) struct RoundLists<A: App> {
    /// What is drawn and not yet performed, the first one drawn first.
    pub(crate) jobs: VecDeque<Job<A::Val>>,
    /// What is performed and has not yet ended.
    pub(crate) dones: VecDeque<Done<A::Val>>,
    /// The ids of the clear nodes, in key order, where their tasks act one after the other.
    pub(crate) ids: Vec<NodeId>,
    /// What each worker has in hand, where the round is performed by threads.
    pub(crate) hands: Vec<Hand<Job<A::Val>, Done<A::Val>>>,
    /// What the caller has in hand, where kept workers perform the others.
    pub(crate) own: Hand<Job<A::Val>, Done<A::Val>>,
    /// The workers that are kept over the rounds.
    pub(crate) partners: Partners<A>,
    /// What is known of the work in rounds, by which threads start.
    pub(crate) work: Work,
}

impl<A: App> RoundLists<A> {
    /// Lists without room, for tasks of which this is known.
    pub(crate) fn new(alloc: Global, work: Work, partners: Partners<A>) -> RoundLists<A>
        ensures none { result.jobs.items ≡ [] }
        ensures partners { result.partners ≡ partners }
    {
        RoundLists {
            jobs: VecDeque::new(alloc),
            dones: VecDeque::new(alloc),
            ids: Vec::new(alloc),
            hands: Vec::new(alloc),
            own: Hand::of(alloc, 0),
            partners,
            work,
        }
    }
}
