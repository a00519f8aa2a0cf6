//! What kept workers are given at their desks, and what comes of it.

ghost use Rattle.std.specs.Prelude.{◌≡◌, List, None, Some};
ghost use Rattle.run_laws.specs.Jobs.{Job};
ghost use Rattle.source_pool.specs.Performing.{IsShareOf, IsTold, MayPlay};

use crate::hands::{Hand, play};
use crate::partners::{HandErrand, HandPartner, Order, played};
use app_laws::App;
use graph_update::{Done, Job};
use outer_edge::Gate;
use std::alloc::Global;
use work_desk::Answer;

/// A desk of a kept worker, as the caller sees it, and the hand that goes there.
#[derive(Drop)]
pub(crate) struct Share<A: App> {
    /// The desk, where nothing that was given there is away. It is lost where a worker doesn't give back.
    pub(crate) partner: Option<HandPartner<A>>,
    /// The hand, where it is away.
    pub(crate) errand: Option<HandErrand<A>>,
    /// The hand, where it isn't.
    pub(crate) hand: Hand<Job<A::Val>, Done<A::Val>>,
}

impl<A: App> Share<A> {
    /// A desk at which nothing was given yet, and a hand of its worker.
    pub(crate) fn new(alloc: Global, partner: HandPartner<A>, worker: u32) -> Share<A>
        ensures partner { result.partner ≡ Some partner }
        ensures none { result.errand ≡ None }
    {
        Share {
            partner: Some(partner),
            errand: None,
            hand: Hand::of(alloc, worker),
        }
    }

    /// Gives the hand to the kept worker. Where it has no jobs, or the desk is lost, it is played at once.
    pub(crate) fn give<G: Gate>(&mut self, app: &A, gate: &G)
        requires told { IsTold A.meaning app.now self.old }
        requires may { MayPlay (A.meaning app.now) self.old.hand }
        ensures told { IsTold A.meaning app.now self.new }
        ensures share { IsShareOf A.meaning app.now self.new self.old.hand.jobs.items }
    {
        self.errand = None;
        if !self.hand.jobs.is_empty()
            && let Some(partner) = self.partner.take()
        {
            let hand = self.hand.taken_out();
            self.errand = Some(partner.give(Order { hand }));
            return;
        }
        play(app, gate, &mut self.hand);
    }

    /// `collect`, where no worker has the hand.
    pub(crate) fn take_back<G: Gate>(&mut self, app: &A, gate: &G)
        requires told { IsTold A.meaning app.now self.old }
        ensures told { IsTold A.meaning app.now self.new }
        ensures same { (jobs : List (Job A.Val)) → IsShareOf A.meaning app.now self.old jobs → IsShareOf A.meaning app.now self.new jobs }
    {
        let is_away = match &self.errand {
            Some(errand) => errand.is_away(),
            None => true,
        };
        if !is_away {
            self.collect(app, gate);
        }
    }

    /// Has the hand back, once it is played: by the kept worker, which is waited for where it has the hand, or
    /// else here.
    pub(crate) fn collect<G: Gate>(&mut self, app: &A, gate: &G)
        requires told { IsTold A.meaning app.now self.old }
        ensures told { IsTold A.meaning app.now self.new }
        ensures same { (jobs : List (Job A.Val)) → IsShareOf A.meaning app.now self.old jobs → IsShareOf A.meaning app.now self.new jobs }
        ensures back { self.new.errand ≡ None }
    {
        let Some(errand) = self.errand.take() else {
            return;
        };
        match errand.collect() {
            Answer::Done(partner, order) => {
                self.partner = Some(partner);
                self.hand = order.hand;
            }
            Answer::Back(partner, order) => {
                self.partner = Some(partner);
                self.hand = played(app, gate, order).hand;
            }
            Answer::Lost => self.hand.is_done = false,
        }
    }
}
