//! How a task is claimed: one of the clear nodes is picked, marked running, and its cells are
//! taken.

ghost use Rattle.std.specs.Prelude.{◌≡◌, ◌≢◌, ℕ, [], None, IfOk, OnErr};
ghost use Rattle.run_laws.specs.Answers.{IsClaimAnswer};
ghost use Rattle.graph_update.specs.Engine.{ClaimStaysSound, IsToRun, SomeRunsWhereNotYet};
ghost use Rattle.graph_update.specs.Ready.{MayPick};

use crate::laws::basis;
use crate::ready::Among;
use crate::{Claim, Engine, Job};
use app_laws::App;
use kdg_text::NoRoom;

impl<'a, A: App> Engine<'a, A> {
    /// Claims a task that may run now: of the clear nodes, in key order, the one at the remainder of
    /// the pick. It looks for clear nodes at first, and where a task has ended since it last did;
    /// those that it found before aren't tested again.
    ///
    /// Where a mark stands, or no task is pending, it says so without taking memory. While nothing
    /// is running some node is clear, unless none is there. After `NoRoom` all is as it was.
    #[inline(always)]
    pub fn claim(&mut self, pick: u64) -> Result<Claim<A::Val>, NoRoom>
        ensures app { self.new.app ≡ self.old.app }
        ensures answer { IfOk result (IsClaimAnswer (A.meaning self.old.app) self.old.progress pick self.new.progress) }
        ensures sound { IfOk result (ClaimStaysSound (A.meaning self.old.app) self.old.progress self.new.progress) }
        ensures may_run { IfOk result (IsToRun (A.meaning self.old.app)) }
        ensures some_runs { IfOk result (SomeRunsWhereNotYet self.old.progress.nodes) }
        ensures unchanged { OnErr result (self.new ≡ self.old) }
        ensures not_over { OnErr result (self.old.progress.over ≡ None) }
        ensures not_ended { OnErr result (self.old.progress.nodes ≢ []) }
    {
        self.claim_among(&Among::All, pick)
    }

    /// Claims a task that may run now, as `claim` does with some pick: of the clear nodes that it knows,
    /// in key order, the one at the remainder of the pick. Only where it knows none it looks for more,
    /// so that many claims, each after the end of a task, pass over the sources no more often than
    /// rounds do.
    #[inline(always)]
    pub fn claim_known(&mut self, pick: u64) -> Result<Claim<A::Val>, NoRoom>
        ensures app { self.new.app ≡ self.old.app }
        ensures answer { IfOk result (λ answer. (other : ℕ) × IsClaimAnswer (A.meaning self.old.app) self.old.progress other self.new.progress answer) }
        ensures sound { IfOk result (ClaimStaysSound (A.meaning self.old.app) self.old.progress self.new.progress) }
        ensures may_run { IfOk result (IsToRun (A.meaning self.old.app)) }
        ensures some_runs { IfOk result (SomeRunsWhereNotYet self.old.progress.nodes) }
        ensures unchanged { OnErr result (self.new ≡ self.old) }
        ensures not_over { OnErr result (self.old.progress.over ≡ None) }
        ensures not_ended { OnErr result (self.old.progress.nodes ≢ []) }
    {
        self.claim_among(&Among::Known, pick)
    }

    /// How many clear tasks it knows without a look. Who claims several at once may go by it, so that
    /// others find some.
    #[inline(always)]
    pub fn known(&self) -> usize {
        self.agenda.ready.count()
    }

    /// Claims a task that may run now, of all clear nodes or of those that it knows.
    #[inline(always)]
    fn claim_among(&mut self, among: &Among, pick: u64) -> Result<Claim<A::Val>, NoRoom>
        ensures app { self.new.app ≡ self.old.app }
        ensures answer { IfOk result (λ answer. (other : ℕ) × MayPick among.now pick other × IsClaimAnswer (A.meaning self.old.app) self.old.progress other self.new.progress answer) }
        ensures sound { IfOk result (ClaimStaysSound (A.meaning self.old.app) self.old.progress self.new.progress) }
        ensures may_run { IfOk result (IsToRun (A.meaning self.old.app)) }
        ensures some_runs { IfOk result (SomeRunsWhereNotYet self.old.progress.nodes) }
        ensures unchanged { OnErr result (self.new ≡ self.old) }
        ensures not_over { OnErr result (self.old.progress.over ≡ None) }
        ensures not_ended { OnErr result (self.old.progress.nodes ≢ []) }
    {
        basis::<A>();
        self.settle_for(among);
        if let Some(cause) = self.tally.over {
            return Ok(Claim::Over(cause));
        }
        if self.agenda.graph.is_empty() {
            return Ok(Claim::Ended);
        }
        self.agenda.ready.look(
            among,
            self.app,
            &self.agenda.graph,
            &mut self.agenda.horizon,
        )?;
        let Some((node, place)) = self.agenda.ready.picked(pick) else {
            return Ok(Claim::NotYet);
        };
        let task = self.agenda.graph.task(node).copy()?;
        let bundle = self.store.take(self.agenda.graph.set(node))?;
        self.agenda.graph.mark_running(node);
        self.agenda.ready.take(place);
        Ok(Claim::Job(Job { node, task, bundle }))
    }

    /// Puts the pending tasks in order where a claim among these looks at them, which changes nothing that
    /// is seen.
    #[inline(always)]
    fn settle_for(&mut self, among: &Among)
        ensures { self.new ≡ self.old }
    {
        if !self.agenda.ready.is_enough(among) {
            self.settle();
        }
    }
}
