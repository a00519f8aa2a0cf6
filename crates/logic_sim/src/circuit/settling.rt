ghost use Rattle.std.specs.Prelude.{◌≡◌, ◌+◌, ◌<◌, ◌≤◌, All, IsTrue, IsFalse, length, min, true, slice_set};
ghost use Rattle.logic_sim.specs.Distance.{drivers_of};
ghost use Rattle.logic_sim.specs.Event.{delay_of, plan_place};
ghost use Rattle.logic_sim.specs.Horizon.{ArePending, FallsBelow, IsFalling, IsKept, IsLeast, Tells, TellsAll, comes_at, first_time, never, work_left};

use super::Circuit;
use crate::horizon::Horizon;
use crate::tables::watched_by;
use task_order::PendingTasks;

impl Circuit {
    /// Finds out anew what is stale.
    pub(super) fn settle<P: PendingTasks>(&self, pending: &P, horizon: &mut Horizon)
        requires pending { ArePending self.now (P.tasks pending.now) (P.writers pending.now) }
        requires told { Tells self.now horizon.old (P.tasks pending.now) }
        ensures told { Tells self.now horizon.new (P.tasks pending.now) }
        ensures settled { TellsAll self.now horizon.new (P.tasks pending.now) }
    {
        if !self.settle_soon(pending, horizon) {
            horizon.forget();
            self.settle_anew(pending, horizon);
        }
    }

    /// Finds out anew what is stale, unless that takes long: where an event goes that was the last in a
    /// loop, its signals' times would rise step by step until they are too great for numbers.
    fn settle_soon<P: PendingTasks>(&self, pending: &P, horizon: &mut Horizon) -> bool
        requires pending { ArePending self.now (P.tasks pending.now) (P.writers pending.now) }
        requires told { Tells self.now horizon.old (P.tasks pending.now) }
        ensures told { Tells self.now horizon.new (P.tasks pending.now) }
        ensures settled { IsTrue result → TellsAll self.now horizon.new (P.tasks pending.now) }
    {
        for _ in 0..4 * self.signal_count() + 64 {
            if !self.settle_next(pending, horizon) {
                return true;
            }
        }
        false
    }

    /// Finds out anew what is stale, where no time is before what the others make it.
    fn settle_anew<P: PendingTasks>(&self, pending: &P, horizon: &mut Horizon)
        requires pending { ArePending self.now (P.tasks pending.now) (P.writers pending.now) }
        requires told { Tells self.now horizon.old (P.tasks pending.now) }
        requires falling { IsFalling self.now horizon.old.near.items (P.tasks pending.now) }
        ensures told { Tells self.now horizon.new (P.tasks pending.now) }
        ensures settled { TellsAll self.now horizon.new (P.tasks pending.now) }
    {
        'falling: while self.settle_next(pending, horizon) {}
    }

    /// Finds one stale signal's times out anew; false where none is stale.
    fn settle_next<P: PendingTasks>(&self, pending: &P, horizon: &mut Horizon) -> bool
        requires pending { ArePending self.now (P.tasks pending.now) (P.writers pending.now) }
        requires told { Tells self.now horizon.old (P.tasks pending.now) }
        ensures told { Tells self.now horizon.new (P.tasks pending.now) }
        ensures settled { IsFalse result → TellsAll self.now horizon.new (P.tasks pending.now) }
        ensures falling { IsFalling self.now horizon.old.near.items (P.tasks pending.now) → IsFalling self.now horizon.new.near.items (P.tasks pending.now) }
        ensures less { IsFalling self.now horizon.old.near.items (P.tasks pending.now) → IsTrue result → work_left horizon.new.near.items horizon.new.stale < work_left horizon.old.near.items horizon.old.stale }
    {
        match horizon.stale.take() {
            Some(signal) => {
                self.refresh(pending, horizon, signal);
                true
            }
            None => false,
        }
    }

    /// Finds a signal's times out anew. What it drives is stale where its own time is another one.
    fn refresh<P: PendingTasks>(&self, pending: &P, horizon: &mut Horizon, signal: u32)
        requires pending { ArePending self.now (P.tasks pending.now) (P.writers pending.now) }
        requires in_range { signal < length self.now.deck.signals }
        requires told { IsKept self.now horizon.old.near.items horizon.old.entries.items (slice_set horizon.old.stale signal true) (P.tasks pending.now) }
        ensures told { Tells self.now horizon.new (P.tasks pending.now) }
        ensures falling { IsFalling self.now horizon.old.near.items (P.tasks pending.now) → IsFalling self.now horizon.new.near.items (P.tasks pending.now) }
        ensures less { IsFalling self.now horizon.old.near.items (P.tasks pending.now) → FallsBelow horizon.old.near.items horizon.old.stale horizon.new.near.items horizon.new.stale }
    {
        let entry = horizon.least_near(self.drivers(signal));
        let delayed = entry.saturating_add(self.delay(signal));
        let near = self.own_moment(pending, signal).min(delayed);
        horizon.entries[signal as usize] = entry;
        if near != horizon.near[signal as usize] {
            horizon.near[signal as usize] = near;
            horizon.stale.put_each(self.gates_reading(signal));
        }
    }

    /// How many signals the circuit has.
    fn signal_count(&self) -> usize
        ensures count { result ≡ length self.now.deck.signals }
        ensures few { result ≤ 4096 }
    {
        self.deck.signals.items().len()
    }

    /// The signals that drive a signal.
    fn drivers(&self, signal: u32) -> &[u32]
        requires { signal < length self.now.deck.signals }
        ensures drivers { result.now ≡ drivers_of self.now signal }
        ensures in_range { All (λ driver. driver < length self.now.deck.signals) result.now }
    {
        watched_by(&self.deck.signals.items()[signal as usize].form)
    }

    /// The least moment of an event that is pending at the signal.
    fn own_moment<P: PendingTasks>(&self, pending: &P, signal: u32) -> u64
        requires pending { ArePending self.now (P.tasks pending.now) (P.writers pending.now) }
        requires in_range { signal < length self.now.deck.signals }
        ensures { IsLeast result (comes_at self.now (P.tasks pending.now) signal) }
    {
        time_writing(pending, 2 * signal).min(self.plan_moment(pending, signal))
    }

    /// The least moment of an evaluation or a tick that is pending at the signal.
    pub(super) fn plan_moment<P: PendingTasks>(&self, pending: &P, signal: u32) -> u64
        requires pending { ArePending self.now (P.tasks pending.now) (P.writers pending.now) }
        requires in_range { signal < length self.now.deck.signals }
        ensures { result ≡ min (first_time (P.writers pending.now (plan_place signal)) + delay_of self.now signal) never }
    {
        time_writing(pending, 2 * signal + 1).saturating_add(self.delay(signal))
    }
}

/// The time of the earliest task that is known to write a location.
fn time_writing<P: PendingTasks>(pending: &P, loc: u32) -> u64
    ensures { result ≡ first_time (P.writers pending.now loc) }
{
    match pending.earliest_writing(loc) {
        Some(task) => task.key.prio / 2,
        None => u64::MAX,
    }
}
