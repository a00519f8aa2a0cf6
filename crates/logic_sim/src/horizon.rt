ghost use Rattle.std.specs.Prelude.{◌≡◌, ◌≤◌, ◌<◌, All, IfOk, length, replicate, true};
ghost use Rattle.logic_sim.specs.Horizon.{IsLeast, any_near, never};

use crate::signal_queue::SignalQueue;
use kdg_text::NoRoom;
use std::alloc::Global;

/// How soon pending events may come to the signals of a circuit. It is kept along as events come and
/// go: only what may have changed is found out anew.
#[derive(Drop)]
pub struct Horizon {
    /// For each signal the least time at which an event, or what follows from it, may change it.
    pub(crate) near: Vec<u64>,
    /// For each signal the least of these times among its drivers.
    pub(crate) entries: Vec<u64>,
    /// The signals of which this may be out of date.
    pub(crate) stale: SignalQueue,
}

impl Horizon {
    /// A horizon of `signals` signals that knows nothing.
    pub(crate) fn new(alloc: Global, signals: usize) -> Result<Horizon, NoRoom>
        requires { signals ≤ 4096 }
        ensures near { IfOk result (λ horizon. horizon.near.items ≡ replicate signals never) }
        ensures entries { IfOk result (λ horizon. length horizon.entries.items ≡ signals) }
        ensures stale { IfOk result (λ horizon. horizon.stale ≡ replicate signals true) }
    {
        Ok(Horizon {
            near: vec![in alloc; u64::MAX; signals]?,
            entries: vec![in alloc; u64::MAX; signals]?,
            stale: SignalQueue::with_all(alloc, signals)?,
        })
    }

    /// Knows nothing again.
    pub(crate) fn forget(&mut self)
        requires { length self.old.stale ≤ 4096 }
        ensures near { self.new.near.items ≡ replicate (length self.old.near.items) never }
        ensures entries { self.new.entries ≡ self.old.entries }
        ensures stale { self.new.stale ≡ replicate (length self.old.stale) true }
    {
        self.near.fill(u64::MAX);
        self.stale.put_all();
    }

    /// The least time at which something may come to one of the signals.
    pub(crate) fn least_near(&self, signals: &[u32]) -> u64
        requires { All (λ signal. signal < length self.now.near.items) signals.now }
        ensures { IsLeast result (any_near self.now.near.items signals.now) }
    {
        let mut least = u64::MAX;
        for &signal in signals {
            least = least.min(self.near[signal as usize]);
        }
        least
    }
}
