ghost use Rattle.std.specs.Prelude.{◌≡◌, ◌≤◌, ◌<◌, All, IfOk, MatchOption, length, replicate, slice_index_or, slice_set, true, false};
ghost use Rattle.logic_sim.specs.Queue.{AreAdded};

use kdg_text::NoRoom;
use std::alloc::Global;
use std::collections::VecDeque;
use std::marker::Model;

/// Signals that wait, each at most once. They come in the order in which they were put in.
#[derive(Drop)]
pub(crate) struct SignalQueue {
    /// For each signal whether it waits.
    waits: Vec<bool>,
    order: VecDeque<u32>,
}

impl Model for SignalQueue {
    ghost use Rattle.std.specs.Prelude.{Bool, List};
    ghost use Rattle.std.specs.VecDeque.{deque_capacity};
    ghost use Rattle.logic_sim.specs.Queue.{IsQueue};

    ghost Value = { List Bool };

    ghost view = { λ queue. queue.waits.items };

    ghost invariant = { λ queue. IsQueue queue.waits.items queue.order.items (deque_capacity queue.order) };
}

impl SignalQueue {
    /// A queue in which each of `count` signals waits.
    pub(crate) fn with_all(alloc: Global, count: usize) -> Result<SignalQueue, NoRoom>
        requires { count ≤ 4096 }
        ensures { IfOk result (λ queue. queue ≡ replicate count true) }
    {
        let mut queue = SignalQueue {
            waits: vec![in alloc; false; count]?,
            order: VecDeque::with_capacity(alloc, count)?,
        };
        queue.put_all();
        Ok(queue)
    }

    /// Each signal waits.
    pub(crate) fn put_all(&mut self)
        requires { length self.old ≤ 4096 }
        ensures { self.new ≡ replicate (length self.old) true }
    {
        let count = self.waits.len();
        for signal in 0..count {
            self.put(signal as u32);
        }
    }

    /// A signal waits; one of another circuit doesn't.
    pub(crate) fn put(&mut self, signal: u32)
        ensures { self.new ≡ slice_set self.old signal true }
    {
        if self.has_or_lacks_place(signal) {
            return;
        }
        self.waits[signal as usize] = true;
        self.order.push_back_reserved(signal);
    }

    /// Whether a signal waits, or isn't one of those that may.
    fn has_or_lacks_place(&self, signal: u32) -> bool
        ensures { result ≡ slice_index_or self.now signal true }
    {
        self.waits.get(signal as usize).copied().unwrap_or(true)
    }

    /// The signals wait.
    pub(crate) fn put_each(&mut self, signals: &[u32])
        ensures { AreAdded self.old signals.now self.new }
    {
        for &signal in signals {
            self.put(signal);
        }
    }

    /// The signal that was put in first among those that wait, which then doesn't wait any more.
    pub(crate) fn take(&mut self) -> Option<u32>
        ensures { MatchOption result (All (λ waits. waits ≡ false) self.old × (self.new ≡ self.old)) (λ signal. (signal < length self.old) × (slice_index_or self.old signal false ≡ true) × (self.new ≡ slice_set self.old signal false)) }
    {
        match self.order.pop_front() {
            Some(signal) => {
                self.waits[signal as usize] = false;
                Some(signal)
            }
            None => None,
        }
    }
}
