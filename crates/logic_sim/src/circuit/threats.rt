ghost use Rattle.std.specs.Prelude.{◌≡◌, ◌+◌, ◌<◌, ◌≤◌, All, length, min, nat_le, slice_index};
ghost use Rattle.std.specs.List.{list_all};
ghost use Rattle.app_laws.specs.Applications.{IsFitTask, IsSource, tasks_before};
ghost use Rattle.logic_sim.specs.Distance.{is_safe};
ghost use Rattle.logic_sim.specs.Event.{delay_of, time_of};
ghost use Rattle.logic_sim.specs.Horizon.{ArePending, Tells, TellsAll, never};
ghost use Rattle.logic_sim.specs.Meaning.{simulation};
ghost use Rattle.task_order.specs.TaskList.{IsAscending};
ghost use Rattle.logic_sim.specs.Wiring.{fan_in_of, readers_of, signal_at};

use super::Circuit;
use crate::event::CHANGE;
use crate::horizon::Horizon;
use bench_reader::Form;
use std::slice;
use task_order::{PendingTasks, Task};

impl Circuit {
    /// Whether no earlier event threatens this one, with which none of them conflicts. All that are
    /// pending are asked: those that are later come too late, and so do changes of the same signal.
    pub(super) fn is_unthreatened<P: PendingTasks>(
        &self,
        task: &Task,
        pending: &P,
        horizon: &Horizon,
    ) -> bool
        requires fit { IsFitTask (simulation self.now) task.now }
        requires pending { ArePending self.now (P.tasks pending.now) (P.writers pending.now) }
        requires told { Tells self.now horizon.now (P.tasks pending.now) }
        requires settled { TellsAll self.now horizon.now (P.tasks pending.now) }
        requires apart { IsSource (simulation self.now) task.now (tasks_before task.now.key (P.tasks pending.now)) }
        ensures { result ≡ is_safe self.now task.now (tasks_before task.now.key (P.tasks pending.now)) }
    {
        let time = task.key.prio / 2;
        let signal = task.body.at;
        if task.body.kind != CHANGE {
            return horizon.least_near(self.read_by(signal)) > time;
        }
        let next = self
            .plan_moment(pending, signal)
            .min(self.driven_moment(horizon, signal));
        next > time && self.gates_come_later(horizon, signal, time)
    }

    /// The signals whose values decide that of a signal.
    fn read_by(&self, signal: u32) -> &[u32]
        requires { signal < length self.now.deck.signals }
        ensures fan_in { result.now ≡ fan_in_of (signal_at self.now.deck.signals signal).form }
        ensures in_range { All (λ driver. driver < length self.now.deck.signals) result.now }
    {
        match &self.deck.signals.items()[signal as usize].form {
            Form::Input => &[],
            Form::Gate { fan_in, .. } => fan_in.items(),
            Form::Dff { source } => slice::from_ref(source),
        }
    }

    /// The least time at which a signal may change because of one that drives it.
    fn driven_moment(&self, horizon: &Horizon, signal: u32) -> u64
        requires signal { signal < length self.now.deck.signals }
        requires entries { length self.now.deck.signals ≤ length horizon.now.entries.items }
        ensures { result ≡ min (slice_index horizon.now.entries.items signal + delay_of self.now signal) never }
    {
        horizon.entries[signal as usize].saturating_add(self.delay(signal))
    }

    /// Whether nothing may come to one of the gates that a signal drives before the time.
    fn gates_come_later(&self, horizon: &Horizon, signal: u32, time: u64) -> bool
        requires signal { signal < length self.now.deck.signals }
        requires entries { length self.now.deck.signals ≤ length horizon.now.entries.items }
        ensures { result ≡ list_all (λ gate. nat_le time (slice_index horizon.now.entries.items gate)) (readers_of self.now.deck.signals signal) }
    {
        let gates = self.gates_reading(signal);
        for &gate in gates {
            if horizon.entries[gate as usize] < time {
                return false;
            }
        }
        true
    }
}

/// Whether no pending task has an earlier time than this one.
pub(super) fn none_is_before<P: PendingTasks>(task: &Task, pending: &P) -> bool
    ensures ascending { IsAscending (P.tasks pending.now) }
    ensures none { result ≡ list_all (λ other. nat_le (time_of task.now.key.prio) (time_of other.key.prio)) (P.tasks pending.now) }
{
    match pending.earliest() {
        Some(first) => first.key.prio / 2 >= task.key.prio / 2,
        None => true,
    }
}
