//! How the jobs of a round end.

ghost use Rattle.std.specs.Prelude.{◌≡◌, IfErr, IsPermutation, IsSortedByKey, OnOk};
ghost use Rattle.task_order.specs.Key.{key_cmp};
ghost use Rattle.source_pool.specs.Performing.{AreDone, EndAtFault, HaveEnded, IsHandOf, MayEnd};

use crate::RunFault;
use crate::hands::Hand;
use crate::laws::{ending_laws, kept_laws};
use app_laws::App;
use cell_store::Held;
use graph_update::{Done, Engine, Job};
use kdg_text::Steps;
use std::collections::VecDeque;
use std::sync::ledger::Ledger;

/// Puts what was done in the order of its keys.
pub(crate) fn order_ends<V: Held>(dones: &mut VecDeque<Done<V>>)
    ensures all { IsPermutation dones.old.items dones.new.items }
    ensures in_order { IsSortedByKey (λ done. done.task.key) key_cmp dones.new.items }
{
    dones
        .make_contiguous()
        .sort_unstable_by(|one, other| one.task.key.compare(&other.task.key));
}

/// Ends performed jobs, in the order of the list.
pub(crate) fn end_all<A: App, L: Ledger>(
    engine: &mut Engine<'_, A>,
    dones: &mut VecDeque<Done<A::Val>>,
    steps: &mut Steps<L>,
) -> Result<(), RunFault>
    requires may_end { MayEnd (A.meaning engine.old.app) (AreDone (A.meaning engine.old.app) dones.old.items) engine.old.progress }
    ensures app { engine.new.app ≡ engine.old.app }
    ensures ended { OnOk result (HaveEnded (A.meaning engine.old.app) (AreDone (A.meaning engine.old.app) dones.old.items) engine.old.progress engine.new.progress) }
    ensures fault { IfErr result (EndAtFault (A.meaning engine.old.app) (AreDone (A.meaning engine.old.app) dones.old.items) engine.old.progress) }
{
    ending_laws::<A>();
    kept_laws::<A>();
    while let Some(done) = dones.pop_front() {
        engine.finish(done, steps)?;
    }
    Ok(())
}

/// Ends the jobs of a hand, in order, where all of them are performed.
pub(crate) fn end_hand<A: App, L: Ledger>(
    engine: &mut Engine<'_, A>,
    hand: &mut Hand<Job<A::Val>, Done<A::Val>>,
    steps: &mut Steps<L>,
) -> Result<(), RunFault>
    requires may_end { MayEnd (A.meaning engine.old.app) (IsHandOf (A.meaning engine.old.app) hand.old) engine.old.progress }
    ensures app { engine.new.app ≡ engine.old.app }
    ensures ended { OnOk result (HaveEnded (A.meaning engine.old.app) (IsHandOf (A.meaning engine.old.app) hand.old) engine.old.progress engine.new.progress) }
    ensures fault { IfErr result (EndAtFault (A.meaning engine.old.app) (IsHandOf (A.meaning engine.old.app) hand.old) engine.old.progress) }
{
    if !hand.is_done {
        return Err(RunFault::NoRoom);
    }
    end_all(engine, &mut hand.dones, steps)
}
