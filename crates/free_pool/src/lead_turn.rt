//! A turn of the worker that tells.

ghost use Rattle.std.specs.Prelude.{◌≡◌, ◌≢◌, ◌++◌, List, ℕ, [], length, None, IfOk, IfSome, IsTrue};
ghost use Rattle.std.specs.List.{AllByRecursion};
ghost use Rattle.crew.specs.Jobs.{MayRun};
ghost use Rattle.run_laws.specs.Jobs.{Job};
ghost use Rattle.run_laws.specs.Moves.{Moved};
ghost use Rattle.free_pool.specs.Acted.{jobs_stuck, keys_acted};
ghost use Rattle.free_pool.specs.Streams.{HasDrainedAt, IsDrain, IsTellable, IsToldTo, text_of};
ghost use Rattle.free_pool.specs.Turns.{AreDone, AreToPerform, GoesOn, IsSeated, MayEnd, jobs_left, keys_ended};

use crate::acting::Stuck;
use crate::hand::Hand;
use crate::pick::Pick;
use crate::plan::Plan;
use crate::turns::{Turned, leave_as, work_in_turn};
use app_laws::App;
use graph_update::Engine;
use kdg_text::{NoRoom, Steps, Text};
use output_log::{join_laws, part_laws};
use run_laws::{course_drain_laws, move_laws};
use source_pool::laws::drained_laws;
use std::sync::Wait;
use std::sync::ledger::Ledger;
use worker_gate::{Hall, Seat, continuing_laws};

/// What the worker that tells wants of a turn.
#[derive(Clone, Copy)]
pub(crate) struct Wish {
    /// What it claims.
    pub(crate) pick: Pick,
    /// How many tasks must have ended for a drain. Where there is no number, nothing is to be drained.
    pub(crate) due: Option<u64>,
}

impl Wish {
    /// Whether there is to be a drain where so many tasks have ended.
    fn is_due(&self, ended: u64) -> bool
        ensures { IsTrue result → self.now.due ≢ None }
    {
        match self.due {
            Some(due) => ended >= due,
            None => false,
        }
    }
}

/// What comes of such a turn.
#[derive(Drop)]
pub(crate) struct LeadTurned {
    /// What came of the tasks.
    pub(crate) turned: Turned,
    /// What is to be told, where something was drained. After `NoRoom` nothing was, and a mark stands.
    pub(crate) more: Result<Option<Text>, NoRoom>,
    /// How many tasks have ended in all.
    pub(crate) ended: u64,
}

/// `take_turn` for the first seat. Where that is due, it drains at last what comes before every pending task.
pub(crate) fn take_lead_turn<'h, 'a, R: Wait, A: App, L: Ledger>(
    rt: &R,
    hall: &'h Hall<'a, A>,
    seat: Seat<'a, A>,
    hand: &mut Hand<A::Val>,
    wish: Wish,
    plan: &Plan,
    steps: &mut Steps<L>,
) -> (Seat<'a, A>, LeadTurned)
    requires seated { IsSeated hall.now seat }
    requires first { seat.view.number ≡ 0 }
    requires done { AreDone (A.meaning hall.now.origin.app) seat.view.jobs hand.old.dones.items }
    requires tellable { IsTellable (A.meaning hall.now.origin.app) hall.now.origin.progress }
    ensures seated { IsSeated hall.now result.0 }
    ensures number { result.0.view.number ≡ seat.entry.view.number }
    ensures unjoined { result.0.view.unjoined ≡ seat.entry.view.unjoined }
    ensures jobs { GoesOn result.1.turned.next → result.0.view.jobs ≡ jobs_left seat.entry.view.jobs result.1.turned.ended hand.new.jobs.items }
    ensures may_run { AllByRecursion (MayRun (A.meaning hall.now.origin.app)) hand.new.jobs.items }
    ensures claimed { AreToPerform hand.new.jobs.items result.1.turned.next }
    ensures all { GoesOn result.1.turned.next → result.1.turned.ended ≡ length hand.old.dones.items }
    ensures none { GoesOn result.1.turned.next → hand.new.dones.items ≡ [] }
    ensures due { IfOk result.1.more (λ more. IfSome more (λ text. wish.due ≢ None)) }
    ensures told { IfOk result.1.more (λ more. (told : List ℕ) → IsToldTo (A.meaning hall.now.origin.app) hall.now.origin.progress seat.entry.view.drained told → IsToldTo (A.meaning hall.now.origin.app) hall.now.origin.progress result.0.view.drained (told ++ text_of more)) }
{
    join_laws();
    part_laws();
    course_drain_laws::<A>();
    drained_laws::<A>();
    continuing_laws::<A>();
    let mut turn = hall.enter(rt, seat);
    let (turned, stuck) = work_and_drain(turn.engine(), hand, wish, plan, steps);
    (leave_as(turn, turned.turned.ended, hand, &stuck), turned)
}

/// Ends the tasks that were performed, lets light tasks act, or claims others, and drains where that is due.
/// A task that was to act and didn't end comes back.
fn work_and_drain<'a, A: App, L: Ledger>(
    engine: &mut Engine<'a, A>,
    hand: &mut Hand<A::Val>,
    wish: Wish,
    plan: &Plan,
    steps: &mut Steps<L>,
) -> (LeadTurned, Option<Stuck<Engine<'a, A>>>)
    requires may_end { MayEnd (A.meaning engine.old.app) engine.old.progress hand.old.dones.items }
    ensures app { engine.new.app ≡ engine.old.app }
    ensures moved { (had : List (Job A.Val)) → AreDone (A.meaning engine.old.app) had hand.old.dones.items → Moved (A.meaning engine.old.app) engine.old.progress had engine.new.progress (jobs_stuck result.1 ++ jobs_left had result.0.turned.ended hand.new.jobs.items) (keys_ended had result.0.turned.ended ++ keys_acted hand.new.acted.items) }
    ensures drained { (had : List (Job A.Val)) → AreDone (A.meaning engine.old.app) had hand.old.dones.items → IfOk result.0.more (HasDrainedAt (A.meaning engine.old.app) engine.old.progress had engine.new.progress (jobs_stuck result.1 ++ jobs_left had result.0.turned.ended hand.new.jobs.items) (keys_ended had result.0.turned.ended ++ keys_acted hand.new.acted.items)) }
    ensures due { IfOk result.0.more (λ more. IfSome more (λ text. wish.due ≢ None)) }
    ensures may_run { AllByRecursion (MayRun (A.meaning engine.old.app)) hand.new.jobs.items }
    ensures claimed { AreToPerform hand.new.jobs.items result.0.turned.next }
    ensures all { GoesOn result.0.turned.next → result.0.turned.ended ≡ length hand.old.dones.items }
    ensures none { GoesOn result.0.turned.next → hand.new.dones.items ≡ [] }
    ensures goes_on { GoesOn result.0.turned.next → result.1 ≡ None }
{
    move_laws::<A>();
    plan.backlog.meet(engine.ended());
    let (turned, stuck) = work_in_turn(engine, hand, wish.pick, plan, steps);
    let ended = engine.ended();
    let more = drain_where(engine, wish.is_due(ended));
    let turned = LeadTurned {
        turned,
        more,
        ended,
    };
    (turned, stuck)
}

/// Drains where that is asked for. Where memory runs out, a mark stands afterwards.
fn drain_where<A: App>(engine: &mut Engine<'_, A>, asked: bool) -> Result<Option<Text>, NoRoom>
    ensures app { engine.new.app ≡ engine.old.app }
    ensures drained { IfOk result (IsDrain (A.meaning engine.old.app) engine.old.progress engine.new.progress) }
    ensures asked { IfOk result (λ more. IfSome more (λ text. IsTrue asked)) }
    ensures moved { (jobs : List (Job A.Val)) → Moved (A.meaning engine.old.app) engine.old.progress jobs engine.new.progress jobs [] }
{
    move_laws::<A>();
    if !asked {
        return Ok(None);
    }
    match engine.drain() {
        Ok(text) => Ok(Some(text)),
        Err(NoRoom) => {
            engine.give_up();
            Err(NoRoom)
        }
    }
}
