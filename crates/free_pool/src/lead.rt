//! What the worker that tells does: the caller, who has the first seat.

ghost use Rattle.std.specs.Prelude.{◌≡◌, ◌≢◌, ◌++◌, ◌<◌, false, None, IfOk, IfSome, IsOk, OnErr, OnOk};
ghost use Rattle.text_outlet.specs.Sending.{TellsOn};
ghost use Rattle.free_pool.specs.Streams.{IsFrontTold, IsTellable, IsToldTo, text_of};
ghost use Rattle.free_pool.specs.Team.{HasWorked, MayWork};

use crate::bell::Bell;
use crate::hand::Hand;
use crate::lead_turn::{LeadTurned, Wish, take_lead_turn};
use crate::pick::Pick;
use crate::plan::Plan;
use crate::turns::{Next, give_up};
use app_laws::App;
use kdg_text::{NoRoom, Steps, Text};
use outer_edge::{Gate, Sink};
use output_log::part_laws;
use source_pool::laws::telling_laws;
use source_pool::perform_in_turn;
use std::alloc::Global;
use std::marker::Brand;
use std::sync::Wait;
use std::sync::ledger::{Blank, Ledger};
use text_outlet::Outlet;
use worker_gate::{Post, Seat};

/// From how many nanoseconds on that a task has to do, what there is to tell goes out after each turn.
const NOT_LIGHT: u64 = 3_000;

/// After how many ended tasks it does else: by then it takes little beside what the tasks did.
const MANY: u64 = 4_096;

/// When what there is to tell goes out.
#[derive(Clone, Copy)]
struct Rhythm {
    /// After how many more ended tasks.
    every: u64,
    /// How many tasks must have ended the next time.
    next: u64,
}

impl Rhythm {
    /// At once where a write takes little beside a task, and where it isn't known how much a task has to do;
    /// else once many tasks have ended.
    fn new(task_nanos: Option<u64>) -> Rhythm {
        let every = match task_nanos {
            Some(nanos) if nanos <= NOT_LIGHT => MANY,
            _ => 1,
        };
        Rhythm { every, next: 0 }
    }

    /// Whether it goes out at once.
    fn is_at_once(&self) -> bool {
        self.every == 1
    }

    /// What is wanted of a turn that claims by this pick: a drain, where so many tasks have ended that there is
    /// something to tell by an outlet. Where one of its writes has failed, none is.
    fn wish(&self, pick: Pick, outlet: &Outlet) -> Wish
        ensures { result.due ≢ None → outlet.now.has_failed ≡ false }
    {
        let due = if outlet.has_failed() {
            None
        } else {
            Some(self.next)
        };
        Wish { pick, due }
    }

    /// So many tasks had ended at the last turn.
    fn note(&mut self, ended: u64) {
        if ended >= self.next {
            self.next = ended.saturating_add(self.every);
        }
    }
}

/// What workers share.
#[derive(Drop)]
pub(crate) struct Shift<'s, G: Gate> {
    pub(crate) alloc: Global,
    pub(crate) gate: &'s G,
    pub(crate) plan: &'s Plan,
    pub(crate) bell: &'s Bell,
}

/// Works as the others do until nothing more is to be claimed, and tells meanwhile what comes before every
/// pending task, after its own turns, so that nobody waits for the sink. After a write has failed it tells
/// no more. Where memory runs out it gives up, so that all others stop too.
pub(crate) fn work_and_tell<'h, 'a, R: Wait, A: App, G: Gate, K: Sink>(
    rt: &R,
    shift: Shift<'_, G>,
    post: Post<'h, 'a, A>,
    outlet: &mut Outlet,
    out: &mut K,
) -> (Seat<'a, A>, Result<(), NoRoom>)
    requires may { MayWork post.hall.now post.app.now post.seat }
    requires first { post.seat.view.number ≡ 0 }
    requires tellable { IsTellable (A.meaning post.hall.now.origin.app) post.hall.now.origin.progress }
    requires told { IsToldTo (A.meaning post.hall.now.origin.app) post.hall.now.origin.progress post.seat.view.drained outlet.old.told }
    ensures worked { HasWorked post.entry.hall.now post.entry.seat result.0 }
    ensures told { OnOk result.1 (IsToldTo (A.meaning post.entry.hall.now.origin.app) post.entry.hall.now.origin.progress result.0.view.drained outlet.new.told) }
    ensures front { IsFrontTold (A.meaning post.entry.hall.now.origin.app) post.entry.hall.now.origin.progress outlet.new.told }
    ensures tells { TellsOn K.contents K.faults outlet.old out.old outlet.new out.new }
    ensures same_room { K.room out.new ≡ K.room out.old }
{
    let blank = Blank::new(1);
    let (plan, bell) = (shift.plan, shift.bell);
    let led = work_counted::<R, A, G, K, Brand>(rt, shift, post, outlet, out, blank);
    plan.backlog.close();
    bell.ring();
    led
}

/// The same, with a count of the sets that are asked for.
fn work_counted<'h, 'a, R: Wait, A: App, G: Gate, K: Sink, L: Ledger>(
    rt: &R,
    shift: Shift<'_, G>,
    post: Post<'h, 'a, A>,
    outlet: &mut Outlet,
    out: &mut K,
    blank: Blank,
) -> (Seat<'a, A>, Result<(), NoRoom>)
    requires name { blank.name ≡ L.name }
    requires parts { blank.parts ≡ L.parts }
    requires some { 0 < blank.parts }
    requires may { MayWork post.hall.now post.app.now post.seat }
    requires first { post.seat.view.number ≡ 0 }
    requires tellable { IsTellable (A.meaning post.hall.now.origin.app) post.hall.now.origin.progress }
    requires told { IsToldTo (A.meaning post.hall.now.origin.app) post.hall.now.origin.progress post.seat.view.drained outlet.old.told }
    ensures worked { HasWorked post.entry.hall.now post.entry.seat result.0 }
    ensures told { OnOk result.1 (IsToldTo (A.meaning post.entry.hall.now.origin.app) post.entry.hall.now.origin.progress result.0.view.drained outlet.new.told) }
    ensures front { IsFrontTold (A.meaning post.entry.hall.now.origin.app) post.entry.hall.now.origin.progress outlet.new.told }
    ensures tells { TellsOn K.contents K.faults outlet.old out.old outlet.new out.new }
    ensures same_room { K.room out.new ≡ K.room out.old }
{
    part_laws();
    telling_laws::<K>();
    let (app, hall, worker) = (post.app, post.hall, post.worker);
    let (gate, plan, bell) = (shift.gate, shift.plan, shift.bell);
    let mut seat = post.seat;
    let mut steps = Steps::<L>::new(blank);
    let mut hand = Hand::new(shift.alloc);
    let mut rhythm = Rhythm::new(app.task_nanos());
    let mut turns = 0u64;
    for _ in rt.forever() {
        // Read before the claims: an end after them is heard.
        let rung = bell.rung();
        let wish = rhythm.wish(plan.pick(gate.choose(plan.seed, worker, turns)), outlet);
        turns = turns.saturating_add(1);
        let (back, led) = take_lead_turn(rt, hall, seat, &mut hand, wish, plan, &mut steps);
        seat = back;
        let LeadTurned {
            turned,
            more,
            ended,
        } = led;
        if turned.ended > 0 || !hand.acted.is_empty() {
            bell.ring();
        }
        rhythm.note(ended);
        let Ok(()) = tell_more(outlet, out, more, ended, rhythm.is_at_once()) else {
            return (give_up(rt, hall, seat, bell), Err(NoRoom));
        };
        match turned.next {
            Next::Perform => {
                let jobs = &mut hand.jobs;
                let workers = worker..worker.saturating_add(1);
                let Ok(()) = perform_in_turn(app, gate, workers, jobs, &mut hand.dones) else {
                    return (give_up(rt, hall, seat, bell), Err(NoRoom));
                };
            }
            Next::Again => {}
            Next::Wait => bell.wait(rt, rung),
            Next::Stop => {
                bell.ring();
                return (seat, Ok(()));
            }
        }
    }
    unreachable!()
}

/// Tells what was drained, where something was. After `NoRoom` it isn't told.
fn tell_more<K: Sink>(
    outlet: &mut Outlet,
    out: &mut K,
    more: Result<Option<Text>, NoRoom>,
    ended: u64,
    at_once: bool,
) -> Result<(), NoRoom>
    requires { IfOk more (λ more. IfSome more (λ text. outlet.old.has_failed ≡ false)) }
    ensures told { OnOk result (IfOk more (λ more. outlet.new.told ≡ outlet.old.told ++ text_of more)) }
    ensures drained { OnOk result (IsOk more) }
    ensures nothing_told { OnErr result (outlet.new.told ≡ outlet.old.told) }
    ensures tells { TellsOn K.contents K.faults outlet.old out.old outlet.new out.new }
    ensures same_room { K.room out.new ≡ K.room out.old }
{
    match more? {
        Some(text) => outlet.tell(out, &text, ended, at_once),
        None => Ok(()),
    }
}
