//! What a worker does from its first turn to its last.

ghost use Rattle.std.specs.Prelude.{◌≡◌, ◌<◌, []};
ghost use Rattle.free_pool.specs.Team.{HasWorked, MayWork};
ghost use Rattle.free_pool.specs.Turns.{IsSeated};

use crate::bell::Bell;
use crate::hand::Hand;
use crate::plan::Plan;
use crate::turns::{Next, give_up, take_turn};
use app_laws::App;
use kdg_text::Steps;
use outer_edge::Gate;
use source_pool::perform_in_turn;
use std::alloc::Global;
use std::marker::Brand;
use std::sync::Wait;
use std::sync::ledger::{Blank, Ledger};
use worker_gate::{Post, Seat};

/// Works until nothing more is to be claimed. Where memory runs out it gives up, so that all others
/// stop too.
pub(crate) fn work<'h, 'a, R: Wait, A: App, G: Gate>(
    rt: &R,
    alloc: Global,
    gate: &G,
    plan: &Plan,
    bell: &Bell,
    post: Post<'h, 'a, A>,
) -> Post<'h, 'a, A>
    requires { MayWork post.hall.now post.app.now post.seat }
    ensures { HasWorked post.entry.hall.now post.entry.seat result.seat }
{
    let blank = Blank::new(1);
    let (app, hall, worker) = (post.app, post.hall, post.worker);
    let seat = work_counted::<R, A, G, Brand>(rt, alloc, gate, plan, bell, post, blank);
    Post {
        app,
        hall,
        seat,
        worker,
    }
}

/// Works until nothing more is to be claimed, with a count of the sets that are asked for.
fn work_counted<'h, 'a, R: Wait, A: App, G: Gate, L: Ledger>(
    rt: &R,
    alloc: Global,
    gate: &G,
    plan: &Plan,
    bell: &Bell,
    post: Post<'h, 'a, A>,
    blank: Blank,
) -> Seat<'a, A>
    requires name { blank.name ≡ L.name }
    requires parts { blank.parts ≡ L.parts }
    requires some { 0 < blank.parts }
    requires seated { IsSeated post.hall.now post.seat }
    requires app { post.app.now ≡ post.hall.now.origin.app }
    requires idle { post.seat.view.jobs ≡ [] }
    ensures seated { IsSeated post.entry.hall.now result }
    ensures number { result.view.number ≡ post.entry.seat.view.number }
    ensures unjoined { result.view.unjoined ≡ post.entry.seat.view.unjoined }
{
    let (app, hall, worker) = (post.app, post.hall, post.worker);
    let mut seat = post.seat;
    let mut steps = Steps::<L>::new(blank);
    let mut hand = Hand::new(alloc);
    let mut turns = 0u64;
    for _ in rt.forever() {
        // Read before the claims: an end after them is heard.
        let rung = bell.rung();
        let pick = plan.pick(gate.choose(plan.seed, worker, turns));
        turns = turns.saturating_add(1);
        let (back, turned) = take_turn(rt, hall, seat, &mut hand, pick, plan, &mut steps);
        seat = back;
        if turned.ended > 0 || !hand.acted.is_empty() {
            bell.ring();
        }
        match turned.next {
            Next::Perform => {
                let jobs = &mut hand.jobs;
                let workers = worker..worker.saturating_add(1);
                let Ok(()) = perform_in_turn(app, gate, workers, jobs, &mut hand.dones) else {
                    return give_up(rt, hall, seat, bell);
                };
            }
            // Where tasks acted, its own ring lets it go on at once.
            Next::Again => bell.wait(rt, rung),
            Next::Wait => bell.wait(rt, rung),
            Next::Stop => {
                bell.ring();
                return seat;
            }
        }
    }
    unreachable!()
}
