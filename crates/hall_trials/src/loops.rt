//! What a worker does from its first turn to its last: it claims a task in one turn, performs it
//! outside of any, and ends it in another one.

ghost use Rattle.std.specs.Prelude.{◌≡◌, [], ◌∷◌, IsTrue};
ghost use Rattle.crew.specs.Jobs.{MayRun};
ghost use Rattle.hall_trials.specs.Seated.{HasWorked, IsOnlyJob, IsSeated, MayWork};

use crate::turns::{claim_in_turn, end_in_turn, give_up_in_turn};
use app_laws::App;
use graph_update::{Claim, Done, Job, perform};
use outer_edge::Still;
use std::sync::Wait;
use std::thread::yield_now;
use worker_gate::{Hall, Post, Seat};

/// Works until nothing more is to be claimed. Where memory runs out it gives up, so that all others
/// stop too.
pub fn work<'h, 'a, R: Wait, A: App>(rt: &R, post: Post<'h, 'a, A>) -> Post<'h, 'a, A>
    requires { MayWork post.hall.now post.app.now post.seat }
    ensures { HasWorked post.entry.hall.now post.entry.seat result.seat }
{
    let Post {
        app,
        hall,
        mut seat,
        worker,
    } = post;
    for _ in rt.forever() {
        let (back, goes_on) = work_once(rt, app, hall, seat, worker);
        seat = back;
        if !goes_on {
            return Post {
                app,
                hall,
                seat,
                worker,
            };
        }
    }
    unreachable!()
}

/// Claims a task, if there is one, performs it and ends it. The answer is whether there may be more to do.
fn work_once<'h, 'a, R: Wait, A: App>(
    rt: &R,
    app: &'a A,
    hall: &'h Hall<'a, A>,
    seat: Seat<'a, A>,
    worker: u32,
) -> (Seat<'a, A>, bool)
    requires { MayWork hall.now app.now seat }
    ensures worked { HasWorked hall.now seat.entry result.0 }
    ensures idle { IsTrue result.1 → result.0.view.jobs ≡ [] }
{
    let (seat, claim) = claim_in_turn(rt, hall, seat);
    match claim {
        Some(Claim::Job(job)) => perform_and_end(rt, app, hall, seat, worker, job),
        Some(Claim::NotYet) => {
            yield_now();
            (seat, true)
        }
        Some(Claim::Over(_) | Claim::Ended) => (seat, false),
        None => (give_up_in_turn(rt, hall, seat), false),
    }
}

/// Performs the task of the only job, and ends it in a turn.
fn perform_and_end<'h, 'a, R: Wait, A: App>(
    rt: &R,
    app: &'a A,
    hall: &'h Hall<'a, A>,
    seat: Seat<'a, A>,
    worker: u32,
    job: Job<A::Val>,
) -> (Seat<'a, A>, bool)
    requires seated { IsSeated hall.now seat }
    requires app { app.now ≡ hall.now.origin.app }
    requires only { seat.view.jobs ≡ job ∷ [] }
    requires may_run { MayRun (A.meaning app.now) job }
    ensures worked { HasWorked hall.now seat.entry result.0 }
    ensures idle { IsTrue result.1 → result.0.view.jobs ≡ [] }
{
    match perform(app, job, worker, &Still) {
        Ok(done) => end_or_stop(rt, hall, seat, done),
        Err(job) => {
            drop(job);
            (give_up_in_turn(rt, hall, seat), false)
        }
    }
}

/// Ends the task that was performed. Where that is refused, nothing more is to be claimed.
fn end_or_stop<'h, 'a, R: Wait, A: App>(
    rt: &R,
    hall: &'h Hall<'a, A>,
    seat: Seat<'a, A>,
    done: Done<A::Val>,
) -> (Seat<'a, A>, bool)
    requires seated { IsSeated hall.now seat }
    requires done { IsOnlyJob (A.meaning hall.now.origin.app) seat.view.jobs done }
    ensures worked { HasWorked hall.now seat.entry result.0 }
    ensures idle { IsTrue result.1 → result.0.view.jobs ≡ [] }
{
    let (seat, ended) = end_in_turn(rt, hall, seat, done);
    if ended {
        return (seat, true);
    }
    (give_up_in_turn(rt, hall, seat), false)
}
