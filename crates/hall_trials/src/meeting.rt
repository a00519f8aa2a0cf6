//! Two threads that meet at a hall.

ghost use Rattle.std.specs.Prelude.{◌≡◌, [], None, Some};
ghost use Rattle.run_laws.specs.Rest.{NoneRuns};
ghost use Rattle.graph_update.specs.Engine.{EngineState};
ghost use Rattle.worker_gate.specs.Steps.{left_by};
ghost use Rattle.hall_trials.specs.Seated.{HasWorked, IsSeated};
ghost use Rattle.hall_trials.specs.Team.{IsFirst, IsSplit};

use crate::inputs::Startable;
use crate::outcomes::begin;
use crate::place::{Place, begin_hall};
use app_laws::App;
use graph_update::{Counts, Engine};
use kdg_text::NoRoom;
use std::alloc::Global;
use std::marker::Brand;
use std::sync::atomic::{AtomicU64, Ordering};
use std::thread::{self, Threads};
use worker_gate::{EntryOf, Hall, Post, Seat, Turn, leaving_laws, post_sends};

/// No worker's number.
const NOBODY: u64 = u64::MAX;

/// What two threads meet at a hall.
#[derive(Clone, Copy)]
pub struct Meeting {
    /// The holders that the three tries met.
    pub holders: [Option<u32>; 3],
    /// How far the engine had come before it.
    pub before: Counts,
    /// How far it has come after it.
    pub after: Counts,
}

/// Two threads meet at a hall over an application's start. They don't where it has too many first tasks.
pub fn meet_at_start<R: Threads + Sync, A: Startable + Sync>(
    rt: &R,
    alloc: Global,
    app: &A,
) -> Result<Option<Meeting>, NoRoom> {
    match begin(alloc, app)? {
        Some(engine) => Ok(Some(meet(rt, alloc, engine)?)),
        None => Ok(None),
    }
}

/// Seat 0 takes the turn. While it has it, seat 1 tries in a second thread, and once it has left, seat 1
/// tries again.
fn meet<R: Threads + Sync, A: App + Sync>(
    rt: &R,
    alloc: Global,
    engine: Engine<'_, A>,
) -> Result<Meeting, NoRoom>
    requires idle { NoneRuns engine.progress.nodes }
    requires unmarked { engine.progress.over ≡ None }
{
    let before = engine.counts();
    let place = begin_hall(alloc, engine)?;
    let (holders, after) = meet_in(rt, place);
    Ok(Meeting {
        holders,
        before,
        after,
    })
}

/// The holders that they meet in a hall, and how far its engine has come after it.
fn meet_in<R: Threads + Sync, A: App + Sync>(
    rt: &R,
    place: Place<'_, A>,
) -> ([Option<u32>; 3], Counts)
    requires first { IsFirst place.hall [] place.seat }
    requires whole { place.seat.view.splits ≡ 0 }
{
    let Place { app, hall, seat } = place;
    let (seat, holders) = meet_at(rt, app, &hall, seat);
    (holders, counts_at_end(hall.close(seat)))
}

/// How far an engine has come that is let go.
fn counts_at_end<A: App>(engine: Engine<'_, A>) -> Counts {
    let counts = engine.counts();
    drop(engine);
    counts
}

/// They meet at a hall, of which this is the first seat.
fn meet_at<'h, 'a, R: Threads + Sync, A: App + Sync>(
    rt: &R,
    app: &'a A,
    hall: &'h Hall<'a, A>,
    seat: Seat<'a, A>,
) -> (Seat<'a, A>, [Option<u32>; 3])
    requires first { IsSplit hall.now 0 [] seat }
    requires whole { seat.view.splits ≡ 0 }
    ensures { IsSplit hall.now 0 [] result.0 }
{
    let mut seat = seat;
    let second = hall.split(&mut seat);
    let (mut first, second, holders) = try_by_turns(rt, app, hall, seat, second);
    hall.join(&mut first, second);
    (first, holders)
}

fn try_by_turns<'h, 'a, R: Threads + Sync, A: App + Sync>(
    rt: &R,
    app: &'a A,
    hall: &'h Hall<'a, A>,
    first: Seat<'a, A>,
    second: Seat<'a, A>,
) -> (Seat<'a, A>, Seat<'a, A>, [Option<u32>; 3])
    requires first { IsSeated hall.now first }
    requires second { IsSeated hall.now second }
    ensures first { HasWorked hall.now first.entry result.0 }
    ensures second { HasWorked hall.now second.entry result.1 }
{
    match hall.try_enter(first) {
        EntryOf::Turn(turn) => {
            let holder = AtomicU64::new(NOBODY);
            let post = Post {
                app,
                hall,
                seat: second,
                worker: 1,
            };
            let post = try_there(rt, post, &holder);
            let first = leave_as_found(turn);
            let (second, after) = try_here(hall, post.seat);
            (first, second, [None, told(&holder), after])
        }
        EntryOf::Busy { seat, holder } => (seat, second, [Some(holder), None, None]),
    }
}

/// Who had the turn when a worker was refused, if it was.
fn told(holder: &AtomicU64) -> Option<u32> {
    u32::try_from(holder.load(Ordering::SeqCst)).ok()
}

/// Tries in a second thread. Who has the turn when it is refused is written down.
fn try_there<'h, 'a, R: Threads + Sync, A: App + Sync>(
    rt: &R,
    post: Post<'h, 'a, A>,
    holder: &AtomicU64,
) -> Post<'h, 'a, A>
    requires { IsSeated post.hall.now post.seat }
    ensures { HasWorked post.entry.hall.now post.entry.seat result.seat }
{
    post_sends::<A>();
    let (back, ()) = thread::join(
        rt,
        move || -> Post<A>
            requires { IsSeated post.hall.now post.seat }
            ensures { HasWorked post.entry.hall.now post.entry.seat result.seat }
        { try_at(post, holder) },
        || (),
    );
    back
}

fn try_at<'h, 'a, A: App>(post: Post<'h, 'a, A>, holder: &AtomicU64) -> Post<'h, 'a, A>
    requires { IsSeated post.hall.now post.seat }
    ensures { HasWorked post.entry.hall.now post.entry.seat result.seat }
{
    let Post {
        app,
        hall,
        seat,
        worker,
    } = post;
    let (seat, refused_by) = try_here(hall, seat);
    if let Some(other) = refused_by {
        holder.store(u64::from(other), Ordering::SeqCst);
    }
    Post {
        app,
        hall,
        seat,
        worker,
    }
}

/// Tries once to take the turn, and leaves it again. The answer is who had it, where it was refused.
fn try_here<'h, 'a, A: App>(hall: &'h Hall<'a, A>, seat: Seat<'a, A>) -> (Seat<'a, A>, Option<u32>)
    requires { IsSeated hall.now seat }
    ensures { HasWorked hall.now seat.entry result.0 }
{
    match hall.try_enter(seat) {
        EntryOf::Turn(turn) => (leave_as_found(turn), None),
        EntryOf::Busy { seat, holder } => (seat, Some(holder)),
    }
}

/// Leaves a turn in which nothing was done.
fn leave_as_found<'h, 'a, A: App>(turn: Turn<'h, 'a, A>) -> Seat<'a, A>
    requires { turn.view.found ≡ Some turn.engine }
    ensures hall { result.hall ≡ turn.entry.hall }
    ensures view { (found : EngineState A A.Val) → turn.entry.view.found ≡ Some found → result.view ≡ left_by turn.entry.view.jobs [] turn.entry.view found turn.entry.engine }
{
    leaving_laws::<A>();
    turn.leave::<Brand>()
}
