//! Teams of workers, each of which begins a hall and closes it again.

ghost use Rattle.std.specs.Prelude.{◌≡◌, ◌+◌, ◌<◌, ◌≤◌, ◌++◌, ◌∷◌, suc, [], None, IfOk, OnOk, length};
ghost use Rattle.std.specs.List.{All};
ghost use Rattle.run_laws.specs.Rest.{NoneRuns};
ghost use Rattle.hall_trials.specs.Ends.{HasGoneOn};
ghost use Rattle.plain_laws.specs.Ranges.{down_from};
ghost use Rattle.hall_trials.specs.Team.{ArePosts, EachAt, EachPair, IsFirst, IsSplit};
ghost use Rattle.hall_trials.specs.Seated.{HasWorked, MayWork};

use crate::loops::work;
use crate::place::{Place, begin_hall};
use app_laws::App;
use graph_update::Engine;
use kdg_text::NoRoom;
use std::alloc::Global;
use std::sync::Wait;
use std::thread::{self, Threads};
use worker_gate::{Hall, Post, Seat, post_sends};

/// A hall over an engine, from its beginning until nothing more is to be claimed by so many workers.
pub fn worked<'a, R: Threads + Wait + Sync, A: App + Sync>(
    rt: &R,
    alloc: Global,
    engine: Engine<'a, A>,
    workers: u32,
) -> Result<Engine<'a, A>, NoRoom>
    requires few { workers ≤ 64 }
    requires idle { NoneRuns engine.progress.nodes }
    requires unmarked { engine.progress.over ≡ None }
    ensures { IfOk result (HasGoneOn A.meaning engine.entry) }
{
    let place = begin_hall(alloc, engine)?;
    worked_in(rt, alloc, place, workers)
}

/// A hall in which so many workers work, from its first seat on. It is let go where memory runs out.
fn worked_in<'a, R: Threads + Wait + Sync, A: App + Sync>(
    rt: &R,
    alloc: Global,
    place: Place<'a, A>,
    workers: u32,
) -> Result<Engine<'a, A>, NoRoom>
    requires few { workers ≤ 64 }
    requires app { place.app.now ≡ place.hall.origin.app }
    requires first { IsFirst place.hall [] place.seat }
    requires whole { place.seat.view.splits ≡ 0 }
    ensures { IfOk result (HasGoneOn A.meaning place.entry.hall.origin) }
{
    let mut place = place;
    let lent = &mut place;
    match work_at(rt, alloc, lent.app, &lent.hall, &mut lent.seat, workers) {
        Ok(()) => {
            let Place { app: _, hall, seat } = place;
            Ok(hall.close(seat))
        }
        Err(NoRoom) => {
            drop(place);
            Err(NoRoom)
        }
    }
}

/// So many workers work at a hall, of which this is the first seat. Each has a seat that is split from
/// it, and joined to it again.
fn work_at<'a, R: Threads + Wait + Sync, A: App + Sync>(
    rt: &R,
    alloc: Global,
    app: &'a A,
    hall: &Hall<'a, A>,
    seat: &mut Seat<'a, A>,
    workers: u32,
) -> Result<(), NoRoom>
    requires few { workers ≤ 64 }
    requires app { app.now ≡ hall.now.origin.app }
    requires first { IsFirst hall.now [] seat.old }
    requires whole { seat.old.view.splits ≡ 0 }
    ensures { OnOk result (IsFirst hall.now [] seat.new) }
{
    let posts = posts_of(alloc, app, hall, seat, workers)?;
    let mut backs = work_all(rt, posts)?;
    join_all(hall, seat, &mut backs);
    drop(backs);
    Ok(())
}

/// A post for each worker, in seats that are split from the first one.
fn posts_of<'h, 'a, A: App>(
    alloc: Global,
    app: &'a A,
    hall: &'h Hall<'a, A>,
    seat: &mut Seat<'a, A>,
    workers: u32,
) -> Result<Vec<Post<'h, 'a, A>>, NoRoom>
    requires few { workers ≤ 64 }
    requires app { app.now ≡ hall.now.origin.app }
    requires first { IsFirst hall.now [] seat.old }
    requires whole { seat.old.view.splits ≡ 0 }
    ensures { IfOk result (λ posts. ArePosts hall.now (λ post. post.hall.now) (λ post. post.app.now) (λ post. post.seat) workers seat.new posts.items) }
{
    let mut posts = Vec::new(alloc);
    match add_posts(app, hall, seat, &mut posts, workers) {
        Ok(()) => Ok(posts),
        Err(NoRoom) => {
            drop(posts);
            Err(NoRoom)
        }
    }
}

/// Adds a post for each worker.
fn add_posts<'h, 'a, A: App>(
    app: &'a A,
    hall: &'h Hall<'a, A>,
    seat: &mut Seat<'a, A>,
    posts: &mut Vec<Post<'h, 'a, A>>,
    workers: u32,
) -> Result<(), NoRoom>
    requires few { workers ≤ 64 }
    requires app { app.now ≡ hall.now.origin.app }
    requires none { ArePosts hall.now (λ post. post.hall.now) (λ post. post.app.now) (λ post. post.seat) 0 seat.old posts.old.items }
    ensures { OnOk result (ArePosts hall.now (λ post. post.hall.now) (λ post. post.app.now) (λ post. post.seat) workers seat.new posts.new.items) }
{
    for worker in 0..workers {
        add_post(app, hall, seat, posts, worker)?;
    }
    Ok(())
}

/// Adds the post of one more worker.
fn add_post<'h, 'a, A: App>(
    app: &'a A,
    hall: &'h Hall<'a, A>,
    seat: &mut Seat<'a, A>,
    posts: &mut Vec<Post<'h, 'a, A>>,
    worker: u32,
) -> Result<(), NoRoom>
    requires few { worker < 64 }
    requires app { app.now ≡ hall.now.origin.app }
    requires posts { ArePosts hall.now (λ post. post.hall.now) (λ post. post.app.now) (λ post. post.seat) worker seat.old posts.old.items }
    ensures { OnOk result (ArePosts hall.now (λ post. post.hall.now) (λ post. post.app.now) (λ post. post.seat) (worker + 1) seat.new posts.new.items) }
{
    let own = hall.split(seat);
    let post = Post {
        app,
        hall,
        seat: own,
        worker,
    };
    add_one(posts, post)?;
    Ok(())
}

/// Adds a value at the end of a list.
fn add_one<T: Drop>(list: &mut Vec<T>, value: T) -> Result<(), NoRoom>
    ensures { OnOk result (list.new.items ≡ list.old.items ++ value ∷ []) }
{
    list.push(value)?;
    Ok(())
}

/// Has all workers work, each at its post, the last one in this thread.
fn work_all<'h, 'a, R: Threads + Wait + Sync, A: App + Sync>(
    rt: &R,
    posts: Vec<Post<'h, 'a, A>>,
) -> Result<Vec<Post<'h, 'a, A>>, NoRoom>
    requires { All (λ post. MayWork post.hall.now post.app.now post.seat) posts.items }
    ensures long { IfOk result (λ backs. length backs.items ≡ length posts.entry.items) }
    ensures worked { IfOk result (λ backs. EachPair (λ post back. HasWorked post.hall.now post.seat back.seat) posts.entry.items backs.items) }
{
    post_sends::<A>();
    let backs = thread::map_vec(
        rt,
        posts,
        &|post: Post<A>| -> Post<A>
            requires { MayWork post.hall.now post.app.now post.seat }
            ensures { HasWorked post.entry.hall.now post.entry.seat result.seat }
        { work(rt, post) },
    )?;
    Ok(backs)
}

/// Joins all other seats to the first one.
fn join_all<'h, 'a, A: App>(
    hall: &'h Hall<'a, A>,
    seat: &mut Seat<'a, A>,
    posts: &mut Vec<Post<'h, 'a, A>>,
)
    requires first { IsFirst hall.now (down_from (length posts.old.items)) seat.old }
    requires posts { EachAt (λ k post. IsSplit hall.now (suc k) [] post.seat) posts.old.items }
    ensures { IsFirst hall.now [] seat.new }
{
    while let Some(post) = posts.pop() {
        hall.join(seat, post.seat);
    }
}
