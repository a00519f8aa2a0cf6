//! How the workers of a run come together.

ghost use Rattle.std.specs.Prelude.{◌≡◌, ◌-◌, ◌≤◌, ℕ, [], IfOk, IfSome, IsSomeAnd, IsTrue, map};
ghost use Rattle.std.specs.List.{All, AllByRecursion, AllZip};
ghost use Rattle.text_outlet.specs.Sending.{TellsOn};
ghost use Rattle.free_pool.specs.Streams.{IsFrontTold, IsTellable, IsToldTo};
ghost use Rattle.free_pool.specs.Team.{HasLed, HasWorked, IsReady, IsTeam, MayLead, MayWork, up_to};
ghost use Rattle.free_pool.specs.Turns.{IsSeated};

use crate::bell::Bell;
use crate::beside::beside;
use crate::lead::{Shift, work_and_tell};
use crate::plan::Plan;
use crate::worker::work;
use app_laws::App;
use kdg_text::NoRoom;
use outer_edge::{Gate, Sink};
use output_log::part_laws;
use std::alloc::Global;
use std::sync::Wait;
use std::thread::{self, Threads};
use text_outlet::Outlet;
use worker_gate::{Hall, Post, Seat, post_sends};

/// Who works in a run, and what chooses what they claim.
#[derive(Drop)]
pub(crate) struct Staff<'g, G: Gate> {
    pub(crate) gate: &'g G,
    pub(crate) seed: u64,
    pub(crate) workers: u32,
}

/// The worker that tells: its post, which is gone where memory ran out, and what it tells by.
#[derive(Drop)]
pub(crate) struct Lead<'h, 'a, A: App> {
    post: Option<Post<'h, 'a, A>>,
    outlet: Outlet,
}

/// Has `workers` workers work until nothing more is to be claimed, the caller among them, who is worker 0,
/// has the first seat and tells. It comes back when all have stopped, with all seats joined to the first one.
pub(crate) fn work_together<
    'h,
    'a,
    R: Threads + Wait + Sync,
    A: App + Sync,
    G: Gate + Sync,
    K: Sink,
>(
    rt: &R,
    alloc: Global,
    staff: Staff<'_, G>,
    post: Post<'h, 'a, A>,
    outlet: Outlet,
    out: &mut K,
) -> (Result<Seat<'a, A>, NoRoom>, Outlet)
    requires workers { 1 ≤ staff.workers }
    requires may { MayWork post.hall.now post.app.now post.seat }
    requires first { post.seat.view.number ≡ 0 }
    requires alone { (post.seat.view.splits ≡ 0) × (post.seat.view.unjoined ≡ []) }
    requires tellable { IsTellable (A.meaning post.hall.now.origin.app) post.hall.now.origin.progress }
    requires told { IsToldTo (A.meaning post.hall.now.origin.app) post.hall.now.origin.progress post.seat.view.drained outlet.told }
    ensures seated { IfOk result.0 (IsSeated post.entry.hall.now) }
    ensures first { IfOk result.0 (λ seat. seat.view.number ≡ 0) }
    ensures alone { IfOk result.0 (λ seat. seat.view.unjoined ≡ []) }
    ensures told { IfOk result.0 (λ seat. IsToldTo (A.meaning post.entry.hall.now.origin.app) post.entry.hall.now.origin.progress seat.view.drained result.1.told) }
    ensures front { IsFrontTold (A.meaning post.entry.hall.now.origin.app) post.entry.hall.now.origin.progress result.1.told }
    ensures tells { TellsOn K.contents K.faults outlet out.old result.1 out.new }
    ensures same_room { K.room out.new ≡ K.room out.old }
{
    part_laws();
    let Staff {
        gate,
        seed,
        workers,
    } = staff;
    let hall = post.hall;
    let bell = Bell::new(workers);
    let plan = Plan::new(seed, workers, gate.is_open(), post.app.task_nanos());
    let (posts, post) = match posts_of(alloc, workers, post) {
        Ok(posts) => posts,
        Err(post) => {
            drop(post);
            return (Err(NoRoom), outlet);
        }
    };
    let mut others = Some(posts);
    let mut lead = Lead {
        post: Some(post),
        outlet,
    };
    let shift = Shift {
        alloc,
        gate,
        plan: &plan,
        bell: &bell,
    };
    work_all(rt, shift, &mut others, &mut lead, out);
    let Lead { post, outlet } = lead;
    match (post, others) {
        (Some(own), Some(others)) => (Ok(joined(hall, own.seat, others)), outlet),
        (post, _) => {
            drop(post);
            (Err(NoRoom), outlet)
        }
    }
}

/// A post for each worker but the caller, whose own comes apart. Their seats are split from the caller's.
/// Where memory runs out, the caller's post comes back.
fn posts_of<'h, 'a, A: App>(
    alloc: Global,
    workers: u32,
    post: Post<'h, 'a, A>,
) -> Result<(Vec<Post<'h, 'a, A>>, Post<'h, 'a, A>), Post<'h, 'a, A>>
    requires workers { 1 ≤ workers }
    requires may { MayWork post.hall.now post.app.now post.seat }
    requires first { post.seat.view.number ≡ 0 }
    requires alone { (post.seat.view.splits ≡ 0) × (post.seat.view.unjoined ≡ []) }
    ensures numbers { IfOk result (λ posts. map (λ post. post.seat.view.number) posts.0.items ≡ up_to (workers - 1)) }
    ensures ready { IfOk result (λ posts. AllByRecursion (λ own. IsReady post.entry.hall.now (workers - 1) own.hall.now own.app.now own.seat) posts.0.items) }
    ensures own { IfOk result (λ posts. IsReady post.entry.hall.now (workers - 1) posts.1.hall.now posts.1.app.now posts.1.seat) }
    ensures first { IfOk result (λ posts. posts.1.seat.view.number ≡ 0) }
    ensures drained { IfOk result (λ posts. posts.1.seat.view.drained ≡ post.entry.seat.view.drained) }
{
    let Post {
        app,
        hall,
        mut seat,
        worker: first,
    } = post;
    let mut posts = Vec::new(alloc);
    for worker in 1..workers {
        let other = hall.split(&mut seat);
        match posts.push(Post {
            app,
            hall,
            seat: other,
            worker,
        }) {
            Ok(()) => {}
            Err(failed) => {
                drop(failed);
                return Err(Post {
                    app,
                    hall,
                    seat,
                    worker: first,
                });
            }
        }
    }
    Ok((
        posts,
        Post {
            app,
            hall,
            seat,
            worker: first,
        },
    ))
}

/// Has all workers work, each at its post, the one that tells in this thread. Where no thread can be started
/// for some of the others, their work is done after others', and where none can be, here at last.
fn work_all<'h, 'a, R: Threads + Wait + Sync, A: App + Sync, G: Gate + Sync, K: Sink>(
    rt: &R,
    shift: Shift<'_, G>,
    others: &mut Option<Vec<Post<'h, 'a, A>>>,
    lead: &mut Lead<'h, 'a, A>,
    out: &mut K,
)
    requires others { IfSome others.old (λ posts. All (λ post. MayWork post.hall.now post.app.now post.seat) posts.items) }
    requires lead { IfSome lead.old.post (λ post. MayLead A.meaning post.hall.now post.app.now post.seat lead.old.outlet.told) }
    ensures others { IfSome others.new (λ backs. IsSomeAnd others.old (λ posts. AllZip (λ post back. HasWorked post.hall.now post.seat back.seat) posts.items backs.items)) }
    ensures lead { IfSome lead.old.post (λ post. IsFrontTold (A.meaning post.hall.now.origin.app) post.hall.now.origin.progress lead.new.outlet.told × IfSome lead.new.post (λ back. HasLed A.meaning post.hall.now post.seat back.seat lead.new.outlet.told)) }
    ensures tells { TellsOn K.contents K.faults lead.old.outlet out.old lead.new.outlet out.new }
    ensures same_room { K.room out.new ≡ K.room out.old }
{
    if is_alone(others) {
        return work_first(rt, shift, lead, out);
    }
    post_sends::<A>();
    let Shift {
        alloc,
        gate,
        plan,
        bell,
    } = shift;
    beside(
        rt,
        &|others: &mut Option<Vec<Post<A>>>|
            requires { IfSome others.old (λ posts. All (λ post. MayWork post.hall.now post.app.now post.seat) posts.items) }
            ensures { IfSome others.new (λ backs. IsSomeAnd others.old (λ posts. AllZip (λ post back. HasWorked post.hall.now post.seat back.seat) posts.items backs.items)) }
        { work_others(rt, alloc, gate, plan, bell, others) },
        others,
        &|lead: &mut Lead<A>, out: &mut K|
            requires { IfSome lead.old.post (λ post. MayLead A.meaning post.hall.now post.app.now post.seat lead.old.outlet.told) }
            ensures { (IfSome lead.old.post (λ post. IsFrontTold (A.meaning post.hall.now.origin.app) post.hall.now.origin.progress lead.new.outlet.told × IfSome lead.new.post (λ back. HasLed A.meaning post.hall.now post.seat back.seat lead.new.outlet.told))) × (TellsOn K.contents K.faults lead.old.outlet out.old lead.new.outlet out.new) × (K.room out.new ≡ K.room out.old) }
        {
            let shift = Shift {
                alloc,
                gate,
                plan,
                bell,
            };
            work_first(rt, shift, lead, out)
        },
        lead,
        out,
    );
}

/// Whether there are no others.
fn is_alone<'h, 'a, A: App>(others: &Option<Vec<Post<'h, 'a, A>>>) -> bool
    ensures { IsTrue result → IfSome others.now (λ posts. posts.items ≡ []) }
{
    match others {
        Some(posts) => posts.is_empty(),
        None => true,
    }
}

/// Has the others work, each at its post. Where memory runs out, no post is left.
fn work_others<'h, 'a, R: Threads + Wait + Sync, A: App + Sync, G: Gate + Sync>(
    rt: &R,
    alloc: Global,
    gate: &G,
    plan: &Plan,
    bell: &Bell,
    others: &mut Option<Vec<Post<'h, 'a, A>>>,
)
    requires { IfSome others.old (λ posts. All (λ post. MayWork post.hall.now post.app.now post.seat) posts.items) }
    ensures { IfSome others.new (λ backs. IsSomeAnd others.old (λ posts. AllZip (λ post back. HasWorked post.hall.now post.seat back.seat) posts.items backs.items)) }
{
    let Some(posts) = others.take() else {
        return;
    };
    *others = work_at(rt, alloc, gate, plan, bell, posts).ok();
}

/// Has workers work, each at its post, the last one in this thread. Where no thread can be started for some
/// of them, their work is done here, after the others'.
fn work_at<'h, 'a, R: Threads + Wait + Sync, A: App + Sync, G: Gate + Sync>(
    rt: &R,
    alloc: Global,
    gate: &G,
    plan: &Plan,
    bell: &Bell,
    posts: Vec<Post<'h, 'a, A>>,
) -> Result<Vec<Post<'h, 'a, A>>, NoRoom>
    requires { All (λ post. MayWork post.hall.now post.app.now post.seat) posts.items }
    ensures { IfOk result (λ backs. AllZip (λ post back. HasWorked post.hall.now post.seat back.seat) posts.entry.items backs.items) }
{
    post_sends::<A>();
    let backs = thread::map_vec(
        rt,
        posts,
        &|post: Post<A>| -> Post<A>
            requires { MayWork post.hall.now post.app.now post.seat }
            ensures { HasWorked post.entry.hall.now post.entry.seat result.seat }
        { work(rt, alloc, gate, plan, bell, post) },
    )?;
    Ok(backs)
}

/// Has the first one work and tell.
fn work_first<'h, 'a, R: Wait, A: App, G: Gate, K: Sink>(
    rt: &R,
    shift: Shift<'_, G>,
    lead: &mut Lead<'h, 'a, A>,
    out: &mut K,
)
    requires { IfSome lead.old.post (λ post. MayLead A.meaning post.hall.now post.app.now post.seat lead.old.outlet.told) }
    ensures lead { IfSome lead.old.post (λ post. IsFrontTold (A.meaning post.hall.now.origin.app) post.hall.now.origin.progress lead.new.outlet.told × IfSome lead.new.post (λ back. HasLed A.meaning post.hall.now post.seat back.seat lead.new.outlet.told)) }
    ensures tells { TellsOn K.contents K.faults lead.old.outlet out.old lead.new.outlet out.new }
    ensures same_room { K.room out.new ≡ K.room out.old }
{
    let Some(post) = lead.post.take() else {
        return;
    };
    let (app, hall, worker) = (post.app, post.hall, post.worker);
    let (seat, done) = work_and_tell(rt, shift, post, &mut lead.outlet, out);
    let post = Post {
        app,
        hall,
        seat,
        worker,
    };
    if done.is_ok() {
        // Nothing is there; an assignment would owe how long each of its fields lives.
        drop(lead.post.replace(post));
    } else {
        drop(post);
    }
}

/// The first seat with all others joined to it.
fn joined<'h, 'a, A: App>(
    hall: &'h Hall<'a, A>,
    mut seat: Seat<'a, A>,
    mut others: Vec<Post<'h, 'a, A>>,
) -> Seat<'a, A>
    requires { (n : ℕ) × IsTeam hall.now n seat (map (λ post. post.seat) others.items) }
    ensures seated { IsSeated hall.now result }
    ensures first { result.view.number ≡ 0 }
    ensures alone { result.view.unjoined ≡ [] }
    ensures drained { result.view.drained ≡ seat.entry.view.drained }
{
    while let Some(post) = others.pop() {
        hall.join(&mut seat, post.seat);
    }
    seat
}
