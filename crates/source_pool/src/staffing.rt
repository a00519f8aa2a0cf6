//! How the workers of a run are kept while its rounds go on.

ghost use Rattle.std.specs.Prelude.{◌≡◌, ◌<◌, ◌≤◌, ◌^◌, [], ◌∷◌, false, ℕ, List, IfOk, IfErr};
ghost use Rattle.std.specs.List.{All};
ghost use Rattle.cell_store.specs.Values.{values_of};
ghost use Rattle.source_pool.specs.Legs.{BeginsAtRest};
ghost use Rattle.source_pool.specs.Runs.{IsRunFault};
ghost use Rattle.source_pool.specs.Staffing.{HasRun, IsOneAtRest};
ghost use Rattle.source_pool.specs.Streams.{IsCutShort, IsToldEnd};
ghost use Rattle.text_outlet.specs.Sending.{TellsMore};

use crate::RunFault;
use crate::begun::Begun;
use crate::beside::beside;
use crate::crossing::post_sends;
use crate::partners::{Partners, Post, keep_workers, serve_all};
use crate::round_lists::RoundLists;
use crate::rounds::{Staff, counted_rounds};
use crate::work::Work;
use app_laws::{App, Finals};
use graph_update::Engine;
use kdg_text::NoRoom;
use outer_edge::{Gate, Sink};
use std::alloc::Global;
use std::marker::Brand;
use std::sync::ledger::Blank;
use std::thread::Threads;
use text_outlet::Outlet;

/// The rounds of a run. Where its tasks are worth it, the workers are kept till its end.
pub(crate) fn staffed_rounds<'a, R: Threads + Sync, A: App + Sync, G: Gate + Sync, K: Sink>(
    rt: &R,
    alloc: Global,
    engine: Engine<'a, A>,
    staff: Staff<'_, G>,
    outlet: &mut Outlet,
    out: &mut K,
) -> Result<(Finals<A::Val>, u64), RunFault>
    requires workers { 1 ≤ staff.workers }
    requires rest { BeginsAtRest (A.meaning engine.app) engine.progress }
    requires limited { engine.progress.limit < 2 ^ 64 }
    requires no_fault { outlet.old.has_failed ≡ false }
    ensures end { IfOk result (λ run. (told : List ℕ) × TellsMore K.contents K.faults outlet.old out.old outlet.new out.new told × IsToldEnd (A.meaning engine.entry.app) engine.entry.progress outlet.new.has_failed told run.0 run.1) }
    ensures fit { IfOk result (λ run. (A.meaning engine.entry.app).is_fit_cells (values_of run.0.store)) }
    ensures fault { IfErr result (IsRunFault (A.meaning engine.entry.app) engine.entry.progress) }
    ensures cut { IfErr result (λ why. (told : List ℕ) × TellsMore K.contents K.faults outlet.old out.old outlet.new out.new told × IsCutShort (A.meaning engine.entry.app) engine.entry.progress outlet.new.has_failed told why) }
    ensures same_room { K.room out.new ≡ K.room out.old }
{
    let app = engine.app();
    let work = Work::new(app.task_nanos());
    let mut partners = Partners::none(alloc, app);
    if !work.keeps_workers(staff.workers) {
        let lists = RoundLists::new(alloc, work, partners);
        return all_rounds(rt, Begun { engine, lists }, staff, outlet, out);
    }
    let posts = keep_workers(alloc, app, staff.workers, &mut partners)?;
    let lists = RoundLists::new(alloc, work, partners);
    rounds_beside(
        rt,
        alloc,
        Begun { engine, lists },
        posts,
        staff,
        outlet,
        out,
    )
}

/// The rounds of a run in this thread, while each kept worker plays the hands that come, in its own.
fn rounds_beside<'a, R: Threads + Sync, A: App + Sync, G: Gate + Sync, K: Sink>(
    rt: &R,
    alloc: Global,
    begun: Begun<'a, A>,
    posts: Vec<Post<'a, A>>,
    staff: Staff<'_, G>,
    outlet: &mut Outlet,
    out: &mut K,
) -> Result<(Finals<A::Val>, u64), RunFault>
    requires workers { 1 ≤ staff.workers }
    requires rest { BeginsAtRest (A.meaning begun.engine.app) begun.engine.progress }
    requires limited { begun.engine.progress.limit < 2 ^ 64 }
    requires no_fault { outlet.old.has_failed ≡ false }
    ensures run { HasRun (A.meaning begun.entry.engine.app) begun.entry.engine.progress K.contents K.faults outlet.old out.old outlet.new out.new result }
    ensures same_room { K.room out.new ≡ K.room out.old }
{
    post_sends::<A>();
    let (gate, seed, workers) = (staff.gate, staff.seed, staff.workers);
    let mut runs = listed(alloc, begun)?;
    let mut posts = Some(posts);
    let mut own = || -> Result<(Finals<A::Val>, u64), RunFault>
        requires { (1 ≤ workers) × (outlet.now.has_failed ≡ false) × IsOneAtRest A.meaning runs.items }
        ensures run { All (λ begun. HasRun (A.meaning begun.engine.app) begun.engine.progress K.contents K.faults outlet.entry.now out.entry.now outlet.exit.now out.exit.now result) runs.entry.items }
        ensures same_room { K.room out.exit.now ≡ K.room out.entry.now }
    { first_of(rt, gate, seed, workers, &mut runs, outlet, out) };
    beside(
        rt,
        &|posts: &mut Option<Vec<Post<A>>>| { serve_all(rt, gate, posts) },
        &mut posts,
        &mut own,
    )
}

/// A list of this run alone. What is behind a list may be lent to a closure beside a thread's.
fn listed<'a, A: App>(alloc: Global, begun: Begun<'a, A>) -> Result<Vec<Begun<'a, A>>, NoRoom>
    ensures { IfOk result (λ runs. runs.items ≡ begun.entry ∷ []) }
{
    let mut runs = Vec::new(alloc);
    runs.push(begun)?;
    Ok(runs)
}

/// The rounds of the run that is the list's only one.
fn first_of<R: Threads + Sync, A: App + Sync, G: Gate + Sync, K: Sink>(
    rt: &R,
    gate: &G,
    seed: u64,
    workers: u32,
    runs: &mut Vec<Begun<'_, A>>,
    outlet: &mut Outlet,
    out: &mut K,
) -> Result<(Finals<A::Val>, u64), RunFault>
    requires workers { 1 ≤ workers }
    requires no_fault { outlet.old.has_failed ≡ false }
    requires one { IsOneAtRest A.meaning runs.old.items }
    ensures run { All (λ begun. HasRun (A.meaning begun.engine.app) begun.engine.progress K.contents K.faults outlet.old out.old outlet.new out.new result) runs.old.items }
    ensures same_room { K.room out.new ≡ K.room out.old }
{
    let Some(begun) = runs.pop() else {
        unreachable!()
    };
    let staff = Staff {
        gate,
        seed,
        workers,
    };
    all_rounds(rt, begun, staff, outlet, out)
}

/// The rounds of a run in this thread.
fn all_rounds<'a, R: Threads + Sync, A: App + Sync, G: Gate + Sync, K: Sink>(
    rt: &R,
    begun: Begun<'a, A>,
    staff: Staff<'_, G>,
    outlet: &mut Outlet,
    out: &mut K,
) -> Result<(Finals<A::Val>, u64), RunFault>
    requires workers { 1 ≤ staff.workers }
    requires rest { BeginsAtRest (A.meaning begun.engine.app) begun.engine.progress }
    requires limited { begun.engine.progress.limit < 2 ^ 64 }
    requires no_fault { outlet.old.has_failed ≡ false }
    ensures run { HasRun (A.meaning begun.entry.engine.app) begun.entry.engine.progress K.contents K.faults outlet.old out.old outlet.new out.new result }
    ensures same_room { K.room out.new ≡ K.room out.old }
{
    let Begun { engine, mut lists } = begun;
    let blank = Blank::new(1);
    let run = counted_rounds::<R, A, G, K, Brand>(
        rt, &mut lists, engine, staff, outlet, out, blank,
    );
    let RoundLists { partners, .. } = lists;
    partners.dismiss();
    run
}
