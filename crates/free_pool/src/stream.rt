//! A run by workers of which none waits for the end of a round, whose text goes to a sink meanwhile.

ghost use Rattle.std.specs.Prelude.{◌≡◌, ◌≤◌, [], None, true, false};
ghost use Rattle.outer_edge.specs.Transfers.{transfer_of};
ghost use Rattle.run_laws.specs.Progress.{Progress};
ghost use Rattle.run_laws.specs.Rest.{NoneRuns};
ghost use Rattle.source_pool.specs.Streams.{IsFitFlow};
ghost use Rattle.text_outlet.specs.Sending.{HasTold};
ghost use Rattle.worker_gate.specs.Fits.{Sum};
ghost use Rattle.free_pool.specs.Streams.{IsFlow, IsStreaming, IsTellable, IsToldTo};
ghost use Rattle.free_pool.specs.Turns.{IsSeated};

use crate::team::{Staff, work_together};
use app_laws::App;
use cell_store::value_laws;
use graph_update::{Claim, Engine};
use kdg_text::NoRoom;
use outer_edge::{Gate, Sink};
use output_log::{join_laws, part_laws};
use run_laws::{course_drain_laws, course_run_laws, rest_laws};
use source_pool::laws::{drained_laws, telling_laws};
use source_pool::{Flow, RunFault, rounds_to};
use std::alloc::Global;
use std::sync::Wait;
use std::thread::Threads;
use text_outlet::Outlet;
use worker_gate::{Hall, Post, Seat};

/// A hall that is let go where memory runs out.
#[derive(Drop)]
struct Place<'a, A: App> {
    app: &'a A,
    hall: Hall<'a, A>,
}

/// `run_free`, where the text goes to a sink while the run goes on. The caller, who is worker 0, tells after
/// its own turns that of the ended tasks that come before every pending one, in the order of their keys, and
/// what is left once all workers have stopped. Some of it may be held until a write pays, but no longer than
/// the run. After a write has failed nothing more is written, and the run goes on; what the log has then is
/// left to the finals. No rounds are counted.
pub fn free_to<'a, R: Threads + Wait + Sync, A: App + Sync, G: Gate + Sync, K: Sink>(
    rt: &R,
    alloc: Global,
    engine: Engine<'a, A>,
    gate: &G,
    seed: u64,
    workers: u32,
    out: &mut K,
) -> Flow<A::Val>
    requires workers { (1 ≤ workers) × (workers ≤ 64) }
    requires at_rest { NoneRuns engine.progress.nodes }
    requires not_over { engine.progress.over ≡ None }
    ensures flow { IsFlow (A.meaning engine.entry.app) engine.entry.progress (transfer_of K.contents K.faults out.old out.new) result }
    ensures fit { IsFitFlow (A.meaning engine.entry.app) result }
    ensures never_falls { K.faults out.old ≤ K.faults out.new }
    ensures same_room { K.room out.new ≡ K.room out.old }
{
    if workers == 1 && gate.is_open() {
        return run_alone(rt, alloc, engine, gate, seed, out);
    }
    part_laws();
    rest_laws::<A>();
    telling_laws::<K>();
    // Its contract tells what every engine keeps: the execution is sound.
    let _graph = engine.graph();
    let app = engine.app();
    let Ok((hall, seat)) = Hall::<A>::begin(alloc, engine) else {
        return Flow::NoRoom;
    };
    let place = Place { app, hall };
    let outlet = Outlet::new(alloc);
    let post = Post {
        app,
        hall: &place.hall,
        seat,
        worker: 0,
    };
    let staff = Staff {
        gate,
        seed,
        workers,
    };
    let (seat, outlet) = work_together(rt, alloc, staff, post, outlet, out);
    match seat {
        Ok(seat) => {
            let Place { app: _, hall } = place;
            end_flow(hall, seat, outlet, out)
        }
        Err(NoRoom) => {
            drop(place);
            Flow::NoRoom
        }
    }
}

/// Runs an execution in rounds on this thread, of which none is counted.
fn run_alone<'a, R: Threads + Sync, A: App + Sync, G: Gate + Sync, K: Sink>(
    rt: &R,
    alloc: Global,
    engine: Engine<'a, A>,
    gate: &G,
    seed: u64,
    out: &mut K,
) -> Flow<A::Val>
    requires at_rest { NoneRuns engine.progress.nodes }
    requires not_over { engine.progress.over ≡ None }
    ensures flow { IsFlow (A.meaning engine.entry.app) engine.entry.progress (transfer_of K.contents K.faults out.old out.new) result }
    ensures fit { IsFitFlow (A.meaning engine.entry.app) result }
    ensures never_falls { K.faults out.old ≤ K.faults out.new }
    ensures same_room { K.room out.new ≡ K.room out.old }
{
    match rounds_to(rt, alloc, engine, gate, seed, 1, out) {
        Flow::Ended {
            finals,
            rounds: _,
            failed,
        } => Flow::Ended {
            finals,
            rounds: 0,
            failed,
        },
        Flow::Budget {
            created,
            limit,
            failed,
        } => Flow::Budget {
            created,
            limit,
            failed,
        },
        Flow::NoRoom => Flow::NoRoom,
    }
}

/// What a run comes to whose workers have stopped. What is left of its text is told.
fn end_flow<'a, A: App, K: Sink>(
    hall: Hall<'a, A>,
    seat: Seat<'a, A>,
    mut outlet: Outlet,
    out: &mut K,
) -> Flow<A::Val>
    requires seated { IsSeated hall seat }
    requires first { seat.view.number ≡ 0 }
    requires alone { seat.view.unjoined ≡ [] }
    requires tellable { IsTellable (A.meaning hall.origin.app) hall.origin.progress }
    requires told { IsToldTo (A.meaning hall.origin.app) hall.origin.progress seat.view.drained outlet.told }
    ensures flow { (begin : K) → HasTold K.contents K.faults begin outlet out.old outlet.told → IsFlow (A.meaning hall.entry.origin.app) hall.entry.origin.progress (transfer_of K.contents K.faults begin out.new) result }
    ensures fit { IsFitFlow (A.meaning hall.entry.origin.app) result }
    ensures never_falls { (begin : K) → HasTold K.contents K.faults begin outlet out.old outlet.told → K.faults begin ≤ K.faults out.new }
    ensures same_room { K.room out.new ≡ K.room out.old }
{
    part_laws();
    telling_laws::<K>();
    let mut engine = hall.close(seat);
    match engine.claim(0) {
        Ok(Claim::Over(RunFault::Budget { created, limit })) => {
            outlet.flush(out);
            Flow::Budget {
                created,
                limit,
                failed: outlet.has_failed(),
            }
        }
        Ok(Claim::Ended) => tell_end(engine, outlet, out),
        Ok(Claim::Over(RunFault::NoRoom) | Claim::NotYet | Claim::Job(_)) | Err(NoRoom) => {
            Flow::NoRoom
        }
    }
}

/// The end of a run, of which what is left is told.
fn tell_end<'a, A: App, K: Sink>(
    mut engine: Engine<'a, A>,
    mut outlet: Outlet,
    out: &mut K,
) -> Flow<A::Val>
    requires ended { engine.progress.nodes ≡ [] }
    ensures flow { (origin : Progress A.Val) (sum : Sum A.Val) (begin : K) → IsStreaming (A.meaning engine.entry.app) K.contents K.faults origin sum begin engine.entry.progress outlet out.old → IsFlow (A.meaning engine.entry.app) origin (transfer_of K.contents K.faults begin out.new) result }
    ensures fit { IsFitFlow (A.meaning engine.entry.app) result }
    ensures never_falls { (begin : K) → HasTold K.contents K.faults begin outlet out.old outlet.told → K.faults begin ≤ K.faults out.new }
    ensures same_room { K.room out.new ≡ K.room out.old }
{
    course_run_laws::<A>();
    course_drain_laws::<A>();
    drained_laws::<A>();
    join_laws();
    part_laws();
    telling_laws::<K>();
    value_laws::<A::Val>();
    if outlet.has_failed() {
        let Ok(finals) = engine.end() else {
            return Flow::NoRoom;
        };
        return Flow::Ended {
            finals,
            rounds: 0,
            failed: true,
        };
    }
    let Ok(more) = engine.drain() else {
        return Flow::NoRoom;
    };
    let Ok(()) = outlet.tell(out, &more, engine.ended(), false) else {
        return Flow::NoRoom;
    };
    let Ok(finals) = engine.end() else {
        return Flow::NoRoom;
    };
    outlet.flush(out);
    Flow::Ended {
        finals,
        rounds: 0,
        failed: outlet.has_failed(),
    }
}
