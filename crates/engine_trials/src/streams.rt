//! Rounds whose text goes to a sink.

ghost use Rattle.std.specs.Prelude.{◌≤◌, ◌<◌, ◌^◌, length};
ghost use Rattle.app_laws.specs.Applications.{AreFitStarts};

use super::decks::RING;
use super::starts::Startable;
use app_laws::App;
use bench_reader::read_deck;
use cell_store::Held;
use graph_update::Engine;
use kdg_text::NoRoom;
use logic_sim::Circuit;
use outer_edge::{MemSink, Seeded};
use source_pool::{Flow, rounds_to};
use std::alloc::Global;
use std::test::Fail;
use std::thread::Threads;
use task_order::StartList;

/// How a run ends whose text goes to a sink.
#[derive(Clone, Copy, PartialEq, Eq)]
enum Ending {
    Ended {
        failed: bool,
    },
    Budget {
        created: u64,
        limit: u64,
        failed: bool,
    },
    NoRoom,
}

/// How a run ended.
fn ending_of<V: Held>(flow: &Flow<V>) -> Ending {
    match flow {
        Flow::Ended { failed, .. } => Ending::Ended { failed: *failed },
        Flow::Budget {
            created,
            limit,
            failed,
        } => Ending::Budget {
            created: *created,
            limit: *limit,
            failed: *failed,
        },
        Flow::NoRoom => Ending::NoRoom,
    }
}

/// How rounds by three workers from an application's start end.
fn rounds_end<R: Threads + Sync, A: Startable + Sync>(
    rt: &R,
    alloc: Global,
    app: &A,
    budget: u64,
    sink: &mut MemSink,
) -> Result<Ending, NoRoom>
    requires { budget ≤ 1_000_000_000 }
{
    let (cells, first) = (app.start_cells()?, app.start_tasks()?);
    Ok(rounds_end_from(rt, alloc, app, cells, first, budget, sink))
}

fn rounds_end_from<R: Threads + Sync, A: App + Sync>(
    rt: &R,
    alloc: Global,
    app: &A,
    cells: Vec<A::Val>,
    first: StartList,
    budget: u64,
    sink: &mut MemSink,
) -> Ending
    requires fit_cells { (A.meaning app.now).is_fit_cells cells.items }
    requires fit_first { AreFitStarts (A.meaning app.now) first }
    requires few { length first < 2 ^ 32 }
    requires budget { budget ≤ 1_000_000_000 }
{
    match Engine::begin_uncounted(alloc, app, cells, first, budget) {
        Ok(engine) => ending_of(&rounds_to(rt, alloc, engine, &Seeded, 1, 3, sink)),
        Err(_) => Ending::NoRoom,
    }
}

/// How rounds of a ring end that turns at each time.
fn ring_ends<R: Threads + Sync>(
    rt: &R,
    alloc: Global,
    budget: u16,
    sink: &mut MemSink,
) -> Result<Ending, Fail> {
    let circuit = Circuit::new(alloc, read_deck(alloc, RING.as_bytes())?, 5, 10)?;
    let ending = rounds_end(rt, alloc, &circuit, u64::from(budget), sink);
    drop(circuit);
    Ok(ending?)
}

/// A ring within that many tasks, whose text goes to a sink of whose writes these fail.
struct Stream {
    budget: u16,
    fails: &'static [u64],
    ending: Ending,
    held: &'static [u8],
}

const STREAMS: &[Stream] = &[
    Stream {
        budget: 10,
        fails: &[],
        ending: Ending::Budget {
            created: 11,
            limit: 10,
            failed: false,
        },
        held: b"1 q 1\n3 q 0\n4 q 1\n",
    },
    Stream {
        budget: 10,
        fails: &[1],
        ending: Ending::Budget {
            created: 11,
            limit: 10,
            failed: true,
        },
        held: b"",
    },
    Stream {
        budget: 11,
        fails: &[],
        ending: Ending::Ended { failed: false },
        held: b"1 q 1\n3 q 0\n4 q 1\n5 q 0\n",
    },
];

/// The sink takes four bytes at a time.
#[test]
fn rounds_write_before_a_task_too_many(rt: HostRuntime) -> Result<(), Fail> {
    for row in STREAMS {
        let fails = row.fails.to_vec(rt.alloc())?;
        let mut sink = MemSink::with_room(rt.alloc(), 4, 59, fails)?;
        let ending = ring_ends(&rt, rt.alloc(), row.budget, &mut sink)?;
        assert!(rt; ending == row.ending && sink.held() == row.held);
    }
    Ok(())
}
