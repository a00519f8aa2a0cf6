//! Which worker performs which task of a run in rounds, found in the graph or by marks, and in which
//! order.

use crate::answering::{answer_at, expect};
use crate::decks::{C17, C17_PRINT};
use kdg_prog::Status;
use kdg_text::NoRoom;
use outer_edge::Gate;
use std::alloc::Global;
use std::cmp::Ordering;
use std::process::Abort;
use std::sync::Wait;
use std::sync::atomic::AtomicU64;
use std::sync::atomic::Ordering::SeqCst;
use std::test::Fail;
use std::thread::Threads;
use task_order::{Key, Path};

/// A task of c17, the round and the worker that it is to have, and what is recorded of it: how
/// often it was passed, by which worker, and its number among all.
#[derive(Drop)]
struct Place {
    round: u32,
    worker: u32,
    key: Key,
    times: AtomicU64,
    by: AtomicU64,
    number: AtomicU64,
}

/// The gate that takes the second clear task wherever there are two, and records each pass.
#[derive(Drop)]
struct Recorder {
    places: Vec<Place>,
    count: AtomicU64,
}

impl Gate for Recorder {
    fn choose(&self, _seed: u64, _worker: u32, _turn: u64) -> u64 {
        1
    }

    fn pass(&self, worker: u32, key: &Key) {
        for place in self.places.iter() {
            if place.key.compare(key) == Ordering::Equal {
                place.times.fetch_add(1, SeqCst);
                place.by.store(u64::from(worker), SeqCst);
                place.number.store(self.count.fetch_add(1, SeqCst), SeqCst);
            }
        }
    }
}

/// The path of a task, by the number of its first ancestor and those of the others and its own.
fn path_of(alloc: Global, first: u32, numbers: &[u32]) -> Result<Path, NoRoom> {
    let mut path = Path::root(alloc, first)?;
    for number in numbers.iter() {
        path = path.child(*number)?;
    }
    Ok(path)
}

/// A task by its round, its priority, the worker that performs it, and the numbers of its path.
type Row = (u32, u64, u32, u32, &'static [u32]);

/// The tasks of c17 with 2 workers in mode rounds, those of a worker in the order of its turns.
const BY_CHOICES: &[Row] = &[
    (1, 1, 0, 1, &[]),
    (1, 1, 0, 3, &[]),
    (1, 1, 0, 5, &[]),
    (1, 1, 1, 2, &[]),
    (1, 1, 1, 4, &[]),
    (1, 1, 1, 0, &[]),
    (2, 2, 0, 1, &[0]),
    (2, 2, 0, 3, &[0]),
    (2, 2, 0, 5, &[0]),
    (2, 2, 1, 2, &[0]),
    (2, 2, 1, 4, &[0]),
    (2, 2, 1, 0, &[0]),
    (3, 3, 0, 1, &[0, 0]),
    (3, 3, 0, 2, &[0, 1]),
    (3, 3, 1, 1, &[0, 1]),
    (3, 3, 1, 0, &[0, 0]),
    (4, 3, 0, 3, &[0, 0]),
    (4, 3, 1, 2, &[0, 0]),
    (5, 4, 0, 2, &[0, 1, 0]),
    (5, 4, 1, 0, &[0, 0, 0]),
];

/// Those in mode marks, where no choice is asked for.
const BY_KEYS: &[Row] = &[
    (1, 1, 0, 0, &[]),
    (1, 1, 0, 2, &[]),
    (1, 1, 0, 4, &[]),
    (1, 1, 1, 1, &[]),
    (1, 1, 1, 3, &[]),
    (1, 1, 1, 5, &[]),
    (2, 2, 0, 0, &[0]),
    (2, 2, 0, 2, &[0]),
    (2, 2, 0, 4, &[0]),
    (2, 2, 1, 1, &[0]),
    (2, 2, 1, 3, &[0]),
    (2, 2, 1, 5, &[0]),
    (3, 3, 0, 0, &[0, 0]),
    (3, 3, 0, 1, &[0, 1]),
    (3, 3, 1, 1, &[0, 0]),
    (3, 3, 1, 2, &[0, 1]),
    (4, 3, 0, 2, &[0, 0]),
    (4, 3, 1, 3, &[0, 0]),
    (5, 4, 0, 0, &[0, 0, 0]),
    (5, 4, 1, 2, &[0, 1, 0]),
];

/// These tasks, of which none is passed yet.
fn places(alloc: Global, rows: &[Row]) -> Result<Vec<Place>, NoRoom> {
    let mut places = Vec::new(alloc);
    for &(round, prio, worker, first, numbers) in rows {
        let path = path_of(alloc, first, numbers)?;
        places.push(Place {
            round,
            worker,
            key: Key { prio, path },
            times: AtomicU64::new(0),
            by: AtomicU64::new(0),
            number: AtomicU64::new(0),
        })?;
    }
    Ok(places)
}

/// Whether the first was passed before the second, where it has to be: in an earlier round, or by
/// the same worker.
fn in_order(place: &Place, later: &Place) -> bool {
    let free = place.round == later.round && place.worker != later.worker;
    free || place.number.load(SeqCst) < later.number.load(SeqCst)
}

/// Whether each place was passed once, by its worker, and before those behind it that have to be later.
fn are_passed(places: &[Place]) -> bool {
    for (index, place) in places.iter().enumerate() {
        if place.times.load(SeqCst) != 1 || place.by.load(SeqCst) != u64::from(place.worker) {
            return false;
        }
        for later in places.iter().skip(index + 1) {
            if !in_order(place, later) {
                return false;
            }
        }
    }
    true
}

#[test]
fn each_worker_performs_its_jobs_of_each_round(rt: HostRuntime) -> Result<(), Fail> {
    expect_passes(&rt, rt.alloc(), "rounds", BY_CHOICES)?;
    expect_passes(&rt, rt.alloc(), "marks", BY_KEYS)
}

/// Asks that two workers in a mode perform these tasks and print what is wanted.
fn expect_passes<R: Threads + Wait + Abort + Sync>(
    rt: &R,
    alloc: Global,
    mode: &str,
    rows: &[Row],
) -> Result<(), Fail> {
    let recorder = Recorder {
        places: places(alloc, rows)?,
        count: AtomicU64::new(0),
    };
    let is_printed = is_printed(rt, alloc, mode, &recorder)?;
    expect(rt, is_printed, mode, "the print");
    let count = recorder.count.load(SeqCst);
    expect(rt, count == 20, mode, "the number of passes");
    expect(rt, are_passed(&recorder.places), mode, "the order");
    Ok(())
}

/// Whether two workers in a mode print what is wanted, at a gate.
fn is_printed<R: Threads + Wait + Sync>(
    rt: &R,
    alloc: Global,
    mode: &str,
    gate: &Recorder,
) -> Result<bool, NoRoom> {
    let words = format!(in alloc; "sim --mode {mode} --workers 2")?;
    let (status, sink) = answer_at(rt, alloc, gate, &words, C17, 64)?;
    Ok(status == Status::Ok && sink.held() == C17_PRINT.as_bytes())
}
