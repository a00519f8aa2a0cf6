//! What a gate that isn't open is asked, and which worker performs which task by its choices.

use crate::mixer::Mixer;
use crate::mixing::run;
use crate::setting::{Mode, Setting};
use kdg_text::NoRoom;
use outer_edge::Gate;
use std::alloc::Global;
use std::sync::Wait;
use std::sync::atomic::AtomicU64;
use std::sync::atomic::Ordering::SeqCst;
use std::test::Fail;
use std::thread;
use std::thread::Threads;
use task_order::{Key, Path};

/// How often a worker looks whether another one has come.
const LOOKS: u64 = 20_000_000;

/// How many tasks are clear at once.
const GROUPS: usize = 64;

/// How many tasks a group has, one for each priority.
const ROUNDS: u64 = 256;

/// A task, how often it was performed, and by which worker.
#[derive(Drop)]
struct Place {
    key: Key,
    times: AtomicU64,
    by: AtomicU64,
}

impl Place {
    /// A task that wasn't performed yet.
    fn new(key: Key) -> Place {
        Place {
            key,
            times: AtomicU64::new(0),
            by: AtomicU64::new(0),
        }
    }

    /// Records that a worker performs this task.
    fn pass(&self, worker: u32) {
        self.times.fetch_add(1, SeqCst);
        self.by.store(u64::from(worker), SeqCst);
    }

    /// Whether it was performed once, by a worker below this number.
    fn has_passed_once(&self, workers: u64) -> bool {
        self.times.load(SeqCst) == 1 && self.by.load(SeqCst) < workers
    }
}

/// The gate whose choice depends on the seed, the worker and the turn. It records what it is asked, and
/// who passes it.
#[derive(Drop)]
struct Recorder {
    /// The tasks of each priority, in the order of their keys.
    rounds: Vec<Vec<Place>>,
    /// For how many turns each worker has asked.
    turns: Vec<AtomicU64>,
    /// How often it was asked with another seed, or out of turn, or passed by another task.
    strays: AtomicU64,
    /// How many tasks have passed.
    count: AtomicU64,
    /// Whether the first to pass is held until another worker has come, or for some seconds.
    holds: bool,
    /// How often the one that was held saw another one.
    met: AtomicU64,
}

/// What the gate chooses.
fn choice(seed: u64, worker: u32, turn: u64) -> u64 {
    seed.wrapping_mul(5)
        .wrapping_add(u64::from(worker).wrapping_mul(3))
        .wrapping_add(turn.wrapping_mul(turn))
}

impl Gate for Recorder {
    fn choose(&self, seed: u64, worker: u32, turn: u64) -> u64 {
        let is_next = match self.turns.get(worker as usize) {
            Some(turns) => turns.fetch_add(1, SeqCst) == turn,
            None => false,
        };
        if seed != 1 || !is_next {
            self.strays.fetch_add(1, SeqCst);
        }
        choice(seed, worker, turn)
    }

    fn pass(&self, worker: u32, key: &Key) {
        match self.place_of(key) {
            Some(place) => place.pass(worker),
            None => {
                self.strays.fetch_add(1, SeqCst);
            }
        }
        if self.count.fetch_add(1, SeqCst) == 0 && self.holds {
            self.hold();
        }
    }
}

/// The paths of the first tasks.
fn first_paths(alloc: Global) -> Result<Vec<Path>, NoRoom> {
    let mut paths = Vec::new(alloc);
    for group in 0..GROUPS as u32 {
        paths.push(Path::root(alloc, group)?)?;
    }
    Ok(paths)
}

/// The paths of the first children.
fn next_paths(alloc: Global, paths: &[Path]) -> Result<Vec<Path>, NoRoom> {
    let mut children = Vec::new(alloc);
    for path in paths {
        children.push(path.child(0)?)?;
    }
    Ok(children)
}

/// The tasks of a priority, which have these paths.
fn round_of(alloc: Global, prio: u64, paths: &[Path]) -> Result<Vec<Place>, NoRoom> {
    let mut round = Vec::new(alloc);
    for path in paths {
        let path = path.copy()?;
        round.push(Place::new(Key { prio, path }))?;
    }
    Ok(round)
}

/// The tasks of each priority.
fn all_rounds(alloc: Global) -> Result<Vec<Vec<Place>>, NoRoom> {
    let mut rounds = Vec::new(alloc);
    let mut paths = first_paths(alloc)?;
    for prio in 0..ROUNDS {
        rounds.push(round_of(alloc, prio, &paths)?)?;
        paths = next_paths(alloc, &paths)?;
    }
    Ok(rounds)
}

/// A zero for each worker.
fn zeros(alloc: Global) -> Result<Vec<AtomicU64>, NoRoom> {
    let mut counts = Vec::new(alloc);
    for _worker in 0..64u32 {
        counts.push(AtomicU64::new(0))?;
    }
    Ok(counts)
}

impl Recorder {
    /// A gate that has been asked nothing yet.
    fn new(alloc: Global, holds: bool) -> Result<Recorder, NoRoom> {
        let rounds = all_rounds(alloc)?;
        let turns = zeros(alloc)?;
        Ok(Recorder {
            rounds,
            turns,
            strays: AtomicU64::new(0),
            count: AtomicU64::new(0),
            holds,
            met: AtomicU64::new(0),
        })
    }

    /// The place of the task of a key.
    fn place_of(&self, key: &Key) -> Option<&Place> {
        let round = self.rounds.get(key.prio as usize)?;
        let at = round.binary_search_by(|place| place.key.compare(key)).ok()?;
        round.get(at)
    }

    /// Waits until another worker has come, or for some seconds.
    fn hold(&self) {
        for _ in 0..LOOKS {
            if self.count.load(SeqCst) > 1 {
                self.met.store(1, SeqCst);
                return;
            }
            thread::yield_now();
        }
    }

    /// Whether each task passed once, as a worker below this number, after the gate was asked for the next
    /// turn each time, and whoever was to be held saw another one.
    fn is_orderly(&self, workers: u64) -> bool {
        for round in self.rounds.iter() {
            if !have_passed_once(round, workers) {
                return false;
            }
        }
        self.strays.load(SeqCst) == 0 && self.met.load(SeqCst) == u64::from(self.holds)
    }

    /// Whether just the workers below this number have asked.
    fn is_asked_by_first(&self, workers: usize) -> bool {
        for (worker, turns) in self.turns.iter().enumerate() {
            if (turns.load(SeqCst) > 0) != (worker < workers) {
                return false;
            }
        }
        true
    }

    /// Whether in each round the tasks were dealt out to the workers in the order of the choices of
    /// worker 0, which has one turn more that finds no clear task.
    fn has_dealt_by_choices(&self, alloc: Global, workers: u64) -> Result<bool, NoRoom> {
        let mut turn = 0u64;
        for round in self.rounds.iter() {
            if !is_dealt_from(alloc, round, turn, workers)? {
                return Ok(false);
            }
            turn = turn.wrapping_add(GROUPS as u64 + 1);
        }
        Ok(true)
    }
}

/// Whether each of a round's tasks passed once, as a worker below this number.
fn have_passed_once(round: &[Place], workers: u64) -> bool {
    for place in round {
        if !place.has_passed_once(workers) {
            return false;
        }
    }
    true
}

/// Whether a round's tasks were dealt out in turn to that many workers, each time the clear task at the
/// place that is chosen, from this turn on.
fn is_dealt_from(alloc: Global, round: &[Place], turn: u64, workers: u64) -> Result<bool, NoRoom> {
    let mut left = Vec::new(alloc);
    for place in round {
        left.push(place.by.load(SeqCst))?;
    }
    Ok(are_dealt(left, turn, workers))
}

/// Whether the clear tasks that are left, told by their workers, were dealt out in turn.
fn are_dealt(left: Vec<u64>, turn: u64, workers: u64) -> bool {
    let mut left = left;
    let mut turn = turn;
    let mut worker = 0u64;
    for _place in 0..left.len() {
        if left.is_empty() {
            break;
        }
        let at = choice(1, 0, turn) % left.len() as u64;
        if left.remove(at as usize) != worker {
            return false;
        }
        turn = turn.wrapping_add(1);
        worker = worker.wrapping_add(1);
        if worker >= workers {
            worker = 0;
        }
    }
    true
}

/// Whether a run by three workers, of tasks of that many multiplications, is recorded as it is to be: it asks
/// in order under the numbers of the first `askers` workers, and deals the tasks of rounds out by the choices.
fn is_recorded<R: Threads + Wait + Sync>(
    rt: &R,
    alloc: Global,
    mode: Mode,
    times: u32,
    holds: bool,
    askers: usize,
) -> Result<bool, NoRoom> {
    let recorder = Recorder::new(alloc, holds)?;
    let is_recorded = is_recorded_by(rt, alloc, mode, times, &recorder, askers);
    drop(recorder);
    is_recorded
}

fn is_recorded_by<R: Threads + Wait + Sync>(
    rt: &R,
    alloc: Global,
    mode: Mode,
    times: u32,
    recorder: &Recorder,
    askers: usize,
) -> Result<bool, NoRoom> {
    let mixer = Mixer {
        times,
        lookahead: 1,
        groups: GROUPS as u32,
        tasks: 16_384,
    };
    let setting = Setting {
        mode,
        workers: 3,
        mixer,
    };
    drop(run(rt, alloc, &setting, recorder)?);
    let is_dealt = match mode {
        Mode::Rounds => recorder.has_dealt_by_choices(alloc, 3)?,
        Mode::Serial | Mode::Free => true,
    };
    Ok(is_dealt && recorder.is_orderly(3) && recorder.is_asked_by_first(askers))
}

/// Tasks of nanoseconds start no thread, those of microseconds do. The choices are the same, and
/// worker 0's alone.
#[test]
fn rounds_deal_tasks_out_by_the_choices_of_seed_and_turn(rt: HostRuntime) -> Result<(), Fail> {
    assert!(rt; is_recorded(&rt, rt.alloc(), Mode::Rounds, 8, false, 1)?);
    assert!(rt; is_recorded(&rt, rt.alloc(), Mode::Rounds, 50_000, true, 1)?);
    Ok(())
}

/// Each of the workers asks for its own turns, one after the other, under its number.
#[test]
fn free_workers_ask_for_their_own_turns(rt: HostRuntime) -> Result<(), Fail> {
    assert!(rt; is_recorded(&rt, rt.alloc(), Mode::Free, 8, true, 3)?);
    Ok(())
}
