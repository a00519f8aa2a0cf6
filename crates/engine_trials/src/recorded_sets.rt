//! The recorded sets of pending tasks, as they move while others end.

ghost use Rattle.std.specs.Prelude.{◌≡◌, ◌<◌, ◌^◌, [], length, true};
ghost use Rattle.app_laws.specs.Applications.{AreFitStarts};
ghost use Rattle.engine_trials.specs.InHand.{AreInHand};

use super::driving::{Answer, begin, claims_answer, finish_at};
use super::starts::Startable;
use app_laws::App;
use graph_update::{BeginFault, Engine, Job};
use kdg_graph::Graph;
use kdg_text::NoRoom;
use rw_sets::Access;
use std::alloc::Global;
use task_order::{Key, StartList};

/// A set in plain data: locations with their access, in ascending order.
pub type Accesses = &'static [(u32, Access)];

/// The end of the task whose job is at a place among those in hand, the latest claimed first, and
/// the sets that are to be recorded then.
#[derive(Clone, Copy)]
pub struct Turn {
    pub place: usize,
    pub sets: &'static [Accesses],
}

const TWO_JOBS: [Answer; 3] = [Answer::Job, Answer::Job, Answer::NotYet];

/// Whether two tasks are claimed and no third is given, and the tasks of these keys have these sets
/// recorded then, and those of each turn once its task has ended.
pub fn has_sets_in_turn<A: App>(
    alloc: Global,
    app: &A,
    cells: Vec<A::Val>,
    first: StartList,
    keys: &[Key],
    at_first: &[Accesses],
    turns: &[Turn],
) -> Result<bool, BeginFault>
    requires fit_cells { (A.meaning app.now).is_fit_cells cells.items }
    requires fit_first { AreFitStarts (A.meaning app.now) first }
    requires few { length first < 2 ^ 32 }
{
    let mut engine = begin(alloc, app, cells, first, 1000)?;
    let has_sets = has_sets(alloc, &mut engine, keys, at_first, turns);
    drop(engine);
    Ok(has_sets?)
}

fn has_sets<A: App>(
    alloc: Global,
    engine: &mut Engine<'_, A>,
    keys: &[Key],
    at_first: &[Accesses],
    turns: &[Turn],
) -> Result<bool, NoRoom>
    requires { AreInHand (A.meaning engine.old.app) engine.old.progress [] }
{
    let mut jobs = Vec::new(alloc);
    if !claims_answer(engine, &mut jobs, &TWO_JOBS)? {
        return Ok(false);
    }
    let is_first = are_recorded(engine.graph(), keys, at_first);
    Ok(is_first && has_turns(engine, &mut jobs, keys, turns))
}

/// `has_sets_in_turn` from an application's start.
pub fn has_sets_from_start<A: Startable>(
    alloc: Global,
    app: &A,
    keys: &[Key],
    at_first: &[Accesses],
    turns: &[Turn],
) -> Result<bool, BeginFault> {
    let (cells, first) = (app.start_cells()?, app.start_tasks()?);
    has_sets_in_turn(alloc, app, cells, first, keys, at_first, turns)
}

/// Whether the tasks of these keys have the sets of each turn recorded once its task has ended.
fn has_turns<A: App>(
    engine: &mut Engine<'_, A>,
    jobs: &mut Vec<Job<A::Val>>,
    keys: &[Key],
    turns: &[Turn],
) -> bool
    requires { AreInHand (A.meaning engine.old.app) engine.old.progress jobs.old.items }
{
    for turn in turns {
        if !ends(engine, jobs, turn.place) {
            return false;
        }
        if !are_recorded(engine.graph(), keys, turn.sets) {
            return false;
        }
    }
    true
}

/// Whether the tasks of these keys are pending and have these sets recorded, one each.
fn are_recorded(graph: &Graph, keys: &[Key], sets: &[Accesses]) -> bool {
    for (key, set) in keys.iter().zip(sets) {
        if !is_recorded(graph, key, set) {
            return false;
        }
    }
    keys.len() == sets.len()
}

/// Whether the task of a key is pending and has this set recorded.
fn is_recorded(graph: &Graph, key: &Key, set: &[(u32, Access)]) -> bool {
    match graph.find(key) {
        Some(node) => graph.set(node).items() == set,
        None => false,
    }
}

/// Whether there is a job at a place among those in hand, and its task ends.
fn ends<A: App>(engine: &mut Engine<'_, A>, jobs: &mut Vec<Job<A::Val>>, place: usize) -> bool
    requires { AreInHand (A.meaning engine.old.app) engine.old.progress jobs.old.items }
    ensures { result ≡ true → AreInHand (A.meaning engine.new.app) engine.new.progress jobs.new.items }
{
    if place >= jobs.len() {
        return false;
    }
    match finish_at(engine, jobs, place) {
        Ok(()) => true,
        Err(_) => false,
    }
}
