//! The engine on c17.

ghost use Rattle.std.specs.Prelude.{◌≤◌};

use super::decks::C17;
use super::driving::Answer;
use super::rounds::{start_ends_in_rounds, start_is_over_in_rounds};
use super::trials::{
    answer_after, begin_fault, counts_after, is_over_at_first_end, performed_in_turn,
};
use bench_reader::read_deck;
use graph_update::{BeginFault, Counts, OverCause};
use kdg_text::NoRoom;
use logic_sim::Circuit;
use std::alloc::Global;
use std::test::Fail;
use std::thread::Threads;
use task_order::Path;

/// The circuit c17, in which nothing happens after the time 1000.
fn c17(alloc: Global) -> Result<Circuit, Fail> {
    Ok(Circuit::new(alloc, read_deck(alloc, C17.as_bytes())?, 1000, 10)?)
}

/// Why an engine at c17's first tasks doesn't begin.
fn c17_fault(alloc: Global, budget: u64) -> Result<Option<BeginFault>, Fail>
    requires { budget ≤ 1_000_000_000 }
{
    let c17 = c17(alloc)?;
    Ok(begin_fault(alloc, &c17, budget))
}

#[test]
fn more_first_tasks_than_allowed_are_refused(rt: HostRuntime) -> Result<(), Fail> {
    let refused = c17_fault(rt.alloc(), 5)?;
    assert!(rt; refused == Some(BeginFault::Budget { asked: 6, limit: 5 }));
    Ok(())
}

const PICKED: &[(u64, u32)] = &[(0, 0), (7, 3), (0, 1), (0, 2), (0, 4), (0, 5)];

/// What a claim answers once claims with these picks have given the tasks of the numbers beside them.
fn c17_answer(alloc: Global, picked: &[(u64, u32)]) -> Result<Option<Answer>, Fail> {
    let c17 = c17(alloc)?;
    let answer = answer_after(alloc, &c17, picked);
    drop(c17);
    Ok(answer?)
}

#[test]
fn picks_choose_among_the_clear_tasks(rt: HostRuntime) -> Result<(), Fail> {
    assert!(rt; c17_answer(rt.alloc(), PICKED)? == Some(Answer::NotYet));
    Ok(())
}

/// The path of the first child of the first task.
fn first_child(alloc: Global) -> Result<Path, NoRoom> {
    let first = Path::root(alloc, 0)?;
    first.child(0)
}

const IN_TURN: &[(u64, u32)] = &[(0, 0), (0, 1), (0, 2), (0, 3), (0, 4), (0, 5)];

/// How far it has come once the tasks of these picks have ended, and a claim has given that of the path.
fn c17_counts(alloc: Global, picked: &[(u64, u32)], path: &Path) -> Result<Option<Counts>, Fail> {
    let c17 = c17(alloc)?;
    let counts = counts_after(alloc, &c17, picked, path);
    drop(c17);
    Ok(counts?)
}

#[test]
fn children_follow_the_tasks_that_ended(rt: HostRuntime) -> Result<(), Fail> {
    let path = first_child(rt.alloc())?;
    let wanted = Counts {
        created: 12,
        ended: 6,
        nodes: 6,
        running: 1,
    };
    assert!(rt; c17_counts(rt.alloc(), IN_TURN, &path)? == Some(wanted));
    Ok(())
}

/// How many first tasks are performed in turn, where one is claimed.
fn c17_in_turn(alloc: Global) -> Result<usize, Fail> {
    let c17 = c17(alloc)?;
    let performed = performed_in_turn(alloc, &c17);
    drop(c17);
    Ok(performed?)
}

#[test]
fn a_claimed_job_is_performed_in_turn(rt: HostRuntime) -> Result<(), Fail> {
    assert!(rt; c17_in_turn(rt.alloc())? == 1);
    Ok(())
}

/// Whether the first task, that of the path, comes back, and a claim answers so then.
fn is_c17_over(alloc: Global, budget: u64, path: &Path) -> Result<bool, Fail>
    requires { budget ≤ 1_000_000_000 }
{
    let c17 = c17(alloc)?;
    let is_over = is_over_at_first_end(alloc, &c17, budget, path);
    drop(c17);
    Ok(is_over?)
}

#[test]
fn a_task_too_many_is_refused_and_leaves_a_mark(rt: HostRuntime) -> Result<(), Fail> {
    let path = Path::root(rt.alloc(), 0)?;
    assert!(rt; is_c17_over(rt.alloc(), 6, &path)?);
    Ok(())
}

/// Whether so many rounds come to all tasks, as many as are allowed.
fn c17_ends<R: Threads + Sync>(
    rt: &R,
    alloc: Global,
    budget: u64,
    rounds: u64,
) -> Result<bool, Fail>
    requires { budget ≤ 1_000_000_000 }
{
    let c17 = c17(alloc)?;
    let ends = start_ends_in_rounds(rt, alloc, &c17, budget, rounds);
    drop(c17);
    Ok(ends?)
}

#[test]
fn rounds_come_to_all_tasks(rt: HostRuntime) -> Result<(), Fail> {
    assert!(rt; c17_ends(&rt, rt.alloc(), 20, 5)?);
    Ok(())
}

/// Whether rounds come to more tasks than allowed.
fn is_c17_over_in_rounds<R: Threads + Sync>(
    rt: &R,
    alloc: Global,
    budget: u64,
) -> Result<bool, Fail>
    requires { budget ≤ 1_000_000_000 }
{
    let c17 = c17(alloc)?;
    let is_over = start_is_over_in_rounds(rt, alloc, &c17, budget);
    drop(c17);
    Ok(is_over?)
}

#[test]
fn rounds_with_a_task_too_many_are_refused(rt: HostRuntime) -> Result<(), Fail> {
    assert!(rt; is_c17_over_in_rounds(&rt, rt.alloc(), 19)?);
    Ok(())
}
