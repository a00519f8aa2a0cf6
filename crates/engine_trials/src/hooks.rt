//! Applications made of closures: what they come to in turn and in rounds.

ghost use Rattle.std.specs.Prelude.{◌≤◌, ◌<◌, ◌^◌, length};
ghost use Rattle.app_laws.specs.Applications.{AreFitStarts};

use super::adder::adder_meets;
use super::outcomes::Aim;
use super::rounds::{free_runs_meet, rounds_counts, runs_meet};
use super::walkers::walkers_meet;
use app_laws::{App, Finals};
use cell_store::{Seen, Store};
use graph_update::OverCause;
use std::alloc::Global;
use std::sync::Wait;
use std::test::Fail;
use std::thread::Threads;
use task_order::Start;

/// A run under a lookahead, and what it comes to.
#[derive(Clone, Copy)]
struct Row {
    ahead: u64,
    text: &'static [u8],
    cells: [u64; 3],
    count: u64,
    rounds: u64,
}

impl Aim<u64> for Row {
    fn is_met(&self, finals: &Finals<u64>) -> bool {
        finals.text.bytes() == self.text
            && finals.count == self.count
            && has_cells(&finals.store, self.cells)
    }
}

/// Whether three cells are home and have these values.
fn has_cells(store: &Store<u64>, values: [u64; 3]) -> bool {
    if store.len() != 3 {
        return false;
    }
    for loc in 0..3 {
        let Seen::At(value) = store.peek(loc) else {
            return false;
        };
        if *value != values[loc as usize] {
            return false;
        }
    }
    true
}

/// Whether runs from these cells and first tasks meet an aim, in turn, in rounds at an open gate and in rounds at
/// one that isn't, and without rounds at such gates, and there are so many rounds.
pub fn all_meet<R: Threads + Wait + Sync, A: App<Val = u64> + Sync, W: Aim<u64>>(
    rt: &R,
    alloc: Global,
    app: &A,
    cells: &[u64],
    first: &[Start],
    budget: u64,
    rounds: u64,
    aim: &W,
) -> Result<bool, OverCause>
    requires fit_cells { (A.meaning app.now).is_fit_cells cells.now }
    requires fit_first { AreFitStarts (A.meaning app.now) first.now }
    requires few { length first.now < 2 ^ 32 }
    requires budget { budget ≤ 1_000_000_000 }
{
    let counts = rounds_counts(rt, alloc, app, cells, first, budget)?;
    let meet = runs_meet(rt, alloc, app, cells, first, budget, aim)?;
    let free_meet = free_runs_meet(rt, alloc, app, cells, first, budget, aim)?;
    Ok(counts.1 == rounds && meet && free_meet)
}

/// With a lookahead of 1 both adders act in each of three rounds, and then the sum is formed. Without
/// one only the earliest task acts.
const ADDITIONS: [Row; 2] = [
    Row {
        ahead: 1,
        text: b"sum 33\n",
        cells: [3, 30, 33],
        count: 7,
        rounds: 4,
    },
    Row {
        ahead: 0,
        text: b"sum 33\n",
        cells: [3, 30, 33],
        count: 7,
        rounds: 7,
    },
];

#[test]
fn additions_come_to_their_sum(rt: HostRuntime) -> Result<(), Fail> {
    for row in &ADDITIONS {
        assert!(rt; adder_meets(&rt, rt.alloc(), row.ahead, 100, row.rounds, row)?);
    }
    Ok(())
}

#[test]
fn an_addition_too_many_is_refused(rt: HostRuntime) -> Result<(), Fail> {
    let refused = adder_meets(&rt, rt.alloc(), 1, 6, 4, &ADDITIONS[0]).err();
    assert!(rt; matches!(refused, Some(OverCause::Budget { limit: 6, .. })));
    assert!(rt; adder_meets(&rt, rt.alloc(), 1, 7, 4, &ADDITIONS[0])?);
    Ok(())
}

/// Three walkers go round, and pass each place five times in all.
const ROUND: Row = Row {
    ahead: 1,
    text: b"",
    cells: [212, 122, 221],
    count: 15,
    rounds: 5,
};

/// All go to one place, where they act one after the other.
const HOME: Row = Row {
    ahead: 1,
    text: b"",
    cells: [445, 10, 100],
    count: 15,
    rounds: 13,
};

#[test]
fn walkers_follow_the_arrows(rt: HostRuntime) -> Result<(), Fail> {
    let alloc = rt.alloc();
    assert!(rt; walkers_meet(&rt, alloc, vec![in alloc; 1, 2, 0]?, ROUND.rounds, &ROUND)?);
    assert!(rt; walkers_meet(&rt, alloc, vec![in alloc; 0, 0, 0]?, HOME.rounds, &HOME)?);
    Ok(())
}
