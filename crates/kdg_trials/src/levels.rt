//! What is answered and printed for graphs.

use crate::answering::{
    Answer, MODES, Print, answer, answer_at, expect, expect_answers, expect_prints, is_answered_at,
    prints_in, tells_more_than,
};
use kdg_prog::Status;
use kdg_text::NoRoom;
use outer_edge::Gate;
use std::alloc::Global;
use std::sync::Wait;
use std::sync::atomic::AtomicU64;
use std::sync::atomic::Ordering::SeqCst;
use std::test::Fail;
use std::thread::Threads;
use task_order::Key;

/// The gate that takes the second clear task wherever there are two, and counts the tasks that pass. It isn't open,
/// so that levels are found by tasks.
#[derive(Drop)]
struct Shut {
    passed: AtomicU64,
}

impl Gate for Shut {
    fn choose(&self, _seed: u64, _worker: u32, _turn: u64) -> u64 {
        1
    }

    fn pass(&self, _worker: u32, _key: &Key) {
        self.passed.fetch_add(1, SeqCst);
    }
}

/// Such a gate that no task has passed.
fn closed_gate() -> Shut {
    Shut {
        passed: AtomicU64::new(0),
    }
}

/// A way to vertex 4 over each of the two vertices next to the first, and one back.
const DIAMOND: &str =
    "%%MatrixMarket matrix coordinate pattern general\n4 4 5\n1 2\n1 3\n2 4\n3 4\n4 1\n";

const DIAMOND_PRINT: &str =
    "visit 1 0\nvisit 2 1\nvisit 3 1\nvisit 4 2\nlevel 1 0\nlevel 2 1\nlevel 3 1\nlevel 4 2\ntasks 6\n";

const LEVELS: &[Print] = &[
    ("levels", DIAMOND, DIAMOND_PRINT),
    ("levels --budget 6", DIAMOND, DIAMOND_PRINT),
    // an edge each way, and a vertex that no walk reaches
    (
        "levels --from 2",
        "%%MatrixMarket matrix coordinate pattern symmetric\n3 3 1\n2 1\n",
        "visit 2 0\nvisit 1 1\nlevel 1 1\nlevel 2 0\nlevel 3 none\ntasks 3\n",
    ),
    // no such vertex
    (
        "levels --from 2",
        "%%MatrixMarket matrix coordinate pattern general\n1 1 1\n1 1\n",
        "level 1 none\ntasks 0\n",
    ),
    (
        "levels --from 3",
        "%%MatrixMarket matrix coordinate integer general\n1 3 1\n1 2 2\n",
        "visit 3 0\nlevel 1 none\nlevel 2 none\nlevel 3 0\ntasks 1\n",
    ),
    (
        "levels",
        "%%MatrixMarket matrix coordinate pattern general\n0 0 0\n",
        "tasks 0\n",
    ),
];

/// At the open gate by a search.
#[test]
fn levels_are_found(rt: HostRuntime) -> Result<(), Fail> {
    expect_prints(&rt, rt.alloc(), LEVELS)
}

#[test]
fn levels_are_found_by_tasks(rt: HostRuntime) -> Result<(), Fail> {
    for &(words, input, print) in LEVELS {
        for mode in MODES {
            let is_wanted = is_found_by_tasks(
                &rt,
                rt.alloc(),
                &closed_gate(),
                mode,
                words,
                input,
                print,
            )?;
            expect(&rt, is_wanted, words, mode);
        }
    }
    Ok(())
}

/// Whether tasks in a mode come to this print.
fn is_found_by_tasks<R: Threads + Wait + Sync>(
    rt: &R,
    alloc: Global,
    gate: &Shut,
    mode: &str,
    words: &str,
    input: &str,
    print: &str,
) -> Result<bool, NoRoom> {
    let words = format!(in alloc; "{words} --mode {mode}")?;
    let wanted = (Status::Ok, print.as_bytes());
    is_answered_at(rt, alloc, gate, &words, input, 4096, wanted)
}

#[test]
fn levels_take_a_round_each_and_more(rt: HostRuntime) -> Result<(), Fail> {
    for mode in ["rounds", "marks"] {
        let is_wanted = takes_five_rounds(&rt, rt.alloc(), mode)?;
        expect(&rt, is_wanted, mode, "the number of rounds");
    }
    Ok(())
}

/// Whether a search and tasks, each in a mode, tell that the diamond takes five rounds. There are six tasks.
fn takes_five_rounds<R: Threads + Wait + Sync>(
    rt: &R,
    alloc: Global,
    mode: &str,
) -> Result<bool, NoRoom> {
    let words = "levels --stats on";
    let print = format!(in alloc; "{DIAMOND_PRINT}rounds 5\n")?;
    let searched = prints_in(rt, alloc, mode, words, DIAMOND, print.as_bytes());
    let gate = closed_gate();
    let run = is_found_by_tasks(rt, alloc, &gate, mode, words, DIAMOND, &print);
    let passed = gate.passed.load(SeqCst);
    drop(print);
    Ok(searched? && run? && passed == 6)
}

const REFUSED: &[Answer] = &[
    (
        "levels",
        "%%MatrixMarket matrix coordinate pattern general\n1 1 1\n1 2\n",
        Status::BadInput { line: 3, kind: 5 },
        "",
    ),
    ("levels --from 0", DIAMOND, Status::Usage { word: 3 }, ""),
];

#[test]
fn searches_are_refused(rt: HostRuntime) -> Result<(), Fail> {
    expect_answers(&rt, rt.alloc(), 4096, REFUSED)
}

#[test]
fn a_diamond_makes_more_than_five_tasks(rt: HostRuntime) -> Result<(), Fail> {
    let words = "levels --budget 5";
    let (answered, _) = answer(&rt, rt.alloc(), words, DIAMOND, 4096)?;
    assert!(rt; tells_more_than(&answered, 5));
    let (answered, _) = answer_at(&rt, rt.alloc(), &closed_gate(), words, DIAMOND, 4096)?;
    assert!(rt; tells_more_than(&answered, 5));
    Ok(())
}
