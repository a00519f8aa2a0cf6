//! What is answered and printed where the input is made from a number.

use crate::answering::{
    BadWord, MODES, answer_in, expect, expect_bad_words, prints_in, tells_more_than,
};
use kdg_prog::Status;
use kdg_text::NoRoom;
use std::alloc::Global;
use std::sync::Wait;
use std::test::Fail;
use std::thread::Threads;

/// Words, and the figures that are printed, worked out by a plain program.
const FIGURES: &[(&str, &str)] = &[
    (
        "big sim 100",
        "big sim 100\nlog 100\nbytes 1017\ntasks 10100\n",
    ),
    (
        "big rank 100",
        "big rank 100\nlog 300\nbytes 7987\ntasks 300\n",
    ),
    (
        "big mesh 100",
        "big mesh 100\nlog 0\nbytes 4056\ntasks 200\n",
    ),
];

/// What the source has is not read.
#[test]
fn figures_are_told_of_inputs_made_from_numbers(rt: HostRuntime) -> Result<(), Fail> {
    for &(words, print) in FIGURES {
        for mode in MODES {
            let is_wanted = prints_in(&rt, rt.alloc(), mode, words, "no input", print.as_bytes())?;
            expect(&rt, is_wanted, words, mode);
        }
    }
    Ok(())
}

#[test]
fn a_chain_of_two_makes_six_tasks(rt: HostRuntime) -> Result<(), Fail> {
    for mode in MODES {
        let (told, printed) = end_of_chain(&rt, rt.alloc(), mode, "big sim 2 --budget 5")?;
        let is_refused = tells_more_than(&told, 5) && printed == 0;
        expect(&rt, is_refused, "five tasks", mode);
        let (told, _) = end_of_chain(&rt, rt.alloc(), mode, "big sim 2 --budget 6")?;
        expect(&rt, told == Status::Ok, "six tasks", mode);
    }
    Ok(())
}

/// How a chain ends in a mode, and how many bytes are printed.
fn end_of_chain<R: Threads + Wait + Sync>(
    rt: &R,
    alloc: Global,
    mode: &str,
    words: &str,
) -> Result<(Status, usize), NoRoom> {
    let (told, sink) = answer_in(rt, alloc, mode, words, "", 5)?;
    Ok((told, sink.held().len()))
}

/// Words, and the number of the first bad one.
const BAD_WORDS: &[BadWord] = &[
    ("big mesh 0", 3),
    ("big", 2),
    ("big rank 1 --until 5", 4),
    ("big sim 1000", 3),
    ("big rank 1366", 3),
    ("big mesh 2049", 3),
    ("big sim", 3),
    ("big levels 1", 2),
    ("big sim 1 --seed 1 --seed 2", 6),
];

#[test]
fn bad_words_of_inputs_made_from_numbers_are_told(rt: HostRuntime) -> Result<(), Fail> {
    expect_bad_words(&rt, rt.alloc(), "", BAD_WORDS)
}
