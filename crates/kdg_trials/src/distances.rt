//! In how many rounds decks run, as a plain count by the definition of safe events tells it.

use crate::answering::{answer_in, expect, prints_in};
use crate::decks::{C17, C17_STIMULUS, RING};
use kdg_prog::Status;
use kdg_text::NoRoom;
use std::alloc::Global;
use std::sync::Wait;
use std::test::Fail;
use std::thread::Threads;

/// Whether a deck, which prints the same in all modes, runs in `rounds` rounds.
fn has_rounds<R: Threads + Wait + Sync>(
    rt: &R,
    alloc: Global,
    words: &str,
    deck: &str,
    rounds: u64,
) -> Result<bool, NoRoom> {
    let words = format!(in alloc; "{words} --stats on")?;
    let (answered, plain) = answer_in(rt, alloc, "serial", &words, deck, 4096)?;
    let print = with_rounds(alloc, plain.held(), rounds)?;
    let is_same = prints_in(rt, alloc, "rounds", &words, deck, print.as_slice())?;
    Ok(answered == Status::Ok && is_same)
}

/// A print with the line of a number of rounds behind it.
fn with_rounds(alloc: Global, plain: &[u8], rounds: u64) -> Result<Vec<u8>, NoRoom> {
    let mut print = plain.to_vec(alloc)?;
    let line = format!(in alloc; "rounds {rounds}\n")?;
    print.extend_from_slice(line.as_bytes())?;
    Ok(print)
}

/// Words, a deck, and in how many rounds it runs.
const ROUNDS: &[(&str, &str, u64)] = &[
    ("sim", C17, 5),
    ("sim", C17_STIMULUS, 12),
    ("sim --until 0", C17_STIMULUS, 1),
    // the stimulus runs beside the changes at 1
    (
        "sim",
        "INPUT(a)\nOUTPUT(x)\nx = NOT(a)\ny = NOT(a)\n@ 5 1\n",
        4,
    ),
    // two stimuli at one time
    ("sim", "INPUT(a)\nOUTPUT(x)\nx = NOT(a)\n@ 2 1\n@ 2 0\n", 5),
    ("sim --until 5", RING, 11),
    // a latch
    (
        "sim --until 20",
        "INPUT(s)\nINPUT(r)\nOUTPUT(q)\nq = NAND(s, p)\np = NAND(r, q)\n@ 2 01\n@ 6 11\n@ 9 10\n",
        15,
    ),
];

#[test]
fn events_run_ahead_of_those_that_cannot_reach_them(rt: HostRuntime) -> Result<(), Fail> {
    for &(words, deck, rounds) in ROUNDS {
        let is_wanted = has_rounds(&rt, rt.alloc(), words, deck, rounds)?;
        expect(&rt, is_wanted, words, deck);
    }
    Ok(())
}

/// Decks with loops, delays, flip-flops and stimuli at one time, and in how many rounds each runs.
const DECKS: &[(&str, u64)] = &[
    (
        "INPUT(i0)\nOUTPUT(g1)\ng0 = BUFF(i0)\ng1 = NAND(i0, g0, g0)\n@ 1 1\n@ 2 0\n",
        8,
    ),
    (
        "INPUT(i0)\nINPUT(i1)\nOUTPUT(g2)\ng0 = AND(i1)\ng1 = NOT(i0)\ng2 = NAND(i1)\n@ 0 11\n@ 0 10\n@ 4 10\n",
        6,
    ),
    (
        "INPUT(i0)\nINPUT(i1)\nOUTPUT(g3)\ng0 = NAND(i0, i0, i1)\ng1 = NOT(g0)\ng2 = BUFF(g1)\ng3 = NOT(g2)\n@delay g0 5\n@delay g2 2\n@ 1 11\n@ 2 11\n@ 2 10\n",
        14,
    ),
    (
        "INPUT(i0)\nINPUT(i1)\nINPUT(i2)\nOUTPUT(g4)\ng0 = XNOR(i1, i2)\ng1 = XOR(g0)\ng2 = NOT(i0)\ng3 = NAND(g2)\ng4 = NOT(i0)\n@ 2 000\n@ 3 010\n@ 5 111\n",
        9,
    ),
    (
        "INPUT(i0)\nINPUT(i1)\nOUTPUT(g3)\ng0 = NAND(g1, g0, i1)\ng1 = XNOR(g1, g1)\ng2 = BUFF(i1)\ng3 = XOR(g2, g0)\n@ 1 00\n@ 5 01\n",
        25,
    ),
    (
        "INPUT(i0)\nOUTPUT(g2)\ng0 = XNOR(i0)\ng1 = NAND(i0, i0, g0)\ng2 = NOR(f0, i0)\nf0 = DFF(g1)\n@ 1 0\n@ 2 1\n",
        11,
    ),
    (
        "INPUT(i0)\nINPUT(i1)\nOUTPUT(g3)\ng0 = BUFF(f0)\ng1 = OR(f1, i1, f1)\ng2 = OR(i0, f0, f0)\ng3 = BUFF(g1)\nf0 = DFF(i1)\nf1 = DFF(g3)\n@delay g2 5\n@ 1 00\n@ 1 01\n",
        13,
    ),
    (
        "INPUT(i0)\nINPUT(i1)\nINPUT(i2)\nOUTPUT(g5)\ng0 = NOT(i0)\ng1 = AND(g0)\ng2 = BUFF(i0)\ng3 = OR(g0)\ng4 = NOT(g1)\ng5 = NOR(g0, g2)\n@delay g2 2\n@delay g3 5\n@delay g1 5\n@ 1 000\n@ 3 010\n@ 4 011\n",
        6,
    ),
    (
        "INPUT(i0)\nINPUT(i1)\nOUTPUT(g4)\ng0 = BUFF(i1)\ng1 = AND(g3, g0, i1)\ng2 = NOT(g2)\ng3 = XNOR(g2)\ng4 = XOR(i1, g1, g1)\nf0 = DFF(g3)\n@delay g1 5\n@ 2 10\n@ 2 01\n",
        32,
    ),
    (
        "INPUT(i0)\nOUTPUT(g3)\ng0 = BUFF(g2)\ng1 = XOR(g3)\ng2 = XNOR(g0, g1)\ng3 = NOR(i0)\n@delay g2 3\n@delay g1 2\n@ 2 1\n@ 3 0\n@ 7 1\n",
        26,
    ),
    (
        "INPUT(i0)\nOUTPUT(g1)\ng0 = BUFF(i0)\ng1 = NOR(g0, g0, i0)\n@ 1 1\n@ 2 1\n",
        5,
    ),
    (
        "INPUT(i0)\nINPUT(i1)\nOUTPUT(g2)\ng0 = XOR(i1)\ng1 = AND(i0, i1, i1)\ng2 = NAND(g0, g0)\n@ 2 11\n@ 6 10\n@ 7 10\n",
        9,
    ),
    (
        "INPUT(i0)\nINPUT(i1)\nOUTPUT(g3)\ng0 = NOT(i1)\ng1 = NOT(g0)\ng2 = OR(g1, g1)\ng3 = BUFF(g1)\n@delay g3 2\n@delay g0 2\n@ 1 01\n@ 5 01\n@ 6 01\n",
        8,
    ),
    (
        "INPUT(i0)\nINPUT(i1)\nINPUT(i2)\nOUTPUT(g4)\ng0 = AND(i0, i2, i1)\ng1 = NAND(i1)\ng2 = AND(i1)\ng3 = OR(i1)\ng4 = OR(g3, i0, g1)\n@ 0 110\n@ 2 000\n@ 4 111\n",
        15,
    ),
    (
        "INPUT(i0)\nINPUT(i1)\nOUTPUT(g3)\ng0 = XNOR(g1, g1, g2)\ng1 = NAND(g0, i0, i1)\ng2 = BUFF(g0)\ng3 = NOR(g1, g2, g1)\n@ 4 10\n@ 5 10\n",
        29,
    ),
    (
        "INPUT(i0)\nOUTPUT(g2)\ng0 = AND(f0)\ng1 = NOR(i0)\ng2 = AND(i0)\nf0 = DFF(i0)\n@ 4 0\n@ 8 1\n",
        8,
    ),
    (
        "INPUT(i0)\nINPUT(i1)\nOUTPUT(g3)\ng0 = AND(f0, f1)\ng1 = XNOR(f1)\ng2 = NOR(g0, f0, i0)\ng3 = XNOR(f0)\nf0 = DFF(i0)\nf1 = DFF(g1)\n@delay f0 2\n@ 1 00\n@ 2 01\n",
        18,
    ),
    (
        "INPUT(i0)\nINPUT(i1)\nINPUT(i2)\nOUTPUT(g5)\ng0 = NOT(i2)\ng1 = XNOR(i2, i2)\ng2 = NOT(g0)\ng3 = XNOR(g1)\ng4 = XNOR(i1)\ng5 = XNOR(g1, i2)\n@delay g4 3\n@delay g3 3\n@delay g2 3\n@ 0 010\n@ 1 011\n@ 2 111\n",
        7,
    ),
    (
        "INPUT(i0)\nINPUT(i1)\nOUTPUT(g4)\ng0 = XNOR(g4, i1, f0)\ng1 = NOT(g0)\ng2 = XNOR(g2, g2, f0)\ng3 = OR(g2, g3)\ng4 = NAND(g2, i1, i1)\nf0 = DFF(g4)\n@delay g2 2\n@ 2 01\n@ 3 10\n",
        16,
    ),
    (
        "INPUT(i0)\nOUTPUT(g3)\ng0 = AND(g3, g2, g3)\ng1 = XNOR(g2, g1)\ng2 = XOR(i0)\ng3 = OR(g1, g2)\n@delay g1 5\n@delay g2 3\n@ 4 1\n@ 5 1\n@ 7 1\n",
        11,
    ),
];

#[test]
fn decks_of_all_sorts_run_in_as_many_rounds(rt: HostRuntime) -> Result<(), Fail> {
    let words = "sim --until 14 --clock 3";
    for &(deck, rounds) in DECKS {
        let is_wanted = has_rounds(&rt, rt.alloc(), words, deck, rounds)?;
        expect(&rt, is_wanted, words, deck);
    }
    Ok(())
}
