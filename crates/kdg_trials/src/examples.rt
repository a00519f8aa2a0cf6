//! What is answered and printed for words and an input, in whatever pieces they come and go.

use crate::answering::{
    Answer, BadWord, MODES, Print, answer, answer_in, expect, expect_answers, expect_at,
    expect_bad_words, expect_prints, is_answered, is_answered_in_pieces, prints_in,
    tells_more_than,
};
use crate::decks::{
    C17, C17_PRINT, C17_ROUNDS_PRINT, C17_SHORT, C17_SHORT_STIMULUS, C17_STIMULUS,
    C17_STIMULUS_PRINT, C17_WITH_HEADER, FEEDBACK, RING, RING_LOG, RING_WITHIN_TEN,
};
use crate::matrices::DIAGONAL;
use crate::meshes::SPRING;
use kdg_prog::{Status, fault_line};
use kdg_text::NoRoom;
use std::alloc::Global;
use std::sync::Wait;
use std::test::Fail;
use std::thread::Threads;

const PRINTS: &[Print] = &[
    ("sim", C17, C17_PRINT),
    ("sim --budget 20 --until 2", C17, C17_PRINT),
    ("sim --seed 7 --workers 64 --stats off", C17, C17_PRINT),
    (
        "sim --until 1",
        C17,
        "1 22 1\n1 23 1\nfinal 22 1\nfinal 23 1\ntasks 18\n",
    ),
    ("sim --until 0", C17, "final 22 0\nfinal 23 0\ntasks 6\n"),
    ("sim --budget 0", "", "tasks 0\n"),
    ("sim", C17_WITH_HEADER, C17_PRINT),
    (
        "sim",
        "OUTPUT(x)\nx = NOT(a)\nINPUT(a)",
        "1 x 1\nfinal x 1\ntasks 2\n",
    ),
    (
        "sim --until 3",
        "q = NAND(q)\r\nOUTPUT(q)\r\n",
        "1 q 1\n2 q 0\n3 q 1\nfinal q 1\ntasks 7\n",
    ),
    ("sim", "# c17\n", "tasks 0\n"),
    ("sim", C17_STIMULUS, C17_STIMULUS_PRINT),
    ("sim --until 9", C17_STIMULUS, C17_PRINT),
    (
        "sim --until 5",
        RING,
        "1 q 1\n3 q 0\n4 q 1\n5 q 0\nfinal q 0\ntasks 11\n",
    ),
    (
        "sim",
        "INPUT(a)\nINPUT(b)\nOUTPUT(s)\ns = xor(a, b)\n@ 1 11\n@ 4 01\n",
        "5 s 1\nfinal s 1\ntasks 9\n",
    ),
    // flip-flops, and a delay
    ("sim", "INPUT(d)\nq = DFF(d)\n", "tasks 100\n"),
    (
        "sim --clock 3 --until 7",
        "OUTPUT(q)\nn = NOT(q)\nq = DFF(n)\n",
        "4 q 1\n7 q 0\nfinal q 0\ntasks 9\n",
    ),
    (
        "sim",
        "INPUT(a)\nOUTPUT(x)\nx = NOT(a)\n@delay x 3\n@ 5 1\n",
        "3 x 1\n8 x 0\nfinal x 0\ntasks 5\n",
    ),
];

#[test]
fn answers_and_prints(rt: HostRuntime) -> Result<(), Fail> {
    expect_prints(&rt, rt.alloc(), PRINTS)
}

/// The words, of which some name a mode, with the count of the rounds where there are any.
const PRINTS_OF_MODES: &[Answer] = &[
    ("sim", C17, Status::Ok, C17_PRINT),
    ("sim --stats on", C17, Status::Ok, C17_ROUNDS_PRINT),
    (
        "sim --mode rounds --stats on",
        C17,
        Status::Ok,
        C17_ROUNDS_PRINT,
    ),
    ("sim --mode serial --stats on", C17, Status::Ok, C17_PRINT),
    ("sim --mode free --stats on", C17, Status::Ok, C17_PRINT),
    (
        "sim --mode marks --stats on --workers 3",
        C17,
        Status::Ok,
        C17_ROUNDS_PRINT,
    ),
    ("sim --stats on", "", Status::Ok, "tasks 0\nrounds 0\n"),
    (
        "sim --stats on",
        "OUTPUT(x)\nx = NOT(a)\nINPUT(a)",
        Status::Ok,
        "1 x 1\nfinal x 1\ntasks 2\nrounds 2\n",
    ),
];

#[test]
fn runs_are_in_rounds_unless_another_mode_is_named(rt: HostRuntime) -> Result<(), Fail> {
    expect_answers(&rt, rt.alloc(), 7, PRINTS_OF_MODES)
}

#[test]
fn a_long_run_prints_the_same_in_all_modes(rt: HostRuntime) -> Result<(), Fail> {
    let words = "sim --until 400";
    let (_, wanted) = answer_in(&rt, rt.alloc(), "serial", words, FEEDBACK, 4096)?;
    assert!(rt;
        wanted
            .held()
            .ends_with(b"399 s4 0\nfinal s4 0\ntasks 2284\n")
    );
    for mode in MODES {
        let is_wanted = prints_in(&rt, rt.alloc(), mode, words, FEEDBACK, wanted.held())?;
        expect(&rt, is_wanted, words, mode);
    }
    Ok(())
}

/// Whether c17 with a stimulus prints the same with each of ten seeds.
fn is_same_with_seeds<R: Threads + Wait + Sync>(
    rt: &R,
    alloc: Global,
    mode: &str,
    workers: u32,
) -> Result<bool, NoRoom> {
    for seed in 0u64..10 {
        let words = format!(in alloc; "sim --workers {workers} --seed {seed}")?;
        let print = C17_STIMULUS_PRINT.as_bytes();
        if !prints_in(rt, alloc, mode, &words, C17_STIMULUS, print)? {
            return Ok(false);
        }
    }
    Ok(true)
}

/// Numbers of workers.
const WORKERS: &[u32] = &[1, 2, 7];

#[test]
fn no_choice_shows_in_a_print(rt: HostRuntime) -> Result<(), Fail> {
    for mode in MODES {
        for &workers in WORKERS {
            let is_wanted = is_same_with_seeds(&rt, rt.alloc(), mode, workers)?;
            expect_at(&rt, is_wanted, mode, u64::from(workers));
        }
    }
    Ok(())
}

/// Words, an input, how many tasks a serial run creates beyond the limit, the limit, the lines of the rounds within
/// it that come before all pending tasks, and a log that begins with what mode free has written.
type Beyond = (
    &'static str,
    &'static str,
    u64,
    u64,
    &'static str,
    &'static str,
);

const BEYOND_BUDGET: &[Beyond] = &[
    (
        "sim --budget 19",
        C17,
        20,
        19,
        "1 22 1\n1 23 1\n",
        C17_PRINT,
    ),
    ("sim --budget 5", C17, 6, 5, "", C17_PRINT),
    ("sim --budget 10", "q = NOT(q)\n", 11, 10, "", ""),
    (
        "sim --until 1000000000 --budget 10",
        RING,
        11,
        10,
        RING_WITHIN_TEN,
        RING_LOG,
    ),
    ("rank --budget 1", DIAGONAL, 2, 1, "", ""),
    ("mesh --budget 1", SPRING, 2, 1, "", ""),
];

/// Whether a mode tells that there are more tasks than the limit, of which mode serial tells the next one, and has
/// written what it may.
fn is_beyond<R: Threads + Wait + Sync>(
    rt: &R,
    alloc: Global,
    mode: &str,
    &(words, input, created, limit, kept, log): &Beyond,
) -> Result<bool, NoRoom> {
    let (told, sink) = answer_in(rt, alloc, mode, words, input, 3)?;
    let is_told = mode != "serial" || told == Status::Budget { created, limit };
    let is_beyond = tells_more_than(&told, limit) && is_told;
    Ok(is_beyond && has_written(mode, sink.held(), kept.as_bytes(), log.as_bytes()))
}

/// Whether a mode has written the lines that are kept, in rounds, or a front of the log, where workers are free, or
/// else nothing.
fn has_written(mode: &str, held: &[u8], kept: &[u8], log: &[u8]) -> bool {
    match mode {
        "rounds" => held == kept,
        "free" => log.starts_with(held),
        _ => held.is_empty(),
    }
}

#[test]
fn more_tasks_than_the_budget_are_told(rt: HostRuntime) -> Result<(), Fail> {
    for row in BEYOND_BUDGET {
        for mode in MODES {
            expect(&rt, is_beyond(&rt, rt.alloc(), mode, row)?, row.0, mode);
        }
    }
    Ok(())
}

/// A worker alone at a closed gate writes what it has ended before it passes the budget.
#[test]
fn a_free_worker_alone_writes_as_it_goes(rt: HostRuntime) -> Result<(), Fail> {
    let words = "sim --workers 1 --until 1000000000 --budget 10";
    let (told, sink) = answer_in(&rt, rt.alloc(), "free", words, RING, 3)?;
    assert!(rt; tells_more_than(&told, 10));
    assert!(rt; sink.held() == RING_WITHIN_TEN.as_bytes());
    Ok(())
}

/// Decks, with the line and the kind of the fault.
const BAD_DECKS: &[(&str, u64, u8)] = &[
    ("INPUT(1)\nOUTPUT(x)\nx = NAND(1, y)\n", 3, 6),
    ("INPUT(1)\nINPUT(1)\n", 2, 5),
    (C17_SHORT_STIMULUS, 14, 7),
    ("INPUT(a)\nx = MUX(a)\n", 2, 3),
    ("INPUT(a)\nOUTPUT(x)\nx = NOT(a)\n@delay a 3\n@ 5 1\n", 4, 6),
    ("INPUT(a)\nOUTPUT(x)\nx = NOT(a)\n@delay x 0\n@ 5 1\n", 4, 8),
    (
        "INPUT(a)\nOUTPUT(x)\nx = NOT(a)\n@delay x 3\n@delay x 3\n@ 5 1\n",
        5,
        5,
    ),
];

#[test]
fn bad_decks_are_told_by_line_and_fault(rt: HostRuntime) -> Result<(), Fail> {
    for &(input, line, kind) in BAD_DECKS {
        let wanted = (Status::BadInput { line, kind }, b"".as_slice());
        let is_wanted = is_answered_in_pieces(&rt, rt.alloc(), "sim", input, wanted)?;
        expect(&rt, is_wanted, "sim", input);
    }
    Ok(())
}

/// So many inputs.
fn inputs(alloc: Global, count: u32) -> Result<String, NoRoom> {
    let mut deck = String::new(alloc);
    for number in 0..count {
        deck.push_str(&format!(in alloc; "INPUT({number})\n")?)?;
    }
    Ok(deck)
}

#[test]
fn a_deck_has_at_most_4096_signals(rt: HostRuntime) -> Result<(), Fail> {
    let deck = inputs(rt.alloc(), 4097)?;
    let (line, bound) = (4097, 4096);
    let wanted = (Status::TooLarge { line, bound }, b"".as_slice());
    assert!(rt; is_answered(&rt, rt.alloc(), "sim", &deck, 4096, wanted)?);
    Ok(())
}

/// An input and 4,095 gates.
fn widest_deck(alloc: Global) -> Result<String, NoRoom> {
    let mut deck = String::new(alloc);
    deck.push_str("INPUT(a)\nOUTPUT(g4095)\n")?;
    for number in 1..4096 {
        deck.push_str(&format!(in alloc; "g{number} = NOT(a)\n")?)?;
    }
    Ok(deck)
}

#[test]
fn a_deck_may_have_4096_signals(rt: HostRuntime) -> Result<(), Fail> {
    let deck = widest_deck(rt.alloc())?;
    let print = b"1 g4095 1\nfinal g4095 1\ntasks 8190\n".as_slice();
    assert!(rt; prints_in(&rt, rt.alloc(), "serial", "sim", &deck, print)?);
    assert!(rt; prints_in(&rt, rt.alloc(), "rounds", "sim", &deck, print)?);
    Ok(())
}

/// Words, and the number of the first bad one.
const BAD_WORDS: &[BadWord] = &[
    ("", 1),
    ("rank --until 5", 2),
    ("mesh --until 5", 2),
    ("level", 1),
    ("--budget 5", 1),
    ("sim --workers 0", 3),
    ("sim --seed 1 --seed 2", 4),
    ("sim --budget", 3),
    ("sim --mode fre", 3),
    ("rank --clock 2", 2),
    ("sim --until 1000000001", 3),
];

#[test]
fn bad_words_are_told_by_their_place(rt: HostRuntime) -> Result<(), Fail> {
    expect_bad_words(&rt, rt.alloc(), C17, BAD_WORDS)
}

/// Words, an input, the code of its status, and the line of its fault.
const TOLD: &[(&str, &str, u8, &str)] = &[
    ("sim", C17, 0, ""),
    ("sim --workers 0", C17, 2, "usage: word 3"),
    ("sim", C17_SHORT, 3, "bad input: line 7: fault 6"),
    ("sim --budget 19", C17, 5, "budget: more than 19 tasks"),
];

/// Whether a status has this code and this line.
fn is_told(status: &Status, code: u8, told: &str) -> bool {
    let mut line = [0; 64];
    let len = fault_line(status, &mut line);
    status.code() == code && &line[..len] == told.as_bytes()
}

#[test]
fn faults_are_told_with_their_codes(rt: HostRuntime) -> Result<(), Fail> {
    for &(words, input, code, told) in TOLD {
        let (status, _) = answer(&rt, rt.alloc(), words, input, 5)?;
        expect(&rt, is_told(&status, code, told), words, told);
    }
    Ok(())
}
