//! What is answered where a source or a sink fails, or an input is too large.

ghost use Rattle.std.specs.Prelude.{◌≢◌};
ghost use Rattle.kdg_prog.specs.Words.{IsAllowed};

use crate::answering::{
    Answer, MODES, expect_answers, expect_at, is_answered, status_of, tells_more_than,
};
use crate::decks::{
    C17, C17_AND_ZERO, C17_OPEN, C17_PRINT, C17_SHORT, RING, RING_LOG, RING_WITHIN_TEN,
};
use crate::words::SIM;
use kdg_prog::{Mode, Options, Status, run_in_memory};
use kdg_text::NoRoom;
use outer_edge::{CleanSink, CleanSource, MemSink, MemSource, Seeded};
use std::alloc::Global;
use std::sync::Wait;
use std::test::Fail;
use std::thread::Threads;

/// Each read gives a byte. The deck has 169, so that read number 170 finds its end.
#[test]
fn a_failed_read_ends_the_run(rt: HostRuntime) -> Result<(), Fail> {
    for mode in MODES {
        for failed in 1u64..172 {
            let is_wanted = ends_at_failed_read(&rt, rt.alloc(), mode, failed)?;
            expect_at(&rt, is_wanted, mode, failed);
        }
    }
    Ok(())
}

/// Whether a run of c17 in a mode, where the read of this number fails, counted from 1, tells of it and prints
/// nothing, or comes to its end before.
fn ends_at_failed_read<R: Threads + Wait + Sync>(
    rt: &R,
    alloc: Global,
    mode: &str,
    failed: u64,
) -> Result<bool, NoRoom> {
    let line = format!(in alloc; "sim --mode {mode}")?;
    let fails = vec![in alloc; failed]?;
    let mut source = MemSource::new(C17.as_bytes().to_vec(alloc)?, 1, fails);
    let mut sink = CleanSink::with_room(alloc, 64, 4096)?;
    let status = status_of(rt, alloc, &line, &mut source, &mut sink, &Seeded)?;
    let (want, print) = if failed < 171 {
        (Status::ReadFault, "")
    } else {
        (Status::Ok, C17_PRINT)
    };
    Ok(status == want && sink.held() == print.as_bytes())
}

/// Each write takes a byte, and there is room for the 59 of the print.
#[test]
fn a_failed_write_leaves_a_front_of_the_print(rt: HostRuntime) -> Result<(), Fail> {
    for mode in MODES {
        for failed in 1u64..61 {
            let (status, sink) = after_failed_write(&rt, rt.alloc(), "sim", C17, mode, failed)?;
            let is_wanted = is_told(&status, failed) && is_front(sink.held(), failed, C17_PRINT);
            expect_at(&rt, is_wanted, mode, failed);
        }
    }
    Ok(())
}

/// Whether the write of this number is told to have failed, if the print has as many bytes.
fn is_told(status: &Status, failed: u64) -> bool {
    let want = if failed < 60 {
        Status::WriteFault
    } else {
        Status::Ok
    };
    *status == want
}

/// Whether these are the bytes of a print before the one of this number, counted from 1.
fn is_front(held: &[u8], number: u64, print: &str) -> bool {
    held.len() as u64 + 1 == number && print.as_bytes().starts_with(held)
}

/// What an input is answered in a mode where the write of this number fails, counted from 1.
fn after_failed_write<R: Threads + Wait + Sync>(
    rt: &R,
    alloc: Global,
    words: &str,
    input: &str,
    mode: &str,
    failed: u64,
) -> Result<(Status, MemSink), NoRoom> {
    let line = format!(in alloc; "{words} --mode {mode}")?;
    let mut source = CleanSource::new(input.as_bytes().to_vec(alloc)?, 64);
    let mut sink = MemSink::with_room(alloc, 1, 59, vec![in alloc; failed]?)?;
    let status = status_of(rt, alloc, &line, &mut source, &mut sink, &Seeded)?;
    Ok((status, sink))
}

/// Each write takes a byte. A run whose log goes out goes on after a failed write, and tells that it is over the
/// budget; the other modes write nothing. Workers of mode free may have written fewer lines by then.
#[test]
fn the_budget_is_told_after_a_failed_write(rt: HostRuntime) -> Result<(), Fail> {
    let words = "sim --until 1000000000 --budget 10";
    for mode in MODES {
        for failed in 1u64..20 {
            let (status, sink) = after_failed_write(&rt, rt.alloc(), words, RING, mode, failed)?;
            let is_wanted = tells_more_than(&status, 10) && may_hold(mode, sink.held(), failed);
            expect_at(&rt, is_wanted, mode, failed);
        }
    }
    Ok(())
}

/// Whether a mode may have written this before the write of this number failed.
fn may_hold(mode: &str, held: &[u8], failed: u64) -> bool {
    match mode {
        "rounds" => is_front(held, failed, RING_WITHIN_TEN),
        "free" => (held.len() as u64) < failed && RING_LOG.as_bytes().starts_with(held),
        _ => held.is_empty(),
    }
}

/// Inputs that stop short, or go beyond a bound.
const BROKEN: &[Answer] = &[
    ("sim", C17_OPEN, Status::BadInput { line: 13, kind: 1 }, ""),
    ("sim", C17_SHORT, Status::BadInput { line: 7, kind: 6 }, ""),
    (
        "rank",
        "%%MatrixMarket matrix coordinate pattern general\n1 1 1000000\n",
        Status::BadInput { line: 3, kind: 6 },
        "",
    ),
    (
        "rank",
        "%%MatrixMarket matrix coordinate pattern general\n4097 1 0\n",
        Status::TooLarge {
            line: 2,
            bound: 4096,
        },
        "",
    ),
    (
        "mesh",
        "node 0 0 0 0 1\nspring 1 1 1 0 0 1\n",
        Status::BadInput { line: 2, kind: 3 },
        "",
    ),
    // a byte that no line has
    (
        "sim",
        C17_AND_ZERO,
        Status::BadInput { line: 14, kind: 1 },
        "",
    ),
];

#[test]
fn broken_inputs_are_told_by_line_and_fault(rt: HostRuntime) -> Result<(), Fail> {
    expect_answers(&rt, rt.alloc(), 4096, BROKEN)
}

#[test]
fn a_gate_has_at_most_255_fan_ins(rt: HostRuntime) -> Result<(), Fail> {
    let (line, bound) = (2, 255);
    let print = b"1 q 1\n2 q 0\nfinal q 0\ntasks 5\n".as_slice();
    assert!(rt; feeds_itself(&rt, rt.alloc(), 255, (Status::Ok, print))?);
    let refused = (Status::TooLarge { line, bound }, b"".as_slice());
    assert!(rt; feeds_itself(&rt, rt.alloc(), 256, refused)?);
    Ok(())
}

/// Whether a gate that names itself `names` times is answered by the status and the print that are wanted.
fn feeds_itself<R: Threads + Wait + Sync>(
    rt: &R,
    alloc: Global,
    names: u32,
    wanted: (Status, &[u8]),
) -> Result<bool, NoRoom> {
    let deck = self_feeding(alloc, names)?;
    is_answered(rt, alloc, "sim --until 2", &deck, 4096, wanted)
}

/// A gate that names itself `names` times.
fn self_feeding(alloc: Global, names: u32) -> Result<String, NoRoom> {
    let mut deck = String::from_str(alloc, "OUTPUT(q)\nq = XNOR(q")?;
    for _ in 1..names {
        deck.push_str(", q")?;
    }
    deck.push_str(")\n")?;
    Ok(deck)
}

/// The most bytes that an input may have.
const MOST_BYTES: u64 = 16_777_216;

#[test]
fn an_input_may_be_too_large(rt: HostRuntime) -> Result<(), Fail> {
    let wanted = (Status::Ok, b"tasks 0\n".as_slice());
    assert!(rt; is_answered_in_memory(&rt, rt.alloc(), MOST_BYTES, wanted)?);
    let (line, bound) = (0, MOST_BYTES);
    let refused = (Status::TooLarge { line, bound }, b"".as_slice());
    assert!(rt; is_answered_in_memory(&rt, rt.alloc(), MOST_BYTES + 1, refused)?);
    Ok(())
}

/// Whether a comment of so many bytes is answered by the status and the print that are wanted.
fn is_answered_in_memory<R: Threads + Sync>(
    rt: &R,
    alloc: Global,
    len: u64,
    wanted: (Status, &[u8]),
) -> Result<bool, NoRoom> {
    let bytes = vec![in alloc; b'#'; len as usize]?;
    let mut source = CleanSource::new(bytes, 1 << 20);
    let mut sink = CleanSink::with_room(alloc, 64, 4096)?;
    let options = plain_options();
    let status = run_in_memory(rt, alloc, &options, &mut source, &mut sink, &Seeded);
    Ok(status == wanted.0 && sink.held() == wanted.1)
}

/// What the plain command asks for.
fn plain_options() -> Options
    ensures allowed { IsAllowed result }
    ensures plain { result.mode ≢ Mode.Free }
{
    SIM
}
