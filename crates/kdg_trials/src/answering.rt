//! The top call over a source and a sink in memory.

ghost use Rattle.std.specs.Prelude.{◌≤◌};

use kdg_prog::{Status, run};
use kdg_text::NoRoom;
use outer_edge::{CleanSink, CleanSource, Gate, Seeded, Sink, Source};
use std::alloc::{AllocError, Global};
use std::process::Abort;
use std::sync::Wait;
use std::test::Fail;
use std::thread::Threads;

/// The ways to run.
pub const MODES: &[&str] = &["serial", "rounds", "free", "marks"];

/// The words of a line.
fn words_of(alloc: Global, line: &str) -> Result<Vec<String>, AllocError> {
    let mut words = Vec::new(alloc);
    for word in line.split_whitespace() {
        words.push(String::from_str(alloc, word)?)?;
    }
    Ok(words)
}

/// The status of a run of a line of words, from a source to a sink and at a gate.
pub fn status_of<R: Threads + Wait + Sync, S: Source, K: Sink, G: Gate + Sync>(
    rt: &R,
    alloc: Global,
    line: &str,
    source: &mut S,
    sink: &mut K,
    gate: &G,
) -> Result<Status, NoRoom> {
    let words = words_of(alloc, line)?;
    Ok(run(rt, alloc, &words, source, sink, gate))
}

/// The status and what was printed, by reads and writes of at most `step` bytes.
pub fn answer<R: Threads + Wait + Sync>(
    rt: &R,
    alloc: Global,
    words: &str,
    input: &str,
    step: usize,
) -> Result<(Status, CleanSink), NoRoom>
    requires { 1 ≤ step }
{
    answer_at(rt, alloc, &Seeded, words, input, step)
}

/// The status and what was printed, at a gate.
pub fn answer_at<R: Threads + Wait + Sync, G: Gate + Sync>(
    rt: &R,
    alloc: Global,
    gate: &G,
    words: &str,
    input: &str,
    step: usize,
) -> Result<(Status, CleanSink), NoRoom>
    requires { 1 ≤ step }
{
    let mut source = CleanSource::new(input.as_bytes().to_vec(alloc)?, step);
    let mut sink = CleanSink::with_room(alloc, step, 4096)?;
    let status = status_of(rt, alloc, words, &mut source, &mut sink, gate)?;
    Ok((status, sink))
}

/// The status and what was printed, with the words for a mode behind the others.
pub fn answer_in<R: Threads + Wait + Sync>(
    rt: &R,
    alloc: Global,
    mode: &str,
    words: &str,
    input: &str,
    step: usize,
) -> Result<(Status, CleanSink), NoRoom>
    requires { 1 ≤ step }
{
    let words = format!(in alloc; "{words} --mode {mode}")?;
    answer(rt, alloc, &words, input, step)
}

/// Whether an input is answered by the status and the print that are wanted, by reads and writes of at most
/// `step` bytes.
pub fn is_answered<R: Threads + Wait + Sync>(
    rt: &R,
    alloc: Global,
    words: &str,
    input: &str,
    step: usize,
    wanted: (Status, &[u8]),
) -> Result<bool, NoRoom>
    requires { 1 ≤ step }
{
    is_answered_at(rt, alloc, &Seeded, words, input, step, wanted)
}

/// Whether an input is answered so at a gate.
pub fn is_answered_at<R: Threads + Wait + Sync, G: Gate + Sync>(
    rt: &R,
    alloc: Global,
    gate: &G,
    words: &str,
    input: &str,
    step: usize,
    wanted: (Status, &[u8]),
) -> Result<bool, NoRoom>
    requires { 1 ≤ step }
{
    let (answered, sink) = answer_at(rt, alloc, gate, words, input, step)?;
    Ok(answered == wanted.0 && sink.held() == wanted.1)
}

/// Whether an input is answered so by small and large reads and writes.
pub fn is_answered_in_pieces<R: Threads + Wait + Sync>(
    rt: &R,
    alloc: Global,
    words: &str,
    input: &str,
    wanted: (Status, &[u8]),
) -> Result<bool, NoRoom> {
    for step in [1usize, 3, 4096] {
        if !is_answered(rt, alloc, words, input, step, wanted)? {
            return Ok(false);
        }
    }
    Ok(true)
}

/// Whether an input is answered by this print in a mode, by reads and writes of at most 4096 bytes.
pub fn prints_in<R: Threads + Wait + Sync>(
    rt: &R,
    alloc: Global,
    mode: &str,
    words: &str,
    input: &str,
    print: &[u8],
) -> Result<bool, NoRoom> {
    let words = format!(in alloc; "{words} --mode {mode}")?;
    is_answered(rt, alloc, &words, input, 4096, (Status::Ok, print))
}

/// Asks that what was tried of a row is as wanted, and else ends with the names of the row and of its part.
pub fn expect(rt: &impl Abort, is_wanted: bool, row: &str, part: &str) {
    assert!(rt; is_wanted, "{row}: {part}");
}

/// Asks that what was tried at a number is as wanted, and else ends with both.
pub fn expect_at(rt: &impl Abort, is_wanted: bool, row: &str, number: u64) {
    assert!(rt; is_wanted, "{row}: {number}");
}

/// Words, an input and what is printed.
pub type Print = (&'static str, &'static str, &'static str);

/// Asks that each input is answered by its print in every mode, by small and large reads and writes.
pub fn expect_prints<R: Threads + Wait + Abort + Sync>(
    rt: &R,
    alloc: Global,
    rows: &[Print],
) -> Result<(), Fail> {
    for &(words, input, print) in rows {
        expect_print(rt, alloc, words, input, print.as_bytes())?;
    }
    Ok(())
}

/// Asks that an input is answered by this print in every mode.
fn expect_print<R: Threads + Wait + Abort + Sync>(
    rt: &R,
    alloc: Global,
    words: &str,
    input: &str,
    print: &[u8],
) -> Result<(), Fail> {
    for mode in MODES {
        let words = format!(in alloc; "{words} --mode {mode}")?;
        let is_wanted = is_answered_in_pieces(rt, alloc, &words, input, (Status::Ok, print))?;
        expect(rt, is_wanted, &words, input);
    }
    Ok(())
}

/// Words, an input, how it is answered, and what is printed.
pub type Answer = (&'static str, &'static str, Status, &'static str);

/// Asks that each input is answered like this, by reads and writes of at most `step` bytes.
pub fn expect_answers<R: Threads + Wait + Abort + Sync>(
    rt: &R,
    alloc: Global,
    step: usize,
    rows: &[Answer],
) -> Result<(), Fail>
    requires { 1 ≤ step }
{
    for &(words, input, status, print) in rows {
        let wanted = (status, print.as_bytes());
        let is_wanted = is_answered(rt, alloc, words, input, step, wanted)?;
        expect(rt, is_wanted, words, input);
    }
    Ok(())
}

/// Words, and the number of the first bad one.
pub type BadWord = (&'static str, u32);

/// Asks that the number of each bad word is told, and nothing printed.
pub fn expect_bad_words<R: Threads + Wait + Abort + Sync>(
    rt: &R,
    alloc: Global,
    input: &str,
    rows: &[BadWord],
) -> Result<(), Fail> {
    for &(words, word) in rows {
        let wanted = (Status::Usage { word }, b"".as_slice());
        let is_wanted = is_answered(rt, alloc, words, input, 5, wanted)?;
        expect(rt, is_wanted, words, input);
    }
    Ok(())
}

/// Whether more tasks than this limit are told.
pub fn tells_more_than(status: &Status, most: u64) -> bool {
    match *status {
        Status::Budget { created, limit } => limit == most && created > most,
        _ => false,
    }
}
