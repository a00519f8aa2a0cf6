//! Sources and sinks, and whole transfers over them.

ghost use Rattle.std.specs.Prelude.{◌≡◌, ◌+◌, ◌<◌, ◌++◌, length};

use kdg_text::{NoRoom, Steps, Text};
use outer_edge::*;
use std::alloc::Global;
use std::io;
use std::io::{Error, ErrorKind, Read, Write};
use std::marker::Brand;
use std::sync::ledger::{Blank, Ledger};
use std::test::Fail;
use task_order::Key;

fn input(alloc: Global, bytes: &[u8], fails: &[u64]) -> Result<MemSource, NoRoom> {
    let source = MemSource::new(bytes.to_vec(alloc)?, 2, fails.to_vec(alloc)?);
    Ok(source)
}

/// An input, the limit, the numbers of the reads that fail, and what is read.
type Reading = (
    &'static str,
    u64,
    &'static [u64],
    Result<&'static str, ReadAllFault>,
);

const READINGS: &[Reading] = &[
    ("abcde", 5, &[0], Ok("abcde")),
    ("abcde", 4, &[0], Err(ReadAllFault::TooLarge)),
    ("abcde", 5, &[2], Err(ReadAllFault::ReadFault)),
    ("abcde", 5, &[4], Err(ReadAllFault::ReadFault)),
    ("abcde", 3, &[3], Err(ReadAllFault::TooLarge)),
    ("abcde", u64::MAX, &[9], Ok("abcde")),
    ("", 0, &[9], Ok("")),
    ("a", 0, &[9], Err(ReadAllFault::TooLarge)),
];

#[test]
fn inputs_are_read_to_their_end(rt: HostRuntime) -> Result<(), Fail> {
    for reading in READINGS {
        assert!(rt; is_read(rt.alloc(), reading)?, "{}", reading.0);
    }
    Ok(())
}

/// Whether an input is read as wanted.
fn is_read(alloc: Global, &(bytes, limit, fails, want): &Reading) -> Result<bool, NoRoom> {
    let mut source = input(alloc, bytes.as_bytes(), fails)?;
    Ok(match read_all(alloc, &mut source, limit) {
        Ok(text) => want.is_ok_and(|want| text.bytes() == want.as_bytes()),
        Err(fault) => want == Err(fault),
    })
}

#[test]
fn long_inputs_are_read_in_many_reads(rt: HostRuntime) -> Result<(), Fail> {
    let bytes = vec![in rt.alloc(); 7; 20000]?;
    assert!(rt; are_read(rt.alloc(), &bytes)?);
    Ok(())
}

/// Whether these bytes are read from a source in memory and from a reader, and no others.
fn are_read(alloc: Global, bytes: &[u8]) -> Result<bool, Fail> {
    let mut clean = CleanSource::new(bytes.to_vec(alloc)?, 3000);
    let mut reader = ReadEdge::new(bytes);
    Ok(has_all(alloc, &mut clean, bytes)? && has_all(alloc, &mut reader, bytes)?)
}

/// Whether a source has these bytes and no others.
fn has_all<S: Source>(alloc: Global, source: &mut S, bytes: &[u8]) -> Result<bool, ReadAllFault> {
    let text = read_all(alloc, source, 20000)?;
    Ok(text.bytes() == bytes)
}

/// Reads an input of at most three bytes, one byte with each read, and counts the reads.
fn read_three<L: Ledger>(alloc: Global, bytes: Vec<u8>, blank: Blank) -> Result<Text, ReadAllFault>
    requires name { blank.name ≡ L.name }
    requires parts { blank.parts ≡ L.parts }
    requires some { 0 < blank.parts }
{
    let mut source = CleanSource::new(bytes, 1);
    let mut steps = Steps::<L>::new(blank);
    read_all_counted(alloc, &mut source, 3, &mut steps)
}

#[test]
fn reads_are_counted(rt: HostRuntime) -> Result<(), Fail> {
    let bytes = b"abc".to_vec(rt.alloc())?;
    let text = read_three::<Brand>(rt.alloc(), bytes, Blank::new(1))?;
    assert!(rt; text.bytes() == b"abc".as_slice());
    Ok(())
}

/// A piece that is shorter than the free room is always written.
fn write_within_room(sink: &mut CleanSink, piece: &[u8])
    requires { length sink.old.held + length piece.now < sink.old.room }
    ensures { sink.new.held ≡ sink.old.held ++ piece.now }
{
    write_whole(sink, piece).unwrap();
}

#[test]
fn pieces_are_written_whole(rt: HostRuntime) -> Result<(), Fail> {
    let mut clean = CleanSink::with_room(rt.alloc(), 4, 9)?;
    assert!(rt; write_whole(&mut clean, b"") == Ok(()));
    write_within_room(&mut clean, b"1234");
    assert!(rt; is_filled(&mut clean));
    Ok(())
}

/// Fills a sink that has room for five more bytes behind the first four. The answer is whether it takes nothing but
/// an empty piece then.
fn is_filled(sink: &mut CleanSink) -> bool {
    let is_full = write_whole(sink, b"56789").is_ok() && sink.held() == b"123456789".as_slice();
    let takes_nothing = write_whole(sink, b"").is_ok();
    let is_refused = write_whole(sink, b"x") == Err(WriteAllFault::WriteFault);
    is_full && takes_nothing && is_refused && sink.held() == b"123456789".as_slice()
}

/// The room of a sink that takes four bytes at a time, the numbers of the writes that fail, and what comes of
/// nine bytes and is held then.
type Writing = (
    usize,
    &'static [u64],
    Result<(), WriteAllFault>,
    &'static str,
);

const WRITINGS: &[Writing] = &[
    (9, &[3], Err(WriteAllFault::WriteFault), "12345678"),
    (9, &[1], Err(WriteAllFault::WriteFault), ""),
    (6, &[9], Err(WriteAllFault::WriteFault), "123456"),
    (9, &[4], Ok(()), "123456789"),
];

#[test]
fn failed_writes_leave_a_front(rt: HostRuntime) -> Result<(), Fail> {
    for writing in WRITINGS {
        assert!(rt; is_left(rt.alloc(), writing)?, "{}", writing.3);
    }
    Ok(())
}

/// Whether a write leaves what is wanted.
fn is_left(alloc: Global, &(room, fails, want, held): &Writing) -> Result<bool, NoRoom> {
    let mut sink = MemSink::with_room(alloc, 4, room, fails.to_vec(alloc)?)?;
    let written = write_whole(&mut sink, b"123456789");
    Ok(written == want && sink.held() == held.as_bytes())
}

/// A reader and a writer that goes wrong in the midst of its bytes.
#[derive(Drop)]
struct Flaky {
    calls: u8,
    zero_at: u8,
    flushes: u8,
    broken_flush: u8,
}

impl Read for Flaky {
    fn read(&mut self, buf: &mut [u8]) -> io::Result<usize> {
        self.calls = self.calls.saturating_add(1);
        if self.calls > 2 {
            return Err(Error::from(ErrorKind::Interrupted));
        }
        let count = buf.len().min(1);
        Ok(count)
    }
}

impl Write for Flaky {
    fn write(&mut self, buf: &[u8]) -> io::Result<usize> {
        self.calls = self.calls.saturating_add(1);
        if self.calls == self.zero_at {
            return Ok(0);
        }
        if self.calls > 3 {
            return Err(Error::from(ErrorKind::Interrupted));
        }
        Ok(buf.len().min(1))
    }

    fn flush(&mut self) -> io::Result<()> {
        self.flushes = self.flushes.saturating_add(1);
        if self.flushes == self.broken_flush {
            return Err(Error::from(ErrorKind::Interrupted));
        }
        Ok(())
    }
}

impl Flaky {
    fn new(zero_at: u8, broken_flush: u8) -> Flaky {
        Flaky {
            calls: 0,
            zero_at,
            flushes: 0,
            broken_flush,
        }
    }
}

/// A piece, the number of the write that takes nothing and of the flush that fails, and what is answered.
const FLAKY_WRITINGS: &[(&str, u8, u8, Result<(), WriteAllFault>)] = &[
    ("123", 0, 0, Ok(())),
    ("1234", 0, 0, Err(WriteAllFault::WriteFault)),
    ("123", 2, 0, Err(WriteAllFault::WriteFault)),
    ("123", 0, 3, Err(WriteAllFault::WriteFault)),
];

#[test]
fn errors_of_readers_are_handed_on(rt: HostRuntime) {
    let mut reader = ReadEdge::new(Flaky::new(0, 0));
    let fault = read_all(rt.alloc(), &mut reader, 9).err();
    assert!(rt; fault == Some(ReadAllFault::ReadFault));
}

#[test]
fn errors_of_writers_are_handed_on(rt: HostRuntime) {
    for &(piece, zero_at, broken_flush, want) in FLAKY_WRITINGS {
        let mut writer = WriteEdge::new(Flaky::new(zero_at, broken_flush));
        assert!(rt;
            write_whole(&mut writer, piece.as_bytes()) == want,
            "{piece}"
        );
    }
}

#[test]
fn pieces_are_written_to_a_vector(rt: HostRuntime) -> Result<(), Fail> {
    let bytes = written(rt.alloc())?;
    assert!(rt; bytes.as_slice() == b"abc".as_slice());
    Ok(())
}

/// A vector to which two pieces were written.
fn written(alloc: Global) -> Result<Vec<u8>, WriteAllFault> {
    let mut bytes = Vec::new(alloc);
    let mut writer = WriteEdge::new(&mut bytes);
    write_whole(&mut writer, b"ab")?;
    write_whole(&mut writer, b"c")?;
    Ok(bytes)
}

/// The first words of the demonstration in PCG's C code, whose state is 42 and whose stream is 54.
const WORDS: &[(u64, u64)] = &[
    (0, 0xa15c02b7),
    (1, 0x7b47f409),
    (2, 0xba1d3330),
    (3, 0x83d2f293),
    (4, 0xbfa4784b),
    (5, 0xcbed606e),
];

#[test]
fn a_seed_gives_its_words(rt: HostRuntime) {
    for &(turn, word) in WORDS {
        assert!(rt; choice(&Seeded, 42, 54, turn) == word);
    }
}

#[test]
fn a_still_gate_chooses_the_first(rt: HostRuntime) {
    assert!(rt; choice(&Still, 42, 54, 3) == 0);
}

/// A gate gives for many turns at once what it gives for each: by a body of its own, and by the one
/// that it has from the trait.
#[test]
fn turns_ahead_have_their_own_words(rt: HostRuntime) {
    assert!(rt; has_ahead(&Seeded, [0x7b47f409, 0xba1d3330, 0x83d2f293, 0xbfa4784b]));
    assert!(rt; has_ahead(&Still, [0, 0, 0, 0]));
    assert!(rt; has_ahead(&Turns, [1, 2, 3, 4]));
}

/// A gate that chooses the number of the turn.
#[derive(Clone, Copy)]
struct Turns;

impl Gate for Turns {
    fn choose(&self, _seed: u64, _worker: u32, turn: u64) -> u64 {
        turn
    }

    fn pass(&self, _worker: u32, _key: &Key) {}
}

/// A gate is open only where it says so.
#[test]
fn gates_tell_whether_they_are_open(rt: HostRuntime) {
    assert!(rt; opens(&Still) && opens(&Seeded) && !opens(&Turns));
}

fn opens<G: Gate>(gate: &G) -> bool {
    gate.is_open()
}

/// Whether a gate has these picks for four turns ahead.
fn has_ahead<G: Gate>(gate: &G, want: [u64; 4]) -> bool {
    let mut picks = [9; 4];
    gate.choose_ahead(42, 54, 1, &mut picks);
    picks == want
}

fn choice<G: Gate>(gate: &G, seed: u64, worker: u32, turn: u64) -> u64 {
    gate.choose(seed, worker, turn)
}
