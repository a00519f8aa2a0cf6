ghost use Rattle.std.specs.Prelude.{◌≡◌, ◌<◌, ◌≤◌, length};
ghost use Rattle.outer_edge.specs.Edge.{pull_by, push_by};
ghost use Rattle.outer_edge.specs.Memory.{faults_after_read, faults_after_write};
ghost use Rattle.outer_edge.specs.Reading.{CountsFailedRead, ReadGives};
ghost use Rattle.outer_edge.specs.Writing.{CountsFailedWrite, WriteTakes};

use crate::{Pull, Push, Sink, Source};
use std::io;
use std::io::{Read, Write};
use std::marker::Model;

/// A reader as a source. An error of a read, of whatever kind, is a failed read.
#[derive(Drop)]
pub struct ReadEdge<R> {
    inner: R,
    faults: u64,
}

impl<R> Model for ReadEdge<R> {
    ghost use Rattle.outer_edge.specs.Edge.{Counted};

    ghost Value = { Counted R };

    ghost view = { λ e. record { inner = e.inner; faults = e.faults } };
}

impl<R: Read> ReadEdge<R> {
    /// A source over a reader, with no failed read so far.
    pub fn new(inner: R) -> ReadEdge<R>
        ensures { result ≡ record { inner = inner; faults = 0 } }
    {
        ReadEdge { inner, faults: 0 }
    }
}

impl<R: Read> Source for ReadEdge<R> {
    ghost remaining = { λ e. R.remaining e.inner };

    ghost faults = { λ e. e.faults };

    fn read(&mut self, buf: &mut [u8]) -> Pull
        requires { 0 < length buf.old }
        ensures bytes { ReadGives (R.remaining self.old.inner) (R.remaining self.new.inner)
            buf.new result }
        ensures counts { CountsFailedRead self.old.faults self.new.faults result }
        ensures never_falls { self.old.faults ≤ self.new.faults }
        ensures count { self.new.faults ≡ faults_after_read self.old.faults result }
    {
        let pull = pull_by(self.inner.read(buf));
        if let Pull::Failed = pull {
            self.faults = self.faults.saturating_add(1);
        }
        pull
    }
}

/// What a reader's answer to a read with room for a byte says.
fn pull_by(answer: io::Result<usize>) -> Pull
    ensures { result ≡ pull_by answer }
{
    match answer {
        Ok(0) => Pull::End,
        Ok(count) => Pull::Got(count),
        Err(_) => Pull::Failed,
    }
}

/// A writer as a sink. An error of a write or of the flush after it, of whatever kind, is a failed
/// write, and so is one that takes no byte.
#[derive(Drop)]
pub struct WriteEdge<W> {
    inner: W,
    faults: u64,
}

impl<W> Model for WriteEdge<W> {
    ghost use Rattle.outer_edge.specs.Edge.{Counted};

    ghost Value = { Counted W };

    ghost view = { λ e. record { inner = e.inner; faults = e.faults } };
}

impl<W: Write> WriteEdge<W> {
    /// A sink over a writer, with no failed write so far.
    pub fn new(inner: W) -> WriteEdge<W>
        ensures { result ≡ record { inner = inner; faults = 0 } }
    {
        WriteEdge { inner, faults: 0 }
    }
}

impl<W: Write> Sink for WriteEdge<W> {
    ghost contents = { λ e. W.contents e.inner };

    ghost faults = { λ e. e.faults };

    fn write(&mut self, piece: &[u8]) -> Push
        requires { 0 < length piece.now }
        ensures bytes { WriteTakes (W.contents self.old.inner) (W.contents self.new.inner)
            piece.now result }
        ensures counts { CountsFailedWrite self.old.faults self.new.faults result }
        ensures never_falls { self.old.faults ≤ self.new.faults }
        ensures count { self.new.faults ≡ faults_after_write self.old.faults result }
    {
        let push = match self.inner.write(piece) {
            Ok(count) if count > 0 => push_by(count, self.inner.flush()),
            _ => Push::Failed,
        };
        if let Push::Failed = push {
            self.faults = self.faults.saturating_add(1);
        }
        push
    }
}

/// What a write of `count` bytes comes to, by the writer's answer to the flush after it.
fn push_by(count: usize, flushed: io::Result<()>) -> Push
    ensures { result ≡ push_by count flushed }
{
    match flushed {
        Ok(()) => Push::Took(count),
        Err(_) => Push::Failed,
    }
}
