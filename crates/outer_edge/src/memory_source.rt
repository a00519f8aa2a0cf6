ghost use Rattle.std.specs.Prelude.{◌≡◌, ◌<◌, ◌≤◌, length, drop, Some};
ghost use Rattle.outer_edge.specs.Memory.{after_read, buffer_after, pull_from, pull_of, given_len};
ghost use Rattle.outer_edge.specs.Reading.{CountsFailedRead, ReadGives};

use crate::{Pull, Source};
use std::marker::Model;

/// Bytes in memory, given piece by piece, where reads can be made to fail.
#[derive(Drop)]
pub struct MemSource {
    bytes: Vec<u8>,
    at: usize,
    step: usize,
    fails: Vec<u64>,
    reads: u64,
    faults: u64,
}

impl Model for MemSource {
    ghost use Rattle.std.specs.Prelude.{◌≤◌, drop};
    ghost use Rattle.outer_edge.specs.Memory.{Reader};

    ghost Value = { Reader };

    ghost view = { λ s. record {
      left = drop s.at s.bytes.items;
      step = s.step;
      fails = s.fails.items;
      reads = s.reads;
      faults = s.faults;
    } };

    ghost invariant = { λ s. 1 ≤ s.step };
}

impl MemSource {
    /// At most `step` bytes come with each read. The reads whose numbers, counted from 1, are in
    /// `fails` fail.
    pub fn new(bytes: Vec<u8>, step: usize, fails: Vec<u64>) -> MemSource
        requires { 1 ≤ step }
        ensures { result ≡ record {
          left = bytes.items;
          step = step;
          fails = fails.items;
          reads = 0;
          faults = 0;
        } }
    {
        MemSource {
            bytes,
            at: 0,
            step,
            fails,
            reads: 0,
            faults: 0,
        }
    }
}

impl Source for MemSource {
    ghost use Rattle.std.specs.Prelude.{Some};

    ghost remaining = { λ s. Some s.left };

    ghost faults = { λ s. s.faults };

    fn read(&mut self, buf: &mut [u8]) -> Pull
        requires { 0 < length buf.old }
        ensures bytes { ReadGives (Some self.old.left) (Some self.new.left) buf.new result }
        ensures counts { CountsFailedRead self.old.faults self.new.faults result }
        ensures never_falls { self.old.faults ≤ self.new.faults }
        ensures pull { result ≡ pull_of self.old (length buf.old) }
        ensures after { self.new ≡ after_read self.old result }
        ensures buffer { buf.new ≡ buffer_after buf.old self.old.left result }
    {
        self.reads = self.reads.saturating_add(1);
        if self.fails.contains(&self.reads) {
            self.faults = self.faults.saturating_add(1);
            return Pull::Failed;
        }
        copy_next(&self.bytes, &mut self.at, self.step, buf)
    }
}

/// Bytes in memory, given piece by piece, by reads that never fail.
#[derive(Drop)]
pub struct CleanSource {
    bytes: Vec<u8>,
    at: usize,
    step: usize,
}

impl Model for CleanSource {
    ghost use Rattle.std.specs.Prelude.{◌≤◌, drop};
    ghost use Rattle.outer_edge.specs.Memory.{CleanReader};

    ghost Value = { CleanReader };

    ghost view = { λ s. record { left = drop s.at s.bytes.items; step = s.step } };

    ghost invariant = { λ s. 1 ≤ s.step };
}

impl CleanSource {
    /// At most `step` bytes come with each read.
    pub fn new(bytes: Vec<u8>, step: usize) -> CleanSource
        requires { 1 ≤ step }
        ensures { result ≡ record { left = bytes.items; step = step } }
    {
        CleanSource { bytes, at: 0, step }
    }
}

impl Source for CleanSource {
    ghost use Rattle.std.specs.Prelude.{Some};

    ghost remaining = { λ s. Some s.left };

    ghost faults = { λ _. 0 };

    fn read(&mut self, buf: &mut [u8]) -> Pull
        requires { 0 < length buf.old }
        ensures bytes { ReadGives (Some self.old.left) (Some self.new.left) buf.new result }
        ensures counts { CountsFailedRead 0 0 result }
        ensures never_falls { 0 ≤ 0 }
        ensures pull { result ≡ pull_from self.old.left self.old.step (length buf.old) }
        ensures after { self.new ≡ record self.old { left = drop (given_len result) self.old.left } }
        ensures buffer { buf.new ≡ buffer_after buf.old self.old.left result }
    {
        copy_next(&self.bytes, &mut self.at, self.step, buf)
    }
}

/// Copies the bytes from a place on, at most `step` of them, to the front of the buffer, and moves
/// the place behind them.
fn copy_next(bytes: &[u8], at: &mut usize, step: usize, buf: &mut [u8]) -> Pull
    requires some { 0 < length buf.old }
    requires step { 1 ≤ step }
    ensures pull { result ≡ pull_from (drop at.old bytes.now) step (length buf.old) }
    ensures place { drop at.new bytes.now ≡ drop (given_len result) (drop at.old bytes.now) }
    ensures buffer { buf.new ≡ buffer_after buf.old (drop at.old bytes.now) result }
    ensures gives { let left = drop at.old bytes.now in
        ReadGives (Some left) (Some (drop (given_len result) left)) buf.new result }
{
    let left = bytes.get(*at..).unwrap_or(&[]);
    if left.is_empty() {
        return Pull::End;
    }
    let count = step.min(buf.len()).min(left.len());
    buf[..count].copy_from_slice(&left[..count]);
    *at += count;
    Pull::Got(count)
}
