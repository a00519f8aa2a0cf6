ghost use Rattle.std.specs.Prelude.{◌≡◌, ◌<◌, ◌≤◌, [], ◌++◌, length, take, Some, IfOk, vec_capacity};
ghost use Rattle.outer_edge.specs.Memory.{CleanWriterGives, WriterGives, clean_faults, push_onto, taken_len};
ghost use Rattle.outer_edge.specs.Writing.{CountsFailedWrite, WriteTakes};

use crate::{Push, Sink};
use kdg_text::NoRoom;
use std::alloc::Global;
use std::marker::Model;

/// Bytes held in memory, taken piece by piece, where writes can be made to fail.
#[derive(Drop)]
pub struct MemSink {
    held: Vec<u8>,
    step: usize,
    room: usize,
    fails: Vec<u64>,
    writes: u64,
    faults: u64,
}

impl Model for MemSink {
    ghost use Rattle.std.specs.Prelude.{◌≤◌, length, vec_capacity};
    ghost use Rattle.outer_edge.specs.Memory.{Writer};

    ghost Value = { Writer };

    ghost view = { λ s. record {
      held = s.held.items;
      step = s.step;
      room = s.room;
      fails = s.fails.items;
      writes = s.writes;
      faults = s.faults;
    } };

    ghost invariant = { λ s. (1 ≤ s.step) × (length s.held.items ≤ s.room)
        × (s.room ≤ vec_capacity s.held) };
}

impl MemSink {
    /// At most `step` bytes are taken with each write, and `room` in all. The writes whose numbers,
    /// counted from 1, are in `fails` fail. All memory is taken here, and none by a write.
    pub fn with_room(
        alloc: Global,
        step: usize,
        room: usize,
        fails: Vec<u64>,
    ) -> Result<MemSink, NoRoom>
        requires { 1 ≤ step }
        ensures { IfOk result (λ sink. sink ≡ record {
          held = [];
          step = step;
          room = room;
          fails = fails.items;
          writes = 0;
          faults = 0;
        }) }
    {
        Ok(MemSink {
            held: Vec::with_capacity(alloc, room)?,
            step,
            room,
            fails,
            writes: 0,
            faults: 0,
        })
    }

    /// The bytes that were taken so far.
    pub fn held(&self) -> &[u8]
        ensures { result.now ≡ self.now.held }
    {
        &self.held
    }
}

impl Sink for MemSink {
    ghost use Rattle.std.specs.Prelude.{Some};
    ghost use Rattle.outer_edge.specs.Memory.{WriterGives};

    ghost contents = { λ s. Some s.held };

    ghost room = { λ s. Some s.room };

    ghost faults = { λ s. s.faults };

    ghost write_gives = { WriterGives };

    fn write(&mut self, piece: &[u8]) -> Push
        requires { 0 < length piece.now }
        ensures bytes { WriteTakes (Some self.old.held) (Some self.new.held) piece.now result }
        ensures counts { CountsFailedWrite self.old.faults self.new.faults result }
        ensures never_falls { self.old.faults ≤ self.new.faults }
        ensures same_room { Some self.new.room ≡ Some self.old.room }
        ensures gives { WriterGives self.old piece.now result self.new }
    {
        self.writes = self.writes.saturating_add(1);
        if self.fails.contains(&self.writes) {
            self.faults = self.faults.saturating_add(1);
            return Push::Failed;
        }
        let push = append_front(&mut self.held, self.room, self.step, piece);
        if let Push::Failed = push {
            self.faults = self.faults.saturating_add(1);
        }
        push
    }
}

/// Bytes held in memory, taken piece by piece, by writes that fail only where it is full.
#[derive(Drop)]
pub struct CleanSink {
    held: Vec<u8>,
    step: usize,
    room: usize,
    full_writes: u64,
}

impl Model for CleanSink {
    ghost use Rattle.std.specs.Prelude.{◌≡◌, ◌<◌, ◌≤◌, length, vec_capacity};
    ghost use Rattle.outer_edge.specs.Memory.{CleanWriter};

    ghost Value = { CleanWriter };

    ghost view = { λ s. record {
      held = s.held.items;
      step = s.step;
      room = s.room;
      full_writes = s.full_writes;
    } };

    ghost invariant = { λ s. (1 ≤ s.step) × (length s.held.items ≤ s.room)
        × (s.room ≤ vec_capacity s.held) × (length s.held.items < s.room → s.full_writes ≡ 0) };
}

impl CleanSink {
    /// At most `step` bytes are taken with each write, and `room` in all. All memory is taken here,
    /// and none by a write.
    pub fn with_room(alloc: Global, step: usize, room: usize) -> Result<CleanSink, NoRoom>
        requires { 1 ≤ step }
        ensures { IfOk result (λ sink. sink
            ≡ record { held = []; step = step; room = room; full_writes = 0 }) }
    {
        Ok(CleanSink {
            held: Vec::with_capacity(alloc, room)?,
            step,
            room,
            full_writes: 0,
        })
    }

    /// The bytes that were taken so far.
    pub fn held(&self) -> &[u8]
        ensures { result.now ≡ self.now.held }
    {
        &self.held
    }
}

impl Sink for CleanSink {
    ghost use Rattle.std.specs.Prelude.{Some};
    ghost use Rattle.outer_edge.specs.Memory.{CleanWriterGives, clean_faults};

    ghost contents = { λ s. Some s.held };

    ghost room = { λ s. Some s.room };

    ghost faults = { clean_faults };

    ghost write_gives = { CleanWriterGives };

    fn write(&mut self, piece: &[u8]) -> Push
        requires { 0 < length piece.now }
        ensures bytes { WriteTakes (Some self.old.held) (Some self.new.held) piece.now result }
        ensures counts { CountsFailedWrite (clean_faults self.old) (clean_faults self.new) result }
        ensures never_falls { clean_faults self.old ≤ clean_faults self.new }
        ensures same_room { Some self.new.room ≡ Some self.old.room }
        ensures gives { CleanWriterGives self.old piece.now result self.new }
    {
        let push = append_front(&mut self.held, self.room, self.step, piece);
        if let Push::Failed = push {
            self.full_writes = self.full_writes.saturating_add(1);
        }
        push
    }
}

/// Appends the front of a piece, at most `step` bytes of it and no more than there is room for.
fn append_front(held: &mut Vec<u8>, room: usize, step: usize, piece: &[u8]) -> Push
    requires some { 0 < length piece.now }
    requires step { 1 ≤ step }
    requires within { length held.old.items ≤ room }
    requires capacity { room ≤ vec_capacity held.old }
    ensures push { result ≡ push_onto held.old.items step room (length piece.now) }
    ensures after { held.new.items ≡ held.old.items ++ take (taken_len result) piece.now }
    ensures takes { WriteTakes (Some held.old.items) (Some held.new.items) piece.now result }
    ensures stays_within { length held.new.items ≤ room }
    ensures keeps_capacity { room ≤ vec_capacity held.new }
{
    let free = room - held.len();
    if free == 0 {
        return Push::Failed;
    }
    let count = step.min(piece.len()).min(free);
    match held.extend_from_slice(&piece[..count]) {
        Ok(()) => Push::Took(count),
        Err(_) => unreachable!(),
    }
}
