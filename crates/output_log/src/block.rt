ghost use Rattle.std.specs.Prelude.{◌≡◌, ◌<◌, ◌≤◌, ◌↔◌, [], ◌∷◌, ◌++◌, length, take, drop, IsTrue, IfOk, IfSome, OnOk};
ghost use Rattle.std.specs.List.{insert};
ghost use Rattle.std.specs.VecDeque.{deque_len, deque_capacity};
ghost use Rattle.task_order.specs.Key.{at_key};
ghost use Rattle.output_log.specs.Blocks.{full_length, ends_before};
ghost use Rattle.output_log.specs.Entries.{IsInKeyOrder, entries_before, joined_texts};

use kdg_text::{NoRoom, Text};
use std::alloc::Global;
use std::collections::VecDeque;
use std::marker::Model;
use task_order::Key;

/// How many entries a block has when it is full.
pub(crate) const FULL: usize = 64;

/// From how many entries on that a search has passed it gives up.
const NEAR: usize = 8;

/// A part of a log, with place for all the entries that it may have.
#[derive(Drop)]
pub(crate) struct Block {
    entries: VecDeque<(Key, Text)>,
}

impl Model for Block {
    ghost use Rattle.std.specs.Prelude.{List, ◌≤◌, length};
    ghost use Rattle.std.specs.VecDeque.{deque_capacity};
    ghost use Rattle.output_log.specs.Entries.{Entry};
    ghost use Rattle.output_log.specs.Blocks.{full_length};

    ghost Value = { List Entry };

    ghost view = { λ block. block.entries.items };

    ghost invariant = { λ block. (length block.entries.items ≤ full_length) × (full_length ≤ deque_capacity block.entries) };
}

/// Puts an entry at a place, which often is the end, where there is memory for it.
fn put_at(entries: &mut VecDeque<(Key, Text)>, place: usize, entry: (Key, Text))
    requires place { place ≤ length entries.old.items }
    requires room { deque_len entries.old < deque_capacity entries.old }
    ensures items { entries.new.items ≡ insert entries.old.items place entry }
    ensures capacity { deque_capacity entries.old ≤ deque_capacity entries.new }
{
    if place == entries.len() {
        entries.push_back_reserved(entry);
        return;
    }
    match entries.insert(place, entry) {
        Ok(()) => {}
        Err(_) => unreachable!(),
    }
}

impl Block {
    /// A block with no entries.
    pub(crate) fn new(alloc: Global) -> Result<Block, NoRoom>
        ensures { IfOk result (λ block. block ≡ []) }
    {
        Ok(Block {
            entries: VecDeque::with_capacity(alloc, FULL)?,
        })
    }

    /// How many entries there are.
    pub(crate) fn len(&self) -> usize
        ensures len { result ≡ length self.now }
        ensures bound { result ≤ full_length }
    {
        self.entries.len()
    }

    /// Whether the last entry is earlier than the key.
    pub(crate) fn ends_before(&self, key: &Key) -> bool
        ensures { result ≡ ends_before (at_key key.now) self.now }
    {
        match self.entries.back() {
            Some(last) => last.0.compare(key).is_lt(),
            None => false,
        }
    }

    /// Whether there is an entry at a place that is earlier than the key.
    #[inline(always)]
    pub(crate) fn is_earlier_at(&self, place: usize, key: &Key) -> bool
        requires { IsInKeyOrder self.now }
        ensures counted { IsTrue result ↔ (place < length (entries_before (at_key key.now) self.now)) }
        ensures few { length (entries_before (at_key key.now) self.now) ≤ full_length }
    {
        match self.entries.get(place) {
            Some(entry) => entry.0.compare(key).is_lt(),
            None => false,
        }
    }

    /// How many entries are earlier than the key, where it comes at most a few places behind a place that
    /// is behind an earlier one.
    pub(crate) fn rank_near(&self, start: usize, key: &Key) -> Option<usize>
        requires { IsInKeyOrder self.now }
        ensures rank { IfSome result (λ rank. rank ≡ length (entries_before (at_key key.now) self.now)) }
        ensures some { IfSome result (λ rank. 0 < rank) }
    {
        if !self.is_earlier_at(start.checked_sub(1)?, key) {
            return None;
        }
        self.rank_from(start, key)
    }

    /// How many entries are earlier than the key, where `start` are known to be, and at most a few more
    /// are: in steps that double, and then by halving.
    pub(crate) fn rank_from(&self, start: usize, key: &Key) -> Option<usize>
        requires ordered { IsInKeyOrder self.now }
        requires start { start ≤ length (entries_before (at_key key.now) self.now) }
        ensures { IfSome result (λ rank. rank ≡ length (entries_before (at_key key.now) self.now)) }
    {
        let mut low = start;
        let mut high = start;
        while self.is_earlier_at(high, key) {
            let passed = high - start;
            if passed >= NEAR {
                return None;
            }
            low = high + 1;
            high = low + passed;
        }
        while low < high {
            let middle = low + (high - low) / 2;
            if self.is_earlier_at(middle, key) {
                low = middle + 1;
            } else {
                high = middle;
            }
        }
        Some(low)
    }

    /// How many entries are earlier than the key.
    pub(crate) fn rank(&self, key: &Key) -> usize
        requires { IsInKeyOrder self.now }
        ensures { result ≡ length (entries_before (at_key key.now) self.now) }
    {
        self.entries
            .partition_point(|entry| entry.0.compare(key).is_lt())
    }

    /// Puts an entry at a place.
    pub(crate) fn insert(&mut self, place: usize, entry: (Key, Text))
        requires room { length self.old < full_length }
        requires place { place ≤ length self.old }
        ensures { self.new ≡ insert self.old place entry }
    {
        put_at(&mut self.entries, place, entry);
    }

    /// Moves the entries from a place on to a block that has none.
    pub(crate) fn cut(&mut self, place: usize, rest: &mut Block)
        requires empty { rest.old ≡ [] }
        requires within { length self.old ≤ full_length }
        requires place { place ≤ length self.old }
        ensures kept { self.new ≡ take place self.old }
        ensures rest { rest.new ≡ drop place self.old }
    {
        while self.len() > place {
            let entry = self.take_last();
            rest.insert(0, entry);
        }
    }

    /// Takes the last entry out.
    fn take_last(&mut self) -> (Key, Text)
        requires { 0 < length self.old }
        ensures { self.old ≡ self.new ++ result ∷ [] }
    {
        match self.entries.pop_back() {
            Some(entry) => entry,
            None => unreachable!(),
        }
    }

    /// Takes `count` entries from the first on out.
    pub(crate) fn remove_first(&mut self, count: usize)
        requires { count ≤ length self.old }
        ensures { self.new ≡ drop count self.old }
    {
        self.entries.drain(..count);
    }

    /// Adds the texts of `count` entries from the first on to a text.
    pub(crate) fn push_texts(&self, count: usize, text: &mut Text) -> Result<(), NoRoom>
        requires { count ≤ length self.now }
        ensures { OnOk result (text.new ≡ text.old ++ joined_texts (take count self.now)) }
    {
        for entry in self.entries.range(..count) {
            text.push_all(entry.1.bytes())?;
        }
        Ok(())
    }
}
