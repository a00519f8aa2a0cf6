ghost use Rattle.std.specs.Prelude.{◌≡◌, ◌+◌, ◌<◌, ◌≤◌, ◌^◌, ◌⊎◌, ◌↔◌, true, false, [], ◌∷◌, ◌++◌, length, take, drop, slice_set, IsTrue, IfOk, IfSome, OnOk, OnErr};
ghost use Rattle.std.specs.List.{AllByRecursion, insert};
ghost use Rattle.std.specs.VecDeque.{deque_len, deque_capacity};
ghost use Rattle.task_order.specs.Key.{at_key};
ghost use Rattle.output_log.specs.Blocks.{entries_in, block_at, entries_to, entries_behind, ends_before, full_length, IsEmpty, IsInside, IsPlace};
ghost use Rattle.output_log.specs.Entries.{IsInKeyOrder, is_entry_before, joined_texts};

use crate::block::{Block, FULL};
use kdg_text::{NoRoom, Text};
use std::alloc::Global;
use std::collections::VecDeque;
use std::marker::Model;
use task_order::Key;

/// How many entries stay in a full block that is cut in two, at least.
const HALF: usize = FULL / 2;

/// How many blocks there may be, so that their entries can be counted.
const MOST_BLOCKS: usize = usize::MAX / 128;

/// The blocks of a log, in order, and spare ones for more entries: each of these may cut a block in
/// two.
#[derive(Drop)]
pub(crate) struct Blocks {
    blocks: VecDeque<Block>,
    spare: Vec<Block>,
    // the block of the entry that was put in last, and the place behind it there, or 0 where the next one
    // may be anywhere; should they be other ones by now, a search takes longer
    recent: usize,
    behind: usize,
}

impl Model for Blocks {
    ghost use Rattle.std.specs.Prelude.{◌-◌, length, min};
    ghost use Rattle.std.specs.VecDeque.{deque_capacity};
    ghost use Rattle.output_log.specs.Blocks.{BlocksState, AreBlocks, most_blocks};

    ghost Value = { BlocksState };

    ghost view = { λ blocks. record { blocks = blocks.blocks.items; spare = min (length blocks.spare.items) (min (deque_capacity blocks.blocks) most_blocks - length blocks.blocks.items) } };

    ghost invariant = { λ blocks. AreBlocks blocks.blocks.items blocks.spare.items };
}

/// Puts a block at a place, where there is memory for it.
fn put_at(blocks: &mut VecDeque<Block>, at: usize, block: Block)
    requires at { at ≤ length blocks.old.items }
    requires room { deque_len blocks.old < deque_capacity blocks.old }
    ensures items { blocks.new.items ≡ insert blocks.old.items at block }
    ensures capacity { deque_capacity blocks.old ≤ deque_capacity blocks.new }
{
    match blocks.insert(at, block) {
        Ok(()) => {}
        Err(_) => unreachable!(),
    }
}

/// The place behind an entry that was put in, as a hint for the next one. Where it went far from the
/// entry before it, the next one seldom comes close behind it: then the hint is 0.
fn place_behind(recent: usize, at: usize, place: usize) -> usize {
    if at.wrapping_sub(recent) <= 1 {
        place.saturating_add(1)
    } else {
        0
    }
}

/// Makes spare blocks until there are `count`.
fn add_spare(alloc: Global, spare: &mut Vec<Block>, count: usize) -> Result<(), NoRoom>
    requires { AllByRecursion IsEmpty spare.old.items }
    ensures ok { OnOk result (count ≤ length spare.new.items) }
    ensures kept { length spare.old.items ≤ length spare.new.items }
    ensures empty { AllByRecursion IsEmpty spare.new.items }
{
    while spare.len() < count {
        spare.push(Block::new(alloc)?)?;
    }
    Ok(())
}

impl Blocks {
    /// No blocks, which take no memory.
    pub(crate) fn new(alloc: Global) -> Blocks
        ensures { result.blocks ≡ [] }
    {
        Blocks {
            blocks: VecDeque::new(alloc),
            spare: Vec::new(alloc),
            recent: 0,
            behind: 0,
        }
    }

    /// Makes place for `additional` more entries, wherever they come in. The blocks stay as they are,
    /// also after `NoRoom`.
    pub(crate) fn reserve(&mut self, additional: usize) -> Result<(), NoRoom>
        ensures ok { OnOk result (additional ≤ self.new.spare) }
        ensures kept { self.old.spare ≤ self.new.spare }
        ensures blocks { self.new.blocks ≡ self.old.blocks }
    {
        if MOST_BLOCKS - self.blocks.len() < additional {
            return Err(NoRoom);
        }
        self.blocks.reserve(additional)?;
        add_spare(*self.blocks.allocator(), &mut self.spare, additional)
    }

    /// How many blocks there are.
    pub(crate) fn count(&self) -> usize
        ensures { result ≡ length self.now.blocks }
    {
        self.blocks.len()
    }

    /// Whether there is no entry.
    pub(crate) fn is_empty(&self) -> bool
        ensures { IsTrue result ↔ (entries_in self.now.blocks ≡ []) }
    {
        self.blocks.is_empty()
    }

    /// Where a key belongs, which often is before all entries: in which block, and behind how many of its
    /// entries.
    pub(crate) fn front_of(&self, key: &Key) -> (usize, usize)
        requires { IsInKeyOrder (entries_in self.now.blocks) }
        ensures { IsPlace (at_key key.now) self.now.blocks result.0 result.1 }
    {
        match self.blocks.front() {
            Some(first) if first.is_earlier_at(0, key) => self.place_of(key),
            _ => (0, 0),
        }
    }

    /// Where a key belongs, which often is close behind the entry that was put in last.
    pub(crate) fn place_of(&self, key: &Key) -> (usize, usize)
        requires { IsInKeyOrder (entries_in self.now.blocks) }
        ensures { IsPlace (at_key key.now) self.now.blocks result.0 result.1 }
    {
        match self.place_near(key) {
            Some(found) => found,
            None => self.place_by_search(key),
        }
    }

    /// Where a key belongs, where that is at most a few places behind the entry that was put in last, in
    /// the same block or early in the next one.
    fn place_near(&self, key: &Key) -> Option<(usize, usize)>
        requires { IsInKeyOrder (entries_in self.now.blocks) }
        ensures { IfSome result (λ found. IsPlace (at_key key.now) self.now.blocks found.0 found.1) }
    {
        let block = self.blocks.get(self.recent)?;
        let rank = block.rank_near(self.behind, key)?;
        if rank < block.len() {
            return Some((self.recent, rank));
        }
        let Some(next) = self.blocks.get(self.recent + 1) else {
            return Some((self.recent + 1, 0));
        };
        let rank_in_next = next.rank_from(0, key)?;
        if rank_in_next < next.len() {
            return Some((self.recent + 1, rank_in_next));
        }
        None
    }

    /// Where a key belongs, wherever that is.
    fn place_by_search(&self, key: &Key) -> (usize, usize)
        requires { IsInKeyOrder (entries_in self.now.blocks) }
        ensures { IsPlace (at_key key.now) self.now.blocks result.0 result.1 }
    {
        let at = self.ended_before(key);
        let place = match self.blocks.get(at) {
            Some(block) => block.rank(key),
            None => 0,
        };
        (at, place)
    }

    /// How many blocks end before the key. The search goes out from the block of the entry that was put
    /// in last, in strides that double, and then by halving.
    fn ended_before(&self, key: &Key) -> usize
        requires { IsInKeyOrder (entries_in self.now.blocks) }
        ensures bound { result ≤ length self.now.blocks }
        ensures before { AllByRecursion (λ entry. is_entry_before (at_key key.now) entry ≡ true) (entries_in (take result self.now.blocks)) }
        ensures here { ends_before (at_key key.now) (block_at self.now.blocks result) ≡ false }
    {
        let mut low = 0;
        let mut high = self.blocks.len();
        let mut near = self.recent;
        let mut stride = 0;
        while low < high {
            let at = near.max(low).min(high - 1);
            let ends_before = self.blocks[at].ends_before(key);
            if ends_before {
                low = at + 1;
            } else {
                high = at;
            }
            stride = stride.min((high - low) / 2);
            near = if ends_before {
                low + stride
            } else {
                high - stride
            };
            stride = 2 * stride + 1;
        }
        low
    }

    /// Puts an entry at a place that a search gave, where `reserve` made one. It takes no memory.
    pub(crate) fn insert(&mut self, at: usize, place: usize, entry: (Key, Text))
        requires room { 0 < self.old.spare }
        requires inside { IsInside self.old.blocks at place }
        ensures entries { entries_in self.new.blocks ≡ entries_to self.old.blocks at place ++ entry ∷ entries_behind self.old.blocks at place }
        ensures spare { self.old.spare ≤ self.new.spare + 1 }
    {
        if place == 0 && at > 0 {
            // behind the entries of the block before, so that ascending entries fill blocks
            self.insert_at(at - 1, self.block_len(at - 1), entry);
        } else {
            self.insert_at(at, place, entry);
        }
    }

    /// Puts an entry into a block, or beside it where that is full.
    fn insert_at(&mut self, at: usize, place: usize, entry: (Key, Text))
        requires room { 0 < self.old.spare }
        requires at { (at < length self.old.blocks) ⊎ ((at ≡ 0) × (self.old.blocks ≡ [])) }
        requires place { place ≤ length (block_at self.old.blocks at) }
        ensures entries { entries_in self.new.blocks ≡ entries_to self.old.blocks at place ++ entry ∷ entries_behind self.old.blocks at place }
        ensures spare { self.old.spare ≤ self.new.spare + 1 }
    {
        if self.blocks.is_empty() {
            self.insert_block(0, entry);
        } else if self.block_len(at) < FULL {
            self.insert_into(at, place, entry);
        } else if place < FULL {
            self.insert_cut(at, place, entry);
        } else {
            self.insert_block(at + 1, entry);
        }
    }

    /// Puts an entry into a block that is not full.
    fn insert_into(&mut self, at: usize, place: usize, entry: (Key, Text))
        requires at { at < length self.old.blocks }
        requires room { length (block_at self.old.blocks at) < full_length }
        requires place { place ≤ length (block_at self.old.blocks at) }
        ensures blocks { self.new.blocks ≡ slice_set self.old.blocks at (insert (block_at self.old.blocks at) place entry) }
        ensures spare { self.new.spare ≡ self.old.spare }
    {
        self.behind = place_behind(self.recent, at, place);
        self.recent = at;
        self.blocks[at].insert(place, entry);
    }

    /// Puts an entry into a full block, and moves the entries of its upper half that come behind into a
    /// spare one.
    fn insert_cut(&mut self, at: usize, place: usize, entry: (Key, Text))
        requires room { 0 < self.old.spare }
        requires at { at < length self.old.blocks }
        requires full { length (block_at self.old.blocks at) ≡ full_length }
        requires place { place < full_length }
        ensures entries { entries_in self.new.blocks ≡ entries_to self.old.blocks at place ++ entry ∷ entries_behind self.old.blocks at place }
        ensures spare { self.old.spare ≤ self.new.spare + 1 }
    {
        let Some(mut rest) = self.spare.pop() else {
            unreachable!()
        };
        let block = &mut self.blocks[at];
        block.cut(place.max(HALF), &mut rest);
        block.insert(place, entry);
        put_at(&mut self.blocks, at + 1, rest);
        self.behind = place_behind(self.recent, at, place);
        self.recent = at;
    }

    /// Makes a spare block one that has an entry.
    fn insert_block(&mut self, at: usize, entry: (Key, Text))
        requires room { 0 < self.old.spare }
        requires at { at ≤ length self.old.blocks }
        ensures blocks { self.new.blocks ≡ insert self.old.blocks at (entry ∷ []) }
        ensures spare { self.old.spare ≤ self.new.spare + 1 }
    {
        let Some(mut block) = self.spare.pop() else {
            unreachable!()
        };
        block.insert(0, entry);
        put_at(&mut self.blocks, at, block);
        self.behind = place_behind(self.recent, at, 0);
        self.recent = at;
    }

    /// How many entries a block has.
    fn block_len(&self, at: usize) -> usize
        requires { at < length self.now.blocks }
        ensures len { result ≡ length (block_at self.now.blocks at) }
        ensures bound { result ≤ full_length }
    {
        self.blocks[at].len()
    }

    /// Takes the entries before a place out, and joins their texts. Before the first place are none, and
    /// nothing is done. After `NoRoom` the blocks are as they were.
    pub(crate) fn take_to(&mut self, at: usize, place: usize) -> Result<Text, NoRoom>
        requires { IsInside self.old.blocks at place }
        ensures text { IfOk result (λ text. text ≡ joined_texts (entries_to self.old.blocks at place)) }
        ensures rest { OnOk result (entries_in self.new.blocks ≡ entries_behind self.old.blocks at place) }
        ensures unchanged { OnErr result (self.new.blocks ≡ self.old.blocks) }
        ensures spare { self.old.spare ≤ self.new.spare }
    {
        if at == 0 && place == 0 {
            return Ok(Text::new(*self.blocks.allocator()));
        }
        let text = self.texts_to(at, place)?;
        self.remove_to(at, place);
        Ok(text)
    }

    /// The texts of the entries before a place, joined.
    pub(crate) fn texts_to(&self, at: usize, place: usize) -> Result<Text, NoRoom>
        requires { IsInside self.now.blocks at place }
        ensures { IfOk result (λ text. text ≡ joined_texts (entries_to self.now.blocks at place)) }
    {
        let mut text = Text::new(*self.blocks.allocator());
        for i in 0..at {
            let block = &self.blocks[i];
            block.push_texts(block.len(), &mut text)?;
        }
        if place > 0 {
            self.blocks[at].push_texts(place, &mut text)?;
        }
        Ok(text)
    }

    /// Takes the entries before a place out: whole blocks, and the first ones of one more.
    fn remove_to(&mut self, at: usize, place: usize)
        requires { IsInside self.old.blocks at place }
        ensures rest { entries_in self.new.blocks ≡ entries_behind self.old.blocks at place }
        ensures spare { self.old.spare ≤ self.new.spare }
    {
        self.recent = self.recent.saturating_sub(at);
        self.blocks.drain(..at);
        if place > 0 {
            self.blocks[0].remove_first(place);
        }
    }
}
