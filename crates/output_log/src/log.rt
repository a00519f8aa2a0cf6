ghost use Rattle.std.specs.Prelude.{◌≡◌, ◌≢◌, ◌↔◌, ◌+◌, ◌<◌, ◌≤◌, [], IsTrue, IfOk, OnOk, OnErr};
ghost use Rattle.task_order.specs.Key.{at_key};
ghost use Rattle.output_log.specs.Entries.{IsInKeyOrder, IsNewEntry, entries_before, entries_from, with_entry, with_texts, joined_texts};

use crate::blocks::Blocks;
use crate::laws::{part_laws, put_laws};
use crate::seen_entries::SeenEntries;
use kdg_text::{NoRoom, Text};
use std::alloc::Global;
use std::marker::Model;
use task_order::Key;

/// The texts of tasks that have ended, in the order of the tasks' keys, until they are taken.
///
/// A task that wrote nothing has an entry too, but only clauses see it, and no memory is taken for it. The
/// other entries stand in blocks. To put one in takes time in the logarithm of its distance to the one
/// before it, counted in blocks, and moves some entries of its block; where it comes close behind that
/// one, a few comparisons find its place. Entries are taken from the front by whole blocks, and where
/// the first one is not to be taken, one comparison tells. `reserve` makes a spare block for each entry
/// to come, unless they are there.
#[derive(Drop)]
pub struct Log {
    blocks: Blocks,
    seen: SeenEntries,
}

impl Model for Log {
    ghost use Rattle.std.specs.Prelude.{◌≡◌};
    ghost use Rattle.output_log.specs.LogState.{LogState};
    ghost use Rattle.output_log.specs.Blocks.{entries_in};
    ghost use Rattle.output_log.specs.Entries.{IsInKeyOrder, with_texts};

    ghost Value = { LogState };

    ghost view = { λ log. record { entries = log.seen; spare = log.blocks.spare } };

    ghost invariant = { λ log. IsInKeyOrder log.seen × (entries_in log.blocks.blocks ≡ with_texts log.seen) };
}

impl Log {
    /// An empty log, which takes no memory.
    pub fn new(alloc: Global) -> Log
        ensures { result.entries ≡ [] }
    {
        Log {
            blocks: Blocks::new(alloc),
            seen: SeenEntries::new(),
        }
    }

    /// Makes place for `additional` more entries. The entries stay as they are, also after
    /// `NoRoom`.
    pub fn reserve(&mut self, additional: usize) -> Result<(), NoRoom>
        ensures ok { OnOk result (additional ≤ self.new.spare) }
        ensures kept { self.old.spare ≤ self.new.spare }
        ensures entries { self.new.entries ≡ self.old.entries }
    {
        self.blocks.reserve(additional)
    }

    /// Makes place for an entry with this text, where it needs one. The entries stay as they are, also
    /// after `NoRoom`. An empty text needs none: then nothing changes, and `NoRoom` isn't given.
    #[inline(always)]
    pub fn reserve_for(&mut self, text: &Text) -> Result<(), NoRoom>
        ensures ok { OnOk result (text.now ≢ [] → 0 < self.new.spare) }
        ensures none { text.now ≡ [] → (result ≡ Ok tt) × (self.new ≡ self.old) }
        ensures kept { self.old.spare ≤ self.new.spare }
        ensures entries { self.new.entries ≡ self.old.entries }
    {
        if text.is_empty() {
            Ok(())
        } else {
            self.reserve(1)
        }
    }

    /// Puts an entry at its place, where `reserve` made one. It takes no memory, and where the text is
    /// empty it needs neither a place nor any time.
    #[inline(always)]
    pub fn put(&mut self, key: Key, text: Text)
        requires room { text ≢ [] → 0 < self.old.spare }
        requires new { IsNewEntry key self.old.entries }
        ensures entries { self.new.entries ≡ with_entry key text self.old.entries }
        ensures spare { self.old.spare ≤ self.new.spare + 1 }
        ensures silent { text ≡ [] → self.new.spare ≡ self.old.spare }
    {
        put_laws();
        part_laws();
        self.seen.put(&key, &text);
        if !text.is_empty() {
            let (at, place) = self.blocks.place_of(&key);
            self.blocks.insert(at, place, (key, text));
        }
    }

    /// Whether no entry has a text.
    pub fn is_silent(&self) -> bool
        ensures { IsTrue result ↔ (with_texts self.now.entries ≡ []) }
    {
        self.blocks.is_empty()
    }

    /// Takes the entries that are earlier than the key out, and joins their texts. After `NoRoom`
    /// the log is as it was.
    pub fn take_below(&mut self, key: &Key) -> Result<Text, NoRoom>
        ensures text { IfOk result (λ text. text ≡ joined_texts (entries_before (at_key key.now) self.old.entries)) }
        ensures rest { OnOk result (self.new.entries ≡ entries_from (at_key key.now) self.old.entries) }
        ensures unchanged { OnErr result (self.new.entries ≡ self.old.entries) }
        ensures spare { self.old.spare ≤ self.new.spare }
        ensures ordered { IsInKeyOrder self.old.entries }
    {
        let (at, place) = self.blocks.front_of(key);
        let text = self.blocks.take_to(at, place)?;
        self.seen.take_below(key);
        Ok(text)
    }

    /// Takes all entries out, and joins their texts. After `NoRoom` the log is as it was.
    pub fn take_all(&mut self) -> Result<Text, NoRoom>
        ensures text { IfOk result (λ text. text ≡ joined_texts self.old.entries) }
        ensures rest { OnOk result (self.new.entries ≡ []) }
        ensures unchanged { OnErr result (self.new.entries ≡ self.old.entries) }
        ensures spare { self.old.spare ≤ self.new.spare }
    {
        let text = self.blocks.take_to(self.blocks.count(), 0)?;
        self.seen = SeenEntries::new();
        Ok(text)
    }

    /// The texts of all entries, joined.
    pub fn all(&self) -> Result<Text, NoRoom>
        ensures { IfOk result (λ text. text ≡ joined_texts self.now.entries) }
    {
        self.blocks.texts_to(self.blocks.count(), 0)
    }
}
