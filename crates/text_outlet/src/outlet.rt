//! How a run tells its text while it goes on.

ghost use Rattle.std.specs.Prelude.{◌≡◌, ◌++◌, [], true, false, List, ℕ, OnErr, OnOk};
ghost use Rattle.text_outlet.specs.Sending.{HasTold, TellsMore};

use crate::told_text::ToldText;
use kdg_text::{NoRoom, Text};
use outer_edge::{Sink, write_whole};
use std::alloc::Global;

/// From how many bytes on they are worth a write.
const PIECE: usize = 1 << 16;

/// After how many ended tasks what there is goes out, however little it is: by then a write takes little
/// beside what the tasks did.
const TASKS: u64 = 4_096;

/// Text on its way to a sink. It is held until a write pays, and after a write has failed there is none.
#[derive(Drop)]
pub struct Outlet {
    /// What was told and isn't written yet.
    held: Text,
    has_failed: bool,
    /// How many tasks had ended when it was last written.
    ended: u64,
    /// What was told in this leg of the run.
    told: ToldText,
}

impl Outlet {
    /// Nothing is told yet.
    pub fn new(alloc: Global) -> Outlet
        ensures held { result.held ≡ [] }
        ensures told { result.told ≡ [] }
        ensures no_fault { result.has_failed ≡ false }
    {
        Outlet {
            held: Text::new(alloc),
            has_failed: false,
            ended: 0,
            told: ToldText::new(),
        }
    }

    /// A leg of the run begins.
    pub fn begin_leg(&mut self)
        ensures { self.new ≡ record self.old { told = [] } }
    {
        self.told = ToldText::new();
    }

    /// Whether a write has failed.
    pub fn has_failed(&self) -> bool
        ensures { result ≡ self.now.has_failed }
    {
        self.has_failed
    }

    /// Tells a text more while no write has failed: it is written where that pays, or where it is to be written
    /// at once. So many tasks have ended then. After `NoRoom` it isn't told.
    pub fn tell<K: Sink>(
        &mut self,
        out: &mut K,
        more: &Text,
        ended: u64,
        at_once: bool,
    ) -> Result<(), NoRoom>
        requires no_fault { self.old.has_failed ≡ false }
        ensures tells { OnOk result (TellsMore K.contents K.faults self.old out.old self.new out.new more.now) }
        ensures told { OnOk result (self.new.told ≡ self.old.told ++ more.now) }
        ensures nothing_told { OnErr result ((self.new ≡ self.old) × (out.new ≡ out.old)) }
        ensures same_room { K.room out.new ≡ K.room out.old }
    {
        self.held.push_all(more.bytes())?;
        self.told.push(more);
        self.send(out, ended, at_once);
        Ok(())
    }

    /// Writes what is held where that pays, or where it is to be written at once, unless a write has failed.
    fn send<K: Sink>(&mut self, out: &mut K, ended: u64, at_once: bool)
        ensures tells { (begin : K) (text : List ℕ) → HasTold K.contents K.faults begin self.old out.old text → HasTold K.contents K.faults begin self.new out.new text }
        ensures told { self.new.told ≡ self.old.told }
        ensures stays { self.old.has_failed ≡ true → self.new.has_failed ≡ true }
        ensures same_room { K.room out.new ≡ K.room out.old }
    {
        if at_once || self.held.len() >= PIECE || ended.saturating_sub(self.ended) >= TASKS {
            self.flush(out);
            self.ended = ended;
        }
    }

    /// Writes what is held, unless a write has failed.
    pub fn flush<K: Sink>(&mut self, out: &mut K)
        ensures tells { (begin : K) (text : List ℕ) → HasTold K.contents K.faults begin self.old out.old text → HasTold K.contents K.faults begin self.new out.new text }
        ensures nothing_held { self.new.held ≡ [] }
        ensures told { self.new.told ≡ self.old.told }
        ensures stays { self.old.has_failed ≡ true → self.new.has_failed ≡ true }
        ensures same_room { K.room out.new ≡ K.room out.old }
    {
        if self.has_failed {
            self.held.clear();
            return;
        }
        self.has_failed = write_whole(out, self.held.bytes()).is_err();
        self.held.clear();
    }
}
