//! What stood on a board when it was closed.

ghost use Rattle.std.specs.Prelude.{◌≡◌, ◌↔◌, ◌<◌, IsTrue};
ghost use Rattle.rw_sets.specs.Accesses.{IsInRange};
ghost use Rattle.mark_board.specs.Markers.{IsClear, IsFree, IsFreeAt};

use crate::marker::Marker;
use crate::words::{base_of, word_of};
use atomic_table::Closed;
use rw_sets::{Access, RwSet, lookup_laws};
use std::alloc::Global;
use std::marker::Model;
use std::snapshot::Snapshot;

/// The least rank of the marks at each location, for each access. Contracts see it as the marks.
pub struct Least {
    pub(crate) closed: Closed<(), Global>,
    pub(crate) cells: u32,
    pub(crate) renewals: u32,
    pub(crate) marked: Snapshot<Marker>,
}

impl Model for Least {
    ghost use Rattle.std.specs.Prelude.{◌≡◌, ◌+◌, ◌*◌, ◌≤◌, ◌^◌};
    ghost use Rattle.std.specs.Mem.Slots.{slots_items, slots_len, IsFull};
    ghost use Rattle.mark_board.specs.Markers.{LeastState};
    ghost use Rattle.mark_board.specs.Words.{HaveLeast};

    ghost Value = { LeastState };

    ghost view = { λ l. record { cells = l.cells; marks = l.marked.value.marks } };

    ghost invariant = { λ l. IsFull l.closed.words × (slots_len l.closed.words ≡ 2 * l.cells + 1) × (slots_len l.closed.slots ≡ 0) × (l.renewals + 2 ≤ 2 ^ 32)
        × HaveLeast (slots_items l.closed.words) l.renewals l.marked.value.marks };
}

impl Drop for Least {
    fn drop(self) {
        let Least {
            closed,
            cells: _,
            renewals: _,
            marked: _,
        } = self;
        closed.free();
    }
}

impl Least {
    /// Whether no mark of a lower rank stands where it would clash: at a location of the set, where that
    /// mark or the set writes.
    pub fn free(&self, rank: u32, set: &RwSet) -> bool
        requires in_range { IsInRange set.now self.now.cells }
        ensures { IsTrue result ↔ IsFree self.now.marks rank set.now }
    {
        lookup_laws();
        for pair in set.items() {
            if !self.is_free_at(rank, pair.0, pair.1) {
                return false;
            }
        }
        true
    }

    /// Whether no mark of a lower rank clashes at one location. What writes there clashes with every
    /// mark, what reads there with those that write.
    fn is_free_at(&self, rank: u32, loc: u32, access: Access) -> bool
        requires in_range { loc < self.now.cells }
        ensures { IsTrue result ↔ IsFreeAt self.now.marks rank loc access }
    {
        let no_writer = self.is_clear(rank, loc, Access::Write);
        match access {
            Access::Read => no_writer,
            Access::Write => no_writer && self.is_clear(rank, loc, Access::Read),
        }
    }

    /// Whether no mark of a lower rank stands at a location for one access.
    fn is_clear(&self, rank: u32, loc: u32, access: Access) -> bool
        requires in_range { loc < self.now.cells }
        ensures { IsTrue result ↔ IsClear self.now.marks rank loc access }
    {
        self.closed.word(word_of(loc, access)) >= base_of(self.renewals) + u64::from(rank)
    }
}
