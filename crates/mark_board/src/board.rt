//! A board, and what its markers do.

ghost use Rattle.std.specs.Prelude.{◌≡◌, ◌↔◌, ◌<◌, ◌++◌, [], ◌∷◌, Contains, IfOk, IsTrue};
ghost use Rattle.rw_sets.specs.Accesses.{IsInRange};
ghost use Rattle.mark_board.specs.Markers.{first_marker, split_from, split_off, joined, marks_of, renewed, IsClear, IsFree, IsFreeAt};

use crate::least::Least;
use crate::marker::Marker;
use crate::steps::{Kept, LookStep, MarkStep, Markers};
use crate::view::View;
use crate::words::{base_of, word_of};
use atomic_table::{Shared, Table};
use kdg_text::NoRoom;
use rw_sets::{Access, RwSet, lookup_laws};
use std::alloc::Global;
use std::marker::Model;
use std::snapshot::Snapshot;

/// How often a board can be renewed.
const RENEWALS: u32 = u32::MAX - 1;

/// For each location and access a word, in which markers note the least rank that comes there. Threads
/// may mark at once, and wait for nobody.
#[derive(Drop)]
pub struct Board {
    pub(crate) table: Table<(), View, u32, Kept, Global>,
    pub(crate) cells: u32,
    pub(crate) renewals: u32,
}

impl Model for Board {
    ghost use Rattle.std.specs.Prelude.{◌≡◌, ◌+◌, ◌*◌, ◌≤◌, ◌^◌};
    ghost use Rattle.mark_board.specs.Markers.{BoardState};

    ghost Value = { BoardState };

    ghost view = { λ b. record { id = record { table = b.table.shared.table_id; renewals = b.renewals }; cells = b.cells } };

    ghost invariant = { λ b. (b.table.shared.table_id.words ≡ 2 * b.cells + 1) × (b.table.shared.table_id.slots ≡ 0) × (b.table.shared.key ≡ b.cells) × (b.renewals + 2 ≤ 2 ^ 32) };
}

impl Board {
    /// A board without a mark, for the locations below `cells`, with its first marker, which has the
    /// number 0.
    pub fn new(alloc: Global, cells: u32) -> Result<(Board, Marker), NoRoom>
        ensures board { IfOk result (λ made. made.0.cells ≡ cells) }
        ensures marker { IfOk result (λ made. made.1 ≡ first_marker made.0.id) }
    {
        let mut words = Vec::from_elem(alloc, u64::MAX, 2 * cells as usize + 1)?;
        words[0] = 0;
        let (table, seat) = Table::of_words(alloc, &words, &cells)?;
        let board = Board {
            table,
            cells,
            renewals: RENEWALS,
        };
        let marker = Marker {
            seat,
            renewals: RENEWALS,
        };
        Ok((board, marker))
    }

    /// One more marker, without a mark. Its number is one more than that of markers that were split
    /// from the first one before. This waits for nobody and takes no memory.
    pub fn split(&self, marker: &mut Marker) -> Marker
        requires here { marker.old.board ≡ self.now.id }
        requires first { marker.old.number ≡ 0 }
        ensures left { marker.new ≡ split_from marker.old }
        ensures right { result ≡ split_off marker.old }
    {
        let seat = self.table.shared.split_seat::<Markers>(&mut marker.seat);
        Marker {
            seat,
            renewals: marker.renewals,
        }
    }

    /// Marks each location of a set with a rank. This waits for nobody and takes no memory.
    pub fn mark(&self, marker: &mut Marker, rank: u32, set: &RwSet)
        requires here { marker.old.board ≡ self.now.id }
        requires in_range { IsInRange set.now self.now.cells }
        ensures { marker.new ≡ record marker.old { marks = marker.old.marks ++ marks_of rank set.now } }
    {
        for pair in set.items() {
            self.mark_one(marker, rank, pair.0, pair.1);
        }
    }

    /// Marks one location for one access.
    fn mark_one(&self, marker: &mut Marker, rank: u32, loc: u32, access: Access)
        requires here { marker.old.board ≡ self.now.id }
        requires in_range { loc < self.now.cells }
        ensures { marker.new ≡ record marker.old { marks = marker.old.marks ++ record { loc = loc; access = access; rank = rank } ∷ [] } }
    {
        let number = base_of(self.renewals) + u64::from(rank);
        let word = word_of(loc, access);
        self.table
            .shared
            .fetch_min::<MarkStep>(&mut marker.seat, word, number);
    }

    /// The marker takes over what the other one has, which was split from it. This waits for nobody and
    /// takes no memory.
    pub fn join(&self, marker: &mut Marker, other: Marker)
        requires here { marker.old.board ≡ self.now.id }
        requires other_here { other.board ≡ self.now.id }
        requires unjoined { Contains marker.old.unjoined other.number }
        ensures { marker.new ≡ joined marker.old other }
    {
        let Marker { seat, renewals: _ } = other;
        self.table
            .shared
            .join_seat::<Markers>(&mut marker.seat, seat);
    }

    /// How often the board can still be renewed.
    pub fn renewals(&self) -> u32
        ensures { result ≡ self.now.id.renewals }
    {
        self.renewals
    }

    /// Takes all marks off, once all markers are joined. This touches no word: marks of later rounds go
    /// below those of earlier ones. It waits for nobody and takes no memory.
    pub fn renew(&mut self, marker: &mut Marker)
        requires here { marker.old.board ≡ self.old.id }
        requires first { marker.old.number ≡ 0 }
        requires alone { marker.old.unjoined ≡ [] }
        requires some { 0 < self.old.id.renewals }
        ensures board { self.new ≡ renewed self.old }
        ensures marker { marker.new ≡ record marker.old { board = self.new.id; marks = [] } }
    {
        self.renewals -= 1;
        marker.renewals = self.renewals;
    }

    /// Whether no mark of a lower rank stands where it would clash, once all markers are joined: at a
    /// location of the set, where that mark or the set writes.
    pub fn free(&self, marker: &mut Marker, rank: u32, set: &RwSet) -> bool
        requires here { marker.old.board ≡ self.now.id }
        requires first { marker.old.number ≡ 0 }
        requires alone { marker.old.unjoined ≡ [] }
        requires in_range { IsInRange set.now self.now.cells }
        ensures answer { IsTrue result ↔ IsFree marker.old.marks rank set.now }
        ensures same { marker.new ≡ marker.old }
    {
        lookup_laws();
        for pair in set.items() {
            if !self.is_free_at(marker, rank, pair.0, pair.1) {
                return false;
            }
        }
        true
    }

    /// Whether no mark of a lower rank clashes at one location.
    fn is_free_at(&self, marker: &mut Marker, rank: u32, loc: u32, access: Access) -> bool
        requires here { marker.old.board ≡ self.now.id }
        requires first { marker.old.number ≡ 0 }
        requires alone { marker.old.unjoined ≡ [] }
        requires in_range { loc < self.now.cells }
        ensures answer { IsTrue result ↔ IsFreeAt marker.old.marks rank loc access }
        ensures same { marker.new ≡ marker.old }
    {
        let no_writer = self.is_clear(marker, rank, loc, Access::Write);
        match access {
            Access::Read => no_writer,
            Access::Write => no_writer && self.is_clear(marker, rank, loc, Access::Read),
        }
    }

    /// Whether no mark of a lower rank stands at a location for one access.
    fn is_clear(&self, marker: &mut Marker, rank: u32, loc: u32, access: Access) -> bool
        requires here { marker.old.board ≡ self.now.id }
        requires first { marker.old.number ≡ 0 }
        requires alone { marker.old.unjoined ≡ [] }
        requires in_range { loc < self.now.cells }
        ensures answer { IsTrue result ↔ IsClear marker.old.marks rank loc access }
        ensures same { marker.new ≡ marker.old }
    {
        let bound = base_of(self.renewals) + u64::from(rank);
        let read = word_of(loc, access);
        self.table.shared.load::<LookStep>(&mut marker.seat, read) >= bound
    }

    /// What stands on the board, once all markers are joined. This waits for nobody and takes no memory.
    pub fn close(self, marker: Marker) -> Least
        requires here { marker.board ≡ self.id }
        requires first { marker.number ≡ 0 }
        requires alone { marker.unjoined ≡ [] }
        ensures { result ≡ record { cells = self.cells; marks = marker.marks } }
    {
        let marked = Snapshot::of(&marker);
        let Marker { seat, renewals: _ } = marker;
        let Board {
            table,
            cells,
            renewals,
        } = self;
        Least {
            closed: table.close_with(seat),
            cells,
            renewals,
            marked,
        }
    }
}
