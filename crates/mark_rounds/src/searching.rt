//! The search for clear tasks, from one round to the next.

ghost use Rattle.std.specs.Prelude.{◌≡◌, length, IfOk, OnOk};
ghost use Rattle.commuting.specs.Rounds.{clear_tasks};
ghost use Rattle.mark_rounds.specs.Board.{IsAlone, IsFresh};

use crate::finding::{RoundLists, find_clear};
use app_laws::App;
use kdg_text::{NoRoom, Steps};
use list_rounds::ListRounds;
use mark_board::{Board, Marker};
use std::alloc::Global;
use std::sync::ledger::Ledger;

/// A board on which the pending tasks of a round mark, and the lists of the search for clear ones.
#[derive(Drop)]
pub(crate) struct Search {
    pub(crate) alloc: Global,
    /// How many locations the board has.
    cells: u32,
    board: Board,
    marker: Marker,
    pub(crate) lists: RoundLists,
}

impl Search {
    /// A search among the locations below `cells`, whose board has no mark.
    pub(crate) fn new(alloc: Global, cells: u32) -> Result<Search, NoRoom>
        ensures cells { IfOk result (λ search. search.cells ≡ cells) }
        ensures wide { IfOk result (λ search. length search.lists.writers.items ≡ cells) }
        ensures fresh { IfOk result (λ search. IsFresh cells search.board search.marker) }
    {
        let lists = RoundLists::new(alloc, cells)?;
        let (board, marker) = Board::new(alloc, cells)?;
        Ok(Search {
            alloc,
            cells,
            board,
            marker,
            lists,
        })
    }

    /// Takes all marks off: the board comes to its next round, or a new one takes its place where it can't be
    /// renewed any more.
    pub(crate) fn renew(&mut self) -> Result<(), NoRoom>
        requires { IsAlone self.old.cells self.old.board self.old.marker }
        ensures fresh { OnOk result (IsFresh self.old.cells self.new.board self.new.marker) }
        ensures cells { self.new.cells ≡ self.old.cells }
        ensures lists { self.new.lists ≡ self.old.lists }
    {
        if self.board.renewals() == 0 {
            let (board, marker) = Board::new(self.alloc, self.cells)?;
            self.board = board;
            self.marker = marker;
        } else {
            self.board.renew(&mut self.marker);
        }
        Ok(())
    }
}

/// Finds the clear tasks of a run, where the board has no mark. What was found before is dropped.
pub(crate) fn search_run<A: App, L: Ledger>(
    run: &ListRounds<'_, A>,
    search: &mut Search,
    horizon: &mut A::Horizon,
    steps: &mut Steps<L>,
) -> Result<(), NoRoom>
    requires fresh { IsFresh (A.meaning run.now.app).count search.old.board search.old.marker }
    requires wide { length search.old.lists.writers.items ≡ (A.meaning run.now.app).count }
    requires told { A.tells run.now.app horizon.old run.now.state.pending }
    ensures found { OnOk result (search.new.lists.clear.items ≡ clear_tasks (A.meaning run.now.app) run.now.state) }
    ensures alone { OnOk result (IsAlone (A.meaning run.now.app).count search.new.board search.new.marker) }
    ensures wide { length search.new.lists.writers.items ≡ length search.old.lists.writers.items }
    ensures told { OnOk result (A.tells run.now.app horizon.new run.now.state.pending) }
    ensures cells { search.new.cells ≡ search.old.cells }
{
    let app = run.app();
    let store = run.store();
    find_clear(
        app,
        run.pending(),
        store,
        &search.board,
        &mut search.marker,
        &mut search.lists,
        horizon,
        steps,
    )
}
