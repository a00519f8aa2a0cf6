ghost use Rattle.std.specs.Prelude.{◌≡◌, ◌<◌, ◌≤◌, ◌^◌, [], All, IfOk, length};
ghost use denote.Param.Send.{IsSync};
ghost use Rattle.rw_sets.specs.Accesses.{IsInRange};
ghost use Rattle.board_trials.specs.Marking.{CanMark};

use kdg_text::NoRoom;
use mark_board::{Board, Least, Marker};
use rw_sets::{Access, RwSet};
use std::alloc::Global;
use std::thread::{Threads, join};

/// Words that look random.
#[derive(Drop)]
pub(crate) struct Words {
    pub(crate) state: u64,
}

impl Words {
    /// The next number below a bound.
    fn below(&mut self, bound: u32) -> u32
        requires { 0 < bound }
        ensures { result < bound }
    {
        self.state = self
            .state
            .wrapping_mul(6_364_136_223_846_793_005)
            .wrapping_add(1_442_695_040_888_963_407);
        (self.state >> 33) as u32 % bound
    }

    /// A set of some of the locations below a bound.
    fn set(&mut self, alloc: Global, cells: u32) -> Result<RwSet, NoRoom>
        requires { 0 < cells }
        ensures { IfOk result (λ set. IsInRange set cells) }
    {
        let mut set = RwSet::new(alloc);
        for _ in 0..self.below(4) {
            let access = if self.below(3) == 0 {
                Access::Write
            } else {
                Access::Read
            };
            set.add(self.below(cells), access)?;
        }
        Ok(set)
    }

    /// Some such sets.
    pub(crate) fn sets(
        &mut self,
        alloc: Global,
        count: u32,
        cells: u32,
    ) -> Result<Vec<RwSet>, NoRoom>
        requires some { 0 < cells }
        ensures { IfOk result (λ sets. CanMark sets.items cells) }
    {
        let mut sets = Vec::new(alloc);
        for _ in 0..count {
            sets.push(self.set(alloc, cells)?)?;
        }
        Ok(sets)
    }
}

/// Marks every fourth set, from one on, each with its number.
fn mark_fourth(board: &Board, mut marker: Marker, sets: &[RwSet], first: usize) -> Marker
    requires here { marker.board ≡ board.now.id }
    requires sets { CanMark sets.now board.now.cells }
    ensures { result ≡ record marker { marks = result.marks } }
{
    for (number, set) in sets.iter().enumerate() {
        if number % 4 == first {
            board.mark(&mut marker, number as u32, set);
        }
    }
    marker
}

/// Two threads mark, each with its marker.
fn mark_half<R: Threads + Sync>(
    rt: &R,
    board: &Board,
    one: Marker,
    other: Marker,
    sets: &[RwSet],
    first: usize,
) -> (Marker, Marker)
    requires here { one.board ≡ board.now.id }
    requires other_here { other.board ≡ board.now.id }
    requires sets { CanMark sets.now board.now.cells }
    requires first { first < 2 }
    ensures one { result.0 ≡ record one { marks = result.0.marks } }
    ensures other { result.1 ≡ record other { marks = result.1.marks } }
{
    join(
        rt,
        || -> Marker
            requires { (one.board ≡ board.now.id) × CanMark sets.now board.now.cells }
            ensures { result ≡ record one { marks = result.marks } }
        { mark_fourth(board, one, sets, first) },
        || -> Marker
            requires { (other.board ≡ board.now.id) × CanMark sets.now board.now.cells × (first < 2) }
            ensures { result ≡ record other { marks = result.marks } }
        { mark_fourth(board, other, sets, first + 2) },
    )
}

/// Four threads mark a new board at once, and all their markers are joined again.
pub(crate) fn marked_by_four<R: Threads + Sync>(
    rt: &R,
    alloc: Global,
    sets: &[RwSet],
    cells: u32,
) -> Result<Least, NoRoom>
    requires sets { CanMark sets.now cells }
    ensures { IfOk result (λ least. least.cells ≡ cells) }
{
    let (board, mut first) = Board::new(alloc, cells)?;
    let second = board.split(&mut first);
    let third = board.split(&mut first);
    let fourth = board.split(&mut first);
    let shared = &board;
    let ((mut first, second), (third, fourth)) = join(
        rt,
        || -> (Marker, Marker)
            requires { IsSync R.row × (first.board ≡ shared.now.id) × (second.board ≡ shared.now.id) × CanMark sets.now shared.now.cells }
            ensures one { result.0 ≡ record first { marks = result.0.marks } }
            ensures other { result.1 ≡ record second { marks = result.1.marks } }
        { mark_half(rt, shared, first, second, sets, 0) },
        || -> (Marker, Marker)
            requires { IsSync R.row × (third.board ≡ shared.now.id) × (fourth.board ≡ shared.now.id) × CanMark sets.now shared.now.cells }
            ensures one { result.0 ≡ record third { marks = result.0.marks } }
            ensures other { result.1 ≡ record fourth { marks = result.1.marks } }
        { mark_half(rt, shared, third, fourth, sets, 1) },
    );
    board.join(&mut first, third);
    board.join(&mut first, second);
    board.join(&mut first, fourth);
    Ok(board.close(first))
}

/// Whether each rank is free exactly where no earlier set conflicts with its own.
pub(crate) fn is_plain_search(least: &Least, sets: &[RwSet]) -> bool
    requires sets { CanMark sets.now least.now.cells }
{
    for (rank, set) in sets.iter().enumerate() {
        let is_clear = !sets[..rank].iter().any(|earlier| earlier.conflicts(set));
        if least.free(rank as u32, set) != is_clear {
            return false;
        }
    }
    true
}

/// On how many new boards four threads find what a plain search finds, of this many boards with sets that
/// look random.
pub(crate) fn plain_searches<R: Threads + Sync>(
    rt: &R,
    alloc: Global,
    boards: u32,
) -> Result<u32, NoRoom>
    ensures { IfOk result (λ alike. alike ≤ boards) }
{
    let mut words = Words { state: 54 };
    let mut alike = 0;
    for _ in 0..boards {
        let cells = 1 + words.below(8);
        let count = words.below(24);
        let sets = words.sets(alloc, count, cells)?;
        if is_plain_search(&marked_by_four(rt, alloc, &sets, cells)?, &sets) {
            alike += 1;
        }
    }
    Ok(alike)
}

/// Two markers mark the sets in turn.
fn mark_in_turn(board: &Board, first: &mut Marker, second: &mut Marker, sets: &[RwSet])
    requires first_here { first.old.board ≡ board.now.id }
    requires second_here { second.old.board ≡ board.now.id }
    requires sets { CanMark sets.now board.now.cells }
    ensures first { first.new ≡ record first.old { marks = first.new.marks } }
    ensures second { second.new ≡ record second.old { marks = second.new.marks } }
{
    for (number, set) in sets.iter().enumerate() {
        if number % 2 == 0 {
            board.mark(first, number as u32, set);
        } else {
            board.mark(second, number as u32, set);
        }
    }
}

/// Two markers mark the sets in turn, and are joined.
pub(crate) fn marked_by_two(alloc: Global, sets: &[RwSet], cells: u32) -> Result<Least, NoRoom>
    requires sets { CanMark sets.now cells }
    ensures { IfOk result (λ least. least.cells ≡ cells) }
{
    let (board, mut first) = Board::new(alloc, cells)?;
    let mut second = board.split(&mut first);
    mark_in_turn(&board, &mut first, &mut second, sets);
    board.join(&mut first, second);
    Ok(board.close(first))
}

/// The set of one access below a bound.
fn single_set(alloc: Global, loc: u32, access: Access, cells: u32) -> Result<RwSet, NoRoom>
    requires { loc < cells }
    ensures { IfOk result (λ set. IsInRange set cells) }
{
    let mut set = RwSet::new(alloc);
    set.add(loc, access)?;
    Ok(set)
}

/// The sets of one access each. A location that isn't below the bound is left out.
pub(crate) fn single_sets(
    alloc: Global,
    accesses: &[(u32, Access)],
    cells: u32,
) -> Result<Vec<RwSet>, NoRoom>
    requires { length accesses.now < 2 ^ 32 }
    ensures { IfOk result (λ sets. CanMark sets.items cells) }
{
    let mut sets = Vec::new(alloc);
    for &(loc, access) in accesses {
        if loc < cells {
            sets.push(single_set(alloc, loc, access, cells)?)?;
        }
    }
    Ok(sets)
}

/// Whether each rank is free.
pub(crate) fn free_ranks(alloc: Global, least: &Least, sets: &[RwSet]) -> Result<Vec<bool>, NoRoom>
    requires sets { CanMark sets.now least.now.cells }
{
    let mut ranks = Vec::new(alloc);
    for (rank, set) in sets.iter().enumerate() {
        ranks.push(least.free(rank as u32, set))?;
    }
    Ok(ranks)
}

/// Marks the sets, renews the board, marks the other sets, and tells which of their ranks are free.
pub(crate) fn free_in_next_round(
    alloc: Global,
    sets: &[RwSet],
    others: &[RwSet],
    cells: u32,
) -> Result<Vec<bool>, NoRoom>
    requires sets { CanMark sets.now cells }
    requires others { CanMark others.now cells }
{
    let (mut board, mut marker) = Board::new(alloc, cells)?;
    mark_all(&board, &mut marker, sets);
    if board.renewals() == 0 {
        return Err(NoRoom);
    }
    board.renew(&mut marker);
    mark_all(&board, &mut marker, others);
    let mut ranks = Vec::new(alloc);
    for (rank, set) in others.iter().enumerate() {
        ranks.push(board.free(&mut marker, rank as u32, set))?;
    }
    Ok(ranks)
}

fn mark_all(board: &Board, marker: &mut Marker, sets: &[RwSet])
    requires here { marker.old.board ≡ board.now.id }
    requires sets { CanMark sets.now board.now.cells }
    ensures { marker.new ≡ record marker.old { marks = marker.new.marks } }
{
    for (rank, set) in sets.iter().enumerate() {
        board.mark(marker, rank as u32, set);
    }
}
