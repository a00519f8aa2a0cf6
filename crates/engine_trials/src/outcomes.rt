//! What runs come to from copies of the same cells and first tasks, and whether it is what they aim at.

ghost use Rattle.std.specs.Prelude.{◌≡◌, ◌≤◌, ◌<◌, ◌^◌, length, IfOk};
ghost use Rattle.app_laws.specs.Applications.{AreFitStarts};

use app_laws::{App, Finals, SerialFault, serial};
use cell_store::{Held, Seen, Store};
use graph_update::{BeginFault, OverCause};
use kdg_text::NoRoom;
use std::alloc::Global;
use task_order::{Start, StartList};

/// What a run is to come to.
pub trait Aim<V: Held> {
    /// Whether it comes to this.
    fn is_met(&self, finals: &Finals<V>) -> bool;
}

/// What the serial run from these cells and first tasks comes to.
pub fn serial_finals<A: App>(
    alloc: Global,
    app: &A,
    cells: &[A::Val],
    first: &[Start],
    budget: u64,
) -> Result<Finals<A::Val>, OverCause>
    requires fit_cells { (A.meaning app.now).is_fit_cells cells.now }
    requires fit_first { AreFitStarts (A.meaning app.now) first.now }
    requires few { length first.now < 2 ^ 32 }
    requires budget { budget ≤ 1_000_000_000 }
{
    let (cells, first) = (copies_of(alloc, cells)?, list_of(alloc, first)?);
    match serial(alloc, app, cells, first, budget) {
        Ok(finals) => Ok(finals),
        Err(SerialFault::Budget { created, limit }) => Err(OverCause::Budget { created, limit }),
        Err(SerialFault::NoRoom) => Err(OverCause::NoRoom),
    }
}

/// Why the serial run does not end.
pub fn serial_cause<A: App>(
    alloc: Global,
    app: &A,
    cells: &[A::Val],
    first: &[Start],
    budget: u64,
) -> Option<OverCause>
    requires fit_cells { (A.meaning app.now).is_fit_cells cells.now }
    requires fit_first { AreFitStarts (A.meaning app.now) first.now }
    requires few { length first.now < 2 ^ 32 }
    requires budget { budget ≤ 1_000_000_000 }
{
    serial_finals(alloc, app, cells, first, budget).err()
}

/// Whether the serial run meets an aim.
pub fn serial_meets<A: App, W: Aim<A::Val>>(
    alloc: Global,
    app: &A,
    cells: &[A::Val],
    first: &[Start],
    budget: u64,
    aim: &W,
) -> Result<bool, OverCause>
    requires fit_cells { (A.meaning app.now).is_fit_cells cells.now }
    requires fit_first { AreFitStarts (A.meaning app.now) first.now }
    requires few { length first.now < 2 ^ 32 }
    requires budget { budget ≤ 1_000_000_000 }
{
    let finals = serial_finals(alloc, app, cells, first, budget)?;
    Ok(aim.is_met(&finals))
}

/// The cause of a run that doesn't begin.
pub fn cause_of(fault: BeginFault) -> OverCause {
    match fault {
        BeginFault::Budget { asked, limit } => OverCause::Budget {
            created: asked,
            limit,
        },
        BeginFault::NoRoom => OverCause::NoRoom,
    }
}

/// Whether two runs come to the same.
pub fn are_alike<V: Held + PartialEq>(left: &Finals<V>, right: &Finals<V>) -> bool {
    left.count == right.count
        && left.text.bytes() == right.text.bytes()
        && have_same_cells(&left.store, &right.store)
}

/// Whether two stores have the same cells, all of them home.
fn have_same_cells<V: Held + PartialEq>(left: &Store<V>, right: &Store<V>) -> bool {
    if left.len() != right.len() {
        return false;
    }
    for loc in 0..left.len() {
        if !have_same_cell(left, right, loc) {
            return false;
        }
    }
    true
}

/// Whether two stores have the same cell at a location, and it is home.
fn have_same_cell<V: Held + PartialEq>(left: &Store<V>, right: &Store<V>, loc: u32) -> bool
    requires left { loc < length left.now }
    requires right { loc < length right.now }
{
    match left.peek(loc) {
        Seen::At(one) => match right.peek(loc) {
            Seen::At(other) => one == other,
            Seen::Out => false,
        },
        Seen::Out => false,
    }
}

/// Copies of these values.
pub fn copies_of<V: Held>(alloc: Global, values: &[V]) -> Result<Vec<V>, NoRoom>
    ensures { IfOk result (λ copies. copies.items ≡ values.now) }
{
    let mut copies = Vec::new(alloc);
    for value in values {
        copies.push(value.copy()?)?;
    }
    Ok(copies)
}

/// A list of these first tasks.
pub fn list_of(alloc: Global, starts: &[Start]) -> Result<StartList, NoRoom>
    ensures { IfOk result (λ list. list ≡ starts.now) }
{
    let mut list = StartList::new(alloc);
    for start in starts {
        list.push(*start)?;
    }
    Ok(list)
}
