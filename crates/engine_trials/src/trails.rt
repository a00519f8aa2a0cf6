//! An application whose tasks leave their own paths, so that none may get another, and one that says that
//! it works at home without a way to.

use super::outcomes::{Aim, serial_cause};
use super::rounds::runs_meet;
use app_laws::Finals;
use cell_store::{Seen, Store};
use graph_update::OverCause;
use kdg_text::NoRoom;
use small_apps::{HomelessTrails, Trail, Trails};
use std::alloc::Global;
use std::test::Fail;
use std::thread::Threads;
use task_order::Path;

/// A run in which `more` tasks follow one another at each place.
#[derive(Clone, Copy)]
struct Passings {
    more: u64,
    /// The births that lead from the first task at a place to the last.
    births: &'static [u32],
    /// How many tasks there are at both places.
    count: u64,
}

/// At each place the last task is the second child of the last but two. In the last row the paths are so
/// long, and the tasks so numerous, that they would get short ones if they ignored their paths.
const ROWS: [Passings; 4] = [
    Passings {
        more: 0,
        births: &[],
        count: 2,
    },
    Passings {
        more: 1,
        births: &[1],
        count: 6,
    },
    Passings {
        more: 3,
        births: &[1, 1, 1],
        count: 14,
    },
    Passings {
        more: 400,
        births: &[1; 400],
        count: 1602,
    },
];

/// The path to which these births lead from a first task.
fn path_of(alloc: Global, number: u32, births: &[u32]) -> Result<Path, NoRoom> {
    let mut path = Path::root(alloc, number)?;
    for &birth in births {
        path = path.child(birth)?;
    }
    Ok(path)
}

/// The paths that are left at the places, and how many tasks there are.
#[derive(Drop)]
struct Lasts {
    first: Path,
    second: Path,
    count: u64,
}

impl Aim<Trail> for Lasts {
    fn is_met(&self, finals: &Finals<Trail>) -> bool {
        finals.count == self.count
            && is_left(&finals.store, 0, &self.first)
            && is_left(&finals.store, 1, &self.second)
    }
}

/// Whether this path is left at a place.
fn is_left(store: &Store<Trail>, place: u32, path: &Path) -> bool {
    if place >= store.len() {
        return false;
    }
    match store.peek(place) {
        Seen::At(trail) => trail.path == *path,
        Seen::Out => false,
    }
}

/// What a run leaves.
fn lasts_of(alloc: Global, row: &Passings) -> Result<Lasts, NoRoom> {
    let first = path_of(alloc, 0, row.births)?;
    let second = path_of(alloc, 1, row.births)?;
    Ok(Lasts {
        first,
        second,
        count: row.count,
    })
}

/// Whether the runs in which `more` tasks follow one another at each place leave this.
fn trails_meet<R: Threads + Sync>(
    rt: &R,
    alloc: Global,
    more: u64,
    lasts: &Lasts,
) -> Result<bool, OverCause> {
    let app = Trails::new(alloc);
    let (cells, first) = (app.first_cells()?, app.first_tasks(more)?);
    runs_meet(rt, alloc, &app, &cells, first.items(), 2000, lasts)
}

/// The cells hold the paths of the births, however deep, in the serial run and in rounds. That the
/// application has a way to act at home which always lacks memory changes nothing, since it doesn't
/// say that it works at home.
#[test]
fn places_keep_the_paths_of_the_births(rt: HostRuntime) -> Result<(), Fail> {
    for row in &ROWS {
        let lasts = lasts_of(rt.alloc(), row)?;
        assert!(rt; trails_meet(&rt, rt.alloc(), row.more, &lasts)?);
    }
    Ok(())
}

/// Why the serial run of an application that acts at home without a way to does not end.
fn homeless_cause(alloc: Global) -> Result<Option<OverCause>, NoRoom> {
    let trails = Trails::new(alloc);
    let (cells, first) = (trails.first_cells()?, trails.first_tasks(1)?);
    let app = HomelessTrails::new(trails);
    Ok(serial_cause(alloc, &app, &cells, first.items(), 6))
}

#[test]
fn acting_at_home_without_a_way_ends_at_once(rt: HostRuntime) -> Result<(), Fail> {
    assert!(rt; homeless_cause(rt.alloc())? == Some(OverCause::NoRoom));
    Ok(())
}
