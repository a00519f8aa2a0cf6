//! Levels of vertices, and searches for them.

ghost use Rattle.std.specs.Prelude.{◌≡◌, ◌≤◌};
ghost use Rattle.cell_store.specs.Values.{homes, values_of};

use super::rows::expect;
use app_laws::Finals;
use cell_store::{Held, value_laws};
use kdg_text::NoRoom;
use level_search::search;
use level_walk::{Level, Walk};
use mtx_reader::read_mtx;
use std::alloc::Global;
use std::test::Fail;

#[test]
fn a_copy_of_a_level_is_equal(rt: HostRuntime) -> Result<(), Fail> {
    for level in [Level::Unset, Level::At(0), Level::At(u32::MAX)] {
        assert!(rt; level.copy()? == level);
    }
    Ok(())
}

/// A way to vertex 4 over each of the two vertices next to the first, and one back.
const DIAMOND: &str =
    "%%MatrixMarket matrix coordinate pattern general\n4 4 5\n1 2\n1 3\n2 4\n3 4\n4 1\n";

/// Three edges lead to vertex 6 from the level before its own, and one from itself. None leads to vertex 7.
const SEVERAL: &str =
    "%%MatrixMarket matrix coordinate pattern general\n7 7 12\n1 6\n2 5\n2 6\n3 1\n3 2\n3 4\n4 5\n4 6\n5 3\n6 3\n6 6\n7 3\n";

const LOOP: &str = "%%MatrixMarket matrix coordinate pattern general\n1 1 1\n1 1\n";

const EMPTY: &str = "%%MatrixMarket matrix coordinate pattern general\n0 0 0\n";

/// The lines of a search, those of its last levels, and the numbers of its tasks and of their rounds.
type Found = (&'static str, &'static str, u64, u64);

/// A graph, the vertex from which it is searched, how many tasks are allowed, and what is found within that.
/// A level takes as many rounds as there are visits to the vertex that has most of them.
const SEARCHES: &[(&str, u32, u64, Option<Found>)] = &[
    // visits to 1, to 2 and 3, twice to 4, and to 1
    (
        DIAMOND,
        1,
        6,
        Some((
            "visit 1 0\nvisit 2 1\nvisit 3 1\nvisit 4 2\n",
            "level 1 0\nlevel 2 1\nlevel 3 1\nlevel 4 2\n",
            6,
            5,
        )),
    ),
    (DIAMOND, 1, 5, None),
    // visits to 3, to 1, 2 and 4, to 6, 5, 6, 5 and 6, and to 3, 6 and 3
    (
        SEVERAL,
        3,
        12,
        Some((
            "visit 3 0\nvisit 1 1\nvisit 2 1\nvisit 4 1\nvisit 6 2\nvisit 5 2\n",
            "level 1 1\nlevel 2 1\nlevel 3 0\nlevel 4 1\nlevel 5 2\nlevel 6 2\nlevel 7 none\n",
            12,
            7,
        )),
    ),
    (SEVERAL, 3, 11, None),
    // no such vertex
    (LOOP, 2, 0, Some(("", "level 1 none\n", 0, 0))),
    (EMPTY, 1, 0, Some(("", "", 0, 0))),
];

#[test]
fn searches_come_to_what_their_visits_do(rt: HostRuntime) -> Result<(), Fail> {
    for &(input, from, limit, want) in SEARCHES {
        assert!(rt; from >= 1 && limit <= 1000);
        expect(
            &rt,
            is_searched(rt.alloc(), input, from, limit, want)?,
            input,
        );
    }
    Ok(())
}

/// Whether a search through the graph of an input comes to this.
fn is_searched(
    alloc: Global,
    input: &str,
    from: u32,
    limit: u64,
    want: Option<Found>,
) -> Result<bool, Fail>
    requires from { 1 ≤ from }
    requires limit { limit ≤ 1_000_000_000 }
{
    let walk = Walk::new(alloc, read_mtx(alloc, input.as_bytes())?, from)?;
    Ok(comes_to(alloc, &walk, limit, want)?)
}

/// Whether a search comes to this.
fn comes_to(alloc: Global, walk: &Walk, limit: u64, want: Option<Found>) -> Result<bool, NoRoom>
    requires { limit ≤ 1_000_000_000 }
{
    value_laws::<Level>();
    let found = search(alloc, walk, limit)?;
    match found {
        Some((finals, rounds)) => shows(walk, &finals, rounds, want),
        None => Ok(want.is_none()),
    }
}

/// Whether this is what a search left.
fn shows(
    walk: &Walk,
    finals: &Finals<Level>,
    rounds: u64,
    want: Option<Found>,
) -> Result<bool, NoRoom>
    requires home { finals.now.store ≡ homes (values_of finals.now.store) }
{
    let Some((lines, last, tasks, wanted_rounds)) = want else {
        return Ok(false);
    };
    let levels = walk.print_finals(&finals.store)?;
    let is_numbered = finals.count == tasks && rounds == wanted_rounds;
    Ok(is_numbered && finals.text.bytes() == lines.as_bytes() && levels.bytes() == last.as_bytes())
}
