//! The engine on introductions, whose sets move.

ghost use Rattle.std.specs.Prelude.{◌≡◌, ◌<◌, ◌^◌, length, IfOk};
ghost use Rattle.app_laws.specs.Applications.{AreFitStarts};
ghost use Rattle.example_app.specs.Introduction.{AreContacts, introductions};

use super::recorded_sets::{Accesses, Turn, has_sets_in_turn};
use example_app::Introductions;
use kdg_text::NoRoom;
use rw_sets::Access::{Read, Write};
use std::alloc::Global;
use std::test::Fail;
use task_order::{Body, Key, Path, Start, StartList};

/// Whom each of ten people knows.
pub fn contacts(alloc: Global) -> Result<Vec<u64>, NoRoom>
    ensures { IfOk result (λ contacts. AreContacts 10 contacts.items) }
{
    Ok(vec![in alloc; 4, 5, 6, 7, 8, 9, 9, 8, 0, 1]?)
}

/// A meeting of two hosts.
pub fn meeting(prio: u64, kind: u8, at: u32, arg: u64) -> Start
    ensures { result ≡ record { prio = prio; body = record { kind = kind; at = at; arg = arg } } }
{
    Start {
        prio,
        body: Body { kind, at, arg },
    }
}

/// Two meetings of four different people, and one whose hosts are a guest of each.
fn three_meetings(alloc: Global) -> Result<StartList, NoRoom>
    ensures fit { IfOk result (AreFitStarts (introductions 10)) }
    ensures few { IfOk result (λ first. length first < 2 ^ 32) }
{
    let mut first = StartList::new(alloc);
    first.push(meeting(1, 0, 0, 1))?;
    first.push(meeting(1, 0, 2, 3))?;
    first.push(meeting(1, 0, 4, 6))?;
    Ok(first)
}

/// The set that the third meeting declares at first.
const DECLARED: Accesses = &[(4, Read), (6, Read), (8, Write), (9, Write)];

/// The set of the third meeting, merged with that of the first.
const MERGED: Accesses = &[
    (0, Read),
    (1, Read),
    (4, Write),
    (5, Write),
    (6, Read),
    (8, Write),
    (9, Write),
];

/// The set that the third meeting declares once the others have ended.
const MOVED: Accesses = &[(4, Read), (5, Write), (6, Read), (7, Write)];

/// The first meeting ends, and then the second.
const TURNS: [Turn; 2] = [
    Turn {
        place: 1,
        sets: &[MERGED],
    },
    Turn {
        place: 0,
        sets: &[MOVED],
    },
];

/// The third meeting waits for both others. Where the first one ends while the second has the cell
/// of a host away, its recorded set is merged; where the second one ends, it is the declared set.
#[test]
fn sets_are_merged_while_a_cell_is_away(rt: HostRuntime) -> Result<(), Fail> {
    let third = Key {
        prio: 1,
        path: Path::root(rt.alloc(), 2)?,
    };
    assert!(rt; meetings_have_sets(rt.alloc(), &[third])?);
    Ok(())
}

/// Whether the tasks of these keys have the sets of the turns.
fn meetings_have_sets(alloc: Global, keys: &[Key]) -> Result<bool, Fail> {
    let app = Introductions::new(alloc, 10);
    let (cells, first) = (contacts(alloc)?, three_meetings(alloc)?);
    let have_sets = has_sets_in_turn(alloc, &app, cells, first, keys, &[DECLARED], &TURNS);
    drop(app);
    Ok(have_sets?)
}
