//! Children, and first tasks by their paths.

use app_laws::{Child, ChildList, starts_by_path};
use kdg_text::NoRoom;
use rw_sets::Access::{Read, Write};
use rw_sets::{Access, RwSet};
use std::alloc::Global;
use std::test::Fail;
use task_order::{Body, Key, Path, Start, Task};

const BODY: Body = Body {
    kind: 1,
    at: 4,
    arg: 7,
};

/// Accesses out of order, and as a set has them.
const ACCESSES: &[(u32, Access)] = &[(5, Write), (2, Write), (3, Read)];

const IN_ORDER: &[(u32, Access)] = &[(2, Write), (3, Read), (5, Write)];

/// A child at a priority, whose set has the accesses.
fn child(alloc: Global, prio: u64) -> Result<Child, NoRoom> {
    let mut set = RwSet::new(alloc);
    for &(loc, access) in ACCESSES {
        set.add(loc, access)?;
    }
    Ok(Child {
        prio,
        body: BODY,
        set,
    })
}

#[test]
fn children_are_listed_in_order(rt: HostRuntime) -> Result<(), Fail> {
    let mut children = ChildList::new(rt.alloc());
    assert!(rt; children.push(child(rt.alloc(), 8)?).is_ok());
    assert!(rt; children.items().len() == 1);
    assert!(rt; is_in_order(&children.items()[0]));
    Ok(())
}

/// Whether this is a child at priority 8 with its accesses in order.
fn is_in_order(child: &Child) -> bool {
    child.prio == 8 && child.body == BODY && child.set.items() == IN_ORDER
}

/// The first task of a priority.
fn start(prio: u64) -> Start {
    Start { prio, body: BODY }
}

#[test]
fn starts_come_by_their_paths(rt: HostRuntime) -> Result<(), Fail> {
    let early = Key {
        prio: 4,
        path: Path::root(rt.alloc(), 1)?,
    };
    let late = Key {
        prio: 9,
        path: Path::root(rt.alloc(), 0)?.child(3)?,
    };
    let mut tasks = Vec::new(rt.alloc());
    tasks.push(Task {
        key: early,
        body: BODY,
    })?;
    tasks.push(Task {
        key: late,
        body: BODY,
    })?;
    let first = starts_by_path(tasks)?;
    assert!(rt; first.as_slice() == [start(9), start(4)].as_slice());
    Ok(())
}
