use super::*;
use Access::{Read, Write};
use kdg_text::NoRoom;
use std::alloc::Global;
use std::process::Abort;
use std::test::Fail;

fn set_of(alloc: Global, pairs: &[(u32, Access)]) -> Result<RwSet, NoRoom> {
    let mut set = RwSet::new(alloc);
    for (loc, access) in pairs {
        set.add(*loc, *access)?;
    }
    Ok(set)
}

#[test]
fn adds_in_ascending_order_and_write_wins(rt: HostRuntime) -> Result<(), Fail> {
    let set = set_of(rt.alloc(), &[(5, Read), (2, Write), (5, Write)])?;
    assert_eq!(rt; set.items(), [(2, Write), (5, Write)].as_slice());
    assert_eq!(rt; set.contains(2), Some(Write));
    assert_eq!(rt; set.contains(3), None);
    assert_eq!(rt; set.contains(9), None);
    Ok(())
}

#[test]
fn keeps_the_fifth_location(rt: HostRuntime) -> Result<(), Fail> {
    let mut set = set_of(rt.alloc(), &[(8, Read), (6, Read), (4, Read), (2, Read)])?;
    set.add(5, Write)?;
    assert_eq!(rt;
        set.items(),
        [(2, Read), (4, Read), (5, Write), (6, Read), (8, Read)].as_slice()
    );
    assert_eq!(rt; set.position_of(5), Some(2));
    Ok(())
}

#[test]
fn makes_a_set_of_pairs_at_once(rt: HostRuntime) -> Result<(), Fail> {
    let alloc = rt.alloc();
    let set = RwSet::from_pairs(vec![in alloc; (5, Read), (2, Write), (5, Write), (5, Read)]?);
    assert_eq!(rt; set, set_of(alloc, &[(2, Write), (5, Write)])?);
    assert_ne!(rt; set, set_of(alloc, &[(2, Write), (5, Read)])?);
    assert_eq!(rt; RwSet::of_two(alloc, (5, Write), (2, Write)), set);
    Ok(())
}

type Pairs<'a> = &'a [(u32, Access)];

fn check(
    rt: &impl Abort,
    alloc: Global,
    left: Pairs<'_>,
    right: Pairs<'_>,
    conflict: bool,
) -> Result<(), NoRoom> {
    let (left, right) = (set_of(alloc, left)?, set_of(alloc, right)?);
    assert_eq!(rt; left.conflicts(&right), conflict);
    assert_eq!(rt; right.conflicts(&left), conflict);
    Ok(())
}

#[test]
fn conflicts_where_one_writes(rt: HostRuntime) -> Result<(), Fail> {
    for (left, right, conflict) in [
        ([(2, Read)].as_slice(), [(2, Read)].as_slice(), false),
        (&[(2, Read)], &[(2, Write)], true),
        (&[(2, Write)], &[(2, Write)], true),
        (&[], &[], false),
        (&[(1, Write), (3, Write)], &[(2, Write), (4, Read)], false),
        (
            &[(1, Read), (7, Read)],
            &[(1, Read), (3, Write), (7, Write)],
            true,
        ),
    ] {
        check(&rt, rt.alloc(), left, right, conflict)?;
    }
    Ok(())
}

#[test]
fn merges_and_copies(rt: HostRuntime) -> Result<(), Fail> {
    let left = set_of(rt.alloc(), &[(2, Read), (5, Write)])?;
    let right = set_of(rt.alloc(), &[(2, Write), (3, Read)])?;
    let merged = left.merge(&right)?;
    assert_eq!(rt;
        merged.items(),
        [(2, Write), (3, Read), (5, Write)].as_slice()
    );
    assert_eq!(rt; merged.copy()?.items(), merged.items());
    Ok(())
}
