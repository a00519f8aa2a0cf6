use crate::marking::{free_in_next_round, free_ranks, marked_by_two, plain_searches, single_sets};
use kdg_text::NoRoom;
use rw_sets::Access;
use rw_sets::Access::{Read, Write};
use std::alloc::Global;
use std::test::Fail;

/// Accesses in their order, and which of them are free.
const BARRED: [([(u32, Access); 3], [bool; 3]); 4] = [
    ([(5, Write), (6, Write), (5, Read)], [true, true, false]),
    ([(5, Read), (6, Write), (5, Read)], [true, true, true]),
    ([(5, Read), (5, Write), (5, Read)], [true, false, false]),
    ([(0, Write), (6, Read), (0, Write)], [true, true, false]),
];

/// Whether these of the accesses are free.
fn are_free(alloc: Global, accesses: &[(u32, Access); 3], free: &[bool]) -> Result<bool, NoRoom> {
    let sets = single_sets(alloc, accesses, 7)?;
    let least = marked_by_two(alloc, &sets, 7)?;
    Ok(free_ranks(alloc, &least, &sets)?.as_slice() == free)
}

#[test]
fn earlier_marks_bar_where_one_of_the_two_writes(rt: HostRuntime) -> Result<(), Fail> {
    for (accesses, free) in BARRED {
        assert!(rt; are_free(rt.alloc(), &accesses, &free)?);
    }
    Ok(())
}

/// Accesses on a board that was renewed, and which of them are free.
const RENEWED: [([(u32, Access); 3], [bool; 3]); 2] = [
    ([(1, Write), (5, Read), (6, Write)], [true, true, true]),
    ([(5, Read), (5, Write), (6, Write)], [true, false, true]),
];

/// Whether these of the accesses are free on a board that has forgotten two others.
fn are_free_anew(
    alloc: Global,
    accesses: &[(u32, Access); 3],
    free: &[bool],
) -> Result<bool, NoRoom> {
    let sets = single_sets(alloc, &[(5, Write), (6, Write)], 7)?;
    let others = single_sets(alloc, accesses, 7)?;
    Ok(free_in_next_round(alloc, &sets, &others, 7)?.as_slice() == free)
}

#[test]
fn a_renewed_board_forgets_the_marks_before(rt: HostRuntime) -> Result<(), Fail> {
    for (accesses, free) in RENEWED {
        assert!(rt; are_free_anew(rt.alloc(), &accesses, &free)?);
    }
    Ok(())
}

#[test]
fn four_threads_mark_as_a_plain_search_finds(rt: HostRuntime) -> Result<(), Fail> {
    assert!(rt; plain_searches(&rt, rt.alloc(), 10_000)? == 10_000);
    Ok(())
}
