//! Paths of birth, short and long.

use kdg_text::NoRoom;
use std::alloc::Global;
use std::test::Fail;
use task_order::Path;

/// The path with these numbers.
pub(crate) fn path(alloc: Global, first: u32, rest: &[u32]) -> Result<Path, NoRoom> {
    let mut path = Path::root(alloc, first)?;
    for number in rest {
        path = path.child(*number)?;
    }
    Ok(path)
}

/// Paths in order, and what each prints: among them the shortest and the longest items.
const PRINTED: &[(u32, &[u32], &str)] = &[
    (0, &[], "[0]"),
    (
        0,
        &[0; 15],
        "[0, 0, 0, 0, 0, 0, 0, 0, 0, 0, 0, 0, 0, 0, 0, 0]",
    ),
    (
        0,
        &[0, 0, 0, 0, 0, 0, 0, 0, 0, 0, 0, 0, 0, 0, 258, 1, 0],
        "[0, 0, 0, 0, 0, 0, 0, 0, 0, 0, 0, 0, 0, 0, 0, 258, 1, 0]",
    ),
    (
        0,
        &[0, 0, 0, 0, 0, 0, 0, 0, 0, 0, 0, 0, 0, 1],
        "[0, 0, 0, 0, 0, 0, 0, 0, 0, 0, 0, 0, 0, 0, 1]",
    ),
    (0, &[15], "[0, 15]"),
    (0, &[16, 2], "[0, 16, 2]"),
    (1, &[4_294_967_295, 0, 3], "[1, 4294967295, 0, 3]"),
    (16, &[], "[16]"),
    (4_294_967_295, &[], "[4294967295]"),
];

#[test]
fn paths_print_their_numbers(rt: HostRuntime) -> Result<(), Fail> {
    let mut before = path(rt.alloc(), 0, &[])?;
    for &(first, rest, text) in PRINTED {
        let path = path(rt.alloc(), first, rest)?;
        assert!(rt; is_printed(rt.alloc(), &path, text)? && before <= path);
        before = path;
    }
    Ok(())
}

/// Whether a path prints this.
fn is_printed(alloc: Global, path: &Path, text: &str) -> Result<bool, Fail> {
    Ok(format!(in alloc; "{path:?}")?.as_str() == text)
}

/// Paths, and how each begins: as zeros where it has too few bytes, and as before where it goes on.
const BEGINNINGS: &[(u32, &[u32], u64)] = &[
    (0, &[], 0),
    (7, &[], 0xf600_0000_0000_0000),
    (7, &[3, 0, 3, 258], 0xf6f2_e2ff_0000_0102),
    (7, &[3, 0, 3, 258, 9], 0xf6f2_e2ff_0000_0102),
    (7, &[3; 15], 0xf6f2_f2f2_f2f2_f2f2),
    (7, &[3; 16], 0xf6f2_f2f2_f2f2_f2f2),
    (7, &[3; 1_200], 0xf6f2_f2f2_f2f2_f2f2),
];

#[test]
fn paths_begin_with_their_first_numbers(rt: HostRuntime) -> Result<(), Fail> {
    for &(first, rest, beginning) in BEGINNINGS {
        assert!(rt; path(rt.alloc(), first, rest)?.beginning() == beginning);
    }
    Ok(())
}

#[test]
fn paths_of_eight_bytes_are_long(rt: HostRuntime) -> Result<(), Fail> {
    assert!(rt; !path(rt.alloc(), 7, &[3; 6])?.is_long());
    assert!(rt; path(rt.alloc(), 7, &[3; 7])?.is_long());
    Ok(())
}

#[test]
fn long_paths_print_each_number(rt: HostRuntime) -> Result<(), Fail> {
    let long = path(rt.alloc(), 7, &[3; 1_200])?;
    assert!(rt; format!(in rt.alloc(); "{long:?}")?.len() == 3_603);
    Ok(())
}

#[test]
fn deep_paths_are_dropped(rt: HostRuntime) -> Result<(), Fail> {
    let mut deep = Path::root(rt.alloc(), 1)?;
    for _ in 0..3_000_000 {
        deep = deep.child(1)?;
    }
    let next = deep.child(1)?;
    assert!(rt; deep < next);
    Ok(())
}
