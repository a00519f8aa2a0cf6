//! Which words are a setting.

use crate::setting::read_setting;
use std::alloc::{AllocError, Global};
use std::process::Abort;
use std::test::Fail;

/// The number of workers, the length of a task, the lookahead, the number of groups and that of tasks.
type Numbers = (u32, u32, u32, u32, u32);

/// What words ask for.
fn numbers_of(alloc: Global, line: &[&str]) -> Result<Option<Numbers>, AllocError> {
    let mut words = Vec::new(alloc);
    for word in line {
        words.push(String::from_str(alloc, word)?)?;
    }
    let Some(setting) = read_setting(&words) else {
        return Ok(None);
    };
    let mixer = setting.mixer;
    Ok(Some((
        setting.workers,
        mixer.times,
        mixer.lookahead,
        mixer.groups,
        mixer.tasks,
    )))
}

/// Lines, and what they ask for.
const LINES: &[(&[&str], Option<Numbers>)] = &[
    (&["serial", "1", "0"], Some((1, 0, 1, 64, 16_384))),
    (
        &["rounds", "64", "4294967295"],
        Some((64, 4_294_967_295, 1, 64, 16_384)),
    ),
    (&["free", "2", "3", "4096"], Some((2, 3, 4096, 64, 16_384))),
    (&["free", "2", "3", "1", "1"], Some((2, 3, 1, 1, 16_384))),
    (
        &["free", "2", "3", "4", "4096"],
        Some((2, 3, 4, 4096, 16_384)),
    ),
    (
        &["free", "2", "3", "4", "64", "4096"],
        Some((2, 3, 4, 64, 4096)),
    ),
    (
        &["free", "2", "3", "4", "64", "1048576"],
        Some((2, 3, 4, 64, 1_048_576)),
    ),
    (&[], None),
    (&["serial", "1"], None),
    (&["marks", "1", "0"], None),
    (&["serial", "0", "0"], None),
    (&["serial", "65", "0"], None),
    (&["serial", "1", "4294967296"], None),
    (&["serial", "1", "many"], None),
    (&["serial", "1", "0", "0"], None),
    (&["serial", "1", "0", "4097"], None),
    (&["serial", "1", "0", "1", "0"], None),
    (&["serial", "1", "0", "1", "4097"], None),
    (&["serial", "1", "0", "1", "1", "4095"], None),
    (&["serial", "1", "0", "1", "1", "1048577"], None),
    (&["serial", "1", "0", "1", "1", "4096", "1"], None),
];

/// The last three words have defaults, and no word may be out of its range.
#[test]
fn words_are_read_within_their_ranges(rt: HostRuntime) -> Result<(), Fail> {
    for (line, numbers) in LINES {
        assert!(rt; numbers_of(rt.alloc(), line)? == *numbers, "{line:?}");
    }
    Ok(())
}
