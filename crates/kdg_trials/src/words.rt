//! Command lines, and the lines of faults.

use kdg_prog::{Command, Mode, Options, Status, fault_line, read_words};
use std::alloc::{AllocError, Global};
use std::process::Abort;
use std::test::Fail;

fn read(alloc: Global, line: &[&str]) -> Result<Result<Options, u32>, AllocError> {
    let mut words = Vec::new(alloc);
    for word in line {
        words.push(String::from_str(alloc, word)?)?;
    }
    Ok(read_words(&words))
}

/// Asks that words are read as wanted, and else ends with them.
fn expect(rt: &impl Abort, is_wanted: bool, line: &[&str]) {
    assert!(rt; is_wanted, "{line:?}");
}

/// What the plain command asks for.
pub const SIM: Options = Options {
    command: Command::Sim,
    big: 0,
    workers: 4,
    mode: Mode::Rounds,
    seed: 0,
    until: 1000,
    clock: 10,
    from: 1,
    budget: 1_000_000,
    stats: false,
};

const SERIAL: Options = Options {
    mode: Mode::Serial,
    ..SIM
};

/// Words, and what they ask for.
const WORDS: &[(&[&str], Options)] = &[
    (&["sim"], SIM),
    (
        &["mesh"],
        Options {
            command: Command::Mesh,
            ..SIM
        },
    ),
    (
        &["rank"],
        Options {
            command: Command::Rank,
            ..SIM
        },
    ),
    (
        &["mesh", "--budget", "7"],
        Options {
            command: Command::Mesh,
            budget: 7,
            ..SIM
        },
    ),
    (&["sim", "--workers", "1"], Options { workers: 1, ..SIM }),
    (
        &["sim", "--mode", "free"],
        Options {
            mode: Mode::Free,
            ..SIM
        },
    ),
    (
        &["sim", "--mode", "marks"],
        Options {
            mode: Mode::Marks,
            ..SIM
        },
    ),
    (&["sim", "--workers", "64"], Options { workers: 64, ..SIM }),
    (&["sim", "--workers", "007"], Options { workers: 7, ..SIM }),
    (&["sim", "--mode", "serial"], SERIAL),
    (&["sim", "--mode", "rounds"], SIM),
    (&["sim", "--seed", "0"], SIM),
    (
        &["sim", "--seed", "18446744073709551615"],
        Options {
            seed: u64::MAX,
            ..SIM
        },
    ),
    (&["sim", "--until", "0"], Options { until: 0, ..SIM }),
    (&["sim", "--clock", "1"], Options { clock: 1, ..SIM }),
    (
        &["sim", "--until", "1000000000"],
        Options {
            until: 1_000_000_000,
            ..SIM
        },
    ),
    (
        &["sim", "--until", "00000000000000000000000000000005"],
        Options { until: 5, ..SIM },
    ),
    (&["sim", "--budget", "0"], Options { budget: 0, ..SIM }),
    (
        &["sim", "--budget", "1000000000"],
        Options {
            budget: 1_000_000_000,
            ..SIM
        },
    ),
    (&["sim", "--stats", "on"], Options { stats: true, ..SIM }),
    (&["sim", "--stats", "off"], SIM),
    (
        &["sim", "--mode", "serial", "--budget", "19"],
        Options {
            budget: 19,
            ..SERIAL
        },
    ),
    (
        &["sim", "--budget", "19", "--mode", "serial"],
        Options {
            budget: 19,
            ..SERIAL
        },
    ),
    (
        &[
            "sim",
            "--stats",
            "on",
            "--seed",
            "5",
            "--workers",
            "2",
            "--until",
            "7",
            "--budget",
            "9",
            "--mode",
            "serial",
        ],
        Options {
            workers: 2,
            seed: 5,
            until: 7,
            budget: 9,
            stats: true,
            ..SERIAL
        },
    ),
    (
        &["sim", "--until", "1000000000", "--budget", "10"],
        Options {
            until: 1_000_000_000,
            budget: 10,
            ..SIM
        },
    ),
    (
        &["levels"],
        Options {
            command: Command::Levels,
            ..SIM
        },
    ),
    (
        &["levels", "--from", "4096", "--mode", "serial"],
        Options {
            command: Command::Levels,
            from: 4096,
            ..SERIAL
        },
    ),
    (&["big", "sim", "999"], Options { big: 999, ..SIM }),
    (
        &["big", "rank", "01", "--mode", "serial"],
        Options {
            command: Command::Rank,
            big: 1,
            ..SERIAL
        },
    ),
];

#[test]
fn reads_words(rt: HostRuntime) -> Result<(), Fail> {
    for &(line, options) in WORDS {
        expect(&rt, read(rt.alloc(), line)? == Ok(options), line);
    }
    Ok(())
}

/// Words, and the number of the first bad one.
const BAD_WORDS: &[(&[&str], u32)] = &[
    (&[], 1),
    (&[""], 1),
    (&["Sim"], 1),
    (&["rank", "--until", "5"], 2),
    (&["rank", "--clock", "5"], 2),
    (&["big", "mesh", "1", "--clock", "5"], 4),
    (&["sim", "--clock", "0"], 3),
    (&["sim", "--clock", "1000000001"], 3),
    (&["mesh", "--until", "5"], 2),
    (&["mesh", "--seed", "1", "--until", "5"], 4),
    (&["mesh", "mesh"], 2),
    (&["levels", "--from", "0"], 3),
    (&["levels", "--from", "4097"], 3),
    (&["levels", "--from"], 3),
    (&["rank", "--from", "1"], 2),
    (&["sim", "--from", "1"], 2),
    (&["levels", "--until", "5"], 2),
    (&["big", "levels", "5"], 2),
    (&["big", "levels"], 2),
    (&["--seed", "1"], 1),
    (&["big"], 2),
    (&["big", "big", "1"], 2),
    (&["big", "sim"], 3),
    (&["big", "sim", "0"], 3),
    (&["big", "mesh", "2049", "--what"], 3),
    (&["big", "rank", "1", "--until", "5"], 4),
    (&["big", "sim", "1", "--until"], 5),
    (&["sim", "--workers", "0"], 3),
    (&["sim", "--workers", "65"], 3),
    (&["sim", "--workers", ""], 3),
    (&["sim", "--workers", "+4"], 3),
    (&["sim", "--workers", "4 "], 3),
    (&["sim", "--mode", "Rounds"], 3),
    (&["sim", "--mode", "Free"], 3),
    (&["sim", "--mode", "Serial"], 3),
    (&["sim", "--seed", "18446744073709551616"], 3),
    (&["sim", "--seed", "-1"], 3),
    (&["sim", "--until", "1000000001"], 3),
    (&["sim", "--budget", "1000000001"], 3),
    (&["sim", "--stats", "yes"], 3),
    (&["sim", "--budget"], 3),
    (&["sim", "--what"], 2),
    (&["sim", "--what", "1"], 2),
    (&["sim", "--seed=1"], 2),
    (&["sim", "--Seed", "1"], 2),
    (&["sim", "sim"], 2),
    (&["sim", "--seed", "1", "--seed", "2"], 4),
    (&["sim", "--seed", "1", "--seed"], 4),
    (&["sim", "--seed", "1", "--until"], 5),
    (&["sim", "--seed", "x", "--seed", "x"], 3),
    (&["sim", "--seed", "1", "--until", "x", "--what"], 5),
    (
        &[
            "sim",
            "--stats",
            "on",
            "--seed",
            "5",
            "--workers",
            "2",
            "--until",
            "7",
            "--budget",
            "9",
            "--mode",
            "serial",
            "--stats",
        ],
        14,
    ),
];

#[test]
fn names_the_first_bad_word(rt: HostRuntime) -> Result<(), Fail> {
    for &(line, place) in BAD_WORDS {
        expect(&rt, read(rt.alloc(), line)? == Err(place), line);
    }
    Ok(())
}

/// What is told, its code, and the line of its fault.
const STATUSES: &[(Status, u8, &[u8])] = &[
    (Status::Ok, 0, b""),
    (Status::Usage { word: 1 }, 2, b"usage: word 1"),
    (
        Status::BadInput { line: 3, kind: 6 },
        3,
        b"bad input: line 3: fault 6",
    ),
    (
        Status::BadInput {
            line: u64::MAX,
            kind: u8::MAX,
        },
        3,
        b"bad input: line 18446744073709551615: fault 255",
    ),
    (
        Status::TooLarge {
            line: 0,
            bound: 16_777_216,
        },
        4,
        b"too large: limit 16777216",
    ),
    (
        Status::Budget {
            created: 20,
            limit: 19,
        },
        5,
        b"budget: more than 19 tasks",
    ),
    (
        Status::Budget {
            created: 1,
            limit: 0,
        },
        5,
        b"budget: more than 0 tasks",
    ),
    (Status::ReadFault, 6, b"read fault"),
    (Status::WriteFault, 7, b"write fault"),
    (Status::NoMemory, 8, b"no memory"),
];

/// Whether a status has this code and this line, behind which nothing is written.
fn is_told(status: &Status, code: u8, text: &[u8]) -> bool {
    let mut line = [b'.'; 64];
    let len = fault_line(status, &mut line);
    if len > 64 || &line[..len] != text {
        return false;
    }
    status.code() == code && line[len..].iter().all(|byte| *byte == b'.')
}

#[test]
fn tells_each_status(rt: HostRuntime) {
    for (status, code, text) in STATUSES {
        assert!(rt; is_told(status, *code, text), "{code}");
    }
}
