//! Patterns of matrices, and the faults of what is none.

use super::rows::expect;
use kdg_text::{Fault, ReadFail, Text, push_u64};
use mtx_reader::{Pattern, read_mtx};
use std::alloc::Global;
use std::test::Fail;

/// The pattern as text: its numbers of rows and columns, and a piece for each place.
fn shown(alloc: Global, pattern: &Pattern) -> Result<Text, Fail> {
    let mut text = Text::new(alloc);
    push_u64(&mut text, u64::from(pattern.rows))?;
    text.push_byte(b' ')?;
    push_u64(&mut text, u64::from(pattern.cols))?;
    for (row, column) in pattern.places.items() {
        text.push_byte(b'|')?;
        push_u64(&mut text, u64::from(*row))?;
        text.push_byte(b' ')?;
        push_u64(&mut text, u64::from(*column))?;
    }
    Ok(text)
}

/// An input with this banner's last two words, and these lines below the banner.
fn below_banner(alloc: Global, words: &str, lines: &str) -> Result<Text, Fail> {
    let mut text = Text::new(alloc);
    text.push_all(b"%%MatrixMarket matrix coordinate ")?;
    text.push_all(words.as_bytes())?;
    text.push_byte(b'\n')?;
    text.push_all(lines.as_bytes())?;
    Ok(text)
}

fn is_read_as(alloc: Global, input: &[u8], want: &str) -> Result<bool, Fail> {
    let Ok(pattern) = read_mtx(alloc, input) else {
        return Ok(false);
    };
    Ok(shown(alloc, &pattern)?.bytes() == want.as_bytes())
}

fn is_refused(alloc: Global, input: &[u8], line: u64, kind: u8, bound: u64) -> bool {
    let fault = Fault { line, kind, bound };
    read_mtx(alloc, input).err() == Some(ReadFail::Bad(fault))
}

/// The last words of a banner, the lines below it, and what both are read as.
const PATTERNS: &[(&str, &str, &str)] = &[
    (
        "pattern general",
        "3 3 5\n1 1\n1 2\n2 1\n2 3\n3 3",
        "3 3|1 1|1 2|2 1|2 3|3 3",
    ),
    ("pattern general", "0 0 0", "0 0"),
    ("pattern general", "4096 4096 0\n", "4096 4096"),
    ("pattern general", "2 3 0\r\n%\n", "2 3"),
    // twice the same place, in any order
    (
        "pattern general",
        "2 2 4\n2 2\n1 2\n2 2\n1 1\n",
        "2 2|1 1|1 2|2 2",
    ),
    // blank lines, comments, tabs, carriage returns and leading zeros
    (
        "pattern general",
        "%c\n\n \t\n\t02 2 1\r\n%1 1\n 001\t2 \r\n%\r\n",
        "2 2|1 2",
    ),
    // a place at each edge of the greatest matrix
    (
        "pattern general",
        "4096 4096 2\n4096 1\n1 4096",
        "4096 4096|1 4096|4096 1",
    ),
    (
        "pattern symmetric",
        "% c\n3 3 2\n2 1\n3 2",
        "3 3|1 2|2 1|2 3|3 2",
    ),
    // on, above and below the diagonal, and both of a pair
    (
        "pattern symmetric",
        "3 3 4\n2 2\n1 3\n3 1\n2 1",
        "3 3|1 2|1 3|2 1|2 2|3 1",
    ),
    ("pattern symmetric", "0 0 0", "0 0"),
    (
        "integer general",
        "2 2 4\n1 1 3\n1 2 2\n2 2 -1\n2 2 2",
        "2 2|1 1|2 2",
    ),
    ("integer general", "0 0 0", "0 0"),
    // three of a place, apart and in any order, and two of another
    (
        "integer general",
        "2 2 5\n2 1 1\n1 2 1\n2 1 1\n1 2 3\n2 1 1",
        "2 2|2 1",
    ),
    // zeros, and the sign of an odd number
    (
        "integer general",
        "1 4 4\n1 1 0\n1 2 -0\n1 3 -1\n1 4 -001",
        "1 4|1 3|1 4",
    ),
    // the least and the greatest value, whose sum is odd, and twice the greatest
    (
        "integer general",
        "1 2 4\n1 1 -9223372036854775808\n1 1 9223372036854775807\n1 2 9223372036854775807\n1 2 9223372036854775807",
        "1 2|1 1",
    ),
    // blank lines, comments, tabs, carriage returns and leading zeros
    (
        "integer general",
        "%c\n\n\t02 2 1\r\n%1 1 1\n 001\t2 03 \r\n%\r\n",
        "2 2|1 2",
    ),
    // three numbers are a size and an entry, each at its place
    ("integer general", "1 1 1\n1 1 1", "1 1|1 1"),
    (
        "integer symmetric",
        "2 2 2\n2 1 1\n1 1 1",
        "2 2|1 1|1 2|2 1",
    ),
    // both sides of the diagonal, which cancel
    ("integer symmetric", "2 2 2\n1 2 1\n2 1 1", "2 2"),
    // the diagonal, once and twice
    ("integer symmetric", "1 1 1\n1 1 1", "1 1|1 1"),
    ("integer symmetric", "1 1 2\n1 1 1\n1 1 1", "1 1"),
    (
        "integer symmetric",
        "3 3 3\n3 1 2\n2 3 -3\n1 3 2",
        "3 3|2 3|3 2",
    ),
];

#[test]
fn patterns(rt: HostRuntime) -> Result<(), Fail> {
    let alloc = rt.alloc();
    for &(words, lines, want) in PATTERNS {
        let input = below_banner(alloc, words, lines)?;
        expect(&rt, is_read_as(alloc, input.bytes(), want)?, lines);
    }
    Ok(())
}

/// Inputs with a banner in letters of any case, and what they are read as.
const BANNERS: &[(&str, &str)] = &[
    (
        "\t%%MatrixMarket  MATRIX Coordinate PATTERN General \r\n1 1 1\n1 1",
        "1 1|1 1",
    ),
    (
        "%%MatrixMarket matrix coordinate InTeGeR symmetric\n1 1 1\n1 1 -1",
        "1 1|1 1",
    ),
];

/// Inputs whose banner is refused, with the kind of the fault.
const BAD_BANNERS: &[(&str, u8)] = &[
    ("", 1),
    ("\n", 1),
    ("% c\n%%MatrixMarket matrix coordinate pattern general", 1),
    ("%%MatrixMarket matrix coordinate pattern", 1),
    ("%%MatrixMarket matrix coordinate pattern general x", 1),
    ("%%matrixmarket matrix coordinate pattern general", 1),
    ("%%MatrixMarket vector coordinate pattern general", 1),
    ("%%MatrixMarket matrix dense pattern general", 1),
    ("%%MatrixMarket matrix coordinate boolean general", 1),
    ("%%MatrixMarket matrix coordinate pattern upper", 1),
    // a word that is known at another place alone
    ("%%MatrixMarket matrix real pattern general", 1),
    ("%%MatrixMarket matrix coordinate array general", 1),
    ("%%MatrixMarket matrix coordinate pattern real", 1),
    ("%%MatrixMarket matrix ARRAY pattern general", 2),
    ("%%MatrixMarket matrix coordinate real general", 2),
    ("%%MatrixMarket matrix coordinate Complex general", 2),
    ("%%MatrixMarket matrix coordinate integer hermitian", 2),
    ("%%MatrixMarket matrix coordinate integers general", 1),
    ("%%MatrixMarket matrix integer integer general", 1),
    ("%%MatrixMarket matrix array integer general", 2),
    ("%%MatrixMarket matrix coordinate pattern Skew-Symmetric", 2),
    ("%%MatrixMarket matrix coordinate pattern hermitian", 2),
    // the number of words comes first, and then the words from left to right
    ("%%MatrixMarket matrix array", 1),
    ("%%MatrixMarket vector array real hermitian", 1),
    ("%%MatrixMarket matrix array boolean upper", 2),
    ("%%MatrixMarket matrix coordinate real upper", 2),
    ("%%MatrixMarket matrix coordinate boolean hermitian", 1),
    // before any fault below
    ("%%MatrixMarket matrix coordinate real general\nx", 2),
];

#[test]
fn banners(rt: HostRuntime) -> Result<(), Fail> {
    let alloc = rt.alloc();
    for &(input, want) in BANNERS {
        expect(&rt, is_read_as(alloc, input.as_bytes(), want)?, input);
    }
    for &(input, kind) in BAD_BANNERS {
        expect(&rt, is_refused(alloc, input.as_bytes(), 1, kind, 0), input);
    }
    Ok(())
}

/// The last words of a banner, the lines below it, and the line and the kind of their fault.
const FAULTS: &[(&str, &str, u64, u8)] = &[
    // the size
    ("pattern general", "", 2, 3),
    ("pattern general", "% c\n\n", 4, 3),
    ("pattern general", "1 1", 2, 3),
    ("pattern general", "1 1 1 1", 2, 3),
    ("pattern general", "1 1 x", 2, 3),
    ("pattern general", "-1 1 1", 2, 3),
    ("pattern general", "1 1 18446744073709551616", 2, 3),
    ("pattern symmetric", "2 3 0", 2, 3),
    // entries
    ("pattern general", "2 2 1\n1", 3, 4),
    ("pattern general", "2 2 1\n1 1 1", 3, 4),
    ("pattern general", "2 2 1\n1 x", 3, 4),
    ("pattern general", "2 2 1\n +1 1", 3, 4),
    ("pattern general", "2 2 1\n0 1", 3, 5),
    ("pattern general", "2 2 1\n1 0", 3, 5),
    ("pattern general", "2 2 1\n3 1", 3, 5),
    ("pattern general", "2 2 1\n1 3", 3, 5),
    ("pattern general", "0 0 1\n1 1", 3, 5),
    // their number
    ("pattern general", "2 2 3\n1 1\n2 2", 5, 6),
    ("pattern general", "1 1 1000000", 3, 6),
    ("pattern general", "2 2 1\n1 1\n% c\n2 2", 5, 7),
    ("pattern general", "2 2 0\nx", 3, 7),
    ("pattern general", "2 2 0\n3 3", 3, 7),
    // what a line has first, and the first line that has any
    ("pattern symmetric", "5000 1 0", 2, 3),
    ("pattern general", "2 2 2\n1 1 1\n3 3", 3, 4),
    ("pattern general", "2 2 3\n3 3\nx", 3, 5),
    ("pattern general", "2 2 3\n1 1\nx", 4, 4),
    // the size
    ("integer general", "1 1", 2, 3),
    ("integer general", "1 1 -1", 2, 3),
    ("integer symmetric", "2 3 0", 2, 3),
    // entries
    ("integer general", "1 1 1\n1 1", 3, 4),
    ("integer general", "1 1 1\n1 1 1 1", 3, 4),
    ("integer general", "1 1 1\n1 x 1", 3, 4),
    ("integer general", "1 1 1\n-1 1 1", 3, 4),
    ("integer general", "1 1 1\n1 1 1.0", 3, 4),
    ("integer general", "1 1 1\n1 1 +1", 3, 4),
    ("integer general", "1 1 1\n1 1 -", 3, 4),
    ("integer general", "1 1 1\n1 1 9223372036854775808", 3, 4),
    ("integer general", "1 1 1\n1 1 -9223372036854775809", 3, 4),
    ("integer general", "1 1 1\n1 1 18446744073709551615", 3, 4),
    ("integer general", "2 2 1\n3 1 2", 3, 5),
    ("integer general", "2 2 1\n1 0 2", 3, 5),
    // their number
    ("integer general", "2 2 3\n1 1 2\n2 2 1", 5, 6),
    ("integer general", "2 2 1\n1 1 2\n2 2 1", 4, 7),
    ("integer general", "2 2 0\n3 3", 3, 7),
    // what a line has first, and the first line that has any
    ("integer general", "2 2 2\n3 3\n3 3 1", 3, 4),
    ("integer general", "2 2 2\n3 3 1\nx", 3, 5),
];

#[test]
fn faults_below_the_banner(rt: HostRuntime) -> Result<(), Fail> {
    let alloc = rt.alloc();
    for &(words, lines, line, kind) in FAULTS {
        let input = below_banner(alloc, words, lines)?;
        expect(&rt, is_refused(alloc, input.bytes(), line, kind, 0), lines);
    }
    Ok(())
}

/// The last words of a banner, the lines below it, the line of their fault, and the bound.
const LIMITS: &[(&str, &str, u64, u64)] = &[
    ("pattern general", "4097 1 0", 2, 4096),
    ("pattern general", "1 4097 0", 2, 4096),
    ("pattern general", "% c\n1 1 1000001", 3, 1_000_000),
    ("pattern general", "4097 1 1000001\nx", 2, 4096),
    ("pattern general", "1 4097 1000001", 2, 4096),
    ("pattern symmetric", "4097 4097 0", 2, 4096),
    ("integer general", "1 1 18446744073709551615", 2, 1_000_000),
];

#[test]
fn limits(rt: HostRuntime) -> Result<(), Fail> {
    let alloc = rt.alloc();
    for &(words, lines, line, bound) in LIMITS {
        let input = below_banner(alloc, words, lines)?;
        expect(&rt, is_refused(alloc, input.bytes(), line, 8, bound), lines);
    }
    Ok(())
}
