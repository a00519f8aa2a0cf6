//! Meshes, and the faults of what is none.

use super::rows::{expect, push_pieces};
use kdg_text::{Fault, ReadFail, Text, push_i64, push_u64};
use spring_mesh::{MeshFile, read_mesh};
use std::alloc::Global;
use std::test::Fail;

/// The mesh as text: a piece for each node with its mass, one for each spring, and the end.
fn shown(alloc: Global, file: &MeshFile) -> Result<Text, Fail> {
    let mut text = Text::new(alloc);
    for (node, mass) in file.nodes.items().iter().zip(file.masses.items()) {
        for number in [node.x, node.y, node.vx, node.vy, *mass] {
            push_i64(&mut text, number)?;
            text.push_byte(b' ')?;
        }
        push_u64(&mut text, node.time)?;
        text.push_byte(b'|')?;
    }
    for spring in file.springs.items() {
        for end in [spring.a, spring.b] {
            push_u64(&mut text, u64::from(end))?;
            text.push_byte(b' ')?;
        }
        for number in [spring.k, spring.rx, spring.ry] {
            push_i64(&mut text, number)?;
            text.push_byte(b' ')?;
        }
        push_u64(&mut text, spring.h)?;
        text.push_byte(b'|')?;
    }
    text.push_all(b"end ")?;
    push_u64(&mut text, file.end)?;
    Ok(text)
}

fn is_read_as(alloc: Global, input: &str, want: &str) -> Result<bool, Fail> {
    let Ok(file) = read_mesh(alloc, input.as_bytes()) else {
        return Ok(false);
    };
    Ok(shown(alloc, &file)?.bytes() == want.as_bytes())
}

fn is_refused(alloc: Global, input: &[u8], line: u64, kind: u8, bound: u64) -> bool {
    let fault = Fault { line, kind, bound };
    read_mesh(alloc, input).err() == Some(ReadFail::Bad(fault))
}

/// Meshes, and what each is read as.
const MESHES: &[(&str, &str)] = &[
    ("end 0", "end 0"),
    (
        "# nothing\n\n \t\r\nend 1000000000 # and no more\n\n#\n\r",
        "end 1000000000",
    ),
    (
        "node 0 0 0 0 100\nnode 30 0 0 0 100\nspring 1 2 10 20 0 2\nend 4",
        "0 0 0 0 100 0|30 0 0 0 100 0|0 1 10 20 0 2|end 4",
    ),
    // tabs, free spaces, ends of lines, zeros in front, a minus before zero, and a comment right behind
    (
        "\tnode -0 007\t-01  1 0001#x\r\nnode 5 6 7 8 1000000\r\nspring  2 01 0 -3 4 1000000000\r\nend 00\r",
        "0 7 -1 1 1 0|5 6 7 8 1000000 0|1 0 0 -3 4 1000000000|end 0",
    ),
    // the ends of all ranges
    (
        "node 1099511627776 -1099511627776 -1099511627776 1099511627776 1\nnode 0 0 0 0 1\nspring 1 2 1000000 1099511627776 -1099511627776 1\nend 1",
        "1099511627776 -1099511627776 -1099511627776 1099511627776 1 0|0 0 0 0 1 0|0 1 1000000 1099511627776 -1099511627776 1|end 1",
    ),
];

#[test]
fn meshes(rt: HostRuntime) -> Result<(), Fail> {
    for &(input, want) in MESHES {
        expect(&rt, is_read_as(rt.alloc(), input, want)?, input);
    }
    Ok(())
}

/// Inputs that are none, with the line and the kind of the fault: each fault alone, and beside those that
/// come before it.
const FAULTS: &[(&str, u64, u8)] = &[
    // none of the forms
    ("\nnodes 0 0 0 0 1", 2, 1),
    ("Node 0 0 0 0 1", 1, 1),
    ("node 0 0 0 0", 1, 1),
    ("node 0 0 0 0 1 1", 1, 1),
    ("node x 0 0 0", 1, 1),
    ("spring 1 2 1 0 0", 1, 1),
    ("spring 1 2 1 0 0 1 1", 1, 1),
    ("end", 1, 1),
    ("end 1 1", 1, 1),
    ("1", 1, 1),
    // behind the end
    ("end 1\n\nend 1", 3, 1),
    ("end 1\n# x\nnode x 0 0 0 1", 3, 1),
    ("end 1\nspring 1 1 1 0 0 1", 2, 1),
    // no number, or out of range
    ("node 0 y 0 0 1", 1, 2),
    ("node +1 0 0 0 1", 1, 2),
    ("node 1.5 0 0 0 1", 1, 2),
    ("node 1099511627777 0 0 0 1", 1, 2),
    ("node 0 0 -1099511627777 0 1", 1, 2),
    ("node 0 0 0 9223372036854775808 1", 1, 2),
    ("node 0 0 0 0 0", 1, 2),
    ("node 0 0 0 0 -1", 1, 2),
    ("node 0 0 0 0 1000001", 1, 2),
    ("spring x 1 1 0 0 1", 1, 2),
    ("spring 1 -1 1 0 0 1", 1, 2),
    ("spring 1 1 -1 0 0 1", 1, 2),
    ("spring 1 1 1000001 0 0 1", 1, 2),
    ("spring 1 1 1 1099511627777 0 1", 1, 2),
    ("spring 1 1 1 0 x 1", 1, 2),
    ("spring 1 1 1 0 0 0", 1, 2),
    ("spring 1 1 1 0 0 1000000001", 1, 2),
    ("end 1000000001", 1, 2),
    ("end -0", 1, 2),
    // ends that are no two nodes of earlier lines
    ("node 0 0 0 0 1\nnode 0 0 0 0 1\nspring 0 2 1 0 0 1", 3, 3),
    (
        "node 0 0 0 0 1\nnode 0 0 0 0 1\nspring 1 3 1 0 0 1\nnode 0 0 0 0 1",
        3,
        3,
    ),
    (
        "node 0 0 0 0 1\nspring 18446744073709551615 1 1 0 0 1",
        2,
        3,
    ),
    ("node 0 0 0 0 1\nnode 0 0 0 0 1\nspring 2 2 1 0 0 1", 3, 3),
    // no end
    ("", 1, 5),
    ("node 0 0 0 0 1", 2, 5),
    ("node 0 0 0 0 1\n\n# end 1\n", 4, 5),
    ("\n\r", 3, 5),
    // the first of several lines
    ("end x\nend 1\nend 1", 1, 2),
];

#[test]
fn faults(rt: HostRuntime) {
    for &(input, line, kind) in FAULTS {
        expect(
            &rt,
            is_refused(rt.alloc(), input.as_bytes(), line, kind, 0),
            input,
        );
    }
}

/// A line of a node.
const NODE: &str = "node 0 0 0 0 1\n";

/// A line of a spring.
const SPRING: &str = "spring 1 2 1 0 0 1\n";

/// Long inputs by what they are, as lines and how often each stands, with the line, the kind and the bound of the
/// fault.
const LIMITS: &[(&str, &[(&str, usize)], u64, u8, u64)] = &[
    ("nodes up to the limit", &[(NODE, 4096)], 4097, 5, 0),
    ("nodes beyond the limit", &[(NODE, 4097)], 4097, 4, 4096),
    (
        "springs up to the limit",
        &[(NODE, 2), (SPRING, 16384)],
        16387,
        5,
        0,
    ),
    (
        "springs beyond the limit",
        &[(NODE, 2), (SPRING, 16385)],
        16387,
        4,
        16384,
    ),
    (
        "a spring without two ends beyond the limit",
        &[(NODE, 2), (SPRING, 16384), ("spring 1 1 1 0 0 1\n", 1)],
        16387,
        3,
        0,
    ),
];

#[test]
fn limits(rt: HostRuntime) -> Result<(), Fail> {
    for &(row, lines, line, kind, bound) in LIMITS {
        let mut text = Text::new(rt.alloc());
        push_pieces(&mut text, rt.alloc(), lines)?;
        expect(
            &rt,
            is_refused(rt.alloc(), text.bytes(), line, kind, bound),
            row,
        );
    }
    Ok(())
}
