//! Meshes that move.

ghost use Rattle.std.specs.Prelude.{◌≤◌, IfOk};
ghost use Rattle.cell_store.specs.Values.{AreAllHome, values_of};
ghost use Rattle.spring_mesh.specs.Meaning.{IsFitCells};

use super::rows::expect;
use app_laws::{Finals, SerialFault, serial};
use cell_store::{Held, value_laws};
use kdg_text::push_u64;
use spring_mesh::{Mesh, MeshNode, read_mesh};
use std::alloc::Global;
use std::test::Fail;
use task_order::{Body, Start};

/// The two nodes and the spring of the first example.
const ONE_SPRING: &str = "node 0 0 0 0 100\nnode 30 0 0 0 100\nspring 1 2 10 20 0 2\nend 4";

fn mesh_of(alloc: Global, input: &[u8]) -> Result<Mesh, Fail> {
    Ok(Mesh::new(alloc, read_mesh(alloc, input)?))
}

/// What a serial run of a mesh leaves.
fn run(alloc: Global, mesh: &Mesh, budget: u64) -> Result<Finals<MeshNode>, SerialFault>
    requires { budget ≤ 1_000_000_000 }
    ensures home { IfOk result (λ finals. AreAllHome finals.store) }
    ensures fit { IfOk result (λ finals. IsFitCells mesh.now (values_of finals.store)) }
{
    value_laws::<MeshNode>();
    serial(
        alloc,
        mesh,
        mesh.first_cells()?,
        mesh.first_tasks()?,
        budget,
    )
}

/// Whether these are the final nodes and the number of tasks. No task writes a line.
fn comes_to(alloc: Global, input: &str, want: &str) -> Result<bool, Fail> {
    let mesh = mesh_of(alloc, input.as_bytes())?;
    let finals = run(alloc, &mesh, 1000)?;
    let mut text = mesh.print_finals(&finals.store)?;
    text.push_all(b"tasks ")?;
    push_u64(&mut text, finals.count)?;
    Ok(text.bytes() == want.as_bytes() && finals.text.is_empty())
}

/// Meshes, and what their nodes come to, worked out by a plain program in whole numbers of any size.
const MOVES: &[(&str, &str)] = &[
    (ONE_SPRING, "node 1 4 0 2 0\nnode 2 26 0 -2 0\ntasks 2"),
    // rounded towards minus infinity
    (
        "node 0 0 0 0 3\nnode 10 0 0 0 3\nspring 1 2 1 20 0 1\nend 1",
        "node 1 0 0 -4 0\nnode 2 10 0 4 0\ntasks 1",
    ),
    ("end 7", "tasks 0"),
    ("node 1 2 3 -4 5\nend 10", "node 1 31 -38 3 -4\ntasks 0"),
    // a first step behind the end, and one at the end
    (
        "node 0 0 1 0 1\nnode 9 0 0 0 1\nspring 1 2 1 0 0 6\nspring 2 1 1 0 0 5\nend 5",
        "node 1 5 0 21 0\nnode 2 9 0 -20 0\ntasks 1",
    ),
    // several masses and periods, and springs that share nodes
    (
        "node 0 0 1 0 3\nnode 10 5 0 -2 7\nnode -7 11 0 0 2\nspring 1 2 1 4 1 2\nspring 2 3 5 -3 2 3\nspring 3 1 2 0 0 5\nend 9",
        "node 1 -1149 848 -2150 1604\nnode 2 -2709 2019 29703 -22116\nnode 3 11251 -8374 -100734 74993\ntasks 8",
    ),
    // two springs at the same times, one of them the other way round
    (
        "node 0 0 0 0 2\nnode 9 -9 0 0 3\nspring 1 2 3 4 -4 2\nspring 2 1 5 -3 3 2\nend 6",
        "node 1 -2130 2130 27335 -27335\nnode 2 1429 -1429 -18224 18223\ntasks 6",
    ),
    (
        "node 0 0 0 0 100\nnode 30 0 0 0 100\nnode 0 50 0 0 100\nnode 30 50 0 0 100\nspring 1 2 10 20 0 2\nspring 3 4 10 20 0 2\nend 4",
        "node 1 4 0 2 0\nnode 2 26 0 -2 0\nnode 3 4 50 2 0\nnode 4 26 50 -2 0\ntasks 4",
    ),
];

#[test]
fn meshes_move(rt: HostRuntime) -> Result<(), Fail> {
    for &(input, want) in MOVES {
        expect(&rt, comes_to(rt.alloc(), input, want)?, input);
    }
    Ok(())
}

/// Meshes at the ends of all ranges, and what the same program makes of them.
const CLAMPED: &[(&str, &str)] = &[
    (
        "node -1099511627776 1099511627776 -1099511627776 1099511627776 1\nnode 1099511627776 -1099511627776 1099511627776 -1099511627776 1\nspring 1 2 1000000 -1099511627776 1099511627776 1000000000\nend 1000000000",
        "node 1 -1099511627776 1099511627776 1099511627776 -1099511627776\nnode 2 1099511627776 -1099511627776 -1099511627776 1099511627776\ntasks 1",
    ),
    (
        "node 1099511627776 -1099511627776 1099511627776 -1099511627776 1\nnode -1099511627776 1099511627776 -1099511627776 1099511627776 1\nspring 1 2 1000000 1099511627776 -1099511627776 1000000000\nend 1000000000",
        "node 1 1099511627776 -1099511627776 -1099511627776 1099511627776\nnode 2 -1099511627776 1099511627776 1099511627776 -1099511627776\ntasks 1",
    ),
    // a clamped place counts for the pull, and a clamped speed for the next place
    (
        "node 1099511627770 0 10 0 1\nnode 1099511627776 0 0 0 1\nspring 1 2 1 0 0 1\nend 1",
        "node 1 1099511627776 0 10 0\nnode 2 1099511627776 0 0 0\ntasks 1",
    ),
    (
        "node 0 0 0 0 1\nnode 1099511627776 -1099511627776 0 0 1\nspring 1 2 1000000 0 0 1\nend 3",
        "node 1 0 0 1099511627776 -1099511627776\nnode 2 1099511627776 -1099511627776 -1099511627776 1099511627776\ntasks 3",
    ),
];

#[test]
fn places_and_speeds_are_clamped(rt: HostRuntime) -> Result<(), Fail> {
    for &(input, want) in CLAMPED {
        expect(&rt, comes_to(rt.alloc(), input, want)?, input);
    }
    Ok(())
}

#[test]
fn meshes_begin_with_their_nodes_and_first_steps(rt: HostRuntime) -> Result<(), Fail> {
    let alloc = rt.alloc();
    let mesh = mesh_of(alloc, ONE_SPRING.as_bytes())?;
    let second = MeshNode {
        x: 30,
        y: 0,
        vx: 0,
        vy: 0,
        time: 0,
    };
    let first = MeshNode { x: 0, ..second };
    assert!(rt; mesh.first_cells()?.as_slice() == [first, second].as_slice());
    assert!(rt; second.copy()? == second);
    let step = Start {
        prio: 2,
        body: Body {
            kind: 0,
            at: 0,
            arg: 0,
        },
    };
    assert!(rt; mesh.first_tasks()?.items() == [step].as_slice());
    Ok(())
}
