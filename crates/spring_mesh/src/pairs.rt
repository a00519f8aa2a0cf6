ghost use Rattle.std.specs.Prelude.{◌≡◌, ◌≤◌, ◌<◌, IfOk, OnOk};
ghost use Rattle.spring_mesh.specs.Files.{IsMesh};
ghost use Rattle.spring_mesh.specs.Pairs.{generated_input, most_pairs, pair_spring, resting_at, with_pair};

use crate::{MassList, MeshFile, MeshNode, MeshNodeList, Spring, SpringList};
use kdg_text::NoRoom;
use std::alloc::Global;

/// The mass of each node.
const MASS: i64 = 100;

/// A mesh of `n` pairs of nodes, from 1 to 2,048, each with a spring of its own that is longer than
/// at rest. It ends at time 4, when each spring has made two steps.
pub fn pair_mesh(alloc: Global, n: u32) -> Result<MeshFile, NoRoom>
    requires some { 1 ≤ n }
    requires few { n ≤ most_pairs }
    ensures file { IfOk result (λ file. file ≡ generated_input n) }
    ensures sound { IfOk result IsMesh }
{
    let mut file = MeshFile {
        nodes: MeshNodeList::new(alloc),
        masses: MassList::new(alloc),
        springs: SpringList::new(alloc),
        end: 4,
    };
    for pair in 0..n {
        push_pair(&mut file, pair)?;
    }
    Ok(file)
}

/// Adds the nodes and the spring of a pair, which lies above those before it.
fn push_pair(file: &mut MeshFile, pair: u32) -> Result<(), NoRoom>
    requires { pair < most_pairs }
    ensures { OnOk result (file.new ≡ with_pair file.old pair) }
{
    let y = 50 * pair;
    file.nodes.push(resting_at(0, y))?;
    file.nodes.push(resting_at(30, y))?;
    file.masses.push(MASS)?;
    file.masses.push(MASS)?;
    file.springs.push(pair_spring(pair))
}

/// A node that doesn't move.
fn resting_at(x: u32, y: u32) -> MeshNode
    ensures { result ≡ resting_at x y }
{
    MeshNode {
        x: i64::from(x),
        y: i64::from(y),
        vx: 0,
        vy: 0,
        time: 0,
    }
}

/// The spring between the nodes of a pair.
fn pair_spring(pair: u32) -> Spring
    requires { pair < most_pairs }
    ensures { result ≡ pair_spring pair }
{
    Spring {
        a: 2 * pair,
        b: 2 * pair + 1,
        k: 10,
        rx: 20,
        ry: 0,
        h: 2,
    }
}
