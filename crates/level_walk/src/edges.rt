//! Where the edges of each vertex stand among all of them.

ghost use Rattle.std.specs.Prelude.{◌≡◌, ◌-◌, ◌<◌, ◌≤◌, ◌^◌, length, take, drop, IfOk};
ghost use Rattle.std.specs.List.Sorted.{IsNonDecreasingBy};
ghost use Rattle.mtx_reader.specs.Places.{Place};
ghost use Rattle.level_walk.specs.Edges.{edge_ends, edges_to};

use kdg_text::NoRoom;
use std::alloc::Global;

/// For each number from 0 to that of the last vertex, how many edges begin at a vertex up to it. The
/// edges stand in the order of the vertices at which they begin.
pub(crate) fn edge_ends(
    alloc: Global,
    edges: &[(u32, u32)],
    vertices: u32,
) -> Result<Vec<u32>, NoRoom>
    requires vertices { vertices ≤ 4096 }
    requires few { length edges.now < 2 ^ 32 }
    requires in_order { IsNonDecreasingBy (λ (edge : Place). edge.0) edges.now }
    ensures { IfOk result (λ ends. ends.items ≡ edge_ends edges.now vertices) }
{
    let mut ends = Vec::new(alloc);
    for vertex in 0..vertices + 1 {
        ends.push(edges_to(edges, vertex))?;
    }
    Ok(ends)
}

/// How many of the edges begin at a vertex up to this one.
fn edges_to(edges: &[(u32, u32)], vertex: u32) -> u32
    requires few { length edges.now < 2 ^ 32 }
    requires in_order { IsNonDecreasingBy (λ (edge : Place). edge.0) edges.now }
    ensures { result ≡ edges_to edges.now vertex }
{
    edges.partition_point(|edge| edge.0 <= vertex) as u32
}

/// The edges from one place up to another.
pub(crate) fn edges_between(edges: &[(u32, u32)], first: usize, last: usize) -> &[(u32, u32)]
    requires order { first ≤ last }
    requires end { last ≤ length edges.now }
    ensures { result.now ≡ take (last - first) (drop first edges.now) }
{
    &edges[first..last]
}
