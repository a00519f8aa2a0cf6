//! How many visits go to one vertex.

ghost use Rattle.std.specs.Prelude.{◌≤◌, length, IfOk};
ghost use Rattle.std.specs.List.{AllByRecursion};
ghost use Rattle.level_search.specs.Counts.{IsMost};
ghost use Rattle.level_search.specs.Turns.{IsVertexOf};

use kdg_text::NoRoom;
use std::alloc::Global;

/// The most visits among these that go to one vertex.
pub(crate) fn most_to_one(alloc: Global, count: u32, vertices: &[u32]) -> Result<u64, NoRoom>
    requires vertices { AllByRecursion (IsVertexOf count) vertices.now }
    requires few { length vertices.now ≤ 1_000_000_000 }
    ensures { IfOk result (λ most. IsMost vertices.now most) }
{
    let mut visits = Vec::from_elem(alloc, 0u64, count as usize)?;
    let mut most = 0u64;
    for vertex in vertices {
        let loc = *vertex as usize - 1;
        visits[loc] += 1;
        most = most.max(visits[loc]);
    }
    Ok(most)
}
