ghost use Rattle.std.specs.Prelude.{◌≡◌, ◌<◌, ℕ, Some};
ghost use Rattle.rw_sets.specs.Accesses.{IsAscending, access_at};
ghost use Rattle.kdg_graph.specs.Exchange.{is_same, lacking};
ghost use Rattle.kdg_graph.specs.Fronts.{fronts_after};
ghost use Rattle.kdg_graph.specs.Locations.{AreFiled};
ghost use Rattle.kdg_graph.specs.Nodes.{IsGraph, ids_of};
ghost use Rattle.kdg_graph.specs.Selected.{AreRefreshed, AreSome};

use crate::locations::Locations;
use crate::ordered_nodes::OrderedNodes;
use crate::source_lane::SourceLane;
use rw_sets::{Access, RwSet};
use task_order::Key;

/// A walk over the pairs of a set, in which ascending locations are looked up.
#[derive(Drop)]
pub(crate) struct SetWalk<'s> {
    left: &'s [(u32, Access)],
}

impl<'s> SetWalk<'s> {
    /// A walk from the first location on.
    pub(crate) fn new(set: &'s RwSet) -> SetWalk<'s>
        ensures all { result.left.now ≡ set.now }
        ensures ascending { IsAscending result.left.now }
    {
        SetWalk { left: set.items() }
    }

    /// Whether the set has this access to a location, which is beyond each that was looked up before.
    pub(crate) fn has(&mut self, loc: u32, access: Access) -> bool
        requires { IsAscending self.old.left.now }
        ensures found { result ≡ is_same (Some access) (access_at self.old.left.now loc) }
        ensures ascending { IsAscending self.new.left.now }
        ensures beyond { (other : ℕ) → loc < other → access_at self.new.left.now other ≡ access_at self.old.left.now other }
    {
        while let [pair, rest @ ..] = self.left {
            if loc < pair.0 {
                return false;
            }
            self.left = rest;
            if pair.0 == loc {
                return pair.1.is_write() == access.is_write();
            }
        }
        false
    }
}

/// Refreshes the nodes of the fronts behind a key at the locations where a set has an access that
/// another lacks.
pub(crate) fn refresh_lacking(
    sources: &mut SourceLane,
    nodes: &OrderedNodes,
    locations: &Locations,
    set: &RwSet,
    other: &RwSet,
    key: &Key,
)
    requires graph { IsGraph nodes.now.nodes }
    requires filed { AreFiled nodes.now.nodes locations.now.locations.items }
    requires some { AreSome nodes.now.nodes sources.old }
    ensures { AreRefreshed nodes.now.nodes (ids_of (fronts_after (lacking set.now other.now) key.now nodes.now.nodes)) sources.old sources.new }
{
    let mut walk = SetWalk::new(other);
    for pair in set.items() {
        if walk.has(pair.0, pair.1) {
            continue;
        }
        sources.refresh_front(nodes, locations, pair.0, pair.1, key, false);
    }
}
