ghost use Rattle.std.specs.Prelude.{◌≡◌, OnOk};
ghost use Rattle.kdg_graph.specs.Locations.{HasMoreFor, HaveSameLanes, reserved_of};
ghost use Rattle.kdg_graph.specs.Rewrite.{changed_sets, fresh_sets};

use crate::locations::Locations;
use crate::{Fresh, SetChange};
use kdg_text::NoRoom;

/// Makes room for one more node for each changed set, at each of its locations.
pub(crate) fn reserve_changed(
    locations: &mut Locations,
    changed: &[SetChange],
) -> Result<(), NoRoom>
    ensures room { OnOk result (HasMoreFor (changed_sets changed.now) (reserved_of locations.old.reservation locations.old.locations.items) (reserved_of locations.new.reservation locations.new.locations.items)) }
    ensures number { locations.new.reservation ≡ locations.old.reservation }
    ensures lanes { HaveSameLanes locations.old.locations.items locations.new.locations.items }
{
    for change in changed {
        locations.reserve(&change.set)?;
    }
    Ok(())
}

/// Makes room for one more node for each fresh set, at each of its locations.
pub(crate) fn reserve_fresh(locations: &mut Locations, fresh: &[Fresh]) -> Result<(), NoRoom>
    ensures room { OnOk result (HasMoreFor (fresh_sets fresh.now) (reserved_of locations.old.reservation locations.old.locations.items) (reserved_of locations.new.reservation locations.new.locations.items)) }
    ensures number { locations.new.reservation ≡ locations.old.reservation }
    ensures lanes { HaveSameLanes locations.old.locations.items locations.new.locations.items }
{
    for item in fresh {
        locations.reserve(&item.set)?;
    }
    Ok(())
}
