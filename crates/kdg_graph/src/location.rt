ghost use Rattle.std.specs.Prelude.{◌≡◌, ◌≢◌, ◌==◌, ◌+◌, ◌<◌, ◌≤◌, [], length, true, if◌then◌else◌, IfSome, List, OnOk};
ghost use Rattle.rw_sets.specs.declared.access.Access.TheVariants.{Read, Write};
ghost use Rattle.rw_sets.specs.declared.access.Access.{Access};
ghost use Rattle.rw_sets.specs.Accesses.{excludes};
ghost use Rattle.kdg_graph.specs.Fronts.{BlocksNoneAlone};
ghost use Rattle.kdg_graph.specs.Node.{Node};
ghost use Rattle.kdg_graph.specs.Nodes.{HasNode, earlier_than, ids_of, node_at};
ghost use Rattle.kdg_graph.specs.Locations.{IsLaneAmong, ids_for, put_if, reserved_in, room_in, without_if};

use crate::NodeId;
use crate::lane::Lane;
use crate::ordered_nodes::OrderedNodes;
use kdg_text::NoRoom;
use rw_sets::Access;
use std::alloc::Global;
use std::marker::Model;

/// What a node that comes learns of the nodes before and behind it. Where one of these isn't told, it
/// may still be so.
#[derive(Clone, Copy)]
pub(crate) struct Neighbours {
    /// No earlier node is in conflict with it.
    pub(crate) first: bool,
    /// An earlier node is.
    pub(crate) blocked: bool,
    /// Each later node that it may block alone is blocked by an earlier one too, or none is there.
    pub(crate) blocks_none: bool,
}

/// The nodes whose recorded sets name one location, and those of them that write it, in key order.
///
/// Until one comes that only reads, all write: then one list serves for both, and the other one only has
/// the room that it may need.
#[derive(Drop)]
pub(crate) struct Location {
    named: Lane,
    writers: Lane,
    /// Whether those that write stand in their own list.
    apart: bool,
    /// For at least how many more ids the list of all has room.
    spare: u16,
    /// For at least how many more the other list has room behind all that write, in whichever list these
    /// stand.
    spare_writers: u16,
    /// For how many nodes the reservation with this number made room.
    reserved: u32,
    reservation: u32,
}

impl Model for Location {
    ghost use Rattle.kdg_graph.specs.Locations as filed;
    ghost use Rattle.kdg_graph.specs.Locations.{AreLists, room_for_both, writers_in};

    ghost Value = { filed.Location };

    ghost view = { λ l. record {
      named = l.named.ids.items;
      writers = writers_in l.apart l.named.ids.items l.writers.ids.items;
      room = room_for_both l.named.ids.capacity l.named.ids.items l.writers.ids.capacity (writers_in l.apart l.named.ids.items l.writers.ids.items);
      reservation = l.reservation;
      reserved = l.reserved;
    } };

    ghost invariant = { λ l. AreLists l.named l.writers l.apart l.spare l.spare_writers };
}

impl Location {
    /// No nodes, which take no memory.
    pub(crate) fn new(alloc: Global) -> Location
        ensures named { ids_for Write result ≡ [] }
        ensures writers { ids_for Read result ≡ [] }
    {
        Location {
            named: Lane::new(alloc),
            writers: Lane::new(alloc),
            apart: false,
            spare: 0,
            spare_writers: 0,
            reserved: 0,
            reservation: 0,
        }
    }

    /// The nodes that an access clashes with: for a write all, for a read those that write.
    #[inline(always)]
    pub(crate) fn clashing(&self, access: Access) -> &Lane
        ensures { result.now.ids.items ≡ ids_for access self.now }
    {
        if self.apart && !access.is_write() {
            &self.writers
        } else {
            &self.named
        }
    }

    /// Makes room for one more node, besides those for which the reservation with this number made room
    /// here before.
    #[inline(always)]
    pub(crate) fn reserve(&mut self, reservation: u32) -> Result<(), NoRoom>
        ensures room { OnOk result (reserved_in reservation self.old + 1 ≤ reserved_in reservation self.new) }
        ensures number { OnOk result (self.new.reservation ≡ reservation) }
        ensures counted { OnOk result (self.new.reserved ≡ (if self.old.reservation == reservation then self.old.reserved else 0) + 1) }
        ensures named { ids_for Write self.new ≡ ids_for Write self.old }
        ensures writers { ids_for Read self.new ≡ ids_for Read self.old }
    {
        let before = if self.reservation == reservation {
            self.reserved
        } else {
            0
        };
        let reserved = before.checked_add(1).ok_or(NoRoom)?;
        if reserved > u32::from(self.spare) || reserved > u32::from(self.spare_writers) {
            self.reserve_lists(reserved as usize)?;
        }
        self.reservation = reservation;
        self.reserved = reserved;
        Ok(())
    }

    /// Makes room for `additional` more nodes, where the counters may not tell that there is.
    #[inline(never)]
    fn reserve_lists(&mut self, additional: usize) -> Result<(), NoRoom>
        ensures room { OnOk result (additional ≤ room_in self.new) }
        ensures reservation { self.new.reservation ≡ self.old.reservation }
        ensures named { ids_for Write self.new ≡ ids_for Write self.old }
        ensures writers { ids_for Read self.new ≡ ids_for Read self.old }
    {
        // Half as many more, so that room is seldom asked for.
        let ahead = additional.saturating_add(additional / 2);
        self.named.reserve(ahead)?;
        if self.apart {
            self.writers.reserve(ahead)?;
        } else {
            let all = self.named.len().checked_add(ahead).ok_or(NoRoom)?;
            self.writers.reserve(all)?;
        }
        let counted = u16::try_from(ahead).unwrap_or(u16::MAX);
        self.spare = counted;
        self.spare_writers = counted;
        Ok(())
    }

    /// Files a node, where `reserve` made room, and tells what it has before and behind it here. It takes
    /// no memory.
    #[inline(always)]
    pub(crate) fn enter(&mut self, nodes: &OrderedNodes, id: NodeId, access: Access) -> Neighbours
        requires there { HasNode nodes.now.nodes id }
        requires room { 1 ≤ room_in self.old }
        ensures lanes { (other : Access) (some : List Node) → IsLaneAmong nodes.now.nodes some (ids_for other self.old) → IfSome (node_at nodes.now.nodes id) (λ node. ids_for other self.new ≡ ids_of (put_if (excludes other access) node some)) }
        ensures first { (some : List Node) → IsLaneAmong nodes.now.nodes some (ids_for Write self.old) → IfSome (node_at nodes.now.nodes id) (λ node. result.first ≡ true → earlier_than node.task.key some ≡ []) }
        ensures blocked { (some : List Node) → IsLaneAmong nodes.now.nodes some (ids_for Write self.old) → IfSome (node_at nodes.now.nodes id) (λ node. result.blocked ≡ true → (access ≡ Write) × (earlier_than node.task.key some ≢ [])) }
        ensures blocks_none { (some writers : List Node) → IsLaneAmong nodes.now.nodes some (ids_for Write self.old) → IsLaneAmong nodes.now.nodes writers (ids_for Read self.old) → IfSome (node_at nodes.now.nodes id) (λ node. result.blocks_none ≡ true → BlocksNoneAlone access node.task.key some writers) }
        ensures room { room_in self.old ≤ room_in self.new + 1 }
    {
        if !self.apart && !access.is_write() {
            self.writers.fill_from(&self.named);
            self.apart = true;
        }
        let others = self.named.len();
        let earlier = nodes.put_into(&mut self.named, id);
        let stoppers = if self.apart && access.is_write() {
            nodes.put_into(&mut self.writers, id)
        } else {
            earlier
        };
        let blocked = earlier > 0 && access.is_write();
        let blocks_none = earlier == others || stoppers > 0;
        self.spare = self.spare.saturating_sub(1);
        if access.is_write() {
            self.spare_writers = self.spare_writers.saturating_sub(1);
        }
        Neighbours {
            first: earlier == 0,
            blocked,
            blocks_none,
        }
    }

    /// Files a node with that access no more. Of one that reads it is known, as fewer nodes write than
    /// name the location.
    pub(crate) fn leave(&mut self, nodes: &OrderedNodes, id: NodeId, access: Access)
        requires there { HasNode nodes.now.nodes id }
        requires reads { access ≡ Read → length (ids_for Read self.old) < length (ids_for Write self.old) }
        ensures lanes { (other : Access) (some : List Node) → IsLaneAmong nodes.now.nodes some (ids_for other self.old) → ids_for other self.new ≡ ids_of (without_if (excludes other access) id some) }
        ensures no_less { room_in self.old ≤ room_in self.new }
    {
        let fewer = u16::from(nodes.take_from(&mut self.named, id));
        self.spare = self.spare.saturating_add(fewer);
        if !self.apart {
            self.spare_writers = self.spare_writers.saturating_add(fewer);
        } else if access.is_write() {
            let fewer = u16::from(nodes.take_from(&mut self.writers, id));
            self.spare_writers = self.spare_writers.saturating_add(fewer);
        }
    }
}
