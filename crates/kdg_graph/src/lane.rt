ghost use Rattle.std.specs.Prelude.{◌≡◌, ◌+◌, ◌^◌, ◌≤◌, ◌<◌, [], length, slice_get, slice_index_or, true, IfSome, MatchResult, OnOk};
ghost use Rattle.std.specs.List.{insert, remove};
ghost use Rattle.kdg_graph.specs.Lanes.{IsBetween, IsEnded, IsLane, IsRank, IsRankPast, IsSearched, cmp_at, cmp_in, is_id_at};
ghost use Rattle.kdg_graph.specs.Locations.{is_first_before};
ghost use Rattle.std.specs.Prelude.{List};
ghost use Rattle.kdg_graph.specs.Node.{Node};

use crate::NodeId;
use crate::entry::Entry;
use kdg_text::NoRoom;
use slab::Slab;
use std::alloc::Global;
use std::cmp::Ordering;
use task_order::Key;
use tiered_list::TieredList;

/// How many times as long as the last step of a search the next one is, until the key is passed.
const GROWTH: usize = 8;

/// How many ids are looked at one after another before a search by keys.
const NEAR: usize = 8;

/// Ids of nodes in the order of the nodes' keys, which stand in a slab.
#[derive(Drop)]
pub(crate) struct Lane {
    ids: TieredList<NodeId>,
    // where searches begin: behind the id that was put in last, and where one was last taken out;
    // should these be other places by now, a search takes longer
    put_at: usize,
    taken_at: usize,
}

impl Lane {
    /// No ids, which take no memory.
    pub(crate) fn new(alloc: Global) -> Lane
        ensures { result.ids.items ≡ [] }
    {
        Lane {
            ids: TieredList::new(alloc, NodeId { at: 0 }),
            put_at: 0,
            taken_at: 0,
        }
    }

    /// How many ids there are.
    #[inline(always)]
    pub(crate) fn len(&self) -> usize
        ensures len { result ≡ length self.now.ids.items }
        ensures small { result < 2 ^ 63 }
    {
        self.ids.len()
    }

    /// The id at a place.
    #[inline(always)]
    pub(crate) fn at(&self, place: usize) -> NodeId
        requires { place < length self.now.ids.items }
        ensures { result ≡ slice_index_or self.now.ids.items place result }
    {
        match self.ids.get(place) {
            Some(id) => *id,
            None => unreachable!(),
        }
    }

    /// The id at a place, if one is there.
    #[inline(always)]
    pub(crate) fn get(&self, place: usize) -> Option<NodeId>
        ensures id { result ≡ slice_get self.now.ids.items place }
        ensures small { length self.now.ids.items < 2 ^ 63 }
    {
        self.ids.get(place).copied()
    }

    /// Makes room for `additional` more ids.
    #[inline(always)]
    pub(crate) fn reserve(&mut self, additional: usize) -> Result<(), NoRoom>
        ensures room { OnOk result (length self.new.ids.items + additional ≤ self.new.ids.capacity) }
        ensures no_less { self.old.ids.capacity ≤ self.new.ids.capacity }
        ensures ids { self.new.ids.items ≡ self.old.ids.items }
    {
        self.ids.reserve(additional)
    }

    /// How many of the nodes are earlier than the key, for a node that is to be put in: mostly all, or
    /// else a search that begins where one was last put in.
    #[inline(always)]
    pub(crate) fn rank(&self, slots: &Slab<Entry>, key: &Key) -> usize
        ensures rank { (nodes : List Node) → IsLane slots.now nodes self.now.ids.items → IsRank key.now nodes result }
        ensures inside { result ≤ length self.now.ids.items }
    {
        let len = self.len();
        if len == 0 || self.compare_at(slots, len - 1, key).is_lt() {
            return len;
        }
        match self.search_near(slots, key, self.put_at) {
            Ok(place) | Err(place) => place,
        }
    }

    /// How many of the nodes are earlier than the key, where it is known that those from a place on aren't:
    /// mostly none, or else a search that begins there.
    #[inline(always)]
    pub(crate) fn rank_until(&self, slots: &Slab<Entry>, key: &Key, end: usize) -> usize
        requires inside { end ≤ length self.now.ids.items }
        requires later { cmp_at slots.now key.now self.now.ids.items end ≡ Ordering.Greater }
        ensures rank { (nodes : List Node) → IsLane slots.now nodes self.now.ids.items → IsRank key.now nodes result }
        ensures inside { result ≤ length self.now.ids.items }
    {
        if let Ordering::Greater = self.compare_at(slots, 0, key) {
            return 0;
        }
        match self.search_down(slots, key, end) {
            Ok(place) | Err(place) => place,
        }
    }

    /// The place of the node with the key, or else how many are earlier: a search that begins where a
    /// node was last taken out.
    #[inline(always)]
    pub(crate) fn search(&self, slots: &Slab<Entry>, key: &Key) -> Result<usize, usize>
        ensures found { (nodes : List Node) → IsLane slots.now nodes self.now.ids.items → IsSearched key.now nodes result }
        ensures inside { MatchResult result (λ place. place < length self.now.ids.items) (λ place. place ≤ length self.now.ids.items) }
    {
        self.search_near(slots, key, self.taken_at)
    }

    /// The place of an id that mostly stands where one was last taken out, or close behind it.
    #[inline(always)]
    pub(crate) fn likely_place(&self, id: NodeId) -> Option<usize>
        ensures { IfSome result (λ place. is_id_at id self.now.ids.items place ≡ true) }
    {
        self.find_near(self.taken_at, id)
    }

    /// The place of an id that is among the few from a place on.
    #[inline(always)]
    pub(crate) fn find_near(&self, start: usize, id: NodeId) -> Option<usize>
        ensures { IfSome result (λ place. is_id_at id self.now.ids.items place ≡ true) }
    {
        let end = start.saturating_add(NEAR).min(self.len());
        for place in start..end {
            if self.has_at(place, id) {
                return Some(place);
            }
        }
        None
    }

    /// Whether an id is the first.
    #[inline(always)]
    pub(crate) fn starts_with(&self, id: NodeId) -> bool
        ensures { result ≡ is_id_at id self.now.ids.items 0 }
    {
        self.has_at(0, id)
    }

    /// Whether an id stands at a place.
    #[inline(always)]
    fn has_at(&self, place: usize, id: NodeId) -> bool
        ensures { result ≡ is_id_at id self.now.ids.items place }
    {
        match self.ids.get(place) {
            Some(other) => other.at == id.at,
            None => false,
        }
    }

    /// The place where an id was last put in, which may be another one's by now.
    pub(crate) fn last_put(&self) -> usize {
        self.put_at.saturating_sub(1)
    }

    /// How many of the nodes are not later than the key: a search that begins at a place.
    #[inline(always)]
    pub(crate) fn rank_past(&self, slots: &Slab<Entry>, key: &Key, start: usize) -> usize
        ensures rank { (nodes : List Node) → IsLane slots.now nodes self.now.ids.items → IsRankPast key.now nodes result }
        ensures inside { result ≤ length self.now.ids.items }
    {
        match self.search_near(slots, key, start) {
            Ok(place) => place + 1,
            Err(place) => place,
        }
    }

    /// The place of the node with the key, or else how many are earlier, by a search from a place on.
    fn search_near(&self, slots: &Slab<Entry>, key: &Key, start: usize) -> Result<usize, usize>
        ensures ended { IsEnded slots.now key.now self.now.ids.items result }
        ensures small { length self.now.ids.items < 2 ^ 63 }
    {
        match self.compare_at(slots, start, key) {
            Ordering::Less => self.search_up(slots, key, start),
            Ordering::Equal => Ok(start),
            Ordering::Greater => self.search_down(slots, key, start.min(self.len())),
        }
    }

    /// A search from a place at which the node is earlier: by steps that grow, and then by halving.
    fn search_up(&self, slots: &Slab<Entry>, key: &Key, start: usize) -> Result<usize, usize>
        requires earlier { cmp_at slots.now key.now self.now.ids.items start ≡ Ordering.Less }
        requires small { length self.now.ids.items < 2 ^ 63 }
        ensures { IsEnded slots.now key.now self.now.ids.items result }
    {
        let mut low = start + 1;
        let mut probe = low;
        let mut step: usize = 1;
        loop {
            match self.compare_at(slots, probe, key) {
                Ordering::Less => {
                    low = probe + 1;
                    step = step.saturating_mul(GROWTH);
                    probe = probe.saturating_add(step);
                }
                Ordering::Equal => return Ok(probe),
                Ordering::Greater => {
                    return self.search_between(slots, key, low, probe.min(self.len()));
                }
            }
        }
    }

    /// A search from a place at which the node is later, or none is there.
    fn search_down(&self, slots: &Slab<Entry>, key: &Key, start: usize) -> Result<usize, usize>
        requires inside { start ≤ length self.now.ids.items }
        requires later { cmp_at slots.now key.now self.now.ids.items start ≡ Ordering.Greater }
        ensures { IsEnded slots.now key.now self.now.ids.items result }
    {
        let mut low = start;
        let mut high = start;
        let mut step: usize = 1;
        while low > 0 {
            match self.compare_at(slots, low - 1, key) {
                Ordering::Less => return self.search_between(slots, key, low, high),
                Ordering::Equal => return Ok(low - 1),
                Ordering::Greater => {
                    high = low - 1;
                    step = step.saturating_mul(GROWTH);
                    low = low.saturating_sub(step);
                }
            }
        }
        self.search_between(slots, key, low, high)
    }

    /// A search between two places, by halving.
    fn search_between(
        &self,
        slots: &Slab<Entry>,
        key: &Key,
        mut low: usize,
        mut high: usize,
    ) -> Result<usize, usize>
        requires { IsBetween slots.now key.now self.now.ids.items low high }
        ensures { IsEnded slots.now key.now self.now.ids.items result }
    {
        while low < high {
            let middle = low + (high - low) / 2;
            match self.compare_at(slots, middle, key) {
                Ordering::Less => low = middle + 1,
                Ordering::Equal => return Ok(middle),
                Ordering::Greater => high = middle,
            }
        }
        Err(low)
    }

    /// How the node at a place compares with the key; none there counts as later.
    #[inline(always)]
    fn compare_at(&self, slots: &Slab<Entry>, place: usize, key: &Key) -> Ordering
        ensures order { result ≡ cmp_at slots.now key.now self.now.ids.items place }
        ensures small { length self.now.ids.items < 2 ^ 63 }
    {
        match self.ids.get(place) {
            Some(id) => compare(slots, *id, key),
            None => Ordering::Greater,
        }
    }

    /// Whether the first of the nodes is earlier than the key.
    #[inline(always)]
    pub(crate) fn starts_before(&self, slots: &Slab<Entry>, key: &Key) -> bool
        ensures { (nodes : List Node) → IsLane slots.now nodes self.now.ids.items → result ≡ is_first_before key.now nodes }
    {
        self.compare_at(slots, 0, key).is_lt()
    }

    /// Puts an id at a place, where `reserve` made room.
    #[inline(always)]
    pub(crate) fn insert(&mut self, place: usize, id: NodeId)
        requires inside { place ≤ length self.old.ids.items }
        requires room { length self.old.ids.items < self.old.ids.capacity }
        ensures ids { self.new.ids.items ≡ insert self.old.ids.items place id }
        ensures room { self.old.ids.capacity ≤ self.new.ids.capacity }
        ensures len { length self.new.ids.items ≡ length self.old.ids.items + 1 }
    {
        self.put_at = place.saturating_add(1);
        if place <= self.taken_at {
            self.taken_at = self.taken_at.saturating_add(1);
        }
        self.ids.insert(place, id);
    }

    /// Puts the ids of another list in, where none is there and `reserve` made room.
    #[inline(never)]
    pub(crate) fn fill_from(&mut self, other: &Lane)
        requires none { self.old.ids.items ≡ [] }
        requires room { length other.now.ids.items ≤ self.old.ids.capacity }
        ensures ids { self.new.ids.items ≡ other.now.ids.items }
        ensures room { self.old.ids.capacity ≤ self.new.ids.capacity }
    {
        for place in 0..other.len() {
            self.insert(place, other.at(place));
        }
    }

    /// Takes all ids out.
    #[inline(always)]
    pub(crate) fn clear(&mut self)
        ensures ids { self.new.ids.items ≡ [] }
        ensures room { self.new.ids.capacity ≡ self.old.ids.capacity }
    {
        self.ids.clear();
    }

    /// Takes the id at a place out.
    #[inline(always)]
    pub(crate) fn remove(&mut self, place: usize) -> NodeId
        requires { place < length self.old.ids.items }
        ensures id { result ≡ slice_index_or self.old.ids.items place result }
        ensures ids { self.new.ids.items ≡ remove self.old.ids.items place }
        ensures room { self.new.ids.capacity ≡ self.old.ids.capacity }
        ensures len { length self.new.ids.items + 1 ≡ length self.old.ids.items }
    {
        if place < self.put_at {
            self.put_at -= 1;
        }
        self.taken_at = place;
        // Mostly it is the first, which goes by moves of a known number.
        if place == 0 {
            return self.ids.remove(0);
        }
        self.ids.remove(place)
    }
}

/// How the node with an id compares with the key; one that isn't kept counts as later.
#[inline(always)]
fn compare(slots: &Slab<Entry>, id: NodeId, key: &Key) -> Ordering
    ensures { result ≡ cmp_in slots.now key.now id }
{
    match slots.get(id.at as usize) {
        Some(node) => node.task.key.compare(key),
        None => Ordering::Greater,
    }
}
