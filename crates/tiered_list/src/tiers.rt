ghost use Rattle.std.specs.Prelude.{◌≡◌, ◌+◌, ◌-◌, ◌*◌, ◌<◌, ◌≤◌, ◌^◌, [], ◌∷◌, ◌++◌, Some, length, slice_get, vec_capacity, IfOk, OnOk};
ghost use Rattle.std.specs.List.{AllByRecursion, insert, remove};
ghost use Rattle.std.specs.Map.Iter.{deref};
ghost use Rattle.std.specs.Option.{option_map};
ghost use Rattle.tiered_list.specs.Tiers.{full_length, all_items, items_in, room_for, IsEmpty};

use crate::middle;
use crate::tier::{FULL, Tier};
use kdg_text::NoRoom;
use std::alloc::Global;
use std::collections::VecDeque;
use std::marker::Model;
use std::mem;

/// How many tiers there may be, so that their items can be counted.
const MOST_TIERS: usize = 1 << 54;

/// A list in tiers: those between the first and the last one are full, so a place tells the tier. Spare
/// ones take the place of full ones at the ends.
#[derive(Drop)]
pub(crate) struct Tiers<T> {
    front: Tier<T>,
    middle: VecDeque<Tier<T>>,
    back: Tier<T>,
    spare: Vec<Tier<T>>,
}

impl<T> Model for Tiers<T> {
    ghost use Rattle.std.specs.Prelude.{length, vec_capacity};
    ghost use Rattle.std.specs.VecDeque.{deque_capacity};
    ghost use Rattle.tiered_list.specs.Tiers.{TiersState, AreTiers, tiers_code};

    ghost Value = { TiersState T };

    ghost coded = { tiers_code T.code };

    ghost view = { λ tiers. record { front = tiers.front; middle = tiers.middle.items; back = tiers.back; spare = length tiers.spare.items } };

    ghost invariant = { λ tiers. AreTiers tiers.middle.items tiers.spare.items (deque_capacity tiers.middle) (vec_capacity tiers.spare) };
}

/// Makes spare tiers until there are `count`.
fn add_spare<T>(alloc: Global, spare: &mut Vec<Tier<T>>, count: usize) -> Result<(), NoRoom>
    requires few { length spare.old.items ≤ count }
    requires room { count ≤ vec_capacity spare.old }
    requires empty { AllByRecursion IsEmpty spare.old.items }
    ensures ok { OnOk result (length spare.new.items ≡ count) }
    ensures kept { length spare.old.items ≤ length spare.new.items }
    ensures few { length spare.new.items ≤ count }
    ensures empty { AllByRecursion IsEmpty spare.new.items }
    ensures capacity { vec_capacity spare.new ≡ vec_capacity spare.old }
{
    while spare.len() < count {
        spare.push_reserved(Tier::new(alloc)?);
    }
    Ok(())
}

impl<T> Tiers<T> {
    /// No items, with memory for some in the first and in the last tier.
    pub(crate) fn new(alloc: Global) -> Result<Tiers<T>, NoRoom>
    where
        T: Drop,
        ensures { IfOk result (λ tiers. tiers ≡ record { front = []; middle = []; back = []; spare = 0 }) }
    {
        Ok(Tiers {
            front: Tier::new(alloc)?,
            middle: VecDeque::new(alloc),
            back: Tier::new(alloc)?,
            spare: Vec::new(alloc),
        })
    }

    /// How many items there are.
    pub(crate) fn len(&self) -> usize
        ensures len { result ≡ length (all_items self.now) }
        ensures small { result < 2 ^ 63 }
    {
        self.front.len() + FULL * self.middle.len() + self.back.len()
    }

    /// The item at a place, counted from 0.
    #[inline(always)]
    pub(crate) fn get(&self, place: usize) -> Option<&T>
        ensures { option_map deref result ≡ slice_get (all_items self.now) place }
    {
        let first = self.front.len();
        if place < first {
            return self.front.get(place);
        }
        let behind = place - first;
        match self.middle.get(behind / FULL) {
            Some(tier) => tier.get(behind % FULL),
            None => self.back.get(behind - FULL * self.middle.len()),
        }
    }

    /// Makes room for `additional` more items. After `NoRoom` the items are as they were.
    #[inline(never)]
    pub(crate) fn reserve(&mut self, additional: usize) -> Result<(), NoRoom>
        ensures room { OnOk result (length (all_items self.old) + additional ≤ room_for self.new) }
        ensures no_less { room_for self.old ≤ room_for self.new }
        ensures items { all_items self.new ≡ all_items self.old }
    {
        let Some(total) = self.len().checked_add(additional) else {
            return Err(NoRoom);
        };
        self.reserve_tiers(total / FULL)
    }

    /// Makes spare tiers until there are `count` with those between the first and the last.
    fn reserve_tiers(&mut self, count: usize) -> Result<(), NoRoom>
        ensures room { OnOk result (count ≤ length self.new.middle + self.new.spare) }
        ensures no_less { self.old.spare ≤ self.new.spare }
        ensures front { self.new.front ≡ self.old.front }
        ensures middle { self.new.middle ≡ self.old.middle }
        ensures back { self.new.back ≡ self.old.back }
    {
        let (used, spare) = (self.middle.len(), self.spare.len());
        if count <= used + spare {
            return Ok(());
        }
        if count > MOST_TIERS {
            return Err(NoRoom);
        }
        self.middle.reserve(count - used)?;
        self.spare.reserve(count - spare)?;
        add_spare(*self.middle.allocator(), &mut self.spare, count - used)
    }

    /// Puts an item behind the others, where `reserve` made room.
    pub(crate) fn push_back(&mut self, item: T)
        requires { length (all_items self.old) < room_for self.old }
        ensures items { all_items self.new ≡ all_items self.old ++ item ∷ [] }
        ensures room { room_for self.new ≡ room_for self.old }
    {
        self.make_room_at_back();
        self.back.push_back(item);
    }

    /// Puts an item at a place, where `reserve` made room.
    #[inline(always)]
    pub(crate) fn insert(&mut self, place: usize, item: T)
        requires inside { place ≤ length (all_items self.old) }
        requires room { length (all_items self.old) < room_for self.old }
        ensures items { all_items self.new ≡ insert (all_items self.old) place item }
        ensures room { room_for self.new ≡ room_for self.old }
    {
        if place == 0 && self.front.len() < FULL {
            self.front.push_front(item);
        } else {
            self.insert_anywhere(place, item);
        }
    }

    /// Puts an item at a place that no short way serves. It stays a call.
    #[inline(never)]
    fn insert_anywhere(&mut self, place: usize, item: T)
        requires inside { place ≤ length (all_items self.old) }
        requires room { length (all_items self.old) < room_for self.old }
        ensures items { all_items self.new ≡ insert (all_items self.old) place item }
        ensures room { room_for self.new ≡ room_for self.old }
    {
        self.make_room_at_front();
        self.make_room_at_back();
        let first = self.front.len();
        if place <= first {
            self.front.insert(place, item);
        } else {
            self.insert_behind(place - first, item);
        }
    }

    /// Makes the first tier one that is not full.
    fn make_room_at_front(&mut self)
        requires { length (all_items self.old) < room_for self.old }
        ensures items { all_items self.new ≡ all_items self.old }
        ensures room { room_for self.new ≡ room_for self.old }
        ensures free { length self.new.front < full_length }
    {
        if self.front.len() == FULL {
            self.open_front();
        }
    }

    /// Makes the last tier one that is not full.
    fn make_room_at_back(&mut self)
        requires { length (all_items self.old) < room_for self.old }
        ensures items { all_items self.new ≡ all_items self.old }
        ensures room { room_for self.new ≡ room_for self.old }
        ensures front { self.new.front ≡ self.old.front }
        ensures free { length self.new.back < full_length }
    {
        if self.back.len() == FULL {
            self.open_back();
        }
    }

    /// Begins a new tier before the first one, which is full.
    fn open_front(&mut self)
        requires full { length self.old.front ≡ full_length }
        requires spare { 0 < self.old.spare }
        ensures { self.new ≡ record { front = []; middle = self.old.front ∷ self.old.middle; back = self.old.back; spare = self.old.spare - 1 } }
    {
        let Some(mut tier) = self.spare.pop() else {
            unreachable!()
        };
        mem::swap(&mut self.front, &mut tier);
        self.middle.push_front_reserved(tier);
    }

    /// Begins a new tier behind the last one, which is full.
    fn open_back(&mut self)
        requires full { length self.old.back ≡ full_length }
        requires spare { 0 < self.old.spare }
        ensures { self.new ≡ record { front = self.old.front; middle = self.old.middle ++ self.old.back ∷ []; back = []; spare = self.old.spare - 1 } }
    {
        let Some(mut tier) = self.spare.pop() else {
            unreachable!()
        };
        mem::swap(&mut self.back, &mut tier);
        self.middle.push_back_reserved(tier);
    }

    /// Puts an item at a place behind the first tier.
    fn insert_behind(&mut self, place: usize, item: T)
        requires inside { place ≤ length (items_in self.old.middle) + length self.old.back }
        requires front { length self.old.front < full_length }
        requires back { length self.old.back < full_length }
        ensures items { all_items self.new ≡ insert (all_items self.old) (length self.old.front + place) item }
        ensures room { room_for self.new ≡ room_for self.old }
    {
        let at = place / FULL;
        let count = self.middle.len();
        if at >= count {
            self.back.insert(place - FULL * count, item);
        } else if at < count / 2 {
            let first = middle::insert_backward(&mut self.middle, at, place % FULL, item);
            self.front.push_back(first);
        } else {
            let last = middle::insert_forward(&mut self.middle, at, place % FULL, item);
            self.back.push_front(last);
        }
    }

    /// Takes all items out, which leaves each tier between the first and the last as a spare one.
    #[inline(never)]
    pub(crate) fn clear(&mut self)
    where
        T: Drop,
        ensures items { all_items self.new ≡ [] }
        ensures room { room_for self.new ≡ room_for self.old }
    {
        self.front.clear();
        self.back.clear();
        while let Some(mut tier) = self.middle.pop_front() {
            tier.clear();
            self.spare.push_reserved(tier);
        }
    }

    /// Takes the item at a place out.
    #[inline(always)]
    pub(crate) fn remove(&mut self, place: usize) -> T
        requires { place < length (all_items self.old) }
        ensures item { slice_get (all_items self.old) place ≡ Some result }
        ensures items { all_items self.new ≡ remove (all_items self.old) place }
        ensures room { room_for self.new ≡ room_for self.old }
    {
        if place == 0 && self.front.len() > 0 {
            self.front.pop_front()
        } else {
            self.remove_anywhere(place)
        }
    }

    /// Takes an item out of a place that no short way serves. It stays a call.
    #[inline(never)]
    fn remove_anywhere(&mut self, place: usize) -> T
        requires { place < length (all_items self.old) }
        ensures item { slice_get (all_items self.old) place ≡ Some result }
        ensures items { all_items self.new ≡ remove (all_items self.old) place }
        ensures room { room_for self.new ≡ room_for self.old }
    {
        self.fill_front();
        self.fill_back();
        let first = self.front.len();
        if place < first {
            self.front.remove(place)
        } else {
            self.remove_behind(place - first)
        }
    }

    /// Makes the first tier one with items, if there are others.
    fn fill_front(&mut self)
        ensures items { all_items self.new ≡ all_items self.old }
        ensures room { room_for self.new ≡ room_for self.old }
        ensures filled { 0 < length self.new.middle → 0 < length self.new.front }
    {
        if self.front.len() == 0 && !self.middle.is_empty() {
            self.close_front();
        }
    }

    /// Makes the last tier one with items, if there are others.
    fn fill_back(&mut self)
        ensures items { all_items self.new ≡ all_items self.old }
        ensures room { room_for self.new ≡ room_for self.old }
        ensures front { self.new.front ≡ self.old.front }
        ensures middle { length self.new.middle ≤ length self.old.middle }
        ensures filled { 0 < length self.new.middle → 0 < length self.new.back }
    {
        if self.back.len() == 0 && !self.middle.is_empty() {
            self.close_back();
        }
    }

    /// Makes the second tier the first one, which has no items.
    fn close_front(&mut self)
        requires empty { self.old.front ≡ [] }
        requires some { 0 < length self.old.middle }
        ensures middle { self.old.middle ≡ self.new.front ∷ self.new.middle }
        ensures back { self.new.back ≡ self.old.back }
        ensures spare { self.new.spare ≡ self.old.spare + 1 }
        ensures full { length self.new.front ≡ full_length }
    {
        let Some(mut tier) = self.middle.pop_front() else {
            unreachable!()
        };
        mem::swap(&mut self.front, &mut tier);
        self.spare.push_reserved(tier);
    }

    /// Makes the last tier but one the last one, which has no items.
    fn close_back(&mut self)
        requires empty { self.old.back ≡ [] }
        requires some { 0 < length self.old.middle }
        ensures front { self.new.front ≡ self.old.front }
        ensures middle { self.old.middle ≡ self.new.middle ++ self.new.back ∷ [] }
        ensures spare { self.new.spare ≡ self.old.spare + 1 }
        ensures full { length self.new.back ≡ full_length }
    {
        let Some(mut tier) = self.middle.pop_back() else {
            unreachable!()
        };
        mem::swap(&mut self.back, &mut tier);
        self.spare.push_reserved(tier);
    }

    /// Takes the item at a place behind the first tier out.
    fn remove_behind(&mut self, place: usize) -> T
        requires inside { place < length (items_in self.old.middle) + length self.old.back }
        requires front { 0 < length self.old.middle → 0 < length self.old.front }
        requires back { 0 < length self.old.middle → 0 < length self.old.back }
        ensures item { slice_get (all_items self.old) (length self.old.front + place) ≡ Some result }
        ensures items { all_items self.new ≡ remove (all_items self.old) (length self.old.front + place) }
        ensures room { room_for self.new ≡ room_for self.old }
    {
        let at = place / FULL;
        let count = self.middle.len();
        if at >= count {
            self.back.remove(place - FULL * count)
        } else if at < count / 2 {
            let last = self.front.pop_back();
            middle::remove_forward(&mut self.middle, at, place % FULL, last)
        } else {
            let first = self.back.pop_front();
            middle::remove_backward(&mut self.middle, at, place % FULL, first)
        }
    }
}
