ghost use Rattle.std.specs.Prelude.{◌≡◌, ◌<◌, ◌≤◌, [], ◌∷◌, ◌++◌, Some, length, slice_get, IfOk};
ghost use Rattle.std.specs.List.{insert, remove};
ghost use Rattle.std.specs.Map.Iter.{deref};
ghost use Rattle.std.specs.Option.{option_map};
ghost use Rattle.tiered_list.specs.Tiers.{full_length};

use crate::ring::{put_at, take_at, take_first, take_last};
use kdg_text::NoRoom;
use std::alloc::Global;
use std::collections::VecDeque;
use std::marker::Model;

/// How many items a tier has when it is full.
pub(crate) const FULL: usize = 128;

/// A part of a list, with place for all the items that it may have.
#[derive(Drop)]
pub(crate) struct Tier<T> {
    items: VecDeque<T>,
}

impl<T> Model for Tier<T> {
    ghost use Rattle.std.specs.Prelude.{List, ◌≤◌, length};
    ghost use Rattle.std.specs.Coded.{coded_list};
    ghost use Rattle.std.specs.VecDeque.{deque_capacity};
    ghost use Rattle.tiered_list.specs.Tiers.{full_length};

    ghost Value = { List T };

    ghost coded = { coded_list T.code };

    ghost view = { λ tier. tier.items.items };

    ghost invariant = { λ tier. (length tier.items.items ≤ full_length) × (full_length ≤ deque_capacity tier.items) };
}

impl<T> Tier<T> {
    /// A tier with no items.
    pub(crate) fn new(alloc: Global) -> Result<Tier<T>, NoRoom>
        ensures { IfOk result (λ tier. tier ≡ []) }
    {
        Ok(Tier {
            items: VecDeque::with_capacity(alloc, FULL)?,
        })
    }

    /// How many items there are.
    pub(crate) fn len(&self) -> usize
        ensures len { result ≡ length self.now }
        ensures bound { result ≤ full_length }
    {
        self.items.len()
    }

    /// The item at a place.
    pub(crate) fn get(&self, place: usize) -> Option<&T>
        ensures { option_map deref result ≡ slice_get self.now place }
    {
        self.items.get(place)
    }

    /// Puts an item at a place.
    pub(crate) fn insert(&mut self, place: usize, item: T)
        requires room { length self.old < full_length }
        requires place { place ≤ length self.old }
        ensures { self.new ≡ insert self.old place item }
    {
        put_at(&mut self.items, place, item);
    }

    /// Puts an item before the others.
    pub(crate) fn push_front(&mut self, item: T)
        requires { length self.old < full_length }
        ensures { self.new ≡ item ∷ self.old }
    {
        self.items.push_front_reserved(item);
    }

    /// Puts an item behind the others.
    pub(crate) fn push_back(&mut self, item: T)
        requires { length self.old < full_length }
        ensures { self.new ≡ self.old ++ item ∷ [] }
    {
        self.items.push_back_reserved(item);
    }

    /// Takes the item at a place out.
    pub(crate) fn remove(&mut self, place: usize) -> T
        requires { place < length self.old }
        ensures item { slice_get self.old place ≡ Some result }
        ensures items { self.new ≡ remove self.old place }
    {
        take_at(&mut self.items, place)
    }

    /// Takes the first item out.
    pub(crate) fn pop_front(&mut self) -> T
        requires { 0 < length self.old }
        ensures { self.old ≡ result ∷ self.new }
    {
        take_first(&mut self.items)
    }

    /// Takes the last item out.
    pub(crate) fn pop_back(&mut self) -> T
        requires { 0 < length self.old }
        ensures { self.old ≡ self.new ++ result ∷ [] }
    {
        take_last(&mut self.items)
    }

    /// Takes all items out.
    pub(crate) fn clear(&mut self)
    where
        T: Drop,
        ensures { self.new ≡ [] }
    {
        self.items.clear();
    }

    /// Puts an item before the others, and takes the last one out.
    pub(crate) fn shift_forward(&mut self, item: T) -> T
        requires { 0 < length self.old }
        ensures { item ∷ self.old ≡ self.new ++ result ∷ [] }
    {
        let last = take_last(&mut self.items);
        self.items.push_front_reserved(item);
        last
    }

    /// Puts an item behind the others, and takes the first one out.
    pub(crate) fn shift_backward(&mut self, item: T) -> T
        requires { 0 < length self.old }
        ensures { self.old ++ item ∷ [] ≡ result ∷ self.new }
    {
        let first = take_first(&mut self.items);
        self.items.push_back_reserved(item);
        first
    }

    /// Puts an item at a place before the end, and takes the last one out.
    pub(crate) fn insert_forward(&mut self, place: usize, item: T) -> T
        requires { place < length self.old }
        ensures { insert self.old place item ≡ self.new ++ result ∷ [] }
    {
        let last = take_last(&mut self.items);
        put_at(&mut self.items, place, item);
        last
    }

    /// Puts an item at a place behind the start, and takes the first one out.
    pub(crate) fn insert_backward(&mut self, place: usize, item: T) -> T
        requires start { 0 < place }
        requires end { place ≤ length self.old }
        ensures { insert self.old place item ≡ result ∷ self.new }
    {
        let first = take_first(&mut self.items);
        put_at(&mut self.items, place - 1, item);
        first
    }

    /// Takes the item at a place out, and puts one before the others.
    pub(crate) fn remove_forward(&mut self, place: usize, item: T) -> T
        requires { place < length self.old }
        ensures item { slice_get self.old place ≡ Some result }
        ensures items { self.new ≡ item ∷ remove self.old place }
    {
        let removed = take_at(&mut self.items, place);
        self.items.push_front_reserved(item);
        removed
    }

    /// Takes the item at a place out, and puts one behind the others.
    pub(crate) fn remove_backward(&mut self, place: usize, item: T) -> T
        requires { place < length self.old }
        ensures item { slice_get self.old place ≡ Some result }
        ensures items { self.new ≡ remove self.old place ++ item ∷ [] }
    {
        let removed = take_at(&mut self.items, place);
        self.items.push_back_reserved(item);
        removed
    }
}
