//! A list whose items are found by their places at once, and of which few move where one comes or
//! goes.
#![tactic(auto)]

ghost use Rattle.std.specs.Prelude.{◌≡◌, ◌+◌, ◌<◌, ◌≤◌, ◌^◌, [], Some, length, slice_get, OnOk};
ghost use Rattle.std.specs.List.{insert, remove};
ghost use Rattle.std.specs.Map.Iter.{deref};
ghost use Rattle.std.specs.Option.{option_map};

mod form;
mod in_place;
mod middle;
mod ring;
mod tier;
mod tiers;

use form::Form;
use kdg_text::NoRoom;
use std::alloc::Global;
use std::marker::Model;

/// Items in order, each found by its place at once.
///
/// The first ten items stand in place, and one that comes or goes moves those behind it. A list that
/// has had more is one ring buffer while it is short, and an item that comes or goes moves those up to
/// its nearer end. A long one is a tiered vector (M. T. Goodrich, J. G. Kloss, "Tiered Vectors", WADS
/// 1999): it moves at most half of the 128 items of a tier, and one of each tier up to the nearer end.
#[derive(Drop)]
pub struct TieredList<T> {
    form: Form<T>,
    alloc: Global,
}

impl<T> Model for TieredList<T> {
    ghost use Rattle.tiered_list.specs.Tiered.{Tiered, tiered_code};

    ghost Value = { Tiered T };

    ghost coded = { tiered_code T.code };

    ghost use Rattle.tiered_list.specs.Form.{IsForm, tiered_of};

    ghost view = { λ l. tiered_of l.form };

    ghost invariant = { λ l. IsForm l.form };
}

impl<T: Copy> TieredList<T> {
    /// No items, which take no memory. `unused` stands in place where no item is.
    pub fn new(alloc: Global, unused: T) -> TieredList<T>
        ensures { result.items ≡ [] }
    {
        TieredList {
            form: Form::new(unused),
            alloc,
        }
    }

    /// How many items there are.
    #[inline(always)]
    pub fn len(&self) -> usize
        ensures len { result ≡ length self.now.items }
        ensures small { result < 2 ^ 63 }
    {
        self.form.len()
    }

    /// The item at a place, counted from 0.
    #[inline(always)]
    pub fn get(&self, place: usize) -> Option<&T>
        ensures item { option_map deref result ≡ slice_get self.now.items place }
        ensures small { length self.now.items < 2 ^ 63 }
    {
        // Its contract tells that there are fewer than 2^63.
        let _len: usize = self.form.len();
        self.form.get(place)
    }

    /// Makes room for `additional` more items. After `NoRoom` the items are as they were.
    #[inline(always)]
    pub fn reserve(&mut self, additional: usize) -> Result<(), NoRoom>
    where
        T: Drop,
        ensures room { OnOk result (length self.old.items + additional ≤ self.new.capacity) }
        ensures no_less { self.old.capacity ≤ self.new.capacity }
        ensures items { self.new.items ≡ self.old.items }
    {
        self.form.reserve(self.alloc, additional)
    }

    /// Puts an item at a place, where `reserve` made room. It takes no memory.
    #[inline(always)]
    pub fn insert(&mut self, place: usize, item: T)
        requires inside { place ≤ length self.old.items }
        requires room { length self.old.items < self.old.capacity }
        ensures items { self.new.items ≡ insert self.old.items place item }
        ensures capacity { self.old.capacity ≤ self.new.capacity }
    {
        self.form.insert(place, item);
    }

    /// Takes all items out, and keeps the room that they had.
    #[inline(always)]
    pub fn clear(&mut self)
    where
        T: Drop,
        ensures items { self.new.items ≡ [] }
        ensures capacity { self.new.capacity ≡ self.old.capacity }
    {
        self.form.clear();
    }

    /// Takes the item at a place out. It takes no memory.
    #[inline(always)]
    pub fn remove(&mut self, place: usize) -> T
        requires { place < length self.old.items }
        ensures item { slice_get self.old.items place ≡ Some result }
        ensures items { self.new.items ≡ remove self.old.items place }
        ensures capacity { self.new.capacity ≡ self.old.capacity }
    {
        self.form.remove(place)
    }
}
