ghost use Rattle.std.specs.Prelude.{◌≡◌, ◌≤◌, ◌%◌, [], ◌∷◌, ◌++◌, count_by, OnOk, OnErr};
ghost use Rattle.std.specs.List.{AllByRecursion};
ghost use Rattle.std.specs.List.Sorted.{IsSorted};
ghost use Rattle.std.specs.declared.cmp.Ordering.TheVariants.{Less};
ghost use Rattle.mtx_reader.specs.Ascending.{IsAscendingBy};
ghost use Rattle.mtx_reader.specs.Places.{Place, ArePlaces, IsWithin, is_same, place_cmp, places_among};
ghost use Rattle.mtx_reader.specs.Readings.{ones_by, places_named_oddly};

use crate::banner::Field;
use kdg_text::NoRoom;
use std::alloc::Global;
use std::marker::Model;

/// Places of a matrix, each a row and a column, counted from 1: row by row, each once.
#[derive(Drop)]
pub struct PlaceList {
    places: Vec<(u32, u32)>,
}

impl Model for PlaceList {
    ghost use Rattle.std.specs.Prelude.{ℕ, List};
    ghost use Rattle.mtx_reader.specs.Places.{Place, ArePlaces};

    ghost Value = { List Place };

    ghost view = { λ l. l.places.items };

    ghost invariant = { λ l. ArePlaces l.places.items };
}

impl PlaceList {
    /// An empty list, which takes no memory.
    pub fn new(alloc: Global) -> PlaceList
        ensures { result ≡ [] }
    {
        PlaceList {
            places: Vec::new(alloc),
        }
    }

    /// Adds a place behind all others. After `NoRoom` the list is as it was.
    pub fn push(&mut self, row: u32, column: u32) -> Result<(), NoRoom>
        requires row { 1 ≤ row }
        requires column { 1 ≤ column }
        requires later { AllByRecursion (λ place. place_cmp place (row, column) ≡ Less) self.old }
        ensures ok { OnOk result (self.new ≡ self.old ++ (row, column) ∷ []) }
        ensures err { OnErr result (self.new ≡ self.old) }
    {
        self.places.push((row, column))?;
        Ok(())
    }

    /// The places, in order.
    pub fn items(&self) -> &[(u32, u32)]
        ensures all { result.now ≡ self.now }
        ensures places { ArePlaces self.now }
    {
        &self.places
    }

    /// The places that have a one in a matrix of that size, of which entries of that field named
    /// these. It takes no memory.
    pub(crate) fn ones(field: Field, rows: u32, columns: u32, named: Vec<(u32, u32)>) -> PlaceList
        requires { AllByRecursion (IsWithin rows columns) named.items }
        ensures { result ≡ ones_by field rows columns named.items }
    {
        match field {
            Field::Pattern => PlaceList::of(rows, columns, named),
            Field::Integer => PlaceList::of_odd(rows, columns, named),
        }
    }

    /// The places of a matrix of that size that are named, each once. It takes no memory.
    fn of(rows: u32, columns: u32, mut named: Vec<(u32, u32)>) -> PlaceList
        requires { AllByRecursion (IsWithin rows columns) named.items }
        ensures { result ≡ places_among rows columns named.items }
    {
        named.sort_unstable();
        named.dedup();
        PlaceList { places: named }
    }

    /// The places of a matrix of that size that are named an odd number of times, each once. It
    /// takes no memory.
    fn of_odd(rows: u32, columns: u32, mut named: Vec<(u32, u32)>) -> PlaceList
        requires { AllByRecursion (IsWithin rows columns) named.items }
        ensures { result ≡ places_named_oddly rows columns named.items }
    {
        named.sort_unstable();
        keep_odd(&mut named);
        PlaceList { places: named }
    }
}

/// Keeps each of the places, which are in order, that is there an odd number of times, once.
fn keep_odd(places: &mut Vec<(u32, u32)>)
    requires { IsSorted place_cmp places.old.items }
    ensures ascending { IsAscendingBy place_cmp places.new.items }
    ensures odd { (place : Place) → count_by (is_same place) places.new.items % 2 ≡ count_by (is_same place) places.old.items % 2 }
{
    let mut kept = 0;
    for next in 0..places.len() {
        let place = places[next];
        if kept > 0 && places[kept - 1] == place {
            // equal ones cancel in pairs
            kept -= 1;
        } else {
            places[kept] = place;
            kept += 1;
        }
    }
    places.truncate(kept);
}

/// Where a matrix over the field of two elements has its ones.
#[derive(Drop)]
pub struct Pattern {
    /// How many rows there are.
    pub rows: u32,
    /// How many columns there are.
    pub cols: u32,
    /// The places that have a one.
    pub places: PlaceList,
}
