//! Tiers that are all full, between the first and the last one of a list.
ghost use Rattle.std.specs.Prelude.{◌≡◌, ◌+◌, ◌*◌, ◌<◌, ◌≤◌, [], ◌∷◌, ◌++◌, Some, length, slice_get};
ghost use Rattle.std.specs.List.{AllByRecursion, insert, remove};
ghost use Rattle.std.specs.VecDeque.{deque_capacity};
ghost use Rattle.tiered_list.specs.Tiers.{full_length, items_in, items_with, IsFull};

use crate::tier::Tier;
use std::collections::VecDeque;

/// Moves each item of the tiers from one to before another a place on: one comes in at the start of
/// these, and the last one comes out.
fn pass_forward<T>(middle: &mut VecDeque<Tier<T>>, from: usize, to: usize, mut item: T) -> T
    requires order { from ≤ to }
    requires end { to ≤ length middle.old.items }
    requires full { AllByRecursion IsFull middle.old.items }
    ensures items { items_with middle.new.items to result ≡ items_with middle.old.items from item }
    ensures full { AllByRecursion IsFull middle.new.items }
    ensures count { length middle.new.items ≡ length middle.old.items }
    ensures capacity { deque_capacity middle.new ≡ deque_capacity middle.old }
{
    for at in from..to {
        item = middle[at].shift_forward(item);
    }
    item
}

/// Moves each item of the tiers from one to before another a place back: one comes in at the end of
/// these, and the first one comes out.
fn pass_backward<T>(middle: &mut VecDeque<Tier<T>>, from: usize, to: usize, mut item: T) -> T
    requires order { from ≤ to }
    requires end { to ≤ length middle.old.items }
    requires full { AllByRecursion IsFull middle.old.items }
    ensures items { items_with middle.new.items from result ≡ items_with middle.old.items to item }
    ensures full { AllByRecursion IsFull middle.new.items }
    ensures count { length middle.new.items ≡ length middle.old.items }
    ensures capacity { deque_capacity middle.new ≡ deque_capacity middle.old }
{
    let mut at = to;
    while at > from {
        at -= 1;
        item = middle[at].shift_backward(item);
    }
    item
}

/// Puts an item into a tier, and moves all behind it a place on: the last one comes out.
pub(crate) fn insert_forward<T>(
    middle: &mut VecDeque<Tier<T>>,
    at: usize,
    place: usize,
    item: T,
) -> T
    requires at { at < length middle.old.items }
    requires place { place < full_length }
    requires full { AllByRecursion IsFull middle.old.items }
    ensures items { items_in middle.new.items ++ result ∷ [] ≡ insert (items_in middle.old.items) (full_length * at + place) item }
    ensures full { AllByRecursion IsFull middle.new.items }
    ensures count { length middle.new.items ≡ length middle.old.items }
    ensures capacity { deque_capacity middle.new ≡ deque_capacity middle.old }
{
    let count = middle.len();
    let last = middle[at].insert_forward(place, item);
    pass_forward(middle, at + 1, count, last)
}

/// Puts an item into a tier, and moves all before it a place back: the first one comes out.
pub(crate) fn insert_backward<T>(
    middle: &mut VecDeque<Tier<T>>,
    at: usize,
    place: usize,
    item: T,
) -> T
    requires at { at < length middle.old.items }
    requires place { place < full_length }
    requires full { AllByRecursion IsFull middle.old.items }
    ensures items { result ∷ items_in middle.new.items ≡ insert (items_in middle.old.items) (full_length * at + place) item }
    ensures full { AllByRecursion IsFull middle.new.items }
    ensures count { length middle.new.items ≡ length middle.old.items }
    ensures capacity { deque_capacity middle.new ≡ deque_capacity middle.old }
{
    if place == 0 {
        return pass_backward(middle, 0, at, item);
    }
    let first = middle[at].insert_backward(place, item);
    pass_backward(middle, 0, at, first)
}

/// Takes an item of a tier out, and moves all before it a place on: another comes in at the start.
pub(crate) fn remove_forward<T>(
    middle: &mut VecDeque<Tier<T>>,
    at: usize,
    place: usize,
    item: T,
) -> T
    requires at { at < length middle.old.items }
    requires place { place < full_length }
    requires full { AllByRecursion IsFull middle.old.items }
    ensures item { slice_get (items_in middle.old.items) (full_length * at + place) ≡ Some result }
    ensures items { items_in middle.new.items ≡ item ∷ remove (items_in middle.old.items) (full_length * at + place) }
    ensures full { AllByRecursion IsFull middle.new.items }
    ensures count { length middle.new.items ≡ length middle.old.items }
    ensures capacity { deque_capacity middle.new ≡ deque_capacity middle.old }
{
    let carried = pass_forward(middle, 0, at, item);
    middle[at].remove_forward(place, carried)
}

/// Takes an item of a tier out, and moves all behind it a place back: another comes in at the end.
pub(crate) fn remove_backward<T>(
    middle: &mut VecDeque<Tier<T>>,
    at: usize,
    place: usize,
    item: T,
) -> T
    requires at { at < length middle.old.items }
    requires place { place < full_length }
    requires full { AllByRecursion IsFull middle.old.items }
    ensures item { slice_get (items_in middle.old.items) (full_length * at + place) ≡ Some result }
    ensures items { items_in middle.new.items ≡ remove (items_in middle.old.items) (full_length * at + place) ++ item ∷ [] }
    ensures full { AllByRecursion IsFull middle.new.items }
    ensures count { length middle.new.items ≡ length middle.old.items }
    ensures capacity { deque_capacity middle.new ≡ deque_capacity middle.old }
{
    let count = middle.len();
    let carried = pass_backward(middle, at + 1, count, item);
    middle[at].remove_backward(place, carried)
}
