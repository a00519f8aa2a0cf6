//! Steps on a ring buffer that are known to succeed.
ghost use Rattle.std.specs.Prelude.{◌≡◌, ◌<◌, ◌≤◌, [], ◌∷◌, ◌++◌, Some, length, slice_get};
ghost use Rattle.std.specs.List.{insert, remove};
ghost use Rattle.std.specs.VecDeque.{deque_len, deque_capacity};

use std::collections::VecDeque;

/// Puts an item at a place, where there is memory for it. At the ends none of the others moves.
#[inline(always)]
pub(crate) fn put_at<T>(ring: &mut VecDeque<T>, place: usize, item: T)
    requires place { place ≤ length ring.old.items }
    requires room { deque_len ring.old < deque_capacity ring.old }
    ensures items { ring.new.items ≡ insert ring.old.items place item }
    ensures capacity { deque_capacity ring.old ≤ deque_capacity ring.new }
{
    if place == ring.len() {
        ring.push_back_reserved(item);
    } else if place == 0 {
        ring.push_front_reserved(item);
    } else {
        put_within(ring, place, item);
    }
}

/// Puts an item at a place within, where those up to the nearer end move.
#[inline(never)]
fn put_within<T>(ring: &mut VecDeque<T>, place: usize, item: T)
    requires place { place ≤ length ring.old.items }
    requires room { deque_len ring.old < deque_capacity ring.old }
    ensures items { ring.new.items ≡ insert ring.old.items place item }
    ensures capacity { deque_capacity ring.old ≤ deque_capacity ring.new }
{
    match ring.insert(place, item) {
        Ok(()) => {}
        Err(_) => unreachable!(),
    }
}

/// Takes the item at a place out. At the ends none of the others moves.
#[inline(always)]
pub(crate) fn take_at<T>(ring: &mut VecDeque<T>, place: usize) -> T
    requires { place < length ring.old.items }
    ensures item { slice_get ring.old.items place ≡ Some result }
    ensures items { ring.new.items ≡ remove ring.old.items place }
    ensures capacity { deque_capacity ring.new ≡ deque_capacity ring.old }
{
    if place == 0 {
        take_first(ring)
    } else if place + 1 == ring.len() {
        take_last(ring)
    } else {
        take_within(ring, place)
    }
}

/// Takes an item out of a place within, where those up to the nearer end move.
#[inline(never)]
fn take_within<T>(ring: &mut VecDeque<T>, place: usize) -> T
    requires { place < length ring.old.items }
    ensures item { slice_get ring.old.items place ≡ Some result }
    ensures items { ring.new.items ≡ remove ring.old.items place }
    ensures capacity { deque_capacity ring.new ≡ deque_capacity ring.old }
{
    let Some(item) = ring.remove(place) else {
        unreachable!()
    };
    item
}

/// Takes the first item out.
pub(crate) fn take_first<T>(ring: &mut VecDeque<T>) -> T
    requires { 0 < length ring.old.items }
    ensures items { ring.old.items ≡ result ∷ ring.new.items }
    ensures capacity { deque_capacity ring.new ≡ deque_capacity ring.old }
{
    let Some(item) = ring.pop_front() else {
        unreachable!()
    };
    item
}

/// Takes the last item out.
pub(crate) fn take_last<T>(ring: &mut VecDeque<T>) -> T
    requires { 0 < length ring.old.items }
    ensures items { ring.old.items ≡ ring.new.items ++ result ∷ [] }
    ensures capacity { deque_capacity ring.new ≡ deque_capacity ring.old }
{
    let Some(item) = ring.pop_back() else {
        unreachable!()
    };
    item
}
