//! Steps on the few items that stand in place.
ghost use Rattle.std.specs.Prelude.{◌≡◌, ◌+◌, ◌-◌, ◌<◌, ◌≤◌, Some, length, slice_get, take};
ghost use Rattle.std.specs.List.{insert, remove};
ghost use Rattle.tiered_list.specs.Form.{in_place};

/// How many items stand in place at most.
pub(crate) const IN_PLACE: usize = 10;

/// Puts an item at a place among the first `len`, where the array has room for one more.
#[inline(always)]
pub(crate) fn put_among<T: Copy>(items: &mut [T; IN_PLACE], len: usize, place: usize, item: T)
    requires inside { place ≤ len }
    requires room { len < in_place }
    ensures items { take (len + 1) items.new ≡ insert (take len items.old) place item }
    ensures size { length items.new ≡ in_place }
{
    let mut next = len;
    while place < next {
        items[next] = items[next - 1];
        next -= 1;
    }
    items[place] = item;
}

/// Takes the item at a place out of the first `len`. All behind it move, so that few moves of a known
/// size do for the first place.
#[inline(always)]
pub(crate) fn take_from<T: Copy>(items: &mut [T; IN_PLACE], len: usize, place: usize) -> T
    requires inside { place < len }
    requires all { len ≤ in_place }
    ensures item { slice_get (take len items.old) place ≡ Some result }
    ensures items { take (len - 1) items.new ≡ remove (take len items.old) place }
    ensures size { length items.new ≡ in_place }
{
    let item = items[place];
    for at in place..IN_PLACE - 1 {
        items[at] = items[at + 1];
    }
    item
}
