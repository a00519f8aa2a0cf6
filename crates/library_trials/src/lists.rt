//! Lists of items by their places.

ghost use Rattle.std.specs.Prelude.{◌≡◌, ◌+◌, ◌<◌, ◌≤◌, length, OnOk};

use kdg_text::NoRoom;
use std::alloc::Global;
use std::process::Abort;
use std::test::Fail;
use tiered_list::TieredList;

/// A place below a bound: the first, the last or any one.
fn place_below(seed: u64, bound: usize) -> usize
    requires { 0 < bound }
    ensures { result < bound }
{
    match (seed >> 60) % 4 {
        0 => 0,
        1 => bound - 1,
        _ => (seed >> 33) as usize % bound,
    }
}

fn next(seed: u64) -> u64 {
    seed.wrapping_mul(6364136223846793005)
        .wrapping_add(1442695040888963407)
}

/// Puts an item into a list, and at the same place into a vector.
fn put(
    list: &mut TieredList<u64>,
    items: &mut Vec<u64>,
    place: usize,
    item: u64,
) -> Result<(), NoRoom>
    requires same { list.old.items ≡ items.old.items }
    requires place { place ≤ length items.old.items }
    ensures same { OnOk result (list.new.items ≡ items.new.items) }
{
    list.reserve(1)?;
    list.insert(place, item);
    items.insert(place, item)?;
    Ok(())
}

/// Takes the item at a place out of a list, and out of a vector.
fn take(rt: &impl Abort, list: &mut TieredList<u64>, items: &mut Vec<u64>, place: usize)
    requires same { list.old.items ≡ items.old.items }
    requires place { place < length items.old.items }
    ensures same { list.new.items ≡ items.new.items }
{
    assert!(rt; list.remove(place) == items.remove(place));
}

/// Takes an item out of a list and out of a vector, if there is one, or puts one into both, at a place that the seed
/// tells.
fn put_or_take(
    rt: &impl Abort,
    list: &mut TieredList<u64>,
    items: &mut Vec<u64>,
    seed: u64,
    item: u64,
    takes: bool,
) -> Result<(), NoRoom>
    requires same { list.old.items ≡ items.old.items }
    ensures same { OnOk result (list.new.items ≡ items.new.items) }
{
    let len = items.len();
    if takes && len > 0 {
        take(rt, list, items, place_below(seed, len));
        return Ok(());
    }
    put(list, items, place_below(seed, len + 1), item)
}

#[test]
fn calls_are_those_on_a_vector(rt: HostRuntime) -> Result<(), Fail> {
    let alloc = rt.alloc();
    let mut list: TieredList<u64> = TieredList::new(alloc, 0);
    let mut items: Vec<u64> = Vec::new(alloc);
    let mut seed = 7;
    for step in 0..6000u64 {
        seed = next(seed);
        put_or_take(&rt, &mut list, &mut items, seed, step, step % 4 == 3)?;
    }
    assert!(rt; has_items(&list, items.as_slice()));
    Ok(())
}

/// Whether a list has these items and no others.
fn has_items(list: &TieredList<u64>, items: &[u64]) -> bool {
    for (place, item) in items.iter().enumerate() {
        if list.get(place) != Some(item) {
            return false;
        }
    }
    list.len() == items.len() && list.get(items.len()).is_none()
}

/// Lists of few items: each comes and goes in place at first, and then also in a ring.
#[test]
fn few_items_come_and_go(rt: HostRuntime) -> Result<(), Fail> {
    let mut seed = 11;
    for _round in 0..40u64 {
        seed = come_and_go(&rt, rt.alloc(), seed)?;
    }
    Ok(())
}

/// Puts few items into a list and takes them out, and checks the list after each step. The answer is the next seed.
fn come_and_go(rt: &impl Abort, alloc: Global, seed: u64) -> Result<u64, NoRoom> {
    let mut list: TieredList<u64> = TieredList::new(alloc, 0);
    let mut items: Vec<u64> = Vec::new(alloc);
    let mut seed = seed;
    for step in 0..80u64 {
        seed = next(seed);
        let most = if step < 40 { 10 } else { 14 };
        let takes = items.len() >= most || (seed >> 45) % 2 == 1;
        put_or_take(rt, &mut list, &mut items, seed, step, takes)?;
        assert!(rt; has_places(&list, items.as_slice()));
    }
    Ok(seed)
}

/// Whether a list has these items at its first fifteen places.
fn has_places(list: &TieredList<u64>, items: &[u64]) -> bool {
    for place in 0..15 {
        if list.get(place) != items.get(place) {
            return false;
        }
    }
    list.len() == items.len()
}

#[test]
fn items_leave_from_both_ends(rt: HostRuntime) -> Result<(), Fail> {
    let mut list: TieredList<u64> = TieredList::new(rt.alloc(), 0);
    list.reserve(1000)?;
    for item in 0..1000u64 {
        list.insert(list.len(), item);
    }
    for item in 0..400u64 {
        let (first, last) = (list.remove(0), list.remove(list.len() - 1));
        assert!(rt; first == item && last == 999 - item);
    }
    let ends = (list.get(0).copied(), list.get(199).copied());
    assert!(rt; list.len() == 200 && ends == (Some(400), Some(599)));
    Ok(())
}

/// A list of the numbers below one.
fn numbers(alloc: Global, count: u64) -> Result<TieredList<u64>, NoRoom> {
    let mut list: TieredList<u64> = TieredList::new(alloc, 0);
    for number in 0..count {
        list.reserve(1)?;
        list.insert(list.len(), number);
    }
    Ok(list)
}

#[test]
fn refused_room_leaves_the_items(rt: HostRuntime) -> Result<(), Fail> {
    for &count in COUNTS {
        let mut list = numbers(rt.alloc(), count)?;
        let is_refused = list.reserve(usize::MAX).is_err() && list.reserve(1 << 63).is_err();
        assert!(rt; is_refused && has_numbers(&list, count));
    }
    Ok(())
}

/// How many items lists have.
const COUNTS: &[u64] = &[0, 1, 300];

/// Whether a list has the numbers below one, and no others.
fn has_numbers(list: &TieredList<u64>, count: u64) -> bool {
    for number in 0..count {
        if list.get(number as usize) != Some(&number) {
            return false;
        }
    }
    list.len() as u64 == count
}
