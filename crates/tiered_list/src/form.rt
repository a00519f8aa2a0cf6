ghost use Rattle.std.specs.Prelude.{◌≡◌, ◌+◌, ◌<◌, ◌≤◌, ◌^◌, [], ◌++◌, Some, length, slice_get, IfOk, MatchOption, OnErr, OnOk};
ghost use Rattle.std.specs.List.{insert, remove};
ghost use Rattle.std.specs.Map.Iter.{deref};
ghost use Rattle.std.specs.Option.{option_map};
ghost use Rattle.std.specs.VecDeque.{deque_capacity};
ghost use Rattle.tiered_list.specs.Form.{IsForm, tiered_of};
ghost use Rattle.tiered_list.specs.Tiers.{all_items, room_for};

use crate::in_place::{IN_PLACE, put_among, take_from};
use crate::ring::{put_at, take_at};
use crate::tiers::Tiers;
use kdg_text::NoRoom;
use std::alloc::Global;
use std::collections::VecDeque;

/// How many items there may be at most in a ring that takes more memory.
const FEW: usize = 256;

/// How a list is kept: the first few items in place, so that who reads the list reads no other memory,
/// more of them in a ring buffer, which takes little more than its items, and many in tiers.
#[derive(Drop)]
pub(crate) enum Form<T> {
    /// So many of these. What stands behind them is no item.
    InPlace { len: u8, items: [T; IN_PLACE] },
    Ring(VecDeque<T>),
    Tiers(Box<Tiers<T>>),
}

/// Moves all items of a ring to tiers that have room for them.
fn move_all<T>(ring: &mut VecDeque<T>, tiers: &mut Tiers<T>)
    requires { length (all_items tiers.old) + length ring.old.items ≤ room_for tiers.old }
    ensures items { all_items tiers.new ≡ all_items tiers.old ++ ring.old.items }
    ensures room { room_for tiers.new ≡ room_for tiers.old }
{
    while let Some(item) = ring.pop_front() {
        tiers.push_back(item);
    }
}

/// The items of a ring in tiers, with room for `additional` more. After `NoRoom` the ring is as it was.
fn tiers_from<T: Drop>(ring: &mut VecDeque<T>, additional: usize) -> Result<Box<Tiers<T>>, NoRoom>
    ensures items { IfOk result (λ tiers. all_items tiers.value ≡ ring.old.items) }
    ensures room { IfOk result (λ tiers. length ring.old.items + additional ≤ room_for tiers.value) }
    ensures no_less { IfOk result (λ tiers. deque_capacity ring.old ≤ room_for tiers.value) }
    ensures unchanged { OnErr result (ring.new ≡ ring.old) }
{
    let Some(total) = ring.len().checked_add(additional) else {
        return Err(NoRoom);
    };
    let alloc = *ring.allocator();
    let mut tiers = Box::new(alloc, Tiers::new(alloc)?)?;
    tiers.reserve(total.max(ring.capacity()))?;
    move_all(ring, &mut tiers);
    Ok(tiers)
}

/// Makes room for `additional` more items in a ring, or gives tiers with all its items and that room,
/// where there may then be more than a few.
fn with_room<T: Drop>(
    ring: &mut VecDeque<T>,
    additional: usize,
) -> Result<Option<Box<Tiers<T>>>, NoRoom>
    ensures items { IfOk result (λ moved. MatchOption moved (ring.new.items ≡ ring.old.items) (λ tiers. all_items tiers.value ≡ ring.old.items)) }
    ensures room { IfOk result (λ moved. MatchOption moved (length ring.old.items + additional ≤ deque_capacity ring.new) (λ tiers. length ring.old.items + additional ≤ room_for tiers.value)) }
    ensures no_less { IfOk result (λ moved. MatchOption moved (deque_capacity ring.old ≤ deque_capacity ring.new) (λ tiers. deque_capacity ring.old ≤ room_for tiers.value)) }
    ensures same_items { OnErr result (ring.new.items ≡ ring.old.items) }
    ensures same_room { OnErr result (deque_capacity ring.old ≤ deque_capacity ring.new) }
{
    if additional <= ring.capacity() - ring.len() {
        return Ok(None);
    }
    if ring.len().saturating_add(additional) > FEW {
        return Ok(Some(tiers_from(ring, additional)?));
    }
    ring.reserve(additional)?;
    Ok(None)
}

/// Items in memory of their own, with room for `additional` more.
#[inline(never)]
fn in_memory<T: Copy + Drop>(
    alloc: Global,
    items: &[T],
    additional: usize,
) -> Result<Form<T>, NoRoom>
    ensures items { IfOk result (λ form. (tiered_of form).items ≡ items.now) }
    ensures room { IfOk result (λ form. length items.now + additional ≤ (tiered_of form).capacity) }
    ensures form { IfOk result IsForm }
{
    let mut ring = VecDeque::with_capacity(alloc, items.len())?;
    for item in items {
        ring.push_back_reserved(*item);
    }
    match with_room(&mut ring, additional)? {
        Some(tiers) => Ok(Form::Tiers(tiers)),
        None => Ok(Form::Ring(ring)),
    }
}

impl<T: Copy> Form<T> {
    /// No items. `unused` stands where no item is.
    pub(crate) fn new(unused: T) -> Form<T>
        ensures items { (tiered_of result).items ≡ [] }
        ensures form { IsForm result }
    {
        Form::InPlace {
            len: 0,
            items: [unused; IN_PLACE],
        }
    }

    #[inline(always)]
    pub(crate) fn len(&self) -> usize
        requires { IsForm self.now }
        ensures len { result ≡ length (tiered_of self.now).items }
        ensures small { result < 2 ^ 63 }
    {
        match self {
            Form::InPlace { len, .. } => usize::from(*len),
            Form::Ring(ring) => ring.len(),
            Form::Tiers(tiers) => tiers.len(),
        }
    }

    #[inline(always)]
    pub(crate) fn get(&self, place: usize) -> Option<&T>
        requires { IsForm self.now }
        ensures { option_map deref result ≡ slice_get (tiered_of self.now).items place }
    {
        match self {
            Form::InPlace { len, items } => {
                if place < usize::from(*len) {
                    Some(&items[place])
                } else {
                    None
                }
            }
            Form::Ring(ring) => ring.get(place),
            Form::Tiers(tiers) => tiers.get(place),
        }
    }

    /// Makes room for `additional` more items. Where there is none, items in place move to memory, and
    /// those of a ring to tiers if there may then be more than a few.
    #[inline(always)]
    pub(crate) fn reserve(&mut self, alloc: Global, additional: usize) -> Result<(), NoRoom>
    where
        T: Drop,
        requires { IsForm self.old }
        ensures room { OnOk result (length (tiered_of self.old).items + additional ≤ (tiered_of self.new).capacity) }
        ensures no_less { (tiered_of self.old).capacity ≤ (tiered_of self.new).capacity }
        ensures items { (tiered_of self.new).items ≡ (tiered_of self.old).items }
        ensures form { IsForm self.new }
    {
        match self {
            Form::InPlace { len, .. } => {
                let len = usize::from(*len);
                if additional > IN_PLACE - len {
                    let Form::InPlace { items, .. } = &*self else {
                        unreachable!()
                    };
                    *self = in_memory(alloc, &items[..len], additional)?;
                }
            }
            Form::Ring(ring) => {
                if let Some(tiers) = with_room(ring, additional)? {
                    *self = Form::Tiers(tiers);
                }
            }
            Form::Tiers(tiers) => tiers.reserve(additional)?,
        }
        Ok(())
    }

    #[inline(always)]
    pub(crate) fn insert(&mut self, place: usize, item: T)
        requires form { IsForm self.old }
        requires inside { place ≤ length (tiered_of self.old).items }
        requires room { length (tiered_of self.old).items < (tiered_of self.old).capacity }
        ensures items { (tiered_of self.new).items ≡ insert (tiered_of self.old).items place item }
        ensures capacity { (tiered_of self.old).capacity ≤ (tiered_of self.new).capacity }
        ensures form { IsForm self.new }
    {
        match self {
            Form::InPlace { len, .. } => {
                let before = usize::from(*len);
                *len += 1;
                let Form::InPlace { items, .. } = self else {
                    unreachable!()
                };
                put_among(items, before, place, item);
            }
            Form::Ring(ring) => put_at(ring, place, item),
            Form::Tiers(tiers) => tiers.insert(place, item),
        }
    }

    #[inline(always)]
    pub(crate) fn clear(&mut self)
    where
        T: Drop,
        requires { IsForm self.old }
        ensures items { (tiered_of self.new).items ≡ [] }
        ensures capacity { (tiered_of self.new).capacity ≡ (tiered_of self.old).capacity }
        ensures form { IsForm self.new }
    {
        match self {
            Form::InPlace { len, .. } => *len = 0,
            Form::Ring(ring) => ring.clear(),
            Form::Tiers(tiers) => tiers.clear(),
        }
    }

    #[inline(always)]
    pub(crate) fn remove(&mut self, place: usize) -> T
        requires form { IsForm self.old }
        requires inside { place < length (tiered_of self.old).items }
        ensures item { slice_get (tiered_of self.old).items place ≡ Some result }
        ensures items { (tiered_of self.new).items ≡ remove (tiered_of self.old).items place }
        ensures capacity { (tiered_of self.new).capacity ≡ (tiered_of self.old).capacity }
        ensures form { IsForm self.new }
    {
        match self {
            Form::InPlace { len, .. } => {
                let before = usize::from(*len);
                *len -= 1;
                let Form::InPlace { items, .. } = self else {
                    unreachable!()
                };
                take_from(items, before, place)
            }
            Form::Ring(ring) => take_at(ring, place),
            Form::Tiers(tiers) => tiers.remove(place),
        }
    }
}
