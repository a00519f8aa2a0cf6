//! Which of several sets is the first that writes a location.

ghost use Rattle.std.specs.Prelude.{◌≡◌, ◌<◌, ◌≤◌, ◌^◌, ℕ, Some, length, slice_get, if◌then◌else◌};
ghost use Rattle.std.specs.List.{AllByRecursion};
ghost use Rattle.rw_sets.specs.Accesses.{IsInRange, writes};
ghost use Rattle.mark_rounds.specs.Writers.{HaveFirstWriters};

use rw_sets::{RwSet, lookup_laws};

/// Notes at each location that one of the sets writes the place of the first that does. Elsewhere stands
/// what stood there.
pub(crate) fn note_writers(writers: &mut [u32], sets: &[RwSet])
    requires few { length sets.now ≤ 2 ^ 32 }
    requires wide { AllByRecursion (λ set. IsInRange set (length writers.old)) sets.now }
    ensures count { length writers.new ≡ length writers.old }
    ensures noted { HaveFirstWriters writers.new 0 sets.now }
{
    let mut rank = sets.len();
    while 0 < rank {
        rank -= 1;
        note_writer(writers, rank as u32, &sets[rank]);
    }
}

/// Notes a set's place at each location that it writes.
fn note_writer(writers: &mut [u32], rank: u32, set: &RwSet)
    requires wide { IsInRange set.now (length writers.old) }
    ensures count { length writers.new ≡ length writers.old }
    ensures noted { (loc : ℕ) → slice_get writers.new loc ≡ if writes set.now loc then Some rank else slice_get writers.old loc }
{
    lookup_laws();
    for pair in set.items() {
        if pair.1.is_write() {
            writers[pair.0 as usize] = rank;
        }
    }
}
