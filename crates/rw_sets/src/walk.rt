ghost use Rattle.std.specs.Prelude.{◌≡◌, ◌↔◌, [], IsTrue, IfOk};
ghost use Rattle.std.specs.List.Sorted.{IsNonDecreasingBy};
ghost use Rattle.rw_sets.specs.Storage.{pairs_of};
ghost use Rattle.rw_sets.specs.Accesses.{IsAscending, Conflicts, merged};

use crate::Access;
use crate::pairs::Pairs;
use kdg_text::NoRoom;
use std::alloc::Global;
use std::cmp::Ordering;

/// Whether two sets conflict, in one walk over both.
pub(crate) fn pairs_conflict(a: &[(u32, Access)], b: &[(u32, Access)]) -> bool
    requires a_ascends { IsAscending a.now }
    requires b_ascends { IsAscending b.now }
    ensures { IsTrue result ↔ Conflicts a.now b.now }
{
    let (mut left, mut right) = (a, b);
    while let ([x, left_rest @ ..], [y, right_rest @ ..]) = (left, right) {
        match x.0.cmp(&y.0) {
            Ordering::Less => left = left_rest,
            Ordering::Greater => right = right_rest,
            Ordering::Equal if x.1.excludes(y.1) => return true,
            Ordering::Equal => {
                left = left_rest;
                right = right_rest;
            }
        }
    }
    false
}

/// The merge of two sets, in one walk over both.
pub(crate) fn merge_pairs(
    alloc: Global,
    a: &[(u32, Access)],
    b: &[(u32, Access)],
) -> Result<Pairs, NoRoom>
    requires a_ascends { IsAscending a.now }
    requires b_ascends { IsAscending b.now }
    ensures { IfOk result (λ pairs. pairs_of pairs ≡ merged a.now b.now) }
{
    let (mut left, mut right) = (a, b);
    let mut pairs = Pairs::with_room(alloc, a.len() + b.len())?;
    while let ([x, left_rest @ ..], [y, right_rest @ ..]) = (left, right) {
        match x.0.cmp(&y.0) {
            Ordering::Less => {
                pairs.push(alloc, *x)?;
                left = left_rest;
            }
            Ordering::Greater => {
                pairs.push(alloc, *y)?;
                right = right_rest;
            }
            Ordering::Equal => {
                pairs.push(alloc, (x.0, x.1.stronger(y.1)))?;
                left = left_rest;
                right = right_rest;
            }
        }
    }
    pairs.extend(alloc, left)?;
    pairs.extend(alloc, right)?;
    Ok(pairs)
}

/// Joins the accesses to each location, where pairs of one location are neighbours.
pub(crate) fn join_repeats(pairs: &mut Vec<(u32, Access)>)
    requires sorted { IsNonDecreasingBy (λ pair. pair.0) pairs.old.items }
    ensures { pairs.new.items ≡ merged [] pairs.old.items }
{
    let mut kept = 0;
    for i in 0..pairs.len() {
        let (loc, access) = pairs[i];
        if kept > 0 && pairs[kept - 1].0 == loc {
            let held = pairs[kept - 1].1;
            pairs[kept - 1] = (loc, held.stronger(access));
        } else {
            pairs[kept] = (loc, access);
            kept += 1;
        }
    }
    pairs.truncate(kept);
}
