ghost use Rattle.std.specs.Prelude.{◌≡◌, ◌≢◌, ◌<◌, ◌↔◌, [], ◌∷◌, IsTrue, IfSome, IfNone, IfOk, IfErr, OnOk, OnErr};
ghost use Rattle.rw_sets.specs.Accesses.{IsAscending, access_at, Conflicts, conflicts_with, merged, same_accesses};
ghost use Rattle.std.proofs.Common.{rules};
ghost use Rattle.std.specs.Cmp.Rules.{comparing};
ghost use Rattle.rw_sets.specs.Places.{IsAt, IsGapFor};

use crate::Access;
use crate::few::Few;
use crate::pairs::Pairs;
use crate::walk::{join_repeats, merge_pairs, pairs_conflict};
use kdg_text::NoRoom;
use std::alloc::Global;
use std::marker::Model;

/// Locations in ascending order, each once, with the access to it. A few of them stand in place.
#[derive(Debug, Drop)]
pub struct RwSet {
    pairs: Pairs,
    alloc: Global,
}

impl Model for RwSet {
    ghost use Rattle.rw_sets.specs.Accesses.{Accesses, IsAscending};
    ghost use Rattle.rw_sets.specs.Storage.{pairs_of};

    ghost Value = { Accesses };

    ghost view = { λ set. pairs_of set.pairs };

    ghost invariant = { λ set. IsAscending (pairs_of set.pairs) };
}

impl PartialEq for RwSet {
    ghost eq = { same_accesses };

    ghost laws = { Prim.search (comparing, rules) };

    fn eq(&self, other: &RwSet) -> bool {
        self.items() == other.items()
    }
}

impl Eq for RwSet {
    ghost laws = { Prim.search (comparing, rules) };
}

impl RwSet {
    /// A set with no location, which takes no memory.
    #[inline(always)]
    pub fn new(alloc: Global) -> RwSet
        ensures { result ≡ [] }
    {
        RwSet {
            pairs: Pairs::new(),
            alloc,
        }
    }

    /// The set of the accesses to two locations that differ, which takes no memory.
    #[inline(always)]
    pub fn of_two(alloc: Global, first: (u32, Access), second: (u32, Access)) -> RwSet
        requires { first.0 ≢ second.0 }
        ensures { result ≡ merged [] (first ∷ second ∷ []) }
    {
        if first.0 < second.0 {
            RwSet::in_order(alloc, first, second)
        } else {
            RwSet::in_order(alloc, second, first)
        }
    }

    /// The set of two accesses, of which the first has the lower location.
    #[inline(always)]
    fn in_order(alloc: Global, first: (u32, Access), second: (u32, Access)) -> RwSet
        requires { first.0 < second.0 }
        ensures { result ≡ first ∷ second ∷ [] }
    {
        RwSet {
            pairs: Pairs::InPlace(Few::of_two(first, second)),
            alloc,
        }
    }

    /// The set that these pairs make together, in whatever order and however often a location is
    /// there. Takes no memory.
    pub fn from_pairs(mut pairs: Vec<(u32, Access)>) -> RwSet
        ensures { result ≡ merged [] pairs.items }
    {
        let alloc = *pairs.allocator();
        pairs.sort_unstable_by_key(|pair| pair.0);
        join_repeats(&mut pairs);
        let pairs = Pairs::from_vec(pairs);
        RwSet { pairs, alloc }
    }

    /// The locations with their access, in ascending order.
    #[inline(always)]
    pub fn items(&self) -> &[(u32, Access)]
        ensures all { result.now ≡ self.now }
        ensures ascending { IsAscending self.now }
    {
        self.pairs.items()
    }

    /// Merges the access to one location into the set. After `NoRoom` the set is as it was.
    #[inline(always)]
    pub fn add(&mut self, loc: u32, access: Access) -> Result<(), NoRoom>
        ensures ok { OnOk result (self.new ≡ merged self.old ((loc, access) ∷ [])) }
        ensures err { OnErr result (self.new ≡ self.old) }
    {
        match self.place_of(loc) {
            Ok(at) => {
                let held = self.pairs.items()[at].1;
                self.pairs.replace(at, (loc, held.stronger(access)));
                Ok(())
            }
            Err(at) => self.pairs.insert(self.alloc, at, (loc, access)),
        }
    }

    /// The access to a location, or `None` where the set lacks it.
    pub fn contains(&self, loc: u32) -> Option<Access>
        ensures { result ≡ access_at self.now loc }
    {
        match self.place_of(loc) {
            Ok(at) => Some(self.pairs.items()[at].1),
            Err(_) => None,
        }
    }

    /// The place of a location among the items, or `None` where the set lacks it.
    #[inline(always)]
    pub fn position_of(&self, loc: u32) -> Option<usize>
        ensures place { IfSome result (IsAt self.now loc) }
        ensures absent { IfNone result (access_at self.now loc ≡ None) }
    {
        match &self.pairs {
            Pairs::InPlace(few) => few.position_of(loc),
            Pairs::InMemory(_) => self.place_of(loc).ok(),
        }
    }

    /// Whether the sets share a location that at least one of them writes.
    pub fn conflicts(&self, other: &RwSet) -> bool
        ensures where_shared { IsTrue result ↔ Conflicts self.now other.now }
        ensures tested { result ≡ conflicts_with self.now other.now }
    {
        pairs_conflict(self.items(), other.items())
    }

    /// The set with every location of both, written where either writes it.
    pub fn merge(&self, other: &RwSet) -> Result<RwSet, NoRoom>
        ensures { IfOk result (λ set. set ≡ merged self.now other.now) }
    {
        let alloc = self.alloc;
        let pairs = merge_pairs(alloc, self.items(), other.items())?;
        Ok(RwSet { pairs, alloc })
    }

    /// An equal set.
    #[inline(always)]
    pub fn copy(&self) -> Result<RwSet, NoRoom>
        ensures { IfOk result (λ set. set ≡ self.now) }
    {
        let alloc = self.alloc;
        let pairs = self.pairs.copy(alloc)?;
        Ok(RwSet { pairs, alloc })
    }

    /// Where the location is, or where it would go: at once at the end, else by halving.
    #[inline(always)]
    fn place_of(&self, loc: u32) -> Result<usize, usize>
        ensures found { IfOk result (IsAt self.now loc) }
        ensures absent { IfErr result (IsGapFor self.now loc) }
    {
        let pairs = self.pairs.items();
        let len = pairs.len();
        if len == 0 || pairs[len - 1].0 < loc {
            return Err(len);
        }
        pairs.binary_search_by_key(&loc, |pair| pair.0)
    }
}
