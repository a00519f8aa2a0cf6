ghost use Rattle.std.specs.Prelude.{◌≡◌, ◌≤◌, length};

use crate::Access;

/// Up to four pairs in place, which take no memory.
#[derive(Clone, Copy, Debug, Drop)]
pub(crate) struct Few {
    len: u8,
    pairs: [(u32, Access); Few::ROOM],
    ghost in_range: { len ≤ 4 },
    ghost room: { length pairs ≡ 4 },
}

impl Few {
    ghost use Rattle.std.specs.Prelude.{◌<◌, ◌↔◌, [], ◌∷◌, IfNone, IfSome, IsTrue, slice_set};
    ghost use Rattle.std.specs.List.{insert};
    ghost use Rattle.rw_sets.specs.Accesses.{access_at};
    ghost use Rattle.rw_sets.specs.Places.{IsAt};
    ghost use Rattle.rw_sets.specs.Storage.{items_of};

    pub(crate) const ROOM: usize = 4;

    #[inline(always)]
    pub(crate) fn new() -> Few
        ensures { items_of result ≡ [] }
    {
        Few {
            pairs: [(0, Access::Read); Few::ROOM],
            len: 0,
        }
    }

    #[inline(always)]
    pub(crate) fn of_two(first: (u32, Access), second: (u32, Access)) -> Few
        ensures { items_of result ≡ first ∷ second ∷ [] }
    {
        let unused = (0, Access::Read);
        Few {
            pairs: [first, second, unused, unused],
            len: 2,
        }
    }

    pub(crate) fn from_slice(pairs: &[(u32, Access)]) -> Few
        requires { length pairs.now ≤ 4 }
        ensures { items_of result ≡ pairs.now }
    {
        let mut few = Few::new();
        for pair in pairs {
            let len = usize::from(few.len);
            few.insert(len, *pair);
        }
        few
    }

    #[inline(always)]
    pub(crate) fn items(&self) -> &[(u32, Access)]
        ensures { result.now ≡ items_of self.now }
    {
        &self.pairs[..usize::from(self.len)]
    }

    /// Where a location is. Each place is looked at in turn and without a loop, so that nothing is
    /// left to do where the compiler sees what the set has.
    #[inline(always)]
    pub(crate) fn position_of(&self, loc: u32) -> Option<usize>
        ensures place { IfSome result (IsAt (items_of self.now) loc) }
        ensures absent { IfNone result (access_at (items_of self.now) loc ≡ None) }
    {
        if self.is_at(0, loc) {
            Some(0)
        } else if self.is_at(1, loc) {
            Some(1)
        } else if self.is_at(2, loc) {
            Some(2)
        } else if self.is_at(3, loc) {
            Some(3)
        } else {
            None
        }
    }

    #[inline(always)]
    fn is_at(&self, place: usize, loc: u32) -> bool
        ensures { IsTrue result ↔ IsAt (items_of self.now) loc place }
    {
        place < usize::from(self.len) && self.pairs[place].0 == loc
    }

    pub(crate) fn is_full(&self) -> bool
        ensures { IsTrue result ↔ (self.now.len ≡ 4) }
    {
        usize::from(self.len) == Few::ROOM
    }

    pub(crate) fn replace(&mut self, at: usize, pair: (u32, Access))
        requires { at < self.old.len }
        ensures { items_of self.new ≡ slice_set (items_of self.old) at pair }
    {
        self.pairs[at] = pair;
    }

    #[inline(always)]
    pub(crate) fn insert(&mut self, at: usize, pair: (u32, Access))
        requires in_range { at ≤ self.old.len }
        requires has_room { self.old.len < 4 }
        ensures { items_of self.new ≡ insert (items_of self.old) at pair }
    {
        let mut i = usize::from(self.len);
        while at < i {
            self.pairs[i] = self.pairs[i - 1];
            i -= 1;
        }
        self.pairs[at] = pair;
        self.len += 1;
    }
}
