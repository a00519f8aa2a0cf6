ghost use Rattle.std.specs.Prelude.{◌≡◌, ◌<◌, ◌≤◌, [], ◌∷◌, ◌++◌, length, vec_len, IfOk, OnOk, OnErr, slice_set};
ghost use Rattle.std.specs.List.{insert};
ghost use Rattle.rw_sets.specs.Storage.{pairs_of};

use crate::Access;
use crate::few::Few;
use kdg_text::NoRoom;
use std::alloc::Global;

/// A list of pairs: in place while it is short, so that a small set takes no memory.
#[derive(Debug, Drop)]
pub(crate) enum Pairs {
    InPlace(Few),
    InMemory(Vec<(u32, Access)>),
}

impl Pairs {
    #[inline(always)]
    pub(crate) fn new() -> Pairs
        ensures { pairs_of result ≡ [] }
    {
        Pairs::InPlace(Few::new())
    }

    /// An empty list with room for `room` pairs.
    pub(crate) fn with_room(alloc: Global, room: usize) -> Result<Pairs, NoRoom>
        ensures { IfOk result (λ pairs. pairs_of pairs ≡ []) }
    {
        if room <= Few::ROOM {
            return Ok(Pairs::new());
        }
        Ok(Pairs::InMemory(Vec::with_capacity(alloc, room)?))
    }

    /// The list that a vector has, which stands in place where it is short.
    pub(crate) fn from_vec(pairs: Vec<(u32, Access)>) -> Pairs
        ensures { pairs_of result ≡ pairs.items }
    {
        if pairs.len() <= Few::ROOM {
            return Pairs::InPlace(Few::from_slice(&pairs));
        }
        Pairs::InMemory(pairs)
    }

    #[inline(always)]
    pub(crate) fn items(&self) -> &[(u32, Access)]
        ensures { result.now ≡ pairs_of self.now }
    {
        match self {
            Pairs::InPlace(few) => few.items(),
            Pairs::InMemory(pairs) => pairs,
        }
    }

    #[inline(always)]
    pub(crate) fn copy(&self, alloc: Global) -> Result<Pairs, NoRoom>
        ensures { IfOk result (λ pairs. pairs_of pairs ≡ pairs_of self.now) }
    {
        match self {
            Pairs::InPlace(few) => Ok(Pairs::InPlace(*few)),
            Pairs::InMemory(pairs) => Ok(Pairs::InMemory(Vec::from_slice(alloc, pairs)?)),
        }
    }

    pub(crate) fn replace(&mut self, at: usize, pair: (u32, Access))
        requires { at < length (pairs_of self.old) }
        ensures { pairs_of self.new ≡ slice_set (pairs_of self.old) at pair }
    {
        match self {
            Pairs::InPlace(few) => few.replace(at, pair),
            Pairs::InMemory(pairs) => pairs[at] = pair,
        }
    }

    /// After `NoRoom` the list is as it was.
    #[inline(always)]
    pub(crate) fn insert(
        &mut self,
        alloc: Global,
        at: usize,
        pair: (u32, Access),
    ) -> Result<(), NoRoom>
        requires { at ≤ length (pairs_of self.old) }
        ensures ok { OnOk result (pairs_of self.new ≡ insert (pairs_of self.old) at pair) }
        ensures err { OnErr result (pairs_of self.new ≡ pairs_of self.old) }
    {
        match self {
            Pairs::InPlace(few) if few.is_full() => {
                let mut pairs = Vec::with_capacity(alloc, 2 * Few::ROOM)?;
                pairs.extend_from_slice(few.items())?;
                pairs.insert(at, pair)?;
                *self = Pairs::InMemory(pairs);
            }
            Pairs::InPlace(few) => few.insert(at, pair),
            Pairs::InMemory(pairs) => pairs.insert(at, pair)?,
        }
        Ok(())
    }

    pub(crate) fn push(&mut self, alloc: Global, pair: (u32, Access)) -> Result<(), NoRoom>
        ensures { OnOk result (pairs_of self.new ≡ pairs_of self.old ++ pair ∷ []) }
    {
        let len = self.items().len();
        self.insert(alloc, len, pair)
    }

    pub(crate) fn extend(&mut self, alloc: Global, pairs: &[(u32, Access)]) -> Result<(), NoRoom>
        ensures { OnOk result (pairs_of self.new ≡ pairs_of self.old ++ pairs.now) }
    {
        for pair in pairs {
            self.push(alloc, *pair)?;
        }
        Ok(())
    }
}
