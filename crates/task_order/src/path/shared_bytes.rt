ghost use Rattle.std.specs.Prelude.{◌≡◌, [], ◌∷◌, ◌++◌, slice_get, IfOk, IfSome, OnOk};
ghost use Rattle.std.specs.Cmp.Lexicographic.{slice_cmp};
ghost use Rattle.std.specs.Ordering.{nat_cmp};
ghost use Rattle.task_order.specs.PathCode.{first_word};

use super::in_place::{InPlace, first_word_of, order_in_place};
use super::node::{Chain, IN_PLACE, Node, byte_of, grown, len_of, order_of, order_of_full, share};
use kdg_text::NoRoom;
use std::alloc::Global;
use std::cmp::Ordering;
use std::marker::Model;
use std::sync::Arc;

/// A list of bytes that grows at its end. A copy shares most of its memory, and takes time and
/// memory that don't grow with the length.
#[derive(Drop)]
pub(super) struct SharedBytes {
    nodes: Chain,
    // with zeros behind the end, so that they compare by words
    rest: InPlace,
    rest_len: usize,
    alloc: Global,
}

impl Model for SharedBytes {
    ghost use Rattle.std.specs.Prelude.{List, ℕ, ◌++◌, take};
    ghost use Rattle.task_order.specs.SharedBytes.{chain, IsShared};

    ghost Value = { List ℕ };

    ghost view = { λ b. chain b.nodes ++ take b.rest_len b.rest };

    ghost invariant = { λ b. IsShared (chain b.nodes) b.rest b.rest_len };
}

impl SharedBytes {
    /// No bytes, which take no memory.
    pub(super) fn new(alloc: Global) -> SharedBytes
        ensures { result ≡ [] }
    {
        SharedBytes {
            nodes: None,
            rest: [0; IN_PLACE],
            rest_len: 0,
            alloc,
        }
    }

    /// Adds a byte at the end.
    pub(super) fn push(&mut self, byte: u8) -> Result<(), NoRoom>
        ensures { OnOk result (self.new ≡ self.old ++ byte ∷ []) }
    {
        if self.rest_len == IN_PLACE {
            let node = grown(self.alloc, &self.nodes, &self.rest)?;
            self.nodes = Some(Arc::new(self.alloc, node)?);
            self.rest = [0; IN_PLACE];
            self.rest_len = 0;
        }
        self.rest[self.rest_len] = byte;
        self.rest_len += 1;
        Ok(())
    }

    /// An equal list of bytes.
    pub(super) fn copy(&self) -> Result<SharedBytes, NoRoom>
        ensures { IfOk result (λ bytes. bytes ≡ self.now) }
    {
        Ok(SharedBytes {
            nodes: share(&self.nodes)?,
            rest: self.rest,
            rest_len: self.rest_len,
            alloc: self.alloc,
        })
    }

    /// The first eight bytes, with zeros behind their end, as a number whose first digit is the first of
    /// them.
    pub(super) fn beginning(&self) -> u64
        ensures { result ≡ first_word self.now }
    {
        match &self.nodes {
            Some(node) => {
                let node: &Node = node;
                node.beginning()
            }
            None => first_word_of(&self.rest),
        }
    }

    /// How the two compare, byte by byte, where a proper prefix comes first, if the bytes of both
    /// stand in place.
    #[inline(always)]
    pub(super) fn compare_in_place(&self, other: &SharedBytes) -> Option<Ordering>
        ensures { IfSome result (λ order. order ≡ slice_cmp nat_cmp self.now other.now) }
    {
        match (&self.nodes, &other.nodes) {
            (None, None) => Some(order_in_place(
                &self.rest,
                self.rest_len,
                &other.rest,
                other.rest_len,
            )),
            _ => None,
        }
    }

    /// How the two compare, wherever their bytes stand.
    pub(super) fn compare(&self, other: &SharedBytes) -> Ordering
        ensures { result ≡ slice_cmp nat_cmp self.now other.now }
    {
        if len_of(&self.nodes) != len_of(&other.nodes) {
            let rest = &self.rest[..self.rest_len];
            let other_rest = &other.rest[..other.rest_len];
            return order_of(&self.nodes, rest, &other.nodes, other_rest);
        }
        match order_of_full(&self.nodes, &other.nodes) {
            Ordering::Equal => {
                order_in_place(&self.rest, self.rest_len, &other.rest, other.rest_len)
            }
            order => order,
        }
    }

    /// The byte at this index, if there are as many.
    pub(super) fn get(&self, at: usize) -> Option<u8>
        ensures { result ≡ slice_get self.now at }
    {
        let start = len_of(&self.nodes);
        if at < start {
            byte_of(&self.nodes, at)
        } else {
            self.rest[..self.rest_len].get(at - start).copied()
        }
    }
}
