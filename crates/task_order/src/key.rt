ghost use Rattle.std.specs.Prelude.{◌≡◌, ◌≤◌, ◌↔◌, IfOk};
ghost use Rattle.std.specs.Cmp.{IsTotalOrder};
ghost use Rattle.task_order.specs.Key.{key_cmp, child_key, IsExactOrder, ChildrenComeLater, ChildrenComeInTurn};

use crate::Path;
use kdg_text::NoRoom;
use std::cmp::Ordering;

/// What orders the tasks: by priority, the lowest first, and then by path.
#[derive(Debug, Drop, PartialEq, Eq, PartialOrd, Ord)]
pub struct Key {
    pub prio: u64,
    pub path: Path,
}

impl Key {
    /// The key of the child with this number, counted from 0, of the task with this key. It comes
    /// after this key.
    #[inline(always)]
    pub fn child(&self, number: u32, prio: u64) -> Result<Key, NoRoom>
        requires { self.now.prio ≤ prio }
        ensures key { IfOk result (λ key. key ≡ child_key self.now number prio) }
        ensures later { IfOk result (λ key. key_cmp self.now key ≡ Ordering.Less) }
    {
        Ok(Key {
            prio,
            path: self.path.child(number)?,
        })
    }

    /// How the two keys compare. They are `Equal` only where they are the same.
    #[inline(always)]
    pub fn compare(&self, other: &Key) -> Ordering
        ensures order { result ≡ key_cmp self.now other.now }
        ensures same { (result ≡ Ordering.Equal) ↔ (self.now ≡ other.now) }
    {
        match self.prio.cmp(&other.prio) {
            Ordering::Equal => self.path.cmp(&other.path),
            order => order,
        }
    }

    /// An equal key.
    pub fn copy(&self) -> Result<Key, NoRoom>
        ensures { IfOk result (λ key. key ≡ self.now) }
    {
        Ok(Key {
            prio: self.prio,
            path: self.path.copy()?,
        })
    }
}

/// The order of keys is strict and total, and a family keeps it: a child comes after its parent,
/// and after the children with lower numbers at its priority.
pub fn key_order()
    ensures total { IsTotalOrder key_cmp }
    ensures exact { IsExactOrder }
    ensures child_later { ChildrenComeLater }
    ensures children_in_turn { ChildrenComeInTurn }
{}
