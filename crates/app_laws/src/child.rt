ghost use Rattle.std.specs.Prelude.{◌≡◌, ◌<◌, ◌^◌, ◌-◌, [], ◌∷◌, ◌++◌, length, IfErr, OnOk, OnErr};
ghost use Rattle.app_laws.specs.Storage.{IsAdded};

use rw_sets::RwSet;
use std::alloc::Global;
use std::marker::Model;
use std::{mem, slice};
use task_order::Body;

/// How many children there is room for as soon as there are two.
const FEW: usize = 4;

/// A task that another one creates, before it has a key, with the set that it declares.
#[derive(Drop)]
pub struct Child {
    pub prio: u64,
    pub body: Body,
    pub set: RwSet,
}

/// The children of a task, in order, fewer than 2^32. An only child stands in place, so it takes no
/// memory.
pub struct ChildList {
    children: Children,
    alloc: Global,
}

#[derive(Drop)]
pub(crate) enum Children {
    None,
    One(Child),
    Many(Vec<Child>),
}

impl Model for ChildList {
    ghost use Rattle.std.specs.Prelude.{List, ◌<◌, ◌^◌, length};
    ghost use Rattle.app_laws.specs.declared.child.Child.{Child};
    ghost use Rattle.app_laws.specs.Storage.{children_in};

    ghost Value = { List Child };

    ghost view = { λ l. children_in l.children };

    ghost invariant = { λ l. length (children_in l.children) < 2 ^ 32 };
}

// By hand, so that where a list is dropped no proof looks into its parts.
impl Drop for ChildList {
    fn drop(self) {
        let ChildList {
            children: _,
            alloc: _,
        } = self;
    }
}

impl ChildList {
    /// An empty list, which takes no memory.
    pub fn new(alloc: Global) -> ChildList
        ensures { result ≡ [] }
    {
        ChildList {
            children: Children::None,
            alloc,
        }
    }

    /// Adds a child at the end. Where memory runs out, the child comes back and the list is as it
    /// was.
    #[inline(always)]
    pub fn push(&mut self, child: Child) -> Result<(), Child>
        requires { length self.old < 2 ^ 32 - 1 }
        ensures ok { OnOk result (self.new ≡ self.old ++ child ∷ []) }
        ensures returned { IfErr result (λ back. back ≡ child) }
        ensures unchanged { OnErr result (self.new ≡ self.old) }
    {
        if let Children::None = self.children {
            self.children = Children::One(child);
            return Ok(());
        }
        self.push_further(child)
    }

    /// Adds a child, also where there are some. This is apart, since most tasks have at most one, and
    /// what it moves takes place.
    #[inline(never)]
    fn push_further(&mut self, child: Child) -> Result<(), Child>
        requires { length self.old < 2 ^ 32 - 1 }
        ensures ok { OnOk result (self.new ≡ self.old ++ child ∷ []) }
        ensures returned { IfErr result (λ back. back ≡ child) }
        ensures unchanged { OnErr result (self.new ≡ self.old) }
    {
        let (children, refused) = match mem::replace(&mut self.children, Children::None) {
            Children::None => (Children::One(child), None),
            Children::One(first) => pair(self.alloc, first, child),
            Children::Many(children) => longer(children, child),
        };
        self.children = children;
        match refused {
            None => Ok(()),
            Some(child) => Err(child),
        }
    }

    /// The children, in order.
    #[inline(always)]
    pub fn items(&self) -> &[Child]
        ensures all { result.now ≡ self.now }
        ensures few { length self.now < 2 ^ 32 }
    {
        match &self.children {
            Children::None => &[],
            Children::One(child) => slice::from_ref(child),
            Children::Many(children) => children,
        }
    }
}

/// Two children, or the first alone and the second back where memory runs out.
fn pair(alloc: Global, first: Child, second: Child) -> (Children, Option<Child>)
    ensures { IsAdded (first ∷ []) second result.0 result.1 }
{
    let Ok(mut children) = Vec::with_capacity(alloc, FEW) else {
        return (Children::One(first), Some(second));
    };
    children.push_reserved(first);
    children.push_reserved(second);
    (Children::Many(children), None)
}

/// The children and one more, or these alone and the one more back where memory runs out.
fn longer(mut children: Vec<Child>, child: Child) -> (Children, Option<Child>)
    ensures { IsAdded children.items child result.0 result.1 }
{
    match children.push(child) {
        Ok(()) => (Children::Many(children), None),
        Err(failed) => (Children::Many(children), Some(failed.value)),
    }
}
