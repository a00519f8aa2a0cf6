ghost use Rattle.std.specs.Prelude.{◌≡◌, ◌+◌, ◌*◌, ◌<◌, ◌%◌, ◌^◌, ◌≤◌, [], ◌++◌, length, take, slice_get, IfOk};
ghost use Rattle.std.specs.Cmp.Lexicographic.{slice_cmp};
ghost use Rattle.std.specs.Ordering.{nat_cmp, ordering_then};
ghost use Rattle.std.specs.declared.cmp.Ordering.TheVariants.{Less};
ghost use Rattle.task_order.specs.PathCode.{first_word};
ghost use Rattle.task_order.specs.SharedBytes.{chain};

use super::in_place::{InPlace, first_word_of};
use super::joined::{order_of_alike, order_of_joined};
use kdg_text::NoRoom;
use std::alloc::Global;
use std::cmp::Ordering;
use std::marker::Model;
use std::sync::Arc;

/// The most bytes that a list keeps in place.
pub(super) const IN_PLACE: usize = 16;

/// The bytes of a full node.
const FULL_NODE: usize = 32 * IN_PLACE;

/// The last of some nodes, or none.
pub(super) type Chain = Option<Arc<Node>>;

/// Bytes that many lists may share, behind those of the nodes before it, which are full. It is seen
/// as all of these bytes.
pub(super) struct Node {
    bytes: Vec<u8>,
    level: u32,
    // the first bytes of all, so that no search goes back to them
    beginning: u64,
    before: Chain,
}

impl Model for Node {
    ghost use Rattle.std.specs.Prelude.{List, ℕ, ◌++◌, length};
    ghost use Rattle.std.proofs.Common.{arith, length-append};
    ghost use Rattle.task_order.specs.SharedBytes.{chain, IsNode};

    ghost Value = { List ℕ };

    ghost view = { λ n. chain n.before ++ n.bytes.items };

    ghost invariant = { λ n. IsNode n.level n.beginning n.bytes.items (chain n.before) };

    ghost size = { length };

    ghost size_decreases = { λ a h. Prim.grind (arith, length-append) };
}

impl Drop for Node {
    fn drop(mut self) {
        loop {
            let Node {
                bytes: _,
                level: _,
                beginning: _,
                before,
            } = self;
            let Some(arc) = before else { return };
            let Some(node) = Arc::into_inner(arc) else {
                return;
            };
            self = node;
        }
    }
}

impl Node {
    /// The first bytes as a number.
    pub(super) fn beginning(&self) -> u64
        ensures beginning { result ≡ first_word self.now }
        ensures whole { 8 ≤ length self.now }
    {
        self.beginning
    }

    /// The node, of those that end here, with this level.
    fn at_level(&self, level: u32) -> &Node
        requires { FULL_NODE * level < length self.now }
        ensures begins { result.now ≡ take (length result.now) self.now }
        ensures not_below { FULL_NODE * level < length result.now }
        ensures not_above { length result.now ≤ FULL_NODE * level + FULL_NODE }
    {
        let mut node = self;
        while node.level > level {
            let Some(before) = &node.before else {
                unreachable!()
            };
            node = before;
        }
        node
    }
}

/// The nodes again.
pub(super) fn share(nodes: &Chain) -> Result<Chain, NoRoom>
    ensures { IfOk result (λ shared. chain shared ≡ chain nodes.now) }
{
    match nodes {
        Some(node) => Ok(Some(Arc::try_clone(node)?)),
        None => Ok(None),
    }
}

/// A node with the bytes of these and the new ones.
pub(super) fn grown(alloc: Global, nodes: &Chain, bytes: &InPlace) -> Result<Node, NoRoom>
    requires whole { length (chain nodes.now) % IN_PLACE ≡ 0 }
    ensures { IfOk result (λ node. node ≡ chain nodes.now ++ bytes.now) }
{
    let Some(last) = nodes else {
        return Ok(Node {
            bytes: Vec::from_slice(alloc, bytes)?,
            level: 0,
            beginning: first_word_of(bytes),
            before: None,
        });
    };
    let last: &Node = last;
    if last.bytes.len() < FULL_NODE {
        let mut all = Vec::with_capacity(alloc, last.bytes.len() + bytes.len())?;
        all.extend_from_slice(&last.bytes)?;
        all.extend_from_slice(bytes)?;
        return Ok(Node {
            bytes: all,
            level: last.level,
            beginning: last.beginning,
            before: share(&last.before)?,
        });
    }
    Ok(Node {
        bytes: Vec::from_slice(alloc, bytes)?,
        level: last.level.checked_add(1).ok_or(NoRoom)?,
        beginning: last.beginning,
        before: share(nodes)?,
    })
}

/// The bytes of the last node, and the full nodes before it.
#[derive(Clone, Copy)]
struct Split<'a> {
    before: &'a Chain,
    level: u32,
    bytes: &'a [u8],
}

fn split_last(nodes: &Chain) -> Split<'_>
    ensures all { chain nodes.now ≡ chain result.before.now ++ result.bytes.now }
    ensures full_before { length (chain result.before.now) ≡ FULL_NODE * result.level }
    ensures not_many { length result.bytes.now ≤ FULL_NODE }
    ensures not_few { 0 < result.level → IN_PLACE ≤ length result.bytes.now }
{
    match nodes {
        None => Split {
            before: nodes,
            level: 0,
            bytes: &[],
        },
        Some(last) => {
            let last: &Node = last;
            Split {
                before: &last.before,
                level: last.level,
                bytes: &last.bytes,
            }
        }
    }
}

/// How the bytes of nodes compare, where both have as many.
pub(super) fn order_of_full(a: &Chain, b: &Chain) -> Ordering
    requires { length (chain a.now) ≡ length (chain b.now) }
    ensures { result ≡ slice_cmp nat_cmp (chain a.now) (chain b.now) }
{
    let mut order = Ordering::Equal;
    let (mut a, mut b) = (a, b);
    while let (Some(a_last), Some(b_last)) = (a, b) {
        let (a_last, b_last): (&Node, &Node) = (a_last, b_last);
        match order_of_alike(&a_last.bytes, &b_last.bytes) {
            Ordering::Equal => {}
            found => order = found,
        }
        a = &a_last.before;
        b = &b_last.before;
    }
    order
}

/// How bytes compare with those of nodes that go on behind their end: never as `Equal`.
fn order_below(a: &Split<'_>, a_rest: &[u8], b: &Chain) -> Ordering
    requires full_before { length (chain a.now.before.now) ≡ FULL_NODE * a.now.level }
    requires not_many { length a.now.bytes.now ≤ FULL_NODE }
    requires few { length a_rest.now ≤ IN_PLACE }
    requires deeper { FULL_NODE * a.now.level + FULL_NODE < length (chain b.now) }
    requires counts { a.now.level + 1 < 2 ^ 32 }
    ensures { result ≡ ordering_then (slice_cmp nat_cmp (chain a.now.before.now ++ (a.now.bytes.now ++ a_rest.now)) (chain b.now)) Less }
{
    let Some(last) = b else { unreachable!() };
    let upper: &Node = last.at_level(a.level + 1);
    let Some(lower) = &upper.before else {
        unreachable!()
    };
    let lower: &Node = lower;
    match order_of_full(a.before, &lower.before) {
        Ordering::Equal => {
            order_of_joined(a.bytes, a_rest, &lower.bytes, &upper.bytes).then(Ordering::Less)
        }
        order => order,
    }
}

/// How the bytes of nodes and of the rests behind them compare.
pub(super) fn order_of(a: &Chain, a_rest: &[u8], b: &Chain, b_rest: &[u8]) -> Ordering
    requires a_few { length a_rest.now ≤ IN_PLACE }
    requires b_few { length b_rest.now ≤ IN_PLACE }
    requires a_goes_on { length a_rest.now ≡ 0 → chain a.now ≡ [] }
    requires b_goes_on { length b_rest.now ≡ 0 → chain b.now ≡ [] }
    ensures { result ≡ slice_cmp nat_cmp (chain a.now ++ a_rest.now) (chain b.now ++ b_rest.now) }
{
    let (a_split, b_split) = (split_last(a), split_last(b));
    match a_split.level.cmp(&b_split.level) {
        Ordering::Less => order_below(&a_split, a_rest, b),
        Ordering::Equal => match order_of_full(a_split.before, b_split.before) {
            Ordering::Equal => order_of_joined(a_split.bytes, a_rest, b_split.bytes, b_rest),
            order => order,
        },
        Ordering::Greater => order_below(&b_split, b_rest, a).reverse(),
    }
}

/// How many bytes the nodes have.
pub(super) fn len_of(nodes: &Chain) -> usize
    ensures { result ≡ length (chain nodes.now) }
{
    let last = split_last(nodes);
    FULL_NODE * last.level as usize + last.bytes.len()
}

/// The byte of the nodes at this index, if they have as many.
pub(super) fn byte_of(nodes: &Chain, at: usize) -> Option<u8>
    ensures { result ≡ slice_get (chain nodes.now) at }
{
    let mut nodes = nodes;
    while let Some(node) = nodes {
        let node: &Node = node;
        let start = FULL_NODE * node.level as usize;
        if at >= start {
            return node.bytes.get(at - start).copied();
        }
        nodes = &node.before;
    }
    None
}
