//! The kinds of steps on a desk, and the rule that each of them keeps.

use crate::view::View;
use atomic_table::{Play, Split, TableRule};
use std::marker::PhantomData;

/// What is performed at a desk, where `K` is what the desk was told when it was made.
pub trait Deed<T, K> {
    /// What may be given.
    ghost may: { K → T → Type 0 };

    /// What may come back for what was given.
    ghost done: { K → T → T → Type 0 };
}

/// What a desk keeps between any two steps.
pub struct Kept<D> {
    deed: PhantomData<D>,
}

impl<T, K, D: Deed<T, K>> TableRule<Option<T>, View<T, K>, K> for Kept<D> {
    ghost use Rattle.work_desk.specs.Desk.{DeskRule, seen};
    ghost use Rattle.work_desk.specs.declared.view.Part.TheVariants.{Shut};

    ghost holds = { λ key. DeskRule (D.may key) (D.done key) key };

    ghost first = { λ key. seen key Shut };
}

/// The desk is opened: its slot goes to the only seat.
pub(crate) struct OpenStep;

impl<T, K> Play<Option<T>, View<T, K>> for OpenStep {
    ghost use Rattle.work_desk.specs.Desk.{Opens};

    ghost then = { Opens };
}

/// The only seat becomes the giver's and the worker's.
pub(crate) struct Seats;

impl<T, K> Split<View<T, K>> for Seats {
    ghost use Rattle.work_desk.specs.Desk.{givers, workers};

    ghost left = { givers };

    ghost right = { workers };
}

/// The giver lays what is in the slot.
pub(crate) struct LayStep;

impl<T, K> Play<Option<T>, View<T, K>> for LayStep {
    ghost use Rattle.work_desk.specs.Desk.{Lays};

    ghost then = { Lays };
}

/// The worker takes what was laid, where something was.
pub(crate) struct TakeStep<D> {
    deed: PhantomData<D>,
}

impl<T, K, D: Deed<T, K>> Play<Option<T>, View<T, K>> for TakeStep<D> {
    ghost use Rattle.work_desk.specs.Desk.{Takes};

    ghost then = { Takes D.may };
}

/// The worker puts back what it made of it.
pub(crate) struct FinishStep;

impl<T, K> Play<Option<T>, View<T, K>> for FinishStep {
    ghost use Rattle.work_desk.specs.Desk.{Finishes};

    ghost then = { Finishes };
}

/// The giver takes what the worker made, where that is there.
pub(crate) struct CollectStep<D> {
    deed: PhantomData<D>,
}

impl<T, K, D: Deed<T, K>> Play<Option<T>, View<T, K>> for CollectStep<D> {
    ghost use Rattle.work_desk.specs.Desk.{Collects};

    ghost then = { Collects D.done };
}

/// The giver takes back what it laid, where no worker took it.
pub(crate) struct RevokeStep;

impl<T, K> Play<Option<T>, View<T, K>> for RevokeStep {
    ghost use Rattle.work_desk.specs.Desk.{Revokes};

    ghost then = { Revokes };
}

/// The giver tells that nothing more comes.
pub(crate) struct CloseStep;

impl<T, K> Play<Option<T>, View<T, K>> for CloseStep {
    ghost use Rattle.work_desk.specs.Desk.{Closes};

    ghost then = { Closes };
}
