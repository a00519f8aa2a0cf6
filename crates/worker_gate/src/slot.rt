//! The slot that an engine lies in.

ghost use Rattle.std.specs.Prelude.{◌≡◌, [], ◌∷◌, IsSome, Some};

use crate::view::View;
use atomic_table::{Seat as Chair, Shared, TableRule};
use cell_store::Held;

/// Puts a value into the slot that the seat has, and gives the one that was there.
pub(crate) fn put<S, V: Held, K, P: TableRule<Option<Box<S>>, View<S, V>, K>>(
    board: &Shared<Option<Box<S>>, View<S, V>, K, P>,
    chair: &mut Chair<Option<Box<S>>, View<S, V>>,
    new: Option<Box<S>>,
) -> Option<Box<S>>
    requires here { chair.old.table_id ≡ board.now.table_id }
    requires has { (old : _) × (chair.old.me.1 ≡ (0, old) ∷ []) }
    ensures here { chair.new.table_id ≡ chair.old.table_id }
    ensures same { chair.new.id ≡ chair.old.id }
    ensures had { chair.old.me.1 ≡ (0, result) ∷ [] }
    ensures has { chair.new.me ≡ (chair.old.me.0, (0, new) ∷ []) }
{
    board.exchange(chair, 0, new)
}

/// What is in a full slot.
pub(crate) fn held<S>(slot: Option<Box<S>>) -> Box<S>
    requires { IsSome slot }
    ensures { slot ≡ Some result }
{
    match slot {
        Some(engine) => engine,
        None => unreachable!(),
    }
}
