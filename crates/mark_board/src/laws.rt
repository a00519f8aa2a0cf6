//! What free ranks are.

ghost use Rattle.mark_board.specs.Ranks.{FreeRanksAreUnbarred};

use rw_sets::lookup_laws;

/// Where each set of a list was marked with its rank, and nothing else was marked, a rank is free exactly
/// where no set of a lower rank conflicts with its own.
pub fn free_laws()
    ensures { FreeRanksAreUnbarred }
{
    lookup_laws();
}
