//! Which word of a board belongs to what.

ghost use Rattle.std.specs.Prelude.{◌≡◌, ◌+◌, ◌*◌};
ghost use Rattle.mark_board.specs.Words.{word_of, base_of};

use rw_sets::Access;

/// The word of a location for an access. Word 0 belongs to no location.
#[inline(always)]
pub(crate) fn word_of(loc: u32, access: Access) -> usize
    ensures { result ≡ word_of loc access }
{
    let first = 2 * loc as usize + 1;
    match access {
        Access::Read => first,
        Access::Write => first + 1,
    }
}

/// The number with which ranks begin in a round after which `renewals` more can follow.
#[inline(always)]
pub(crate) fn base_of(renewals: u32) -> u64
    ensures { result ≡ base_of renewals }
{
    u64::from(renewals) * (1 << 32)
}
