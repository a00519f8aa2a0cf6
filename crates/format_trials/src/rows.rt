//! What the tables of the trials share.

use kdg_text::{NoRoom, Text};
use std::alloc::Global;
use std::process::Abort;

/// Asks that a row comes out as wanted, and else ends with its name.
pub(crate) fn expect(rt: &impl Abort, is_wanted: bool, row: &str) {
    assert!(rt; is_wanted, "{row}");
}

/// Puts pieces behind a text, each as often as the number beside it says.
pub(crate) fn push_pieces(
    text: &mut Text,
    alloc: Global,
    pieces: &[(&str, usize)],
) -> Result<(), NoRoom> {
    for &(piece, count) in pieces {
        text.push_all(piece.repeat(alloc, count)?.as_bytes())?;
    }
    Ok(())
}
