//! The kinds of steps on a board, and the rule that each of them keeps.

use crate::view::View;
use atomic_table::{Join, Play, Split, TableRule};

/// What a board keeps between any two steps.
pub struct Kept;

impl TableRule<(), View, u32> for Kept {
    ghost use Rattle.mark_board.specs.Board.{BoardRule, first_view};

    ghost holds = { λ cells. BoardRule cells };

    ghost first = { λ _. first_view };
}

/// A marker is split in two, or two are joined.
pub(crate) struct Markers;

impl Split<View> for Markers {
    ghost use Rattle.mark_board.specs.Board.{first_half, second_half};

    ghost left = { first_half };

    ghost right = { second_half };
}

impl Join<View> for Markers {
    ghost use Rattle.mark_board.specs.Board.{both_views, spent_view};

    ghost both = { both_views };

    ghost spent = { spent_view };
}

/// A marker notes a rank at a word.
pub(crate) struct MarkStep;

impl Play<(), View> for MarkStep {
    ghost use Rattle.mark_board.specs.Board.{Marks};

    ghost then = { Marks };
}

/// The only marker reads a word.
pub(crate) struct LookStep;

impl Play<(), View> for LookStep {
    ghost use Rattle.mark_board.specs.Board.{Looks};

    ghost then = { Looks };
}
