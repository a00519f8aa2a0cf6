//! A text as clauses see it, of which nothing is kept.

ghost use Rattle.std.specs.Prelude.{◌≡◌, ◌++◌};

use kdg_text::Text;
use std::marker::Model;
use std::mem;
use std::snapshot::Snapshot;

/// A text that was told. It takes no memory and its methods do nothing.
#[derive(Drop)]
pub(crate) struct ToldText {
    past: Snapshot<Past>,
}

/// What the text comes from, piece by piece.
#[derive(Drop)]
#[cycle(past)]
struct Past {
    /// What was before the last piece, and that piece.
    last: Option<(Snapshot<Past>, Snapshot<Text>)>,
}

impl Model for ToldText {
    ghost use Rattle.std.specs.Prelude.{ℕ, List};

    ghost Value = { List ℕ };

    ghost view = { λ told. told.past.value.text };
}

impl Model for Past {
    ghost use Rattle.std.specs.Option.{option_map};
    ghost use Rattle.std.proofs.Common.{arith};
    ghost use Rattle.text_outlet.specs.Told.{PastText, text_after};

    ghost Value = { PastText };

    ghost view = { λ past. text_after (option_map (λ step. record { before = step.0.value; piece = step.1.value }) past.last) };

    ghost size = { λ past. past.steps };

    ghost size_decreases = { λ _ _. Prim.grind arith };
}

impl ToldText {
    ghost use Rattle.std.specs.Prelude.{◌≡◌, ◌++◌, []};

    /// No text.
    pub(crate) fn new() -> ToldText
        ensures { result ≡ [] }
    {
        ToldText {
            past: Snapshot::of(&Past { last: None }),
        }
    }

    /// A piece more.
    pub(crate) fn push(&mut self, piece: &Text)
        ensures { self.new ≡ self.old ++ piece.now }
    {
        let before = mem::replace(self, ToldText::new());
        let last = (before.past, Snapshot::of(piece));
        self.past = Snapshot::of(&Past { last: Some(last) });
    }
}
