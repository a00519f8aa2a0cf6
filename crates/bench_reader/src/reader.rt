ghost use Rattle.std.specs.Prelude.{◌≡◌, IfOk, IfErr};
ghost use Rattle.kdg_text.specs.Faults.{Answers};
ghost use Rattle.bench_reader.specs.Decks.{IsDeck};
ghost use Rattle.bench_reader.specs.Grammar.{deck_of, Refuses};

use crate::Deck;
use crate::outline::Outline;
use crate::statement::statement_of;
use kdg_text::{Lines, ReadFail};
use std::alloc::Global;

/// Reads a deck in the ISCAS `.bench` format. What begins with `#` is a comment. A line is
/// `INPUT(name)`, `OUTPUT(name)`, `name = KIND(name, ..)`, `@delay NAME N` or `@ TIME BITS`, with
/// spaces and tabs between as one likes and with words in letters of any case. The first fault is
/// answered with its line; one that a line has by itself or beside earlier lines comes before any by
/// later lines.
pub fn read_deck(alloc: Global, input: &[u8]) -> Result<Deck, ReadFail>
    ensures found { IfOk result (λ deck. deck_of input.now ≡ Ok deck) }
    ensures deck { IfOk result IsDeck }
    ensures refused { IfErr result (Refuses input.now) }
{
    deck_in(alloc, input)
}

#[tactic(auto, unfolding(crate::specs::Grammar::deck_of))]
fn deck_in(alloc: Global, input: &[u8]) -> Result<Deck, ReadFail>
    ensures { Answers result (deck_of input.now) }
{
    let mut outline = Outline::new(alloc);
    let mut lines = Lines::new(input);
    while let Some(line) = lines.next_line() {
        match statement_of(line.bytes) {
            Ok(None) => {}
            Ok(Some(said)) => outline.add(line.number, said)?,
            Err(fault) => return Err(ReadFail::Bad(fault.on_line(line.number))),
        }
    }
    outline.deck(alloc)
}
