//! A run that is about to begin.

ghost use Rattle.std.specs.Prelude.{◌≡◌};

use crate::round_lists::RoundLists;
use app_laws::App;
use graph_update::Engine;

/// A run that is about to begin: its engine, and the lists of its rounds.
#[derive(Drop)]
pub(crate) struct Begun<'a, A: App> {
    pub(crate) engine: Engine<'a, A>,
    pub(crate) lists: RoundLists<A>,
    ghost told: { lists.partners ≡ engine.app },
}
