//! All entries of a log as clauses see them, of which nothing is kept.

use kdg_text::Text;
use std::marker::Model;
use std::mem;
use std::snapshot::Snapshot;
use task_order::Key;

/// All entries, those without a text too. It takes no memory and its methods do nothing.
#[derive(Drop)]
pub(crate) struct SeenEntries {
    past: Snapshot<Past>,
}

/// What the entries come from, step by step.
#[derive(Drop)]
#[cycle(past)]
struct Past {
    /// What was before the last step, its key, and the text where an entry was put in.
    last: Option<(Snapshot<Past>, Snapshot<Key>, Option<Snapshot<Text>>)>,
}

impl Model for SeenEntries {
    ghost use Rattle.std.specs.Prelude.{List};
    ghost use Rattle.output_log.specs.Entries.{Entry};

    ghost Value = { List Entry };

    ghost view = { λ seen. seen.past.value.entries };
}

impl Model for Past {
    ghost use Rattle.std.specs.Option.{option_map};
    ghost use Rattle.std.proofs.Common.{arith};
    ghost use Rattle.output_log.specs.Past.{PastState, past_after};

    ghost Value = { PastState };

    ghost view = { λ past. past_after (option_map (λ step. record { before = step.0.value; key = step.1.value; text = option_map (λ text. text.value) step.2 }) past.last) };

    ghost size = { λ past. past.steps };

    ghost size_decreases = { λ _ _. Prim.grind arith };
}

impl SeenEntries {
    ghost use Rattle.std.specs.Prelude.{◌≡◌, []};
    ghost use Rattle.task_order.specs.Key.{at_key};
    ghost use Rattle.output_log.specs.Entries.{entries_from, with_entry};

    /// No entries.
    pub(crate) fn new() -> SeenEntries
        ensures { result ≡ [] }
    {
        SeenEntries {
            past: Snapshot::of(&Past { last: None }),
        }
    }

    /// One more entry.
    pub(crate) fn put(&mut self, key: &Key, text: &Text)
        ensures { self.new ≡ with_entry key.now text.now self.old }
    {
        let before = mem::replace(self, SeenEntries::new());
        let last = (before.past, Snapshot::of(key), Some(Snapshot::of(text)));
        self.past = Snapshot::of(&Past { last: Some(last) });
    }

    /// Those that are not earlier than a key.
    pub(crate) fn take_below(&mut self, key: &Key)
        ensures { self.new ≡ entries_from (at_key key.now) self.old }
    {
        let before = mem::replace(self, SeenEntries::new());
        let last = (before.past, Snapshot::of(key), None);
        self.past = Snapshot::of(&Past { last: Some(last) });
    }
}
