//! What tasks change in a run, and what is taken out of its log between two rounds.

ghost use Rattle.std.specs.Prelude.{◌≡◌, IfOk, OnOk};
ghost use Rattle.output_log.specs.Entries.{joined_texts};
ghost use Rattle.list_rounds.specs.Course.{IsDrained, drainable, undrainable};

use cell_store::{Held, Store};
use kdg_text::{NoRoom, Text};
use output_log::Log;
use task_order::TaskList;

/// What tasks change in a run.
#[derive(Drop)]
pub(crate) struct RunParts<V: Held> {
    pub(crate) store: Store<V>,
    pub(crate) pending: TaskList,
    /// The texts of ended tasks that some pending task may come before.
    pub(crate) log: Log,
    /// The texts of those before.
    pub(crate) text: Text,
    /// How many tasks have ended.
    pub(crate) ended: u64,
}

/// Takes the texts of the tasks that are earlier than every pending one out of the log, and puts them
/// behind the text of those that were taken out before.
pub(crate) fn drain<V: Held>(parts: &mut RunParts<V>) -> Result<(), NoRoom>
    ensures { OnOk result (IsDrained parts.old parts.new) }
{
    let more = take_earlier(&mut parts.log, &parts.pending)?;
    parts.text.push_all(more.bytes())
}

/// Takes the entries that are earlier than every pending task out of the log, and joins their texts.
fn take_earlier(log: &mut Log, pending: &TaskList) -> Result<Text, NoRoom>
    ensures text { IfOk result (λ text. text ≡ joined_texts (drainable pending.now log.old.entries)) }
    ensures rest { OnOk result (log.new.entries ≡ undrainable pending.now log.old.entries) }
{
    match pending.first() {
        Some(first) => log.take_below(&first.key),
        None => log.take_all(),
    }
}
