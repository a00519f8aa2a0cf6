//! What comes before every pending task is told.

ghost use Rattle.std.specs.Prelude.{◌≡◌, ◌++◌, true, false, OnErr, OnOk};
ghost use Rattle.run_laws.specs.Events.{drained};
ghost use Rattle.source_pool.specs.Streams.{told_by};
ghost use Rattle.text_outlet.specs.Sending.{TellsMore};

use app_laws::App;
use graph_update::Engine;
use kdg_text::NoRoom;
use outer_edge::Sink;
use text_outlet::Outlet;

/// Tells what comes before every pending task, unless a write has failed: it leaves the log, and is written
/// where that pays, or where it is to be written at once. After `NoRoom` nothing more is told.
pub(crate) fn tell<A: App, K: Sink>(
    engine: &mut Engine<'_, A>,
    outlet: &mut Outlet,
    out: &mut K,
    at_once: bool,
) -> Result<(), NoRoom>
    ensures app { engine.new.app ≡ engine.old.app }
    ensures drains { OnOk result (outlet.old.has_failed ≡ false → engine.new.progress ≡ drained (A.meaning engine.old.app) engine.old.progress) }
    ensures stands { outlet.old.has_failed ≡ true → engine.new.progress ≡ engine.old.progress }
    ensures tells { OnOk result (TellsMore K.contents K.faults outlet.old out.old outlet.new out.new (told_by (A.meaning engine.old.app) outlet.old.has_failed engine.old.progress)) }
    ensures told { OnOk result (outlet.new.told ≡ outlet.old.told ++ told_by (A.meaning engine.old.app) outlet.old.has_failed engine.old.progress) }
    ensures nothing_told { OnErr result ((outlet.new ≡ outlet.old) × (out.new ≡ out.old)) }
    ensures stays { outlet.old.has_failed ≡ true → outlet.new.has_failed ≡ true }
    ensures same_room { K.room out.new ≡ K.room out.old }
{
    if outlet.has_failed() {
        return Ok(());
    }
    let more = engine.drain()?;
    outlet.tell(out, &more, engine.ended(), at_once)?;
    Ok(())
}
