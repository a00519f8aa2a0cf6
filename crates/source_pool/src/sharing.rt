//! A round whose jobs kept workers perform while others are drawn, and while the first ones end.

ghost use Rattle.std.specs.Prelude.{◌≡◌, [], List, None, IfErr, OnOk};
ghost use Rattle.std.specs.List.{All};
ghost use Rattle.run_laws.specs.Events.{clear_nodes};
ghost use Rattle.run_laws.specs.Jobs.{Job};
ghost use Rattle.source_pool.specs.Course.{RestsAt, RunPoint};
ghost use Rattle.source_pool.specs.Performing.{AreOfShares, AreShared, EndAtFault, HasDrawn, HaveEnded, IsTold, MayEnd};
ghost use Rattle.source_pool.specs.Round.{BeginsRound, IsRoundFault, IsRoundPlayed};

use crate::RunFault;
use crate::claiming::{draw_rest, draw_some};
use crate::finishing::end_hand;
use crate::hands::{Hand, play};
use crate::laws::{drawing_laws, ending_laws, kept_laws};
use crate::shares::Share;
use app_laws::App;
use graph_update::{Done, Engine, Job};
use kdg_text::{NoRoom, Steps};
use outer_edge::Gate;
use std::sync::ledger::Ledger;

/// Plays one round of an execution in which nothing runs, but for its text, at a gate that is open: kept workers
/// are given at most `each` jobs at each desk, the earliest ones first, while more are drawn. What no worker has
/// come to once all are drawn the caller performs, the last ones first. Then all end in the order of their keys.
/// At the end no hand is away, also after a fault.
pub(crate) fn share_round<A: App, G: Gate, L: Ledger>(
    engine: &mut Engine<'_, A>,
    gate: &G,
    each: usize,
    shares: &mut [Share<A>],
    own: &mut Hand<Job<A::Val>, Done<A::Val>>,
    steps: &mut Steps<L>,
) -> Result<(), RunFault>
    ghost from: { RunPoint A.Val }
    requires begins { BeginsRound (A.meaning engine.old.app) from engine.old.progress }
    requires told { All (IsTold A.meaning engine.old.app) shares.old }
    ensures app { engine.new.app ≡ engine.old.app }
    ensures told { All (IsTold A.meaning engine.old.app) shares.new }
    ensures back { All (λ share. share.errand ≡ None) shares.new }
    ensures played { OnOk result (IsRoundPlayed (A.meaning engine.old.app) from from.text engine.old.progress engine.new.progress) }
    ensures fault { IfErr result (IsRoundFault (A.meaning engine.old.app) from engine.old.progress) }
{
    let played = give_and_end(engine, gate, each, shares, own, steps);
    collect_all(engine.app(), gate, shares);
    played
}

/// `share_round`, but that after a fault some hands may be away.
fn give_and_end<A: App, G: Gate, L: Ledger>(
    engine: &mut Engine<'_, A>,
    gate: &G,
    each: usize,
    shares: &mut [Share<A>],
    own: &mut Hand<Job<A::Val>, Done<A::Val>>,
    steps: &mut Steps<L>,
) -> Result<(), RunFault>
    ghost from: { RunPoint A.Val }
    requires begins { BeginsRound (A.meaning engine.old.app) from engine.old.progress }
    requires told { All (IsTold A.meaning engine.old.app) shares.old }
    ensures app { engine.new.app ≡ engine.old.app }
    ensures told { All (IsTold A.meaning engine.old.app) shares.new }
    ensures played { OnOk result (IsRoundPlayed (A.meaning engine.old.app) from from.text engine.old.progress engine.new.progress) }
    ensures fault { IfErr result (IsRoundFault (A.meaning engine.old.app) from engine.old.progress) }
{
    drawing_laws::<A>();
    ending_laws::<A>();
    kept_laws::<A>();
    give_all(engine, gate, each, shares, own)?;
    end_each(engine, gate, shares, own, steps)
}

/// Draws the jobs of all clear tasks, and has them performed, but for those that workers have in hand then.
fn give_all<A: App, G: Gate>(
    engine: &mut Engine<'_, A>,
    gate: &G,
    each: usize,
    shares: &mut [Share<A>],
    own: &mut Hand<Job<A::Val>, Done<A::Val>>,
) -> Result<(), NoRoom>
    ghost from: { RunPoint A.Val }
    requires rest { RestsAt (A.meaning engine.old.app) from engine.old.progress }
    requires told { All (IsTold A.meaning engine.old.app) shares.old }
    ensures app { engine.new.app ≡ engine.old.app }
    ensures told { All (IsTold A.meaning engine.old.app) shares.new }
    ensures drawn { OnOk result (HasDrawn (A.meaning engine.old.app) (AreShared A.meaning engine.old.app shares.new own.new) engine.old.progress engine.new.progress) }
    ensures none_clear { OnOk result (clear_nodes (A.meaning engine.old.app) engine.new.progress.nodes ≡ []) }
    ensures ended { OnOk result (engine.new.progress.ended ≡ engine.old.progress.ended) }
{
    drawing_laws::<A>();
    give_out(engine, gate, each, shares)?;
    draw_rest(engine, &mut own.jobs)?;
    play(engine.app(), gate, own);
    take_back(engine.app(), gate, shares);
    Ok(())
}

/// Draws jobs for each desk, at most `each`, and gives them there, the first desk's first.
fn give_out<A: App, G: Gate>(
    engine: &mut Engine<'_, A>,
    gate: &G,
    each: usize,
    shares: &mut [Share<A>],
) -> Result<(), NoRoom>
    requires told { All (IsTold A.meaning engine.old.app) shares.old }
    ensures app { engine.new.app ≡ engine.old.app }
    ensures told { All (IsTold A.meaning engine.old.app) shares.new }
    ensures drawn { OnOk result (HasDrawn (A.meaning engine.old.app) (AreOfShares A.meaning engine.old.app shares.new) engine.old.progress engine.new.progress) }
    ensures ended { OnOk result (engine.new.progress.ended ≡ engine.old.progress.ended) }
{
    let Some((share, more)) = shares.split_first_mut() else {
        return Ok(());
    };
    draw_some(engine, each, &mut share.hand.jobs)?;
    share.give(engine.app(), gate);
    give_out(engine, gate, each, more)
}

/// Performs what no worker has come to, the last desk's first.
fn take_back<A: App, G: Gate>(app: &A, gate: &G, shares: &mut [Share<A>])
    requires told { All (IsTold A.meaning app.now) shares.old }
    ensures told { All (IsTold A.meaning app.now) shares.new }
    ensures same { (jobs : List (Job A.Val)) → AreOfShares A.meaning app.now shares.old jobs → AreOfShares A.meaning app.now shares.new jobs }
{
    if let Some((share, more)) = shares.split_first_mut() {
        take_back(app, gate, more);
        share.take_back(app, gate);
    }
}

/// Ends the jobs at all desks, and then the caller's own, once they are performed.
fn end_each<A: App, G: Gate, L: Ledger>(
    engine: &mut Engine<'_, A>,
    gate: &G,
    shares: &mut [Share<A>],
    own: &mut Hand<Job<A::Val>, Done<A::Val>>,
    steps: &mut Steps<L>,
) -> Result<(), RunFault>
    requires told { All (IsTold A.meaning engine.old.app) shares.old }
    requires may_end { MayEnd (A.meaning engine.old.app) (AreShared A.meaning engine.old.app shares.old own.old) engine.old.progress }
    ensures app { engine.new.app ≡ engine.old.app }
    ensures told { All (IsTold A.meaning engine.old.app) shares.new }
    ensures ended { OnOk result (HaveEnded (A.meaning engine.old.app) (AreShared A.meaning engine.old.app shares.old own.old) engine.old.progress engine.new.progress) }
    ensures fault { IfErr result (EndAtFault (A.meaning engine.old.app) (AreShared A.meaning engine.old.app shares.old own.old) engine.old.progress) }
{
    end_shares(engine, gate, shares, steps)?;
    end_hand(engine, own, steps)
}

/// Ends the jobs at all desks, once they are performed, the first desk's first.
fn end_shares<A: App, G: Gate, L: Ledger>(
    engine: &mut Engine<'_, A>,
    gate: &G,
    shares: &mut [Share<A>],
    steps: &mut Steps<L>,
) -> Result<(), RunFault>
    requires told { All (IsTold A.meaning engine.old.app) shares.old }
    requires may_end { MayEnd (A.meaning engine.old.app) (AreOfShares A.meaning engine.old.app shares.old) engine.old.progress }
    ensures app { engine.new.app ≡ engine.old.app }
    ensures told { All (IsTold A.meaning engine.old.app) shares.new }
    ensures ended { OnOk result (HaveEnded (A.meaning engine.old.app) (AreOfShares A.meaning engine.old.app shares.old) engine.old.progress engine.new.progress) }
    ensures fault { IfErr result (EndAtFault (A.meaning engine.old.app) (AreOfShares A.meaning engine.old.app shares.old) engine.old.progress) }
{
    let Some((share, more)) = shares.split_first_mut() else {
        return Ok(());
    };
    share.collect(engine.app(), gate);
    end_hand(engine, &mut share.hand, steps)?;
    end_shares(engine, gate, more, steps)
}

/// Has all hands back.
fn collect_all<A: App, G: Gate>(app: &A, gate: &G, shares: &mut [Share<A>])
    requires { All (IsTold A.meaning app.now) shares.old }
    ensures told { All (IsTold A.meaning app.now) shares.new }
    ensures back { All (λ share. share.errand ≡ None) shares.new }
{
    if let Some((share, more)) = shares.split_first_mut() {
        share.collect(app, gate);
        collect_all(app, gate, more);
    }
}
