//! Workers that are kept over the rounds of a run.

ghost use Rattle.std.specs.Prelude.{◌≡◌, IfErr, IfOk, OnOk};
ghost use Rattle.std.specs.List.{All, AllZip};
ghost use Rattle.source_pool.specs.Course.{RunPoint};
ghost use Rattle.source_pool.specs.Performing.{IsPlayed, IsTold, MayPlay};
ghost use Rattle.source_pool.specs.Round.{BeginsRound, IsRoundFault, IsRoundPlayed};

use crate::RunFault;
use crate::crossing::post_sends;
use crate::hands::{Hand, play};
use crate::shares::Share;
use crate::sharing::share_round;
use app_laws::App;
use graph_update::{Done, Engine, Job};
use kdg_text::{NoRoom, Steps};
use outer_edge::Gate;
use std::alloc::Global;
use std::marker::Model;
use std::snapshot::Snapshot;
use std::sync::ledger::Ledger;
use std::thread::{self, Threads};
use work_desk::{Deed, Errand, Partner, Server, Servers, meet};

/// At how many desks the kept workers of a run serve in all, or some more, so that each has as many. With more
/// the last jobs of a round are shared more evenly, with fewer there is less to give and to take back.
const DESKS: usize = 32;

/// The application whose tasks are in hand, for contracts alone.
#[derive(Drop)]
pub(crate) struct Told<A> {
    pub(crate) app: Snapshot<A>,
}

/// A hand that goes to a kept worker.
#[derive(Drop)]
pub(crate) struct Order<A: App> {
    pub(crate) hand: Hand<Job<A::Val>, Done<A::Val>>,
}

/// Hands are given, and come back played.
pub(crate) struct Playing;

impl<A: App> Deed<Order<A>, Told<A>> for Playing {
    ghost use Rattle.source_pool.specs.Performing.{IsPlayed, MayPlay};

    ghost may = { λ told order. MayPlay (A.meaning told.app.value) order.hand };

    ghost done = { λ told given back. IsPlayed (A.meaning told.app.value) given.hand back.hand };
}

/// A desk of a kept worker, as the caller sees it.
pub(crate) type HandPartner<A> = Partner<Order<A>, Told<A>, Playing>;

/// A desk of a kept worker, as its own thread sees it.
pub(crate) type HandServer<A> = Server<Order<A>, Told<A>, Playing>;

/// The desks of a kept worker, as its own thread sees them.
pub(crate) type HandServers<A> = Servers<Order<A>, Told<A>, Playing>;

/// A hand that a kept worker has.
pub(crate) type HandErrand<A> = Errand<Order<A>, Told<A>, Playing>;

/// A kept worker, as its own thread sees it, and the application whose tasks it performs.
#[derive(Drop)]
pub(crate) struct Post<'a, A: App> {
    pub(crate) app: &'a A,
    pub(crate) servers: HandServers<A>,
    ghost same: { servers.app.value ≡ app.now },
}

/// The desks of the workers from 1 on, where these are kept: first each one's first, then each one's second,
/// and so on. Each is told of one application.
#[derive(Drop)]
pub(crate) struct Partners<A: App> {
    told: Told<A>,
    list: Vec<Share<A>>,
}

impl<A: App> Model for Partners<A> {
    ghost use Rattle.std.specs.List.{All};
    ghost use Rattle.source_pool.specs.Performing.{IsTold};

    ghost Value = { A };

    ghost view = { λ p. p.told.app.value };

    ghost invariant = { λ p. All (IsTold A.meaning p.told.app.value) p.list.items };
}

impl<A: App> Partners<A> {
    /// No worker is kept.
    pub(crate) fn none(alloc: Global, app: &A) -> Partners<A>
        ensures { result ≡ app.now }
    {
        Partners {
            told: Told {
                app: Snapshot::of(app),
            },
            list: Vec::new(alloc),
        }
    }

    /// At how many desks the kept workers serve. There is none where no worker is kept.
    pub(crate) fn desks(&self) -> usize {
        self.list.len()
    }

    /// A kept worker without a desk.
    fn servers(&self, alloc: Global) -> HandServers<A>
        ensures { result.app.value ≡ self.now }
    {
        Servers::new(alloc, &self.told)
    }

    /// One more desk of this worker, which is told of the same application, and answers who serves there.
    fn add(&mut self, alloc: Global, worker: u32) -> Result<HandServer<A>, NoRoom>
        ensures told { self.new ≡ self.old }
        ensures server { IfOk result (λ server. server.app.value ≡ self.old) }
    {
        let (partner, server) = meet::<Order<A>, Told<A>, Playing>(alloc, &self.told)?;
        self.list.push(Share::new(alloc, partner, worker))?;
        Ok(server)
    }

    /// Has the hands but the caller's own played by kept workers, each at the desk in its place, as far as
    /// there are some, and plays its own meanwhile. Each hand then has what became of its own.
    pub(crate) fn play<G: Gate>(
        &mut self,
        app: &A,
        gate: &G,
        own: &mut Hand<Job<A::Val>, Done<A::Val>>,
        others: &mut [Hand<Job<A::Val>, Done<A::Val>>],
    )
        requires told { self.old ≡ app.now }
        requires own { MayPlay (A.meaning app.now) own.old }
        requires others { All (MayPlay (A.meaning app.now)) others.old }
        ensures told { self.new ≡ self.old }
        ensures own { IsPlayed (A.meaning app.now) own.old own.new }
        ensures others { AllZip (IsPlayed (A.meaning app.now)) others.old others.new }
    {
        play_shared(app, gate, &mut self.list, own, others);
    }

    /// Plays one round of an execution in which nothing runs, but for its text, at a gate that is open: kept
    /// workers perform at most `each` jobs at each desk, and the caller the others.
    pub(crate) fn play_round<G: Gate, L: Ledger>(
        &mut self,
        engine: &mut Engine<'_, A>,
        gate: &G,
        each: usize,
        own: &mut Hand<Job<A::Val>, Done<A::Val>>,
        steps: &mut Steps<L>,
    ) -> Result<(), RunFault>
        ghost from: { RunPoint A.Val }
        requires told { self.old ≡ engine.old.app }
        requires begins { BeginsRound (A.meaning engine.old.app) from engine.old.progress }
        ensures app { engine.new.app ≡ engine.old.app }
        ensures told { self.new ≡ self.old }
        ensures played { OnOk result (IsRoundPlayed (A.meaning engine.old.app) from from.text engine.old.progress engine.new.progress) }
        ensures fault { IfErr result (IsRoundFault (A.meaning engine.old.app) from engine.old.progress) }
    {
        share_round(engine, gate, each, &mut self.list, own, steps)
    }

    /// Tells each worker that nothing more comes.
    pub(crate) fn dismiss(self) {
        let Partners { told: _, list } = self;
        for share in list {
            let Share {
                partner,
                errand: _,
                hand: _,
            } = share;
            if let Some(partner) = partner {
                partner.close();
            }
        }
    }
}

/// Keeps the workers from 1 on. Their own threads have the answer.
pub(crate) fn keep_workers<'a, A: App>(
    alloc: Global,
    app: &'a A,
    workers: u32,
    partners: &mut Partners<A>,
) -> Result<Vec<Post<'a, A>>, NoRoom>
    requires told { partners.old ≡ app.now }
    ensures told { partners.new ≡ partners.old }
{
    let mut posts = Vec::new(alloc);
    for _worker in 1..workers {
        let servers = partners.servers(alloc);
        posts.push(Post { app, servers })?;
    }
    for _number in 0..DESKS.div_ceil(posts.len().max(1)) {
        add_desks(alloc, &mut posts, partners)?;
    }
    Ok(posts)
}

/// One more desk for each of the workers.
fn add_desks<A: App>(
    alloc: Global,
    posts: &mut Vec<Post<'_, A>>,
    partners: &mut Partners<A>,
) -> Result<(), NoRoom>
    requires told { All (λ post. post.servers.app.value ≡ partners.old) posts.old.items }
    ensures told { partners.new ≡ partners.old }
    ensures posts { All (λ post. post.servers.app.value ≡ partners.old) posts.new.items }
{
    let mut worker = 0u32;
    for place in 0..posts.len() {
        worker = worker.saturating_add(1);
        let server = partners.add(alloc, worker)?;
        posts[place].servers.add(server)?;
    }
    Ok(())
}

/// Has each worker play all hands that come, by a thread of its own.
pub(crate) fn serve_all<R: Threads + Sync, A: App + Sync, G: Gate + Sync>(
    rt: &R,
    gate: &G,
    posts: &mut Option<Vec<Post<'_, A>>>,
) {
    post_sends::<A>();
    if let Some(posts) = posts.take() {
        let _done = thread::map_vec(rt, posts, &|post: Post<A>| serve(gate, post));
    }
}

/// Plays all hands that come.
fn serve<A: App, G: Gate>(gate: &G, post: Post<'_, A>) {
    let Post { app, servers } = post;
    servers.serve(
        &|order: Order<A>| -> Order<A>
            requires { MayPlay (A.meaning app.now) order.hand }
            ensures { IsPlayed (A.meaning app.entry.now) order.hand result.hand }
        { played(app, gate, order) },
    );
}

/// The hand, once it is played.
pub(crate) fn played<A: App, G: Gate>(app: &A, gate: &G, order: Order<A>) -> Order<A>
    requires { MayPlay (A.meaning app.now) order.hand }
    ensures { IsPlayed (A.meaning app.now) order.hand result.hand }
{
    let Order { mut hand } = order;
    play(app, gate, &mut hand);
    Order { hand }
}

/// Has the hands but the caller's own played by kept workers, each at the desk in its place, as far as there
/// are some, and plays its own meanwhile. Each hand then has what became of its own.
fn play_shared<A: App, G: Gate>(
    app: &A,
    gate: &G,
    shares: &mut [Share<A>],
    own: &mut Hand<Job<A::Val>, Done<A::Val>>,
    others: &mut [Hand<Job<A::Val>, Done<A::Val>>],
)
    requires told { All (IsTold A.meaning app.now) shares.old }
    requires own { MayPlay (A.meaning app.now) own.old }
    requires others { All (MayPlay (A.meaning app.now)) others.old }
    ensures told { All (IsTold A.meaning app.now) shares.new }
    ensures own { IsPlayed (A.meaning app.now) own.old own.new }
    ensures others { AllZip (IsPlayed (A.meaning app.now)) others.old others.new }
{
    let Some((hand, more_hands)) = others.split_first_mut() else {
        play(app, gate, own);
        return;
    };
    let Some((share, more_shares)) = shares.split_first_mut() else {
        play_shared(app, gate, shares, own, more_hands);
        play(app, gate, hand);
        return;
    };
    share.hand = hand.taken_out();
    share.give(app, gate);
    play_shared(app, gate, more_shares, own, more_hands);
    share.collect(app, gate);
    *hand = share.hand.taken_out();
}
