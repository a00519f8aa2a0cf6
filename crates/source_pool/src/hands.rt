//! How the jobs of a round are performed by a thread for each worker.

ghost use Rattle.std.specs.Prelude.{◌≡◌, ◌≤◌, ◌<◌, [], false, length, IsPermutation, OnOk};
ghost use Rattle.std.specs.List.{All, AllByRecursion, AllZip};
ghost use Rattle.crew.specs.Jobs.{MayRun};
ghost use Rattle.source_pool.specs.declared.hands.Dealing.TheVariants.{InTurn};
ghost use Rattle.source_pool.specs.Performing.{AreDealt, AreDoneInSomeTurn, AreEmptyHands, IsPlayed, MayPlay, dealt_jobs, gathered};

use crate::partners::Partners;
use crate::performing::perform_in_turn;
use crate::round_lists::RoundLists;
use app_laws::App;
use cell_store::Held;
use graph_update::{Done, Job};
use kdg_text::NoRoom;
use outer_edge::Gate;
use std::alloc::Global;
use std::collections::VecDeque;
use std::mem;
use std::thread::{self, Threads};

/// What a worker has in hand at a time.
#[derive(Drop)]
pub(crate) struct Hand<J, D> {
    /// The worker's number.
    pub(crate) worker: u32,
    /// What is dealt to the worker and not yet performed, the first one dealt first.
    pub(crate) jobs: VecDeque<J>,
    /// What it has performed, in order.
    pub(crate) dones: VecDeque<D>,
    /// Whether it performed all that it was dealt.
    pub(crate) is_done: bool,
}

impl<J: Drop, D: Drop> Hand<J, D> {
    /// A hand of this worker with nothing in it.
    pub(crate) fn of(alloc: Global, worker: u32) -> Hand<J, D>
        ensures none { result.jobs.items ≡ [] }
        ensures not_done { result.is_done ≡ false }
    {
        Hand {
            worker,
            jobs: VecDeque::new(alloc),
            dones: VecDeque::new(alloc),
            is_done: false,
        }
    }

    /// The hand, which goes elsewhere. In its place is an empty one.
    pub(crate) fn taken_out(&mut self) -> Hand<J, D>
        ensures hand { result ≡ self.old }
        ensures none { self.new.is_done ≡ false }
    {
        let empty = Hand::of(*self.jobs.allocator(), self.worker);
        mem::replace(self, empty)
    }
}

/// How the jobs of a round are dealt out.
#[derive(Clone, Copy)]
enum Dealing {
    /// To one hand after the other, round and round.
    InTurn,
    /// To each hand as many as come next.
    InOrder,
}

/// Performs the jobs of a round by a thread for each worker, as they are dealt out: in turn, but where the gate is
/// open, and nobody sees who performs what, in order. The lists then have what was done; what was in the hands is
/// dropped.
pub(crate) fn perform_together<R: Threads + Sync, A: App + Sync, G: Gate + Sync>(
    rt: &R,
    app: &A,
    gate: &G,
    workers: u32,
    lists: &mut RoundLists<A>,
) -> Result<(), NoRoom>
    requires workers { 1 ≤ workers }
    requires may_run { AllByRecursion (MayRun (A.meaning app.now)) lists.old.jobs.items }
    requires told { lists.old.partners ≡ app.now }
    ensures done { OnOk result (AreDoneInSomeTurn (A.meaning app.now) lists.old.jobs.items lists.new.dones.items) }
    ensures told { lists.new.partners ≡ lists.old.partners }
{
    let dealing = if gate.is_open() {
        Dealing::InOrder
    } else {
        Dealing::InTurn
    };
    empty_hands(*lists.jobs.allocator(), workers, &mut lists.hands)?;
    deal(dealing, &mut lists.jobs, &mut lists.hands)?;
    play_each(rt, app, gate, &mut lists.hands, &mut lists.partners);
    gather(&mut lists.hands, &mut lists.dones)
}

/// A hand without jobs for each worker, in the order of their numbers.
fn empty_hands<V: Held>(
    alloc: Global,
    workers: u32,
    hands: &mut Vec<Hand<Job<V>, Done<V>>>,
) -> Result<(), NoRoom>
    ensures { OnOk result (AreEmptyHands workers hands.new.items) }
{
    hands.truncate(workers as usize);
    clear_jobs(hands);
    while hands.len() < workers as usize {
        hands.push(Hand::of(alloc, hands.len() as u32))?;
    }
    Ok(())
}

/// Drops the jobs of all hands.
fn clear_jobs<V: Held>(hands: &mut Vec<Hand<Job<V>, Done<V>>>)
    ensures count { length hands.new.items ≡ length hands.old.items }
    ensures empty { All (λ hand. hand.jobs.items ≡ []) hands.new.items }
{
    for place in 0..hands.len() {
        hands[place].jobs.clear();
    }
}

/// Deals the jobs out among the hands, which have none.
fn deal<V: Held>(
    dealing: Dealing,
    jobs: &mut VecDeque<Job<V>>,
    hands: &mut Vec<Hand<Job<V>, Done<V>>>,
) -> Result<(), NoRoom>
    requires some { 0 < length hands.old.items }
    requires empty { AreEmptyHands (length hands.old.items) hands.old.items }
    ensures count { OnOk result (length hands.new.items ≡ length hands.old.items) }
    ensures all { OnOk result (IsPermutation jobs.old.items (dealt_jobs hands.new.items)) }
    ensures in_turn { dealing ≡ InTurn → OnOk result (AreDealt (length hands.old.items) jobs.old.items hands.new.items) }
{
    match dealing {
        Dealing::InTurn => deal_in_turn(jobs, hands),
        Dealing::InOrder => deal_in_order(jobs, hands),
    }
}

/// Deals the jobs out in turn among the hands, which have none.
fn deal_in_turn<V: Held>(
    jobs: &mut VecDeque<Job<V>>,
    hands: &mut Vec<Hand<Job<V>, Done<V>>>,
) -> Result<(), NoRoom>
    requires some { 0 < length hands.old.items }
    requires empty { AreEmptyHands (length hands.old.items) hands.old.items }
    ensures { OnOk result (AreDealt (length hands.old.items) jobs.old.items hands.new.items) }
{
    let mut number = 0usize;
    while let Some(job) = jobs.pop_front() {
        let worker = number % hands.len();
        hands[worker].jobs.push_back(job)?;
        number += 1;
    }
    Ok(())
}

/// Deals the jobs out in order among the hands, which have none: to each as many as come next. What was done is
/// then, hand by hand, in the order of the jobs.
fn deal_in_order<V: Held>(
    jobs: &mut VecDeque<Job<V>>,
    hands: &mut Vec<Hand<Job<V>, Done<V>>>,
) -> Result<(), NoRoom>
    requires some { 0 < length hands.old.items }
    requires empty { AreEmptyHands (length hands.old.items) hands.old.items }
    ensures count { OnOk result (length hands.new.items ≡ length hands.old.items) }
    ensures all { OnOk result (IsPermutation jobs.old.items (dealt_jobs hands.new.items)) }
{
    let last = hands.len() - 1;
    let each = jobs.len().div_ceil(hands.len()).max(1);
    let mut number = 0usize;
    while let Some(job) = jobs.pop_front() {
        let place = (number / each).min(last);
        hands[place].jobs.push_back(job)?;
        number += 1;
    }
    Ok(())
}

/// Performs the jobs of all hands at once, by the workers that are kept, or else by new threads. Each
/// hand then has what became of its own.
fn play_each<R: Threads + Sync, A: App + Sync, G: Gate + Sync>(
    rt: &R,
    app: &A,
    gate: &G,
    hands: &mut [Hand<Job<A::Val>, Done<A::Val>>],
    partners: &mut Partners<A>,
)
    requires told { partners.old ≡ app.now }
    requires some { 0 < length hands.old }
    requires may_play { All (MayPlay (A.meaning app.now)) hands.old }
    ensures told { partners.new ≡ partners.old }
    ensures played { AllZip (IsPlayed (A.meaning app.now)) hands.old hands.new }
{
    if partners.desks() == 0 {
        play_all(rt, app, gate, hands);
        return;
    }
    if let Some((own, others)) = hands.split_first_mut() {
        partners.play(app, gate, own, others);
    }
}

/// Performs the jobs of all hands at once, by new threads. Each hand then has what became of its own.
fn play_all<R: Threads + Sync, A: App + Sync, G: Gate + Sync>(
    rt: &R,
    app: &A,
    gate: &G,
    hands: &mut [Hand<Job<A::Val>, Done<A::Val>>],
)
    requires some { 0 < length hands.old }
    requires may_play { All (MayPlay (A.meaning app.now)) hands.old }
    ensures { AllZip (IsPlayed (A.meaning app.now)) hands.old hands.new }
{
    let workers = hands.len();
    thread::for_each_mut(
        rt,
        hands,
        workers,
        &|_place: usize, hand: &mut Hand<Job<A::Val>, Done<A::Val>>|
            requires { MayPlay (A.meaning app.now) hand.now }
            ensures { IsPlayed (A.meaning app.entry.now) hand.entry.now hand.exit.now }
        { play(app, gate, hand) },
    );
}

/// Moves what was done in all hands into one list, hand by hand. What was in the list is dropped.
fn gather<V: Held>(
    hands: &mut Vec<Hand<Job<V>, Done<V>>>,
    dones: &mut VecDeque<Done<V>>,
) -> Result<(), NoRoom>
    ensures { OnOk result (gathered hands.old.items ≡ Some dones.new.items) }
{
    dones.clear();
    for place in 0..hands.len() {
        if !hands[place].is_done {
            return Err(NoRoom);
        }
        dones.append(&mut hands[place].dones)?;
    }
    Ok(())
}

/// Performs the jobs of a hand, in order. The hand then has what was done, and whether that is all; what was
/// there before is dropped.
pub(crate) fn play<A: App, G: Gate>(app: &A, gate: &G, hand: &mut Hand<Job<A::Val>, Done<A::Val>>)
    requires { MayPlay (A.meaning app.now) hand.old }
    ensures { IsPlayed (A.meaning app.now) hand.old hand.new }
{
    let end = hand.worker.saturating_add(1);
    let performed = perform_in_turn(app, gate, hand.worker..end, &mut hand.jobs, &mut hand.dones);
    hand.is_done = performed.is_ok();
}
