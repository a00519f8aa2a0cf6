//! How the jobs of a round are drawn.

ghost use Rattle.std.specs.Prelude.{◌≡◌, [], None, OnOk};
ghost use Rattle.std.specs.List.{AllByRecursion};
ghost use Rattle.crew.specs.Jobs.{MayRun};
ghost use Rattle.run_laws.specs.Events.{clear_nodes};
ghost use Rattle.source_pool.specs.Course.{AreDrawn, RestsAt, RunPoint};
ghost use Rattle.source_pool.specs.Performing.{HasDrawn};

use crate::laws::drawing_laws;
use app_laws::App;
use graph_update::{Claim, Engine, Job};
use kdg_text::NoRoom;
use outer_edge::Gate;
use std::collections::VecDeque;

/// For how many turns a gate is asked at once.
const AHEAD: usize = 64;

/// What a gate chooses for worker 0, turn by turn.
#[derive(Drop)]
pub(crate) struct Picks<'g, G: Gate> {
    gate: &'g G,
    /// Whether the gate is open.
    is_open: bool,
    seed: u64,
    /// The turn that the gate is asked for next.
    turn: u64,
    /// What it chose last, and how many of these picks are used.
    picks: [u64; AHEAD],
    used: usize,
}

impl<'g, G: Gate> Picks<'g, G> {
    /// The picks from turn 0 on.
    pub(crate) fn new(gate: &'g G, seed: u64) -> Picks<'g, G> {
        Picks {
            gate,
            is_open: gate.is_open(),
            seed,
            turn: 0,
            picks: [0; AHEAD],
            used: AHEAD,
        }
    }

    /// The gate that chooses.
    pub(crate) fn gate(&self) -> &'g G {
        self.gate
    }

    /// The pick of the next turn. An open gate isn't asked: there the earliest task is the next one.
    #[inline(always)]
    pub(crate) fn next(&mut self) -> u64 {
        if self.is_open {
            return 0;
        }
        if let Some(pick) = self.picks.get(self.used) {
            self.used += 1;
            return *pick;
        }
        self.choose_ahead()
    }

    /// Asks the gate for more, and gives the first of these.
    fn choose_ahead(&mut self) -> u64 {
        self.gate
            .choose_ahead(self.seed, 0, self.turn, &mut self.picks);
        self.turn = self.turn.saturating_add(AHEAD as u64);
        self.used = 1;
        self.picks[0]
    }
}

/// Claims until a claim gives no job. The list then has the jobs, which are those of all clear tasks;
/// what was in it is dropped.
pub(crate) fn draw<A: App, G: Gate>(
    engine: &mut Engine<'_, A>,
    picks: &mut Picks<'_, G>,
    jobs: &mut VecDeque<Job<A::Val>>,
) -> Result<(), NoRoom>
    ghost from: { RunPoint A.Val }
    requires rest { RestsAt (A.meaning engine.old.app) from engine.old.progress }
    ensures app { engine.new.app ≡ engine.old.app }
    ensures drawing { OnOk result (AreDrawn (A.meaning engine.old.app) from engine.new.progress jobs.new.items) }
    ensures none_clear { OnOk result (clear_nodes (A.meaning engine.old.app) engine.new.progress.nodes ≡ []) }
    ensures may_run { OnOk result (AllByRecursion (MayRun (A.meaning engine.old.app)) jobs.new.items) }
    ensures ended { OnOk result (engine.new.progress.ended ≡ engine.old.progress.ended) }
{
    drawing_laws::<A>();
    jobs.clear();
    while let Claim::Job(job) = engine.claim(picks.next())? {
        jobs.push_back(job)?;
    }
    Ok(())
}

/// Claims the earliest clear tasks, as long as some is clear, until the list has `most` jobs; what was in it
/// is dropped.
pub(crate) fn draw_some<A: App>(
    engine: &mut Engine<'_, A>,
    most: usize,
    jobs: &mut VecDeque<Job<A::Val>>,
) -> Result<(), NoRoom>
    ensures app { engine.new.app ≡ engine.old.app }
    ensures drawn { OnOk result (HasDrawn (A.meaning engine.old.app) (λ drawn. drawn ≡ jobs.new.items) engine.old.progress engine.new.progress) }
    ensures may_run { OnOk result (AllByRecursion (MayRun (A.meaning engine.old.app)) jobs.new.items) }
    ensures ended { OnOk result (engine.new.progress.ended ≡ engine.old.progress.ended) }
{
    drawing_laws::<A>();
    jobs.clear();
    while jobs.len() < most {
        let Claim::Job(job) = engine.claim(0)? else {
            break;
        };
        jobs.push_back(job)?;
    }
    Ok(())
}

/// Claims the earliest clear tasks until none is clear. The list then has their jobs; what was in it is
/// dropped.
pub(crate) fn draw_rest<A: App>(
    engine: &mut Engine<'_, A>,
    jobs: &mut VecDeque<Job<A::Val>>,
) -> Result<(), NoRoom>
    requires not_over { engine.old.progress.over ≡ None }
    ensures app { engine.new.app ≡ engine.old.app }
    ensures drawn { OnOk result (HasDrawn (A.meaning engine.old.app) (λ drawn. drawn ≡ jobs.new.items) engine.old.progress engine.new.progress) }
    ensures none_clear { OnOk result (clear_nodes (A.meaning engine.old.app) engine.new.progress.nodes ≡ []) }
    ensures may_run { OnOk result (AllByRecursion (MayRun (A.meaning engine.old.app)) jobs.new.items) }
    ensures ended { OnOk result (engine.new.progress.ended ≡ engine.old.progress.ended) }
{
    drawing_laws::<A>();
    jobs.clear();
    while let Claim::Job(job) = engine.claim(0)? {
        jobs.push_back(job)?;
    }
    Ok(())
}
