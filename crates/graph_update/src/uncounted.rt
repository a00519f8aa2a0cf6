//! Calls of an engine by callers who count no steps.

ghost use Rattle.std.specs.Prelude.{◌≡◌, ◌<◌, ◌≤◌, ◌^◌, [], length, IfOk, IfErr, OnOk, OnErr};
ghost use Rattle.app_laws.specs.Applications.{AreFitStarts};
ghost use Rattle.run_laws.specs.Answers.{IsBegun, IsFinishRefusal};
ghost use Rattle.graph_update.specs.Engine.{FinishStaysSound, IsBeginFault, StaysSound};
ghost use Rattle.run_laws.specs.Laws.{IsDone};
ghost use Rattle.run_laws.specs.Events.{IsFinished, IsOverLimit};
ghost use Rattle.run_laws.specs.Sound.{IsSound};

use crate::{BeginFault, Done, Engine, FinishFault};
use app_laws::App;
use kdg_text::Steps;
use std::alloc::Global;
use std::marker::Brand;
use std::sync::ledger::{Blank, Ledger};
use task_order::StartList;

impl<'a, A: App> Engine<'a, A> {
    /// Begins as `begin` does, where nobody counts the steps.
    pub fn begin_uncounted(
        alloc: Global,
        app: &'a A,
        cells: Vec<A::Val>,
        first: StartList,
        budget: u64,
    ) -> Result<Engine<'a, A>, BeginFault>
        requires fit_cells { (A.meaning app.now).is_fit_cells cells.items }
        requires fit_first { AreFitStarts (A.meaning app.now) first }
        requires few { length first < 2 ^ 32 }
        requires budget { budget ≤ 1_000_000_000 }
        ensures begun { IfOk result (λ engine. IsBegun (A.meaning app.now) cells.items first budget engine.progress) }
        ensures app { IfOk result (λ engine. engine.app ≡ app.now) }
        ensures within { OnOk result (length first ≤ budget) }
        ensures sound { IfOk result (λ engine. IsSound (A.meaning app.now) engine.progress [] cells.items) }
        ensures fault { IfErr result (IsBeginFault first budget) }
    {
        begin_over::<A, Brand>(alloc, app, cells, first, budget, Blank::new(1))
    }

    /// Ends a task as `finish` does, where nobody counts the steps.
    #[inline(always)]
    pub fn finish_uncounted(&mut self, done: Done<A::Val>) -> Result<(), FinishFault<A::Val>>
        requires { IsDone (A.meaning self.old.app) self.old.progress done }
        ensures app { self.new.app ≡ self.old.app }
        ensures finished { OnOk result (IsFinished (A.meaning self.old.app) self.old.progress done self.new.progress) }
        ensures within { OnOk result (¬ IsOverLimit (A.meaning self.old.app) self.old.progress done) }
        ensures sound { OnOk result (FinishStaysSound (A.meaning self.old.app) self.old.progress done self.new.progress) }
        ensures refused { IfErr result (IsFinishRefusal (A.meaning self.old.app) self.old.progress done self.new.progress) }
        ensures refused_sound { OnErr result (StaysSound (A.meaning self.old.app) self.old.progress self.new.progress) }
    {
        finish_over::<A, Brand>(self, done, Blank::new(1))
    }
}

/// An engine whose steps are counted over a fresh ledger, and no longer once it has begun.
fn begin_over<'a, A: App, L: Ledger>(
    alloc: Global,
    app: &'a A,
    cells: Vec<A::Val>,
    first: StartList,
    budget: u64,
    blank: Blank,
) -> Result<Engine<'a, A>, BeginFault>
    requires name { blank.name ≡ L.name }
    requires parts { blank.parts ≡ L.parts }
    requires some { 0 < blank.parts }
    requires fit_cells { (A.meaning app.now).is_fit_cells cells.items }
    requires fit_first { AreFitStarts (A.meaning app.now) first }
    requires few { length first < 2 ^ 32 }
    requires budget { budget ≤ 1_000_000_000 }
    ensures begun { IfOk result (λ engine. IsBegun (A.meaning app.now) cells.items first budget engine.progress) }
    ensures app { IfOk result (λ engine. engine.app ≡ app.now) }
    ensures within { OnOk result (length first ≤ budget) }
    ensures sound { IfOk result (λ engine. IsSound (A.meaning app.now) engine.progress [] cells.items) }
    ensures fault { IfErr result (IsBeginFault first budget) }
{
    let mut steps = Steps::<L>::new(blank);
    Engine::begin(alloc, app, cells, first, budget, &mut steps)
}

/// The end of a task whose steps are counted over a fresh ledger, and no longer.
#[inline(always)]
fn finish_over<A: App, L: Ledger>(
    engine: &mut Engine<'_, A>,
    done: Done<A::Val>,
    blank: Blank,
) -> Result<(), FinishFault<A::Val>>
    requires name { blank.name ≡ L.name }
    requires parts { blank.parts ≡ L.parts }
    requires some { 0 < blank.parts }
    requires done { IsDone (A.meaning engine.old.app) engine.old.progress done }
    ensures app { engine.new.app ≡ engine.old.app }
    ensures finished { OnOk result (IsFinished (A.meaning engine.old.app) engine.old.progress done engine.new.progress) }
    ensures within { OnOk result (¬ IsOverLimit (A.meaning engine.old.app) engine.old.progress done) }
    ensures sound { OnOk result (FinishStaysSound (A.meaning engine.old.app) engine.old.progress done engine.new.progress) }
    ensures refused { IfErr result (IsFinishRefusal (A.meaning engine.old.app) engine.old.progress done engine.new.progress) }
    ensures refused_sound { OnErr result (StaysSound (A.meaning engine.old.app) engine.old.progress engine.new.progress) }
{
    let mut steps = Steps::<L>::new(blank);
    engine.finish(done, &mut steps)
}
