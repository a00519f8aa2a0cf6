ghost use Rattle.std.specs.Prelude.{◌≡◌, Ok, IfOk, IfErr};
ghost use Rattle.mtx_reader.specs.Patterns.{IsPattern};
ghost use Rattle.kdg_prog.specs.Answer.{simulation_of};
ghost use Rattle.kdg_prog.specs.Inputs.{deck_for, mesh_for, pattern_for};
ghost use Rattle.kdg_prog.specs.Refusals.{IsBeforeStart, IsRefusalFor};
ghost use Rattle.kdg_prog.specs.Words.{IsAllowed};
ghost use Rattle.kdg_prog.specs.declared.words.Command.TheVariants as command;

use crate::inputs::{deck_for, pattern_for};
use crate::{Options, Status, inputs};
use gf2_eliminate::Matrix;
use kdg_text::Text;
use level_walk::Walk;
use logic_sim::Circuit;
use spring_mesh::Mesh;
use std::alloc::Global;

/// The circuit that an input describes, or why there is none. The input is dropped before anything runs.
pub(crate) fn circuit_for(alloc: Global, options: &Options, input: Text) -> Result<Circuit, Status>
    requires allowed { IsAllowed options.now }
    requires command { options.now.command ≡ command.Sim }
    ensures deck { IfOk result (λ circuit. deck_for options.now.big input ≡ Ok circuit.deck) }
    ensures circuit { IfOk result (λ circuit. circuit ≡ simulation_of options.now circuit.deck) }
    ensures refusal { IfErr result (IsRefusalFor command.Sim options.now input) }
    ensures before_start { IfErr result IsBeforeStart }
{
    let deck = deck_for(alloc, options.big, input.bytes())?;
    drop(input);
    Ok(Circuit::new(alloc, deck, options.until, options.clock)?)
}

/// The matrix that an input describes, or why there is none. The input is dropped before anything runs.
pub(crate) fn matrix_for(alloc: Global, options: &Options, input: Text) -> Result<Matrix, Status>
    requires allowed { IsAllowed options.now }
    requires command { options.now.command ≡ command.Rank }
    ensures matrix { IfOk result (λ matrix. pattern_for options.now.big input ≡ Ok matrix) }
    ensures refusal { IfErr result (IsRefusalFor command.Rank options.now input) }
    ensures before_start { IfErr result IsBeforeStart }
{
    let pattern = pattern_for(alloc, options.big, input.bytes())?;
    drop(input);
    Ok(Matrix::new(alloc, pattern))
}

/// The mesh that an input describes, or why there is none. The input is dropped before anything runs.
pub(crate) fn mesh_for(alloc: Global, options: &Options, input: Text) -> Result<Mesh, Status>
    requires allowed { IsAllowed options.now }
    requires command { options.now.command ≡ command.Mesh }
    ensures mesh { IfOk result (λ mesh. mesh_for options.now.big input ≡ Ok mesh) }
    ensures refusal { IfErr result (IsRefusalFor command.Mesh options.now input) }
    ensures before_start { IfErr result IsBeforeStart }
{
    let file = inputs::mesh_for(alloc, options.big, input.bytes())?;
    drop(input);
    Ok(Mesh::new(alloc, file))
}

/// The graph that an input describes, with the vertex where a search begins, or why there is none. The
/// input is dropped before anything runs.
pub(crate) fn walk_for(alloc: Global, options: &Options, input: Text) -> Result<Walk, Status>
    requires allowed { IsAllowed options.now }
    requires big { options.now.big ≡ 0 }
    ensures pattern { IfOk result (λ walk. pattern_for options.now.big input ≡ Ok walk.pattern) }
    ensures sound { IfOk result (λ walk. IsPattern walk.pattern) }
    ensures walk { IfOk result (λ walk. walk ≡ record { pattern = walk.pattern; from = options.now.from }) }
    ensures refusal { IfErr result (IsRefusalFor command.Levels options.now input) }
    ensures before_start { IfErr result IsBeforeStart }
{
    let pattern = pattern_for(alloc, options.big, input.bytes())?;
    drop(input);
    Ok(Walk::new(alloc, pattern, options.from)?)
}
