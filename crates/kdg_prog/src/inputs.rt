ghost use Rattle.std.specs.Prelude.{◌≡◌, ◌≤◌, ◌<◌, Ok, IfOk};
ghost use Rattle.bench_reader.specs.Decks.{IsSoundlyWired};
ghost use Rattle.gf2_eliminate.specs.Blocks.{most_blocks};
ghost use Rattle.kdg_text.specs.Faults.{Answers};
ghost use Rattle.logic_sim.specs.Chain.{most_inverters};
ghost use Rattle.mtx_reader.specs.Patterns.{IsPattern};
ghost use Rattle.outer_edge.specs.Transfers.{transfer_of};
ghost use Rattle.spring_mesh.specs.Files.{IsMesh};
ghost use Rattle.spring_mesh.specs.Pairs.{most_pairs};
ghost use Rattle.kdg_prog.specs.Inputs.{TakesAll, deck_for, mesh_for, pattern_for};

use bench_reader::{Deck, read_deck};
use gf2_eliminate::block_pattern;
use kdg_text::{ReadFail, Text};
use logic_sim::chain_deck;
use mtx_reader::{Pattern, read_mtx};
use outer_edge::{ReadAllFault, Source, read_all};
use spring_mesh::{MeshFile, pair_mesh, read_mesh};
use std::alloc::Global;

/// How many bytes an input may have.
pub(crate) const INPUT_BOUND: u64 = 16_777_216;

/// All bytes of the source, or none and no read is made where the input is made from a number.
pub(crate) fn read_input<S: Source>(
    alloc: Global,
    big: u32,
    source: &mut S,
) -> Result<Text, ReadAllFault>
    ensures taken { TakesAll big (transfer_of S.remaining S.faults source.old source.new) result }
    ensures unread { 0 < big → source.new ≡ source.old }
{
    if big > 0 {
        return Ok(Text::new(alloc));
    }
    read_all(alloc, source, INPUT_BOUND)
}

/// The deck that the input spells, or that is made from the number.
pub(crate) fn deck_for(alloc: Global, big: u32, input: &[u8]) -> Result<Deck, ReadFail>
    requires { big ≤ most_inverters }
    ensures found { Answers result (deck_for big input.now) }
    ensures sound { IfOk result IsSoundlyWired }
{
    if big == 0 {
        return read_deck(alloc, input);
    }
    Ok(chain_deck(alloc, big)?)
}

/// The pattern that the input spells, or that is made from the number.
pub(crate) fn pattern_for(alloc: Global, big: u32, input: &[u8]) -> Result<Pattern, ReadFail>
    requires { big ≤ most_blocks }
    ensures found { Answers result (pattern_for big input.now) }
    ensures sound { IfOk result IsPattern }
{
    if big == 0 {
        return read_mtx(alloc, input);
    }
    Ok(block_pattern(alloc, big)?)
}

/// The mesh that the input spells, or that is made from the number.
pub(crate) fn mesh_for(alloc: Global, big: u32, input: &[u8]) -> Result<MeshFile, ReadFail>
    requires { big ≤ most_pairs }
    ensures found { Answers result (mesh_for big input.now) }
    ensures sound { IfOk result IsMesh }
{
    if big == 0 {
        return read_mesh(alloc, input);
    }
    Ok(pair_mesh(alloc, big)?)
}
