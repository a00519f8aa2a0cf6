ghost use Rattle.std.specs.Prelude.{◌≡◌, ◌+◌, ◌≤◌, ◌<◌, ◌^◌, ◌++◌, IfOk, OnOk};
ghost use Rattle.std.specs.List.{AllByRecursion};
ghost use Rattle.mtx_reader.specs.Patterns.{IsPattern};
ghost use Rattle.gf2_eliminate.specs.Blocks.{generated_input, most_blocks, places_behind};

use kdg_text::NoRoom;
use mtx_reader::{Pattern, PlaceList};
use std::alloc::Global;

/// A pattern of `n` blocks along the diagonal, from 1 to 1,365. Each block has three rows and three
/// columns, and two ones in its first row, two in its second, and one in its third.
pub fn block_pattern(alloc: Global, n: u32) -> Result<Pattern, NoRoom>
    requires some { 1 ≤ n }
    requires few { n ≤ most_blocks }
    ensures pattern { IfOk result (λ pattern. pattern ≡ generated_input n) }
    ensures sound { IfOk result IsPattern }
{
    let mut places = PlaceList::new(alloc);
    for block in 0..n {
        push_block(&mut places, 3 * block)?;
    }
    Ok(Pattern {
        rows: 3 * n,
        cols: 3 * n,
        places,
    })
}

/// Adds the places of a block behind `before` rows and columns.
fn push_block(places: &mut PlaceList, before: u32) -> Result<(), NoRoom>
    requires room { before + 3 < 2 ^ 32 }
    requires behind { AllByRecursion (λ place. place.0 ≤ before) places.old }
    ensures { OnOk result (places.new ≡ places.old ++ places_behind before) }
{
    places.push(before + 1, before + 1)?;
    places.push(before + 1, before + 2)?;
    places.push(before + 2, before + 1)?;
    places.push(before + 2, before + 3)?;
    places.push(before + 3, before + 3)?;
    Ok(())
}
