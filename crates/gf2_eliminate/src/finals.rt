ghost use Rattle.std.specs.Prelude.{◌≡◌, ℕ, ◌++◌, IfOk, OnOk};
ghost use Rattle.cell_store.specs.Values.{homes, values_of};
ghost use Rattle.gf2_eliminate.specs.Lines.{AreLines};
ghost use Rattle.gf2_eliminate.specs.Start.{finals_of, row_text, rank_text, spaced};

use crate::Line2;
use cell_store::{Seen, Store};
use kdg_text::{NoRoom, Text, push_u64};
use std::alloc::Global;

/// A line for each of `rows` rows with the columns of its ones, and then the rank.
pub(crate) fn finals(alloc: Global, rows: u32, store: &Store<Line2>) -> Result<Text, NoRoom>
    requires home { store.now ≡ homes (values_of store.now) }
    requires fit { (columns : ℕ) × AreLines rows columns (values_of store.now) }
    ensures { IfOk result (λ text. text ≡ finals_of rows (values_of store.now)) }
{
    let mut text = Text::new(alloc);
    let mut rank = 0u32;
    for row in 0..rows {
        match store.peek(row) {
            Seen::At(line) => {
                push_row(&mut text, row, &line.ones().places()?)?;
                if line.is_used() {
                    rank += 1;
                }
            }
            Seen::Out => {}
        }
    }
    push_rank(&mut text, rank)?;
    Ok(text)
}

/// Appends the line of a row.
fn push_row(text: &mut Text, row: u32, numbers: &[u32]) -> Result<(), NoRoom>
    ensures { OnOk result (text.new ≡ text.old ++ row_text row numbers.now) }
{
    text.push_all(b"row ")?;
    push_u64(text, u64::from(row) + 1)?;
    push_spaced(text, numbers)?;
    text.push_byte(b'\n')
}

/// Appends each number after a space.
fn push_spaced(text: &mut Text, numbers: &[u32]) -> Result<(), NoRoom>
    ensures { OnOk result (text.new ≡ text.old ++ spaced numbers.now) }
{
    for number in numbers {
        text.push_byte(b' ')?;
        push_u64(text, u64::from(*number))?;
    }
    Ok(())
}

/// Appends the line of the rank.
fn push_rank(text: &mut Text, rank: u32) -> Result<(), NoRoom>
    ensures { OnOk result (text.new ≡ text.old ++ rank_text rank) }
{
    text.push_all(b"rank ")?;
    push_u64(text, u64::from(rank))?;
    text.push_byte(b'\n')
}
