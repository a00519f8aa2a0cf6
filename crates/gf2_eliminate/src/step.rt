ghost use Rattle.std.specs.Prelude.{◌≡◌, ℕ, ◌+◌, ◌<◌, List, IfOk, OnOk, OnErr};
ghost use Rattle.std.specs.List.{AllByRecursion};
ghost use Rattle.std.specs.Ordering.{nat_cmp};
ghost use Rattle.mtx_reader.specs.Ascending.{IsAscendingBy};
ghost use Rattle.gf2_eliminate.specs.declared.line.Line2.{Line2};
ghost use Rattle.gf2_eliminate.specs.Elimination.{free_line, pivot_line};
ghost use Rattle.gf2_eliminate.specs.Lines.{numbers_in, line_at, IsListTo};
ghost use Rattle.gf2_eliminate.specs.Plans.{pivot_among, planned, sums, text_with, with_lines, AreHeld, CanTake, HasRow, PutsOneLine, AreLists};

use crate::OneSet;
use crate::lines::Lines;
use crate::ones::Addend;
use kdg_text::{NoRoom, Text, push_u64};
use std::alloc::Global;

/// Does what the task of a column does, where there are `rows` rows, and tells its line. All memory is
/// taken before a line changes.
pub(crate) fn eliminate<C: Lines>(
    alloc: Global,
    rows: u32,
    column: u32,
    cells: &mut C,
) -> Result<Text, NoRoom>
    requires laws { PutsOneLine C.held C.has_line C.put_at }
    requires held { (columns : ℕ) × (lines : List Line2) × AreHeld rows columns column (C.held cells.old) (C.has_line cells.old) lines }
    ensures lines { (columns : ℕ) (lines : List Line2) → AreHeld rows columns column (C.held cells.old) (C.has_line cells.old) lines →
        OnOk result (cells.new ≡ with_lines C.put_at cells.old (planned (line_at lines) rows columns column)) }
    ensures text { (columns : ℕ) (lines : List Line2) → AreHeld rows columns column (C.held cells.old) (C.has_line cells.old) lines →
        IfOk result (λ text. text ≡ text_with column (pivot_among (line_at lines) (numbers_in (line_at lines (rows + column))))) }
    ensures unchanged { OnErr result (cells.new ≡ cells.old) }
{
    let ones = cells.line(rows + column).ones();
    match pivot_among(cells, ones) {
        None => free_line(alloc, column),
        Some(pivot) => {
            let others = Addend::new(ones.without(pivot + 1)?);
            let added = Addend::new(cells.line(pivot).ones().copy()?);
            let text = pivot_line(alloc, column, pivot)?;
            cells.line_mut(pivot).mark_used();
            add_to_lines(cells, 0, &others, &added);
            add_to_lines(cells, rows, &added, &others);
            Ok(text)
        }
    }
}

/// The location of the first of these rows that isn't used.
fn pivot_among<C: Lines>(cells: &C, holders: &OneSet) -> Option<u32>
    requires { AllByRecursion (HasRow (C.has_line cells.now)) holders.now }
    ensures { result ≡ pivot_among (C.held cells.now) holders.now }
{
    for row in holders.iter() {
        let loc = row - 1;
        if !cells.line(loc).is_used() {
            return Some(loc);
        }
    }
    None
}

/// Adds ones to the lines of these numbers, which count from 1 behind `before` lines.
fn add_to_lines<C: Lines>(cells: &mut C, before: u32, numbers: &Addend, added: &Addend)
    requires laws { PutsOneLine C.held C.has_line C.put_at }
    requires ready { AllByRecursion (CanTake before (C.held cells.old) (C.has_line cells.old)) numbers.now }
    requires ascending { IsAscendingBy nat_cmp numbers.now }
    ensures { (bound : ℕ) → AreLists before bound (C.held cells.old) numbers.now → IsListTo bound added.now →
        cells.new ≡ with_lines C.put_at cells.old (sums (C.held cells.old) before bound added.now numbers.now) }
{
    for number in numbers.iter() {
        cells.line_mut(before + (number - 1)).add(added);
    }
}

/// The line of a column without a pivot.
fn free_line(alloc: Global, column: u32) -> Result<Text, NoRoom>
    ensures { IfOk result (λ text. text ≡ free_line column) }
{
    let mut text = Text::new(alloc);
    text.push_all(b"col ")?;
    push_u64(&mut text, u64::from(column) + 1)?;
    text.push_all(b" free")?;
    text.push_byte(b'\n')?;
    Ok(text)
}

/// The line of a column with this pivot.
fn pivot_line(alloc: Global, column: u32, pivot: u32) -> Result<Text, NoRoom>
    ensures { IfOk result (λ text. text ≡ pivot_line column pivot) }
{
    let mut text = Text::new(alloc);
    text.push_all(b"col ")?;
    push_u64(&mut text, u64::from(column) + 1)?;
    text.push_all(b" row ")?;
    push_u64(&mut text, u64::from(pivot) + 1)?;
    text.push_byte(b'\n')?;
    Ok(text)
}
