ghost use Rattle.std.specs.Prelude.{◌≡◌, ◌+◌, ◌<◌, ◌≤◌, ◌∷◌, length, take, drop, Ok, Some, None, IfSome, OnSome, IfNone};
ghost use Rattle.kdg_text.specs.Numbers.{u64_of};
ghost use Rattle.mtx_reader.specs.declared.banner.Field.TheVariants.{Pattern};
ghost use Rattle.mtx_reader.specs.Patterns.{place_fault};
ghost use Rattle.mtx_reader.specs.Places.{IsWithin};
ghost use Rattle.mtx_reader.specs.PlainLines.{SaysFirst};
ghost use Rattle.mtx_reader.specs.Readings.{end_of, forms_left};

use crate::banner::Field;
use crate::line_form::{Entry, Size};
use kdg_text::Lines;

/// The numbers of rows and columns have no more digits.
const MOST_DIGITS: usize = 4;

/// A plain line has no more bytes, with its space and its line feed.
const MOST_BYTES: usize = 10;

/// The entry that the next line says where entries have that field, if that is a plain line of a
/// pattern and the entry lies within a matrix of that size. Else nothing is read.
#[inline(always)]
pub(crate) fn next_plain(field: Field, size: Size, lines: &mut Lines) -> Option<Entry>
    ensures said { IfSome result (λ entry. forms_left field lines.old ≡ record { number = lines.old.number; form = record { size = None; entry = Some entry } } ∷ forms_left field lines.new) }
    ensures within { IfSome result (λ entry. IsWithin size.rows size.columns (entry.row, entry.column)) }
    ensures fits { IfSome result (λ entry. place_fault size (Some entry) ≡ None) }
    ensures end { end_of lines.new ≡ end_of lines.old }
    ensures shorter { OnSome result (length lines.new.lines < length lines.old.lines) }
    ensures stays { IfNone result (lines.new ≡ lines.old) }
{
    match field {
        Field::Pattern => next_of_pattern(size, lines),
        Field::Integer => None,
    }
}

/// Such an entry of a pattern.
#[inline(always)]
fn next_of_pattern(size: Size, lines: &mut Lines) -> Option<Entry>
    ensures said { IfSome result (λ entry. forms_left Pattern lines.old ≡ record { number = lines.old.number; form = record { size = None; entry = Some entry } } ∷ forms_left Pattern lines.new) }
    ensures within { IfSome result (λ entry. IsWithin size.rows size.columns (entry.row, entry.column)) }
    ensures fits { IfSome result (λ entry. place_fault size (Some entry) ≡ None) }
    ensures end { end_of lines.new ≡ end_of lines.old }
    ensures shorter { OnSome result (length lines.new.lines < length lines.old.lines) }
    ensures stays { IfNone result (lines.new ≡ lines.old) }
{
    let rest = lines.rest();
    let plain = plain_line(rest)?;
    if !size.has(plain.entry) {
        return None;
    }
    *lines = Lines::numbered_from(lines.number() + 1, &rest[plain.len + 1..]);
    Some(plain.entry)
}

/// A line of a pattern that says its entry by two numbers of few digits with one space between.
#[derive(Clone, Copy)]
struct PlainLine {
    entry: Entry,
    /// How many bytes stand before the line feed.
    len: usize,
}

/// The plain line that the bytes begin with, as most lines are. That takes less time than to cut it off
/// and then into words. At the end of an input, where fewer bytes are left than a plain line may have,
/// none is looked for.
#[inline(always)]
fn plain_line(bytes: &[u8]) -> Option<PlainLine>
    ensures within { IfSome result (λ plain. plain.len < length bytes.now) }
    ensures said { IfSome result (λ plain. SaysFirst bytes.now plain.entry (drop (plain.len + 1) bytes.now)) }
{
    if bytes.len() < MOST_BYTES {
        return None;
    }
    let row = leading_number(bytes);
    if row.len == 0 || bytes[row.len] != b' ' {
        return None;
    }
    let rest = &bytes[row.len + 1..];
    let column = leading_number(rest);
    if column.len == 0 || rest[column.len] != b'\n' {
        return None;
    }
    let entry = Entry {
        row: u64::from(row.value),
        column: u64::from(column.value),
        value: 1,
    };
    Some(PlainLine {
        entry,
        len: row.len + 1 + column.len,
    })
}

/// A number, and how many digits spell it. Without a digit it is 0.
#[derive(Clone, Copy)]
struct Leading {
    value: u32,
    len: usize,
}

/// The number that the first digits spell, few at most.
#[inline(always)]
fn leading_number(bytes: &[u8]) -> Leading
    requires { MOST_DIGITS ≤ length bytes.now }
    ensures within { result.len ≤ MOST_DIGITS }
    ensures number { 0 < result.len → u64_of (take result.len bytes.now) ≡ Ok result.value }
{
    let mut value = 0u32;
    for len in 0..MOST_DIGITS {
        // of a byte below the digits this wraps, and is great
        let digit = u32::from(bytes[len]).wrapping_sub(48);
        if digit > 9 {
            return Leading { value, len };
        }
        value = 10 * value + digit;
    }
    Leading {
        value,
        len: MOST_DIGITS,
    }
}
