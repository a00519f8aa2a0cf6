ghost use Rattle.std.specs.Prelude.{◌≡◌, ◌&&◌, ◌∷◌, [], Some, IsTrue};
ghost use Rattle.kdg_text.specs.Numbers.{u64_of};
ghost use Rattle.mtx_reader.specs.LineForms.{is_comment, form_of, form_of_words, size_from, entry_from};
ghost use Rattle.mtx_reader.specs.Patterns.{is_number_to};
ghost use Rattle.mtx_reader.specs.Places.{IsWithin};

use crate::banner::{Field, NO_MARKS};
use kdg_text::{NumFault, Tokens, read_i64, read_u64};

/// How large a matrix is, and how many entries follow.
#[derive(Clone, Copy)]
pub(crate) struct Size {
    pub(crate) rows: u64,
    pub(crate) columns: u64,
    pub(crate) entries: u64,
}

impl Size {
    /// Whether an entry lies within a matrix of that size.
    #[inline(always)]
    pub(crate) fn has(self, entry: Entry) -> bool
        ensures has { result ≡ (is_number_to self.rows entry.row && is_number_to self.columns entry.column) }
        ensures within { IsTrue result → IsWithin self.rows self.columns (entry.row, entry.column) }
    {
        let is_in_rows = 1 <= entry.row && entry.row <= self.rows;
        is_in_rows && 1 <= entry.column && entry.column <= self.columns
    }
}

/// A place, and what is added there: 1 where entries have no value.
#[derive(Clone, Copy)]
pub(crate) struct Entry {
    pub(crate) row: u64,
    pub(crate) column: u64,
    pub(crate) value: i64,
}

/// What a line below the banner says, as each of the two that it may have to be.
#[derive(Clone, Copy)]
pub(crate) struct LineForm {
    pub(crate) size: Option<Size>,
    pub(crate) entry: Option<Entry>,
}

const NEITHER: LineForm = LineForm {
    size: None,
    entry: None,
};

/// What a line says where entries have that field, or nothing where it is a comment or has no words.
pub(crate) fn form_of(field: Field, line: &[u8]) -> Option<LineForm>
    ensures { result ≡ form_of field line.now }
{
    if is_comment(line) {
        return None;
    }
    let mut words = Tokens::new(line, NO_MARKS);
    let first = words.next_token()?;
    Some(form_by(field, first, &mut words))
}

/// Whether a line is a comment.
fn is_comment(line: &[u8]) -> bool
    ensures { result ≡ is_comment line.now }
{
    matches!(line, [b'%', ..])
}

/// What a line says behind its first word.
fn form_by(field: Field, first: &[u8], words: &mut Tokens) -> LineForm
    ensures { Some result ≡ form_of_words field (first.now ∷ words.old) }
{
    let Some(second) = words.next_token() else {
        return NEITHER;
    };
    let Some(third) = words.next_token() else {
        return form_of_two(field, first, second);
    };
    match words.next_token() {
        None => form_of_three(field, first, second, third),
        Some(_) => NEITHER,
    }
}

/// What two words say: an entry without a value.
fn form_of_two(field: Field, first: &[u8], second: &[u8]) -> LineForm
    ensures { Some result ≡ form_of_words field (first.now ∷ second.now ∷ []) }
{
    match field {
        Field::Pattern => LineForm {
            size: None,
            entry: entry_from(first, second, Ok(1)),
        },
        Field::Integer => NEITHER,
    }
}

/// What three words say: a size, and an entry with a value.
fn form_of_three(field: Field, first: &[u8], second: &[u8], third: &[u8]) -> LineForm
    ensures { Some result ≡ form_of_words field (first.now ∷ second.now ∷ third.now ∷ []) }
{
    let entry = match field {
        Field::Pattern => None,
        Field::Integer => entry_from(first, second, read_i64(third)),
    };
    LineForm {
        size: size_from(first, second, third),
        entry,
    }
}

/// A size, where all words are numbers.
fn size_from(rows: &[u8], columns: &[u8], entries: &[u8]) -> Option<Size>
    ensures { result ≡ size_from (u64_of rows.now) (u64_of columns.now) (u64_of entries.now) }
{
    match (read_u64(rows), read_u64(columns), read_u64(entries)) {
        (Ok(rows), Ok(columns), Ok(entries)) => Some(Size {
            rows,
            columns,
            entries,
        }),
        _ => None,
    }
}

/// An entry, where both words are numbers and the value is one.
fn entry_from(row: &[u8], column: &[u8], value: Result<i64, NumFault>) -> Option<Entry>
    ensures { result ≡ entry_from (u64_of row.now) (u64_of column.now) value }
{
    match (read_u64(row), read_u64(column), value) {
        (Ok(row), Ok(column), Ok(value)) => Some(Entry { row, column, value }),
        _ => None,
    }
}
