ghost use Rattle.std.specs.Prelude.{◌≡◌, ◌≤◌, ◌<◌, ◌∷◌, [], ◌++◌, Ok, Err, Some, None, length, IfOk, IfErr, OnOk, IfNone, OnSome, MatchOption};
ghost use Rattle.std.specs.Option.{option_or};
ghost use Rattle.std.specs.List.{AllByRecursion};
ghost use Rattle.kdg_text.specs.Faults.{Answers};
ghost use Rattle.mtx_reader.specs.Grammar.{answer_below, pattern_of, Refuses};
ghost use Rattle.mtx_reader.specs.Patterns.{IsPattern, limit_fault, is_skew, most_rows, most_columns, most_entries, place_fault, addends_by, size_fault};
ghost use Rattle.mtx_reader.specs.Places.{IsWithin};
ghost use Rattle.mtx_reader.specs.Readings.{answer_from, end_of, forms_left, is_kept, kept_places, numbered_form, pattern_of_kept};

use crate::banner::{Banner, Field, Symmetry, banner_of};
use crate::faults::{BANNER, ENTRY, FEW, MANY, PLACE, SIZE, beyond};
use crate::line_form::{Entry, LineForm, Size, form_of};
use crate::plain_line::next_plain;
use crate::{Pattern, PlaceList};
use kdg_text::{LineFault, Lines, NoRoom, ReadFail};
use std::alloc::Global;
use std::mem;

const MOST_ROWS: u64 = 4096;

const MOST_COLUMNS: u64 = 4096;

const MOST_ENTRIES: u64 = 1_000_000;

/// Reads a matrix over the field of two elements in the Matrix Market format, and answers where it
/// has its ones. The first line is `%%MatrixMarket matrix coordinate`, `pattern` or `integer`, and
/// `general` or `symmetric`; lines that are blank or begin with `%` are skipped; then come a line of
/// the numbers of rows, columns and entries, and a line of a row and a column for each entry. In a
/// pattern each place that is named has a one. Of integers a line has a value too, and each place
/// has a one where the sum of its values is odd. The first fault is answered with its line.
pub fn read_mtx(alloc: Global, input: &[u8]) -> Result<Pattern, ReadFail>
    ensures found { IfOk result (λ pattern. pattern_of input.now ≡ Ok pattern) }
    ensures pattern { IfOk result IsPattern }
    ensures refused { IfErr result (Refuses input.now) }
{
    pattern_in(alloc, input)
}

/// The pattern that the lines spell.
#[tactic(auto, unfolding(crate::specs::Grammar::pattern_of))]
fn pattern_in(alloc: Global, input: &[u8]) -> Result<Pattern, ReadFail>
    ensures answer { Answers result (pattern_of input.now) }
    ensures pattern { IfOk result IsPattern }
{
    let mut lines = Lines::new(input);
    match lines.next_line() {
        None => Err(ReadFail::Bad(BANNER.on_line(1))),
        Some(line) => match banner_of(line.bytes) {
            Err(fault) => Err(ReadFail::Bad(fault.on_line(1))),
            Ok(banner) => pattern_below(alloc, banner, &mut lines),
        },
    }
}

/// The pattern that the lines below the banner spell.
fn pattern_below(alloc: Global, banner: Banner, lines: &mut Lines) -> Result<Pattern, ReadFail>
    ensures answer { Answers result (answer_below banner (end_of lines.old) (forms_left banner.field lines.old)) }
    ensures pattern { IfOk result IsPattern }
{
    let Some(line) = next_said(banner.field, lines) else {
        return Err(ReadFail::Bad(SIZE.on_line(lines.number())));
    };
    match size_of(banner.symmetry, line.form) {
        Err(fault) => Err(ReadFail::Bad(fault.on_line(line.number))),
        Ok(size) => {
            let named = kept_places(alloc, banner, size, lines)?;
            let rows = size.rows as u32;
            let cols = size.columns as u32;
            Ok(Pattern {
                rows,
                cols,
                places: PlaceList::ones(banner.field, rows, cols, named),
            })
        }
    }
}

/// A line that says something.
#[derive(Clone, Copy)]
pub(crate) struct SaidLine {
    pub(crate) number: u64,
    pub(crate) form: LineForm,
}

/// The next line that says something. Where there is none, the lines are at their end.
#[inline(always)]
fn next_said(field: Field, lines: &mut Lines) -> Option<SaidLine>
    ensures said { MatchOption result (forms_left field lines.old ≡ []) (λ line. forms_left field lines.old ≡ numbered_form line ∷ forms_left field lines.new) }
    ensures end { end_of lines.new ≡ end_of lines.old }
    ensures at_end { IfNone result (lines.new.number ≡ end_of lines.old) }
    ensures shorter { OnSome result (length lines.new.lines < length lines.old.lines) }
{
    while let Some(line) = lines.next_line() {
        if let Some(form) = form_of(field, line.bytes) {
            return Some(SaidLine {
                number: line.number,
                form,
            });
        }
    }
    None
}

/// The size that the first line below the banner says, unless that is wrong.
fn size_of(symmetry: Symmetry, form: LineForm) -> Result<Size, LineFault>
    ensures fits { IfOk result (λ size. (form.size ≡ Some size) × (size_fault symmetry form.size ≡ None)) }
    ensures refused { IfErr result (λ fault. size_fault symmetry form.size ≡ Some fault) }
{
    let Some(size) = form.size else {
        return Err(SIZE);
    };
    if is_skew(symmetry, size) {
        return Err(SIZE);
    }
    match limit_fault(size) {
        Some(fault) => Err(fault),
        None => Ok(size),
    }
}

/// Whether a matrix that has to be symmetric isn't square.
fn is_skew(symmetry: Symmetry, size: Size) -> bool
    ensures { result ≡ is_skew symmetry size }
{
    match symmetry {
        Symmetry::General => false,
        Symmetry::Symmetric => size.rows != size.columns,
    }
}

/// A limit that the size goes beyond.
fn limit_fault(size: Size) -> Option<LineFault>
    ensures { result ≡ option_or (limit_fault most_rows size.rows) (option_or (limit_fault most_columns size.columns) (limit_fault most_entries size.entries)) }
{
    if size.rows > MOST_ROWS {
        Some(beyond(MOST_ROWS))
    } else if size.columns > MOST_COLUMNS {
        Some(beyond(MOST_COLUMNS))
    } else if size.entries > MOST_ENTRIES {
        Some(beyond(MOST_ENTRIES))
    } else {
        None
    }
}

/// The places that count of those that the entries stand for, in the order of their lines.
fn kept_places(
    alloc: Global,
    banner: Banner,
    size: Size,
    lines: &mut Lines,
) -> Result<Vec<(u32, u32)>, ReadFail>
    requires right { size_fault banner.symmetry (Some size) ≡ None }
    ensures found { IfOk result (λ named. answer_from banner size 0 [] (end_of lines.old) (forms_left banner.field lines.old) ≡ Ok (pattern_of_kept banner.field size named.items)) }
    ensures within { IfOk result (λ named. AllByRecursion (IsWithin size.rows size.columns) named.items) }
    ensures refused { IfErr result (λ fail. Answers (Err fail) (answer_from banner size 0 [] (end_of lines.old) (forms_left banner.field lines.old))) }
{
    let mut named = Vec::new(alloc);
    let mut count = keep_plain_lines(&mut named, banner, size, 0, lines)?;
    while let Some(line) = next_said(banner.field, lines) {
        if count == size.entries {
            return Err(ReadFail::Bad(MANY.on_line(line.number)));
        }
        match entry_of(size, line.form) {
            Err(fault) => return Err(ReadFail::Bad(fault.on_line(line.number))),
            Ok(entry) => push_kept(&mut named, banner, entry)?,
        }
        count = keep_plain_lines(&mut named, banner, size, count + 1, lines)?;
    }
    if count < size.entries {
        return Err(ReadFail::Bad(FEW.on_line(lines.number())));
    }
    Ok(named)
}

/// Keeps the places of the plain lines in front, up to a line that is another or has a fault, and answers
/// how many entries there are then. That takes less time than to cut the lines into words.
fn keep_plain_lines(
    named: &mut Vec<(u32, u32)>,
    banner: Banner,
    size: Size,
    before: u64,
    lines: &mut Lines,
) -> Result<u64, NoRoom>
    requires right { size_fault banner.symmetry (Some size) ≡ None }
    requires few { before ≤ size.entries }
    requires within { AllByRecursion (IsWithin size.rows size.columns) named.old.items }
    ensures whole { IfOk result (λ count. answer_from banner size before named.old.items (end_of lines.old) (forms_left banner.field lines.old) ≡ answer_from banner size count named.new.items (end_of lines.old) (forms_left banner.field lines.new)) }
    ensures few { IfOk result (λ count. count ≤ size.entries) }
    ensures within { OnOk result (AllByRecursion (IsWithin size.rows size.columns) named.new.items) }
    ensures end { OnOk result (end_of lines.new ≡ end_of lines.old) }
    ensures shorter { OnOk result (length lines.new.lines ≤ length lines.old.lines) }
{
    let mut count = before;
    // held by the loop itself, so that it stays in registers
    let mut left = mem::replace(lines, Lines::new(&[]));
    while count < size.entries {
        let Some(entry) = next_plain(banner.field, size, &mut left) else {
            break;
        };
        push_kept(named, banner, entry)?;
        count += 1;
    }
    *lines = left;
    Ok(count)
}

/// The entry that a line says, unless that is wrong.
fn entry_of(size: Size, form: LineForm) -> Result<Entry, LineFault>
    ensures said { IfOk result (λ entry. form.entry ≡ Some entry) }
    ensures within { IfOk result (λ entry. IsWithin size.rows size.columns (entry.row, entry.column)) }
    ensures fits { IfOk result (λ entry. place_fault size form.entry ≡ None) }
    ensures refused { IfErr result (λ fault. place_fault size form.entry ≡ Some fault) }
{
    let Some(entry) = form.entry else {
        return Err(ENTRY);
    };
    if size.has(entry) {
        Ok(entry)
    } else {
        Err(PLACE)
    }
}

/// Adds the places that count of those that an entry stands for.
fn push_kept(named: &mut Vec<(u32, u32)>, banner: Banner, entry: Entry) -> Result<(), NoRoom>
    requires row { entry.row ≤ 4096 }
    requires column { entry.column ≤ 4096 }
    ensures { OnOk result (named.new.items ≡ named.old.items ++ kept_places banner.field (addends_by banner.symmetry (Some entry))) }
{
    if !is_kept(banner.field, entry.value) {
        return Ok(());
    }
    let row = entry.row as u32;
    let column = entry.column as u32;
    named.push((row, column))?;
    match banner.symmetry {
        Symmetry::General => {}
        Symmetry::Symmetric if row == column => {}
        Symmetry::Symmetric => named.push((column, row))?,
    }
    Ok(())
}

/// Whether the places of an entry of that value count: an even number makes no sum odd.
fn is_kept(field: Field, value: i64) -> bool
    ensures { result ≡ is_kept field value }
{
    match field {
        Field::Pattern => true,
        Field::Integer => value.unsigned_abs() % 2 == 1,
    }
}
