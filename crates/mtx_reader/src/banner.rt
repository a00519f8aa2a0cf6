ghost use Rattle.std.specs.Prelude.{◌≡◌, ◌∷◌, [], true, IfOk, IfErr};
ghost use Rattle.kdg_text.specs.Tokens.{spells};
ghost use Rattle.mtx_reader.specs.LineForms.{words_of, layout_fault, field_of, symmetry_of, banner_of};

use crate::faults::{BANNER, UNSUPPORTED};
use kdg_text::{LineFault, Tokens};

/// No byte is a token of its own.
pub(crate) const NO_MARKS: &[u8] = b"";

const MARK: &[u8] = b"%%MatrixMarket";

/// What an entry has beside its place.
#[derive(Clone, Copy)]
pub(crate) enum Field {
    /// Nothing.
    Pattern,
    /// A whole number, which is its value.
    Integer,
}

/// Which places an entry stands for.
#[derive(Clone, Copy)]
pub(crate) enum Symmetry {
    /// Its own.
    General,
    /// Its own, and the one with row and column exchanged.
    Symmetric,
}

/// What the first line says of the entries.
#[derive(Clone, Copy)]
pub(crate) struct Banner {
    pub(crate) field: Field,
    pub(crate) symmetry: Symmetry,
}

/// What the first line says.
pub(crate) fn banner_of(line: &[u8]) -> Result<Banner, LineFault>
    ensures { result ≡ banner_of (words_of line.now) }
{
    let mut words = Tokens::new(line, NO_MARKS);
    let mark = word(&mut words)?;
    let object = word(&mut words)?;
    let layout = word(&mut words)?;
    let field = word(&mut words)?;
    let symmetry = word(&mut words)?;
    if words.next_token().is_some() || mark != MARK || !spells(object, b"matrix") {
        return Err(BANNER);
    }
    if let Some(fault) = layout_fault(layout) {
        return Err(fault);
    }
    let field = field_of(field)?;
    let symmetry = symmetry_of(symmetry)?;
    Ok(Banner { field, symmetry })
}

/// The next word of a line that has to have one.
fn word<'a>(words: &mut Tokens<'a>) -> Result<&'a [u8], LineFault>
    ensures found { IfOk result (λ word. words.old ≡ word.now ∷ words.new) }
    ensures none { IfErr result (λ fault. (fault ≡ BANNER) × (words.old ≡ [])) }
{
    words.next_token().ok_or(BANNER)
}

/// Whether a word is this one, in letters of any case.
fn spells(word: &[u8], small: &[u8]) -> bool
    requires { spells small.now small.now ≡ true }
    ensures { result ≡ spells word.now small.now }
{
    word.eq_ignore_ascii_case(small)
}

/// What is wrong with the word for how the entries are laid out.
fn layout_fault(word: &[u8]) -> Option<LineFault>
    ensures { result ≡ layout_fault word.now }
{
    if spells(word, b"coordinate") {
        None
    } else if spells(word, b"array") {
        Some(UNSUPPORTED)
    } else {
        Some(BANNER)
    }
}

/// What an entry has beside its place, by the last word but one.
fn field_of(word: &[u8]) -> Result<Field, LineFault>
    ensures { result ≡ field_of word.now }
{
    if spells(word, b"pattern") {
        Ok(Field::Pattern)
    } else if spells(word, b"integer") {
        Ok(Field::Integer)
    } else if spells(word, b"real") || spells(word, b"complex") {
        Err(UNSUPPORTED)
    } else {
        Err(BANNER)
    }
}

/// Which places an entry stands for, by the last word.
fn symmetry_of(word: &[u8]) -> Result<Symmetry, LineFault>
    ensures { result ≡ symmetry_of word.now }
{
    if spells(word, b"general") {
        Ok(Symmetry::General)
    } else if spells(word, b"symmetric") {
        Ok(Symmetry::Symmetric)
    } else if spells(word, b"skew-symmetric") || spells(word, b"hermitian") {
        Err(UNSUPPORTED)
    } else {
        Err(BANNER)
    }
}
