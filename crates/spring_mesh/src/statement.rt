ghost use Rattle.std.specs.Prelude.{◌≡◌, ◌≢◌, [], ◌∷◌, IfOk, IfErr};
ghost use Rattle.spring_mesh.specs.LineForms.{any_number, coordinate_of, end_by, form_by, form_of, node_by, number_in, spring_by, stiffness_of};

use crate::MeshNode;
use crate::faults::{BAD_NUMBER, SYNTAX};
use kdg_text::{LineFault, Tokens, read_i64, read_u64, without_comment};

const COMMENT: u8 = b'#';

const NO_MARKS: &[u8] = b"";

const NODE: &[u8] = b"node";

const SPRING: &[u8] = b"spring";

const END: &[u8] = b"end";

/// How far from 0 a place and a speed may be.
pub(crate) const REACH: u64 = 1_099_511_627_776;

const MOST_STIFFNESS: i64 = 1_000_000;

const MOST_MASS: u64 = 1_000_000;

/// The last time, and the longest time between steps.
const LATEST: u64 = 1_000_000_000;

/// A spring as its line gives it: the numbers of its ends are counted from 1, and may be no nodes.
#[derive(Clone, Copy)]
pub(crate) struct SpringDraft {
    pub(crate) a: u64,
    pub(crate) b: u64,
    pub(crate) k: i64,
    pub(crate) rx: i64,
    pub(crate) ry: i64,
    pub(crate) h: u64,
}

/// What a line says.
#[derive(Clone, Copy)]
pub(crate) enum Statement {
    /// The next node, and its mass.
    Node(MeshNode, i64),
    Spring(SpringDraft),
    /// When the motion ends.
    End(u64),
}

/// What a line says, what is wrong with it by itself, or nothing where it has no word.
pub(crate) fn statement_of(line: &[u8]) -> Option<Result<Statement, LineFault>>
    ensures { result ≡ form_of line.now }
{
    let mut words = Tokens::new(without_comment(line, COMMENT), NO_MARKS);
    let first = words.next_token()?;
    Some(statement_by(first, &mut words))
}

/// What a line says behind its first word.
fn statement_by(first: &[u8], words: &mut Tokens) -> Result<Statement, LineFault>
    ensures { result ≡ form_by first.now words.old }
{
    if first == NODE {
        node(words)
    } else if first == SPRING {
        spring(words)
    } else if first == END {
        end(words)
    } else {
        Err(SYNTAX)
    }
}

/// The next word of a line that has to have one.
fn word<'a>(words: &mut Tokens<'a>) -> Result<&'a [u8], LineFault>
    ensures found { IfOk result (λ word. words.old ≡ word.now ∷ words.new) }
    ensures none { IfErr result (λ fault. (fault ≡ SYNTAX) × (words.old ≡ [])) }
{
    words.next_token().ok_or(SYNTAX)
}

/// That a line has no further word.
fn line_end(words: &mut Tokens) -> Result<(), LineFault>
    ensures none { IfOk result (λ _. words.old ≡ []) }
    ensures more { IfErr result (λ fault. (fault ≡ SYNTAX) × (words.old ≢ [])) }
{
    match words.next_token() {
        None => Ok(()),
        Some(_) => Err(SYNTAX),
    }
}

/// `X Y VX VY MASS`.
fn node(words: &mut Tokens) -> Result<Statement, LineFault>
    ensures { result ≡ node_by words.old }
{
    let x = word(words)?;
    let y = word(words)?;
    let vx = word(words)?;
    let vy = word(words)?;
    let mass = word(words)?;
    line_end(words)?;
    let node = MeshNode {
        x: coordinate(x)?,
        y: coordinate(y)?,
        vx: coordinate(vx)?,
        vy: coordinate(vy)?,
        time: 0,
    };
    let mass = number_in(mass, 1, MOST_MASS)?;
    Ok(Statement::Node(node, mass as i64))
}

/// `A B K RX RY H`.
fn spring(words: &mut Tokens) -> Result<Statement, LineFault>
    ensures { result ≡ spring_by words.old }
{
    let a = word(words)?;
    let b = word(words)?;
    let k = word(words)?;
    let rx = word(words)?;
    let ry = word(words)?;
    let h = word(words)?;
    line_end(words)?;
    Ok(Statement::Spring(SpringDraft {
        a: any_number(a)?,
        b: any_number(b)?,
        k: stiffness(k)?,
        rx: coordinate(rx)?,
        ry: coordinate(ry)?,
        h: number_in(h, 1, LATEST)?,
    }))
}

/// `T`.
fn end(words: &mut Tokens) -> Result<Statement, LineFault>
    ensures { result ≡ end_by words.old }
{
    let time = word(words)?;
    line_end(words)?;
    Ok(Statement::End(number_in(time, 0, LATEST)?))
}

/// A place, a speed, or how far an end is from the other at rest.
fn coordinate(word: &[u8]) -> Result<i64, LineFault>
    ensures { result ≡ coordinate_of word.now }
{
    match read_i64(word) {
        Ok(number) if number.unsigned_abs() <= REACH => Ok(number),
        _ => Err(BAD_NUMBER),
    }
}

/// How hard a spring pulls.
fn stiffness(word: &[u8]) -> Result<i64, LineFault>
    ensures { result ≡ stiffness_of word.now }
{
    match read_i64(word) {
        Ok(number) if 0 <= number && number <= MOST_STIFFNESS => Ok(number),
        _ => Err(BAD_NUMBER),
    }
}

/// A number in a range.
fn number_in(word: &[u8], low: u64, high: u64) -> Result<u64, LineFault>
    ensures { result ≡ number_in low high word.now }
{
    match read_u64(word) {
        Ok(number) if low <= number && number <= high => Ok(number),
        _ => Err(BAD_NUMBER),
    }
}

/// A node's number, which has no range by itself.
fn any_number(word: &[u8]) -> Result<u64, LineFault>
    ensures { result ≡ any_number word.now }
{
    read_u64(word).map_err(|_| BAD_NUMBER)
}
