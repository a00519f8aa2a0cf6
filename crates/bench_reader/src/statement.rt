ghost use Rattle.std.specs.Prelude.{◌≡◌, ◌∷◌, [], ℕ, List, drop, nat_lt, if◌then◌else◌};
ghost use Rattle.std.specs.Option.{option_or};
ghost use Rattle.kdg_text.specs.Numbers.{u64_of};
ghost use Rattle.kdg_text.specs.Tokens.{tokens_of};
ghost use Rattle.kdg_text.specs.Faults.{fault_where};
ghost use Rattle.bench_reader.specs.Faults.{beyond, unsupported, unknown_kind};
ghost use Rattle.bench_reader.specs.LineForms.{FaultyLine, marks, form_of, form_by, declared_by, delay_at, delay_by, gate_by, gate_of, is_unsupported, kind_of, names_among, other_kind, stimulus_at, stimulus_by};
ghost use Rattle.bench_reader.specs.Statements.{Counts, Says, SaysForm, fan_in_of};

use crate::GateKind;
use crate::faults::{ARITY, BAD_NUMBER, SYNTAX, UNKNOWN_KIND, UNSUPPORTED, beyond};
use crate::names::{
    CLOSING, MOST_FAN_INS, MOST_NAME_BYTES, Names, OPENING, count_names, is_long, token,
};
use crate::words::{
    MARKS, is_arity, is_bits, is_constant, is_flip_flop, is_name, is_text, is_unsupported, is_word,
    kind_of, spells,
};
use kdg_text::{LineFault, Tokens, read_u64, without_comment};

const COMMENT: u8 = b'#';

const AT: &[u8] = b"@";

const EQUALS: &[u8] = b"=";

const LATEST_STIMULUS: u64 = 1_000_000_000;

const LONGEST_DELAY: u64 = 1_000_000;

/// A gate as its line defines it.
#[derive(Clone, Copy)]
pub(crate) struct GateDraft<'a> {
    pub(crate) name: &'a [u8],
    pub(crate) kind: GateKind,
    /// The whole line, which has the names of the fan-ins.
    pub(crate) line: &'a [u8],
}

/// A flip-flop as its line defines it.
#[derive(Clone, Copy)]
pub(crate) struct FlipFlopDraft<'a> {
    pub(crate) name: &'a [u8],
    pub(crate) source: &'a [u8],
}

/// The delay that a line gives a name.
#[derive(Clone, Copy)]
pub(crate) struct DelayDraft<'a> {
    pub(crate) name: &'a [u8],
    pub(crate) delay: u32,
}

/// A stimulus as its line gives it.
#[derive(Clone, Copy)]
pub(crate) struct StimDraft<'a> {
    pub(crate) time: u64,
    pub(crate) bits: &'a [u8],
}

/// What a line says.
#[derive(Clone, Copy)]
pub(crate) enum Statement<'a> {
    Input(&'a [u8]),
    Output(&'a [u8]),
    Gate(GateDraft<'a>),
    FlipFlop(FlipFlopDraft<'a>),
    Delay(DelayDraft<'a>),
    Stimulus(StimDraft<'a>),
}

/// What a line says, with the limit that its own bytes go beyond.
#[derive(Clone, Copy)]
pub(crate) struct Said<'a> {
    pub(crate) statement: Statement<'a>,
    pub(crate) limit: Option<LineFault>,
}

/// What the line of that number says.
#[derive(Clone, Copy)]
pub(crate) struct NumberedStatement<'a> {
    pub(crate) number: u64,
    pub(crate) statement: Statement<'a>,
}

/// What a line says, or nothing where it has no token.
pub(crate) fn statement_of(line: &[u8]) -> Result<Option<Said>, LineFault>
    ensures { Says result (form_of line.now) }
{
    let text = without_comment(line, COMMENT);
    if !is_text(text) {
        return Err(SYNTAX);
    }
    let mut tokens = Tokens::new(text, MARKS);
    match tokens.next_token() {
        None => Ok(None),
        Some(first) => Ok(Some(statement_by(text, first, &mut tokens)?)),
    }
}

/// What the line says, behind its first token.
fn statement_by<'a>(
    line: &'a [u8],
    first: &'a [u8],
    tokens: &mut Tokens<'a>,
) -> Result<Said<'a>, LineFault>
    requires { tokens_of marks line.now ≡ first.now ∷ tokens.old }
    ensures { SaysForm result (form_by first.now tokens.old) }
{
    let second = token(tokens)?;
    if first == AT {
        stimulus(second, tokens)
    } else if spells(first, b"@delay") {
        delay(second, tokens)
    } else if second == OPENING {
        declaration(first, tokens)
    } else if second == EQUALS {
        gate(line, first, tokens)
    } else {
        Err(SYNTAX)
    }
}

/// `WORD ( NAME )` behind the first mark.
fn declaration<'a>(word: &'a [u8], tokens: &mut Tokens<'a>) -> Result<Said<'a>, LineFault>
    ensures { SaysForm result (declared_by word.now tokens.old) }
{
    let name = token(tokens)?;
    let mark = token(tokens)?;
    if !is_name(name) || mark != CLOSING || tokens.next_token().is_some() {
        return Err(SYNTAX);
    }
    let limit = limit_of(is_long(name), 0);
    if spells(word, b"input") {
        let statement = Statement::Input(name);
        Ok(Said { statement, limit })
    } else if spells(word, b"output") {
        let statement = Statement::Output(name);
        Ok(Said { statement, limit })
    } else {
        Err(SYNTAX)
    }
}

/// The limit that a line goes beyond, where one of its names is too long, or there are too many.
fn limit_of(has_long: bool, fan_ins: usize) -> Option<LineFault>
    ensures { result ≡ option_or (fault_where has_long (beyond 64)) (fault_where (nat_lt 255 fan_ins) (beyond 255)) }
{
    if has_long {
        Some(beyond(MOST_NAME_BYTES as u64))
    } else if MOST_FAN_INS < fan_ins {
        Some(beyond(MOST_FAN_INS as u64))
    } else {
        None
    }
}

/// `NAME = WORD ( NAME , NAME .. )` or `NAME = CONSTANT` behind the first mark.
fn gate<'a>(line: &'a [u8], name: &'a [u8], tokens: &mut Tokens<'a>) -> Result<Said<'a>, LineFault>
    requires { tokens_of marks line.now ≡ name.now ∷ EQUALS.now ∷ tokens.old }
    ensures { SaysForm result (gate_by name.now tokens.old) }
{
    let word = token(tokens)?;
    match tokens.next_token() {
        None => Err(constant_fault(name, word)),
        Some(mark) => {
            if !is_name(name) || !is_word(word) || mark != OPENING {
                return Err(SYNTAX);
            }
            driven(line, name, word, count_names(tokens)?)
        }
    }
}

/// A gate or a flip-flop whose kind a word names, behind which these names stand.
fn driven<'a>(
    line: &'a [u8],
    name: &'a [u8],
    word: &[u8],
    names: Names<'a>,
) -> Result<Said<'a>, LineFault>
    requires { Counts names (drop 4 (tokens_of marks line.now)) }
    ensures { SaysForm result (gate_of name.now word.now (fan_in_of line.now) (kind_of word.now)) }
{
    match kind_of(word) {
        None => flip_flop(name, word, names),
        Some(kind) => {
            if !is_arity(kind, names.count) {
                return Err(ARITY);
            }
            Ok(Said {
                statement: Statement::Gate(GateDraft { name, kind, line }),
                limit: limit_of(is_long(name) || names.has_long, names.count),
            })
        }
    }
}

/// A flip-flop, where a word that names no kind of gate names its kind.
fn flip_flop<'a>(name: &'a [u8], word: &[u8], names: Names<'a>) -> Result<Said<'a>, LineFault>
    ensures { (tokens : List (List ℕ)) → Counts names.entry tokens → SaysForm result (other_kind name.now word.now (names_among tokens)) }
{
    if !is_flip_flop(word) {
        return Err(kind_fault(word));
    }
    if names.count != 1 {
        return Err(ARITY);
    }
    let source = names.last;
    Ok(Said {
        statement: Statement::FlipFlop(FlipFlopDraft { name, source }),
        limit: limit_of(is_long(name) || names.has_long, 1),
    })
}

/// What is wrong with `NAME = WORD`.
fn constant_fault(name: &[u8], word: &[u8]) -> LineFault
    ensures { gate_by name.now (word.now ∷ []) ≡ FaultyLine result }
{
    if is_name(name) && is_constant(word) {
        UNSUPPORTED
    } else {
        SYNTAX
    }
}

/// What is wrong with a word that names no kind.
fn kind_fault(word: &[u8]) -> LineFault
    ensures { result ≡ (if is_unsupported word.now then unsupported else unknown_kind) }
{
    if is_unsupported(word) {
        UNSUPPORTED
    } else {
        UNKNOWN_KIND
    }
}

/// `@ TIME BITS` behind the time.
fn stimulus<'a>(time: &'a [u8], tokens: &mut Tokens<'a>) -> Result<Said<'a>, LineFault>
    ensures { SaysForm result (stimulus_by time.now tokens.old) }
{
    let bits = token(tokens)?;
    if tokens.next_token().is_some() || !is_bits(bits) {
        return Err(SYNTAX);
    }
    stimulus_at(time, bits)
}

/// A stimulus at the time that a word says.
fn stimulus_at<'a>(time: &'a [u8], bits: &'a [u8]) -> Result<Said<'a>, LineFault>
    ensures { SaysForm result (stimulus_at (u64_of time.now) bits.now) }
{
    match read_u64(time) {
        Ok(time) if time <= LATEST_STIMULUS => Ok(Said {
            statement: Statement::Stimulus(StimDraft { time, bits }),
            limit: None,
        }),
        _ => Err(BAD_NUMBER),
    }
}

/// `@delay NAME N` behind the name.
fn delay<'a>(name: &'a [u8], tokens: &mut Tokens<'a>) -> Result<Said<'a>, LineFault>
    ensures { SaysForm result (delay_by name.now tokens.old) }
{
    let number = token(tokens)?;
    if tokens.next_token().is_some() || !is_name(name) {
        return Err(SYNTAX);
    }
    delay_at(name, number)
}

/// The delay that a word says, for the signal of this name.
fn delay_at<'a>(name: &'a [u8], number: &[u8]) -> Result<Said<'a>, LineFault>
    ensures { SaysForm result (delay_at name.now (u64_of number.now)) }
{
    match read_u64(number) {
        Ok(delay) if 1 <= delay && delay <= LONGEST_DELAY => {
            let delay = delay as u32;
            Ok(Said {
                statement: Statement::Delay(DelayDraft { name, delay }),
                limit: limit_of(is_long(name), 0),
            })
        }
        _ => Err(BAD_NUMBER),
    }
}
