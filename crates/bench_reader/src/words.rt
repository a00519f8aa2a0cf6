ghost use Rattle.std.specs.Prelude.{◌≡◌, true};
ghost use Rattle.std.specs.List.{list_all};
ghost use Rattle.kdg_text.specs.Tokens.{spells};
ghost use Rattle.bench_reader.specs.LineForms.{is_text_byte, is_word, is_name, kind_of, is_flip_flop, is_unsupported, is_constant, is_arity, is_bit};

use crate::GateKind;

/// The bytes that are tokens of their own.
pub(crate) const MARKS: &[u8] = b"(),=";

/// Whether these bytes may stand before a comment.
pub(crate) fn is_text(bytes: &[u8]) -> bool
    ensures { result ≡ list_all is_text_byte bytes.now }
{
    bytes.iter().all(|byte| is_text_byte(*byte))
}

fn is_text_byte(byte: u8) -> bool
    ensures { result ≡ is_text_byte byte }
{
    matches!(byte, b' ' | b'\t') || (33 <= byte && byte <= 126)
}

/// Whether a token is no mark.
pub(crate) fn is_word(token: &[u8]) -> bool
    ensures { result ≡ is_word token.now }
{
    match token {
        [first, ..] => !MARKS.contains(first),
        [] => false,
    }
}

/// Whether a token is a name: a word that doesn't begin with `@`.
pub(crate) fn is_name(token: &[u8]) -> bool
    ensures { result ≡ is_name token.now }
{
    match token {
        [first, ..] => !MARKS.contains(first) && *first != b'@',
        [] => false,
    }
}

/// Whether a word is this one, in letters of any case.
pub(crate) fn spells(word: &[u8], small: &[u8]) -> bool
    requires { spells small.now small.now ≡ true }
    ensures { result ≡ spells word.now small.now }
{
    word.eq_ignore_ascii_case(small)
}

/// The kind that a word names.
pub(crate) fn kind_of(word: &[u8]) -> Option<GateKind>
    ensures { result ≡ kind_of word.now }
{
    if spells(word, b"and") {
        Some(GateKind::And)
    } else if spells(word, b"nand") {
        Some(GateKind::Nand)
    } else if spells(word, b"or") {
        Some(GateKind::Or)
    } else if spells(word, b"nor") {
        Some(GateKind::Nor)
    } else if spells(word, b"xor") {
        Some(GateKind::Xor)
    } else if spells(word, b"xnor") {
        Some(GateKind::Xnor)
    } else if spells(word, b"not") {
        Some(GateKind::Not)
    } else if spells(word, b"buff") || spells(word, b"buf") {
        Some(GateKind::Buff)
    } else {
        None
    }
}

/// Whether a word is the kind of a flip-flop.
pub(crate) fn is_flip_flop(word: &[u8]) -> bool
    ensures { result ≡ is_flip_flop word.now }
{
    spells(word, b"dff")
}

/// Whether a word is the kind of a gate that is known and not taken.
pub(crate) fn is_unsupported(word: &[u8]) -> bool
    ensures { result ≡ is_unsupported word.now }
{
    spells(word, b"mux") || spells(word, b"lut")
}

/// Whether a word is the name of a constant, which isn't taken.
pub(crate) fn is_constant(word: &[u8]) -> bool
    ensures { result ≡ is_constant word.now }
{
    spells(word, b"vdd") || spells(word, b"gnd")
}

/// Whether a gate of this kind may have `fan_ins` fan-ins, at least one.
pub(crate) fn is_arity(kind: GateKind, fan_ins: usize) -> bool
    ensures { result ≡ is_arity kind fan_ins }
{
    match kind {
        GateKind::Not | GateKind::Buff => fan_ins == 1,
        _ => true,
    }
}

/// Whether a word is of zeros and ones.
pub(crate) fn is_bits(word: &[u8]) -> bool
    ensures { result ≡ list_all is_bit word.now }
{
    word.iter().all(|byte| matches!(*byte, b'0' | b'1'))
}
