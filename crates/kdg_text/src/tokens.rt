ghost use Rattle.std.specs.Prelude.{◌≡◌, ◌<◌, ◌≤◌, false, [], ◌∷◌, length, take, drop, not, position, MatchOption};
ghost use Rattle.kdg_text.specs.Tokens.{is_mark, is_blank, ends_word, tokens_of, begins_blank};

use std::marker::Model;

/// The tokens of a line, one after another: each mark, and each longest run of other bytes than
/// spaces, tabs and marks.
#[derive(Drop)]
pub struct Tokens<'a> {
    rest: &'a [u8],
    marks: &'a [u8],
}

impl<'a> Model for Tokens<'a> {
    ghost use Rattle.std.specs.Prelude.{ℕ, List};
    ghost use Rattle.kdg_text.specs.Tokens.{tokens_of};

    ghost Value = { List (List ℕ) };

    ghost view = { λ t. tokens_of t.marks.now t.rest.now };
}

impl<'a> Tokens<'a> {
    /// The tokens of a line, where each of the marks is a token of its own.
    pub fn new(line: &'a [u8], marks: &'a [u8]) -> Tokens<'a>
        ensures { result ≡ tokens_of marks.now line.now }
    {
        Tokens { rest: line, marks }
    }

    /// The next token, or `None` at the end of the line.
    pub fn next_token(&mut self) -> Option<&'a [u8]>
        ensures { MatchOption result ((self.old ≡ []) × (self.new ≡ [])) (λ token. self.old ≡ token.now ∷ self.new) }
    {
        let rest = skip_blanks(self.rest, self.marks);
        if rest.is_empty() {
            self.rest = rest;
            return None;
        }
        let (token, rest) = rest.split_at(token_len(rest, self.marks));
        self.rest = rest;
        Some(token)
    }
}

fn is_mark(marks: &[u8], byte: u8) -> bool
    ensures { result ≡ is_mark marks.now byte }
{
    marks.contains(&byte)
}

fn is_blank(byte: u8) -> bool
    ensures { result ≡ is_blank byte }
{
    matches!(byte, b' ' | b'\t')
}

/// Whether no word goes on over this byte.
fn ends_word(marks: &[u8], byte: u8) -> bool
    ensures { result ≡ ends_word marks.now byte }
{
    is_blank(byte) || is_mark(marks, byte)
}

/// What is left from the first token on.
fn skip_blanks<'a>(bytes: &'a [u8], marks: &[u8]) -> &'a [u8]
    ensures tokens { tokens_of marks.now result.now ≡ tokens_of marks.now bytes.now }
    ensures skipped { begins_blank result.now ≡ false }
{
    match token_start(bytes) {
        Some(start) => &bytes[start..],
        None => &[],
    }
}

fn token_start(bytes: &[u8]) -> Option<usize>
    ensures { result ≡ position (λ byte. not (is_blank byte)) bytes.now }
{
    bytes.iter().position(|byte| !is_blank(*byte))
}

/// The length of the token at the front.
fn token_len(bytes: &[u8], marks: &[u8]) -> usize
    requires some { 0 < length bytes.now }
    requires skipped { begins_blank bytes.now ≡ false }
    ensures within { result ≤ length bytes.now }
    ensures cut { tokens_of marks.now bytes.now ≡ take result bytes.now ∷ tokens_of marks.now (drop result bytes.now) }
{
    if is_mark(marks, bytes[0]) {
        return 1;
    }
    match word_end(bytes, marks) {
        Some(end) => end,
        None => bytes.len(),
    }
}

fn word_end(bytes: &[u8], marks: &[u8]) -> Option<usize>
    ensures { result ≡ position (ends_word marks.now) bytes.now }
{
    bytes.iter().position(|byte| ends_word(marks, *byte))
}
