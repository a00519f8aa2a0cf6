ghost use Rattle.std.specs.Prelude.{◌≡◌, ◌+◌, ◌^◌, ◌<◌, ◌↔◌, ◌==◌, [], ◌∷◌, length, position, IsNone, IfSome, OnSome, IfNone};
ghost use Rattle.std.specs.Str.Lines.{strip_carriage_return};
ghost use Rattle.kdg_text.specs.Lines.{lines_of, parts_of};
ghost use Rattle.kdg_text.specs.Faults.{before_comment};

use std::marker::Model;

const LINE_FEED: u8 = 10;

/// One line of an input.
#[derive(Clone, Copy, Debug)]
pub struct Line<'a> {
    /// Which line it is, counted from 1.
    pub number: u64,
    /// Its bytes, without its end.
    pub bytes: &'a [u8],
}

/// The lines of an input, one after another. A line ends at a line feed, which isn't part of it,
/// and neither is a carriage return right before that or at the end of the input. After the last
/// line feed there is a line only where a byte follows.
#[derive(Drop)]
pub struct Lines<'a> {
    rest: &'a [u8],
    number: u64,
}

impl<'a> Model for Lines<'a> {
    ghost use Rattle.std.specs.Prelude.{◌+◌, ◌^◌, ◌<◌, length};
    ghost use Rattle.kdg_text.specs.Lines.{LinesLeft, lines_of};

    ghost Value = { LinesLeft };

    ghost view = { λ l. record { number = l.number; lines = lines_of l.rest.now } };

    ghost invariant = { λ l. l.number + length l.rest.now < 2 ^ 64 };
}

impl<'a> Lines<'a> {
    /// All lines of the input, numbered from 1.
    pub fn new(input: &'a [u8]) -> Lines<'a>
        ensures { result ≡ record { number = 1; lines = lines_of input.now } }
    {
        Lines::numbered_from(1, input)
    }

    /// All lines of what is left of an input, numbered from `number`.
    pub fn numbered_from(number: u64, rest: &'a [u8]) -> Lines<'a>
        requires { number + length rest.now < 2 ^ 64 }
        ensures { result ≡ record { number = number; lines = lines_of rest.now } }
    {
        Lines { rest, number }
    }

    /// The number of the next line. At the end it is one more than the number of lines.
    pub fn number(&self) -> u64
        ensures { result ≡ self.now.number }
    {
        self.number
    }

    /// What is left of the input, from the start of the next line on.
    pub fn rest(&self) -> &'a [u8]
        ensures lines { lines_of result.now ≡ self.now.lines }
        ensures fits { self.now.number + length result.now < 2 ^ 64 }
    {
        self.rest
    }

    /// The next line, or `None` at the end.
    pub fn next_line(&mut self) -> Option<Line<'a>>
        ensures end { IsNone result ↔ (self.old.lines ≡ []) }
        ensures number { IfSome result (λ line. line.number ≡ self.old.number) }
        ensures lines { IfSome result (λ line. self.old.lines ≡ line.bytes.now ∷ self.new.lines) }
        ensures next { OnSome result (self.new.number ≡ self.old.number + 1) }
        ensures stays { IfNone result (self.new ≡ self.old) }
    {
        if self.rest.is_empty() {
            return None;
        }
        let (part, rest) = cut_at_line_feed(self.rest);
        let line = Line {
            number: self.number,
            bytes: without_carriage_return(part),
        };
        self.rest = rest;
        self.number += 1;
        Some(line)
    }
}

/// What stands before the first line feed, and what comes after it.
fn cut_at_line_feed(bytes: &[u8]) -> (&[u8], &[u8])
    requires { 0 < length bytes.now }
    ensures parts { parts_of bytes.now ≡ result.0.now ∷ parts_of result.1.now }
    ensures shorter { length result.1.now < length bytes.now }
{
    match first_line_feed(bytes) {
        Some(end) => (&bytes[..end], &bytes[end + 1..]),
        None => (bytes, &[]),
    }
}

fn first_line_feed(bytes: &[u8]) -> Option<usize>
    ensures { result ≡ position (λ byte. byte == LINE_FEED) bytes.now }
{
    bytes.iter().position(|byte| *byte == LINE_FEED)
}

fn without_carriage_return(part: &[u8]) -> &[u8]
    ensures { result.now ≡ strip_carriage_return part.now }
{
    match part {
        [front @ .., b'\r'] => front,
        _ => part,
    }
}

/// The part of a line before the first byte that begins a comment.
pub fn without_comment(line: &[u8], mark: u8) -> &[u8]
    ensures { result.now ≡ before_comment mark line.now }
{
    match comment_start(line, mark) {
        Some(end) => &line[..end],
        None => line,
    }
}

fn comment_start(line: &[u8], mark: u8) -> Option<usize>
    ensures { result ≡ position (λ byte. byte == mark) line.now }
{
    line.iter().position(|byte| *byte == mark)
}
