ghost use Rattle.std.specs.Prelude.{◌≡◌, ◌<◌};

use crate::*;
use std::alloc::Global;
use std::marker::Brand;
use std::sync::ledger::{Blank, Ledger};
use std::test::Fail;

#[test]
fn words_are_read_as_numbers(rt: HostRuntime) {
    for (word, want) in [
        ("007", Ok(7)),
        ("", Err(NumFault::Empty)),
        ("1x", Err(NumFault::NotDigit)),
        ("-1", Err(NumFault::NotDigit)),
        ("99999999999999999999x", Err(NumFault::NotDigit)),
        ("18446744073709551615", Ok(18446744073709551615)),
        ("18446744073709551616", Err(NumFault::TooGreat)),
        ("00000000000000000000000000000001", Ok(1)),
    ] {
        assert_eq!(rt; read_u64(word.as_bytes()), want, "{word}");
    }
}

#[test]
fn words_are_read_as_signed_numbers(rt: HostRuntime) {
    for (word, want) in [
        ("-12", Ok(-12)),
        ("-0", Ok(0)),
        ("007", Ok(7)),
        ("", Err(NumFault::Empty)),
        ("-", Err(NumFault::Empty)),
        ("+1", Err(NumFault::NotDigit)),
        ("--1", Err(NumFault::NotDigit)),
        ("-9223372036854775808", Ok(-9223372036854775808)),
        ("-9223372036854775809", Err(NumFault::TooGreat)),
        ("9223372036854775807", Ok(9223372036854775807)),
        ("9223372036854775808", Err(NumFault::TooGreat)),
    ] {
        assert_eq!(rt; read_i64(word.as_bytes()), want, "{word}");
    }
}

#[test]
fn numbers_and_pieces_are_appended(rt: HostRuntime) -> Result<(), Fail> {
    let mut text = Text::new(rt.alloc());
    push_u64(&mut text, 0)?;
    push_i64(&mut text, -12)?;
    text.push_all(b" x")?;
    assert_eq!(rt; text.bytes(), b"0-12 x".as_slice());

    let mut greatest = Text::new(rt.alloc());
    push_u64(&mut greatest, u64::MAX)?;
    greatest.push_byte(b' ')?;
    push_i64(&mut greatest, i64::MIN)?;
    assert_eq!(rt;
        greatest.bytes(),
        b"18446744073709551615 -9223372036854775808".as_slice()
    );
    assert_eq!(rt; greatest.len(), 41);
    assert!(rt; !greatest.is_empty());

    let copy = greatest.copy()?;
    assert_eq!(rt; copy.bytes(), greatest.bytes());
    let again = Text::from_vec(copy.into_vec());
    assert_eq!(rt; again.bytes(), greatest.bytes());
    Ok(())
}

#[test]
fn numbers_are_listed(rt: HostRuntime) -> Result<(), Fail> {
    let mut numbers = NumList::new(rt.alloc());
    numbers.push(7)?;
    numbers.push(7)?;
    assert_eq!(rt; numbers.items(), [7, 7].as_slice());
    let again = NumList::from_vec(numbers.copy()?.into_vec());
    assert_eq!(rt; again.items(), numbers.items());
    Ok(())
}

fn numbered_lines(alloc: Global, input: &[u8]) -> Result<Text, NoRoom> {
    let mut seen = Text::new(alloc);
    let mut lines = Lines::new(input);
    while let Some(line) = lines.next_line() {
        push_u64(&mut seen, line.number)?;
        seen.push_byte(b':')?;
        seen.push_all(line.bytes)?;
        seen.push_byte(b'|')?;
    }
    push_u64(&mut seen, lines.number())?;
    Ok(seen)
}

#[test]
fn inputs_are_cut_into_lines(rt: HostRuntime) -> Result<(), Fail> {
    for (input, want) in [
        ("a\r\n\nb\r", "1:a|2:|3:b|4"),
        ("", "1"),
        ("\n", "1:|2"),
        ("a\n", "1:a|2"),
        ("a\n\r", "1:a|2:|3"),
        ("\r\r\nb\rc", "1:\r|2:b\rc|3"),
    ] {
        let seen = numbered_lines(rt.alloc(), input.as_bytes())?;
        assert_eq!(rt; seen.bytes(), want.as_bytes());
    }
    Ok(())
}

#[test]
fn lines_go_on_from_what_is_left(rt: HostRuntime) {
    let mut lines = Lines::new(b"a\r\nbc\nd");
    lines.next_line();
    let rest = lines.rest();
    assert_eq!(rt; rest, b"bc\nd".as_slice());

    let mut lines = Lines::numbered_from(lines.number() + 1, &rest[3..]);
    assert_eq!(rt; lines.number(), 3);
    assert_eq!(rt;
        lines.next_line().map(|line| line.bytes),
        Some(b"d".as_slice())
    );
    assert!(rt; lines.next_line().is_none());
}

#[test]
fn lines_are_cut_into_tokens(rt: HostRuntime) -> Result<(), Fail> {
    let marks = b"(),=";
    for (line, want) in [
        ("x = NAND(1,y)", "x|=|NAND|(|1|,|y|)|"),
        ("", ""),
        (" \t ", ""),
        ("\ta  b\t", "a|b|"),
        ("==", "=|=|"),
        ("a\r", "a\r|"),
    ] {
        let mut seen = Text::new(rt.alloc());
        let mut tokens = Tokens::new(line.as_bytes(), marks);
        for _ in 0..line.len() {
            if let Some(token) = tokens.next_token() {
                seen.push_all(token)?;
                seen.push_byte(b'|')?;
            }
        }
        assert!(rt; tokens.next_token().is_none());
        assert_eq!(rt; seen.bytes(), want.as_bytes());
    }
    Ok(())
}

#[test]
fn comments_are_cut_off(rt: HostRuntime) {
    for (line, want) in [("a # b # c", "a "), ("#", ""), ("", ""), ("a", "a")] {
        assert_eq!(rt; without_comment(line.as_bytes(), b'#'), want.as_bytes());
    }
}

#[test]
fn faults_have_their_line(rt: HostRuntime) {
    first_fault_law::<u8>();
    let fault = LineFault { kind: 9, bound: 64 };
    let want = Fault {
        line: 3,
        kind: 9,
        bound: 64,
    };
    assert_eq!(rt; fault.on_line(3), want);
}

fn refusal_of_push(alloc: Global) -> Result<(), ReadFail> {
    let mut numbers = Vec::new(alloc);
    numbers.push(Text::new(alloc))?;
    let mut text = Text::new(alloc);
    text.push_byte(b'x')?;
    let mut bytes = Vec::new(alloc);
    bytes.extend_from_slice(b"x")?;
    Ok(())
}

#[test]
fn want_of_memory_is_handed_on(rt: HostRuntime) {
    assert!(rt; refusal_of_push(rt.alloc()).is_ok());
}

fn three_steps<L: Ledger>(blank: Blank)
    requires name { blank.name ≡ L.name }
    requires parts { blank.parts ≡ L.parts }
    requires some { 0 < blank.parts }
{
    let mut steps = Steps::<L>::new(blank);
    for _ in 0..3 {
        steps.tick();
    }
}

#[test]
fn steps_are_counted() {
    three_steps::<Brand>(Blank::new(1));
}
