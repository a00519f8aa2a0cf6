ghost use Rattle.std.specs.Prelude.{◌≡◌, ◌+◌, ◌^◌, ◌<◌, ◌++◌, ℕ, ℤ, true, Ok, drop, FitsSigned, slice_index, OnOk, OnErr};
ghost use Rattle.std.specs.Char.{is_ascii_digit};
ghost use Rattle.std.specs.Fmt.{decimal, signed_decimal};
ghost use Rattle.std.specs.Int.{w64};
ghost use Rattle.std.specs.List.{list_all};
ghost use Rattle.std.specs.Option.{SomeIff};
ghost use Rattle.kdg_text.specs.Numbers.{i64_of, u64_of, value_of_digits};

use crate::{NoRoom, Text};

/// Room for a sign and the digits of any number of 64 bits.
const BUFFER_LEN: usize = 21;

/// Why a word is no number. The first that holds is answered.
#[derive(Clone, Copy, Debug, PartialEq, Eq)]
pub enum NumFault {
    /// There is no digit.
    Empty,
    /// A byte is no digit.
    NotDigit,
    /// The number is out of the type's range.
    TooGreat,
}

/// Reads a word of decimal digits, which may begin with zeros.
pub fn read_u64(word: &[u8]) -> Result<u64, NumFault>
    ensures { result ≡ u64_of word.now }
{
    if word.is_empty() {
        return Err(NumFault::Empty);
    }
    if !is_digits(word) {
        return Err(NumFault::NotDigit);
    }
    value_of(word).ok_or(NumFault::TooGreat)
}

/// Reads a word of decimal digits, after one minus where the number is negative. No plus is read.
pub fn read_i64(word: &[u8]) -> Result<i64, NumFault>
    ensures { result ≡ i64_of word.now }
{
    let (is_negative, digits) = match word {
        [b'-', digits @ ..] => (true, digits),
        _ => (false, word),
    };
    let magnitude = read_u64(digits)?;
    let number = if is_negative {
        0i64.checked_sub_unsigned(magnitude)
    } else {
        0i64.checked_add_unsigned(magnitude)
    };
    number.ok_or(NumFault::TooGreat)
}

fn is_digits(word: &[u8]) -> bool
    ensures { result ≡ list_all is_ascii_digit word.now }
{
    word.iter().all(|byte| byte.is_ascii_digit())
}

fn value_of(digits: &[u8]) -> Option<u64>
    requires { list_all is_ascii_digit digits.now ≡ true }
    ensures { SomeIff result (value_of_digits digits.now < 2 ^ 64) (value_of_digits digits.now) }
{
    let mut value = 0u64;
    for byte in digits {
        value = value.checked_mul(10)?.checked_add(u64::from(byte - b'0'))?;
    }
    Some(value)
}

/// Appends the digits of a number, without leading zeros. After `NoRoom` the text is as it was.
pub fn push_u64(text: &mut Text, number: u64) -> Result<(), NoRoom>
    ensures ok { OnOk result (text.new ≡ text.old ++ decimal number) }
    ensures err { OnErr result (text.new ≡ text.old) }
{
    let mut buffer = [0; BUFFER_LEN];
    let start = write_digits(&mut buffer, number);
    text.push_all(&buffer[start..])
}

/// Appends the digits of a number, without leading zeros, after a minus where it is negative.
/// After `NoRoom` the text is as it was.
pub fn push_i64(text: &mut Text, number: i64) -> Result<(), NoRoom>
    ensures ok { OnOk result (text.new ≡ text.old ++ signed_decimal number) }
    ensures err { OnErr result (text.new ≡ text.old) }
{
    let mut buffer = [0; BUFFER_LEN];
    let mut start = write_digits(&mut buffer, number.unsigned_abs());
    if number < 0 {
        start -= 1;
        buffer[start] = b'-';
    }
    text.push_all(&buffer[start..])
}

/// Writes the digits at the buffer's end, with room for a sign before them, and answers where
/// they begin.
fn write_digits(buffer: &mut [u8; BUFFER_LEN], number: u64) -> usize
    ensures digits { drop result buffer.new ≡ decimal number }
    ensures start { (0 < result) × (result < BUFFER_LEN) }
{
    let mut rest = number;
    let mut start = BUFFER_LEN;
    while rest >= 10 {
        start -= 1;
        buffer[start] = b'0' + (rest % 10) as u8;
        rest /= 10;
    }
    start -= 1;
    buffer[start] = b'0' + rest as u8;
    start
}

/// The digits that are appended are read as the number that they were made of, and begin with no
/// zero, but for the number zero.
pub fn digits_law()
    ensures unsigned { (n : ℕ) → n < 2 ^ 64 → u64_of (decimal n) ≡ Ok n }
    ensures signed { (n : ℤ) → FitsSigned w64 n → i64_of (signed_decimal n) ≡ Ok n }
    ensures first { (n : ℕ) → 0 < n → n < 2 ^ 64 → 48 < slice_index (decimal n) 0 }
{}
