ghost use Rattle.std.specs.Prelude.{◌≡◌, ◌+◌, ◌≤◌, length, take, drop};
ghost use Rattle.std.specs.Cmp.Lexicographic.{slice_cmp};
ghost use Rattle.std.specs.Ordering.{nat_cmp};
ghost use Rattle.task_order.specs.PathCode.{number_of};
ghost use Rattle.task_order.specs.SharedBytes.{IsPadded};

use super::node::IN_PLACE;
use std::cmp::Ordering;

/// The bytes that a list keeps in place: those that it has from the first on, and zeros behind them.
pub(super) type InPlace = [u8; IN_PLACE];

/// How bytes in place compare: as two words of eight bytes. Where one list begins as the other, the zeros
/// behind its end don't come later than what the other has there, and at last the lengths decide.
pub(super) fn order_in_place(a: &InPlace, a_len: usize, b: &InPlace, b_len: usize) -> Ordering
    requires a_within { a_len ≤ IN_PLACE }
    requires b_within { b_len ≤ IN_PLACE }
    requires a_padded { IsPadded a.now a_len }
    requires b_padded { IsPadded b.now b_len }
    ensures { result ≡ slice_cmp nat_cmp (take a_len a.now) (take b_len b.now) }
{
    match word_at(a, 0).cmp(&word_at(b, 0)) {
        Ordering::Equal => match word_at(a, 8).cmp(&word_at(b, 8)) {
            Ordering::Equal => a_len.cmp(&b_len),
            order => order,
        },
        order => order,
    }
}

/// The first eight bytes, as a number whose first digit is the first of them.
pub(super) fn first_word_of(bytes: &InPlace) -> u64
    ensures word { result ≡ number_of 0 (take 8 bytes.now) }
    ensures whole { 8 ≤ length bytes.now }
{
    word_at(bytes, 0)
}

/// Eight bytes from a place on, as a number whose first digit is the first of them.
fn word_at(bytes: &InPlace, at: usize) -> u64
    requires { at + 8 ≤ IN_PLACE }
    ensures { result ≡ number_of 0 (take 8 (drop at bytes.now)) }
{
    u64::from_be_bytes([
        bytes[at],
        bytes[at + 1],
        bytes[at + 2],
        bytes[at + 3],
        bytes[at + 4],
        bytes[at + 5],
        bytes[at + 6],
        bytes[at + 7],
    ])
}
