ghost use Rattle.std.specs.Prelude.{◌≡◌, ◌≤◌, ◌++◌, length};
ghost use Rattle.std.specs.Cmp.Lexicographic.{slice_cmp};
ghost use Rattle.std.specs.Ordering.{nat_cmp};

use std::cmp::Ordering;

/// How bytes compare that mostly are equal: std tells that in longer steps than how they differ.
pub(super) fn order_of_alike(a: &[u8], b: &[u8]) -> Ordering
    ensures { result ≡ slice_cmp nat_cmp a.now b.now }
{
    if a == b {
        return Ordering::Equal;
    }
    a.cmp(b)
}

/// How the bytes `a` and `a_rest`, one behind the other, compare with `b` and `b_rest`.
pub(super) fn order_of_joined(a: &[u8], a_rest: &[u8], b: &[u8], b_rest: &[u8]) -> Ordering
    ensures { result ≡ slice_cmp nat_cmp (a.now ++ a_rest.now) (b.now ++ b_rest.now) }
{
    if a.len() <= b.len() {
        order_from_shorter(a, a_rest, b, b_rest)
    } else {
        order_from_shorter(b, b_rest, a, a_rest).reverse()
    }
}

fn order_from_shorter(a: &[u8], a_rest: &[u8], b: &[u8], b_rest: &[u8]) -> Ordering
    requires { length a.now ≤ length b.now }
    ensures { result ≡ slice_cmp nat_cmp (a.now ++ a_rest.now) (b.now ++ b_rest.now) }
{
    let (b_first, b_last) = b.split_at(a.len());
    match order_of_alike(a, b_first) {
        Ordering::Equal => order_behind(a_rest, b_last, b_rest),
        order => order,
    }
}

/// How the bytes `a` compare with `b` and `b_rest`.
fn order_behind(a: &[u8], b: &[u8], b_rest: &[u8]) -> Ordering
    ensures { result ≡ slice_cmp nat_cmp a.now (b.now ++ b_rest.now) }
{
    if a.len() < b.len() {
        return a.cmp(b);
    }
    let (first, last) = a.split_at(b.len());
    match first.cmp(b) {
        Ordering::Equal => last.cmp(b_rest),
        order => order,
    }
}
