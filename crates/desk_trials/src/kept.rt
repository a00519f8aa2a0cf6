//! Numbers that are doubled by a kept worker.

ghost use Rattle.std.specs.Prelude.{◌≡◌, ◌*◌, ◌<◌, IfSome};

use crate::doubling::Doubling;
use std::thread::yield_now;
use work_desk::{Answer, Partner, Servers};

/// How often one gives before one tells that no worker is there.
const TRIES: u32 = 1_000_000;

/// Doubles all numbers that come.
pub(crate) fn serve_kept(servers: Servers<u64, u32, Doubling>) {
    servers.serve(
        &|x: u64| -> u64
            requires { x < 1000 }
            ensures { result ≡ 2 * x }
        { 2 * x },
    );
}

/// Twice a number, by the worker or by hand, and the partner again.
pub(crate) fn kept_double(
    partner: Partner<u64, u32, Doubling>,
    x: u64,
) -> Option<(Partner<u64, u32, Doubling>, u64)>
    requires { x < 1000 }
    ensures { IfSome result (λ made. made.1 ≡ 2 * x) }
{
    match partner.give(x).collect() {
        Answer::Done(partner, y) => Some((partner, y)),
        Answer::Back(partner, x) => Some((partner, 2 * x)),
        Answer::Lost => None,
    }
}

/// The sum of the doubles of 0, 1 and so on, given at one desk after the other. The worker is then told that
/// nothing more comes.
pub(crate) fn kept_sum(
    one: Partner<u64, u32, Doubling>,
    other: Partner<u64, u32, Doubling>,
    count: u64,
) -> Option<u64>
    requires { count < 1000 }
{
    let (mut next, mut last) = (one, other);
    let mut sum = 0u64;
    for x in 0..count {
        let (back, double) = kept_double(next, x)?;
        next = last;
        last = back;
        sum = sum.wrapping_add(double);
    }
    next.close();
    last.close();
    Some(sum)
}

/// Whether work that nobody takes is told to be away.
pub(crate) fn is_away_untaken(partner: Partner<u64, u32, Doubling>) -> bool {
    partner.give(21).is_away()
}

/// The partner again, once its worker has doubled a number. A number that isn't taken at once is given
/// anew.
fn served(partner: Partner<u64, u32, Doubling>) -> Option<Partner<u64, u32, Doubling>> {
    let mut partner = partner;
    for _ in 0..TRIES {
        let errand = partner.give(21);
        yield_now();
        match errand.collect() {
            Answer::Done(back, _) => return Some(back),
            Answer::Back(back, _) => partner = back,
            Answer::Lost => return None,
        }
    }
    None
}

/// Whether a worker takes what is given at each desk. It is then told that nothing more comes.
pub(crate) fn are_served(
    one: Partner<u64, u32, Doubling>,
    other: Partner<u64, u32, Doubling>,
) -> bool {
    let (Some(one), Some(other)) = (served(one), served(other)) else {
        return false;
    };
    one.close();
    other.close();
    true
}
