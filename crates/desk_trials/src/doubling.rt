//! Numbers that are doubled at a desk.

ghost use Rattle.std.specs.Prelude.{◌≡◌, ◌*◌, ◌<◌, IfSome};

use work_desk::{Collected, Deed, Desk, Giver, Taken, Worker};

/// How often a thread looks before it gives up.
const LOOKS: u32 = 1_000_000;

/// A number below a thousand is doubled.
pub(crate) struct Doubling;

impl Deed<u64, u32> for Doubling {
    ghost use Rattle.desk_trials.specs.Doubling.{is_small, is_double};

    ghost may = { is_small };

    ghost done = { is_double };
}

/// Doubles all work that comes, until none will, or it has looked in vain for long.
pub(crate) fn serve(desk: &Desk<u64, u32, Doubling>, worker: Worker<u64, u32>)
    requires { worker.desk ≡ desk.now.desk }
{
    let mut worker = worker;
    for _ in 0..LOOKS {
        match desk.try_take(worker) {
            Taken::Work(task, x) => worker = desk.finish(task, 2 * x),
            Taken::Nothing(back) => {
                worker = back;
                desk.look_for_work(LOOKS);
            }
            Taken::Closed => return,
        }
    }
}

/// Twice a number, by the worker or by hand, and the giver again.
pub(crate) fn doubled(
    desk: &Desk<u64, u32, Doubling>,
    giver: Giver<u64, u32>,
    x: u64,
) -> Option<(Giver<u64, u32>, u64)>
    requires here { giver.desk ≡ desk.now.desk }
    requires small { x < 1000 }
    ensures { IfSome result (λ made. (made.0.desk ≡ desk.now.desk) × (made.1 ≡ 2 * x)) }
{
    let mut ticket = desk.give(giver, x);
    for _ in 0..LOOKS {
        match desk.collect(ticket) {
            Collected::Done(giver, y) => return Some((giver, y)),
            Collected::Back(giver, x) => return Some((giver, 2 * x)),
            Collected::Away(back) => {
                ticket = back;
                desk.look_for_end(LOOKS);
            }
        }
    }
    None
}

/// What the worker takes of a number that is given, and what the giver then collects as done, by one
/// thread.
pub(crate) fn taken_and_done(
    desk: &Desk<u64, u32, Doubling>,
    giver: Giver<u64, u32>,
    worker: Worker<u64, u32>,
    x: u64,
) -> Option<(u64, u64)>
    requires giver { giver.desk ≡ desk.now.desk }
    requires worker { worker.desk ≡ desk.now.desk }
    requires small { x < 1000 }
{
    let ticket = desk.give(giver, x);
    match desk.try_take(worker) {
        Taken::Work(task, taken) => {
            let _worker = desk.finish(task, 2 * taken);
            match desk.collect(ticket) {
                Collected::Done(_giver, y) => Some((taken, y)),
                Collected::Back(_giver, _x) => None,
                Collected::Away(_ticket) => None,
            }
        }
        Taken::Nothing(_worker) => None,
        Taken::Closed => None,
    }
}

/// The sum of the doubles of 0, 1 and so on. The worker is then told that nothing more comes.
pub(crate) fn sum_of_doubles(
    desk: &Desk<u64, u32, Doubling>,
    giver: Giver<u64, u32>,
    count: u64,
) -> Option<u64>
    requires here { giver.desk ≡ desk.now.desk }
    requires few { count < 1000 }
{
    let mut giver = giver;
    let mut sum = 0u64;
    for x in 0..count {
        let (back, double) = doubled(desk, giver, x)?;
        giver = back;
        sum = sum.wrapping_add(double);
    }
    desk.close(giver);
    Some(sum)
}
