ghost use Rattle.std.specs.Prelude.{◌≡◌, ◌+◌, slice_index, true, EachIndex};
ghost use Rattle.outer_edge.specs.Choices.{generator_at, seeded_word};

use rand_core::utils::NextWord;
use rand_pcg::Lcg64Xsh32;
use task_order::Key;

/// What an execution leaves open: which of the tasks that may run is next, and when a worker goes
/// on. No contract rests on it, so what an execution gives is the same at every gate.
pub trait Gate {
    /// The number by which a worker picks among the clear tasks, at this turn of its own.
    fn choose(&self, seed: u64, worker: u32, turn: u64) -> u64;

    /// The numbers for as many turns as `picks` has places, from this one on, for a gate that has them
    /// at once.
    fn choose_ahead(&self, seed: u64, worker: u32, turn: u64, picks: &mut [u64]) {
        let mut at = turn;
        for pick in picks.iter_mut() {
            *pick = self.choose(seed, worker, at);
            at = at.saturating_add(1);
        }
    }

    /// Comes before a worker performs the task with this key, outside any turn.
    fn pass(&self, worker: u32, key: &Key);

    /// Whether each worker passes at once and unseen. Then a run may leave `pass` out, and perform tasks
    /// of which none waits for another in any order.
    fn is_open(&self) -> bool {
        false
    }
}

/// The gate that always takes the first, and passes at once.
#[derive(Clone, Copy, Debug)]
pub struct Still;

impl Gate for Still {
    fn choose(&self, _seed: u64, _worker: u32, _turn: u64) -> u64
        ensures { result ≡ 0 }
    {
        0
    }

    fn pass(&self, _worker: u32, _key: &Key) {}

    fn is_open(&self) -> bool
        ensures { result ≡ true }
    {
        true
    }
}

/// The generator of a worker, as it is at a turn.
fn generator_at(seed: u64, worker: u32, turn: u64) -> Lcg64Xsh32
    ensures { result ≡ generator_at seed worker turn }
{
    let mut generator = Lcg64Xsh32::new(seed, u64::from(worker));
    generator.advance(turn);
    generator
}

/// The gate that chooses by PCG's generator of 32-bit words, made from the seed with the worker's
/// number as its stream: word number `turn`, counted from 0. It passes at once.
#[derive(Clone, Copy, Debug)]
pub struct Seeded;

impl Gate for Seeded {
    fn choose(&self, seed: u64, worker: u32, turn: u64) -> u64
        ensures { result ≡ seeded_word seed worker turn }
    {
        let mut generator = generator_at(seed, worker, turn);
        u64::from(generator.next_word())
    }

    fn choose_ahead(&self, seed: u64, worker: u32, turn: u64, picks: &mut [u64])
        ensures { EachIndex picks.new (λ k. slice_index picks.new k ≡ seeded_word seed worker (turn + k)) }
    {
        let mut generator = generator_at(seed, worker, turn);
        for pick in picks.iter_mut() {
            *pick = u64::from(generator.next_word());
        }
    }

    fn pass(&self, _worker: u32, _key: &Key) {}

    fn is_open(&self) -> bool
        ensures { result ≡ true }
    {
        true
    }
}
