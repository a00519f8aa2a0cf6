ghost use Rattle.std.specs.Prelude.{◌≡◌, ◌<◌, ◌≤◌, ◌^◌, length, slice_index};
ghost use Rattle.std.specs.Iterator.{YieldsFirst, item_count};
ghost use Rattle.gf2_eliminate.specs.Ones.{places_left};

use std::marker::Model;

/// The places of a set, in ascending order, seen as the list of those that are left.
#[derive(Drop)]
pub(crate) struct Places<'a> {
    words: &'a [u64],
    at: usize,
    // the bits of the word there whose places are left
    left: u64,
}

impl<'a> Model for Places<'a> {
    ghost use Rattle.std.specs.Prelude.{List, ℕ};
    ghost use Rattle.gf2_eliminate.specs.Ones.{places_left, IsAmong};

    ghost Value = { List ℕ };

    ghost view = { λ p. places_left p.words.now p.at p.left };

    ghost invariant = { λ p. IsAmong p.words.now p.at };
}

impl<'a> Places<'a> {
    /// The places of words, from the word at `first` on.
    pub(crate) fn new(words: &'a [u64], first: usize) -> Places<'a>
        requires few { length words.now ≤ 2 ^ 26 }
        requires first { first < 2 ^ 26 }
        ensures { result ≡ places_left words.now first (slice_index words.now first) }
    {
        Places {
            words,
            at: first,
            left: word_at(words, first),
        }
    }
}

impl<'a> Iterator for Places<'a> {
    type Item = u32;

    ghost next_gives = { YieldsFirst (λ places. places) };

    ghost remaining = { item_count (λ places. places) };

    #[inline(always)]
    fn next(&mut self) -> Option<u32> {
        while self.left == 0 {
            if self.words.len() <= self.at + 1 {
                return None;
            }
            self.at += 1;
            self.left = self.words[self.at];
        }
        let bit = self.left.trailing_zeros();
        self.left &= !(1 << bit);
        Some(self.at as u32 * u64::BITS + bit)
    }
}

/// The word at a place, which has no bit behind the last one.
pub(crate) fn word_at(words: &[u64], at: usize) -> u64
    ensures { result ≡ slice_index words.now at }
{
    if at < words.len() { words[at] } else { 0 }
}
