ghost use Rattle.std.specs.Prelude.{◌≡◌, ℕ, ◌≤◌, ◌<◌, ◌^◌, [], ◌∷◌, ◌++◌, not, ◌==◌, length, filter, slice_index, max, bit_or, bit_xor, IfOk, OnOk, OnErr};
ghost use Rattle.std.specs.List.{AllByRecursion};
ghost use Rattle.gf2_eliminate.specs.Ones.{AreWords, IsFirstBit};

use crate::places::{Places, word_at};
use kdg_text::NoRoom;
use std::alloc::Global;
use std::marker::Model;

/// How many words a set has at least where it has any, which is enough for the places of the longest
/// line. So a sum of two lines takes no memory.
pub(crate) const LEAST_WORDS: usize = 65;

/// The places of a line at which it has a one. A place has a bit, and a word those of 64 places.
#[derive(Drop)]
pub struct OneSet {
    words: Vec<u64>,
}

impl Model for OneSet {
    ghost use Rattle.std.specs.Prelude.{List, ℕ};
    ghost use Rattle.gf2_eliminate.specs.Ones.{places_of, AreWords};

    ghost Value = { List ℕ };

    ghost view = { λ s. places_of s.words.items };

    ghost invariant = { λ s. AreWords s.words.items };
}

impl OneSet {
    ghost use Rattle.std.specs.Prelude.{◌*◌, ◌&&◌, ◌||◌, nat_lt};
    ghost use Rattle.std.specs.Ordering.{nat_cmp};
    ghost use Rattle.mtx_reader.specs.Ascending.{IsAscendingBy};
    ghost use Rattle.gf2_eliminate.specs.Lines.{has, IsListTo};
    ghost use Rattle.gf2_eliminate.specs.Plans.{sum_to};
    ghost use Rattle.gf2_eliminate.specs.Covers.{IsFirstBeyond, IsFirstCommon};

    /// No place, which takes no memory.
    pub fn new(alloc: Global) -> OneSet
        ensures { result ≡ [] }
    {
        OneSet {
            words: Vec::new(alloc),
        }
    }

    /// The places of a vector, which stand there in ascending order.
    pub fn from_vec(places: Vec<u32>) -> Result<OneSet, NoRoom>
        requires { IsAscendingBy nat_cmp places.items }
        ensures { IfOk result (λ set. set ≡ places.items) }
    {
        let mut set = OneSet::new(*places.allocator());
        for place in &places {
            set.push(*place)?;
        }
        Ok(set)
    }

    /// A set of the same places.
    pub(crate) fn copy(&self) -> Result<OneSet, NoRoom>
        ensures { IfOk result (λ copy. copy ≡ self.now) }
    {
        Ok(OneSet {
            words: self.words.clone()?,
        })
    }

    /// Adds a place behind all others. After `NoRoom` the set is as it was.
    #[inline(always)]
    pub fn push(&mut self, place: u32) -> Result<(), NoRoom>
        requires { AllByRecursion (λ other. other < place) self.old }
        ensures ok { OnOk result (self.new ≡ self.old ++ place ∷ []) }
        ensures err { OnErr result (self.new ≡ self.old) }
    {
        let (at, bit) = ((place / u64::BITS) as usize, place % u64::BITS);
        make_room(&mut self.words, at)?;
        self.words[at] |= 1 << bit;
        Ok(())
    }

    /// Adds the places of another set.
    pub(crate) fn include(&mut self, other: &OneSet) -> Result<(), NoRoom>
        ensures both { OnOk result ((n : ℕ) → has self.new n ≡ (has self.old n || has other.now n)) }
        ensures ascending { IsAscendingBy nat_cmp self.new }
    {
        lengthen(&mut self.words, other.words.len())?;
        set_bits(&mut self.words, &other.words);
        Ok(())
    }

    /// Adds the places that stand in the first words of another set. After `NoRoom` the set is as it was.
    pub(crate) fn include_first(&mut self, other: &OneSet, words: usize) -> Result<(), NoRoom>
        ensures ok { OnOk result ((n : ℕ) → has self.new n ≡ (has self.old n || (nat_lt n (64 * words) && has other.now n))) }
        ensures err { OnErr result (self.new ≡ self.old) }
    {
        lengthen(&mut self.words, other.words.len())?;
        set_bits(
            &mut self.words,
            &other.words[..other.words.len().min(words)],
        );
        Ok(())
    }

    /// Takes all places out. The memory stays.
    pub(crate) fn clear(&mut self)
        ensures { self.new ≡ [] }
    {
        self.words.clear();
    }

    /// Whether it has a place.
    pub(crate) fn has(&self, place: u32) -> bool
        ensures { result ≡ has self.now place }
    {
        let (at, bit) = ((place / u64::BITS) as usize, place % u64::BITS);
        at < self.words.len() && (self.words[at] >> bit) % 2 == 1
    }

    /// Puts a place in. After `NoRoom` the set is as it was.
    pub(crate) fn insert(&mut self, place: u32) -> Result<(), NoRoom>
        ensures ok { OnOk result ((n : ℕ) → has self.new n ≡ (has self.old n || place == n)) }
        ensures err { OnErr result (self.new ≡ self.old) }
    {
        let (at, bit) = ((place / u64::BITS) as usize, place % u64::BITS);
        make_room(&mut self.words, at)?;
        self.words[at] |= 1 << bit;
        Ok(())
    }

    /// The least place from one on that both sets have.
    pub(crate) fn first_common(&self, other: &OneSet, from: u32) -> Option<u32>
        ensures { IsFirstCommon self.now other.now from result }
    {
        let end = self.words.len().min(other.words.len());
        let mut bit = from % u64::BITS;
        for at in (from / u64::BITS) as usize..end {
            if let Some(found) = first_bit(self.words[at] & other.words[at], bit) {
                return Some(at as u32 * u64::BITS + found);
            }
            bit = 0;
        }
        None
    }

    /// The least place from one on that this set has and the other lacks.
    pub(crate) fn first_beyond(&self, other: &OneSet, from: u32) -> Option<u32>
        ensures { IsFirstBeyond self.now other.now from result }
    {
        let mut bit = from % u64::BITS;
        for at in (from / u64::BITS) as usize..self.words.len() {
            if let Some(found) = first_bit(self.words[at] & !word_at(&other.words, at), bit) {
                return Some(at as u32 * u64::BITS + found);
            }
            bit = 0;
        }
        None
    }

    /// Adds places over two elements, where they are: the set then has those that exactly one of the two
    /// had. It has a place before, and so enough words.
    pub(crate) fn add(&mut self, added: &Addend)
        requires { 0 < length self.old }
        ensures { (bound : ℕ) → IsListTo bound self.old → IsListTo bound added.now → self.new ≡ sum_to bound self.old added.now }
    {
        turn_bits(&mut self.words, &added.words, added.first);
    }

    /// The places but for one.
    pub(crate) fn without(&self, place: u32) -> Result<OneSet, NoRoom>
        ensures { IfOk result (λ others. others ≡ filter (λ other. not (other == place)) self.now) }
    {
        let mut words = self.words.clone()?;
        let (at, bit) = ((place / u64::BITS) as usize, place % u64::BITS);
        if at < words.len() {
            words[at] &= !(1 << bit);
        }
        Ok(OneSet { words })
    }

    /// The places, in ascending order.
    pub(crate) fn iter(&self) -> Places<'_>
        ensures { result ≡ self.now }
    {
        Places::new(&self.words, 0)
    }

    /// The places, in ascending order.
    pub fn places(&self) -> Result<Vec<u32>, NoRoom>
        ensures { IfOk result (λ places. places.items ≡ self.now) }
    {
        let mut places = Vec::new(*self.words.allocator());
        for place in self.iter() {
            places.push(place)?;
        }
        Ok(places)
    }
}

/// Places that are added to several sets, and which words they are in.
#[derive(Drop)]
pub(crate) struct Addend {
    // without those at the end that have no bit
    words: Vec<u64>,
    // behind the words without a bit at the beginning
    first: usize,
}

impl Model for Addend {
    ghost use Rattle.std.specs.Prelude.{List, ℕ};
    ghost use Rattle.gf2_eliminate.specs.Ones.{places_of, IsSpan};

    ghost Value = { List ℕ };

    ghost view = { λ a. places_of a.words.items };

    ghost invariant = { λ a. IsSpan a.words.items a.first };
}

impl Addend {
    ghost use Rattle.std.specs.Prelude.{◌*◌};
    ghost use Rattle.gf2_eliminate.specs.Ones.{least_words};

    /// The places of a set, which a line can have.
    pub(crate) fn new(ones: OneSet) -> Addend
        requires { AllByRecursion (λ place. place < 64 * least_words) ones }
        ensures { result ≡ ones }
    {
        let OneSet { mut words } = ones;
        words.truncate(LEAST_WORDS);
        let first = first_word(&words);
        let end = end_of_words(&words);
        words.truncate(end);
        Addend { words, first }
    }

    /// The places, in ascending order.
    pub(crate) fn iter(&self) -> Places<'_>
        ensures { result ≡ self.now }
    {
        Places::new(&self.words, self.first)
    }
}

/// The first word that has a bit, or the end where none has one.
fn first_word(words: &[u64]) -> usize
    ensures within { result ≤ length words.now }
    ensures none { (k : ℕ) → k < result → slice_index words.now k ≡ 0 }
{
    for (at, word) in words.iter().enumerate() {
        if *word != 0 {
            return at;
        }
    }
    words.len()
}

/// The end of the words behind the last one that has a bit.
fn end_of_words(words: &[u64]) -> usize
    ensures within { result ≤ length words.now }
    ensures none { (k : ℕ) → result ≤ k → slice_index words.now k ≡ 0 }
{
    let mut end = words.len();
    while end > 0 {
        if words[end - 1] != 0 {
            return end;
        }
        end -= 1;
    }
    end
}

/// The least bit from one on that is set in a word.
fn first_bit(word: u64, from: u32) -> Option<u32>
    requires { from < 64 }
    ensures { IsFirstBit word from result }
{
    let left = word >> from;
    if left == 0 {
        None
    } else {
        Some(from + left.trailing_zeros())
    }
}

/// Lengthens the words of a set, by words without a bit, so that there is one at `at`.
#[inline(always)]
fn make_room(words: &mut Vec<u64>, at: usize) -> Result<(), NoRoom>
    requires words { AreWords words.old.items }
    requires few { at < 2 ^ 26 }
    ensures there { OnOk result (at < length words.new.items) }
    ensures err { OnErr result (words.new.items ≡ words.old.items) }
    ensures words { AreWords words.new.items }
    ensures same { (k : ℕ) → slice_index words.new.items k ≡ slice_index words.old.items k }
{
    if at < words.len() {
        return Ok(());
    }
    lengthen(words, (at + 1).max(LEAST_WORDS))
}

/// Lengthens `words` to at least `len`, by words without a bit.
#[inline(never)]
fn lengthen(words: &mut Vec<u64>, len: usize) -> Result<(), NoRoom>
    ensures long { OnOk result (len ≤ length words.new.items) }
    ensures err { OnErr result (words.new.items ≡ words.old.items) }
    ensures few { length words.new.items ≤ max (length words.old.items) len }
    ensures kept { length words.old.items ≤ length words.new.items }
    ensures same { (k : ℕ) → slice_index words.new.items k ≡ slice_index words.old.items k }
{
    if words.len() < len {
        words.resize(len, 0)?;
    }
    Ok(())
}

/// Sets the bits that are set in the others, of which there are no more.
fn set_bits(words: &mut [u64], others: &[u64])
    requires { length others.now ≤ length words.old }
    ensures { (k : ℕ) → slice_index words.new k ≡ bit_or (slice_index words.old k) (slice_index others.now k) }
{
    for at in 0..others.len() {
        words[at] |= others[at];
    }
}

/// Turns the bits that are set in the others, which have none before the word at `first`.
fn turn_bits(words: &mut [u64], others: &[u64], first: usize)
    requires few { length others.now ≤ length words.old }
    requires nothing { (k : ℕ) → k < first → slice_index others.now k ≡ 0 }
    ensures { (k : ℕ) → slice_index words.new k ≡ bit_xor (slice_index words.old k) (slice_index others.now k) }
{
    for at in first..others.len() {
        words[at] ^= others[at];
    }
}
