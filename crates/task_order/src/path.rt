ghost use Rattle.std.specs.Prelude.{◌≡◌, ◌≢◌, ◌↔◌, ◌%◌, [], ◌∷◌, ◌++◌, Some, IfOk, IsTrue, nat_eq, refl};
ghost use Rattle.std.specs.Ordering.{nat_cmp};
ghost use Rattle.std.specs.Cmp.{partial_equiv_from_equiv};
ghost use Rattle.std.specs.Cmp.Lexicographic.{pointwise, slice_cmp, nat_list_eq_equiv, nat_list_cmp_total, texts_ties, texts_po};
ghost use Rattle.task_order.specs.PathCode.{numbers_of, path_beginning, CanCode, IsCode};

mod in_place;
mod item;
mod joined;
mod node;
mod reader;
mod shared_bytes;

use item::push_item;
use kdg_text::NoRoom;
use reader::ItemReader;
use shared_bytes::SharedBytes;
use std::alloc::Global;
use std::cmp::Ordering;
use std::fmt;
use std::iter::repeat_n;
use std::marker::Model;

/// The births that lead to a task: the number of the first task that it descends from, and then
/// the number of each further ancestor, and its own, among its parent's children.
///
/// Paths compare number by number, and a proper prefix comes first.
pub struct Path {
    bytes: SharedBytes,
    zeros: u64,
}

impl Model for Path {
    ghost use Rattle.std.specs.Prelude.{ℕ, List};
    ghost use Rattle.task_order.specs.PathCode.{numbers_of, IsPath};

    ghost Value = { List ℕ };

    ghost view = { λ p. numbers_of p.bytes p.zeros };

    ghost invariant = { λ p. IsPath p.bytes p.zeros };
}

// By hand, so that where a path is dropped no proof looks into its parts.
impl Drop for Path {
    fn drop(self) {
        let Path { bytes: _, zeros: _ } = self;
    }
}

impl Path {
    /// The path of the first task with this number.
    pub fn root(alloc: Global, number: u32) -> Result<Path, NoRoom>
        ensures { IfOk result (λ path. path ≡ number ∷ []) }
    {
        grown(SharedBytes::new(alloc), 0, number)
    }

    /// The path of the child with this number, counted from 0, of the task with this path. It takes
    /// time and memory that don't grow with the depth, and a child with number 0 takes none but its
    /// own place.
    #[inline(always)]
    pub fn child(&self, number: u32) -> Result<Path, NoRoom>
        ensures { IfOk result (λ path. path ≡ self.now ++ number ∷ []) }
    {
        grown(self.bytes.copy()?, self.zeros, number)
    }

    /// The first eight bytes of what the path is kept as, with zeros behind their end, as a number whose
    /// first digit is the first of them. Paths mostly compare as these numbers do, and never the other
    /// way round (`beginning_laws`), so that a search that keeps them seldom reads a path.
    pub fn beginning(&self) -> u64
        ensures beginning { result ≡ path_beginning self.now }
        ensures fits { CanCode 0 self.now }
    {
        self.bytes.beginning()
    }

    /// Whether the eighth of the bytes that the path is kept as isn't 0, so that they are eight or more and
    /// take longer to compare. It is a hint, on which no contract rests.
    pub fn is_long(&self) -> bool
        ensures { IsTrue result ↔ (path_beginning self.now % 256 ≢ 0) }
    {
        self.beginning() % 256 != 0
    }

    /// An equal path.
    pub fn copy(&self) -> Result<Path, NoRoom>
        ensures { IfOk result (λ path. path ≡ self.now) }
    {
        Ok(Path {
            bytes: self.bytes.copy()?,
            zeros: self.zeros,
        })
    }

    /// How the two compare, wherever their bytes stand. It stays a call, so that the usual comparison
    /// is short.
    #[inline(never)]
    fn compare_along(&self, other: &Path) -> Ordering
        ensures { result ≡ slice_cmp nat_cmp self.now other.now }
    {
        let order = self.bytes.compare(&other.bytes);
        order.then(self.zeros.cmp(&other.zeros))
    }
}

/// The path that is kept as these bytes and zeros, with one more number.
#[inline(always)]
fn grown(mut bytes: SharedBytes, zeros: u64, number: u32) -> Result<Path, NoRoom>
    requires { IsCode bytes zeros }
    ensures { IfOk result (λ path. path ≡ numbers_of bytes zeros ++ number ∷ []) }
{
    if number == 0 {
        let zeros = zeros.checked_add(1).ok_or(NoRoom)?;
        return Ok(Path { bytes, zeros });
    }
    push_item(&mut bytes, zeros, number)?;
    Ok(Path { bytes, zeros: 0 })
}

impl PartialEq for Path {
    ghost eq = { pointwise nat_eq };

    ghost laws = { partial_equiv_from_equiv nat_list_eq_equiv };

    fn eq(&self, other: &Path) -> bool {
        self.cmp(other).is_eq()
    }
}

impl Eq for Path {
    ghost laws = { nat_list_eq_equiv };
}

impl PartialOrd for Path {
    ghost partial_cmp = { λ x y. Some (slice_cmp nat_cmp x y) };

    ghost laws = { texts_po };

    fn partial_cmp(&self, other: &Path) -> Option<Ordering> {
        Some(self.cmp(other))
    }
}

impl Ord for Path {
    ghost cmp = { slice_cmp nat_cmp };

    ghost total = { nat_list_cmp_total };

    ghost matches_partial_cmp = { λ x y. refl };

    ghost matches_eq = { texts_ties };

    fn cmp(&self, other: &Path) -> Ordering {
        let Some(order) = self.bytes.compare_in_place(&other.bytes) else {
            return self.compare_along(other);
        };
        match order {
            Ordering::Equal => self.zeros.cmp(&other.zeros),
            order => order,
        }
    }
}

impl fmt::Debug for Path {
    fn fmt<W: fmt::Write>(&self, f: &mut fmt::Formatter<W>) -> fmt::Result {
        let mut list = f.debug_list();
        let mut reader = ItemReader::new();
        for at in 0..usize::MAX {
            let Some(byte) = self.bytes.get(at) else {
                break;
            };
            if let Some(item) = reader.read(byte) {
                list.entries(repeat_n(0, item.zeros as usize));
                list.entry(&item.number);
            }
        }
        list.entries(repeat_n(0, self.zeros as usize));
        list.finish()
    }
}
