ghost use Rattle.std.specs.Prelude.{◌≡◌, [], ◌∷◌, ◌++◌, IfOk, OnOk, OnErr};

use crate::NoRoom;
use std::alloc::Global;
use std::marker::Model;

/// A list of numbers.
#[derive(Drop)]
pub struct NumList {
    numbers: Vec<u32>,
}

impl Model for NumList {
    ghost use Rattle.std.specs.Prelude.{ℕ, List};

    ghost Value = { List ℕ };

    ghost view = { λ l. l.numbers.items };
}

impl NumList {
    /// An empty list, which takes no memory.
    pub fn new(alloc: Global) -> NumList
        ensures { result ≡ [] }
    {
        NumList {
            numbers: Vec::new(alloc),
        }
    }

    /// A list of the numbers of a vector, which takes no memory.
    pub fn from_vec(numbers: Vec<u32>) -> NumList
        ensures { result ≡ numbers.items }
    {
        NumList { numbers }
    }

    /// The vector of the numbers, which takes no memory.
    pub fn into_vec(self) -> Vec<u32>
        ensures { result.items ≡ self }
    {
        self.numbers
    }

    /// A list of the same numbers.
    pub fn copy(&self) -> Result<NumList, NoRoom>
        ensures { IfOk result (λ copy. copy ≡ self.now) }
    {
        Ok(NumList {
            numbers: self.numbers.clone()?,
        })
    }

    /// Adds a number at the end. After `NoRoom` the list is as it was.
    pub fn push(&mut self, number: u32) -> Result<(), NoRoom>
        ensures ok { OnOk result (self.new ≡ self.old ++ number ∷ []) }
        ensures err { OnErr result (self.new ≡ self.old) }
    {
        self.numbers.push(number)?;
        Ok(())
    }

    /// The numbers, in order.
    pub fn items(&self) -> &[u32]
        ensures { result.now ≡ self.now }
    {
        &self.numbers
    }
}
