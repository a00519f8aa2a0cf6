ghost use Rattle.std.specs.Prelude.{◌≡◌, IfOk};

use kdg_text::NoRoom;

/// A value that a cell can hold.
pub trait Held: Sized + Send + Drop {
    /// An equal value.
    fn copy(&self) -> Result<Self, NoRoom>
        ensures { IfOk result (λ value. value ≡ self.now) };
}

impl Held for u8 {
    fn copy(&self) -> Result<u8, NoRoom> {
        Ok(*self)
    }
}

impl Held for u64 {
    fn copy(&self) -> Result<u64, NoRoom> {
        Ok(*self)
    }
}
