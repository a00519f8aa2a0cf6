ghost use Rattle.std.specs.Prelude.{ℕ, ◌<◌, ◌≤◌, List, length};
ghost use Rattle.outer_edge.specs.Reading.{CountsFailedRead, ReadGives};
ghost use Rattle.std.specs.declared.option.Option.{Option};

/// What a read gave.
#[derive(Clone, Copy, Debug, PartialEq, Eq)]
pub enum Pull {
    /// This many bytes, at least one, at the front of the buffer.
    Got(usize),
    /// No byte is left.
    End,
    /// The read failed, and no byte was used.
    Failed,
}

/// Bytes that come in, piece by piece.
pub trait Source {
    /// The bytes that reads will give from here on, where they are known.
    ghost remaining: { Self → Option (List ℕ) };

    /// How many reads have failed so far. It stands still at 2^64 - 1.
    ghost faults: { Self → ℕ };

    /// Puts the next bytes at the front of the buffer.
    fn read(&mut self, buf: &mut [u8]) -> Pull
        requires { 0 < length buf.old }
        ensures bytes { ReadGives (remaining self.old) (remaining self.new) buf.new result }
        ensures counts { CountsFailedRead (faults self.old) (faults self.new) result }
        ensures never_falls { faults self.old ≤ faults self.new };
}
