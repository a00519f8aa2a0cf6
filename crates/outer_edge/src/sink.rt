ghost use Rattle.std.specs.Prelude.{ℕ, ◌<◌, ◌≤◌, List, length, ⊤, ◌≡◌, None};
ghost use Rattle.outer_edge.specs.Writing.{CountsFailedWrite, WriteTakes};
ghost use Rattle.std.specs.declared.option.Option.{Option};

/// What a write did.
#[derive(Clone, Copy, Debug, PartialEq, Eq)]
pub enum Push {
    /// This many bytes, at least one, of the front of the piece were taken.
    Took(usize),
    /// The write failed. Some front of the piece may have been taken.
    Failed,
}

/// Bytes that go out, piece by piece.
pub trait Sink {
    ghost use Rattle.outer_edge.specs.declared.sink.Push.{Push};

    /// The bytes that were taken so far, where they are known.
    ghost contents: { Self → Option (List ℕ) };

    /// How many writes have failed so far. It stands still at 2^64 - 1.
    ghost faults: { Self → ℕ };

    /// How many bytes it has room for in all, where that is known. No write changes it.
    ghost room: { Self → Option ℕ } = { λ _. None };

    /// That a write of a piece may answer so, and leave the sink so.
    ghost write_gives: { Self → List ℕ → Push → Self → Type 0 } = { λ _ _ _ _. ⊤ };

    /// Takes bytes of the front of a piece.
    fn write(&mut self, piece: &[u8]) -> Push
        requires { 0 < length piece.now }
        ensures bytes { WriteTakes (contents self.old) (contents self.new) piece.now result }
        ensures counts { CountsFailedWrite (faults self.old) (faults self.new) result }
        ensures never_falls { faults self.old ≤ faults self.new }
        ensures same_room { room self.new ≡ room self.old }
        ensures gives { write_gives self.old piece.now result self.new };
}
