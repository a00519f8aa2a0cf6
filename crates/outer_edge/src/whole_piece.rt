ghost use Rattle.std.specs.Prelude.{◌≡◌, ℕ, ◌≤◌, ◌++◌, List, [], OnOk, OnErr};
ghost use Rattle.std.specs.Io.KnownBytes.{Appends};
ghost use Rattle.outer_edge.specs.Faults.{HasRisen};
ghost use Rattle.outer_edge.specs.Writing.{AppendsFront};

use crate::{Push, Sink};

/// Why a piece wasn't written whole.
#[derive(Clone, Copy, Debug, PartialEq, Eq)]
pub enum WriteAllFault {
    /// A write failed.
    WriteFault,
}

/// Writes a piece by as many writes as are needed, none for an empty one. The first write that
/// fails is the last.
pub fn write_whole<K: Sink>(out: &mut K, piece: &[u8]) -> Result<(), WriteAllFault>
    ensures ok { OnOk result (Appends (K.contents out.old) (K.contents out.new) piece.now) }
    ensures no_fault { OnOk result (K.faults out.new ≡ K.faults out.old) }
    ensures write_fault { OnErr result (HasRisen (K.faults out.old) (K.faults out.new)) }
    ensures front { OnErr result
        (AppendsFront (K.contents out.old) (K.contents out.new) piece.now) }

    // The writes before the last one took a front of the piece, and none of them failed. The last
    // one, of the rest, did.
    ensures last { OnErr result ((last : K) × (front : List ℕ) × (rest : List ℕ)
        × (piece.now ≡ front ++ rest) × Appends (K.contents out.old) (K.contents last) front
        × (K.faults last ≡ K.faults out.old) × K.write_gives last rest Push.Failed out.new) }

    ensures same_room { K.room out.new ≡ K.room out.old }
    ensures never_falls { K.faults out.old ≤ K.faults out.new }
    ensures empty { piece.now ≡ [] → out.new ≡ out.old }
{
    let mut rest = piece;
    while !rest.is_empty() {
        match out.write(rest) {
            Push::Took(taken) => rest = &rest[taken..],
            Push::Failed => return Err(WriteAllFault::WriteFault),
        }
    }
    Ok(())
}
