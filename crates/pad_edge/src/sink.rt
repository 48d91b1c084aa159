ghost use Rattle.std.specs.Prelude.{ℕ, ◌≤◌, ◌<◌, List, Option, length, IfOk};
ghost use Rattle.std.specs.Io.KnownBytes.{WriteAppends};
ghost use Rattle.pad_edge.specs.Count.{HasCause};

use crate::failed::Failed;

/// Bytes that go out.
pub trait Sink {
    /// How many writes failed so far. At 2^64 - 1 it stays.
    ghost faults: { Self → ℕ };

    /// The bytes written so far, if the sink knows them.
    ghost written: { Self → Option (List ℕ) };

    /// Writes some bytes from the front of `piece`, and answers how many: at least one of a piece that is not empty.
    /// `Failed` writes nothing, and comes only if the count of faults rose in this call. An answer leaves that count as
    /// it was.
    fn write(&mut self, piece: &[u8]) -> Result<usize, Failed>
        ensures bound { IfOk result (λ count. count ≤ length piece.now) }
        ensures some { 0 < length piece.now → IfOk result (λ count. 0 < count) }
        ensures grown { WriteAppends (written self.old) (written self.new) result piece.now }
        ensures cause { HasCause (faults self.old) (faults self.new) result };
}
