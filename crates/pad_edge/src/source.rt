ghost use Rattle.std.specs.Prelude.{ℕ, ◌≤◌, List, Option, length, IfOk};
ghost use Rattle.std.specs.Io.KnownBytes.{ReadConsumes};
ghost use Rattle.pad_edge.specs.Count.{HasCause};

use crate::failed::Failed;

/// Bytes that come in.
pub trait Source {
    /// How many reads failed so far. At 2^64 - 1 it stays.
    ghost faults: { Self → ℕ };

    /// The bytes still to come, if the source knows them.
    ghost left: { Self → Option (List ℕ) };

    /// Takes the next bytes into the front of `buf`, and answers how many. 0 for a buffer that is not empty is the
    /// end. `Failed` takes nothing, and comes only if the count of faults rose in this call. An answer leaves that count
    /// as it was.
    fn read(&mut self, buf: &mut [u8]) -> Result<usize, Failed>
        ensures bound { IfOk result (λ count. count ≤ length buf.new) }
        ensures taken { ReadConsumes (left self.old) (left self.new) result buf.new }
        ensures cause { HasCause (faults self.old) (faults self.new) result };
}
