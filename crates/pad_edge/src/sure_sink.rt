ghost use Rattle.std.specs.Prelude.{◌≡◌, ◌<◌, ◌≤◌, ℕ, List, Option, None, length, min, IsOkAnd, IfOk};
ghost use Rattle.std.specs.Io.KnownBytes.{WriteAppends};
ghost use Rattle.pad_edge.specs.Count.{HasCause};

use crate::failed::Failed;
use crate::sink::Sink;
use std::marker::Model;

/// A sink whose writes never fail. It keeps no byte, so contracts do not know what was written. Its count of faults is
/// the constant 0.
#[derive(Debug, Drop)]
pub struct SureSink {
    piece: usize,
}

impl Model for SureSink {
    ghost use Rattle.std.specs.Prelude.{ℕ, ◌<◌};

    ghost Value = { ℕ };

    ghost view = { λ sink. sink.piece };

    ghost invariant = { λ sink. 0 < sink.piece };
}

impl SureSink {
    /// A sink that takes at most `piece` bytes at a write.
    pub fn new(piece: usize) -> SureSink
        requires { 0 < piece }
        ensures { result ≡ piece }
    {
        SureSink { piece }
    }
}

impl Sink for SureSink {
    ghost faults = { λ _. 0 };

    ghost written = { λ _. None };

    fn write(&mut self, piece: &[u8]) -> Result<usize, Failed>
        ensures bound { IfOk result (λ count. count ≤ length piece.now) }
        ensures some { 0 < length piece.now → IfOk result (λ count. 0 < count) }
        ensures grown { WriteAppends None None result piece.now }
        ensures cause { HasCause 0 0 result }

        // A write takes all that it can.
        ensures most { IsOkAnd result (λ count. count ≡ min self.old (length piece.now)) }
        ensures same { self.new ≡ self.old }
    {
        Ok(self.piece.min(piece.len()))
    }
}
