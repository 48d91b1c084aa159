ghost use Rattle.std.specs.Prelude.{◌≡◌, ◌<◌, ◌≤◌, ℕ, List, Option, Some, length, min, IsOkAnd, IfOk};
ghost use Rattle.std.specs.Io.KnownBytes.{ReadConsumes};
ghost use Rattle.pad_edge.specs.Count.{HasCause};

use crate::failed::Failed;
use crate::source::Source;
use crate::unread::Unread;
use std::marker::Model;

/// A source in memory whose reads never fail. Contracts know the bytes that are left, and its count of faults is the
/// constant 0.
#[derive(Debug, Drop)]
pub struct SureSource {
    unread: Unread,
    piece: usize,
}

impl Model for SureSource {
    ghost use Rattle.std.specs.Prelude.{◌<◌};
    ghost use Rattle.pad_edge.specs.SureSource.{SureReading};

    ghost Value = { SureReading };

    ghost view = { λ source. record { left = source.unread; piece = source.piece } };

    ghost invariant = { λ source. 0 < source.piece };
}

impl SureSource {
    /// A source that gives these bytes, at most `piece` of them at a read. It only moves what it is given.
    pub fn new(bytes: Vec<u8>, piece: usize) -> SureSource
        requires { 0 < piece }
        ensures { result ≡ record { left = bytes.items; piece = piece } }
    {
        SureSource {
            unread: Unread::new(bytes),
            piece,
        }
    }
}

impl Source for SureSource {
    ghost faults = { λ _. 0 };

    ghost left = { λ source. Some source.left };

    fn read(&mut self, buf: &mut [u8]) -> Result<usize, Failed>
        ensures bound { IfOk result (λ count. count ≤ length buf.new) }
        ensures taken { ReadConsumes (Some self.old.left) (Some self.new.left) result buf.new }
        ensures cause { HasCause 0 0 result }

        // A read takes all that it can.
        ensures most { IsOkAnd result (λ count. count ≡ min self.old.piece (min (length buf.old) (length self.old.left))) }
        ensures same { self.new.piece ≡ self.old.piece }
    {
        Ok(self.unread.take_into(buf, self.piece))
    }
}
