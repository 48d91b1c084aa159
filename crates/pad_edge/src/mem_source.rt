ghost use Rattle.std.specs.Prelude.{◌≡◌, ◌<◌, ◌≤◌, ◌↔◌, ℕ, List, Option, Some, length, drop, min, is_err, unwrap_or, IsErr, IfOk, OnErr, Contains};
ghost use Rattle.std.specs.Result.{result_unwrap_or};
ghost use Rattle.std.specs.Io.KnownBytes.{ReadConsumes};
ghost use Rattle.pad_edge.specs.Count.{HasCause};
ghost use Rattle.pad_edge.specs.Calls.{no_calls, one_more};

use crate::calls::Calls;
use crate::failed::Failed;
use crate::source::Source;
use crate::unread::Unread;
use std::marker::Model;

/// A source in memory, some of whose reads fail. Contracts know the bytes that are left.
#[derive(Debug, Drop)]
pub struct MemSource {
    unread: Unread,
    piece: usize,
    calls: Calls,
}

impl Model for MemSource {
    ghost use Rattle.std.specs.Prelude.{◌<◌};
    ghost use Rattle.pad_edge.specs.MemSource.{Reading};

    ghost Value = { Reading };

    ghost view = { λ source. record { left = source.unread; piece = source.piece; calls = source.calls } };

    ghost invariant = { λ source. 0 < source.piece };
}

impl MemSource {
    /// A source that gives these bytes, at most `piece` of them at a read. The reads whose numbers are listed in
    /// `failing`, from 0, fail. It only moves what it is given.
    pub fn new(bytes: Vec<u8>, piece: usize, failing: Vec<u64>) -> MemSource
        requires { 0 < piece }
        ensures { result ≡ record { left = bytes.items; piece = piece; calls = no_calls failing.items } }
    {
        MemSource {
            unread: Unread::new(bytes),
            piece,
            calls: Calls::new(failing),
        }
    }
}

impl Source for MemSource {
    ghost faults = { λ source. source.calls.faults };

    ghost left = { λ source. Some source.left };

    fn read(&mut self, buf: &mut [u8]) -> Result<usize, Failed>
        ensures bound { IfOk result (λ count. count ≤ length buf.new) }
        ensures taken { ReadConsumes (Some self.old.left) (Some self.new.left) result buf.new }
        ensures cause { HasCause self.old.calls.faults self.new.calls.faults result }

        // A read fails exactly if its number is listed, and else takes all that it can.
        ensures fails { IsErr result ↔ Contains self.old.calls.failing self.old.calls.made }
        ensures most { IfOk result (λ count. count ≡ min self.old.piece (min (length buf.old) (length self.old.left))) }
        ensures counts { self.new.calls ≡ one_more self.old.calls (is_err result) }
        ensures same { self.new.piece ≡ self.old.piece }
    {
        if self.calls.fails_next() {
            return Err(self.calls.count_failed());
        }
        self.calls.count_done();
        Ok(self.unread.take_into(buf, self.piece))
    }
}
