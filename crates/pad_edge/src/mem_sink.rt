ghost use Rattle.std.specs.Prelude.{◌≡◌, ◌<◌, ◌≤◌, ◌-◌, ◌+◌, ◌⊎◌, ◌↔◌, ℕ, List, [], Option, Some, length, vec_len, min, is_err, IsErr, IfOk, Contains};
ghost use Rattle.std.specs.Io.KnownBytes.{WriteAppends};
ghost use Rattle.pad_edge.specs.Count.{HasCause};
ghost use Rattle.pad_edge.specs.Calls.{no_calls, one_more};

use crate::calls::Calls;
use crate::failed::Failed;
use crate::sink::Sink;
use std::marker::Model;

/// A sink in memory, some of whose writes fail. It writes over the bytes of its room from the front, and contracts know
/// what was written.
#[derive(Debug, Drop)]
pub struct MemSink {
    room: Vec<u8>,
    filled: usize,
    piece: usize,
    calls: Calls,
}

impl Model for MemSink {
    ghost use Rattle.std.specs.Prelude.{◌<◌, ◌≤◌, ◌-◌, take, vec_len};
    ghost use Rattle.pad_edge.specs.MemSink.{Writing};

    ghost Value = { Writing };

    ghost view = { λ sink. record {
      written = take sink.filled sink.room.items;
      room = vec_len sink.room - sink.filled;
      piece = sink.piece;
      calls = sink.calls;
    } };

    ghost invariant = { λ sink. (sink.filled ≤ vec_len sink.room) × (0 < sink.piece) };
}

impl MemSink {
    /// A sink that can take as many bytes as `room` has, at most `piece` of them at a write. The writes whose numbers
    /// are listed in `failing`, from 0, fail, and so does a write of a piece that is not empty if no room is left.
    /// It only moves what it is given.
    pub fn new(room: Vec<u8>, piece: usize, failing: Vec<u64>) -> MemSink
        requires { 0 < piece }
        ensures { result ≡ record { written = []; room = vec_len room; piece = piece; calls = no_calls failing.items } }
    {
        MemSink {
            room,
            filled: 0,
            piece,
            calls: Calls::new(failing),
        }
    }

    /// Lends the bytes written so far.
    pub fn as_slice(&self) -> &[u8]
        ensures { result.now ≡ self.now.written }
    {
        &self.room[..self.filled]
    }
}

impl Sink for MemSink {
    ghost faults = { λ sink. sink.calls.faults };

    ghost written = { λ sink. Some sink.written };

    fn write(&mut self, piece: &[u8]) -> Result<usize, Failed>
        ensures bound { IfOk result (λ count. count ≤ length piece.now) }
        ensures some { 0 < length piece.now → IfOk result (λ count. 0 < count) }
        ensures grown { WriteAppends (Some self.old.written) (Some self.new.written) result piece.now }
        ensures cause { HasCause self.old.calls.faults self.new.calls.faults result }

        // A write fails exactly if its number is listed or there is no room for a piece that is not empty, and else
        // takes all that it can.
        ensures fails { IsErr result ↔ (Contains self.old.calls.failing self.old.calls.made
            ⊎ ((self.old.room ≡ 0) × (0 < length piece.now))) }
        ensures most { IfOk result (λ count. count ≡ min self.old.piece (min (length piece.now) self.old.room)) }
        ensures counts { self.new.calls ≡ one_more self.old.calls (is_err result) }
        ensures same { (self.new.piece ≡ self.old.piece)
            × (length self.new.written + self.new.room ≡ length self.old.written + self.old.room) }
    {
        let room = self.room.len() - self.filled;
        if self.calls.fails_next() || (room == 0 && !piece.is_empty()) {
            return Err(self.calls.count_failed());
        }
        self.calls.count_done();
        let count = self.piece.min(piece.len()).min(room);
        self.room[self.filled..self.filled + count].copy_from_slice(&piece[..count]);
        self.filled += count;
        Ok(count)
    }
}
