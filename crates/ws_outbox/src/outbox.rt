ghost use Rattle.std.specs.Prelude.{◌≡◌, ℕ, ◌+◌, ◌<◌, ◌≤◌, ◌==◌, List, [], ◌++◌, length, drop, true, false, is_ok, if◌then◌else◌, vec_len};
ghost use Rattle.ws_outbox.specs.Outbox.{Outgoing, to_send, unsent, judged};

use crate::frame::Frame;
use crate::limits::{ALL_UNSENT_BYTES, UNSENT_BYTES};
use std::alloc::{AllocError, Global};
use std::collections::VecDeque;
use std::marker::Model;

/// The bytes that wait to go out over one connection, in order, and whether more of them are taken.
#[derive(Drop)]
pub struct Outbox {
    alloc: Global,
    // What goes out next. So many bytes of it are gone.
    front: Vec<u8>,
    gone: usize,
    behind: VecDeque<Frame>,
    unsent: usize,
    turn: u64,
    refuses: bool,
}

impl Model for Outbox {
    ghost use Rattle.std.specs.Prelude.{◌≡◌, ◌+◌, ◌≤◌, drop, length, vec_len};
    ghost use Rattle.ws_outbox.specs.Inside.Frames.{NoneEmpty};
    ghost use Rattle.ws_outbox.specs.Outbox.{Outgoing, bytes_in};
    ghost use Rattle.ws_outbox.specs.declared.limits.TheConstants.{ALL_UNSENT_BYTES};

    ghost Value = { Outgoing };

    ghost view = { λ outbox. record {
      front = drop outbox.gone outbox.front.items;
      behind = bytes_in outbox.behind.items;
      turn = outbox.turn;
      refuses = outbox.refuses;
    } };

    ghost invariant = { λ outbox.
        (outbox.gone ≤ vec_len outbox.front)
        × (outbox.unsent + outbox.gone ≡ vec_len outbox.front + length (bytes_in outbox.behind.items))
        × (outbox.unsent ≤ ALL_UNSENT_BYTES)
        × NoneEmpty outbox.behind.items
        × (vec_len outbox.front ≤ outbox.gone → outbox.unsent ≡ 0) };
}

impl Outbox {
    /// Nothing waits.
    pub fn new(alloc: Global) -> Outbox
        ensures { result ≡ record { front = []; behind = []; turn = 0; refuses = false } }
    {
        Outbox {
            alloc,
            front: Vec::new(alloc),
            gone: 0,
            behind: VecDeque::new(alloc),
            unsent: 0,
            turn: 0,
            refuses: false,
        }
    }

    /// How many bytes wait.
    pub fn unsent(&self) -> usize
        ensures { result ≡ unsent self.now }
    {
        self.unsent
    }

    /// How many more may wait here.
    pub fn room(&self) -> usize
        ensures { unsent self.now + result ≡ ALL_UNSENT_BYTES }
    {
        ALL_UNSENT_BYTES - self.unsent
    }

    /// Whether nothing waits.
    pub fn is_empty(&self) -> bool
        ensures { result ≡ (unsent self.now == 0) }
    {
        self.unsent == 0
    }

    /// Whether no more bytes are to be taken.
    pub fn refuses(&self) -> bool
        ensures { result ≡ self.now.refuses }
    {
        self.refuses
    }

    /// No more bytes are to be taken from now on.
    pub fn refuse(&mut self)
        ensures { self.new ≡ record self.old { refuses = true } }
    {
        self.refuses = true;
    }

    /// At the first look in a turn: no more bytes are to be taken if more than `UNSENT_BYTES` wait. A turn begins when the port is asked
    /// for its next event. Later looks in it change nothing.
    pub fn judge(&mut self, turn: u64)
        ensures { self.new ≡ judged turn self.old }
    {
        if self.turn < turn {
            self.turn = turn;
            self.refuses = self.refuses || self.unsent > UNSENT_BYTES;
        }
    }

    /// Lets bytes wait behind the others. Without memory for that, nothing changes.
    #[tactic(auto, using(crate::proofs::Bytes::pushed_first, crate::proofs::Bytes::pushed_behind, crate::proofs::Bytes::length_pushed, crate::proofs::Bytes::none_empty_pushed))]
    pub fn push(&mut self, frame: Vec<u8>) -> Result<(), AllocError>
        requires some { 0 < vec_len frame }
        requires fits { unsent self.old + vec_len frame ≤ ALL_UNSENT_BYTES }
        ensures bytes { to_send self.new ≡ (if is_ok result then to_send self.old ++ frame.items else to_send self.old) }
        ensures count { unsent self.new ≡ (if is_ok result then unsent self.old + vec_len frame else unsent self.old) }
        ensures same { (self.new.turn ≡ self.old.turn) × (self.new.refuses ≡ self.old.refuses) }
    {
        let bytes = frame.len();
        if self.unsent == 0 {
            self.front = frame;
            self.gone = 0;
            self.unsent = bytes;
            return Ok(());
        }
        match self.behind.push_back(Frame::new(frame)) {
            Ok(()) => {
                self.unsent += bytes;
                Ok(())
            }
            Err(_) => Err(AllocError),
        }
    }

    /// The bytes that go out next, of those that wait. There are none only if nothing waits.
    pub fn piece(&self) -> &[u8]
        ensures front { result.now ≡ self.now.front }
        ensures some { length result.now ≡ 0 → unsent self.now ≡ 0 }
    {
        &self.front[self.gone..]
    }

    /// So many of the bytes that go out next are gone.
    #[tactic(auto, using(crate::proofs::Bytes::sent_within, crate::proofs::Bytes::sent_all))]
    pub fn sent(&mut self, count: usize)
        requires { count ≤ length self.old.front }
        ensures bytes { to_send self.new ≡ drop count (to_send self.old) }
        ensures count { unsent self.new + count ≡ unsent self.old }
        ensures same { (self.new.turn ≡ self.old.turn) × (self.new.refuses ≡ self.old.refuses) }
    {
        self.gone += count;
        self.unsent -= count;
        if self.gone == self.front.len() {
            self.gone = 0;
            self.front = match self.behind.pop_front() {
                Some(frame) => frame.into_bytes(),
                None => Vec::new(self.alloc),
            };
        }
    }
}
