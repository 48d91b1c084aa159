ghost use Rattle.std.specs.Prelude.{◌≡◌, ◌<◌, ◌≤◌, List, [], length, take, drop, min};

use std::marker::Model;

/// Bytes in memory that are taken from the front. Contracts see those that are left.
#[derive(Debug, Drop)]
pub(crate) struct Unread {
    bytes: Vec<u8>,
    taken: usize,
}

impl Model for Unread {
    ghost use Rattle.std.specs.Prelude.{ℕ, ◌≤◌, List, drop, vec_len};

    ghost Value = { List ℕ };

    ghost view = { λ unread. drop unread.taken unread.bytes.items };

    ghost invariant = { λ unread. unread.taken ≤ vec_len unread.bytes };
}

impl Unread {
    /// All of these bytes. It only moves the vector.
    pub(crate) fn new(bytes: Vec<u8>) -> Unread
        ensures { result ≡ bytes.items }
    {
        Unread { bytes, taken: 0 }
    }

    /// Moves the next bytes into the front of `buf`, at most `most` of them, and answers how many.
    pub(crate) fn take_into(&mut self, buf: &mut [u8], most: usize) -> usize
        ensures count { result ≡ min most (min (length buf.old) (length self.old)) }
        ensures front { take result buf.new ≡ take result self.old }
        ensures rest { self.new ≡ drop result self.old }
    {
        let count = most.min(buf.len()).min(self.bytes.len() - self.taken);
        buf[..count].copy_from_slice(&self.bytes[self.taken..self.taken + count]);
        self.taken += count;
        count
    }
}
