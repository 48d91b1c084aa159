//! What is left of a text.

ghost use Rattle.std.specs.Prelude.{◌≡◌, ◌-◌, ◌≤◌, length, drop};

use std::marker::Model;

/// The end of a text, from some place on. As it gets shorter it gives memory back.
#[derive(Drop)]
pub(crate) struct Rest {
    bytes: Vec<u8>,
    done: usize,
}

impl Model for Rest {
    ghost use Rattle.std.specs.Prelude.{ℕ, ◌≤◌, List, length, drop};

    ghost Value = { List ℕ };

    ghost view = { λ rest. drop rest.done rest.bytes.items };

    ghost invariant = { λ rest. rest.done ≤ length rest.bytes.items };
}

impl Rest {
    /// The whole text.
    pub(crate) fn new(bytes: Vec<u8>) -> Rest
        ensures { result ≡ bytes.items }
    {
        Rest { bytes, done: 0 }
    }

    /// Lends what is left.
    pub(crate) fn as_slice(&self) -> &[u8]
        ensures { result.now ≡ self.now }
    {
        &self.bytes[self.done..]
    }

    /// Goes on to the last so many bytes. Where half of the text is done, its room is given back, so that all moves together are
    /// no more than the text.
    pub(crate) fn go_on(&mut self, left: usize)
        requires { left ≤ length self.old }
        ensures { self.new ≡ drop (length self.old - left) self.old }
    {
        self.done = self.bytes.len() - left;
        if self.done >= left {
            let _ = self.bytes.drain(..self.done);
            self.bytes.shrink_to_fit();
            self.done = 0;
        }
    }
}
