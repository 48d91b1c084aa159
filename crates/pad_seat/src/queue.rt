ghost use Rattle.std.specs.Prelude.{◌≡◌, ◌++◌, ◌∷◌, [], List, ℕ, IfOk, OnErr, OnOk};
ghost use Rattle.pad_seat.specs.Texts.{first_of, without_first, repeated, is_none};

use pad_edge::{Wire, Wires};
use std::alloc::{AllocError, Global};
use std::collections::VecDeque;
use std::marker::Model;

/// Texts on their way, the first to come first. Contracts see the list of their bytes.
#[derive(Debug, Drop)]
pub struct Queue {
    texts: VecDeque<Wire>,
}

impl Model for Queue {
    ghost Value = { List (List ℕ) };

    ghost view = { λ queue. queue.texts.items };
}

impl Queue {
    /// No text.
    pub fn new(alloc: Global) -> Queue
        ensures { result ≡ [] }
    {
        Queue {
            texts: VecDeque::new(alloc),
        }
    }

    /// Whether there is no text.
    pub fn is_empty(&self) -> bool
        ensures { result ≡ is_none self.now }
    {
        self.texts.is_empty()
    }

    /// Puts a text last. After want of memory the queue is as before.
    pub fn put(&mut self, text: Wire) -> Result<(), AllocError>
        ensures put { OnOk result (self.new ≡ self.old ++ text ∷ []) }
        ensures unchanged { OnErr result (self.new ≡ self.old) }
    {
        self.texts.push_back(text).map_err(|_| AllocError)
    }

    /// Puts copies of texts last, in their order. After want of memory some may have been put.
    pub fn put_all(&mut self, texts: &Wires) -> Result<(), AllocError>
        ensures { OnOk result (self.new ≡ self.old ++ texts.now) }
    {
        for text in texts.as_slice() {
            self.put(text.copy()?)?;
        }
        Ok(())
    }

    /// Takes the first text away.
    pub fn take(&mut self) -> Option<Wire>
        ensures first { result ≡ first_of self.old }
        ensures rest { self.new ≡ without_first self.old }
    {
        self.texts.pop_front()
    }

    /// Puts a copy of the first text last.
    pub fn repeat(&mut self) -> Result<(), AllocError>
        ensures { OnOk result (self.new ≡ repeated self.old) }
    {
        let first = match self.texts.front() {
            Some(text) => text.copy()?,
            None => return Ok(()),
        };
        self.put(first)
    }
}
