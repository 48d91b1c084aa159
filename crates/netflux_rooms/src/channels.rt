ghost use Rattle.std.specs.Prelude.{◌≡◌, OnOk, IfOk, [], ◌∷◌, ◌++◌, List, ℕ, not, bytes_eq, length, filter};

use netflux_codec::Channel;
use std::alloc::{AllocError, Global};
use std::marker::Model;

/// The channels of a connection. Contracts see their digits, in the order of joining.
#[derive(Drop)]
pub(crate) struct Channels {
    names: Vec<Channel>,
}

impl Model for Channels {
    ghost use Rattle.std.specs.Prelude.{ℕ, List};

    ghost Value = { List (List ℕ) };

    ghost view = { λ it. it.names.items };
}

impl Channels {
    /// No channels.
    pub(crate) fn new(alloc: Global) -> Channels
        ensures { result ≡ [] }
    {
        Channels {
            names: Vec::new(alloc),
        }
    }

    /// How many they are.
    pub(crate) fn len(&self) -> usize
        ensures { result ≡ length self.now }
    {
        self.names.len()
    }

    /// Lends them.
    pub(crate) fn as_slice(&self) -> &[Channel]
        ensures { result.now ≡ self.now }
    {
        self.names.as_slice()
    }

    /// One more.
    pub(crate) fn push(&mut self, channel: Channel) -> Result<(), AllocError>
        ensures { OnOk result (self.new ≡ self.old ++ channel ∷ []) }
    {
        self.names.push(channel)?;
        Ok(())
    }

    /// One less.
    pub(crate) fn remove(&mut self, channel: &Channel)
        ensures { self.new ≡ filter (λ (other : List ℕ). not (bytes_eq channel.now other)) self.old }
    {
        self.names.retain(|other| channel != other);
    }
}
