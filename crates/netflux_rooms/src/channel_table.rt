ghost use Rattle.std.specs.Prelude.{◌≡◌, OnOk, IfOk, [], ◌∷◌, ◌++◌, List, ℕ, nat_eq, false, not, bytes_eq, length, filter};
ghost use Rattle.netflux_rooms.specs.Tables.{channels_at};

use crate::channels::Channels;
use indexmap::IndexMap;
use netflux_codec::Channel;
use std::alloc::{AllocError, Global};

/// The channels of each connection, by the port's numbers.
#[derive(Drop)]
pub(crate) struct ChannelTable {
    table: IndexMap<u64, Channels>,
}

impl ChannelTable {
    /// No channels.
    pub(crate) fn new(alloc: Global) -> ChannelTable
        ensures { (number : ℕ) → channels_at result.table.entries number ≡ [] }
    {
        ChannelTable {
            table: IndexMap::new(alloc),
        }
    }

    /// How many channels a connection has joined.
    pub(crate) fn count(&self, number: u64) -> usize
        ensures { result ≡ length (channels_at self.now.table.entries number) }
    {
        match self.table.get(&number) {
            Some(channels) => channels.len(),
            None => 0,
        }
    }

    /// Takes the channels of a connection out.
    pub(crate) fn take(&mut self, alloc: Global, number: u64) -> Channels
        ensures taken { result ≡ channels_at self.old.table.entries number }
        ensures here { channels_at self.new.table.entries number ≡ [] }
        ensures apart { (other : ℕ) → nat_eq number other ≡ false
            → channels_at self.new.table.entries other ≡ channels_at self.old.table.entries other }
    {
        match self.table.swap_remove(&number) {
            Some(channels) => channels,
            None => Channels::new(alloc),
        }
    }

    /// Puts the channels of a connection in.
    fn put(&mut self, number: u64, channels: Channels) -> Result<(), AllocError>
        ensures here { OnOk result (channels_at self.new.table.entries number ≡ channels) }
        ensures apart { OnOk result ((other : ℕ) → nat_eq number other ≡ false
            → channels_at self.new.table.entries other ≡ channels_at self.old.table.entries other) }
    {
        self.table.insert(number, channels)?;
        Ok(())
    }

    /// One channel more for a connection.
    pub(crate) fn join(
        &mut self,
        alloc: Global,
        number: u64,
        channel: &Channel,
    ) -> Result<(), AllocError>
        ensures here { OnOk result (channels_at self.new.table.entries number
            ≡ channels_at self.old.table.entries number ++ channel.now ∷ []) }
        ensures apart { OnOk result ((other : ℕ) → nat_eq number other ≡ false
            → channels_at self.new.table.entries other ≡ channels_at self.old.table.entries other) }
    {
        let mut channels = self.take(alloc, number);
        channels.push(*channel)?;
        self.put(number, channels)
    }

    /// One channel less for a connection.
    pub(crate) fn leave(
        &mut self,
        alloc: Global,
        number: u64,
        channel: &Channel,
    ) -> Result<(), AllocError>
        ensures here { OnOk result (channels_at self.new.table.entries number
            ≡ filter (λ (other : List ℕ). not (bytes_eq channel.now other)) (channels_at self.old.table.entries number)) }
        ensures apart { OnOk result ((other : ℕ) → nat_eq number other ≡ false
            → channels_at self.new.table.entries other ≡ channels_at self.old.table.entries other) }
    {
        let mut channels = self.take(alloc, number);
        channels.remove(channel);
        self.put(number, channels)
    }
}
