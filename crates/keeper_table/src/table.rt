ghost use Rattle.std.specs.Prelude.{◌≡◌, ◌↔◌, ◌+◌, ◌≤◌, List, ℕ, Option, Some, None, IsTrue, IsSome, OnOk, OnErr, false, bytes_eq, is_some, if◌then◌else◌};
ghost use Rattle.std.specs.Option.{option_copied};
ghost use Rattle.keeper_table.specs.Table.{channel_in, slot_in, size_of, IsOneTooMany};

use netflux_codec::Channel;
use std::alloc::{AllocError, Global};
use std::collections::BTreeMap;

/// How many channels a keeper loads at most.
pub const MOST_CHANNELS: usize = 4096;

/// The channels that were loaded so far. Each is loaded, and has a slot then, or has to be loaded again. A channel never
/// leaves the table.
#[derive(Drop)]
pub struct Table<S> {
    /// The slot of each channel; none where it has to be loaded again. The names come from strangers, so the map is ordered.
    slots: BTreeMap<[u8; 32], Option<S>>,
}

impl<S: Drop> Table<S> {
    /// A table without channels.
    pub fn new(alloc: Global) -> Table<S>
        ensures none { (channel : List ℕ) → channel_in result channel ≡ None }
        ensures size { size_of result ≡ 0 }
    {
        Table {
            slots: BTreeMap::new(alloc),
        }
    }

    /// How many channels were loaded so far.
    pub fn len(&self) -> usize
        ensures { result ≡ size_of self.now }
    {
        self.slots.len()
    }

    /// Whether the channel was not loaded yet, and as many as a keeper takes were.
    pub fn is_full_for(&self, channel: &Channel) -> bool
        ensures { IsTrue result ↔ IsOneTooMany self.now channel.now }
    {
        self.slots.len() >= MOST_CHANNELS && !self.slots.contains_key(&key_of(channel))
    }

    /// Lends the slot of a channel, if it is loaded.
    pub fn get(&self, channel: &Channel) -> Option<&S>
        ensures { option_copied result ≡ slot_in self.now channel.now }
    {
        match self.slots.get(&key_of(channel)) {
            Some(Some(slot)) => Some(slot),
            Some(None) => None,
            None => None,
        }
    }

    /// Takes the slot of a channel, if it is loaded. The channel has to be loaded again then.
    pub fn take(&mut self, channel: &Channel) -> Option<S>
        ensures taken { result ≡ slot_in self.old channel.now }
        ensures again { is_some (channel_in self.new channel.now) ≡ is_some (channel_in self.old channel.now) }
        ensures left { slot_in self.new channel.now ≡ None }
        ensures others { (other : List ℕ) → bytes_eq channel.now other ≡ false → channel_in self.new other ≡ channel_in self.old other }
        ensures size { size_of self.new ≡ size_of self.old }
    {
        let key = key_of(channel);
        if !self.slots.contains_key(&key) {
            return None;
        }
        match self.slots.insert(key, None) {
            Ok(Some(slot)) => slot,
            Ok(None) => None,
            Err(_) => None,
        }
    }

    /// Adds a channel, which has to be loaded again until its slot is put. Where there is no memory for a new channel, the
    /// table stays as it was.
    pub fn add(&mut self, channel: &Channel) -> Result<(), AllocError>
        ensures added { OnOk result (channel_in self.new channel.now ≡ Some None) }
        ensures others { (other : List ℕ) → bytes_eq channel.now other ≡ false → channel_in self.new other ≡ channel_in self.old other }
        ensures size { OnOk result (size_of self.new ≡ size_of self.old + (if is_some (channel_in self.old channel.now) then 0 else 1)) }
        ensures kept { OnErr result ((channel_in self.old channel.now ≡ None) × ((other : List ℕ) → channel_in self.new other ≡ channel_in self.old other) × (size_of self.new ≡ size_of self.old)) }
    {
        match self.slots.insert(key_of(channel), None) {
            Ok(_) => Ok(()),
            Err(_) => Err(AllocError),
        }
    }

    /// Puts what a channel has that the table has: a slot, or none if it has to be loaded again.
    pub fn put(&mut self, channel: &Channel, slot: Option<S>)
        requires known { IsSome (channel_in self.old channel.now) }
        ensures put { channel_in self.new channel.now ≡ Some slot }
        ensures others { (other : List ℕ) → bytes_eq channel.now other ≡ false → channel_in self.new other ≡ channel_in self.old other }
        ensures size { size_of self.new ≡ size_of self.old }
    {
        match self.slots.insert(key_of(channel), slot) {
            Ok(_) => {}
            Err(_) => {}
        }
    }
}

/// The digits of a channel.
fn key_of(channel: &Channel) -> [u8; 32]
    ensures { result ≡ channel.now }
{
    match channel.digits().try_into() {
        Ok(digits) => digits,
        Err(_) => [0; 32],
    }
}
