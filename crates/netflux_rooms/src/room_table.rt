ghost use Rattle.std.specs.Prelude.{◌≡◌, OnOk, IfOk, [], ◌∷◌, ◌++◌, List, ℕ, nat_eq, false, bytes_eq};
ghost use Rattle.std.specs.List.{list_any};
ghost use Rattle.netflux_rooms.specs.Rooms.{but};
ghost use Rattle.netflux_rooms.specs.Tables.{members_at};

use crate::key::Key;
use crate::members::Members;
use netflux_codec::Channel;
use std::alloc::{AllocError, Global};
use std::collections::BTreeMap;

/// The members of each channel. A channel without members has no entry. Clients choose the channels, so the map is ordered.
#[derive(Drop)]
pub(crate) struct RoomTable {
    rooms: BTreeMap<Key, Members>,
}

impl RoomTable {
    /// No members.
    pub(crate) fn new(alloc: Global) -> RoomTable
        ensures { (channel : List ℕ) → members_at result.rooms.entries channel ≡ [] }
    {
        RoomTable {
            rooms: BTreeMap::new(alloc),
        }
    }

    /// The members of a channel.
    pub(crate) fn members(&self, channel: &Channel) -> &[u64]
        ensures { result.now ≡ members_at self.now.rooms.entries channel.now }
    {
        let key = Key::of(channel);
        match self.rooms.get(&key) {
            Some(members) => members.as_slice(),
            None => &[],
        }
    }

    /// Whether a connection is a member of a channel.
    pub(crate) fn contains(&self, channel: &Channel, number: u64) -> bool
        ensures { result ≡ list_any (nat_eq number) (members_at self.now.rooms.entries channel.now) }
    {
        let key = Key::of(channel);
        match self.rooms.get(&key) {
            Some(members) => members.contains(number),
            None => false,
        }
    }

    /// Takes a room out.
    fn take(&mut self, alloc: Global, channel: &Channel) -> Members
        ensures taken { result ≡ members_at self.old.rooms.entries channel.now }
        ensures here { members_at self.new.rooms.entries channel.now ≡ [] }
        ensures apart { (other : List ℕ) → bytes_eq channel.now other ≡ false
            → members_at self.new.rooms.entries other ≡ members_at self.old.rooms.entries other }
    {
        let key = Key::of(channel);
        match self.rooms.remove(&key) {
            Some(members) => members,
            None => Members::new(alloc),
        }
    }

    /// Puts a room in.
    fn put(&mut self, channel: Channel, members: Members) -> Result<(), AllocError>
        requires { members_at self.old.rooms.entries channel ≡ [] }
        ensures here { OnOk result (members_at self.new.rooms.entries channel ≡ members) }
        ensures apart { OnOk result ((other : List ℕ) → bytes_eq channel other ≡ false
            → members_at self.new.rooms.entries other ≡ members_at self.old.rooms.entries other) }
    {
        if members.is_empty() {
            return Ok(());
        }
        let key = Key::of(&channel);
        self.rooms.insert(key, members)?;
        Ok(())
    }

    /// One member more in a channel.
    pub(crate) fn join(
        &mut self,
        alloc: Global,
        channel: &Channel,
        number: u64,
    ) -> Result<(), AllocError>
        requires { list_any (nat_eq number) (members_at self.old.rooms.entries channel.now) ≡ false }
        ensures here { OnOk result (members_at self.new.rooms.entries channel.now
            ≡ members_at self.old.rooms.entries channel.now ++ number ∷ []) }
        ensures apart { OnOk result ((other : List ℕ) → bytes_eq channel.now other ≡ false
            → members_at self.new.rooms.entries other ≡ members_at self.old.rooms.entries other) }
    {
        let mut members = self.take(alloc, channel);
        members.join(number)?;
        self.put(*channel, members)
    }

    /// One member less in a channel.
    pub(crate) fn leave(
        &mut self,
        alloc: Global,
        channel: &Channel,
        number: u64,
    ) -> Result<(), AllocError>
        ensures here { OnOk result (members_at self.new.rooms.entries channel.now
            ≡ but number (members_at self.old.rooms.entries channel.now)) }
        ensures apart { OnOk result ((other : List ℕ) → bytes_eq channel.now other ≡ false
            → members_at self.new.rooms.entries other ≡ members_at self.old.rooms.entries other) }
    {
        let mut members = self.take(alloc, channel);
        members.leave(number);
        self.put(*channel, members)
    }
}
