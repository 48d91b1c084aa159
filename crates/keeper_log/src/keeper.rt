ghost use Rattle.std.specs.Prelude.{◌≡◌, ◌⊎◌, ◌↔◌, ◌≤◌, List, ℕ, None, Some, Ok, IfSome, IsSome, IsOk, IsErrOf, IfOk, OnOk, OnErr};
ghost use Rattle.pad_edge.specs.Count.{Rose};
ghost use Rattle.keeper_log.specs.Calls.{ActsOn, Asks};
ghost use Rattle.keeper_log.specs.Keeper.{IsKeeper};
ghost use Rattle.keeper_log.specs.Inside.Taking.{Takes};
ghost use Rattle.keeper_state.specs.Slot.{IsSlotFor};
ghost use Rattle.keeper_state.specs.State.{Answers};
ghost use Rattle.keeper_table.specs.Files.{file_one, file_two};
ghost use Rattle.keeper_table.specs.Table.{channel_in, slot_in, size_of, IsOneTooMany};

mod asking;
mod reading;
mod storing;

use crate::loading::load_channel;
use disk_volume::Volume;
use gated_log::Ledger;
use keeper_channel::{KeeperRefused, Slot};
use keeper_state::channels_keep_their_lists;
use keeper_table::Table;
use netflux_codec::Channel;
use std::alloc::Global;

/// A list of entries for each channel, in files of a volume: entries are added behind it, and it is read from any of them on. A
/// channel is loaded by the first call that needs it, and again by the next one after a call of the volume failed, or after memory
/// ran out in the midst of a store.
#[derive(Drop)]
pub struct Keeper<O, G> {
    /// The channels that were loaded.
    table: Table<Slot<O, G>>,
}

impl<O: Ledger, G: Ledger> Keeper<O, G> {
    /// A keeper that has loaded no channel yet.
    pub fn new(alloc: Global) -> Keeper<O, G>
        ensures made { IsKeeper O.name O.form_of O.live O.count G.name G.form_of G.live G.count result.table }
        ensures none { (channel : List ℕ) → channel_in result.table channel ≡ None }
        ensures size { size_of result.table ≡ 0 }
    {
        Keeper {
            table: Table::new(alloc),
        }
    }

    /// Loads a channel if it is not loaded. Refusals come in this order: `Full` if it was not loaded yet and as many channels as a
    /// keeper takes were; `Store` if the volume failed; `Damaged` by its files.
    fn wake<V: Volume>(
        &mut self,
        alloc: Global,
        volume: &mut V,
        channel: &Channel,
    ) -> Result<(), KeeperRefused>
        requires apart { (file : List ℕ) → G.owns (file_two channel.now) file → O.owns (file_one channel.now) file → ⊥ }
        requires made { IsKeeper O.name O.form_of O.live O.count G.name G.form_of G.live G.count self.old.table }
        ensures made { IsKeeper O.name O.form_of O.live O.count G.name G.form_of G.live G.count self.new.table }
        ensures full { IsErrOf result KeeperRefused.Full ↔ IsOneTooMany self.old.table channel.now }
        ensures loaded { IfSome (slot_in self.old.table channel.now) (λ slot. (volume.new ≡ volume.old) × IsOk result) }
        ensures unloaded { OnErr result (slot_in self.new.table channel.now ≡ None) }
        ensures known { OnOk result (IsSome (slot_in self.new.table channel.now)) }
        ensures told { V.tells → Asks O.rests G.rests O.opens_as G.opens_as G.doubt O.damage G.damage O.holds G.holds O.owns G.owns channel.now
            (λ finds loaded state next. Answers finds loaded state (λ held told. Unit {0}) result next) self.old.table self.new.table (V.disk volume.old) (V.disk volume.new) }
        ensures table { ActsOn channel.now self.old.table self.new.table }
        ensures follows { V.follows volume.old volume.new }
        ensures store { IsErrOf result KeeperRefused.Store → Rose (V.faults volume.old) (V.faults volume.new) }
        ensures kept { IsErrOf result KeeperRefused.Store ⊎ (V.faults volume.new ≡ V.faults volume.old) }
        ensures later { V.faults volume.old ≤ V.faults volume.new }
    {
        let slot = self.take_slot(alloc, volume, channel)?;
        self.table.put(channel, Some(slot));
        Ok(())
    }

    /// Takes the slot of a channel out of the table, and loads the channel first if it is not loaded. Refusals as of `wake`.
    fn take_slot<V: Volume>(
        &mut self,
        alloc: Global,
        volume: &mut V,
        channel: &Channel,
    ) -> Result<Slot<O, G>, KeeperRefused>
        requires apart { (file : List ℕ) → G.owns (file_two channel.now) file → O.owns (file_one channel.now) file → ⊥ }
        requires made { IsKeeper O.name O.form_of O.live O.count G.name G.form_of G.live G.count self.old.table }
        ensures made { IsKeeper O.name O.form_of O.live O.count G.name G.form_of G.live G.count self.new.table }
        ensures full { IsErrOf result KeeperRefused.Full ↔ IsOneTooMany self.old.table channel.now }
        ensures slot { IfOk result (IsSlotFor O.name O.form_of O.live O.count G.name G.form_of G.live G.count channel.now) }
        ensures again { OnOk result (channel_in self.new.table channel.now ≡ Some None) }
        ensures takes { V.tells → Takes O.rests G.rests O.opens_as G.opens_as G.doubt O.damage G.damage O.holds G.holds O.owns G.owns channel.now result self.old.table self.new.table (V.disk volume.old) (V.disk volume.new) }
        ensures loaded { IfSome (slot_in self.old.table channel.now) (λ slot. (volume.new ≡ volume.old) × (result ≡ Ok slot)) }
        ensures unloaded { OnErr result (slot_in self.new.table channel.now ≡ None) }
        ensures table { ActsOn channel.now self.old.table self.new.table }
        ensures follows { V.follows volume.old volume.new }
        ensures store { IsErrOf result KeeperRefused.Store → Rose (V.faults volume.old) (V.faults volume.new) }
        ensures kept { IsErrOf result KeeperRefused.Store ⊎ (V.faults volume.new ≡ V.faults volume.old) }
        ensures later { V.faults volume.old ≤ V.faults volume.new }
    {
        channels_keep_their_lists::<O, G>();
        match self.table.take(channel) {
            Some(slot) => Ok(slot),
            None => self.load(alloc, volume, channel),
        }
    }

    /// Loads a channel that is not loaded, and notes it in the table.
    fn load<V: Volume>(
        &mut self,
        alloc: Global,
        volume: &mut V,
        channel: &Channel,
    ) -> Result<Slot<O, G>, KeeperRefused>
        requires apart { (file : List ℕ) → G.owns (file_two channel.now) file → O.owns (file_one channel.now) file → ⊥ }
        requires made { IsKeeper O.name O.form_of O.live O.count G.name G.form_of G.live G.count self.old.table }
        requires unloaded { slot_in self.old.table channel.now ≡ None }
        ensures made { IsKeeper O.name O.form_of O.live O.count G.name G.form_of G.live G.count self.new.table }
        ensures full { IsErrOf result KeeperRefused.Full ↔ IsOneTooMany self.old.table channel.now }
        ensures slot { IfOk result (IsSlotFor O.name O.form_of O.live O.count G.name G.form_of G.live G.count channel.now) }
        ensures again { OnOk result (channel_in self.new.table channel.now ≡ Some None) }
        ensures takes { V.tells → Takes O.rests G.rests O.opens_as G.opens_as G.doubt O.damage G.damage O.holds G.holds O.owns G.owns channel.now result self.old.table self.new.table (V.disk volume.old) (V.disk volume.new) }
        ensures unloaded { OnErr result (slot_in self.new.table channel.now ≡ None) }
        ensures table { ActsOn channel.now self.old.table self.new.table }
        ensures follows { V.follows volume.old volume.new }
        ensures store { IsErrOf result KeeperRefused.Store → Rose (V.faults volume.old) (V.faults volume.new) }
        ensures kept { IsErrOf result KeeperRefused.Store ⊎ (V.faults volume.new ≡ V.faults volume.old) }
        ensures later { V.faults volume.old ≤ V.faults volume.new }
    {
        channels_keep_their_lists::<O, G>();
        if self.table.is_full_for(channel) {
            return Err(KeeperRefused::Full);
        }
        match load_channel(alloc, volume, channel) {
            Ok(slot) => match self.table.add(channel) {
                Ok(()) => Ok(slot),
                Err(error) => Err(KeeperRefused::NoMemory(error)),
            },
            Err(refused) => Err(refused),
        }
    }
}
