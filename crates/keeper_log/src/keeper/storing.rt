//! Entries that are added behind a channel's list.

ghost use Rattle.std.specs.Prelude.{◌≡◌, ◌⊎◌, ◌≤◌, ◌∷◌, [], List, ℕ, length, map, None, IfSome, IsSome, OnOk, IsOk, IsErrOf, All};
ghost use Rattle.pad_edge.specs.Count.{Rose};
ghost use Rattle.pad_message.specs.declared.content.TheConstants.{LONGEST_CONTENT};
ghost use Rattle.log_format.specs.declared.frames.TheConstants.{MOST_FRAMES};
ghost use Rattle.keeper_entry.specs.Entry.{payload_of};
ghost use Rattle.keeper_channel.specs.Entries.{AreEntries};
ghost use Rattle.keeper_log.specs.Calls.{ActsOn, StoresIn, HasNoRoom};
ghost use Rattle.keeper_log.specs.Entries.{payload_in, IsShort};
ghost use Rattle.keeper_log.specs.Keeper.{IsKeeper};
ghost use Rattle.keeper_state.specs.State.{State, StandsFor};
ghost use Rattle.keeper_table.specs.Files.{file_one, file_two};
ghost use Rattle.keeper_table.specs.Table.{channel_in, slot_in, IsOneTooMany};

use crate::entries::{Entries, one_payload, payloads_of};
use crate::keeper::Keeper;
use crate::storing::store_in_slot;
use disk_volume::Volume;
use gated_log::Ledger;
use keeper_channel::{KeeperRefused, Stored};
use keeper_state::channels_keep_their_lists;
use keeper_table::files_of;
use log_format::Payloads;
use netflux_codec::{Channel, Id};
use std::alloc::Global;

impl<O: Ledger, G: Ledger> Keeper<O, G> {
    /// Stores an entry behind a channel's list, and answers its index. Refusals come in this order: `Full` if the channel was not
    /// loaded yet and as many channels as a keeper takes were; `Store` if the load failed; `Damaged` by the channel's files; `Full`
    /// if the list has no room for the entry, and nothing is written then; `Store` if a call of the volume failed after that. After
    /// `Store` the channel is loaded again by the next call. Over a volume that does not tell, `Damaged` may also come after the load.
    pub fn store<V: Volume>(
        &mut self,
        alloc: Global,
        volume: &mut V,
        channel: &Channel,
        moment: u64,
        sender: &Id,
        content: &str,
    ) -> Result<u64, KeeperRefused>
        requires short { length content.now ≤ LONGEST_CONTENT }
        requires apart { (file : List ℕ) → G.owns (file_two channel.now) file → O.owns (file_one channel.now) file → ⊥ }
        requires made { IsKeeper O.name O.form_of O.live O.count G.name G.form_of G.live G.count self.old.table }
        requires tie { V.tells → (state : State) × StandsFor O.rests G.rests O.opens_as G.opens_as G.doubt O.holds G.holds channel.now (channel_in self.old.table channel.now) state (V.disk volume.old) }
        ensures made { IsKeeper O.name O.form_of O.live O.count G.name G.form_of G.live G.count self.new.table }
        ensures again { IsErrOf result KeeperRefused.Store → slot_in self.new.table channel.now ≡ None }
        ensures place { IsOneTooMany self.old.table channel.now → IsOk result → ⊥ }
        ensures known { OnOk result (IsSome (slot_in self.new.table channel.now)) }
        ensures stored { V.tells → StoresIn O.rests G.rests O.opens_as G.opens_as G.doubt O.damage G.damage O.holds G.holds O.owns G.owns channel.now
            (payload_of moment sender.now content.now ∷ []) self.old.table self.new.table result (V.disk volume.old) (V.disk volume.new) }
        ensures full { IsErrOf result KeeperRefused.Full → IfSome (slot_in self.old.table channel.now) (λ slot. (volume.new ≡ volume.old) × HasNoRoom G.room slot (payload_of moment sender.now content.now ∷ [])) }
        ensures room { IfSome (slot_in self.old.table channel.now) (λ slot. HasNoRoom G.room slot (payload_of moment sender.now content.now ∷ []) → IsOk result → ⊥) }
        ensures table { ActsOn channel.now self.old.table self.new.table }
        ensures follows { V.follows volume.old volume.new }
        ensures store { IsErrOf result KeeperRefused.Store → Rose (V.faults volume.old) (V.faults volume.new) }
        ensures kept { IsErrOf result KeeperRefused.Store ⊎ (V.faults volume.new ≡ V.faults volume.old) }
        ensures later { V.faults volume.old ≤ V.faults volume.new }
    {
        channels_keep_their_lists::<O, G>();
        match one_payload(alloc, moment, sender, content) {
            Ok(payloads) => self.store_payloads(alloc, volume, channel, &payloads),
            Err(error) => Err(KeeperRefused::NoMemory(error)),
        }
    }

    /// Stores 1 to 64 entries under one gate behind a channel's list, and answers the index of the first. They get the next indexes,
    /// whatever indexes they have. Refusals as of `store`.
    pub fn store_group<V: Volume>(
        &mut self,
        alloc: Global,
        volume: &mut V,
        channel: &Channel,
        entries: &Entries,
    ) -> Result<u64, KeeperRefused>
        requires some { 1 ≤ length entries.now }
        requires few { length entries.now ≤ MOST_FRAMES }
        requires short { All IsShort entries.now }
        requires apart { (file : List ℕ) → G.owns (file_two channel.now) file → O.owns (file_one channel.now) file → ⊥ }
        requires made { IsKeeper O.name O.form_of O.live O.count G.name G.form_of G.live G.count self.old.table }
        requires tie { V.tells → (state : State) × StandsFor O.rests G.rests O.opens_as G.opens_as G.doubt O.holds G.holds channel.now (channel_in self.old.table channel.now) state (V.disk volume.old) }
        ensures made { IsKeeper O.name O.form_of O.live O.count G.name G.form_of G.live G.count self.new.table }
        ensures again { IsErrOf result KeeperRefused.Store → slot_in self.new.table channel.now ≡ None }
        ensures place { IsOneTooMany self.old.table channel.now → IsOk result → ⊥ }
        ensures known { OnOk result (IsSome (slot_in self.new.table channel.now)) }
        ensures stored { V.tells → StoresIn O.rests G.rests O.opens_as G.opens_as G.doubt O.damage G.damage O.holds G.holds O.owns G.owns channel.now
            (map payload_in entries.now) self.old.table self.new.table result (V.disk volume.old) (V.disk volume.new) }
        ensures full { IsErrOf result KeeperRefused.Full → IfSome (slot_in self.old.table channel.now) (λ slot. (volume.new ≡ volume.old) × HasNoRoom G.room slot (map payload_in entries.now)) }
        ensures room { IfSome (slot_in self.old.table channel.now) (λ slot. HasNoRoom G.room slot (map payload_in entries.now) → IsOk result → ⊥) }
        ensures table { ActsOn channel.now self.old.table self.new.table }
        ensures follows { V.follows volume.old volume.new }
        ensures store { IsErrOf result KeeperRefused.Store → Rose (V.faults volume.old) (V.faults volume.new) }
        ensures kept { IsErrOf result KeeperRefused.Store ⊎ (V.faults volume.new ≡ V.faults volume.old) }
        ensures later { V.faults volume.old ≤ V.faults volume.new }
    {
        channels_keep_their_lists::<O, G>();
        match payloads_of(alloc, entries) {
            Ok(payloads) => self.store_payloads(alloc, volume, channel, &payloads),
            Err(error) => Err(KeeperRefused::NoMemory(error)),
        }
    }

    /// Stores the payloads of 1 to 64 entries.
    fn store_payloads<V: Volume>(
        &mut self,
        alloc: Global,
        volume: &mut V,
        channel: &Channel,
        payloads: &Payloads,
    ) -> Result<u64, KeeperRefused>
        requires some { 1 ≤ length payloads.now }
        requires few { length payloads.now ≤ MOST_FRAMES }
        requires entries { AreEntries payloads.now }
        requires apart { (file : List ℕ) → G.owns (file_two channel.now) file → O.owns (file_one channel.now) file → ⊥ }
        requires made { IsKeeper O.name O.form_of O.live O.count G.name G.form_of G.live G.count self.old.table }
        requires tie { V.tells → (state : State) × StandsFor O.rests G.rests O.opens_as G.opens_as G.doubt O.holds G.holds channel.now (channel_in self.old.table channel.now) state (V.disk volume.old) }
        ensures made { IsKeeper O.name O.form_of O.live O.count G.name G.form_of G.live G.count self.new.table }
        ensures again { IsErrOf result KeeperRefused.Store → slot_in self.new.table channel.now ≡ None }
        ensures place { IsOneTooMany self.old.table channel.now → IsOk result → ⊥ }
        ensures known { OnOk result (IsSome (slot_in self.new.table channel.now)) }
        ensures stored { V.tells → StoresIn O.rests G.rests O.opens_as G.opens_as G.doubt O.damage G.damage O.holds G.holds O.owns G.owns channel.now
            payloads.now self.old.table self.new.table result (V.disk volume.old) (V.disk volume.new) }
        ensures full { IsErrOf result KeeperRefused.Full → IfSome (slot_in self.old.table channel.now) (λ slot. (volume.new ≡ volume.old) × HasNoRoom G.room slot payloads.now) }
        ensures room { IfSome (slot_in self.old.table channel.now) (λ slot. HasNoRoom G.room slot payloads.now → IsOk result → ⊥) }
        ensures table { ActsOn channel.now self.old.table self.new.table }
        ensures follows { V.follows volume.old volume.new }
        ensures store { IsErrOf result KeeperRefused.Store → Rose (V.faults volume.old) (V.faults volume.new) }
        ensures kept { IsErrOf result KeeperRefused.Store ⊎ (V.faults volume.new ≡ V.faults volume.old) }
        ensures later { V.faults volume.old ≤ V.faults volume.new }
    {
        channels_keep_their_lists::<O, G>();
        match files_of(alloc, channel) {
            Ok(files) => self.store_in_files(
                alloc,
                volume,
                channel,
                files.one.as_str(),
                files.two.as_str(),
                payloads,
            ),
            Err(error) => Err(KeeperRefused::NoMemory(error)),
        }
    }

    /// Stores them in the channel's two files, by their names.
    fn store_in_files<V: Volume>(
        &mut self,
        alloc: Global,
        volume: &mut V,
        channel: &Channel,
        one: &str,
        two: &str,
        payloads: &Payloads,
    ) -> Result<u64, KeeperRefused>
        requires one { one.now ≡ file_one channel.now }
        requires two { two.now ≡ file_two channel.now }
        requires some { 1 ≤ length payloads.now }
        requires few { length payloads.now ≤ MOST_FRAMES }
        requires entries { AreEntries payloads.now }
        requires apart { (file : List ℕ) → G.owns (file_two channel.now) file → O.owns (file_one channel.now) file → ⊥ }
        requires made { IsKeeper O.name O.form_of O.live O.count G.name G.form_of G.live G.count self.old.table }
        requires tie { V.tells → (state : State) × StandsFor O.rests G.rests O.opens_as G.opens_as G.doubt O.holds G.holds channel.now (channel_in self.old.table channel.now) state (V.disk volume.old) }
        ensures made { IsKeeper O.name O.form_of O.live O.count G.name G.form_of G.live G.count self.new.table }
        ensures again { IsErrOf result KeeperRefused.Store → slot_in self.new.table channel.now ≡ None }
        ensures place { IsOneTooMany self.old.table channel.now → IsOk result → ⊥ }
        ensures known { OnOk result (IsSome (slot_in self.new.table channel.now)) }
        ensures stored { V.tells → StoresIn O.rests G.rests O.opens_as G.opens_as G.doubt O.damage G.damage O.holds G.holds O.owns G.owns channel.now
            payloads.now self.old.table self.new.table result (V.disk volume.old) (V.disk volume.new) }
        ensures full { IsErrOf result KeeperRefused.Full → IfSome (slot_in self.old.table channel.now) (λ slot. (volume.new ≡ volume.old) × HasNoRoom G.room slot payloads.now) }
        ensures room { IfSome (slot_in self.old.table channel.now) (λ slot. HasNoRoom G.room slot payloads.now → IsOk result → ⊥) }
        ensures table { ActsOn channel.now self.old.table self.new.table }
        ensures follows { V.follows volume.old volume.new }
        ensures store { IsErrOf result KeeperRefused.Store → Rose (V.faults volume.old) (V.faults volume.new) }
        ensures kept { IsErrOf result KeeperRefused.Store ⊎ (V.faults volume.new ≡ V.faults volume.old) }
        ensures later { V.faults volume.old ≤ V.faults volume.new }
    {
        match self.take_slot(alloc, volume, channel) {
            Ok(slot) => {
                let Stored { slot, answer } = store_in_slot(
                    alloc, volume, channel, one, two, slot, payloads,
                );
                self.table.put(channel, slot);
                answer
            }
            Err(refused) => Err(refused),
        }
    }
}
