//! Where the entries of a channel are, and how many it has.

ghost use Rattle.std.specs.Prelude.{◌≡◌, ◌⊎◌, ◌↔◌, ◌<◌, ◌≤◌, List, ℕ, None, length, IfSome, IsSome, IsOk, IsErrOf, IfOk, OnOk, OnErr};
ghost use Rattle.pad_edge.specs.Count.{Rose};
ghost use Rattle.log_format.specs.declared.form.TheConstants.{MOST_ENTRIES_ONE};
ghost use Rattle.keeper_log.specs.Calls.{ActsOn, Asks};
ghost use Rattle.keeper_log.specs.Keeper.{IsKeeper, HasEntry};
ghost use Rattle.keeper_state.specs.State.{Answers};
ghost use Rattle.keeper_table.specs.Files.{file_one, file_two};
ghost use Rattle.keeper_table.specs.Span.{span_in, tail_in, EachBefore, Counts, HasAtMost};
ghost use Rattle.keeper_table.specs.Table.{slot_in, IsOneTooMany};

use crate::keeper::Keeper;
use disk_volume::Volume;
use gated_log::Ledger;
use keeper_channel::KeeperRefused;
use keeper_table::{Span, span_of, tail_of};
use netflux_codec::{Channel, Since};
use std::alloc::Global;

impl<O: Ledger, G: Ledger> Keeper<O, G> {
    /// Where the history that is asked for starts, and how many entries there are. On a loaded channel it makes no call of the volume.
    /// Refusals come in this order: `Full` if the channel was not loaded yet and as many channels as a keeper takes were; `Store` if
    /// the load failed; `Damaged` by the channel's files.
    pub fn span<V: Volume>(
        &mut self,
        alloc: Global,
        volume: &mut V,
        channel: &Channel,
        from: &Since,
    ) -> Result<Span, KeeperRefused>
        requires apart { (file : List ℕ) → G.owns (file_two channel.now) file → O.owns (file_one channel.now) file → ⊥ }
        requires made { IsKeeper O.name O.form_of O.live O.count G.name G.form_of G.live G.count self.old.table }
        ensures made { IsKeeper O.name O.form_of O.live O.count G.name G.form_of G.live G.count self.new.table }
        ensures full { IsErrOf result KeeperRefused.Full ↔ IsOneTooMany self.old.table channel.now }
        ensures loaded { IfSome (slot_in self.old.table channel.now) (λ slot. (volume.new ≡ volume.old) × IsOk result) }
        ensures unloaded { OnErr result (slot_in self.new.table channel.now ≡ None) }
        ensures known { OnOk result (IsSome (slot_in self.new.table channel.now)) }
        ensures told { V.tells → Asks O.rests G.rests O.opens_as G.opens_as G.doubt O.damage G.damage O.holds G.holds O.owns G.owns channel.now
            (λ finds loaded state next. Answers finds loaded state (λ held span. span ≡ span_in held from.now) result next) self.old.table self.new.table (V.disk volume.old) (V.disk volume.new) }
        ensures entries { IfOk result (λ span. EachBefore span (HasEntry self.new.table channel.now)) }
        ensures few { IfOk result (λ span. HasAtMost span MOST_ENTRIES_ONE) }
        ensures counts { IfOk result (λ span. IfSome (slot_in self.new.table channel.now) (λ slot. Counts span slot.index.count)) }
        ensures table { ActsOn channel.now self.old.table self.new.table }
        ensures follows { V.follows volume.old volume.new }
        ensures store { IsErrOf result KeeperRefused.Store → Rose (V.faults volume.old) (V.faults volume.new) }
        ensures kept { IsErrOf result KeeperRefused.Store ⊎ (V.faults volume.new ≡ V.faults volume.old) }
        ensures later { V.faults volume.old ≤ V.faults volume.new }
    {
        self.wake(alloc, volume, channel)?;
        let Some(slot) = self.table.get(channel) else {
            unreachable!()
        };
        Ok(span_of(&slot.index, from))
    }

    /// The entries from an index on: where they start, which is behind the last where there are no more than that many, and how many
    /// entries there are. All else as `span`.
    pub fn tail<V: Volume>(
        &mut self,
        alloc: Global,
        volume: &mut V,
        channel: &Channel,
        at: u64,
    ) -> Result<Span, KeeperRefused>
        requires apart { (file : List ℕ) → G.owns (file_two channel.now) file → O.owns (file_one channel.now) file → ⊥ }
        requires made { IsKeeper O.name O.form_of O.live O.count G.name G.form_of G.live G.count self.old.table }
        ensures made { IsKeeper O.name O.form_of O.live O.count G.name G.form_of G.live G.count self.new.table }
        ensures full { IsErrOf result KeeperRefused.Full ↔ IsOneTooMany self.old.table channel.now }
        ensures loaded { IfSome (slot_in self.old.table channel.now) (λ slot. (volume.new ≡ volume.old) × IsOk result) }
        ensures unloaded { OnErr result (slot_in self.new.table channel.now ≡ None) }
        ensures known { OnOk result (IsSome (slot_in self.new.table channel.now)) }
        ensures told { V.tells → Asks O.rests G.rests O.opens_as G.opens_as G.doubt O.damage G.damage O.holds G.holds O.owns G.owns channel.now
            (λ finds loaded state next. Answers finds loaded state (λ held tail. tail ≡ tail_in held at) result next) self.old.table self.new.table (V.disk volume.old) (V.disk volume.new) }
        ensures entries { IfOk result (λ tail. EachBefore tail (HasEntry self.new.table channel.now)) }
        ensures few { IfOk result (λ tail. HasAtMost tail MOST_ENTRIES_ONE) }
        ensures counts { IfOk result (λ tail. IfSome (slot_in self.new.table channel.now) (λ slot. Counts tail slot.index.count)) }
        ensures table { ActsOn channel.now self.old.table self.new.table }
        ensures follows { V.follows volume.old volume.new }
        ensures store { IsErrOf result KeeperRefused.Store → Rose (V.faults volume.old) (V.faults volume.new) }
        ensures kept { IsErrOf result KeeperRefused.Store ⊎ (V.faults volume.new ≡ V.faults volume.old) }
        ensures later { V.faults volume.old ≤ V.faults volume.new }
    {
        self.wake(alloc, volume, channel)?;
        let Some(slot) = self.table.get(channel) else {
            unreachable!()
        };
        Ok(tail_of(&slot.index, at))
    }

    /// How many entries a channel has. All else as `span`.
    pub fn count<V: Volume>(
        &mut self,
        alloc: Global,
        volume: &mut V,
        channel: &Channel,
    ) -> Result<u64, KeeperRefused>
        requires apart { (file : List ℕ) → G.owns (file_two channel.now) file → O.owns (file_one channel.now) file → ⊥ }
        requires made { IsKeeper O.name O.form_of O.live O.count G.name G.form_of G.live G.count self.old.table }
        ensures made { IsKeeper O.name O.form_of O.live O.count G.name G.form_of G.live G.count self.new.table }
        ensures full { IsErrOf result KeeperRefused.Full ↔ IsOneTooMany self.old.table channel.now }
        ensures loaded { IfSome (slot_in self.old.table channel.now) (λ slot. (volume.new ≡ volume.old) × IsOk result) }
        ensures unloaded { OnErr result (slot_in self.new.table channel.now ≡ None) }
        ensures known { OnOk result (IsSome (slot_in self.new.table channel.now)) }
        ensures told { V.tells → Asks O.rests G.rests O.opens_as G.opens_as G.doubt O.damage G.damage O.holds G.holds O.owns G.owns channel.now
            (λ finds loaded state next. Answers finds loaded state (λ held count. count ≡ length held) result next) self.old.table self.new.table (V.disk volume.old) (V.disk volume.new) }
        ensures entries { IfOk result (λ count. (index : ℕ) → index < count → HasEntry self.new.table channel.now index) }
        ensures few { IfOk result (λ count. count ≤ MOST_ENTRIES_ONE) }
        ensures counts { IfOk result (λ count. IfSome (slot_in self.new.table channel.now) (λ slot. count ≡ slot.index.count)) }
        ensures table { ActsOn channel.now self.old.table self.new.table }
        ensures follows { V.follows volume.old volume.new }
        ensures store { IsErrOf result KeeperRefused.Store → Rose (V.faults volume.old) (V.faults volume.new) }
        ensures kept { IsErrOf result KeeperRefused.Store ⊎ (V.faults volume.new ≡ V.faults volume.old) }
        ensures later { V.faults volume.old ≤ V.faults volume.new }
    {
        self.wake(alloc, volume, channel)?;
        let Some(slot) = self.table.get(channel) else {
            unreachable!()
        };
        Ok(slot.index.count())
    }
}
