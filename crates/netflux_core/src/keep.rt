ghost use Rattle.std.specs.Prelude.{◌≡◌, ◌⊎◌, ◌≤◌, ◌<◌, ◌+◌, ◌∷◌, [], ℕ, List, length, IfOk, OnOk, IsErrOf};
ghost use Rattle.pad_edge.specs.Count.{Rose};
ghost use Rattle.disk_volume.specs.Disk.{Disk, reads};
ghost use Rattle.keeper_channel.specs.declared.refused.KeeperRefused.{KeeperRefused};
ghost use Rattle.keeper_entry.specs.Entry.{payload_of};
ghost use Rattle.keeper_table.specs.Span.{EachBefore};
ghost use Rattle.keeper_state.specs.State.{State, live, Answers, Stores};
ghost use Rattle.keeper_table.specs.declared.span.Span.{Span};
ghost use Rattle.netflux_codec.specs.declared.reply.TheConstants.{MOST_ENTRIES};
ghost use Rattle.netflux_rooms.specs.declared.limits.TheConstants.{LONGEST_MESSAGE};
ghost use Rattle.pad_text.specs.Digits.{IsDigits};
ghost use Rattle.netflux_core.specs.Channels.{Channels, IsNow, HasLive, Gets};
ghost use Rattle.netflux_core.specs.Crashes.{ChannelLogs, HoldsAll, LeavesAsked, LeavesStored};
ghost use Rattle.netflux_core.specs.Histories.{span_for, channel_of};

use disk_volume::Volume;
use keeper_channel::KeeperRefused;
use keeper_table::{Entry, Span};
use netflux_codec::{Ask, Channel, Id};
use pad_edge::Wire;
use std::alloc::Global;

/// Keeps a list of entries for each channel, in the files of a volume. After want of memory it may only be dropped.
pub trait Keep {
    /// What holds of a keeper between calls, over every volume.
    ghost is_sound: { Self → Type 0 };

    /// On this disk the channels are these.
    ghost keeps: { Self → Channels → Disk → Type 0 };

    /// What the files of channels are to it.
    ghost logs: { ChannelLogs };

    /// Whether a channel is loaded, over every volume.
    ghost is_loaded: { Self → (channel : List ℕ) → Type 0 };

    /// Whether a channel is loaded and has an entry of this index.
    ghost has_entry: { Self → (channel : List ℕ) → (index : ℕ) → Type 0 };

    /// Stores an entry in a channel, and answers its index. Refusals come in this order: `Full` if the channel was not loaded yet and as many
    /// as the keeper takes were; `Store` if its load failed; `Damaged`; `Full` if there is no room for the entry; `Store` if the volume
    /// failed after that.
    fn store_entry<V: Volume>(
        &mut self,
        alloc: Global,
        volume: &mut V,
        channel: &Channel,
        moment: u64,
        sender: &Id,
        content: &Wire,
    ) -> Result<u64, KeeperRefused>
        requires short { length content.now ≤ LONGEST_MESSAGE }
        requires sound { is_sound self.old }
        requires tie { V.tells → (channels : Channels) × keeps self.old channels (V.disk volume.old) }
        ensures sound { is_sound self.new }
        ensures stored { V.tells → (channels : Channels) → keeps self.old channels (V.disk volume.old)
            → (next : State) × Stores (logs.finds channel.now (reads (V.disk volume.old))) channels.loaded (channels.at channel.now) (payload_of moment sender.now content.now ∷ []) result next
            × IsNow (keeps self.new) channels channel.now next (V.disk volume.new)
            × LeavesStored logs channels channel.now (payload_of moment sender.now content.now ∷ []) result next (V.disk volume.old) (V.disk volume.new) }
        ensures known { OnOk result (is_loaded self.new channel.now) }
        ensures follows { V.follows volume.old volume.new }
        ensures store { IsErrOf result KeeperRefused.Store → Rose (V.faults volume.old) (V.faults volume.new) }
        ensures kept { IsErrOf result KeeperRefused.Store ⊎ (V.faults volume.new ≡ V.faults volume.old) }
        ensures later { V.faults volume.old ≤ V.faults volume.new };

    /// Where the answer to a question starts, and how many entries the channel has. On a loaded channel it makes no call of the volume.
    /// Refusals as of `store_entry`, up to `Damaged`.
    fn find_span<V: Volume>(
        &mut self,
        alloc: Global,
        volume: &mut V,
        ask: &Ask,
    ) -> Result<Span, KeeperRefused>
        requires sound { is_sound self.old }
        requires tie { V.tells → (channels : Channels) × keeps self.old channels (V.disk volume.old) }
        ensures sound { is_sound self.new }
        ensures spanned { V.tells → (channels : Channels) → keeps self.old channels (V.disk volume.old)
            → (next : State) × Answers (logs.finds (channel_of ask.now) (reads (V.disk volume.old))) channels.loaded (channels.at (channel_of ask.now)) (λ held span. span ≡ span_for ask.now held) result next
            × IsNow (keeps self.new) channels (channel_of ask.now) next (V.disk volume.new)
            × LeavesAsked logs channels (channel_of ask.now) next (V.disk volume.old) (V.disk volume.new) }
        ensures entries { IfOk result (λ span. EachBefore span (λ index. has_entry self.new (channel_of ask.now) index × (index < MOST_ENTRIES))) }
        ensures few { (start total : ℕ) → IfOk result (λ span. span ≡ Span.Found start total → total ≤ MOST_ENTRIES) }
        ensures loaded { is_loaded self.old (channel_of ask.now) → volume.new ≡ volume.old }
        ensures known { OnOk result (is_loaded self.new (channel_of ask.now)) }
        ensures follows { V.follows volume.old volume.new }
        ensures store { IsErrOf result KeeperRefused.Store → Rose (V.faults volume.old) (V.faults volume.new) }
        ensures kept { IsErrOf result KeeperRefused.Store ⊎ (V.faults volume.new ≡ V.faults volume.old) }
        ensures later { V.faults volume.old ≤ V.faults volume.new };

    /// The entry of an index in the channel of a question, which is loaded, in two calls of the volume at most. After `Store` the channel is loaded again by the next
    /// call. `Damaged` comes only over a volume that does not tell.
    fn entry_for<V: Volume>(
        &mut self,
        alloc: Global,
        volume: &mut V,
        ask: &Ask,
        index: u64,
    ) -> Result<Entry, KeeperRefused>
        requires loaded { has_entry self.old (channel_of ask.now) index }
        requires sound { is_sound self.old }
        requires tie { V.tells → HasLive (keeps self.old) (channel_of ask.now) (V.disk volume.old) }
        ensures sound { is_sound self.new }
        ensures got { V.tells → (channels : Channels) (held suspense : List (List ℕ)) → keeps self.old channels (V.disk volume.old) → channels.at (channel_of ask.now) ≡ live held suspense
            → (next : State) × Gets held suspense index result next × IsNow (keeps self.new) channels (channel_of ask.now) next (V.disk volume.new) }
        ensures entries { OnOk result ((other : ℕ) → has_entry self.old (channel_of ask.now) other → has_entry self.new (channel_of ask.now) other) }
        ensures disk { V.tells → V.disk volume.new ≡ V.disk volume.old }
        ensures clock { V.clock volume.new ≤ V.clock volume.old + 2 }
        ensures follows { V.follows volume.old volume.new }
        ensures store { IsErrOf result KeeperRefused.Store → Rose (V.faults volume.old) (V.faults volume.new) }
        ensures kept { IsErrOf result KeeperRefused.Store ⊎ (V.faults volume.new ≡ V.faults volume.old) }
        ensures later { V.faults volume.old ≤ V.faults volume.new };

    /// Of each channel that it keeps a crash leaves the list held, with what is in suspense or without. It makes no call; it only says so.
    fn crashes_leave_what_is_held()
        ensures { (keeper : Self) (channels : Channels) (disk : Disk) → is_sound keeper → keeps keeper channels disk → HoldsAll logs channels disk };

    /// A channel that is loaded on a disk is loaded over every volume. It makes no call; it only says so.
    fn live_is_loaded()
        ensures { (keeper : Self) (channels : Channels) (disk : Disk) (channel : List ℕ) (held suspense : List (List ℕ)) → IsDigits 32 channel
            → is_sound keeper → keeps keeper channels disk → channels.at channel ≡ live held suspense → is_loaded keeper channel };

    /// The files of a loaded channel read as the list held. It makes no call; it only says so.
    fn reads_what_is_held()
        ensures { (keeper : Self) (channels : Channels) (disk : Disk) (channel : List ℕ) (held suspense : List (List ℕ)) → IsDigits 32 channel
            → is_sound keeper → keeps keeper channels disk → channels.at channel ≡ live held suspense → logs.lists channel (reads disk) held };
}
