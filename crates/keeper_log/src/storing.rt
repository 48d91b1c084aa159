ghost use Rattle.std.specs.Prelude.{◌≡◌, ◌↔◌, ◌≤◌, ◌&&◌, ◌⊎◌, List, ℕ, None, false, length, IfSome, IsSome, IsOk, IsErrOf};
ghost use Rattle.pad_edge.specs.Count.{Rose};
ghost use Rattle.disk_volume.specs.Moments.{Grew};
ghost use Rattle.log_format.specs.declared.form.Form.{Form};
ghost use Rattle.log_format.specs.declared.frames.TheConstants.{MOST_FRAMES};
ghost use Rattle.log_format.specs.Frames.{size_of};
ghost use Rattle.keeper_entry.specs.Index.{IsIndex};
ghost use Rattle.keeper_channel.specs.Chan.{channel_room};
ghost use Rattle.keeper_channel.specs.Entries.{AreEntries};
ghost use Rattle.keeper_channel.specs.Logs.{log_room};
ghost use Rattle.keeper_channel.specs.Slot.{IsSlot, IsStored};
ghost use Rattle.keeper_table.specs.Files.{file_one, file_two};
ghost use Rattle.keeper_state.specs.Slot.{IsSlotFor};

use disk_volume::Volume;
use gated_log::Ledger;
use keeper_channel::{KeeperRefused, Slot, Stored, store_entries};
use log_format::Payloads;
use netflux_codec::Channel;
use std::alloc::Global;

/// Stores the payloads of 1 to 64 entries in a channel that is loaded, in its two files, by their names.
pub(crate) fn store_in_slot<O: Ledger, G: Ledger, V: Volume>(
    alloc: Global,
    volume: &mut V,
    channel: &Channel,
    one: &str,
    two: &str,
    slot: Slot<O, G>,
    payloads: &Payloads,
) -> Stored<O, G>
    requires apart { (file : List ℕ) → G.owns (file_two channel.now) file → O.owns (file_one channel.now) file → ⊥ }
    requires one { one.now ≡ file_one channel.now }
    requires two { two.now ≡ file_two channel.now }
    requires made { IsSlotFor O.name O.form_of O.live O.count G.name G.form_of G.live G.count channel.now slot }
    requires some { 1 ≤ length payloads.now }
    requires few { length payloads.now ≤ MOST_FRAMES }
    requires entries { AreEntries payloads.now }
    requires slot { V.tells → (held : List (List ℕ)) × (suspense : List (List ℕ)) × IsSlot O.holds G.holds (G.doubt Form.Two (file_two channel.now)) slot held suspense (V.disk volume.old) }
    ensures stored { V.tells → (held suspense : List (List ℕ)) → IsSlot O.holds G.holds (G.doubt Form.Two (file_two channel.now)) slot held suspense (V.disk volume.old)
        → IsStored (O.opens_as Form.One (file_one channel.now)) (G.opens_as Form.Two (file_two channel.now)) (G.doubt Form.Two (file_two channel.now)) O.holds G.holds
        held suspense payloads.now result.slot result.answer (V.disk volume.old) (V.disk volume.new) }
    ensures full { (list : List (List ℕ)) → IsIndex slot.index list
        → IsErrOf result.answer KeeperRefused.Full ↔ ((channel_room list (length payloads.now) (size_of payloads.now) && log_room G.room slot.logs (length payloads.now) (size_of payloads.now)) ≡ false) }
    ensures nothing { IsErrOf result.answer KeeperRefused.Full → volume.new ≡ volume.old }
    ensures some { IsOk result.answer → IsSome result.slot }
    ensures none { IsErrOf result.answer KeeperRefused.Store → result.slot ≡ None }
    ensures made { IfSome result.slot (IsSlotFor O.name O.form_of O.live O.count G.name G.form_of G.live G.count channel.now) }
    ensures files { V.tells → Grew (G.owns (file_two channel.now)) (V.disk volume.old) (V.disk volume.new) }
    ensures follows { V.follows volume.old volume.new }
    ensures store { IsErrOf result.answer KeeperRefused.Store → Rose (V.faults volume.old) (V.faults volume.new) }
    ensures kept { IsErrOf result.answer KeeperRefused.Store ⊎ (V.faults volume.new ≡ V.faults volume.old) }
    ensures later { V.faults volume.old ≤ V.faults volume.new }
{
    store_entries(alloc, volume, one, two, slot, payloads)
}
