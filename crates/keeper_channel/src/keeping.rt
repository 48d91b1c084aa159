ghost use Rattle.std.specs.Prelude.{◌≡◌, ◌↔◌, ◌+◌, ◌≤◌, ◌&&◌, ◌⊎◌, ◌++◌, true, false, IfOk, OnOk, List, ℕ, length, IfSome, IsSome, IsOk, None, Some, IsErrOf, IsTrue};
ghost use Rattle.pad_edge.specs.Count.{Rose};
ghost use Rattle.disk_volume.specs.Moments.{Grew};
ghost use Rattle.log_format.specs.declared.form.TheConstants.{MOST_ENTRIES_TWO, MOST_BYTES_TWO};
ghost use Rattle.log_format.specs.declared.frames.TheConstants.{MOST_FRAMES};
ghost use Rattle.log_format.specs.Frames.{size_of};
ghost use Rattle.log_format.specs.declared.damage.Damage.{Damage};
ghost use Rattle.keeper_entry.specs.Index.{IsIndex};
ghost use Rattle.keeper_channel.specs.Chan.{channel_room};
ghost use Rattle.keeper_channel.specs.Entries.{AreEntries};
ghost use Rattle.keeper_channel.specs.Logs.{IsLive, IsLogsOf, HasCount, log_room};
ghost use Rattle.keeper_channel.specs.Slot.{IsSlot, IsSlotOf, IsStored};
ghost use Rattle.keeper_channel.specs.Inside.Refusals.{once_begun};

use crate::grouping::{add_entries, bytes_of};
use crate::logs::Logs;
use crate::refused::KeeperRefused;
use crate::room::slot_has_room;
use crate::slot::{Slot, Stored};
use crate::storing::store_live;
use disk_volume::Volume;
use gated_log::{Damage, Ledger};
use keeper_entry::Index;
use log_format::{Form, Frames, Payloads};
use std::alloc::Global;

/// Stores 1 to 64 entries under one gate in a channel that is loaded, and answers the index of the first. A channel that was not moved
/// yet is moved first. `Full` comes exactly if the list has no room for them, by its index or by the log that it was moved to; nothing
/// is moved, primed or written then, and the channel stays as it is. `Store` comes only where the volume's count of faults rose, and
/// always where it is greater after the call; then the channel has to be loaded again. So it has after `Damaged`. That never comes over
/// a volume that tells; over another, the move found that the files changed since they were loaded.
pub fn store_entries<O: Ledger, G: Ledger, V: Volume>(
    alloc: Global,
    volume: &mut V,
    one: &str,
    two: &str,
    slot: Slot<O, G>,
    entries: &Payloads,
) -> Stored<O, G>
    requires made { IsSlotOf (λ log. (O.name log ≡ one.now) × (O.form_of log ≡ Form.One) × IsTrue (O.live log)) (λ log. (G.name log ≡ two.now) × (G.form_of log ≡ Form.Two) × IsTrue (G.live log)) O.count G.count slot }
    requires apart { (file : List ℕ) → G.owns two.now file → O.owns one.now file → ⊥ }
    requires some { 1 ≤ length entries.now }
    requires few { length entries.now ≤ MOST_FRAMES }
    requires entries { AreEntries entries.now }
    requires slot { V.tells → (held : List (List ℕ)) × (suspense : List (List ℕ)) × IsSlot O.holds G.holds (G.doubt Form.Two two.now) slot held suspense (V.disk volume.old) }
    ensures stored { V.tells → (held suspense : List (List ℕ)) → IsSlot O.holds G.holds (G.doubt Form.Two two.now) slot held suspense (V.disk volume.old)
        → IsStored (O.opens_as Form.One one.now) (G.opens_as Form.Two two.now) (G.doubt Form.Two two.now) O.holds G.holds held suspense entries.now result.slot result.answer (V.disk volume.old) (V.disk volume.new) }
    ensures full { (payloads : List (List ℕ)) → IsIndex slot.index payloads
        → IsErrOf result.answer KeeperRefused.Full ↔ ((channel_room payloads (length entries.now) (size_of entries.now) && log_room G.room slot.logs (length entries.now) (size_of entries.now)) ≡ false) }
    ensures nothing { IsErrOf result.answer KeeperRefused.Full → volume.new ≡ volume.old }
    ensures loaded { IsErrOf result.answer KeeperRefused.Full → IsSome result.slot }
    ensures same { IsErrOf result.answer KeeperRefused.Full → result.slot ≡ Some slot }
    ensures some { IsOk result.answer → IsSome result.slot }
    ensures none { IsErrOf result.answer KeeperRefused.Store → result.slot ≡ None }
    ensures dropped { (damage : Damage) → IsErrOf result.answer (KeeperRefused.Damaged damage) → result.slot ≡ None }
    ensures made { IfSome result.slot (IsSlotOf (λ log. (O.name log ≡ one.now) × (O.form_of log ≡ Form.One) × IsTrue (O.live log)) (λ log. (G.name log ≡ two.now) × (G.form_of log ≡ Form.Two) × IsTrue (G.live log)) O.count G.count) }
    ensures files { V.tells → Grew (G.owns two.now) (V.disk volume.old) (V.disk volume.new) }
    ensures follows { V.follows volume.old volume.new }
    ensures store { IsErrOf result.answer KeeperRefused.Store → Rose (V.faults volume.old) (V.faults volume.new) }
    ensures kept { IsErrOf result.answer KeeperRefused.Store ⊎ (V.faults volume.new ≡ V.faults volume.old) }
    ensures later { V.faults volume.old ≤ V.faults volume.new }
{
    match frame_entries(alloc, &slot, entries) {
        Ok(group) => store_group(alloc, volume, one, two, slot, entries, &group),
        Err(refused) => Stored {
            slot: Some(slot),
            answer: Err(refused),
        },
    }
}

/// The frames of entries that fit behind a channel's list. `Full` comes exactly if they do not.
fn frame_entries<O: Ledger, G: Ledger>(
    alloc: Global,
    slot: &Slot<O, G>,
    entries: &Payloads,
) -> Result<Frames, KeeperRefused>
    requires live { IsLogsOf (λ log. IsTrue (O.live log)) (λ log. IsTrue (G.live log)) slot.now.logs }
    requires some { 1 ≤ length entries.now }
    requires few { length entries.now ≤ MOST_FRAMES }
    requires entries { AreEntries entries.now }
    ensures group { IfOk result (λ group. group ≡ entries.now) }
    ensures room { (payloads : List (List ℕ)) → IsIndex slot.now.index payloads → OnOk result (channel_room payloads (length entries.now) (size_of entries.now) ≡ true) }
    ensures full { (payloads : List (List ℕ)) → IsIndex slot.now.index payloads
        → IsErrOf result KeeperRefused.Full ↔ ((channel_room payloads (length entries.now) (size_of entries.now) && log_room G.room slot.now.logs (length entries.now) (size_of entries.now)) ≡ false) }
    ensures small { OnOk result ((slot.now.index.count ≤ MOST_ENTRIES_TWO) × (slot.now.index.bytes ≤ MOST_BYTES_TWO)) }
    ensures store { IsErrOf result KeeperRefused.Store → ⊥ }
    ensures sound { (damage : Damage) → IsErrOf result (KeeperRefused.Damaged damage) → ⊥ }
{
    if !slot_has_room(slot, entries.as_slice().len() as u64, bytes_of(entries)) {
        return Err(KeeperRefused::Full);
    }
    match Frames::build(alloc, entries) {
        Ok(group) => Ok(group),
        Err(error) => Err(KeeperRefused::NoMemory(error)),
    }
}

/// Stores entries that fit, and whose frames these are. The index grows first: where its memory runs out nothing was stored.
fn store_group<O: Ledger, G: Ledger, V: Volume>(
    alloc: Global,
    volume: &mut V,
    one: &str,
    two: &str,
    slot: Slot<O, G>,
    entries: &Payloads,
    group: &Frames,
) -> Stored<O, G>
    requires made { IsSlotOf (λ log. (O.name log ≡ one.now) × (O.form_of log ≡ Form.One) × IsTrue (O.live log)) (λ log. (G.name log ≡ two.now) × (G.form_of log ≡ Form.Two) × IsTrue (G.live log)) O.count G.count slot }
    requires apart { (file : List ℕ) → G.owns two.now file → O.owns one.now file → ⊥ }
    requires few { length entries.now ≤ MOST_FRAMES }
    requires entries { AreEntries entries.now }
    requires group { group.now ≡ entries.now }
    requires small { (slot.index.count ≤ MOST_ENTRIES_TWO) × (slot.index.bytes ≤ MOST_BYTES_TWO) }
    requires slot { V.tells → (held : List (List ℕ)) × (suspense : List (List ℕ)) × IsSlot O.holds G.holds (G.doubt Form.Two two.now) slot held suspense (V.disk volume.old) }
    ensures stored { V.tells → (held suspense : List (List ℕ)) → IsSlot O.holds G.holds (G.doubt Form.Two two.now) slot held suspense (V.disk volume.old)
        → channel_room held (length entries.now) (size_of entries.now) ≡ true
        → IsStored (O.opens_as Form.One one.now) (G.opens_as Form.Two two.now) (G.doubt Form.Two two.now) O.holds G.holds held suspense entries.now result.slot result.answer (V.disk volume.old) (V.disk volume.new) }
    ensures full { IsErrOf result.answer KeeperRefused.Full → ⊥ }
    ensures some { IsOk result.answer → IsSome result.slot }
    ensures none { IsErrOf result.answer KeeperRefused.Store → result.slot ≡ None }
    ensures dropped { (damage : Damage) → IsErrOf result.answer (KeeperRefused.Damaged damage) → result.slot ≡ None }
    ensures made { IfSome result.slot (IsSlotOf (λ log. (O.name log ≡ one.now) × (O.form_of log ≡ Form.One) × IsTrue (O.live log)) (λ log. (G.name log ≡ two.now) × (G.form_of log ≡ Form.Two) × IsTrue (G.live log)) O.count G.count) }
    ensures files { V.tells → Grew (G.owns two.now) (V.disk volume.old) (V.disk volume.new) }
    ensures follows { V.follows volume.old volume.new }
    ensures store { IsErrOf result.answer KeeperRefused.Store → Rose (V.faults volume.old) (V.faults volume.new) }
    ensures kept { IsErrOf result.answer KeeperRefused.Store ⊎ (V.faults volume.new ≡ V.faults volume.old) }
    ensures later { V.faults volume.old ≤ V.faults volume.new }
{
    let Slot { logs, index } = slot;
    let mut index = index;
    match add_entries(&mut index, entries) {
        Ok(()) => store_indexed(alloc, volume, one, two, logs, index, group),
        Err(error) => Stored {
            slot: None,
            answer: Err(KeeperRefused::NoMemory(error)),
        },
    }
}

/// Stores a group that fits and that the index already knows.
fn store_indexed<O: Ledger, G: Ledger, V: Volume>(
    alloc: Global,
    volume: &mut V,
    one: &str,
    two: &str,
    logs: Logs<O, G>,
    index: Index,
    group: &Frames,
) -> Stored<O, G>
    requires made { IsLogsOf (λ log. (O.name log ≡ one.now) × (O.form_of log ≡ Form.One) × IsTrue (O.live log)) (λ log. (G.name log ≡ two.now) × (G.form_of log ≡ Form.Two) × IsTrue (G.live log)) logs }
    requires counted { (count : ℕ) × HasCount O.count G.count logs count × (index.count ≡ count + length group.now) }
    requires indexed { (payloads : List (List ℕ)) × IsIndex index payloads }
    requires apart { (file : List ℕ) → G.owns two.now file → O.owns one.now file → ⊥ }
    requires live { V.tells → (held : List (List ℕ)) × (suspense : List (List ℕ)) × IsLive O.holds G.holds (G.doubt Form.Two two.now) logs held suspense (V.disk volume.old) }
    ensures stored { V.tells → (held suspense : List (List ℕ)) → IsLive O.holds G.holds (G.doubt Form.Two two.now) logs held suspense (V.disk volume.old)
        → AreEntries held → AreEntries group.now → IsIndex index (held ++ group.now) → channel_room held (length group.now) (size_of group.now) ≡ true
        → IsStored (O.opens_as Form.One one.now) (G.opens_as Form.Two two.now) (G.doubt Form.Two two.now) O.holds G.holds held suspense group.now result.slot result.answer (V.disk volume.old) (V.disk volume.new) }
    ensures full { IsErrOf result.answer KeeperRefused.Full → ⊥ }
    ensures some { IsOk result.answer → IsSome result.slot }
    ensures none { IsErrOf result.answer KeeperRefused.Store → result.slot ≡ None }
    ensures dropped { (damage : Damage) → IsErrOf result.answer (KeeperRefused.Damaged damage) → result.slot ≡ None }
    ensures made { IfSome result.slot (IsSlotOf (λ log. (O.name log ≡ one.now) × (O.form_of log ≡ Form.One) × IsTrue (O.live log)) (λ log. (G.name log ≡ two.now) × (G.form_of log ≡ Form.Two) × IsTrue (G.live log)) O.count G.count) }
    ensures files { V.tells → Grew (G.owns two.now) (V.disk volume.old) (V.disk volume.new) }
    ensures follows { V.follows volume.old volume.new }
    ensures store { IsErrOf result.answer KeeperRefused.Store → Rose (V.faults volume.old) (V.faults volume.new) }
    ensures kept { IsErrOf result.answer KeeperRefused.Store ⊎ (V.faults volume.new ≡ V.faults volume.old) }
    ensures later { V.faults volume.old ≤ V.faults volume.new }
{
    match store_live(alloc, volume, one, two, logs, group) {
        Ok(added) => Stored {
            slot: Some(Slot {
                logs: added.logs,
                index,
            }),
            answer: Ok(added.index),
        },
        Err(refused) => Stored {
            slot: None,
            answer: Err(refused_once_begun(refused)),
        },
    }
}

/// What a store that has room is refused with once it made a call. That a log has no room then shows, as a payload that is no entry
/// does, that the files changed since the channel was loaded.
fn refused_once_begun(refused: KeeperRefused) -> KeeperRefused
    ensures { result ≡ once_begun refused }
{
    match refused {
        KeeperRefused::Full => KeeperRefused::Damaged(Damage::Entry(0)),
        KeeperRefused::Store => KeeperRefused::Store,
        KeeperRefused::Damaged(damage) => KeeperRefused::Damaged(damage),
        KeeperRefused::NoMemory(error) => KeeperRefused::NoMemory(error),
    }
}
