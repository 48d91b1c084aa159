ghost use Rattle.std.specs.Prelude.{◌≡◌, ◌↔◌, ◌≤◌, ◌&&◌, ◌⊎◌, false, List, ℕ, length, IfSome, IsSome, IsOk, None, Some, IsErrOf, IsTrue};
ghost use Rattle.pad_edge.specs.Count.{Rose};
ghost use Rattle.disk_volume.specs.Moments.{EachNow, Grew};
ghost use Rattle.log_format.specs.declared.damage.Damage.{Damage};
ghost use Rattle.log_format.specs.declared.frames.TheConstants.{MOST_FRAMES};
ghost use Rattle.keeper_channel.specs.Chan.{IsList, IsWithin, channel_room};
ghost use Rattle.keeper_channel.specs.Disks.{Either, SyncsThenActs};
ghost use Rattle.log_format.specs.Frames.{size_of};
ghost use Rattle.keeper_entry.specs.Index.{IsIndex};
ghost use Rattle.keeper_channel.specs.Entries.{AreEntries};
ghost use Rattle.keeper_channel.specs.Logs.{log_room};
ghost use Rattle.keeper_channel.specs.Slot.{IsSlotOf, IsKept, Keeps};
ghost use Rattle.keeper_channel.specs.Inside.Refusals.{refused_by};

use crate::keeping::store_entries;
use crate::refused::KeeperRefused;
use crate::reloading::reload;
use crate::slot::{Slot, Stored};
use disk_volume::Volume;
use gated_log::{Ledger, LoadRefused};
use log_format::{Form, Payloads};
use std::alloc::Global;

/// Stores 1 to 64 entries under one gate in a channel that was loaded once, and answers the index of the first. Where it has to be
/// loaded again, and so has no slot, it is loaded first. (A channel that was never loaded has no list that it keeps: it is for
/// `load_slot`, and `store_entries` then.) The refusals, in this order: `Store` where loading failed; `Damaged` exactly by the files;
/// `Full` exactly where the list has no room, by its index or by the log that it was moved to, and nothing is moved, primed or written
/// then; `Store` where moving, priming or appending failed. Each `Store` comes only where the volume's count of faults rose, and always
/// where it is greater after the call; then the channel has to be loaded again. So it has after `Damaged`. A store into a loaded
/// channel never answers that over a volume that tells; over another, the move found that the files changed since they were loaded.
pub fn store_slot<O: Ledger, G: Ledger, V: Volume>(
    alloc: Global,
    volume: &mut V,
    one: &str,
    two: &str,
    slot: Option<Slot<O, G>>,
    entries: &Payloads,
) -> Stored<O, G>
    requires made { IfSome slot (IsSlotOf (λ log. (O.name log ≡ one.now) × (O.form_of log ≡ Form.One) × IsTrue (O.live log)) (λ log. (G.name log ≡ two.now) × (G.form_of log ≡ Form.Two) × IsTrue (G.live log)) O.count G.count) }
    requires apart { (file : List ℕ) → G.owns two.now file → O.owns one.now file → ⊥ }
    requires some { 1 ≤ length entries.now }
    requires few { length entries.now ≤ MOST_FRAMES }
    requires entries { AreEntries entries.now }
    requires tie { V.tells → (held : List (List ℕ)) × (suspense : List (List ℕ)) × Keeps (O.opens_as Form.One one.now) (G.opens_as Form.Two two.now) (G.doubt Form.Two two.now) O.holds G.holds slot held suspense (V.disk volume.old) }
    ensures stored { V.tells → (held suspense : List (List ℕ)) → Keeps (O.opens_as Form.One one.now) (G.opens_as Form.Two two.now) (G.doubt Form.Two two.now) O.holds G.holds slot held suspense (V.disk volume.old)
        → IsKept (O.opens_as Form.One one.now) (G.opens_as Form.Two two.now) (G.doubt Form.Two two.now) (O.damage Form.One one.now) (G.damage Form.Two two.now) O.holds G.holds
        slot held suspense entries.now result.slot result.answer (V.disk volume.old) (V.disk volume.new) }
    ensures some { IsOk result.answer → IsSome result.slot }
    ensures none { IsErrOf result.answer KeeperRefused.Store → result.slot ≡ None }
    ensures dropped { (damage : Damage) → IsErrOf result.answer (KeeperRefused.Damaged damage) → result.slot ≡ None }
    ensures made { IfSome result.slot (IsSlotOf (λ log. (O.name log ≡ one.now) × (O.form_of log ≡ Form.One) × IsTrue (O.live log)) (λ log. (G.name log ≡ two.now) × (G.form_of log ≡ Form.Two) × IsTrue (G.live log)) O.count G.count) }
    ensures full { IfSome slot (λ slot. (payloads : List (List ℕ)) → IsIndex slot.index payloads
        → IsErrOf result.answer KeeperRefused.Full ↔ ((channel_room payloads (length entries.now) (size_of entries.now) && log_room G.room slot.logs (length entries.now) (size_of entries.now)) ≡ false)) }
    ensures nothing { IsSome slot → IsErrOf result.answer KeeperRefused.Full → volume.new ≡ volume.old }
    ensures loaded { IsErrOf result.answer KeeperRefused.Full → IsSome result.slot }
    ensures same { IfSome slot (λ slot. IsErrOf result.answer KeeperRefused.Full → result.slot ≡ Some slot) }
    ensures files { V.tells → Grew (Either (O.owns one.now) (G.owns two.now)) (V.disk volume.old) (V.disk volume.new) }
    // The file of form One is only synced.
    ensures acts { V.tells → SyncsThenActs (O.owns one.now) (G.owns two.now) (V.disk volume.old) (V.disk volume.new) }
    ensures acts_on_two { V.tells → IsSome slot → Grew (G.owns two.now) (V.disk volume.old) (V.disk volume.new) }
    ensures follows { V.follows volume.old volume.new }
    ensures store { IsErrOf result.answer KeeperRefused.Store → Rose (V.faults volume.old) (V.faults volume.new) }
    ensures kept { IsErrOf result.answer KeeperRefused.Store ⊎ (V.faults volume.new ≡ V.faults volume.old) }
    ensures later { V.faults volume.old ≤ V.faults volume.new }
{
    match slot {
        Some(slot) => store_entries(alloc, volume, one, two, slot, entries),
        None => store_unloaded(alloc, volume, one, two, entries),
    }
}

/// Stores entries in a channel that has to be loaded.
fn store_unloaded<O: Ledger, G: Ledger, V: Volume>(
    alloc: Global,
    volume: &mut V,
    one: &str,
    two: &str,
    entries: &Payloads,
) -> Stored<O, G>
    requires apart { (file : List ℕ) → G.owns two.now file → O.owns one.now file → ⊥ }
    requires some { 1 ≤ length entries.now }
    requires few { length entries.now ≤ MOST_FRAMES }
    requires entries { AreEntries entries.now }
    requires tie { V.tells → (held : List (List ℕ)) × (suspense : List (List ℕ)) × EachNow (V.disk volume.old) (λ image. IsWithin (IsList (O.opens_as Form.One one.now) (G.opens_as Form.Two two.now) image) held suspense) }
    ensures stored { V.tells → (held suspense : List (List ℕ)) → EachNow (V.disk volume.old) (λ image. IsWithin (IsList (O.opens_as Form.One one.now) (G.opens_as Form.Two two.now) image) held suspense)
        → IsKept (O.opens_as Form.One one.now) (G.opens_as Form.Two two.now) (G.doubt Form.Two two.now) (O.damage Form.One one.now) (G.damage Form.Two two.now) O.holds G.holds
        None held suspense entries.now result.slot result.answer (V.disk volume.old) (V.disk volume.new) }
    ensures some { IsOk result.answer → IsSome result.slot }
    ensures loaded { IsErrOf result.answer KeeperRefused.Full → IsSome result.slot }
    ensures none { IsErrOf result.answer KeeperRefused.Store → result.slot ≡ None }
    ensures dropped { (damage : Damage) → IsErrOf result.answer (KeeperRefused.Damaged damage) → result.slot ≡ None }
    ensures made { IfSome result.slot (IsSlotOf (λ log. (O.name log ≡ one.now) × (O.form_of log ≡ Form.One) × IsTrue (O.live log)) (λ log. (G.name log ≡ two.now) × (G.form_of log ≡ Form.Two) × IsTrue (G.live log)) O.count G.count) }
    ensures files { V.tells → Grew (Either (O.owns one.now) (G.owns two.now)) (V.disk volume.old) (V.disk volume.new) }
    ensures acts { V.tells → SyncsThenActs (O.owns one.now) (G.owns two.now) (V.disk volume.old) (V.disk volume.new) }
    ensures follows { V.follows volume.old volume.new }
    ensures store { IsErrOf result.answer KeeperRefused.Store → Rose (V.faults volume.old) (V.faults volume.new) }
    ensures kept { IsErrOf result.answer KeeperRefused.Store ⊎ (V.faults volume.new ≡ V.faults volume.old) }
    ensures later { V.faults volume.old ≤ V.faults volume.new }
{
    match reload(alloc, volume, one, two) {
        Ok(slot) => store_entries(alloc, volume, one, two, slot, entries),
        Err(refused) => Stored {
            slot: None,
            answer: Err(refused_for(refused)),
        },
    }
}

/// What a store is refused with where the load before it was refused.
fn refused_for(refused: LoadRefused) -> KeeperRefused
    ensures { result ≡ refused_by refused }
{
    match refused {
        LoadRefused::Store => KeeperRefused::Store,
        LoadRefused::Damaged(damage) => KeeperRefused::Damaged(damage),
        LoadRefused::NoMemory(error) => KeeperRefused::NoMemory(error),
    }
}
