ghost use Rattle.std.specs.Prelude.{◌≡◌, ◌⊎◌, ◌+◌, ◌<◌, ◌≤◌, List, ℕ, Some, slice_get, IfOk, IsErrOf, IsTrue};
ghost use Rattle.pad_edge.specs.Count.{Rose};
ghost use Rattle.log_format.specs.declared.damage.Damage.{Damage};
ghost use Rattle.log_format.specs.declared.damage.Damage.TheVariants.{Entry as AtEntry};
ghost use Rattle.keeper_channel.specs.Slot.{IsSlot, IsSlotOf};
ghost use Rattle.keeper_table.specs.Entry.{entry_in};

use disk_volume::Volume;
use gated_log::{Damage, Ledger};
use keeper_channel::{KeeperRefused, Slot, read_entry};
use keeper_table::{Entry, entry_of};
use std::alloc::Global;

/// Reads an entry of a loaded channel by its index, in two calls of the volume at most.
pub(crate) fn read_whole<O: Ledger, G: Ledger, V: Volume>(
    alloc: Global,
    volume: &mut V,
    slot: &Slot<O, G>,
    index: u64,
) -> Result<Entry, KeeperRefused>
    requires live { IsSlotOf (λ log. IsTrue (O.live log)) (λ log. IsTrue (G.live log)) O.count G.count slot.now }
    requires index { index < slot.now.index.count }
    requires slot { V.tells → (doubt : (List ℕ → List ℕ) → List (List ℕ)) × (held : List (List ℕ)) × (suspense : List (List ℕ)) × IsSlot O.holds G.holds doubt slot.now held suspense (V.disk volume.old) }
    ensures entry { V.tells → (doubt : (List ℕ → List ℕ) → List (List ℕ)) (held suspense : List (List ℕ)) → IsSlot O.holds G.holds doubt slot.now held suspense (V.disk volume.old)
        → IfOk result (λ entry. (payload : List ℕ) × (slice_get held index ≡ Some payload) × (entry ≡ entry_in index payload)) }
    ensures damaged { (damage : Damage) → IsErrOf result (KeeperRefused.Damaged damage) → damage ≡ AtEntry index }
    ensures sound { V.tells → (damage : Damage) → IsErrOf result (KeeperRefused.Damaged damage) → ⊥ }
    ensures full { IsErrOf result KeeperRefused.Full → ⊥ }
    ensures disk { V.tells → V.disk volume.new ≡ V.disk volume.old }
    ensures follows { V.follows volume.old volume.new }
    ensures store { IsErrOf result KeeperRefused.Store → Rose (V.faults volume.old) (V.faults volume.new) }
    ensures kept { IsErrOf result KeeperRefused.Store ⊎ (V.faults volume.new ≡ V.faults volume.old) }
    ensures later { V.faults volume.old ≤ V.faults volume.new }
    ensures clock { V.clock volume.new ≤ V.clock volume.old + 2 }
{
    match read_entry(alloc, volume, slot, index) {
        Ok(payload) => match entry_of(alloc, index, payload.as_slice()) {
            Ok(Some(entry)) => Ok(entry),
            Ok(None) => Err(KeeperRefused::Damaged(Damage::Entry(index))),
            Err(error) => Err(KeeperRefused::NoMemory(error)),
        },
        Err(refused) => Err(refused),
    }
}
