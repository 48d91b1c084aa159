ghost use Rattle.std.specs.Prelude.{◌≡◌, ◌⊎◌, ◌+◌, ◌<◌, ◌≤◌, ◌^◌, List, ℕ, Some, slice_get, IfOk, IsErrOf, IsTrue};
ghost use Rattle.pad_edge.specs.Count.{Rose};
ghost use Rattle.log_format.specs.declared.damage.Damage.{Damage};
ghost use Rattle.log_format.specs.declared.damage.Damage.TheVariants.{Entry};
ghost use Rattle.keeper_entry.specs.Entry.{IsEntry};
ghost use Rattle.keeper_channel.specs.Chan.{at_moment_zero};
ghost use Rattle.keeper_channel.specs.Checked.{IsChecked, IsCheckedOf};
ghost use Rattle.keeper_channel.specs.Logs.{IsLive, IsLogsOf, HasCount};
ghost use Rattle.keeper_channel.specs.Slot.{IsSlot, IsSlotOf};

use crate::checked::CheckedChannel;
use crate::logs::Logs;
use crate::refused::KeeperRefused;
use crate::slot::Slot;
use disk_volume::Volume;
use gated_log::{Damage, Ledger, PayloadRefused};
use keeper_entry::{MOMENT_BYTES, content_of};
use log_format::Payload;
use std::alloc::{AllocError, Global};

/// Reads the payload of an entry of a loaded channel by its index, in two calls of the volume at most, and looks at it again. Where
/// the channel was not moved yet, the payload has the moment 0. `Damaged` comes exactly if what was read is no entry, and never over
/// a volume that tells; `Store` only where the volume's count of faults rose.
pub fn read_entry<O: Ledger, G: Ledger, V: Volume>(
    alloc: Global,
    volume: &mut V,
    slot: &Slot<O, G>,
    index: u64,
) -> Result<Payload, KeeperRefused>
    requires live { IsSlotOf (λ log. IsTrue (O.live log)) (λ log. IsTrue (G.live log)) O.count G.count slot.now }
    requires index { index < slot.now.index.count }
    requires slot { V.tells → (doubt : (List ℕ → List ℕ) → List (List ℕ)) × (held : List (List ℕ)) × (suspense : List (List ℕ)) × IsSlot O.holds G.holds doubt slot.now held suspense (V.disk volume.old) }
    ensures payload { V.tells → (doubt : (List ℕ → List ℕ) → List (List ℕ)) (held suspense : List (List ℕ)) → IsSlot O.holds G.holds doubt slot.now held suspense (V.disk volume.old)
        → IfOk result (λ payload. slice_get held index ≡ Some payload) }
    ensures entry { IfOk result IsEntry }
    ensures damaged { (damage : Damage) → IsErrOf result (KeeperRefused.Damaged damage) → damage ≡ Entry index }
    ensures sound { V.tells → (damage : Damage) → IsErrOf result (KeeperRefused.Damaged damage) → ⊥ }
    ensures full { IsErrOf result KeeperRefused.Full → ⊥ }
    ensures disk { V.tells → V.disk volume.new ≡ V.disk volume.old }
    ensures follows { V.follows volume.old volume.new }
    ensures store { IsErrOf result KeeperRefused.Store → Rose (V.faults volume.old) (V.faults volume.new) }
    ensures kept { IsErrOf result KeeperRefused.Store ⊎ (V.faults volume.new ≡ V.faults volume.old) }
    ensures later { V.faults volume.old ≤ V.faults volume.new }
    ensures clock { V.clock volume.new ≤ V.clock volume.old + 2 }
{
    match read_payload(alloc, volume, &slot.logs, index) {
        Ok(payload) => check_entry(index, payload),
        Err(PayloadRefused::Store) => Err(KeeperRefused::Store),
        Err(PayloadRefused::NoMemory(error)) => Err(KeeperRefused::NoMemory(error)),
    }
}

/// Reads the payload of an entry of a channel that was checked, as `read_entry` does.
pub fn read_checked<O: Ledger, G: Ledger, V: Volume>(
    alloc: Global,
    volume: &mut V,
    channel: &CheckedChannel<O, G>,
    index: u64,
) -> Result<Payload, KeeperRefused>
    requires live { IsCheckedOf (λ log. IsTrue (O.live log)) (λ log. IsTrue (G.live log)) O.count G.count channel.now }
    requires index { index < channel.now.count }
    requires channel { V.tells → (doubt : (List ℕ → List ℕ) → List (List ℕ)) × (held : List (List ℕ)) × (suspense : List (List ℕ)) × IsChecked O.holds G.holds doubt channel.now held suspense (V.disk volume.old) }
    ensures payload { V.tells → (doubt : (List ℕ → List ℕ) → List (List ℕ)) (held suspense : List (List ℕ)) → IsChecked O.holds G.holds doubt channel.now held suspense (V.disk volume.old)
        → IfOk result (λ payload. slice_get held index ≡ Some payload) }
    ensures entry { IfOk result IsEntry }
    ensures damaged { (damage : Damage) → IsErrOf result (KeeperRefused.Damaged damage) → damage ≡ Entry index }
    ensures sound { V.tells → (damage : Damage) → IsErrOf result (KeeperRefused.Damaged damage) → ⊥ }
    ensures full { IsErrOf result KeeperRefused.Full → ⊥ }
    ensures disk { V.tells → V.disk volume.new ≡ V.disk volume.old }
    ensures follows { V.follows volume.old volume.new }
    ensures store { IsErrOf result KeeperRefused.Store → Rose (V.faults volume.old) (V.faults volume.new) }
    ensures kept { IsErrOf result KeeperRefused.Store ⊎ (V.faults volume.new ≡ V.faults volume.old) }
    ensures later { V.faults volume.old ≤ V.faults volume.new }
    ensures clock { V.clock volume.new ≤ V.clock volume.old + 2 }
{
    match read_payload(alloc, volume, &channel.logs, index) {
        Ok(payload) => check_entry(index, payload),
        Err(PayloadRefused::Store) => Err(KeeperRefused::Store),
        Err(PayloadRefused::NoMemory(error)) => Err(KeeperRefused::NoMemory(error)),
    }
}

/// The payload, if it holds an entry.
fn check_entry(index: u64, payload: Payload) -> Result<Payload, KeeperRefused>
    ensures same { IfOk result (λ same. same ≡ payload) }
    ensures entry { IfOk result IsEntry }
    ensures damaged { (damage : Damage) → IsErrOf result (KeeperRefused.Damaged damage) → (damage ≡ Entry index) × (IsEntry payload → ⊥) }
    ensures full { IsErrOf result KeeperRefused.Full → ⊥ }
    ensures store { IsErrOf result KeeperRefused.Store → ⊥ }
{
    if content_of(payload.as_slice()).is_none() {
        return Err(KeeperRefused::Damaged(Damage::Entry(index)));
    }
    Ok(payload)
}

/// How many entries the logs of a channel have.
pub fn count_entries<O: Ledger, G: Ledger>(logs: &Logs<O, G>) -> u64
    requires { (count : ℕ) × HasCount O.count G.count logs.now count }
    ensures { HasCount O.count G.count logs.now result }
{
    match logs {
        Logs::Unmoved { one, two: _ } => one.count(),
        Logs::Moved { log, marker: _ } => log.count() - 1,
    }
}

/// Reads the payload of an entry by its index in the channel's list.
pub fn read_payload<O: Ledger, G: Ledger, V: Volume>(
    alloc: Global,
    volume: &mut V,
    logs: &Logs<O, G>,
    index: u64,
) -> Result<Payload, PayloadRefused>
    requires live { IsLogsOf (λ log. IsTrue (O.live log)) (λ log. IsTrue (G.live log)) logs.now }
    requires index { (count : ℕ) × HasCount O.count G.count logs.now count × (index < count) }
    requires holds { V.tells → (doubt : (List ℕ → List ℕ) → List (List ℕ)) × (held : List (List ℕ)) × (suspense : List (List ℕ)) × IsLive O.holds G.holds doubt logs.now held suspense (V.disk volume.old) }
    ensures payload { V.tells → (doubt : (List ℕ → List ℕ) → List (List ℕ)) (held suspense : List (List ℕ)) → IsLive O.holds G.holds doubt logs.now held suspense (V.disk volume.old)
        → IfOk result (λ payload. slice_get held index ≡ Some payload) }
    ensures disk { V.tells → V.disk volume.new ≡ V.disk volume.old }
    ensures follows { V.follows volume.old volume.new }
    ensures store { IsErrOf result PayloadRefused.Store → Rose (V.faults volume.old) (V.faults volume.new) }
    ensures kept { IsErrOf result PayloadRefused.Store ⊎ (V.faults volume.new ≡ V.faults volume.old) }
    ensures later { V.faults volume.old ≤ V.faults volume.new }
    ensures clock { V.clock volume.new ≤ V.clock volume.old + 2 }
{
    match logs {
        Logs::Unmoved { one, two: _ } => read_unmoved(alloc, volume, one, index),
        Logs::Moved { log, marker } => log.read(alloc, volume, place_of(*marker, index)),
    }
}

/// A payload of form One as it is moved to form Two: with the moment 0 in front.
fn move_payload(alloc: Global, payload: &[u8]) -> Result<Payload, AllocError>
    ensures { IfOk result (λ moved. moved ≡ at_moment_zero payload.now) }
{
    let mut moved = Vec::with_capacity(alloc, payload.len() + MOMENT_BYTES)?;
    moved.extend_from_slice(&[0; MOMENT_BYTES])?;
    moved.extend_from_slice(payload)?;
    Ok(Payload::new(moved))
}

/// Reads an entry of a log of form One as it is moved, and looks at it. `Damaged` comes exactly if it is no entry.
pub fn read_moved<O: Ledger, V: Volume>(
    alloc: Global,
    volume: &mut V,
    one: &O,
    index: u64,
) -> Result<Payload, KeeperRefused>
    requires live { IsTrue (O.live one.now) }
    requires index { index < O.count one.now }
    requires holds { V.tells → (payloads : List (List ℕ)) × O.holds one.now payloads (V.disk volume.old) }
    ensures payload { V.tells → (payloads : List (List ℕ)) → O.holds one.now payloads (V.disk volume.old)
        → IfOk result (λ moved. (payload : List ℕ) × (slice_get payloads index ≡ Some payload) × (moved ≡ at_moment_zero payload)) }
    ensures entry { IfOk result IsEntry }
    ensures damaged { V.tells → (payloads : List (List ℕ)) → O.holds one.now payloads (V.disk volume.old) → (damage : Damage) → IsErrOf result (KeeperRefused.Damaged damage)
        → (payload : List ℕ) × (slice_get payloads index ≡ Some payload) × (IsEntry (at_moment_zero payload) → ⊥) }
    ensures full { IsErrOf result KeeperRefused.Full → ⊥ }
    ensures disk { V.tells → V.disk volume.new ≡ V.disk volume.old }
    ensures follows { V.follows volume.old volume.new }
    ensures store { IsErrOf result KeeperRefused.Store → Rose (V.faults volume.old) (V.faults volume.new) }
    ensures kept { IsErrOf result KeeperRefused.Store ⊎ (V.faults volume.new ≡ V.faults volume.old) }
    ensures later { V.faults volume.old ≤ V.faults volume.new }
{
    match read_unmoved(alloc, volume, one, index) {
        Ok(payload) => check_entry(index, payload),
        Err(PayloadRefused::Store) => Err(KeeperRefused::Store),
        Err(PayloadRefused::NoMemory(error)) => Err(KeeperRefused::NoMemory(error)),
    }
}

/// Reads an entry of a log of form One, as it is moved.
fn read_unmoved<O: Ledger, V: Volume>(
    alloc: Global,
    volume: &mut V,
    one: &O,
    index: u64,
) -> Result<Payload, PayloadRefused>
    requires live { IsTrue (O.live one.now) }
    requires index { index < O.count one.now }
    requires holds { V.tells → (payloads : List (List ℕ)) × O.holds one.now payloads (V.disk volume.old) }
    ensures payload { V.tells → (payloads : List (List ℕ)) → O.holds one.now payloads (V.disk volume.old)
        → IfOk result (λ moved. (payload : List ℕ) × (slice_get payloads index ≡ Some payload) × (moved ≡ at_moment_zero payload)) }
    ensures disk { V.tells → V.disk volume.new ≡ V.disk volume.old }
    ensures follows { V.follows volume.old volume.new }
    ensures store { IsErrOf result PayloadRefused.Store → Rose (V.faults volume.old) (V.faults volume.new) }
    ensures kept { IsErrOf result PayloadRefused.Store ⊎ (V.faults volume.new ≡ V.faults volume.old) }
    ensures later { V.faults volume.old ≤ V.faults volume.new }
    ensures clock { V.clock volume.new ≤ V.clock volume.old + 2 }
{
    let payload = one.read(alloc, volume, index)?;
    match move_payload(alloc, payload.as_slice()) {
        Ok(moved) => Ok(moved),
        Err(error) => Err(PayloadRefused::NoMemory(error)),
    }
}

/// Where the entry of an index stands in a log with this marker.
fn place_of(marker: u64, index: u64) -> u64
    requires { index + 1 < 2 ^ 64 }
    ensures before { index < marker → result ≡ index }
    ensures behind { marker ≤ index → result ≡ index + 1 }
    ensures most { result ≤ index + 1 }
{
    if index < marker { index } else { index + 1 }
}
