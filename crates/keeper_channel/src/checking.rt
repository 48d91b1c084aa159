ghost use Rattle.std.specs.Prelude.{◌≡◌, ◌⊎◌, ◌<◌, ◌≤◌, List, ℕ, Some, slice_get, length, IfOk, OnOk, IsErrOf, IsTrue, MatchResult};
ghost use Rattle.pad_edge.specs.Count.{Rose};
ghost use Rattle.keeper_entry.specs.Entry.{IsEntry};
ghost use Rattle.keeper_channel.specs.Entries.{AreEntries, IsFirstOther};
ghost use Rattle.keeper_channel.specs.Logs.{IsLive, IsLogsOf, HasCount, NamesDamage};
ghost use Rattle.log_format.specs.declared.damage.Damage.{Damage};
ghost use Rattle.log_format.specs.declared.damage.Damage.TheVariants.{Entry};

use crate::logs::Logs;
use crate::reading::{count_entries, read_payload};
use disk_volume::Volume;
use gated_log::{Damage, Ledger, LoadRefused, PayloadRefused};
use keeper_entry::content_of;
use log_format::Payload;
use std::alloc::Global;

/// Looks whether a payload holds an entry.
fn check_payload(place: u64, payload: &Payload) -> Result<(), LoadRefused>
    ensures entry { OnOk result (IsEntry payload.now) }
    ensures other { (damage : Damage) → IsErrOf result (LoadRefused.Damaged damage) → (damage ≡ Entry place) × (IsEntry payload.now → ⊥) }
    ensures store { IsErrOf result LoadRefused.Store → ⊥ }
{
    if content_of(payload.as_slice()).is_none() {
        return Err(LoadRefused::Damaged(Damage::Entry(place)));
    }
    Ok(())
}

/// Reads an entry, and looks at it.
fn check_entry<O: Ledger, G: Ledger, V: Volume>(
    alloc: Global,
    volume: &mut V,
    logs: &Logs<O, G>,
    place: u64,
) -> Result<(), LoadRefused>
    requires live { IsLogsOf (λ log. IsTrue (O.live log)) (λ log. IsTrue (G.live log)) logs.now }
    requires place { (entries : ℕ) × HasCount O.count G.count logs.now entries × (place < entries) }
    requires holds { V.tells → (doubt : (List ℕ → List ℕ) → List (List ℕ)) × (held : List (List ℕ)) × (suspense : List (List ℕ)) × IsLive O.holds G.holds doubt logs.now held suspense (V.disk volume.old) }
    ensures entry { V.tells → (doubt : (List ℕ → List ℕ) → List (List ℕ)) (held suspense : List (List ℕ)) → IsLive O.holds G.holds doubt logs.now held suspense (V.disk volume.old)
        → OnOk result ((payload : List ℕ) × (slice_get held place ≡ Some payload) × IsEntry payload) }
    ensures other { V.tells → (doubt : (List ℕ → List ℕ) → List (List ℕ)) (held suspense : List (List ℕ)) → IsLive O.holds G.holds doubt logs.now held suspense (V.disk volume.old)
        → (damage : Damage) → IsErrOf result (LoadRefused.Damaged damage) → (payload : List ℕ) × (slice_get held place ≡ Some payload) × (damage ≡ Entry place) × (IsEntry payload → ⊥) }
    ensures disk { V.tells → V.disk volume.new ≡ V.disk volume.old }
    ensures follows { V.follows volume.old volume.new }
    ensures store { IsErrOf result LoadRefused.Store → Rose (V.faults volume.old) (V.faults volume.new) }
    ensures kept { IsErrOf result LoadRefused.Store ⊎ (V.faults volume.new ≡ V.faults volume.old) }
    ensures later { V.faults volume.old ≤ V.faults volume.new }
{
    match read_payload(alloc, volume, logs, place) {
        Ok(payload) => check_payload(place, &payload),
        Err(PayloadRefused::Store) => Err(LoadRefused::Store),
        Err(PayloadRefused::NoMemory(error)) => Err(LoadRefused::NoMemory(error)),
    }
}

/// Looks at each entry of a channel's list, and answers how many there are. `Damaged` names the first payload that holds no entry.
pub fn check_entries<O: Ledger, G: Ledger, V: Volume>(
    alloc: Global,
    volume: &mut V,
    logs: &Logs<O, G>,
) -> Result<u64, LoadRefused>
    requires live { IsLogsOf (λ log. IsTrue (O.live log)) (λ log. IsTrue (G.live log)) logs.now }
    requires counted { (count : ℕ) × HasCount O.count G.count logs.now count }
    requires holds { V.tells → (doubt : (List ℕ → List ℕ) → List (List ℕ)) × (held : List (List ℕ)) × (suspense : List (List ℕ)) × IsLive O.holds G.holds doubt logs.now held suspense (V.disk volume.old) }
    ensures counted { IfOk result (λ count. HasCount O.count G.count logs.now count) }
    ensures entries { V.tells → (doubt : (List ℕ → List ℕ) → List (List ℕ)) (held suspense : List (List ℕ)) → IsLive O.holds G.holds doubt logs.now held suspense (V.disk volume.old)
        → MatchResult result (λ count. (count ≡ length held) × AreEntries held) (NamesDamage (λ damage. (place : ℕ) × (damage ≡ Entry place) × IsFirstOther held place)) }
    ensures disk { V.tells → V.disk volume.new ≡ V.disk volume.old }
    ensures follows { V.follows volume.old volume.new }
    ensures store { IsErrOf result LoadRefused.Store → Rose (V.faults volume.old) (V.faults volume.new) }
    ensures kept { IsErrOf result LoadRefused.Store ⊎ (V.faults volume.new ≡ V.faults volume.old) }
    ensures later { V.faults volume.old ≤ V.faults volume.new }
{
    let count = count_entries(logs);
    for place in 0..count {
        check_entry(alloc, volume, logs, place)?;
    }
    Ok(count)
}
