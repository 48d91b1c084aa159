ghost use Rattle.std.specs.Prelude.{◌≡◌, ◌⊎◌, ◌+◌, ◌*◌, ◌<◌, ◌≤◌, ◌++◌, [], ◌∷◌, List, ℕ, Some, slice_get, IfOk, OnOk, IsErrOf, IsTrue, MatchResult};
ghost use Rattle.pad_edge.specs.Count.{Rose};
ghost use Rattle.log_format.specs.declared.frame.TheConstants.{LONGEST_PAYLOAD};
ghost use Rattle.keeper_entry.specs.Entry.{IsEntry};
ghost use Rattle.keeper_entry.specs.Index.{IsIndex};
ghost use Rattle.keeper_channel.specs.Entries.{AreEntries, IsFirstOther};
ghost use Rattle.keeper_channel.specs.Logs.{IsLive, IsLogsOf, HasCount, NamesDamage};
ghost use Rattle.log_format.specs.declared.damage.Damage.{Damage};
ghost use Rattle.log_format.specs.declared.damage.Damage.TheVariants.{Entry};

use crate::logs::Logs;
use crate::reading::{count_entries, read_payload};
use disk_volume::Volume;
use gated_log::{Damage, Ledger, LoadRefused, PayloadRefused};
use keeper_entry::{Index, content_of};
use log_format::Payload;
use std::alloc::Global;

/// Takes the entry in a payload into an index, if the payload holds one.
fn add_payload(index: &mut Index, place: u64, payload: &Payload) -> Result<(), LoadRefused>
    requires count { index.old.count ≡ place }
    requires small { index.old.bytes ≤ place * LONGEST_PAYLOAD }
    requires few { place < 1048577 }
    ensures count { OnOk result (index.new.count ≡ place + 1) }
    ensures small { OnOk result (index.new.bytes ≤ (place + 1) * LONGEST_PAYLOAD) }
    ensures added { (payloads : List (List ℕ)) → IsIndex index.old payloads → OnOk result (IsIndex index.new (payloads ++ payload.now ∷ []) × IsEntry payload.now) }
    ensures other { (damage : Damage) → IsErrOf result (LoadRefused.Damaged damage) → (damage ≡ Entry place) × (IsEntry payload.now → ⊥) }
    ensures store { IsErrOf result LoadRefused.Store → ⊥ }
{
    let content = match content_of(payload.as_slice()) {
        Some(content) => content,
        None => return Err(LoadRefused::Damaged(Damage::Entry(place))),
    };
    match index.add(content) {
        Ok(()) => Ok(()),
        Err(error) => Err(LoadRefused::NoMemory(error)),
    }
}

/// Reads an entry, and takes it into an index.
fn add_entry<O: Ledger, G: Ledger, V: Volume>(
    alloc: Global,
    volume: &mut V,
    logs: &Logs<O, G>,
    index: &mut Index,
    place: u64,
) -> Result<(), LoadRefused>
    requires live { IsLogsOf (λ log. IsTrue (O.live log)) (λ log. IsTrue (G.live log)) logs.now }
    requires place { (entries : ℕ) × HasCount O.count G.count logs.now entries × (place < entries) }
    requires count { index.old.count ≡ place }
    requires small { index.old.bytes ≤ place * LONGEST_PAYLOAD }
    requires few { place < 1048577 }
    requires holds { V.tells → (doubt : (List ℕ → List ℕ) → List (List ℕ)) × (held : List (List ℕ)) × (suspense : List (List ℕ)) × IsLive O.holds G.holds doubt logs.now held suspense (V.disk volume.old) }
    ensures count { OnOk result (index.new.count ≡ place + 1) }
    ensures small { OnOk result (index.new.bytes ≤ (place + 1) * LONGEST_PAYLOAD) }
    ensures added { V.tells → (doubt : (List ℕ → List ℕ) → List (List ℕ)) (held suspense payloads : List (List ℕ)) → IsLive O.holds G.holds doubt logs.now held suspense (V.disk volume.old)
        → IsIndex index.old payloads → OnOk result ((payload : List ℕ) × (slice_get held place ≡ Some payload) × IsIndex index.new (payloads ++ payload ∷ []) × IsEntry payload) }
    ensures indexed { (payloads : List (List ℕ)) → IsIndex index.old payloads → OnOk result ((payload : List ℕ) × IsIndex index.new (payloads ++ payload ∷ [])) }
    ensures other { V.tells → (doubt : (List ℕ → List ℕ) → List (List ℕ)) (held suspense : List (List ℕ)) → IsLive O.holds G.holds doubt logs.now held suspense (V.disk volume.old)
        → (damage : Damage) → IsErrOf result (LoadRefused.Damaged damage) → (payload : List ℕ) × (slice_get held place ≡ Some payload) × (damage ≡ Entry place) × (IsEntry payload → ⊥) }
    ensures disk { V.tells → V.disk volume.new ≡ V.disk volume.old }
    ensures follows { V.follows volume.old volume.new }
    ensures store { IsErrOf result LoadRefused.Store → Rose (V.faults volume.old) (V.faults volume.new) }
    ensures kept { IsErrOf result LoadRefused.Store ⊎ (V.faults volume.new ≡ V.faults volume.old) }
    ensures later { V.faults volume.old ≤ V.faults volume.new }
{
    match read_payload(alloc, volume, logs, place) {
        Ok(payload) => add_payload(index, place, &payload),
        Err(PayloadRefused::Store) => Err(LoadRefused::Store),
        Err(PayloadRefused::NoMemory(error)) => Err(LoadRefused::NoMemory(error)),
    }
}

/// The index of a channel's list. `Damaged` names the first payload that holds no entry.
pub fn index_entries<O: Ledger, G: Ledger, V: Volume>(
    alloc: Global,
    volume: &mut V,
    logs: &Logs<O, G>,
) -> Result<Index, LoadRefused>
    requires live { IsLogsOf (λ log. IsTrue (O.live log)) (λ log. IsTrue (G.live log)) logs.now }
    requires counted { (count : ℕ) × HasCount O.count G.count logs.now count }
    requires holds { V.tells → (doubt : (List ℕ → List ℕ) → List (List ℕ)) × (held : List (List ℕ)) × (suspense : List (List ℕ)) × IsLive O.holds G.holds doubt logs.now held suspense (V.disk volume.old) }
    ensures counted { IfOk result (λ index. HasCount O.count G.count logs.now index.count) }
    ensures indexed { IfOk result (λ index. (payloads : List (List ℕ)) × IsIndex index payloads) }
    ensures index { V.tells → (doubt : (List ℕ → List ℕ) → List (List ℕ)) (held suspense : List (List ℕ)) → IsLive O.holds G.holds doubt logs.now held suspense (V.disk volume.old)
        → MatchResult result (λ index. IsIndex index held × AreEntries held) (NamesDamage (λ damage. (place : ℕ) × (damage ≡ Entry place) × IsFirstOther held place)) }
    ensures disk { V.tells → V.disk volume.new ≡ V.disk volume.old }
    ensures follows { V.follows volume.old volume.new }
    ensures store { IsErrOf result LoadRefused.Store → Rose (V.faults volume.old) (V.faults volume.new) }
    ensures kept { IsErrOf result LoadRefused.Store ⊎ (V.faults volume.new ≡ V.faults volume.old) }
    ensures later { V.faults volume.old ≤ V.faults volume.new }
{
    let mut index = Index::new(alloc);
    for place in 0..count_entries(logs) {
        add_entry(alloc, volume, logs, &mut index, place)?;
    }
    Ok(index)
}
