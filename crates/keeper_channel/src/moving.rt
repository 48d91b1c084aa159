ghost use Rattle.std.specs.Prelude.{◌≡◌, ◌+◌, ◌<◌, ◌≤◌, ◌++◌, [], ◌∷◌, false, List, ℕ, length, take, drop, Some, slice_get, IfOk, OnOk, IsTrue, IsErrOf, ◌⊎◌};
ghost use Rattle.pad_edge.specs.Count.{Rose};
ghost use Rattle.disk_volume.specs.Disk.{reads};
ghost use Rattle.disk_volume.specs.Moments.{EachSince, Grew};
ghost use Rattle.gated_log.specs.Ledger.{has_room};
ghost use Rattle.log_format.specs.Frames.{size_of};
ghost use Rattle.log_format.specs.declared.frames.TheConstants.{MOST_FRAMES};
ghost use Rattle.log_format.specs.declared.damage.Damage.{Damage};
ghost use Rattle.keeper_entry.specs.Entry.{IsEntry};
ghost use Rattle.keeper_channel.specs.Chan.{moved, at_moment_zero};
ghost use Rattle.keeper_channel.specs.Entries.{AreEntries};
ghost use Rattle.keeper_channel.specs.Inside.Adding.{IsAdding};

use crate::adding::add_group;
use crate::reading::read_moved;
use crate::refused::KeeperRefused;
use disk_volume::Volume;
use gated_log::{AppendRefused, Ledger};
use log_format::{Frames, Payload, Payloads};
use std::alloc::{AllocError, Global};

/// Reads an entry of a log of form One as it is moved, and puts it behind others.
fn push_moved<O: Ledger, V: Volume>(
    alloc: Global,
    volume: &mut V,
    one: &O,
    index: u64,
    entries: &mut Vec<Payload>,
) -> Result<(), KeeperRefused>
    requires live { IsTrue (O.live one.now) }
    requires index { index < O.count one.now }
    requires holds { V.tells → (payloads : List (List ℕ)) × O.holds one.now payloads (V.disk volume.old) }
    ensures pushed { OnOk result ((payload : List ℕ) × IsEntry payload × (entries.new.items ≡ entries.old.items ++ payload ∷ [])) }
    ensures moved { V.tells → (old : List (List ℕ)) → O.holds one.now old (V.disk volume.old)
        → OnOk result ((payload : List ℕ) × (slice_get old index ≡ Some payload) × (entries.new.items ≡ entries.old.items ++ at_moment_zero payload ∷ [])) }
    ensures damaged { V.tells → (old : List (List ℕ)) → O.holds one.now old (V.disk volume.old) → (damage : Damage) → IsErrOf result (KeeperRefused.Damaged damage)
        → (payload : List ℕ) × (slice_get old index ≡ Some payload) × (IsEntry (at_moment_zero payload) → ⊥) }
    ensures full { IsErrOf result KeeperRefused.Full → ⊥ }
    ensures disk { V.tells → V.disk volume.new ≡ V.disk volume.old }
    ensures follows { V.follows volume.old volume.new }
    ensures store { IsErrOf result KeeperRefused.Store → Rose (V.faults volume.old) (V.faults volume.new) }
    ensures kept { IsErrOf result KeeperRefused.Store ⊎ (V.faults volume.new ≡ V.faults volume.old) }
    ensures later { V.faults volume.old ≤ V.faults volume.new }
{
    let payload = read_moved(alloc, volume, one, index)?;
    match push_payload(entries, payload) {
        Ok(()) => Ok(()),
        Err(error) => Err(KeeperRefused::NoMemory(error)),
    }
}

/// Puts a payload behind others.
fn push_payload(entries: &mut Vec<Payload>, payload: Payload) -> Result<(), AllocError>
    ensures { OnOk result (entries.new.items ≡ entries.old.items ++ payload ∷ []) }
{
    entries.push(payload)?;
    Ok(())
}

/// Reads this many entries of a log of form One from this one on, as they are moved. `Damaged` comes only where some payload of the
/// log holds no entry.
fn read_group<O: Ledger, V: Volume>(
    alloc: Global,
    volume: &mut V,
    one: &O,
    first: u64,
    many: u64,
) -> Result<Payloads, KeeperRefused>
    requires live { IsTrue (O.live one.now) }
    requires within { first + many ≤ O.count one.now }
    requires holds { V.tells → (payloads : List (List ℕ)) × O.holds one.now payloads (V.disk volume.old) }
    ensures many { IfOk result (λ group. length group ≡ many) }
    ensures entries { IfOk result AreEntries }
    ensures group { V.tells → (old : List (List ℕ)) → O.holds one.now old (V.disk volume.old) → IfOk result (λ group. group ≡ moved (take many (drop first old))) }
    ensures damaged { V.tells → (old : List (List ℕ)) → O.holds one.now old (V.disk volume.old) → (damage : Damage) → IsErrOf result (KeeperRefused.Damaged damage)
        → AreEntries (moved old) → ⊥ }
    ensures full { IsErrOf result KeeperRefused.Full → ⊥ }
    ensures disk { V.tells → V.disk volume.new ≡ V.disk volume.old }
    ensures follows { V.follows volume.old volume.new }
    ensures store { IsErrOf result KeeperRefused.Store → Rose (V.faults volume.old) (V.faults volume.new) }
    ensures kept { IsErrOf result KeeperRefused.Store ⊎ (V.faults volume.new ≡ V.faults volume.old) }
    ensures later { V.faults volume.old ≤ V.faults volume.new }
{
    let mut entries = Vec::new(alloc);
    for place in 0..many {
        push_moved(alloc, volume, one, first + place, &mut entries)?;
    }
    Ok(Payloads::new(entries))
}

/// Reserves and adds.
pub fn add_reserved<G: Ledger, V: Volume>(
    alloc: Global,
    volume: &mut V,
    log: &mut G,
    group: &Frames,
) -> Result<(), KeeperRefused>
    requires live { IsTrue (G.live log.old) }
    requires holds { V.tells → (payloads : List (List ℕ)) × G.holds log.old payloads (V.disk volume.old) }
    ensures any_moment { V.tells → (payloads : List (List ℕ)) → G.holds log.old payloads (V.disk volume.old) → EachSince (V.disk volume.old) (V.disk volume.new) (λ image.
        IsAdding (G.opens_as (G.form_of log.old) (G.name log.old) image) payloads (G.doubt (G.form_of log.old) (G.name log.old) (reads (V.disk volume.old))) group.now) }
    ensures ok { V.tells → (payloads : List (List ℕ)) → G.holds log.old payloads (V.disk volume.old) → OnOk result (G.holds log.new (payloads ++ group.now) (V.disk volume.new)) }
    ensures sure { V.tells → (payloads : List (List ℕ)) → G.holds log.old payloads (V.disk volume.old) → OnOk result (G.doubt (G.form_of log.new) (G.name log.new) (reads (V.disk volume.new)) ≡ []) }
    ensures full { IsErrOf result KeeperRefused.Full → G.room log.old (length group.now) (size_of group.now) ≡ false }
    ensures sound { (damage : Damage) → IsErrOf result (KeeperRefused.Damaged damage) → ⊥ }
    ensures live { OnOk result (IsTrue (G.live log.new)) }
    ensures counted { OnOk result (G.count log.new ≡ G.count log.old + length group.now) }
    ensures name { G.name log.new ≡ G.name log.old }
    ensures form { G.form_of log.new ≡ G.form_of log.old }
    ensures follows { V.follows volume.old volume.new }
    ensures store { IsErrOf result KeeperRefused.Store → Rose (V.faults volume.old) (V.faults volume.new) }
    ensures kept { IsErrOf result KeeperRefused.Store ⊎ (V.faults volume.new ≡ V.faults volume.old) }
    ensures later { V.faults volume.old ≤ V.faults volume.new }
    ensures files { V.tells → Grew (G.owns (G.name log.old)) (V.disk volume.old) (V.disk volume.new) }
{
    if log.reserve(alloc, group.sizes().len()).is_err() {
        return Err(KeeperRefused::NoMemory(AllocError));
    }
    match add_group(volume, log, group) {
        Ok(_) => Ok(()),
        Err(AppendRefused::Full) => Err(KeeperRefused::Full),
        Err(AppendRefused::Store) => Err(KeeperRefused::Store),
    }
}

/// Moves this many entries, 1 to 64, from this one on: reads them, and adds them under one gate.
pub fn move_group<O: Ledger, G: Ledger, V: Volume>(
    alloc: Global,
    volume: &mut V,
    one: &O,
    log: &mut G,
    first: u64,
    many: u64,
) -> Result<(), KeeperRefused>
    requires live { IsTrue (G.live log.old) }
    requires live_one { IsTrue (O.live one.now) }
    requires some { 1 ≤ many }
    requires few { many ≤ MOST_FRAMES }
    requires within { first + many ≤ O.count one.now }
    requires holds { V.tells → (payloads : List (List ℕ)) × G.holds log.old payloads (V.disk volume.old) }
    requires holds_one { V.tells → (payloads : List (List ℕ)) × O.holds one.now payloads (V.disk volume.old) }
    ensures any_moment { V.tells → (old done : List (List ℕ)) → O.holds one.now old (V.disk volume.old) → G.holds log.old done (V.disk volume.old)
        → EachSince (V.disk volume.old) (V.disk volume.new) (λ image. IsAdding (G.opens_as (G.form_of log.old) (G.name log.old) image) done
        (G.doubt (G.form_of log.old) (G.name log.old) (reads (V.disk volume.old))) (moved (take many (drop first old)))) }
    ensures moved { V.tells → (old done : List (List ℕ)) → O.holds one.now old (V.disk volume.old) → G.holds log.old done (V.disk volume.old)
        → OnOk result (G.holds log.new (done ++ moved (take many (drop first old))) (V.disk volume.new)) }
    ensures sure { V.tells → (payloads : List (List ℕ)) → G.holds log.old payloads (V.disk volume.old) → OnOk result (G.doubt (G.form_of log.new) (G.name log.new) (reads (V.disk volume.new)) ≡ []) }
    ensures full { V.tells → (old done : List (List ℕ)) → O.holds one.now old (V.disk volume.old) → G.holds log.old done (V.disk volume.old) → IsErrOf result KeeperRefused.Full
        → has_room (G.form_of log.old) done (length (moved (take many (drop first old)))) (size_of (moved (take many (drop first old)))) ≡ false }
    ensures damaged { V.tells → (old : List (List ℕ)) → O.holds one.now old (V.disk volume.old) → (damage : Damage) → IsErrOf result (KeeperRefused.Damaged damage)
        → AreEntries (moved old) → ⊥ }
    ensures live { OnOk result (IsTrue (G.live log.new)) }
    ensures counted { OnOk result (G.count log.new ≡ G.count log.old + many) }
    ensures name { G.name log.new ≡ G.name log.old }
    ensures form { G.form_of log.new ≡ G.form_of log.old }
    ensures follows { V.follows volume.old volume.new }
    ensures store { IsErrOf result KeeperRefused.Store → Rose (V.faults volume.old) (V.faults volume.new) }
    ensures kept { IsErrOf result KeeperRefused.Store ⊎ (V.faults volume.new ≡ V.faults volume.old) }
    ensures later { V.faults volume.old ≤ V.faults volume.new }
    ensures files { V.tells → Grew (G.owns (G.name log.old)) (V.disk volume.old) (V.disk volume.new) }
{
    let entries = read_group(alloc, volume, one, first, many)?;
    match Frames::build(alloc, &entries) {
        Ok(group) => add_reserved(alloc, volume, log, &group),
        Err(error) => Err(KeeperRefused::NoMemory(error)),
    }
}
