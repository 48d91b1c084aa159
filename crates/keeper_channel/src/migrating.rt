ghost use Rattle.std.specs.Prelude.{◌≡◌, ◌+◌, ◌<◌, ◌≤◌, ◌++◌, [], ◌∷◌, false, List, ℕ, IfOk, OnOk, IsTrue, IsErrOf, ◌⊎◌};
ghost use Rattle.pad_edge.specs.Count.{Rose};
ghost use Rattle.disk_volume.specs.Disk.{reads};
ghost use Rattle.disk_volume.specs.Moments.{EachSince, Grew};
ghost use Rattle.log_format.specs.declared.damage.Damage.{Damage};
ghost use Rattle.keeper_channel.specs.Entries.{AreEntries};
ghost use Rattle.keeper_channel.specs.Chan.{has_marker, moved, channel_room, IsList};
ghost use Rattle.keeper_channel.specs.Inside.Adding.{IsMoving};

use crate::moving::{add_reserved, move_group};
use crate::refused::KeeperRefused;
use disk_volume::Volume;
use gated_log::{Ledger, LoadRefused};
use log_format::{Form, Frames, MOST_FRAMES, Payload, Payloads};
use std::alloc::{AllocError, Global};

/// Makes the log of form Two one without entries, where it has no marker.
fn restart_channel<O: Ledger, G: Ledger, V: Volume>(
    alloc: Global,
    volume: &mut V,
    one: &O,
    two: &str,
) -> Result<G, KeeperRefused>
    requires form_one { O.form_of one.now ≡ Form.One }
    requires apart { (file : List ℕ) → G.owns two.now file → O.owns (O.name one.now) file → ⊥ }
    requires rests { V.tells → G.rests Form.Two two.now (V.disk volume.old) }
    ensures made { IfOk result (λ log. (G.name log ≡ two.now) × (G.form_of log ≡ Form.Two) × IsTrue (G.live log)) }
    ensures counted { IfOk result (λ log. G.count log ≡ 0) }
    ensures any_moment { V.tells → (old new : List (List ℕ)) → O.holds one.now old (V.disk volume.old) → G.opens_as Form.Two two.now (reads (V.disk volume.old)) new → has_marker new ≡ false
        → EachSince (V.disk volume.old) (V.disk volume.new) (λ image. IsList (O.opens_as Form.One (O.name one.now)) (G.opens_as Form.Two two.now) image (moved old)) }
    ensures moving { V.tells → (old new : List (List ℕ)) → O.holds one.now old (V.disk volume.old) → G.opens_as Form.Two two.now (reads (V.disk volume.old)) new → has_marker new ≡ false
        → IfOk result (λ log. IsMoving (O.opens_as Form.One (O.name one.now)) (G.opens_as Form.Two two.now) (G.doubt Form.Two two.now) O.holds G.holds (G.owns two.now) one.now log old 0 (V.disk volume.old) (V.disk volume.new)) }
    ensures full { IsErrOf result KeeperRefused.Full → ⊥ }
    ensures sound { (damage : Damage) → IsErrOf result (KeeperRefused.Damaged damage) → ⊥ }
    ensures files { V.tells → Grew (G.owns two.now) (V.disk volume.old) (V.disk volume.new) }
    ensures follows { V.follows volume.old volume.new }
    ensures store { IsErrOf result KeeperRefused.Store → Rose (V.faults volume.old) (V.faults volume.new) }
    ensures kept { IsErrOf result KeeperRefused.Store ⊎ (V.faults volume.new ≡ V.faults volume.old) }
    ensures later { V.faults volume.old ≤ V.faults volume.new }
{
    match G::restart(alloc, volume, two) {
        Ok(log) => Ok(log),
        Err(LoadRefused::Store) => Err(KeeperRefused::Store),
        Err(_) => Err(KeeperRefused::NoMemory(AllocError)),
    }
}

/// Moves the entries, 64 at a time.
fn move_entries<O: Ledger, G: Ledger, V: Volume>(
    alloc: Global,
    volume: &mut V,
    one: &O,
    log: &mut G,
) -> Result<(), KeeperRefused>
    requires form_one { O.form_of one.now ≡ Form.One }
    requires form_two { G.form_of log.old ≡ Form.Two }
    requires live_one { IsTrue (O.live one.now) }
    requires live { IsTrue (G.live log.old) }
    requires none { G.count log.old ≡ 0 }
    requires apart { (file : List ℕ) → G.owns (G.name log.old) file → O.owns (O.name one.now) file → ⊥ }
    requires holds { V.tells → (old : List (List ℕ)) × O.holds one.now old (V.disk volume.old) × G.holds log.old [] (V.disk volume.old) × (G.doubt Form.Two (G.name log.old) (reads (V.disk volume.old)) ≡ []) }
    ensures counted { OnOk result (G.count log.new ≡ O.count one.now) }
    ensures live { OnOk result (IsTrue (G.live log.new)) }
    ensures name { G.name log.new ≡ G.name log.old }
    ensures form { G.form_of log.new ≡ Form.Two }
    ensures any_moment { V.tells → (old : List (List ℕ)) → O.holds one.now old (V.disk volume.old)
        → EachSince (V.disk volume.old) (V.disk volume.new) (λ image. IsList (O.opens_as Form.One (O.name one.now)) (G.opens_as Form.Two (G.name log.old)) image (moved old)) }
    ensures moved { V.tells → (old : List (List ℕ)) → O.holds one.now old (V.disk volume.old)
        → OnOk result (G.holds log.new (moved old) (V.disk volume.new) × O.holds one.now old (V.disk volume.new) × (G.doubt Form.Two (G.name log.old) (reads (V.disk volume.new)) ≡ [])) }
    ensures full { V.tells → (old : List (List ℕ)) → O.holds one.now old (V.disk volume.old) → IsErrOf result KeeperRefused.Full → channel_room (moved old) 0 0 ≡ false }
    ensures damaged { V.tells → (old : List (List ℕ)) → O.holds one.now old (V.disk volume.old) → (damage : Damage) → IsErrOf result (KeeperRefused.Damaged damage) → AreEntries (moved old) → ⊥ }
    ensures files { V.tells → Grew (G.owns (G.name log.old)) (V.disk volume.old) (V.disk volume.new) }
    ensures follows { V.follows volume.old volume.new }
    ensures store { IsErrOf result KeeperRefused.Store → Rose (V.faults volume.old) (V.faults volume.new) }
    ensures kept { IsErrOf result KeeperRefused.Store ⊎ (V.faults volume.new ≡ V.faults volume.old) }
    ensures later { V.faults volume.old ≤ V.faults volume.new }
{
    let count = one.count();
    let mut first = 0;
    while first < count {
        let many = (count - first).min(MOST_FRAMES as u64);
        move_group(alloc, volume, one, log, first, many)?;
        first += many;
    }
    Ok(())
}

/// Appends the marker.
fn mark<O: Ledger, G: Ledger, V: Volume>(
    alloc: Global,
    volume: &mut V,
    one: &O,
    log: &mut G,
) -> Result<(), KeeperRefused>
    requires form_one { O.form_of one.now ≡ Form.One }
    requires form_two { G.form_of log.old ≡ Form.Two }
    requires live { IsTrue (G.live log.old) }
    requires apart { (file : List ℕ) → G.owns (G.name log.old) file → O.owns (O.name one.now) file → ⊥ }
    requires holds { V.tells → (payloads : List (List ℕ)) × G.holds log.old payloads (V.disk volume.old) }
    ensures any_moment { V.tells → (old : List (List ℕ)) → O.holds one.now old (V.disk volume.old) → G.holds log.old (moved old) (V.disk volume.old) → G.doubt Form.Two (G.name log.old) (reads (V.disk volume.old)) ≡ []
        → EachSince (V.disk volume.old) (V.disk volume.new) (λ image. IsList (O.opens_as Form.One (O.name one.now)) (G.opens_as Form.Two (G.name log.old)) image (moved old)) }
    ensures marked { V.tells → (old : List (List ℕ)) → G.holds log.old (moved old) (V.disk volume.old)
        → OnOk result (G.holds log.new (moved old ++ [] ∷ []) (V.disk volume.new)) }
    ensures sure { V.tells → (old : List (List ℕ)) → G.holds log.old (moved old) (V.disk volume.old)
        → OnOk result (G.doubt (G.form_of log.new) (G.name log.new) (reads (V.disk volume.new)) ≡ []) }
    ensures counted { OnOk result (G.count log.new ≡ G.count log.old + 1) }
    ensures live { OnOk result (IsTrue (G.live log.new)) }
    ensures name { G.name log.new ≡ G.name log.old }
    ensures form { G.form_of log.new ≡ Form.Two }
    ensures full { V.tells → (old : List (List ℕ)) → G.holds log.old (moved old) (V.disk volume.old) → IsErrOf result KeeperRefused.Full → channel_room (moved old) 0 0 ≡ false }
    ensures sound { (damage : Damage) → IsErrOf result (KeeperRefused.Damaged damage) → ⊥ }
    ensures files { V.tells → Grew (G.owns (G.name log.old)) (V.disk volume.old) (V.disk volume.new) }
    ensures follows { V.follows volume.old volume.new }
    ensures store { IsErrOf result KeeperRefused.Store → Rose (V.faults volume.old) (V.faults volume.new) }
    ensures kept { IsErrOf result KeeperRefused.Store ⊎ (V.faults volume.new ≡ V.faults volume.old) }
    ensures later { V.faults volume.old ≤ V.faults volume.new }
{
    match marker_group(alloc) {
        Ok(group) => add_reserved(alloc, volume, log, &group),
        Err(error) => Err(KeeperRefused::NoMemory(error)),
    }
}

/// The marker, as a group of one.
fn marker_group(alloc: Global) -> Result<Frames, AllocError>
    ensures { IfOk result (λ group. group ≡ [] ∷ []) }
{
    let mut payloads = Vec::new(alloc);
    payloads.push(Payload::new(Vec::new(alloc)))?;
    Frames::build(alloc, &Payloads::new(payloads))
}

/// Moves a channel that has no marker.
pub fn migrate<O: Ledger, G: Ledger, V: Volume>(
    alloc: Global,
    volume: &mut V,
    one: &O,
    two: &str,
) -> Result<G, KeeperRefused>
    requires form_one { O.form_of one.now ≡ Form.One }
    requires live_one { IsTrue (O.live one.now) }
    requires apart { (file : List ℕ) → G.owns two.now file → O.owns (O.name one.now) file → ⊥ }
    requires holds { V.tells → (old : List (List ℕ)) × O.holds one.now old (V.disk volume.old) }
    requires rests { V.tells → G.rests Form.Two two.now (V.disk volume.old) }
    requires unmarked { V.tells → (new : List (List ℕ)) × G.opens_as Form.Two two.now (reads (V.disk volume.old)) new × (has_marker new ≡ false) }
    ensures made { IfOk result (λ log. (G.name log ≡ two.now) × (G.form_of log ≡ Form.Two) × IsTrue (G.live log)) }
    ensures counted { IfOk result (λ log. G.count log ≡ O.count one.now + 1) }
    ensures any_moment { V.tells → (old : List (List ℕ)) → O.holds one.now old (V.disk volume.old)
        → EachSince (V.disk volume.old) (V.disk volume.new) (λ image. IsList (O.opens_as Form.One (O.name one.now)) (G.opens_as Form.Two two.now) image (moved old)) }
    ensures migrated { V.tells → (old : List (List ℕ)) → O.holds one.now old (V.disk volume.old)
        → IfOk result (λ log. G.holds log (moved old ++ [] ∷ []) (V.disk volume.new) × (G.doubt Form.Two two.now (reads (V.disk volume.new)) ≡ [])) }
    ensures full { V.tells → (old : List (List ℕ)) → O.holds one.now old (V.disk volume.old) → IsErrOf result KeeperRefused.Full → channel_room (moved old) 0 0 ≡ false }
    ensures damaged { V.tells → (old : List (List ℕ)) → O.holds one.now old (V.disk volume.old) → (damage : Damage) → IsErrOf result (KeeperRefused.Damaged damage) → AreEntries (moved old) → ⊥ }
    ensures files { V.tells → Grew (G.owns two.now) (V.disk volume.old) (V.disk volume.new) }
    ensures follows { V.follows volume.old volume.new }
    ensures store { IsErrOf result KeeperRefused.Store → Rose (V.faults volume.old) (V.faults volume.new) }
    ensures kept { IsErrOf result KeeperRefused.Store ⊎ (V.faults volume.new ≡ V.faults volume.old) }
    ensures later { V.faults volume.old ≤ V.faults volume.new }
{
    let mut log: G = restart_channel(alloc, volume, one, two)?;
    move_entries(alloc, volume, one, &mut log)?;
    mark(alloc, volume, one, &mut log)?;
    Ok(log)
}
