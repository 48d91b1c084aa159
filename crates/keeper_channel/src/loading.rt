ghost use Rattle.std.specs.Prelude.{◌≡◌, ◌≤◌, false, List, ℕ, None, IfOk, OnOk, IfErr, IsErrOf, IsTrue, ◌⊎◌};
ghost use Rattle.pad_edge.specs.Count.{Rose};
ghost use Rattle.disk_volume.specs.Disk.{IsImage, reads};
ghost use Rattle.disk_volume.specs.Moments.{EachSince, Grew, OnlySyncs};
ghost use Rattle.gated_log.specs.Refused.{MayRefuse};
ghost use Rattle.log_format.specs.declared.damage.Damage.{Damage};
ghost use Rattle.keeper_channel.specs.Chan.{has_marker};
ghost use Rattle.keeper_channel.specs.Disks.{Either};
ghost use Rattle.keeper_channel.specs.Logs.{IsFound, IsDamaged, NamesDamage, IsLive, IsLogsOf, IsFoundIn, HasCount};

use crate::logs::Logs;
use crate::marker::find_marker;
use disk_volume::Volume;
use gated_log::{Ledger, LoadRefused, PayloadRefused};
use log_format::Form;
use std::alloc::Global;

/// Loads a channel: form Two first, and form One where that has no marker. It writes nothing.
pub fn load_logs<O: Ledger, G: Ledger, V: Volume>(
    alloc: Global,
    volume: &mut V,
    one: &str,
    two: &str,
) -> Result<Logs<O, G>, LoadRefused>
    requires apart { (file : List ℕ) → G.owns two.now file → O.owns one.now file → ⊥ }
    ensures made { IfOk result (IsLogsOf (λ log. (O.name log ≡ one.now) × (O.form_of log ≡ Form.One) × IsTrue (O.live log)) (λ log. (G.name log ≡ two.now) × (G.form_of log ≡ Form.Two) × IsTrue (G.live log))) }
    ensures counted { IfOk result (λ logs. (count : ℕ) × HasCount O.count G.count logs count) }
    ensures found { V.tells → IfOk result (λ slot. IsFoundIn (O.opens_as Form.One one.now) (G.opens_as Form.Two two.now) (G.doubt Form.Two two.now) O.holds G.holds
        (reads (V.disk volume.old)) slot (V.disk volume.new)) }
    ensures damaged { V.tells → IfErr result (NamesDamage (IsDamaged (O.damage Form.One one.now) (G.damage Form.Two two.now) (G.opens_as Form.Two two.now) (reads (V.disk volume.old)))) }
    ensures undamaged { V.tells → OnOk result ((damage : Damage) → IsDamaged (O.damage Form.One one.now) (G.damage Form.Two two.now) (G.opens_as Form.Two two.now) (reads (V.disk volume.old)) damage → ⊥) }
    ensures any_moment { V.tells → EachSince (V.disk volume.old) (V.disk volume.new) (IsImage (V.disk volume.old)) }
    ensures reads { V.tells → (other : List ℕ) → reads (V.disk volume.new) other ≡ reads (V.disk volume.old) other }
    ensures files { V.tells → Grew (Either (O.owns one.now) (G.owns two.now)) (V.disk volume.old) (V.disk volume.new) }
    ensures syncs { V.tells → OnlySyncs (Either (O.owns one.now) (G.owns two.now)) (V.disk volume.old) (V.disk volume.new) }
    ensures follows { V.follows volume.old volume.new }
    ensures store { IsErrOf result LoadRefused.Store → Rose (V.faults volume.old) (V.faults volume.new) }
    ensures kept { IsErrOf result LoadRefused.Store ⊎ (V.faults volume.new ≡ V.faults volume.old) }
    ensures later { V.faults volume.old ≤ V.faults volume.new }
{
    let log = G::load(alloc, volume, two, Form::Two)?;
    let found = match find_marker(alloc, volume, &log) {
        Ok(found) => found,
        Err(PayloadRefused::Store) => return Err(LoadRefused::Store),
        Err(PayloadRefused::NoMemory(error)) => return Err(LoadRefused::NoMemory(error)),
    };
    match found {
        Some(marker) => Ok(Logs::Moved { log, marker }),
        None => load_old(alloc, volume, one, log),
    }
}

/// Loads form One.
fn load_old<O: Ledger, G: Ledger, V: Volume>(
    alloc: Global,
    volume: &mut V,
    one: &str,
    log: G,
) -> Result<Logs<O, G>, LoadRefused>
    requires apart { (file : List ℕ) → G.owns (G.name log) file → O.owns one.now file → ⊥ }
    ensures made { IfOk result (IsLogsOf (λ log. (O.name log ≡ one.now) × (O.form_of log ≡ Form.One) × IsTrue (O.live log)) (λ kept. kept ≡ log)) }
    ensures counted { IfOk result (λ logs. (count : ℕ) × HasCount O.count G.count logs count) }
    ensures found { V.tells → (new : List (List ℕ)) → G.holds log new (V.disk volume.old) → G.opens_as Form.Two (G.name log) (reads (V.disk volume.old)) new → has_marker new ≡ false
        → IfOk result (λ slot. IsFoundIn (O.opens_as Form.One one.now) (G.opens_as Form.Two (G.name log)) (G.doubt Form.Two (G.name log)) O.holds G.holds
        (reads (V.disk volume.old)) slot (V.disk volume.new)) }
    ensures undamaged { V.tells → OnOk result (O.damage Form.One one.now (reads (V.disk volume.old)) ≡ None) }
    ensures damaged { V.tells → IfErr result (MayRefuse (O.damage Form.One one.now (reads (V.disk volume.old)))) }
    ensures any_moment { V.tells → EachSince (V.disk volume.old) (V.disk volume.new) (IsImage (V.disk volume.old)) }
    ensures reads { V.tells → (other : List ℕ) → reads (V.disk volume.new) other ≡ reads (V.disk volume.old) other }
    ensures files { V.tells → Grew (O.owns one.now) (V.disk volume.old) (V.disk volume.new) }
    ensures syncs { V.tells → OnlySyncs (O.owns one.now) (V.disk volume.old) (V.disk volume.new) }
    ensures follows { V.follows volume.old volume.new }
    ensures store { IsErrOf result LoadRefused.Store → Rose (V.faults volume.old) (V.faults volume.new) }
    ensures kept { IsErrOf result LoadRefused.Store ⊎ (V.faults volume.new ≡ V.faults volume.old) }
    ensures later { V.faults volume.old ≤ V.faults volume.new }
{
    let old = O::load(alloc, volume, one, Form::One)?;
    Ok(Logs::Unmoved { one: old, two: log })
}
