ghost use Rattle.std.specs.Prelude.{◌≡◌, ◌<◌, ◌≤◌, List, ℕ, IfOk, IfSome, IsErrOf, IsTrue, ◌⊎◌};
ghost use Rattle.pad_edge.specs.Count.{Rose};
ghost use Rattle.keeper_channel.specs.Chan.{FirstMarker};

use disk_volume::Volume;
use gated_log::{Ledger, PayloadRefused};
use std::alloc::Global;

/// Finds the first marker of a log.
pub fn find_marker<G: Ledger, V: Volume>(
    alloc: Global,
    volume: &mut V,
    log: &G,
) -> Result<Option<u64>, PayloadRefused>
    requires live { IsTrue (G.live log.now) }
    requires holds { V.tells → (payloads : List (List ℕ)) × G.holds log.now payloads (V.disk volume.old) }
    ensures found { V.tells → (payloads : List (List ℕ)) → G.holds log.now payloads (V.disk volume.old) → IfOk result (FirstMarker payloads) }
    ensures within { IfOk result (λ found. IfSome found (λ index. index < G.count log.now)) }
    ensures disk { V.tells → V.disk volume.new ≡ V.disk volume.old }
    ensures store { IsErrOf result PayloadRefused.Store → Rose (V.faults volume.old) (V.faults volume.new) }
    ensures follows { V.follows volume.old volume.new }
    ensures kept { IsErrOf result PayloadRefused.Store ⊎ (V.faults volume.new ≡ V.faults volume.old) }
    ensures later { V.faults volume.old ≤ V.faults volume.new }
{
    for index in 0..log.count() {
        let payload = log.read(alloc, volume, index)?;
        if payload.as_slice().is_empty() {
            return Ok(Some(index));
        }
    }
    Ok(None)
}
