ghost use Rattle.std.specs.Prelude.{◌≡◌, ◌+◌, ◌-◌, ◌<◌, ◌≤◌, ◌^◌, min, ◌++◌, List, ℕ, length, OnOk};
ghost use Rattle.pad_edge.specs.Count.{HasCause};
ghost use Rattle.disk_volume.specs.Moments.{Grew, EachSince};
ghost use Rattle.log_format.specs.Frames.{IsGroup};
ghost use Rattle.gated_log.specs.Holds.{Holds, OpensWithin};

use disk_volume::{Volume, write_synced};
use pad_edge::Failed;

/// Writes the bytes of a group behind a closed gate, and opens the gate once they are on the disk.
pub fn write_entries<V: Volume>(
    volume: &mut V,
    file: &str,
    gate: u64,
    bytes: &[u8],
) -> Result<(), Failed>
    requires place { gate < 2 ^ 60 }
    requires holds { V.tells → (magic : List ℕ) × (payloads : List (List ℕ)) × (length magic ≡ 8) × Holds magic file.now gate 0 payloads (V.disk volume.old) }
    ensures any_moment { V.tells → (magic : List ℕ) (payloads added : List (List ℕ)) → length magic ≡ 8 → IsGroup bytes.now added
        → Holds magic file.now gate 0 payloads (V.disk volume.old)
        → EachSince (V.disk volume.old) (V.disk volume.new) (λ image. OpensWithin magic payloads added (image file.now)) }
    ensures ok { V.tells → (magic : List ℕ) (payloads added : List (List ℕ)) → length magic ≡ 8 → IsGroup bytes.now added
        → Holds magic file.now gate 0 payloads (V.disk volume.old)
        → OnOk result (Holds magic file.now (gate + length bytes.now) 0 (payloads ++ added) (V.disk volume.new)) }
    ensures files { V.tells → Grew (λ name. name ≡ file.now) (V.disk volume.old) (V.disk volume.new) }
    ensures clock { V.clock volume.new ≤ V.clock volume.old + 4 }
    ensures calls { OnOk result (V.clock volume.new ≡ min (V.clock volume.old + 4) (2 ^ 64 - 1)) }
    ensures follows { V.follows volume.old volume.new }
    ensures cause { HasCause (V.faults volume.old) (V.faults volume.new) result }
{
    write_synced(volume, file, gate + 1, bytes)?;
    write_synced(volume, file, gate, &[1])
}
