ghost use Rattle.std.specs.Prelude.{◌≡◌, ◌⊎◌, ◌+◌, ◌≤◌, length, take, drop, IfOk, IsErrOf};
ghost use Rattle.pad_edge.specs.Count.{Rose};
ghost use Rattle.disk_volume.specs.Disk.{reads};

use crate::extent::Extent;
use crate::refused::PayloadRefused;
use disk_volume::Volume;
use log_format::Payload;
use std::alloc::Global;

/// The payload that stands there in a file, or as much of it as the volume gives. It makes one call.
pub fn read_payload<V: Volume>(
    alloc: Global,
    volume: &mut V,
    file: &str,
    extent: Extent,
) -> Result<Payload, PayloadRefused>
    ensures payload { V.tells → extent.place + extent.size ≤ length (reads (V.disk volume.old) file.now)
        → IfOk result (λ payload. payload ≡ take extent.size (drop extent.place (reads (V.disk volume.old) file.now))) }
    ensures disk { V.tells → V.disk volume.new ≡ V.disk volume.old }
    ensures clock { V.clock volume.new ≤ V.clock volume.old + 1 }
    ensures follows { V.follows volume.old volume.new }
    ensures store { IsErrOf result PayloadRefused.Store → Rose (V.faults volume.old) (V.faults volume.new) }
    ensures kept { IsErrOf result PayloadRefused.Store ⊎ (V.faults volume.new ≡ V.faults volume.old) }
    ensures later { V.faults volume.old ≤ V.faults volume.new }
{
    let mut bytes = vec![in alloc; 0; extent.size as usize]?;
    let count = volume.read_at(file, u64::from(extent.place), &mut bytes)?;
    bytes.truncate(count);
    Ok(Payload::new(bytes))
}
