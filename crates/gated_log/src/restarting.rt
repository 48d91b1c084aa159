ghost use Rattle.std.specs.Prelude.{◌≡◌, ◌+◌, ◌-◌, ◌^◌, min, ◌≤◌, [], ℕ, take, OnOk};
ghost use Rattle.pad_edge.specs.Count.{HasCause};
ghost use Rattle.disk_volume.specs.Disk.{file_at, at_rest, reads, AtRest};
ghost use Rattle.disk_volume.specs.Moments.{Grew, EachSince};

use disk_volume::Volume;
use pad_edge::Failed;

/// Cuts a file on which nothing is pending to nothing, and syncs it. A crash leaves some front of it.
pub fn empty_file<V: Volume>(volume: &mut V, file: &str) -> Result<(), Failed>
    requires { V.tells → AtRest (V.disk volume.old) file.now }
    ensures any_moment { V.tells → EachSince (V.disk volume.old) (V.disk volume.new) (λ image.
        (size : ℕ) × (image file.now ≡ take size (reads (V.disk volume.old) file.now))) }
    ensures ok { V.tells → OnOk result (file_at (V.disk volume.new) file.now ≡ at_rest []) }
    ensures files { V.tells → Grew (λ name. name ≡ file.now) (V.disk volume.old) (V.disk volume.new) }
    ensures clock { V.clock volume.new ≤ V.clock volume.old + 2 }
    ensures calls { OnOk result (V.clock volume.new ≡ min (V.clock volume.old + 2) (2 ^ 64 - 1)) }
    ensures follows { V.follows volume.old volume.new }
    ensures cause { HasCause (V.faults volume.old) (V.faults volume.new) result }
{
    match volume.cut(file, 0) {
        Ok(()) => volume.sync(file),
        Err(failed) => Err(failed),
    }
}
