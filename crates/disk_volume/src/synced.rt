ghost use Rattle.std.specs.Prelude.{◌≡◌, ℕ, ◌+◌, ◌-◌, ◌^◌, min, ◌≤◌, List, length, OnOk};
ghost use Rattle.pad_edge.specs.Count.{HasCause};
ghost use Rattle.disk_volume.specs.Clock.{Ticked};
ghost use Rattle.disk_volume.specs.Disk.{file_at, at_rest, reads, put, Partly, AtRest, IsImage};
ghost use Rattle.disk_volume.specs.Moments.{Grew, OnlySyncs, EachSince};

use crate::volume::Volume;
use pad_edge::Failed;

/// Writes these bytes over those of a file from the offset `at` on, and syncs the file. A crash leaves a part of the write
/// at most. `Failed` comes only if the count of faults rose, and may leave any part of it.
pub fn write_synced<V: Volume>(
    volume: &mut V,
    file: &str,
    at: u64,
    piece: &[u8],
) -> Result<(), Failed>
    requires { V.tells → AtRest (V.disk volume.old) file.now × (at ≤ length (reads (V.disk volume.old) file.now)) }
    ensures ok { V.tells → OnOk result (file_at (V.disk volume.new) file.now ≡ at_rest (put (reads (V.disk volume.old) file.now) at piece.now)) }
    ensures any_moment { V.tells → EachSince (V.disk volume.old) (V.disk volume.new) (λ image.
        Partly at (length piece.now) (reads (V.disk volume.old) file.now) (image file.now)) }
    ensures files { V.tells → Grew (λ name. name ≡ file.now) (V.disk volume.old) (V.disk volume.new) }
    ensures clock { V.clock volume.new ≤ V.clock volume.old + 2 }
    ensures calls { OnOk result (V.clock volume.new ≡ min (V.clock volume.old + 2) (2 ^ 64 - 1)) }
    ensures follows { V.follows volume.old volume.new }
    ensures cause { HasCause (V.faults volume.old) (V.faults volume.new) result }
{
    match volume.write_at(file, at, piece) {
        Ok(()) => volume.sync(file),
        Err(failed) => Err(failed),
    }
}

/// Puts all that was done to a file on the disk. A crash in it leaves nothing that it could not leave before. `Failed`
/// comes only if the count of faults rose, and changes nothing.
pub fn settle<V: Volume>(volume: &mut V, file: &str) -> Result<(), Failed>
    ensures ok { V.tells → OnOk result (AtRest (V.disk volume.new) file.now) }
    ensures reads { V.tells → (name : List ℕ) → reads (V.disk volume.new) name ≡ reads (V.disk volume.old) name }
    ensures any_moment { V.tells → EachSince (V.disk volume.old) (V.disk volume.new) (IsImage (V.disk volume.old)) }
    ensures files { V.tells → Grew (λ name. name ≡ file.now) (V.disk volume.old) (V.disk volume.new) }
    ensures syncs { V.tells → OnlySyncs (λ name. name ≡ file.now) (V.disk volume.old) (V.disk volume.new) }
    ensures clock { Ticked (V.clock volume.old) (V.clock volume.new) }
    ensures follows { V.follows volume.old volume.new }
    ensures cause { HasCause (V.faults volume.old) (V.faults volume.new) result }
{
    volume.sync(file)
}

#[cfg(test)]
mod tests {
    use super::*;
    use crate::mem_volume::MemVolume;
    use crate::pick::Pick;
    use std::test::Fail;

    #[test]
    fn what_was_synced_stays(rt: HostRuntime) -> Result<(), Fail> {
        let alloc = rt.alloc();
        let mut volume = MemVolume::new(alloc, Vec::new(alloc));
        write_synced(&mut volume, "a", 0, b"first")?;
        volume.write_at("a", 0, b"second")?;
        settle(&mut volume, "a")?;
        volume.stop_at(volume.calls(), Pick::Old);
        assert!(&rt; write_synced(&mut volume, "a", 0, b"third").is_err());
        assert!(&rt; volume.has_stopped());
        let mut image = volume.image(alloc)?;
        let mut bytes = [0; 8];
        let count = image.read_at("a", 0, &mut bytes)?;
        assert_eq!(&rt; &bytes[..count], b"second".as_slice());
        Ok(())
    }
}
