ghost use Rattle.std.specs.Prelude.{◌≡◌, ◌+◌, ◌-◌, ◌<◌, ◌≤◌, min, length, take, drop, IfOk, vec_len};
ghost use Rattle.pad_edge.specs.Count.{HasCause};
ghost use Rattle.disk_volume.specs.Disk.{reads};

use disk_volume::Volume;
use pad_edge::Failed;
use std::alloc::{AllocError, Global};

/// How many bytes of a file are read at once.
pub const PIECE: usize = 65_536;

/// A buffer for a piece of a file.
pub fn new_piece(alloc: Global) -> Result<Vec<u8>, AllocError>
    ensures { IfOk result (λ piece. vec_len piece ≡ PIECE) }
{
    vec![in alloc; 0; PIECE]
}

/// Reads a piece of a file from a place on into the front of a buffer, up to where the file ends. It answers how many
/// bytes came.
pub fn read_piece<V: Volume>(
    volume: &mut V,
    file: &str,
    from: u64,
    end: u64,
    piece: &mut [u8],
) -> Result<usize, Failed>
    requires within { from ≤ end }
    requires told { V.tells → end ≤ length (reads (V.disk volume.old) file.now) }
    ensures bytes { V.tells → IfOk result (λ count. (count ≡ min (length piece.old) (end - from))
        × (take count piece.new ≡ take count (drop from (take end (reads (V.disk volume.old) file.now))))) }
    ensures within { IfOk result (λ count. count ≤ min (length piece.old) (end - from)) }
    ensures disk { V.tells → V.disk volume.new ≡ V.disk volume.old }
    ensures clock { V.clock volume.new ≤ V.clock volume.old + 1 }
    ensures follows { V.follows volume.old volume.new }
    ensures cause { HasCause (V.faults volume.old) (V.faults volume.new) result }
{
    let asked = (piece.len() as u64).min(end - from) as usize;
    volume.read_at(file, from, &mut piece[..asked])
}

/// Where a file ends that has at most `end` bytes, by a read from a place on which gave so many bytes: there, where they
/// do not fill the buffer.
pub fn end_seen(from: u64, count: usize, buffer: usize, end: u64) -> u64
    requires { from + count ≤ end }
    ensures whole { count ≡ min buffer (end - from) → result ≡ end }
    ensures within { result ≤ end }
    ensures given { from + count ≤ result }
    ensures short { count < buffer → result ≡ from + count }
{
    if count < buffer {
        from + count as u64
    } else {
        end
    }
}
