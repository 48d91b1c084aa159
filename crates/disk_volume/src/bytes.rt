// Changes to the bytes of a file in memory.
ghost use Rattle.std.specs.Prelude.{◌≡◌, ◌+◌, ◌≤◌, [], ◌∷◌, length, take, drop, OnOk, OnErr};
ghost use Rattle.disk_volume.specs.Disk.{put};
ghost use Rattle.disk_volume.specs.Pick.{torn};

use std::alloc::AllocError;

/// Writes these bytes over those from an offset on, and past the end. An offset past the end counts as the end.
pub fn overwrite(bytes: &mut Vec<u8>, at: usize, piece: &[u8]) -> Result<(), AllocError>
    ensures ok { OnOk result (bytes.new.items ≡ put bytes.old.items at piece.now) }
    ensures err { OnErr result (bytes.new.items ≡ bytes.old.items) }
{
    let from = at.min(bytes.len());
    let over = piece.len().min(bytes.len() - from);
    bytes.extend_from_slice(&piece[over..])?;
    bytes[from..from + over].copy_from_slice(&piece[..over]);
    Ok(())
}

/// Puts one byte all over a range, as far as the file goes.
pub fn fill_range(bytes: &mut Vec<u8>, at: usize, size: usize, byte: u8)
    ensures { bytes.new.items ≡ torn ((at, at + size) ∷ []) byte bytes.old.items }
{
    let from = at.min(bytes.len());
    let over = size.min(bytes.len() - from);
    bytes[from..from + over].fill(byte);
}

/// Copies the bytes from an offset on into a buffer, as many as it takes, and answers how many that is.
pub fn copy_from(bytes: &[u8], at: usize, buf: &mut [u8]) -> usize
    ensures within { result ≤ length buf.new }
    ensures copied { take result buf.new ≡ take (length buf.old) (drop at bytes.now) }
{
    let from = at.min(bytes.len());
    let count = buf.len().min(bytes.len() - from);
    buf[..count].copy_from_slice(&bytes[from..from + count]);
    count
}
