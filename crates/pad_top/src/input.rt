ghost use Rattle.std.specs.Prelude.{◌≡◌, ◌<◌, ◌≤◌, vec_len, Err, IfOk, IfErr, OnOk};
ghost use Rattle.std.specs.Io.KnownBytes.{IsAtEnd};
ghost use Rattle.pad_edge.specs.Count.{Rose};
ghost use Rattle.pad_top.specs.Input.{most_bytes};
ghost use Rattle.pad_top.specs.Inside.Told.{IsToldAs};
ghost use Rattle.pad_top.specs.Inside.Refusal.{IsReadRefusal};

use crate::refused::ReplayRefused;
use pad_edge::Source;
use std::alloc::Global;

/// The most bytes of input that a run takes.
const MOST_BYTES: usize = 1 << 28;

/// How many bytes one read asks for.
const PIECE: usize = 4096;

/// All bytes of a source.
pub(crate) fn read_all<I: Source>(alloc: Global, input: &mut I) -> Result<Vec<u8>, ReplayRefused>
    ensures whole { IfOk result (λ bytes. IsToldAs (I.left input.old) bytes.items) }
    ensures within { IfOk result (λ bytes. vec_len bytes ≤ most_bytes) }
    ensures ended { OnOk result (IsAtEnd (I.left input.new)) }
    ensures refused { IfErr result (IsReadRefusal (I.left input.old) (Rose (I.faults input.old) (I.faults input.new))) }
    ensures told { I.faults input.old < I.faults input.new → result ≡ Err ReplayRefused.ReadFault }
{
    let mut bytes = Vec::new(alloc);
    let mut buf = [0; PIECE];
    loop {
        let Ok(count) = input.read(&mut buf) else {
            return Err(ReplayRefused::ReadFault);
        };
        if count == 0 {
            return Ok(bytes);
        }
        if count > MOST_BYTES - bytes.len() {
            return Err(ReplayRefused::Limit);
        }
        bytes.extend_from_slice(&buf[..count])?;
    }
}
