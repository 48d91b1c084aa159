ghost use Rattle.std.specs.Prelude.{◌≡◌, ◌+◌, ◌-◌, ◌*◌, ◌<◌, ◌≤◌, ◌⊎◌, min, true, false, [], ◌++◌, List, ℕ, length, take, drop, slice_index, MatchOption, IfSome, None, IfErr, IfOk, IsErrOf};
ghost use Rattle.pad_edge.specs.Count.{Rose, HasCause};
ghost use Rattle.disk_volume.specs.Disk.{reads};
ghost use Rattle.log_format.specs.declared.form.TheConstants.{MOST_BYTES_TWO};
ghost use Rattle.log_format.specs.declared.layout.TheConstants.{MAGIC_SIZE, ENTRY_HEAD, EMPTY_LOG};
ghost use Rattle.log_format.specs.File.{is_entry, size_at};
ghost use Rattle.gated_log.specs.Refused.{MayRefuse};
ghost use Rattle.gated_log.specs.Inside.Walked.{IsInside, IsStep, IsAhead, IsGoing, IsLast};

use crate::extent::Extent;
use crate::gate::Gate;
use crate::piece::{PIECE, end_seen, read_piece};
use crate::refused::LoadRefused;
use crate::walk::{Step, Walk};
use disk_volume::Volume;
use log_format::{ENTRY_HEAD, MAGIC_SIZE};
use std::alloc::AllocError;

/// The length of the payload of the entry at a gate, where there is one: `gate` has the first five bytes from there on,
/// and `left` is how many the file has.
fn entry_size(gate: &[u8], left: u64) -> Option<u64>
    requires { length gate.now ≡ ENTRY_HEAD }
    ensures entry { (bytes : List ℕ) → gate.now ≡ take ENTRY_HEAD bytes → left ≡ length bytes
        → MatchOption result (is_entry bytes ≡ false) (λ size. (is_entry bytes ≡ true) × (size ≡ size_at bytes)) }
    ensures fits { IfSome result (λ size. size + (ENTRY_HEAD + 1) ≤ left) }
{
    let size = u64::from(u32::from_be_bytes([gate[1], gate[2], gate[3], gate[4]]));
    if gate[0] == 1 && size + ENTRY_HEAD + 1 <= left {
        Some(size)
    } else {
        None
    }
}

/// The same, where `shown` has the first five bytes at least, or there are no more than five.
fn shown_size(shown: &[u8], left: u64) -> Option<u64>
    requires { ENTRY_HEAD < left → ENTRY_HEAD ≤ length shown.now }
    ensures entry { (bytes : List ℕ) → shown.now ≡ take (length shown.now) bytes → left ≡ length bytes
        → MatchOption result (is_entry bytes ≡ false) (λ size. (is_entry bytes ≡ true) × (size ≡ size_at bytes)) }
    ensures fits { IfSome result (λ size. size + (ENTRY_HEAD + 1) ≤ left) }
{
    if left <= ENTRY_HEAD {
        return None;
    }
    entry_size(&shown[..ENTRY_HEAD as usize], left)
}

/// Goes on over the entries that a piece of the file shows, and adds them to the index, up to `most` in all. The piece
/// begins at the gate that the walk reached.
fn go_over(
    mut walk: Walk,
    piece: &[u8],
    most: usize,
    index: &mut Vec<Extent>,
) -> Result<Step, AllocError>
    requires inside { IsInside walk }
    requires some { 1 ≤ length piece.now }
    requires whole { (ENTRY_HEAD ≤ length piece.now) ⊎ (walk.end ≡ walk.gate + length piece.now) }
    ensures step { IfOk result (λ step. (bytes : List ℕ) → length bytes ≡ walk.end → piece.now ≡ take (length piece.now) (drop walk.gate bytes)
        → IsStep bytes walk most index.old.items index.new.items step) }
    ensures ahead { IfOk result (IsAhead walk (length piece.now)) }
{
    let from = walk.gate;
    let until = from + piece.len() as u64;
    while walk.gate < until {
        let at = (walk.gate - from) as usize;
        let left = walk.end - walk.gate;
        if index.len() < most && piece.len() - at < ENTRY_HEAD as usize && ENTRY_HEAD < left {
            return Ok(Step::On(walk));
        }
        let byte = piece[at];
        let last = Gate {
            place: walk.gate,
            byte,
        };
        if index.len() >= most {
            return Ok(Step::Last(last));
        }
        match shown_size(&piece[at..], left) {
            Some(size) => {
                index.push(Extent {
                    place: (walk.gate + ENTRY_HEAD) as u32,
                    size: size as u32,
                })?;
                walk.before = walk.gate;
                walk.gate += ENTRY_HEAD + size;
            }
            None => return Ok(Step::Last(last)),
        }
    }
    Ok(Step::On(walk))
}

/// What a piece of a file shows that was read from the gate on, into a buffer of this many bytes. Where it is shorter
/// than the buffer, the file ends there.
fn next_step(
    walk: Walk,
    piece: &[u8],
    buffer: usize,
    most: usize,
    index: &mut Vec<Extent>,
) -> Result<Step, AllocError>
    requires inside { IsInside walk }
    requires buffer { ENTRY_HEAD ≤ buffer }
    requires within { length piece.now ≤ min buffer (walk.end - walk.gate) }
    ensures step { IfOk result (λ step. (bytes : List ℕ) → length bytes ≡ walk.end → piece.now ≡ take (length piece.now) (drop walk.gate bytes)
        → length piece.now ≡ min buffer (walk.end - walk.gate) → IsStep bytes walk most index.old.items index.new.items step) }
    ensures ahead { IfOk result (IsAhead walk buffer) }
{
    if piece.is_empty() {
        // The file ends in front of this gate, so what led to it is no entry.
        index.pop();
        return Ok(Step::Last(Gate {
            place: walk.before,
            byte: 1,
        }));
    }
    let end = end_seen(walk.gate, piece.len(), buffer, walk.end);
    go_over(Walk { end, ..walk }, piece, most, index)
}

/// Goes on by a piece of the file.
fn go_on<V: Volume>(
    volume: &mut V,
    file: &str,
    walk: Walk,
    most: usize,
    piece: &mut [u8],
    index: &mut Vec<Extent>,
) -> Result<Step, LoadRefused>
    requires inside { IsInside walk }
    requires buffer { ENTRY_HEAD ≤ length piece.old }
    requires told { V.tells → walk.end ≤ length (reads (V.disk volume.old) file.now) }
    ensures step { V.tells → IfOk result (IsStep (take walk.end (reads (V.disk volume.old) file.now)) walk most index.old.items index.new.items) }
    ensures ahead { IfOk result (IsAhead walk (length piece.old)) }
    ensures refused { IfErr result (MayRefuse None) }
    ensures disk { V.tells → V.disk volume.new ≡ V.disk volume.old }
    ensures clock { V.clock volume.new ≤ V.clock volume.old + 1 }
    ensures follows { V.follows volume.old volume.new }
    ensures store { IsErrOf result LoadRefused.Store → Rose (V.faults volume.old) (V.faults volume.new) }
    ensures kept { IsErrOf result LoadRefused.Store ⊎ (V.faults volume.new ≡ V.faults volume.old) }
    ensures later { V.faults volume.old ≤ V.faults volume.new }
{
    let buffer = piece.len();
    let count = read_piece(volume, file, walk.gate, walk.end, piece)?;
    Ok(next_step(walk, &piece[..count], buffer, most, index)?)
}

/// Goes on to the last gate, or to `most` entries. The buffer takes a piece of the file at a time.
fn go_through<V: Volume>(
    volume: &mut V,
    file: &str,
    mut walk: Walk,
    most: usize,
    piece: &mut [u8],
    index: &mut Vec<Extent>,
) -> Result<Gate, LoadRefused>
    requires inside { IsInside walk }
    requires buffer { length piece.old ≡ PIECE }
    requires told { V.tells → walk.end ≤ length (reads (V.disk volume.old) file.now) }
    ensures last { V.tells → (end : ℕ) → IsGoing (take end (reads (V.disk volume.old) file.now)) end walk index.old.items
        → IfOk result (IsLast (take end (reads (V.disk volume.old) file.now)) most index.new.items) }
    ensures refused { IfErr result (MayRefuse None) }
    ensures disk { V.tells → V.disk volume.new ≡ V.disk volume.old }
    ensures clock { (calls : ℕ) × (V.clock volume.new ≤ V.clock volume.old + 1 + calls) × (walk.gate + (PIECE - 4) * calls ≤ walk.end) }
    ensures follows { V.follows volume.old volume.new }
    ensures store { IsErrOf result LoadRefused.Store → Rose (V.faults volume.old) (V.faults volume.new) }
    ensures kept { IsErrOf result LoadRefused.Store ⊎ (V.faults volume.new ≡ V.faults volume.old) }
    ensures later { V.faults volume.old ≤ V.faults volume.new }
{
    loop {
        match go_on(volume, file, walk, most, piece, index)? {
            Step::On(next) => walk = next,
            Step::Last(gate) => return Ok(gate),
        }
    }
}

/// Walks from the first gate of a file of this size to its last gate, or over `most` entries, and makes their index.
/// The buffer has the first `count` bytes of the file, and takes a piece of it at a time.
pub fn find_gate<V: Volume>(
    volume: &mut V,
    file: &str,
    size: u64,
    count: usize,
    most: usize,
    piece: &mut [u8],
    index: &mut Vec<Extent>,
) -> Result<Gate, LoadRefused>
    requires some { EMPTY_LOG < count }
    requires within { count ≤ min PIECE size }
    requires small { size ≤ MOST_BYTES_TWO }
    requires buffer { length piece.old ≡ PIECE }
    requires fresh { index.old.items ≡ [] }
    requires told { V.tells → size ≡ length (reads (V.disk volume.old) file.now) }
    ensures last { V.tells → count ≡ min PIECE size → take count piece.old ≡ take count (reads (V.disk volume.old) file.now)
        → IfOk result (IsLast (reads (V.disk volume.old) file.now) most index.new.items) }
    ensures refused { IfErr result (MayRefuse None) }
    ensures disk { V.tells → V.disk volume.new ≡ V.disk volume.old }
    ensures clock { (calls : ℕ) × (V.clock volume.new ≤ V.clock volume.old + calls) × ((PIECE - 4) * calls ≤ size) }
    ensures follows { V.follows volume.old volume.new }
    ensures store { IsErrOf result LoadRefused.Store → Rose (V.faults volume.old) (V.faults volume.new) }
    ensures kept { IsErrOf result LoadRefused.Store ⊎ (V.faults volume.new ≡ V.faults volume.old) }
    ensures later { V.faults volume.old ≤ V.faults volume.new }
{
    let walk = Walk {
        before: MAGIC_SIZE as u64,
        gate: MAGIC_SIZE as u64,
        end: size,
    };
    let buffer = piece.len() - MAGIC_SIZE;
    match next_step(walk, &piece[MAGIC_SIZE..count], buffer, most, index)? {
        Step::On(next) => go_through(volume, file, next, most, piece, index),
        Step::Last(gate) => Ok(gate),
    }
}
