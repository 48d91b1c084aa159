ghost use Rattle.std.specs.Prelude.{◌≡◌, ◌⊎◌, ◌+◌, ◌-◌, ◌*◌, ◌≤◌, ◌++◌, [], ◌∷◌, List, ℕ, length, take, Bool, false, MatchResult, MatchOption, IfOk, OnOk, IfErr, IsErrOf, Some, vec_len};
ghost use Rattle.std.specs.Str.{bytes_eq};
ghost use Rattle.pad_edge.specs.Count.{Rose};
ghost use Rattle.disk_volume.specs.Disk.{Disk, file_at, at_rest, reads, AtRest, IsImage};
ghost use Rattle.disk_volume.specs.Moments.{EachSince, Grew, OnlySyncs};
ghost use Rattle.log_format.specs.declared.layout.TheConstants.{MAGIC_SIZE, EMPTY_LOG};
ghost use Rattle.log_format.specs.Damages.{damage_of};
ghost use Rattle.log_format.specs.Form.{magic_of, most_entries_of, most_bytes_of};
ghost use Rattle.gated_log.specs.declared.extent.Extent.{Extent};
ghost use Rattle.gated_log.specs.Inside.Found.{IsFound};
ghost use Rattle.gated_log.specs.Refused.{MayRefuse};
ghost use Rattle.gated_log.specs.Inside.Walked.{IsLast};

use crate::extent::Extent;
use crate::gate::Gate;
use crate::piece::{PIECE, read_piece};
use crate::refused::LoadRefused;
use crate::walking::find_gate;
use disk_volume::{Volume, settle};
use log_format::{Damage, EMPTY_LOG, Form, MAGIC_SIZE};

/// What a load finds in a file.
#[derive(Clone, Copy, Debug)]
pub struct Found {
    /// The file has at most nine bytes, and not those of a log without entries.
    pub short: bool,
    /// The last gate.
    pub gate: Gate,
}

/// What is found in a file of at most nine bytes.
fn found_short(form: Form, bytes: &[u8]) -> Found
    requires { length bytes.now ≤ EMPTY_LOG }
    ensures { (name : List ℕ) (disk : Disk) → file_at disk name ≡ at_rest bytes.now → IsFound form name disk [] result }
{
    Found {
        short: bytes != form.empty_log().as_slice(),
        gate: Gate {
            place: MAGIC_SIZE as u64,
            byte: 0,
        },
    }
}

/// What is found in a longer file with this last gate, and this many entries in front of it.
fn found_gate(form: Form, gate: Gate, count: u64) -> Result<Found, Damage>
    ensures found { (name bytes : List ℕ) (disk : Disk) (index : List Extent) → count ≡ length index → file_at disk name ≡ at_rest bytes
        → length bytes ≤ most_bytes_of form → take MAGIC_SIZE bytes ≡ magic_of form → IsLast bytes (most_entries_of form + 1) index gate
        → MatchResult result (IsFound form name disk index) (λ damage. damage_of form bytes ≡ Some damage) }
    ensures few { OnOk result (count ≤ most_entries_of form) }
{
    if count > form.most_entries() {
        return Err(Damage::Many);
    }
    Ok(Found { short: false, gate })
}

/// The damage of a file that begins with these eight bytes, where they are not the magic.
fn magic_damage(form: Form, head: &[u8]) -> Option<Damage>
    requires { length head.now ≡ MAGIC_SIZE }
    ensures { MatchOption result (head.now ≡ magic_of form) (λ damage. (damage ≡ Damage.Magic head.now) × (bytes_eq head.now (magic_of form) ≡ false)) }
{
    if head == form.magic().as_slice() {
        return None;
    }
    Some(Damage::Magic([
        head[0], head[1], head[2], head[3], head[4], head[5], head[6], head[7],
    ]))
}

/// Finds the last gate of a file of this length on which nothing is pending, and makes its index. It only reads.
pub fn find_log<V: Volume>(
    volume: &mut V,
    file: &str,
    form: Form,
    size: u64,
    piece: &mut [u8],
    index: &mut Vec<Extent>,
) -> Result<Found, LoadRefused>
    requires small { size ≤ most_bytes_of form }
    requires buffer { length piece.old ≡ PIECE }
    requires fresh { index.old.items ≡ [] }
    requires told { V.tells → AtRest (V.disk volume.old) file.now × (size ≡ length (reads (V.disk volume.old) file.now)) }
    ensures found { V.tells → IfOk result (IsFound form file.now (V.disk volume.old) index.new.items) }
    ensures few { OnOk result (vec_len index.new ≤ most_entries_of form) }
    ensures damaged { V.tells → IfErr result (MayRefuse (damage_of form (reads (V.disk volume.old) file.now))) }
    ensures disk { V.tells → V.disk volume.new ≡ V.disk volume.old }
    ensures clock { (calls : ℕ) × (V.clock volume.new ≤ V.clock volume.old + 1 + calls) × ((PIECE - 4) * calls ≤ size) }
    ensures follows { V.follows volume.old volume.new }
    ensures store { IsErrOf result LoadRefused.Store → Rose (V.faults volume.old) (V.faults volume.new) }
    ensures kept { IsErrOf result LoadRefused.Store ⊎ (V.faults volume.new ≡ V.faults volume.old) }
    ensures later { V.faults volume.old ≤ V.faults volume.new }
{
    let count = read_piece(volume, file, 0, size, piece)?;
    if count <= EMPTY_LOG {
        return Ok(found_short(form, &piece[..count]));
    }
    if let Some(damage) = magic_damage(form, &piece[..MAGIC_SIZE]) {
        return Err(LoadRefused::Damaged(damage));
    }
    let most = form.most_entries() as usize + 1;
    let gate = find_gate(volume, file, size, count, most, piece, index)?;
    Ok(found_gate(form, gate, index.len() as u64)?)
}

/// Finds the last gate of a file on which nothing is pending, and makes its index. It only reads.
fn find_at_rest<V: Volume>(
    volume: &mut V,
    file: &str,
    form: Form,
    piece: &mut [u8],
    index: &mut Vec<Extent>,
) -> Result<Found, LoadRefused>
    requires buffer { length piece.old ≡ PIECE }
    requires fresh { index.old.items ≡ [] }
    requires told { V.tells → AtRest (V.disk volume.old) file.now }
    ensures found { V.tells → IfOk result (IsFound form file.now (V.disk volume.old) index.new.items) }
    ensures few { OnOk result (vec_len index.new ≤ most_entries_of form) }
    ensures damaged { V.tells → IfErr result (MayRefuse (damage_of form (reads (V.disk volume.old) file.now))) }
    ensures disk { V.tells → V.disk volume.new ≡ V.disk volume.old }
    ensures clock { (size : ℕ) × (calls : ℕ) × (V.clock volume.new ≤ V.clock volume.old + 2 + calls) × ((PIECE - 4) * calls ≤ size)
        × (size ≤ most_bytes_of form) × (V.tells → size ≤ length (reads (V.disk volume.old) file.now)) }
    ensures follows { V.follows volume.old volume.new }
    ensures store { IsErrOf result LoadRefused.Store → Rose (V.faults volume.old) (V.faults volume.new) }
    ensures kept { IsErrOf result LoadRefused.Store ⊎ (V.faults volume.new ≡ V.faults volume.old) }
    ensures later { V.faults volume.old ≤ V.faults volume.new }
{
    let size = volume.length(file)?;
    if size > form.most_bytes() {
        return Err(LoadRefused::Damaged(Damage::Long(size)));
    }
    find_log(volume, file, form, size, piece, index)
}

/// Puts a file on the disk, finds its last gate, and makes its index. It writes nothing.
pub fn find_settled<V: Volume>(
    volume: &mut V,
    file: &str,
    form: Form,
    piece: &mut [u8],
    index: &mut Vec<Extent>,
) -> Result<Found, LoadRefused>
    requires buffer { length piece.old ≡ PIECE }
    requires fresh { index.old.items ≡ [] }
    ensures found { V.tells → IfOk result (IsFound form file.now (V.disk volume.new) index.new.items) }
    ensures few { OnOk result (vec_len index.new ≤ most_entries_of form) }
    ensures damaged { V.tells → IfErr result (MayRefuse (damage_of form (reads (V.disk volume.old) file.now))) }
    ensures any_moment { V.tells → EachSince (V.disk volume.old) (V.disk volume.new) (IsImage (V.disk volume.old)) }
    ensures reads { V.tells → (name : List ℕ) → reads (V.disk volume.new) name ≡ reads (V.disk volume.old) name }
    ensures files { V.tells → Grew (λ name. name ≡ file.now) (V.disk volume.old) (V.disk volume.new) }
    ensures syncs { V.tells → OnlySyncs (λ name. name ≡ file.now) (V.disk volume.old) (V.disk volume.new) }
    ensures clock { (size : ℕ) × (calls : ℕ) × (V.clock volume.new ≤ V.clock volume.old + 3 + calls) × ((PIECE - 4) * calls ≤ size)
        × (size ≤ most_bytes_of form) × (V.tells → size ≤ length (reads (V.disk volume.old) file.now)) }
    ensures follows { V.follows volume.old volume.new }
    ensures store { IsErrOf result LoadRefused.Store → Rose (V.faults volume.old) (V.faults volume.new) }
    ensures kept { IsErrOf result LoadRefused.Store ⊎ (V.faults volume.new ≡ V.faults volume.old) }
    ensures later { V.faults volume.old ≤ V.faults volume.new }
{
    settle(volume, file)?;
    find_at_rest(volume, file, form, piece, index)
}
