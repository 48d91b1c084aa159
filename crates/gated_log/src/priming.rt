ghost use Rattle.std.specs.Prelude.{◌≡◌, ◌≢◌, ◌+◌, ◌≤◌, List, ℕ, [], ◌∷◌, Bool, true, false, OnOk, IsOk, Some};
ghost use Rattle.pad_edge.specs.Count.{HasCause};
ghost use Rattle.disk_volume.specs.Disk.{reads};
ghost use Rattle.disk_volume.specs.Moments.{Grew, EachSince};
ghost use Rattle.log_format.specs.File.{opens, doubt_of};
ghost use Rattle.log_format.specs.Form.{magic_of};
ghost use Rattle.gated_log.specs.Holds.{Holds, IsShort, OpensWithin};
ghost use Rattle.gated_log.specs.Log.{HoldsFile};

use disk_volume::{Volume, write_synced};
use log_format::Form;
use pad_edge::Failed;

/// Makes a file that is too short for an entry that of a log without entries.
pub fn write_nine<V: Volume>(volume: &mut V, file: &str, form: Form) -> Result<(), Failed>
    requires { V.tells → IsShort file.now (V.disk volume.old) }
    ensures any_moment { V.tells → EachSince (V.disk volume.old) (V.disk volume.new) (λ image. opens (magic_of form) (image file.now) ≡ Some []) }
    ensures ok { V.tells → OnOk result (Holds (magic_of form) file.now 8 0 [] (V.disk volume.new)) }
    ensures files { V.tells → Grew (λ name. name ≡ file.now) (V.disk volume.old) (V.disk volume.new) }
    ensures clock { V.clock volume.new ≤ V.clock volume.old + 2 }
    ensures follows { V.follows volume.old volume.new }
    ensures cause { HasCause (V.faults volume.old) (V.faults volume.new) result }
{
    write_synced(volume, file, 0, &form.empty_log())
}

/// Closes the last gate of a log.
pub fn close_gate<V: Volume>(
    volume: &mut V,
    file: &str,
    form: Form,
    gate: u64,
) -> Result<(), Failed>
    requires { V.tells → (byte : ℕ) × (payloads : List (List ℕ)) × Holds (magic_of form) file.now gate byte payloads (V.disk volume.old) }
    ensures any_moment { V.tells → (byte : ℕ) (payloads : List (List ℕ)) → byte ≢ 0 → Holds (magic_of form) file.now gate byte payloads (V.disk volume.old)
        → EachSince (V.disk volume.old) (V.disk volume.new) (λ image. OpensWithin (magic_of form) payloads (doubt_of (reads (V.disk volume.old) file.now)) (image file.now)) }
    ensures ok { V.tells → (byte : ℕ) (payloads : List (List ℕ)) → Holds (magic_of form) file.now gate byte payloads (V.disk volume.old)
        → OnOk result (Holds (magic_of form) file.now gate 0 payloads (V.disk volume.new)) }
    ensures files { V.tells → Grew (λ name. name ≡ file.now) (V.disk volume.old) (V.disk volume.new) }
    ensures clock { V.clock volume.new ≤ V.clock volume.old + 2 }
    ensures follows { V.follows volume.old volume.new }
    ensures cause { HasCause (V.faults volume.old) (V.faults volume.new) result }
{
    write_synced(volume, file, gate, &[0])
}

/// Makes the last gate of a file a closed one. It makes no call where it is.
pub fn prime_file<V: Volume>(
    volume: &mut V,
    file: &str,
    form: Form,
    short: bool,
    gate: u64,
    byte: u8,
) -> Result<(), Failed>
    requires { V.tells → (payloads : List (List ℕ)) × HoldsFile form short file.now gate byte payloads (V.disk volume.old) }
    ensures any_moment { V.tells → (payloads : List (List ℕ)) → HoldsFile form short file.now gate byte payloads (V.disk volume.old)
        → EachSince (V.disk volume.old) (V.disk volume.new) (λ image. OpensWithin (magic_of form) payloads (doubt_of (reads (V.disk volume.old) file.now)) (image file.now)) }
    ensures ok { V.tells → (payloads : List (List ℕ)) → HoldsFile form short file.now gate byte payloads (V.disk volume.old)
        → OnOk result (HoldsFile form false file.now gate 0 payloads (V.disk volume.new)) }
    ensures files { V.tells → Grew (λ name. name ≡ file.now) (V.disk volume.old) (V.disk volume.new) }
    ensures idle { short ≡ false → byte ≡ 0 → (volume.new ≡ volume.old) × IsOk result }
    ensures clock { V.clock volume.new ≤ V.clock volume.old + 2 }
    ensures follows { V.follows volume.old volume.new }
    ensures cause { HasCause (V.faults volume.old) (V.faults volume.new) result }
{
    if short {
        return write_nine(volume, file, form);
    }
    if byte == 0 {
        return Ok(());
    }
    close_gate(volume, file, form, gate)
}
