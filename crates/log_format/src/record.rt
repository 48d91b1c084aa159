ghost use Rattle.std.specs.Prelude.{◌≡◌, ◌<◌, ◌^◌, ◌++◌, [], ◌∷◌, length, OnOk};
ghost use Rattle.log_format.specs.File.{record_of};

use std::alloc::AllocError;

/// Adds a payload's length and the payload to these bytes, and the gate to which they lead.
pub fn push_record(bytes: &mut Vec<u8>, payload: &[u8], gate: u8) -> Result<(), AllocError>
    requires { length payload.now < 2 ^ 32 }
    ensures { OnOk result (bytes.new.items ≡ bytes.old.items ++ (record_of payload.now ++ gate ∷ [])) }
{
    bytes.extend_from_slice(&(payload.len() as u32).to_be_bytes())?;
    bytes.extend_from_slice(payload)?;
    bytes.push(gate)?;
    Ok(())
}
