ghost use Rattle.std.specs.Prelude.{◌≡◌, ◌≢◌, IfNone, IfOk, IfSome};
ghost use Rattle.serde_json.specs.View.{view};
ghost use Rattle.hex.specs.Hex.{encode_lower};
ghost use Rattle.pad_text.specs.Digits.{IsDigits};
ghost use Rattle.pad_text.specs.declared.name.Name.{Name};
ghost use Rattle.pad_json.specs.Name.{IsName, name_data};

use pad_text::Name;
use serde_json::Value;
use std::alloc::{AllocError, Global};

/// The name that a value spells, a string of 64 lower-case hexadecimal digits. There is none where the value is no such string.
#[tactic(auto, using(crate::proofs::Names::names))]
pub fn name_from(value: &Value) -> Option<Name>
    ensures some { IfSome result (λ name. view value.now ≡ name_data name) }
    ensures typed { IfSome result IsName }
    ensures digits { IfSome result (λ name. IsDigits 64 (encode_lower name.0)) }
    ensures none { IfNone result ((name : Name) → IsName name → view value.now ≢ name_data name) }
{
    Name::from_hex(value.as_str()?)
}

/// The value that spells a name.
pub fn name_value(alloc: Global, name: &Name) -> Result<Value, AllocError>
    ensures value { IfOk result (λ value. view value ≡ name_data name.now) }
    ensures typed { IsName name.now }
{
    Ok(Value::String(name.hex(alloc)?))
}
