ghost use Rattle.std.specs.Prelude.{◌≡◌, ◌≢◌, ℕ, ◌^◌, ◌<◌, IfNone, IfSome};
ghost use Rattle.serde_json.specs.View.{view};
ghost use Rattle.pad_json.specs.Data.{whole};

use serde_json::Value;

/// The number of 32 bits that a value is. There is none where the value is no number, or a greater one.
pub fn number_from(value: &Value) -> Option<u32>
    ensures some { IfSome result (λ number. view value.now ≡ whole number) }
    ensures none { IfNone result ((number : ℕ) → number < 2 ^ 32 → view value.now ≢ whole number) }
{
    u32::try_from(value.as_u64()?).ok()
}
