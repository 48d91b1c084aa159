ghost use Rattle.std.specs.Prelude.{◌≡◌, false, Bool, None, Ok, IfOk, List, MatchOption, map};
ghost use Rattle.serde_json.specs.Data.{Data};
ghost use Rattle.serde_json.specs.View.{view};
ghost use Rattle.pad_text.specs.Plain.{plain};
ghost use Rattle.pad_json.specs.Data.{array_of};
ghost use Rattle.pad_json.specs.Spells.{Spells};

use pad_text::plain;
use serde_json::Value;
use std::alloc::{AllocError, Global};

/// The value of a plain JSON text. There is none where the text is not plain, which takes no memory, or no JSON text.
pub fn read_plain(alloc: Global, text: &str) -> Result<Option<Value>, AllocError>
    ensures found { IfOk result (λ found. MatchOption found ((value : Data) → ¬ (Spells text.now value)) (λ value. Spells text.now (view value))) }
    ensures not_plain { plain text.now ≡ false → result ≡ Ok None }
{
    if !plain(text) {
        return Ok(None);
    }
    match Value::from_str(alloc, text) {
        Ok(value) => Ok(Some(value)),
        Err(error) if error.is_memory() => Err(AllocError),
        Err(_) => Ok(None),
    }
}

/// The elements of a plain JSON text whose value is an array. There are none for every other text, and for one that is
/// not plain this takes no memory.
pub fn read_array(alloc: Global, text: &str) -> Result<Option<Vec<Value>>, AllocError>
    ensures found { IfOk result (λ found. MatchOption found ((elements : List Data) → ¬ (Spells text.now (array_of elements))) (λ elements. Spells text.now (array_of (map view elements.items)))) }
    ensures not_plain { plain text.now ≡ false → result ≡ Ok None }
{
    match read_plain(alloc, text)? {
        Some(Value::Array(elements)) => Ok(Some(elements)),
        _ => Ok(None),
    }
}
