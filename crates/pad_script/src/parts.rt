//! What stands in the lines of both scripts.
ghost use Rattle.std.specs.Prelude.{◌≡◌, ◌≢◌, ◌↔◌, ℕ, ◌^◌, ◌<◌, ◌≤◌, List, ◌∷◌, ◌++◌, true, IfNone, IfOk, IfSome, IsTrue, MatchOption, decimal};
ghost use Rattle.hex.specs.Hex.{encode_lower};
ghost use Rattle.pad_text.specs.Text.{IsText, utf8};
ghost use Rattle.serde_json.specs.Data.{string};
ghost use Rattle.serde_json.specs.View.{view};
ghost use Rattle.pad_json.specs.Spells.{Spells};
ghost use Rattle.pad_patch.specs.declared.operation.Operation.{Operation};
ghost use Rattle.pad_script.specs.Inside.Words.{has_no_space};
ghost use Rattle.pad_script.specs.Parts.{DoesNothing, SpellsOperation, space, spaced};
ghost use Rattle.pad_script.specs.declared.session_act.TheConstants.{MOST_CLIENTS};

use crate::numbers::number_within;
use crate::session_act::MOST_CLIENTS;
use pad_json::read_plain;
use pad_patch::Operation;
use pad_text::Text;
use serde_json::Value;
use std::alloc::{AllocError, Global};

/// Whether a line does nothing.
pub(crate) fn does_nothing(line: &str) -> bool
    ensures { IsTrue result ↔ DoesNothing line.now }
{
    matches!(line.as_bytes(), [] | [b'#', ..])
}

/// What stands behind the front of a line.
pub(crate) fn behind<'a>(line: &'a str, front: &str) -> Option<&'a str>
    ensures { MatchOption result ((rest : List ℕ) → line.now ≢ front.now ++ rest) (λ rest. line.now ≡ front.now ++ rest.now) }
{
    line.strip_prefix(front)
}

/// What stands before the first space of a text, and what stands behind it.
pub(crate) fn split_space(text: &str) -> Option<(&str, &str)>
    ensures parts { IfSome result (λ parts. text.now ≡ parts.0.now ++ space ∷ parts.1.now) }
    ensures first { IfSome result (λ parts. (word rest : List ℕ) → has_no_space word ≡ true → text.now ≡ word ++ space ∷ rest
        → (parts.0.now ≡ word) × (parts.1.now ≡ rest)) }
    ensures none { IfNone result ((word rest : List ℕ) → has_no_space word ≡ true → text.now ≢ word ++ space ∷ rest) }
{
    text.split_once(' ')
}

/// The number that a text begins with, where it is in this range, and what stands behind the space after it.
pub(crate) fn number_before(text: &str, least: u32, most: u32) -> Option<(u32, &str)>
    ensures some { IfSome result (λ parts. (text.now ≡ decimal parts.0 ++ space ∷ parts.1.now) × (least ≤ parts.0) × (parts.0 ≤ most)) }
    ensures none { IfNone result ((number : ℕ) (rest : List ℕ) → least ≤ number → number ≤ most
        → text.now ≢ decimal number ++ space ∷ rest) }
{
    let Some((number, rest)) = split_space(text) else {
        return None;
    };
    match number_within(number, least, most) {
        Some(number) => Some((number, rest)),
        None => None,
    }
}

/// The number of a client that a text begins with, and what stands behind the space after it.
pub(crate) fn client_before(text: &str) -> Option<(u8, &str)>
    ensures some { IfSome result (λ parts. (text.now ≡ decimal parts.0 ++ space ∷ parts.1.now) × (parts.0 < MOST_CLIENTS)) }
    ensures none { IfNone result ((client : ℕ) (rest : List ℕ) → client < MOST_CLIENTS → text.now ≢ decimal client ++ space ∷ rest) }
{
    match number_before(text, 0, u32::from(MOST_CLIENTS) - 1) {
        Some((client, rest)) => Some((client as u8, rest)),
        None => None,
    }
}

/// `OFFSET REMOVE STRING`
pub(crate) fn operation_from(alloc: Global, text: &str) -> Result<Option<Operation>, AllocError>
    ensures { IfOk result (λ found. MatchOption found
        ((operation : Operation) → ¬ (SpellsOperation text.now operation))
        (λ operation. SpellsOperation text.now operation)) }
{
    let Some((offset, rest)) = number_before(text, 0, u32::MAX) else {
        return Ok(None);
    };
    let Some((remove, quoted)) = number_before(rest, 0, u32::MAX) else {
        return Ok(None);
    };
    match inserted_from(alloc, quoted)? {
        Some(insert) => Ok(Some(Operation {
            offset,
            remove,
            insert,
        })),
        None => Ok(None),
    }
}

/// The text that a JSON text spells, where its value is a string.
fn inserted_from(alloc: Global, quoted: &str) -> Result<Option<Text>, AllocError>
    ensures { IfOk result (λ found. MatchOption found
        ((units : List ℕ) → ¬ (Spells quoted.now (string (utf8 units))))
        (λ units. Spells quoted.now (string (utf8 units)) × IsText units)) }
{
    match read_plain(alloc, quoted)? {
        Some(value) => text_from(alloc, &value),
        None => Ok(None),
    }
}

/// The text that a value is, where it is a string.
fn text_from(alloc: Global, value: &Value) -> Result<Option<Text>, AllocError>
    ensures { IfOk result (λ found. MatchOption found
        ((units : List ℕ) → view value.now ≢ string (utf8 units))
        (λ units. (view value.now ≡ string (utf8 units)) × IsText units)) }
{
    let Value::String(text) = value else {
        return Ok(None);
    };
    Ok(Some(Text::from_str(alloc, text.as_str())?))
}
