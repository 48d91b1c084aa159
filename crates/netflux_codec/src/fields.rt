//! The elements of an array, one by one.
ghost use Rattle.std.specs.Prelude.{◌≡◌, ◌≢◌, ◌↔◌, ℕ, ◌^◌, ◌<◌, ◌≤◌, List, IfNone, IfOk, IfSome, IsTrue, MatchOption};
ghost use Rattle.serde_json.specs.Data.{string};
ghost use Rattle.serde_json.specs.View.{view};
ghost use Rattle.pad_text.specs.Digits.{IsDigits};
ghost use Rattle.pad_json.specs.Data.{whole};
ghost use Rattle.netflux_codec.specs.declared.reply.TheConstants.{MOST_ENTRIES};
ghost use Rattle.netflux_codec.specs.Who.{IsWho, who_digits};
ghost use Rattle.netflux_codec.specs.Word.{word_text};
ghost use Rattle.netflux_codec.specs.declared.who.Who.{Who};
ghost use Rattle.netflux_codec.specs.declared.word.Word.{Word};

use crate::digits::{Channel, Id, KeeperId};
use crate::reply::MOST_ENTRIES;
use crate::who::Who;
use crate::word::Word;
use pad_edge::Wire;
use pad_json::number_from;
use serde_json::Value;
use std::alloc::{AllocError, Global};

/// Whether an element is this string.
pub(crate) fn is_string(value: &Value, text: &str) -> bool
    ensures { IsTrue result ↔ (view value.now ≡ string text.now) }
{
    value.as_str() == Some(text)
}

/// Whether an element is the number 0.
pub(crate) fn is_zero(value: &Value) -> bool
    ensures { IsTrue result ↔ (view value.now ≡ whole 0) }
{
    value.as_u64() == Some(0)
}

/// A number of 64 bits.
pub(crate) fn moment_from(value: &Value) -> Option<u64>
    ensures some { IfSome result (λ moment. (view value.now ≡ whole moment) × (moment < 2 ^ 64)) }
    ensures none { IfNone result ((moment : ℕ) → moment < 2 ^ 64 → view value.now ≢ whole moment) }
{
    value.as_u64()
}

/// An index or a total.
pub(crate) fn count_from(value: &Value) -> Option<u32>
    ensures some { IfSome result (λ count. (view value.now ≡ whole count) × (count ≤ MOST_ENTRIES)) }
    ensures none { IfNone result ((count : ℕ) → count ≤ MOST_ENTRIES → view value.now ≢ whole count) }
{
    number_from(value).filter(|count| *count <= MOST_ENTRIES)
}

/// A channel.
pub(crate) fn channel_from(value: &Value) -> Option<Channel>
    ensures some { IfSome result (λ channel. (view value.now ≡ string channel) × IsDigits 32 channel) }
    ensures none { IfNone result ((channel : List ℕ) → IsDigits 32 channel → view value.now ≢ string channel) }
{
    Channel::from_hex(value.as_str()?)
}

/// The identity of a connection.
pub(crate) fn id_from(value: &Value) -> Option<Id>
    ensures some { IfSome result (λ id. (view value.now ≡ string id) × IsDigits 32 id) }
    ensures none { IfNone result ((id : List ℕ) → IsDigits 32 id → view value.now ≢ string id) }
{
    Id::from_hex(value.as_str()?)
}

/// The identity of the keeper.
pub(crate) fn keeper_from(value: &Value) -> Option<KeeperId>
    ensures some { IfSome result (λ keeper. (view value.now ≡ string keeper) × IsDigits 16 keeper) }
    ensures none { IfNone result ((keeper : List ℕ) → IsDigits 16 keeper → view value.now ≢ string keeper) }
{
    KeeperId::from_hex(value.as_str()?)
}

/// The identity of a connection or of the keeper.
pub(crate) fn who_from(value: &Value) -> Option<Who>
    ensures some { IfSome result (λ who. (view value.now ≡ string (who_digits who)) × IsWho who) }
    ensures none { IfNone result ((who : Who) → IsWho who → view value.now ≢ string (who_digits who)) }
{
    match id_from(value) {
        Some(id) => Some(Who::Member(id)),
        None => Some(Who::Keeper(keeper_from(value)?)),
    }
}

/// An error word.
pub(crate) fn word_from(value: &Value) -> Option<Word>
    ensures some { IfSome result (λ word. view value.now ≡ string (word_text word)) }
    ensures none { IfNone result ((word : Word) → view value.now ≢ string (word_text word)) }
{
    Word::from_text(value.as_str()?)
}

/// Any string.
pub(crate) fn wire_from(alloc: Global, value: &Value) -> Result<Option<Wire>, AllocError>
    ensures { IfOk result (λ found. MatchOption found ((text : List ℕ) → view value.now ≢ string text)
        (λ wire. view value.now ≡ string wire)) }
{
    let Some(text) = value.as_str() else {
        return Ok(None);
    };
    let text = String::from_str(alloc, text)?;
    Ok(Some(Wire::new(text)))
}
