//! Questions to the keeper from the elements of their arrays.
ghost use Rattle.std.specs.Prelude.{◌≡◌, ◌≢◌, List, ℕ, map, IfErr, IfNone, IfOk, IfSome};
ghost use Rattle.serde_json.specs.View.{view};
ghost use Rattle.pad_text.specs.declared.name.Name.{Name};
ghost use Rattle.netflux_codec.specs.declared.ask.Ask.{Ask};
ghost use Rattle.netflux_codec.specs.declared.since.Since.{Since};
ghost use Rattle.netflux_codec.specs.Ask.{Asks, HasSmallIndex, IsAsk, ask_elements};

use crate::ask::Ask;
use crate::ask_refused::AskRefused;
use crate::fields::{channel_from, count_from, is_string};
use crate::since::Since;
use pad_json::{name_from, read_array};
use serde_json::Value;
use std::alloc::Global;

/// The question that a content spells. It can be written again.
#[tactic(auto, using(crate::proofs::Spelled::small_index))]
pub fn read_ask(alloc: Global, content: &str) -> Result<Ask, AskRefused>
    ensures ok { IfOk result (λ ask. Asks content.now ask) }
    ensures small { IfOk result (λ ask. HasSmallIndex ask) }
    ensures invalid { IfErr result (λ refused. refused ≡ AskRefused.Invalid
        → (ask : Ask) → ¬ (Asks content.now ask)) }
{
    let Some(elements) = read_array(alloc, content)? else {
        return Err(AskRefused::Invalid);
    };
    match ask_from(elements.as_slice()) {
        Some(ask) => Ok(ask),
        None => Err(AskRefused::Invalid),
    }
}

/// The question of these elements.
fn ask_from(elements: &[Value]) -> Option<Ask>
    ensures some { IfSome result (λ ask. (map view elements.now ≡ ask_elements ask) × IsAsk ask) }
    ensures none { IfNone result ((ask : Ask) → IsAsk ask → map view elements.now ≢ ask_elements ask) }
{
    if let Some(ask) = default_from(elements) {
        return Some(ask);
    }
    if let Some(ask) = known_from(elements) {
        return Some(ask);
    }
    if let Some(ask) = all_from(elements) {
        return Some(ask);
    }
    if let Some(ask) = at_from(elements) {
        return Some(ask);
    }
    None
}

/// `["GET_HISTORY",chan]`
fn default_from(elements: &[Value]) -> Option<Ask>
    ensures some { IfSome result (λ ask. (map view elements.now ≡ ask_elements ask) × IsAsk ask) }
    ensures none { IfNone result ((channel : List ℕ) → IsAsk (Ask.History channel Since.Default)
        → map view elements.now ≢ ask_elements (Ask.History channel Since.Default)) }
{
    let [word, channel] = elements else {
        return None;
    };
    if !is_string(word, "GET_HISTORY") {
        return None;
    }
    match channel_from(channel) {
        Some(channel) => Some(Ask::History(channel, Since::Default)),
        None => None,
    }
}

/// `["GET_HISTORY",chan,name]`
fn known_from(elements: &[Value]) -> Option<Ask>
    ensures some { IfSome result (λ ask. (map view elements.now ≡ ask_elements ask) × IsAsk ask) }
    ensures none { IfNone result ((channel : List ℕ) (key : Name) → IsAsk (Ask.History channel (Since.Known key))
        → map view elements.now ≢ ask_elements (Ask.History channel (Since.Known key))) }
{
    let [word, channel, key] = elements else {
        return None;
    };
    if !is_string(word, "GET_HISTORY") {
        return None;
    }
    match (channel_from(channel), name_from(key)) {
        (Some(channel), Some(key)) => Some(Ask::History(channel, Since::Known(key))),
        _ => None,
    }
}

/// `["GET_FULL_HISTORY",chan]`
fn all_from(elements: &[Value]) -> Option<Ask>
    ensures some { IfSome result (λ ask. (map view elements.now ≡ ask_elements ask) × IsAsk ask) }
    ensures none { IfNone result ((channel : List ℕ) → IsAsk (Ask.History channel Since.All)
        → map view elements.now ≢ ask_elements (Ask.History channel Since.All)) }
{
    let [word, channel] = elements else {
        return None;
    };
    if !is_string(word, "GET_FULL_HISTORY") {
        return None;
    }
    match channel_from(channel) {
        Some(channel) => Some(Ask::History(channel, Since::All)),
        None => None,
    }
}

/// `["GET_HISTORY_AT",chan,index]`
fn at_from(elements: &[Value]) -> Option<Ask>
    ensures some { IfSome result (λ ask. (map view elements.now ≡ ask_elements ask) × IsAsk ask) }
    ensures none { IfNone result ((channel : List ℕ) (index : ℕ) → IsAsk (Ask.At channel index)
        → map view elements.now ≢ ask_elements (Ask.At channel index)) }
{
    let [word, channel, index] = elements else {
        return None;
    };
    if !is_string(word, "GET_HISTORY_AT") {
        return None;
    }
    match (channel_from(channel), count_from(index)) {
        (Some(channel), Some(index)) => Some(Ask::At(channel, index)),
        _ => None,
    }
}
