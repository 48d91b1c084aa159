//! Requests from the elements of their arrays.
ghost use Rattle.std.specs.Prelude.{◌≡◌, ◌≢◌, ℕ, ◌^◌, ◌<◌, List, ◌∷◌, map, IfErr, IfNone, IfOk, IfSome, MatchOption};
ghost use Rattle.serde_json.specs.Data.{Data};
ghost use Rattle.serde_json.specs.View.{view};
ghost use Rattle.pad_text.specs.Digits.{IsDigits};
ghost use Rattle.pad_json.specs.Data.{whole};
ghost use Rattle.netflux_codec.specs.declared.request.Request.{Request};
ghost use Rattle.netflux_codec.specs.Request.{AreElements, IsRequest, IsSeqOf, Requests, join_elements, leave_elements, msg_elements, ping_elements, reason_elements};

use crate::body::Body;
use crate::fields::{channel_from, is_string, wire_from};
use crate::request::Request;
use crate::request_refused::RequestRefused;
use pad_edge::Wire;
use pad_json::{number_from, read_array};
use serde_json::Value;
use std::alloc::{AllocError, Global};

/// The request that a text spells. Where it spells none, the number of the text.
pub fn read_request(alloc: Global, text: &str) -> Result<Request, RequestRefused>
    ensures ok { IfOk result (λ request. Requests text.now request) }
    ensures invalid { IfErr result (λ refused. (seq : ℕ) → refused ≡ RequestRefused.Invalid seq
        → (request : Request) → ¬ (Requests text.now request)) }
    ensures seq { IfErr result (λ refused. (seq : ℕ) → refused ≡ RequestRefused.Invalid seq
        → IsSeqOf text.now seq) }
{
    let Some(elements) = read_array(alloc, text)? else {
        return Err(RequestRefused::Invalid(0));
    };
    match request_from(alloc, elements.as_slice())? {
        Some(request) => Ok(request),
        None => Err(RequestRefused::Invalid(seq_of(elements.as_slice()))),
    }
}

/// The first element, where it is a number of 32 bits, and else 0.
fn seq_of(elements: &[Value]) -> u32
    ensures given { (n : ℕ) (rest : List Data) → n < 2 ^ 32 → map view elements.now ≡ whole n ∷ rest → result ≡ n }
    ensures absent { ((n : ℕ) (rest : List Data) → n < 2 ^ 32 → map view elements.now ≢ whole n ∷ rest) → result ≡ 0 }
{
    match elements.first() {
        Some(first) => number_from(first).unwrap_or(0),
        None => 0,
    }
}

/// The request of these elements.
fn request_from(alloc: Global, elements: &[Value]) -> Result<Option<Request>, AllocError>
    ensures { IfOk result (λ found. MatchOption found
        ((request : Request) → IsRequest request → ¬ (AreElements (map view elements.now) request.seq request.body))
        (λ request. AreElements (map view elements.now) request.seq request.body × IsRequest request)) }
{
    if let Some(request) = join_from(elements) {
        return Ok(Some(request));
    }
    if let Some(request) = leave_from(alloc, elements) {
        return Ok(Some(request));
    }
    if let Some(request) = reason_from(alloc, elements)? {
        return Ok(Some(request));
    }
    if let Some(request) = msg_from(alloc, elements)? {
        return Ok(Some(request));
    }
    if let Some(request) = ping_from(elements) {
        return Ok(Some(request));
    }
    Ok(None)
}

/// `[seq,"JOIN",chan]`
fn join_from(elements: &[Value]) -> Option<Request>
    ensures some { IfSome result (λ request. AreElements (map view elements.now) request.seq request.body × IsRequest request) }
    ensures none { IfNone result ((seq : ℕ) (channel : List ℕ) → seq < 2 ^ 32 → IsDigits 32 channel
        → map view elements.now ≢ join_elements seq channel) }
{
    let [seq, word, channel] = elements else {
        return None;
    };
    if !is_string(word, "JOIN") {
        return None;
    }
    match (number_from(seq), channel_from(channel)) {
        (Some(seq), Some(channel)) => Some(Request {
            seq,
            body: Body::Join(channel),
        }),
        _ => None,
    }
}

/// `[seq,"LEAVE",chan]`
fn leave_from(alloc: Global, elements: &[Value]) -> Option<Request>
    ensures some { IfSome result (λ request. AreElements (map view elements.now) request.seq request.body × IsRequest request) }
    ensures none { IfNone result ((seq : ℕ) (channel : List ℕ) → seq < 2 ^ 32 → IsDigits 32 channel
        → map view elements.now ≢ leave_elements seq channel) }
{
    let [seq, word, channel] = elements else {
        return None;
    };
    if !is_string(word, "LEAVE") {
        return None;
    }
    let reason = Wire::new(String::new(alloc));
    match (number_from(seq), channel_from(channel)) {
        (Some(seq), Some(channel)) => Some(Request {
            seq,
            body: Body::Leave(channel, reason),
        }),
        _ => None,
    }
}

/// `[seq,"LEAVE",chan,reason]`
fn reason_from(alloc: Global, elements: &[Value]) -> Result<Option<Request>, AllocError>
    ensures { IfOk result (λ found. MatchOption found
        ((seq : ℕ) (channel reason : List ℕ) → seq < 2 ^ 32 → IsDigits 32 channel
        → map view elements.now ≢ reason_elements seq channel reason)
        (λ request. AreElements (map view elements.now) request.seq request.body × IsRequest request)) }
{
    let [seq, word, channel, reason] = elements else {
        return Ok(None);
    };
    if !is_string(word, "LEAVE") {
        return Ok(None);
    }
    match (
        number_from(seq),
        channel_from(channel),
        wire_from(alloc, reason)?,
    ) {
        (Some(seq), Some(channel), Some(reason)) => Ok(Some(Request {
            seq,
            body: Body::Leave(channel, reason),
        })),
        _ => Ok(None),
    }
}

/// `[seq,"MSG",target,content]`
fn msg_from(alloc: Global, elements: &[Value]) -> Result<Option<Request>, AllocError>
    ensures { IfOk result (λ found. MatchOption found
        ((seq : ℕ) (target content : List ℕ) → seq < 2 ^ 32 → map view elements.now ≢ msg_elements seq target content)
        (λ request. AreElements (map view elements.now) request.seq request.body × IsRequest request)) }
{
    let [seq, word, target, content] = elements else {
        return Ok(None);
    };
    if !is_string(word, "MSG") {
        return Ok(None);
    }
    match (
        number_from(seq),
        wire_from(alloc, target)?,
        wire_from(alloc, content)?,
    ) {
        (Some(seq), Some(target), Some(content)) => Ok(Some(Request {
            seq,
            body: Body::Msg(target, content),
        })),
        _ => Ok(None),
    }
}

/// `[seq,"PING"]`
fn ping_from(elements: &[Value]) -> Option<Request>
    ensures some { IfSome result (λ request. AreElements (map view elements.now) request.seq request.body × IsRequest request) }
    ensures none { IfNone result ((seq : ℕ) → seq < 2 ^ 32 → map view elements.now ≢ ping_elements seq) }
{
    let [seq, word] = elements else {
        return None;
    };
    if !is_string(word, "PING") {
        return None;
    }
    match number_from(seq) {
        Some(seq) => Some(Request {
            seq,
            body: Body::Ping,
        }),
        None => None,
    }
}
