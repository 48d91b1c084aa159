ghost use Rattle.std.specs.Prelude.{◌≡◌, ◌↔◌, ◌≤◌, length, IfOk, IfSome, IsSome, IsTrue};
ghost use Rattle.pad_message.specs.declared.content.TheConstants.{LONGEST_CONTENT};
ghost use Rattle.pad_text.specs.Digits.{IsDigits};
ghost use Rattle.keeper_entry.specs.Entry.{payload_of, moment_in, sender_in, content_in, IsEntry};

use log_format::{LONGEST_PAYLOAD, Payload};
use pad_text::is_lower_hex;
use std::alloc::{AllocError, Global};

/// How many bytes of a payload are its moment, in seconds since 1970, the greatest byte first.
pub const MOMENT_BYTES: usize = 8;

/// How many digits a sender has.
pub const SENDER_DIGITS: usize = 32;

/// How many bytes of a payload stand before the content.
pub const BEFORE_CONTENT: usize = 40;

/// The payload of an entry: the moment in seconds since 1970, the 32 digits of the sender, and a content of at most
/// 2,097,152 bytes.
pub fn build_payload(
    alloc: Global,
    moment: u64,
    sender: &[u8],
    content: &str,
) -> Result<Payload, AllocError>
    requires sender { IsDigits SENDER_DIGITS sender.now }
    requires short { length content.now ≤ LONGEST_CONTENT }
    ensures { IfOk result (λ payload. payload ≡ payload_of moment sender.now content.now) }
{
    let mut bytes = Vec::with_capacity(alloc, content.len() + BEFORE_CONTENT)?;
    bytes.extend_from_slice(&moment.to_be_bytes())?;
    bytes.extend_from_slice(sender)?;
    bytes.extend_from_slice(content.as_bytes())?;
    Ok(Payload::new(bytes))
}

/// Lends the content of the entry that a payload holds. There is none exactly if the payload holds no entry.
pub fn content_of(payload: &[u8]) -> Option<&str>
    ensures found { IsSome result ↔ IsEntry payload.now }
    ensures value { IfSome result (λ content. content.now ≡ content_in payload.now) }
{
    if payload.len() < BEFORE_CONTENT || payload.len() > LONGEST_PAYLOAD {
        return None;
    }
    if !has_sender(payload) {
        return None;
    }
    match str::from_utf8(&payload[BEFORE_CONTENT..]) {
        Ok(content) => Some(content),
        Err(_) => None,
    }
}

/// Whether the bytes after the moment are the digits of a sender.
fn has_sender(payload: &[u8]) -> bool
    requires { BEFORE_CONTENT ≤ length payload.now }
    ensures { IsTrue result ↔ IsDigits SENDER_DIGITS (sender_in payload.now) }
{
    match sender_of(payload) {
        Some(sender) => is_lower_hex(sender, SENDER_DIGITS),
        None => false,
    }
}

/// Lends the bytes after the moment as text, if they are one.
pub fn sender_of(payload: &[u8]) -> Option<&str>
    requires { BEFORE_CONTENT ≤ length payload.now }
    ensures found { IsDigits SENDER_DIGITS (sender_in payload.now) → IsSome result }
    ensures value { IfSome result (λ sender. sender.now ≡ sender_in payload.now) }
{
    match str::from_utf8(&payload[MOMENT_BYTES..BEFORE_CONTENT]) {
        Ok(sender) => Some(sender),
        Err(_) => None,
    }
}

/// The moment in a payload.
pub fn moment_of(payload: &[u8]) -> u64
    requires { BEFORE_CONTENT ≤ length payload.now }
    ensures { result ≡ moment_in payload.now }
{
    match payload[..MOMENT_BYTES].try_into() {
        Ok(bytes) => u64::from_be_bytes(bytes),
        Err(_) => 0,
    }
}
