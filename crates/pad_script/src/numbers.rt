//! Numbers: decimal digits without a sign, and without a zero in front of others.
ghost use Rattle.std.specs.Prelude.{◌≡◌, ◌≢◌, ◌↔◌, ℕ, ◌^◌, ◌<◌, ◌≤◌, IfNone, IfSome, IsTrue, decimal};
ghost use Rattle.pad_message.specs.Kind.{IsInterval};
ghost use Rattle.pad_script.specs.declared.session_act.TheConstants.{MOST_CLIENTS};
ghost use Rattle.pad_script.specs.Inside.Words.{BeginsAsNumber};

use crate::session_act::MOST_CLIENTS;
use pad_message::{LONGEST_INTERVAL, SHORTEST_INTERVAL};

/// The number of 32 bits that a text is.
pub(crate) fn number_from(text: &str) -> Option<u32>
    ensures some { IfSome result (λ number. (text.now ≡ decimal number) × (number < 2 ^ 32)) }
    ensures none { IfNone result ((number : ℕ) → number < 2 ^ 32 → text.now ≢ decimal number) }
{
    if !begins_as_number(text) {
        return None;
    }
    text.parse().ok()
}

/// Whether a text begins with no sign, and with a zero only where that is all of it.
fn begins_as_number(text: &str) -> bool
    ensures { IsTrue result ↔ BeginsAsNumber text.now }
{
    !matches!(text.as_bytes(), [b'+', ..] | [b'0', _, ..])
}

/// The number of 64 bits that a text is: decimal digits without a sign, and without a zero in front of others.
pub fn long_number(text: &str) -> Option<u64>
    ensures some { IfSome result (λ number. (text.now ≡ decimal number) × (number < 2 ^ 64)) }
    ensures none { IfNone result ((number : ℕ) → number < 2 ^ 64 → text.now ≢ decimal number) }
{
    if !begins_as_number(text) {
        return None;
    }
    text.parse().ok()
}

/// The number that a text is, where it is in this range: decimal digits without a sign, and without a zero in front of others.
pub fn number_within(text: &str, least: u32, most: u32) -> Option<u32>
    ensures some { IfSome result (λ number. (text.now ≡ decimal number) × (least ≤ number) × (number ≤ most)) }
    ensures none { IfNone result ((number : ℕ) → least ≤ number → number ≤ most → text.now ≢ decimal number) }
{
    let number = number_from(text)?;
    if number < least {
        return None;
    }
    if most < number {
        return None;
    }
    Some(number)
}

/// The number of a client.
pub(crate) fn client_from(text: &str) -> Option<u8>
    ensures some { IfSome result (λ client. (text.now ≡ decimal client) × (client < MOST_CLIENTS)) }
    ensures none { IfNone result ((client : ℕ) → client < MOST_CLIENTS → text.now ≢ decimal client) }
{
    match number_within(text, 0, u32::from(MOST_CLIENTS) - 1) {
        Some(client) => Some(client as u8),
        None => None,
    }
}

/// The interval of a checkpoint.
pub(crate) fn interval_from(text: &str) -> Option<u16>
    ensures some { IfSome result (λ messages. (text.now ≡ decimal messages) × IsInterval messages) }
    ensures none { IfNone result ((messages : ℕ) → IsInterval messages → text.now ≢ decimal messages) }
{
    match number_within(
        text,
        u32::from(SHORTEST_INTERVAL),
        u32::from(LONGEST_INTERVAL),
    ) {
        Some(messages) => Some(messages as u16),
        None => None,
    }
}

/// The number of a byte.
pub(crate) fn byte_from(text: &str) -> Option<u8>
    ensures some { IfSome result (λ byte. (text.now ≡ decimal byte) × (byte < 2 ^ 8)) }
    ensures none { IfNone result ((byte : ℕ) → byte < 2 ^ 8 → text.now ≢ decimal byte) }
{
    match number_within(text, 0, 255) {
        Some(byte) => Some(byte as u8),
        None => None,
    }
}
