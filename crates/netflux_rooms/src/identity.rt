ghost use Rattle.std.specs.Prelude.{◌≡◌, ◌*◌, ◌+◌, ◌++◌, ◌<◌, ◌^◌, IfOk, length, string_bytes};
ghost use Rattle.std.specs.Int.{w32, w64, to_be_bytes};
ghost use Rattle.hex.specs.Hex.{encode_lower};
ghost use Rattle.pad_text.specs.Digits.{IsDigits};
ghost use Rattle.netflux_rooms.specs.Identity.{two_words, identity, keeper_identity};

use netflux_codec::{Id, KeeperId};
use rand_chacha::ChaCha20Rng;
use rand_core::SeedableRng;
use rand_core::utils::NextWord;
use std::alloc::{AllocError, Global};

/// Two words of a stream of ChaCha20 from a place on, as bytes, the greatest first.
fn words(key: [u8; 32], stream: u64, place: u128) -> [u8; 8]
    requires { place + 1 < 2 ^ 68 }
    ensures { result ≡ two_words key stream place }
{
    let mut words = ChaCha20Rng::from_seed(key);
    words.set_stream(stream);
    words.set_word_pos(place);
    let [a, b, c, d] = words.next_word().to_be_bytes();
    let [e, f, g, h] = words.next_word().to_be_bytes();
    [a, b, c, d, e, f, g, h]
}

/// Bytes in lower-case hexadecimal digits, two for each.
fn digits_of(alloc: Global, bytes: &[u8]) -> Result<String, AllocError>
    ensures text { IfOk result (λ text. string_bytes text ≡ encode_lower bytes.now) }
    ensures digits { IsDigits (2 * length bytes.now) (encode_lower bytes.now) }
{
    hex::encode(alloc, bytes)
}

/// The identity of the keeper.
#[tactic(auto, unfolding(crate::specs::Identity::keeper_identity))]
pub(crate) fn of_keeper(alloc: Global, key: [u8; 32], stream: u64) -> Result<KeeperId, AllocError>
    ensures { IfOk result (λ id. id ≡ keeper_identity key stream) }
{
    let bytes = words(key, stream, 0);
    let text = digits_of(alloc, bytes.as_slice())?;
    match KeeperId::from_hex(text.as_str()) {
        Some(id) => Ok(id),
        None => unreachable!(),
    }
}

/// The identity of the connection of a serial number.
#[tactic(auto, unfolding(crate::specs::Identity::identity))]
pub(crate) fn of_connection(
    alloc: Global,
    key: [u8; 32],
    stream: u64,
    serial: u64,
) -> Result<Id, AllocError>
    ensures { IfOk result (λ id. id ≡ identity key stream serial) }
{
    let words = words(key, stream, 2 * u128::from(serial));
    let mut bytes = Vec::new(alloc);
    bytes.extend_from_slice(&serial.to_be_bytes())?;
    bytes.extend_from_slice(&words)?;
    let text = digits_of(alloc, bytes.as_slice())?;
    match Id::from_hex(text.as_str()) {
        Some(id) => Ok(id),
        None => unreachable!(),
    }
}
