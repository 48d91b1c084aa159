ghost use Rattle.std.specs.Prelude.{◌≡◌, ◌↔◌, ◌*◌, length, IfOk, IsSome, IfSome, string_bytes};
ghost use Rattle.sha2.specs.Sha256.{sha256};
ghost use Rattle.hex.specs.Hex.{encode_lower};
ghost use Rattle.pad_text.specs.Digits.{IsDigits};

use crate::digits::is_lower_hex;
use hex::FromHex;
use sha2::{Digest, Sha256};
use std::alloc::{AllocError, Global};

/// A SHA-256 digest (FIPS 180-4, section 6.2), ordered by its bytes, which is the order of its digits as text.
#[derive(Clone, Copy, Debug, PartialEq, Eq, PartialOrd, Ord, Hash)]
pub struct Name(pub [u8; 32]);

impl Name {
    /// The name of the base: all zeros.
    pub const BASE: Name = Name([0; 32]);

    /// The SHA-256 of these bytes.
    pub fn of_bytes(bytes: &[u8]) -> Name
        ensures { result.0 ≡ sha256 bytes.now }
    {
        Name(Sha256::digest(bytes))
    }

    /// The name in 64 lower-case hexadecimal digits.
    pub fn hex(&self, alloc: Global) -> Result<String, AllocError>
        ensures text { IfOk result (λ text. string_bytes text ≡ encode_lower self.now.0) }
        ensures digits { IsDigits 64 (encode_lower self.now.0) }
    {
        digits_of(alloc, self.0.as_slice())
    }

    /// The name that 64 lower-case hexadecimal digits spell. There is none where the text is not so many of them.
    pub fn from_hex(text: &str) -> Option<Name>
        ensures found { IsSome result ↔ IsDigits 64 text.now }
        ensures value { IfSome result (λ name. encode_lower name.0 ≡ text.now) }
    {
        if !is_lower_hex(text, 64) {
            return None;
        }
        let bytes = <[u8; 32] as FromHex>::from_hex(text).ok()?;
        Some(Name(bytes))
    }
}

/// Bytes in lower-case hexadecimal digits, two for each.
fn digits_of(alloc: Global, bytes: &[u8]) -> Result<String, AllocError>
    ensures text { IfOk result (λ text. string_bytes text ≡ encode_lower bytes.now) }
    ensures digits { IsDigits (2 * length bytes.now) (encode_lower bytes.now) }
{
    hex::encode(alloc, bytes)
}
