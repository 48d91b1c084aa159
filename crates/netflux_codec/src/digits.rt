ghost use Rattle.std.specs.Prelude.{◌≡◌, ◌↔◌, IfSome, IsSome};
ghost use Rattle.std.specs.List.{AllPass};
ghost use Rattle.pad_text.specs.Digits.{IsDigits, is_lower_digit};

use pad_text::is_lower_hex;
use std::marker::{Model, PhantomData};

/// The name of a channel: 32 digits.
pub type Channel = Digits<OfChannel, 32>;

/// The identity of a connection: 32 digits.
pub type Id = Digits<OfConnection, 32>;

/// The identity of the history keeper: 16 digits.
pub type KeeperId = Digits<OfKeeper, 16>;

/// Says of digits that they name a channel.
#[derive(Clone, Copy, Debug, PartialEq, Eq, PartialOrd, Ord, Hash)]
pub struct OfChannel;

/// Says of digits that they name a connection.
#[derive(Clone, Copy, Debug, PartialEq, Eq, PartialOrd, Ord, Hash)]
pub struct OfConnection;

/// Says of digits that they name the history keeper.
#[derive(Clone, Copy, Debug, PartialEq, Eq, PartialOrd, Ord, Hash)]
pub struct OfKeeper;

/// `N` lower-case hexadecimal digits that name what `K` says. Contracts see the digits as ASCII.
#[derive(Clone, Copy, Debug, PartialEq, Eq, PartialOrd, Ord, Hash)]
pub struct Digits<K, const N: usize> {
    digits: [u8; N],
    of: PhantomData<K>,
}

impl<K, const N: usize> Model for Digits<K, N> {
    ghost use Rattle.std.specs.Prelude.{ℕ, List};
    ghost use Rattle.pad_text.specs.Digits.{IsDigits};

    ghost Value = { List ℕ };

    ghost view = { λ it. it.digits };

    ghost inverse = { λ digits. record { digits = digits; of = record {} } };

    ghost invariant = { λ it. IsDigits N it.digits };
}

impl<K, const N: usize> Digits<K, N> {
    /// What these digits name. There is nothing if the text is not `N` lower-case hexadecimal digits.
    pub fn from_hex(text: &str) -> Option<Digits<K, N>>
        ensures found { IsSome result ↔ IsDigits N text.now }
        ensures value { IfSome result (λ it. it ≡ text.now) }
    {
        if !is_lower_hex(text, N) {
            return None;
        }
        let digits: [u8; N] = text.as_bytes().try_into().ok()?;
        Some(Digits {
            digits,
            of: PhantomData,
        })
    }

    /// Lends the digits as ASCII.
    pub fn digits(&self) -> &[u8]
        ensures value { result.now ≡ self.now }
        ensures are { IsDigits N self.now }
    {
        self.digits.as_slice()
    }

    /// Lends the digits as a string.
    pub fn as_str(&self) -> &str
        ensures value { result.now ≡ self.now }
        ensures are { IsDigits N self.now }
    {
        text_of(self.digits())
    }
}

/// Digits as a string.
fn text_of(digits: &[u8]) -> &str
    requires { AllPass is_lower_digit digits.now }
    ensures { result.now ≡ digits.now }
{
    match str::from_utf8(digits) {
        Ok(text) => text,
        Err(_) => "",
    }
}
