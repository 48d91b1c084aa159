ghost use Rattle.std.specs.Prelude.{◌≡◌};

use netflux_codec::Digits;
use std::marker::Model;

/// The digits of a channel or of a connection's identity, as the key of an ordered map. Contracts see the digits.
#[derive(Clone, Copy, Debug, PartialEq, Eq, PartialOrd, Ord)]
pub(crate) struct Key {
    digits: [u8; 32],
}

impl Model for Key {
    ghost use Rattle.std.specs.Prelude.{ℕ, List};

    ghost Value = { List ℕ };

    ghost view = { λ it. it.digits };

    ghost inverse = { λ digits. record { digits = digits } };
}

impl Key {
    /// The key of these digits.
    pub(crate) fn of<K>(name: &Digits<K, 32>) -> Key
        ensures { result ≡ name.now }
    {
        let mut digits = [0; 32];
        digits.copy_from_slice(name.digits());
        Key { digits }
    }
}
