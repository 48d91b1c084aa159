ghost use Rattle.std.specs.Prelude.{◌≡◌, List, ℕ};

use crate::payload::Payload;
use std::marker::Model;

/// Payloads in order. Contracts see the list of their bytes.
#[derive(Debug, Drop)]
pub struct Payloads {
    payloads: Vec<Payload>,
}

impl Model for Payloads {
    ghost Value = { List (List ℕ) };

    ghost view = { λ all. all.payloads.items };
}

impl Payloads {
    /// The payloads of this vector, in its order. It only moves the vector.
    pub fn new(payloads: Vec<Payload>) -> Payloads
        ensures { result ≡ payloads.items }
    {
        Payloads { payloads }
    }

    /// Lends the payloads.
    pub fn as_slice(&self) -> &[Payload]
        ensures { result.now ≡ self.now }
    {
        self.payloads.as_slice()
    }
}
