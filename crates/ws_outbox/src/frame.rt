ghost use Rattle.std.specs.Prelude.{◌≡◌};

use std::marker::Model;

/// Bytes that wait behind others.
#[derive(Drop)]
pub(crate) struct Frame {
    bytes: Vec<u8>,
}

impl Model for Frame {
    ghost use Rattle.std.specs.Prelude.{ℕ, List};

    ghost Value = { List ℕ };

    ghost view = { λ frame. frame.bytes.items };
}

impl Frame {
    /// These bytes.
    pub(crate) fn new(bytes: Vec<u8>) -> Frame
        ensures { result ≡ bytes.items }
    {
        Frame { bytes }
    }

    /// The bytes.
    pub(crate) fn into_bytes(self) -> Vec<u8>
        ensures { result.items ≡ self }
    {
        self.bytes
    }
}
