ghost use Rattle.std.specs.Prelude.{◌≡◌, ◌+◌, ◌≤◌, ◌++◌, [], ◌∷◌, length, IfOk};
ghost use Rattle.log_format.specs.declared.layout.TheConstants.{ENTRY_HEAD};
ghost use Rattle.log_format.specs.Frame.{IsFrame};

use crate::layout::ENTRY_HEAD;
use crate::record::push_record;
use std::alloc::{AllocError, Global};
use std::marker::Model;

/// The most bytes that a payload in a frame may have.
pub const LONGEST_PAYLOAD: usize = 2_097_192;

/// The bytes that an append writes behind the last gate: the length of a payload, the payload, and a closed gate.
/// Contracts see the payload.
#[derive(Debug, Drop)]
pub struct Frame {
    bytes: Vec<u8>,
}

impl Model for Frame {
    ghost use Rattle.std.specs.Prelude.{◌≡◌, ◌≤◌, ◌-◌, ◌++◌, [], ◌∷◌, List, ℕ, length, take, drop};
    ghost use Rattle.log_format.specs.File.{record_of};
    ghost use Rattle.log_format.specs.Frame.{payload_of, IsFrame};

    ghost Value = { List ℕ };

    ghost view = { λ frame. payload_of frame.bytes.items };

    ghost invariant = { λ frame. IsFrame frame.bytes.items (payload_of frame.bytes.items) };
}

impl Frame {
    /// The frame of a payload of at most 2,097,192 bytes.
    pub fn build(alloc: Global, payload: &[u8]) -> Result<Frame, AllocError>
        requires { length payload.now ≤ LONGEST_PAYLOAD }
        ensures { IfOk result (λ frame. frame ≡ payload.now) }
    {
        let mut bytes = Vec::with_capacity(alloc, payload.len() + ENTRY_HEAD as usize)?;
        push_record(&mut bytes, payload, 0)?;
        Ok(Frame { bytes })
    }

    /// How many bytes the entry has in a file: five and the payload.
    pub fn size(&self) -> u64
        ensures { result ≡ ENTRY_HEAD + length self.now }
    {
        self.bytes.len() as u64
    }

    /// Lends the bytes.
    pub fn as_slice(&self) -> &[u8]
        ensures { IsFrame result.now self.now }
    {
        self.bytes.as_slice()
    }
}
