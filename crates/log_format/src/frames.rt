ghost use Rattle.std.specs.Prelude.{◌≡◌, ◌+◌, ◌*◌, ◌≤◌, length, IfOk};
ghost use Rattle.log_format.specs.declared.layout.TheConstants.{ENTRY_HEAD};
ghost use Rattle.log_format.specs.Frames.{AreFew, IsGroup, sizes_of, size_of};

use crate::payloads::Payloads;
use crate::record::push_record;
use std::alloc::{AllocError, Global};
use std::marker::Model;

/// The most payloads in one group.
pub const MOST_FRAMES: usize = 64;

/// The bytes that an append of several payloads under one gate writes behind the last gate: the entries of all of them,
/// without the first one's gate, and a closed gate. Contracts see the list of payloads.
#[derive(Debug, Drop)]
pub struct Frames {
    bytes: Vec<u8>,
    /// How many bytes each payload has.
    sizes: Vec<u32>,
}

impl Model for Frames {
    ghost use Rattle.std.specs.Prelude.{◌≡◌, List, ℕ};
    ghost use Rattle.log_format.specs.Frames.{payloads_behind, IsGroup, sizes_of};

    ghost Value = { List (List ℕ) };

    ghost view = { λ frames. payloads_behind frames.bytes.items };

    ghost invariant = { λ frames. IsGroup frames.bytes.items (payloads_behind frames.bytes.items)
        × (frames.sizes.items ≡ sizes_of (payloads_behind frames.bytes.items)) };
}

impl Frames {
    /// The frames of 1 to 64 payloads of at most 2,097,192 bytes each, to be appended under one gate.
    pub fn build(alloc: Global, payloads: &Payloads) -> Result<Frames, AllocError>
        requires { AreFew payloads.now }
        ensures { IfOk result (λ frames. frames ≡ payloads.now) }
    {
        let all = payloads.as_slice();
        let mut bytes = Vec::new(alloc);
        let mut sizes = Vec::with_capacity(alloc, all.len())?;
        let mut at = 0;
        while at < all.len() {
            let payload = all[at].as_slice();
            push_record(&mut bytes, payload, 1)?;
            sizes.push(payload.len() as u32)?;
            at += 1;
        }
        // The last gate of a file is closed.
        bytes.pop();
        bytes.push(0)?;
        Ok(Frames { bytes, sizes })
    }

    /// How many bytes the entries have in a file: five and the payload each.
    pub fn size(&self) -> u64
        ensures { result ≡ ENTRY_HEAD * length self.now + size_of self.now }
    {
        self.bytes.len() as u64
    }

    /// Lends the bytes.
    pub fn as_slice(&self) -> &[u8]
        ensures { IsGroup result.now self.now }
    {
        self.bytes.as_slice()
    }

    /// Lends the lengths of the payloads in bytes.
    pub fn sizes(&self) -> &[u32]
        ensures { result.now ≡ sizes_of self.now }
    {
        self.sizes.as_slice()
    }
}
