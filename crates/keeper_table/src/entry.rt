ghost use Rattle.std.specs.Prelude.{◌≡◌, IfOk, MatchOption};
ghost use Rattle.keeper_entry.specs.Entry.{IsEntry};
ghost use Rattle.keeper_table.specs.Entry.{entry_in};

use keeper_entry::{content_of, moment_of, sender_of};
use netflux_codec::Id;
use pad_edge::Wire;
use std::alloc::{AllocError, Global};

/// An entry of a channel.
#[derive(Debug, Drop)]
pub struct Entry {
    /// Its index in the channel's list.
    pub index: u64,
    /// When it arrived, in seconds since 1970.
    pub moment: u64,
    /// Who sent it.
    pub sender: Id,
    /// What was sent.
    pub content: Wire,
}

/// The entry that a payload holds, with this index. There is none exactly if the payload holds no entry.
pub fn entry_of(alloc: Global, index: u64, payload: &[u8]) -> Result<Option<Entry>, AllocError>
    ensures { IfOk result (λ found. MatchOption found (IsEntry payload.now → ⊥)
        (λ entry. IsEntry payload.now × (entry ≡ entry_in index payload.now))) }
{
    let Some(content) = content_of(payload) else {
        return Ok(None);
    };
    let Some(sender) = sender_of(payload) else {
        return Ok(None);
    };
    let Some(sender) = Id::from_hex(sender) else {
        return Ok(None);
    };
    Ok(Some(Entry {
        index,
        moment: moment_of(payload),
        sender,
        content: Wire::new(String::from_str(alloc, content)?),
    }))
}
