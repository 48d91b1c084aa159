ghost use Rattle.std.specs.Prelude.{◌≡◌, ◌+◌, ◌*◌, ◌<◌, ◌≤◌, ◌^◌, ◌++◌, [], ◌∷◌, List, ℕ, length, OnOk};
ghost use Rattle.log_format.specs.declared.form.TheConstants.{MOST_ENTRIES_TWO, MOST_BYTES_TWO};
ghost use Rattle.log_format.specs.declared.frame.TheConstants.{LONGEST_PAYLOAD};
ghost use Rattle.log_format.specs.declared.frames.TheConstants.{MOST_FRAMES};
ghost use Rattle.log_format.specs.Frames.{size_of};
ghost use Rattle.keeper_entry.specs.Entry.{IsEntry};
ghost use Rattle.keeper_entry.specs.Index.{IsIndex};
ghost use Rattle.keeper_channel.specs.Entries.{AreEntries};

use keeper_entry::{Index, content_of};
use log_format::Payloads;
use std::alloc::AllocError;

/// How many bytes these payloads have together.
pub fn bytes_of(entries: &Payloads) -> u64
    requires few { length entries.now ≤ MOST_FRAMES }
    requires entries { AreEntries entries.now }
    ensures { result ≡ size_of entries.now }
{
    let payloads = entries.as_slice();
    let mut bytes = 0;
    for place in 0..payloads.len() {
        bytes += payloads[place].as_slice().len() as u64;
    }
    bytes
}

/// Takes the entries of a group into an index. Where memory runs out, the index is of no use any more.
pub fn add_entries(index: &mut Index, entries: &Payloads) -> Result<(), AllocError>
    requires count { index.old.count ≤ MOST_ENTRIES_TWO }
    requires bytes { index.old.bytes ≤ MOST_BYTES_TWO }
    requires few { length entries.now ≤ MOST_FRAMES }
    requires entries { AreEntries entries.now }
    ensures count { OnOk result (index.new.count ≡ index.old.count + length entries.now) }
    ensures added { (payloads : List (List ℕ)) → IsIndex index.old payloads → OnOk result (IsIndex index.new (payloads ++ entries.now)) }
{
    let payloads = entries.as_slice();
    for place in 0..payloads.len() {
        add_entry(index, payloads[place].as_slice())?;
    }
    Ok(())
}

/// Takes the entry in a payload into an index.
fn add_entry(index: &mut Index, payload: &[u8]) -> Result<(), AllocError>
    requires entry { IsEntry payload.now }
    requires few { index.old.count < 2 ^ 63 }
    requires small { index.old.bytes < 2 ^ 63 }
    ensures count { OnOk result (index.new.count ≡ index.old.count + 1) }
    ensures bytes { OnOk result (index.new.bytes ≡ index.old.bytes + length payload.now) }
    ensures added { (payloads : List (List ℕ)) → IsIndex index.old payloads → OnOk result (IsIndex index.new (payloads ++ payload.now ∷ [])) }
{
    match content_of(payload) {
        Some(content) => index.add(content),
        // Never, since the payload holds an entry.
        None => Ok(()),
    }
}
