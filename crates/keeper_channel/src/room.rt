ghost use Rattle.std.specs.Prelude.{◌≡◌, ◌≤◌, ◌&&◌, true, List, ℕ, IsTrue};
ghost use Rattle.log_format.specs.declared.form.TheConstants.{MOST_ENTRIES_TWO, MOST_BYTES_TWO};
ghost use Rattle.keeper_entry.specs.Index.{IsIndex};
ghost use Rattle.keeper_channel.specs.Chan.{channel_room};
ghost use Rattle.keeper_channel.specs.Logs.{IsLogsOf, log_room};

use crate::logs::Logs;
use crate::slot::Slot;
use gated_log::Ledger;
use keeper_entry::Index;
use log_format::{EMPTY_LOG, ENTRY_HEAD, MOST_BYTES_TWO, MOST_ENTRIES_TWO};

/// Whether so many entries more, with so many bytes of payload together, fit behind a channel's list, by its index. It is the same
/// before the channel is moved and after.
pub fn has_room(index: &Index, entries: u64, bytes: u64) -> bool
    ensures room { (payloads : List (List ℕ)) → IsIndex index.now payloads → result ≡ channel_room payloads entries bytes }
    ensures small { IsTrue result → (index.now.count ≤ MOST_ENTRIES_TWO) × (index.now.bytes ≤ MOST_BYTES_TWO) }
{
    let count = index.count();
    let size = index.bytes();
    if count > MOST_ENTRIES_TWO || entries > MOST_ENTRIES_TWO {
        return false;
    }
    if size > MOST_BYTES_TWO || bytes > MOST_BYTES_TWO {
        return false;
    }
    let all = count + 1 + entries;
    all <= MOST_ENTRIES_TWO && EMPTY_LOG as u64 + ENTRY_HEAD * all + size + bytes <= MOST_BYTES_TWO
}

/// Whether so many entries more, with so many bytes of payload together, fit behind a loaded channel's list: by its index, and by its
/// log where it was moved. Over a volume that tells, the two are one. They may differ where its files changed since it was loaded.
pub fn slot_has_room<O: Ledger, G: Ledger>(slot: &Slot<O, G>, entries: u64, bytes: u64) -> bool
    requires live { IsLogsOf (λ log. IsTrue (O.live log)) (λ log. IsTrue (G.live log)) slot.now.logs }
    ensures room { (payloads : List (List ℕ)) → IsIndex slot.now.index payloads → result ≡ (channel_room payloads entries bytes && log_room G.room slot.now.logs entries bytes) }
    ensures index { (payloads : List (List ℕ)) → IsIndex slot.now.index payloads → IsTrue result → channel_room payloads entries bytes ≡ true }
    ensures small { IsTrue result → (slot.now.index.count ≤ MOST_ENTRIES_TWO) × (slot.now.index.bytes ≤ MOST_BYTES_TWO) }
{
    has_room(&slot.index, entries, bytes) && log_has_room(&slot.logs, entries, bytes)
}

/// Whether the log of form Two has room for them, where it is the channel's.
fn log_has_room<O: Ledger, G: Ledger>(logs: &Logs<O, G>, entries: u64, bytes: u64) -> bool
    requires live { IsLogsOf (λ log. IsTrue (O.live log)) (λ log. IsTrue (G.live log)) logs.now }
    ensures { result ≡ log_room G.room logs.now entries bytes }
{
    match logs {
        Logs::Unmoved { one: _, two: _ } => true,
        Logs::Moved { log, marker: _ } => log.room(entries, bytes),
    }
}
