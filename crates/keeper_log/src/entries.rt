ghost use Rattle.std.specs.Prelude.{◌≡◌, ◌≤◌, ◌∷◌, ◌++◌, [], List, ℕ, length, map, All, IfOk, OnOk};
ghost use Rattle.pad_message.specs.declared.content.TheConstants.{LONGEST_CONTENT};
ghost use Rattle.keeper_entry.specs.Entry.{payload_of, IsEntry};
ghost use Rattle.keeper_channel.specs.Entries.{AreEntries};
ghost use Rattle.keeper_log.specs.Entries.{payload_in, IsShort};

use keeper_entry::{build_payload, payloads_hold_their_entries};
use keeper_table::Entry;
use log_format::{Payload, Payloads};
use netflux_codec::Id;
use std::alloc::{AllocError, Global};
use std::marker::Model;

/// Entries in order.
#[derive(Debug, Drop)]
pub struct Entries {
    entries: Vec<Entry>,
}

impl Model for Entries {
    ghost use Rattle.std.specs.Prelude.{List};
    ghost use Rattle.keeper_table.specs.declared.entry.Entry.{Entry};

    ghost Value = { List Entry };

    ghost view = { λ all. all.entries.items };
}

impl Entries {
    /// The entries of this vector, in its order. It only moves the vector.
    pub fn new(entries: Vec<Entry>) -> Entries
        ensures { result ≡ entries.items }
    {
        Entries { entries }
    }

    /// Lends the entries.
    pub fn as_slice(&self) -> &[Entry]
        ensures { result.now ≡ self.now }
    {
        self.entries.as_slice()
    }
}

/// The payloads of entries, in their order.
pub(crate) fn payloads_of(alloc: Global, entries: &Entries) -> Result<Payloads, AllocError>
    requires short { All IsShort entries.now }
    ensures payloads { IfOk result (λ payloads. payloads ≡ map payload_in entries.now) }
    ensures entries { IfOk result AreEntries }
{
    let all = entries.as_slice();
    let mut payloads = Vec::new(alloc);
    for place in 0..all.len() {
        push_payload(alloc, &mut payloads, &all[place])?;
    }
    Ok(Payloads::new(payloads))
}

/// Adds the payload of an entry to others.
fn push_payload(alloc: Global, payloads: &mut Vec<Payload>, entry: &Entry) -> Result<(), AllocError>
    requires short { IsShort entry.now }
    ensures payload { OnOk result (payloads.new.items ≡ payloads.old.items ++ payload_in entry.now ∷ []) }
    ensures entry { OnOk result (IsEntry (payload_in entry.now)) }
{
    let payload = entry_payload(alloc, entry.moment, &entry.sender, entry.content.as_str())?;
    payloads.push(payload)?;
    Ok(())
}

/// Adds an entry to others.
pub(crate) fn push_entry(entries: &mut Vec<Entry>, entry: Entry) -> Result<(), AllocError>
    ensures { OnOk result (entries.new.items ≡ entries.old.items ++ entry ∷ []) }
{
    entries.push(entry)?;
    Ok(())
}

/// The payload of one entry, as a list.
pub(crate) fn one_payload(
    alloc: Global,
    moment: u64,
    sender: &Id,
    content: &str,
) -> Result<Payloads, AllocError>
    requires short { length content.now ≤ LONGEST_CONTENT }
    ensures one { IfOk result (λ payloads. payloads ≡ payload_of moment sender.now content.now ∷ []) }
    ensures entries { IfOk result AreEntries }
{
    let payload = entry_payload(alloc, moment, sender, content)?;
    let mut payloads = Vec::new(alloc);
    payloads.push(payload)?;
    Ok(Payloads::new(payloads))
}

/// The payload of an entry.
fn entry_payload(
    alloc: Global,
    moment: u64,
    sender: &Id,
    content: &str,
) -> Result<Payload, AllocError>
    requires short { length content.now ≤ LONGEST_CONTENT }
    ensures payload { IfOk result (λ payload. payload ≡ payload_of moment sender.now content.now) }
    ensures entry { IfOk result IsEntry }
{
    payloads_hold_their_entries();
    build_payload(alloc, moment, sender.digits(), content)
}
