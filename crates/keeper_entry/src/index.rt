ghost use Rattle.std.specs.Prelude.{◌≡◌, ◌+◌, ◌≤◌, ◌<◌, ◌^◌, ◌++◌, [], ◌∷◌, List, ℕ, length, Option, Some, None, OnOk, if◌then◌else◌};
ghost use Rattle.std.specs.BTreeMap.{get};
ghost use Rattle.std.specs.Option.{option_or};
ghost use Rattle.std.specs.Str.{bytes_eq};
ghost use Rattle.pad_message.specs.declared.content.TheConstants.{LONGEST_CONTENT};
ghost use Rattle.pad_text.specs.declared.name.Name.{Name};
ghost use Rattle.keeper_entry.specs.Entry.{IsEntry, content_in};
ghost use Rattle.keeper_entry.specs.History.{first_from, default_start};
ghost use Rattle.keeper_entry.specs.Index.{IsIndex, key_cmp};

use crate::content::{is_checkpoint, key_of};
use crate::payload::BEFORE_CONTENT;
use pad_text::Name;
use std::alloc::{AllocError, Global};
use std::collections::BTreeMap;

/// What is known of a channel's entries without their contents.
#[derive(Debug, Drop)]
pub struct Index {
    /// Where each key stands first.
    first: BTreeMap<Name, u64>,
    /// Where a default history starts.
    start: u64,
    /// The last checkpoint.
    last: Option<u64>,
    /// How many entries there are.
    count: u64,
    /// How many bytes their payloads have together.
    bytes: u64,
}

impl Index {
    /// The index of no entries.
    pub fn new(alloc: Global) -> Index
        ensures index { IsIndex result [] }
        ensures count { result.count ≡ 0 }
        ensures bytes { result.bytes ≡ 0 }
    {
        Index {
            first: BTreeMap::new(alloc),
            start: 0,
            last: None,
            count: 0,
            bytes: 0,
        }
    }

    /// Takes in the content of one more entry. Where memory runs out, the index is of no use any more.
    pub fn add(&mut self, content: &str) -> Result<(), AllocError>
        requires few { self.old.count < 2 ^ 63 }
        requires small { self.old.bytes < 2 ^ 63 }
        requires short { length content.now ≤ LONGEST_CONTENT }
        ensures added { (payloads : List (List ℕ)) (payload : List ℕ) → IsIndex self.old payloads → IsEntry payload → content_in payload ≡ content.now
            → OnOk result (IsIndex self.new (payloads ++ payload ∷ [])) }
        ensures count { OnOk result (self.new.count ≡ self.old.count + 1) }
        ensures bytes { OnOk result (self.new.bytes ≡ self.old.bytes + BEFORE_CONTENT + length content.now) }
    {
        add_key(&mut self.first, key_of(content), self.count)?;
        if is_checkpoint(content) {
            self.start = self.last.unwrap_or(0);
            self.last = Some(self.count);
        }
        self.count += 1;
        self.bytes += (BEFORE_CONTENT + content.len()) as u64;
        Ok(())
    }

    /// The index of the first entry with this key.
    pub fn first(&self, key: &Name) -> Option<u64>
        ensures { (payloads : List (List ℕ)) → IsIndex self.now payloads → result ≡ first_from key.now 0 payloads }
    {
        self.first.get(key).copied()
    }

    /// Where a default history starts.
    pub fn start(&self) -> u64
        ensures { (payloads : List (List ℕ)) → IsIndex self.now payloads → result ≡ default_start payloads }
    {
        self.start
    }

    /// How many entries there are.
    pub fn count(&self) -> u64
        ensures { result ≡ self.now.count }
    {
        self.count
    }

    /// How many bytes their payloads have together.
    pub fn bytes(&self) -> u64
        ensures { result ≡ self.now.bytes }
    {
        self.bytes
    }
}

/// Notes where a key stands, unless it stands earlier.
fn add_key(first: &mut BTreeMap<Name, u64>, key: Name, index: u64) -> Result<(), AllocError>
    ensures { OnOk result ((other : Name) → get key_cmp first.new other ≡ option_or (get key_cmp first.old other) (if bytes_eq key.0 other.0 then Some index else None)) }
{
    if first.contains_key(&key) {
        return Ok(());
    }
    match first.insert(key, index) {
        Ok(_) => Ok(()),
        Err(_) => Err(AllocError),
    }
}
