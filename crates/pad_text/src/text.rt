ghost use Rattle.std.specs.Prelude.{◌≡◌, ℕ, ◌-◌, ◌<◌, ◌≤◌, ◌↔◌, List, length, take, drop, IfOk, IsSome, IfSome, IsTrue, slice_index, string_bytes};
ghost use Rattle.pad_text.specs.Text.{IsText, CutsPair, units_of, utf8};
ghost use Rattle.pad_text.specs.Hash.{document_hash};

use crate::name::Name;
use crate::pair::{is_first_of_pair, is_second_of_pair};
use crate::utf8::feed_utf8;
use crate::wellformed::is_text;
use sha2::{Digest, Sha256};
use std::alloc::{AllocError, Global};
use std::marker::Model;

/// A text. Contracts see the list of its UTF-16 units.
#[derive(Debug, Drop)]
pub struct Text {
    units: Vec<u16>,
}

impl Model for Text {
    ghost use Rattle.std.specs.Prelude.{ℕ, List};
    ghost use Rattle.pad_text.specs.Text.{IsText};

    ghost Value = { List ℕ };

    ghost view = { λ text. text.units.items };

    ghost invariant = { λ text. IsText text.units.items };
}

impl Text {
    /// The text of these units. It only moves the vector.
    pub fn from_units(units: Vec<u16>) -> Text
        requires { IsText units.items }
        ensures { result ≡ units.items }
    {
        Text { units }
    }

    /// The text of these units. There is none if some surrogate stands without its partner. It takes no memory.
    pub fn try_from_units(units: Vec<u16>) -> Option<Text>
        ensures found { IsSome result ↔ IsText units.items }
        ensures value { IfSome result (λ text. text ≡ units.items) }
    {
        if is_text(units.as_slice()) {
            Some(Text { units })
        } else {
            None
        }
    }

    /// The units of a string.
    pub fn from_str(alloc: Global, s: &str) -> Result<Text, AllocError>
        ensures { IfOk result (λ text. text ≡ units_of s.now) }
    {
        let mut units = Vec::new(alloc);
        for c in s.chars() {
            let mut room = [0; 2];
            units.extend_from_slice(c.encode_utf16(&mut room))?;
        }
        Ok(Text { units })
    }

    /// Lends the units.
    pub fn as_units(&self) -> &[u16]
        ensures units { result.now ≡ self.now }
        ensures text { IsText self.now }
    {
        self.units.as_slice()
    }

    /// The units, as the vector that holds them. It only moves the vector.
    pub fn into_units(self) -> Vec<u16>
        ensures units { result.items ≡ self }
        ensures text { IsText self }
    {
        self.units
    }

    /// The text as a string, in UTF-8.
    pub fn to_string(&self, alloc: Global) -> Result<String, AllocError>
        ensures string { IfOk result (λ string. string_bytes string ≡ utf8 self.now) }
        ensures text { IsText self.now }
    {
        String::from_utf16_lossy(alloc, self.units.as_slice())
    }

    /// The length in units.
    pub fn len(&self) -> usize
        ensures { result ≡ length self.now }
    {
        self.units.len()
    }

    /// The unit at a place.
    pub fn unit(&self, at: usize) -> u16
        requires { at < length self.now }
        ensures { result ≡ slice_index self.now at }
    {
        self.units[at]
    }

    /// Whether a place stands between the two units of a pair.
    pub fn cuts_pair(&self, at: usize) -> bool
        ensures { IsTrue result ↔ CutsPair self.now at }
    {
        0 < at
            && at < self.units.len()
            && is_first_of_pair(self.units[at - 1])
            && is_second_of_pair(self.units[at])
    }

    /// The text of the units from one place up to another, neither of which cuts a pair.
    pub fn slice(&self, alloc: Global, from: usize, to: usize) -> Result<Text, AllocError>
        requires in_order { from ≤ to }
        requires within { to ≤ length self.now }
        requires start { ¬ (CutsPair self.now from) }
        requires end { ¬ (CutsPair self.now to) }
        ensures { IfOk result (λ text. text ≡ take (to - from) (drop from self.now)) }
    {
        let units = self.units[from..to].to_vec(alloc)?;
        Ok(Text { units })
    }

    /// Another text of the same units.
    pub fn copy(&self, alloc: Global) -> Result<Text, AllocError>
        ensures { IfOk result (λ copy. copy ≡ self.now) }
    {
        let units = self.units.as_slice().to_vec(alloc)?;
        Ok(Text { units })
    }

    /// The document hash: the SHA-256 of the text in UTF-8.
    pub fn hash(&self, alloc: Global) -> Result<Name, AllocError>
        ensures { IfOk result (λ name. name ≡ document_hash self.now) }
    {
        let mut hasher = Sha256::new();
        feed_utf8(alloc, self.units.as_slice(), &mut hasher)?;
        Ok(Name(hasher.finalize()))
    }
}
