ghost use Rattle.std.specs.Prelude.{◌≡◌, ℕ, ◌<◌, ◌↔◌, List, length, IfOk, IsTrue, OnOk, OnErr, slice_index};
ghost use Rattle.pad_text.specs.Text.{IsText, CutsPair};
ghost use Rattle.pad_text.specs.Hash.{document_hash};
ghost use Rattle.pad_patch.specs.UnitStore.{IsRange, between, replaced};

use pad_text::{Name, Text, is_first_of_pair, is_second_of_pair};
use std::alloc::{AllocError, Global};

/// A store of the units of one text. Contracts see the list of its UTF-16 units, however they are kept.
pub trait UnitStore: Sized + Drop {
    /// The units of the text.
    ghost units: { Self → List ℕ };

    /// A store of this text.
    fn from_text(alloc: Global, text: &Text) -> Result<Self, AllocError>
        ensures { IfOk result (λ store. units store ≡ text.now) };

    /// The length in units.
    fn length(&self) -> usize
        ensures { result ≡ length (units self.now) };

    /// The unit at a place.
    fn unit(&self, at: usize) -> u16
        requires { at < length (units self.now) }
        ensures { result ≡ slice_index (units self.now) at };

    /// The text from one place to another.
    fn read(&self, alloc: Global, from: usize, to: usize) -> Result<Text, AllocError>
        requires { IsRange (units self.now) from to }
        ensures { IfOk result (λ text. text ≡ between from to (units self.now)) };

    /// Puts a text in place of the units from one place to another. It is unchanged where there is no memory.
    fn replace(
        &mut self,
        alloc: Global,
        from: usize,
        to: usize,
        insert: &Text,
    ) -> Result<(), AllocError>
        requires { IsRange (units self.old) from to }
        ensures ok { OnOk result (units self.new ≡ replaced from to insert.now (units self.old)) }
        ensures err { OnErr result (units self.new ≡ units self.old) };

    /// Another store of the same text, which keeps it whatever is done to this one.
    fn copy(&self, alloc: Global) -> Result<Self, AllocError>
        ensures { IfOk result (λ copy. units copy ≡ units self.now) };

    /// The document hash of the text.
    fn hash(&self, alloc: Global) -> Result<Name, AllocError>
        ensures { IfOk result (λ name. name ≡ document_hash (units self.now)) };

    /// Keeps what helps a coming `hash`. It is the same text after it, whatever the answer. A store that keeps nothing has
    /// nothing to do.
    fn remember(&mut self, alloc: Global) -> Result<(), AllocError>
        ensures { units self.new ≡ units self.old };

    /// The units are those of a text.
    ghost is_text: { (store : Self) → IsText (units store) };
}

/// Whether a place of a store's text stands between the two units of a pair.
pub fn cuts_pair<S: UnitStore>(text: &S, at: usize) -> bool
    ensures { IsTrue result ↔ CutsPair (S.units text.now) at }
{
    0 < at
        && at < text.length()
        && is_first_of_pair(text.unit(at - 1))
        && is_second_of_pair(text.unit(at))
}
