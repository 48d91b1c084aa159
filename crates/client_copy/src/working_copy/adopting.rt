//! A checkpoint is adopted as the base.

ghost use Rattle.std.specs.Prelude.{◌≡◌, ◌↔◌, [], ◌∷◌, false, List, IfOk, OnErr, IsTrue, IsFalse};
ghost use Rattle.pad_text.specs.Hash.{document_hash};
ghost use Rattle.pad_message.specs.Kind.{HasInterval};
ghost use Rattle.pad_model.specs.declared.base.Base.{Base};
ghost use Rattle.pad_model.specs.Base.{first_base, Gives};
ghost use Rattle.pad_model.specs.Choice.{first_choice};
ghost use Rattle.pad_stroke.specs.Work.{moved_to};
ghost use Rattle.pad_chain.specs.Tie.{StandsFor};
ghost use Rattle.pad_chain.specs.Knows.{Knows};
ghost use Rattle.client_copy.specs.State.{Copy};
ghost use Rattle.client_copy.specs.Adopt.{Adopts, MayAdopt};
ghost use Rattle.client_copy.specs.View.{NoClash, StandsAs};

use crate::carrying::has_text;
use crate::working_copy::WorkingCopy;
use pad_chain::{AdoptRefused, Chain};
use pad_message::Message;
use pad_patch::UnitStore;
use pad_row::pairs::{moved_typed, moved_whole};
use pad_text::Name;
use std::alloc::{AllocError, Global};

/// Whether these are of a working copy to which nothing came.
fn is_begun(repaired: bool, base: &Name, known: u64, length: usize) -> bool
    ensures { IsTrue result ↔ ((repaired ≡ false) × (base.now ≡ first_base.name) × (known ≡ 0) × (length ≡ 0)) }
{
    !repaired && *base == Name::BASE && known == 0 && length == 0
}

impl<S: UnitStore> WorkingCopy<S> {
    /// Whether a checkpoint may be adopted: no message is known, the base is the first one, and no repair has ended. The text is
    /// empty then.
    pub fn may_adopt(&self) -> bool
        ensures is { IsTrue result ↔ ((self.now.pad.repaired ≡ false) × (self.now.pad.base ≡ first_base.name) × (self.now.pad.chain.graph.known ≡ 0) × (self.now.pad.chain.branch.branch.units ≡ [])) }
        ensures may { (copy : Copy) → StandsAs self.now copy → NoClash copy.pad.all → IsTrue result ↔ MayAdopt copy.pad }
    {
        let known = self.chain.known();
        let text = self.chain.text();
        is_begun(self.repaired, &self.base, known, text.length())
    }

    /// Takes the message for the base, if it can be one. The work keeps its insertions. True if it was adopted. If memory runs out,
    /// nothing is changed.
    pub fn adopt(&mut self, alloc: Global, message: &Message) -> Result<bool, AllocError>
        requires interval { HasInterval message.now.kind }
        requires empty { self.old.pad.chain.branch.branch.units ≡ [] }
        ensures adopts { IfOk result (λ adopted. IsTrue adopted → (copy : Copy) → StandsAs self.old copy → NoClash (message.now ∷ copy.pad.all)
            → (after : Copy) × Adopts copy message.now after × StandsAs self.new after) }
        ensures refuses { IfOk result (λ adopted. IsFalse adopted → (self.new ≡ self.old) × ((base : Base) → ¬ (Gives message.now base))) }
        ensures unchanged { OnErr result (self.new ≡ self.old) }

        // Whatever the names are.
        ensures begins { IfOk result (λ adopted. IsTrue adopted → (base : Base) → Gives message.now base → StandsFor self.new.pad.chain base [] first_choice × Knows self.new.pad.chain base []
            × (self.new.pad.base ≡ base.name) × (self.new.work ≡ moved_to self.old.work (document_hash base.text))) }
        ensures rest { self.new ≡ record self.old { pad = self.new.pad; work = self.new.work } }
    {
        moved_whole();
        moved_typed();
        let chain = match Chain::adopt(alloc, message) {
            Ok(chain) => chain,
            Err(AdoptRefused::NotACheckpoint) => return Ok(false),
            Err(AdoptRefused::NoMemory(error)) => return Err(error),
        };
        has_text(&chain);
        self.base = chain.best().name;
        self.repaired = false;
        self.work.move_to(chain.hash());
        self.chain = chain;
        Ok(true)
    }
}
