//! The calls of `Patch` that count as steps.
ghost use Rattle.std.specs.Prelude.{◌≡◌, ◌+◌, ◌^◌, ◌<◌, length, IfOk};
ghost use Rattle.pad_text.specs.Hash.{document_hash};
ghost use Rattle.pad_patch.specs.Piece.{text_after};
ghost use Rattle.pad_patch.specs.Inverse.{inverse};
ghost use Rattle.pad_patch.specs.Misfit.{CanApply};

use crate::patch::Patch;
use crate::steps::Steps;
use crate::unit_store::UnitStore;
use pad_text::Name;
use std::alloc::{AllocError, Global};
use std::sync::ledger::Ledger;

impl Patch {
    /// `apply`, as one step. The step is counted where there is no memory, too.
    pub fn apply_counted<S: UnitStore, L: Ledger>(
        &self,
        alloc: Global,
        text: &S,
        steps: &mut Steps<L>,
    ) -> Result<S, AllocError>
        requires { CanApply self.now (S.units text.now) }
        ensures after { IfOk result (λ after. S.units after ≡ text_after self.now (S.units text.now)) }
        ensures counted { steps.new ≡ steps.old + 1 }
    {
        steps.tick();
        self.apply(alloc, text)
    }

    /// `invert`, as one step. The step is counted where there is no memory, too.
    pub fn invert_counted<S: UnitStore, L: Ledger>(
        &self,
        alloc: Global,
        text: &S,
        after: &Name,
        steps: &mut Steps<L>,
    ) -> Result<Patch, AllocError>
        requires can { CanApply self.now (S.units text.now) }
        requires small { length (S.units text.now) < 2 ^ 32 }
        requires small_after { length (text_after self.now (S.units text.now)) < 2 ^ 32 }
        requires hash { after.now ≡ document_hash (text_after self.now (S.units text.now)) }
        ensures inverse { IfOk result (λ patch. patch ≡ inverse self.now (S.units text.now)) }
        ensures undoes { IfOk result (λ patch. text_after patch (text_after self.now (S.units text.now)) ≡ S.units text.now) }
        ensures applies { IfOk result (λ patch. CanApply patch (text_after self.now (S.units text.now))) }
        ensures counted { steps.new ≡ steps.old + 1 }
    {
        steps.tick();
        self.invert(alloc, text, after)
    }
}

#[cfg(test)]
mod tests;
