//! The working copy: a chain, unsent work, and the works that were sent.

ghost use Rattle.std.specs.Prelude.{◌≡◌, ◌<◌, ◌^◌, ◌-◌, [], length, IfOk, IfErr, OnOk, OnErr};
ghost use Rattle.pad_patch.specs.Piece.{text_after};
ghost use Rattle.pad_model.specs.Base.{first_base};
ghost use Rattle.pad_stroke.specs.Edit.{IsCause, shown_after};
ghost use Rattle.pad_chain.specs.Knows.{Knows};
ghost use Rattle.client_copy.specs.State.{Copy, new_copy};
ghost use Rattle.client_copy.specs.Calls.{Edits};
ghost use Rattle.client_copy.specs.Pad.{committed};
ghost use Rattle.client_copy.specs.Held.{IsHeldOn};
ghost use Rattle.client_copy.specs.View.{StandsAs};

mod adopting;
mod making;
mod receiving;
mod repairing;

use crate::carrying::{edit_work, has_text};
use pad_chain::Chain;
use pad_patch::{Operation, UnitStore};
use pad_stroke::{EditRefused, Work};
use pad_text::Name;
use std::alloc::{AllocError, Global};
use std::collections::BTreeMap;
use std::marker::Model;

/// The working copy of a client: a chain, the work on its text that was not sent, and the works that were sent, by the names of the
/// messages. Contracts see all of it.
#[derive(Drop)]
pub struct WorkingCopy<S: UnitStore> {
    chain: Chain<S>,
    base: Name,
    repaired: bool,
    work: Work,
    sent: BTreeMap<Name, Work>,
    strokes: u64,
}

impl<S: UnitStore> Model for WorkingCopy<S> {
    ghost use Rattle.client_copy.specs.View.{View};
    ghost use Rattle.client_copy.specs.Held.{IsHeldOn};

    ghost Value = { View };

    ghost view = { λ copy. record { pad = record { chain = copy.chain; base = copy.base; repaired = copy.repaired }; work = copy.work; sent = copy.sent.entries; strokes = copy.strokes } };

    ghost invariant = { λ copy. IsHeldOn copy.chain.branch.branch.units copy.work copy.sent.entries copy.strokes };
}

impl<S: UnitStore> WorkingCopy<S> {
    /// A working copy of the first base, to which nothing came yet, without work.
    pub fn new(alloc: Global) -> Result<WorkingCopy<S>, AllocError>
        ensures stands { IfOk result (λ copy. StandsAs copy new_copy) }
        ensures knows { IfOk result (λ copy. Knows copy.pad.chain first_base []) }
    {
        let chain = Chain::new(alloc)?;
        has_text(&chain);
        let work = Work::new(alloc, chain.hash())?;
        Ok(WorkingCopy {
            chain,
            base: Name::BASE,
            repaired: false,
            work,
            sent: BTreeMap::new(alloc),
            strokes: 0,
        })
    }

    /// Lends the chain.
    pub fn chain(&self) -> &Chain<S>
        ensures { result.now ≡ self.now.pad.chain }
    {
        &self.chain
    }

    /// Lends the committed text.
    pub fn text(&self) -> &S
        ensures is { S.units result.now ≡ self.now.pad.chain.branch.branch.units }
        ensures stands { (copy : Copy) → StandsAs self.now copy → S.units result.now ≡ committed copy.pad }
    {
        self.chain.text()
    }

    /// The name of the base.
    pub fn base(&self) -> Name
        ensures is { result ≡ self.now.pad.base }
        ensures stands { (copy : Copy) → StandsAs self.now copy → result ≡ copy.pad.base.name }
    {
        self.base
    }

    /// Lends the work that was not sent. It can be applied to the committed text, and was made for it.
    pub fn work(&self) -> &Work
        ensures is { result.now ≡ self.now.work }
        ensures held { IsHeldOn self.now.pad.chain.branch.branch.units self.now.work self.now.sent self.now.strokes }
    {
        &self.work
    }

    /// The text that the user sees: the committed text with the work applied.
    pub fn shown(&self, alloc: Global) -> Result<S, AllocError>
        ensures is { IfOk result (λ shown. S.units shown ≡ text_after self.now.work.patch self.now.pad.chain.branch.branch.units) }
        ensures stands { IfOk result (λ shown. (copy : Copy) → StandsAs self.now copy → S.units shown ≡ text_after copy.work.patch (committed copy.pad)) }
    {
        let patch = self.work.patch(alloc)?;
        patch.apply(alloc, self.chain.text())
    }

    /// The number given out last to an edit; 0 before the first.
    pub fn strokes(&self) -> u64
        ensures { result ≡ self.now.strokes }
    {
        self.strokes
    }

    /// Edits the shown text, which is the committed text with the work applied. The edit has the next stroke number. Each refusal
    /// has its cause, the first in their order, and nothing is changed then.
    pub fn edit(&mut self, alloc: Global, op: Operation) -> Result<(), EditRefused>
        requires { self.old.strokes < 2 ^ 64 - 1 }
        ensures edits { OnOk result (Edits self.old.pad.chain.branch.branch.units self.old op self.new) }
        ensures shown { OnOk result (text_after self.new.work.patch self.old.pad.chain.branch.branch.units
            ≡ shown_after op (text_after self.old.work.patch self.old.pad.chain.branch.branch.units)) }
        ensures cause { IfErr result (IsCause (text_after self.old.work.patch self.old.pad.chain.branch.branch.units) op) }
        ensures unchanged { OnErr result (self.new ≡ self.old) }
    {
        edit_work(
            alloc,
            self.chain.text(),
            &mut self.work,
            &self.sent,
            op,
            &mut self.strokes,
        )
    }
}
