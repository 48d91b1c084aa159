//! The end of a repair: the chain that received what the repair heard takes the old one's place.

ghost use Rattle.std.specs.Prelude.{◌≡◌, ℕ, true, List, Contains, IfOk, OnOk, OnErr};
ghost use Rattle.pad_message.specs.declared.message.Message.{Message};
ghost use Rattle.pad_model.specs.Base.{first_base};
ghost use Rattle.pad_model.specs.Choice.{Choice};
ghost use Rattle.pad_chain.specs.Tie.{StandsFor};
ghost use Rattle.client_copy.specs.State.{Copy};
ghost use Rattle.client_copy.specs.Held.{IsHeldOn};
ghost use Rattle.client_copy.specs.Repair.{EndsRepair, AreAmong};
ghost use Rattle.client_copy.specs.View.{NoClash, StandsAs};

use crate::carrying::{carried_to, empty_work};
use crate::working_copy::WorkingCopy;
use pad_chain::Chain;
use pad_patch::laws::{fitting_applies, inverse_gives_back};
use pad_patch::{Steps, UnitStore};
use pad_stroke::Work;
use pad_text::Name;
use std::alloc::{AllocError, Global};
use std::sync::ledger::Ledger;

impl<S: UnitStore> WorkingCopy<S> {
    /// Ends a repair: this chain, which never truncates and received what the repair heard, takes the old one's place. The work goes
    /// on from the path to the old best message; the answer is false if there is none, and then the work is emptied. It is emptied
    /// too if another text stands there than the old one, which needs a clash of names. If memory runs out, nothing is changed.
    pub fn end_repair<L: Ledger>(
        &mut self,
        alloc: Global,
        chain: Chain<S>,
        steps: &mut Steps<L>,
    ) -> Result<bool, AllocError>
        requires whole { chain.whole ≡ true }
        ensures ends { IfOk result (λ found. (copy : Copy) (received : List Message) (choice : Choice) → StandsAs self.old copy → StandsFor chain first_base received choice
            → AreAmong received copy.pad.all → NoClash copy.pad.all → (after : Copy) × EndsRepair copy received found after × StandsAs self.new after) }
        ensures takes { OnOk result (self.new.pad ≡ record { chain = chain; base = first_base.name; repaired = true }) }
        ensures rest { self.new ≡ record self.old { pad = self.new.pad; work = self.new.work } }
        ensures unchanged { OnErr result (self.new ≡ self.old) }
    {
        fitting_applies();
        inverse_gives_back();
        let best = self.chain.best().name;
        let Some((from, moved)) = chain.text_and_moves_from(alloc, &best, steps)? else {
            let work = empty_work(alloc, &chain)?;
            self.take(chain, work);
            return Ok(false);
        };
        let work = carried_to(
            alloc,
            &self.work,
            &self.sent,
            self.chain.text(),
            &chain,
            &from,
            &moved,
            steps,
        )?;
        self.take(chain, work);
        Ok(true)
    }

    /// Takes a repair's chain, and a work on its text.
    fn take(&mut self, chain: Chain<S>, work: Work)
        requires { IsHeldOn chain.branch.branch.units work self.old.sent self.old.strokes }
        ensures { self.new ≡ record self.old { pad = record { chain = chain; base = first_base.name; repaired = true }; work = work } }
    {
        self.chain = chain;
        self.base = Name::BASE;
        self.repaired = true;
        self.work = work;
    }
}
