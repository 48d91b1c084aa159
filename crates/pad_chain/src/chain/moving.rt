//! How the chosen path comes from another path.

ghost use Rattle.std.specs.Prelude.{◌≡◌, ◌≤◌, ◌+◌, ◌*◌, ℕ, List, ◌++◌, length, drop, map, reverse, IfOk, IfSome, IsNone};
ghost use Rattle.std.specs.BTreeMap.{get};
ghost use Rattle.pad_message.specs.declared.message.Message.{Message};
ghost use Rattle.pad_graph.specs.State.{name_cmp};
ghost use Rattle.pad_model.specs.declared.base.Base.{Base};
ghost use Rattle.pad_model.specs.Path.{text, last_name, IsLinkedPath};
ghost use Rattle.pad_model.specs.Choice.{Choice};
ghost use Rattle.pad_branch.specs.Held.{marks, messages_at};
ghost use Rattle.pad_branch.specs.Undo.{undone_name};
ghost use Rattle.pad_branch.specs.Move.{move_back, move_on};
ghost use Rattle.pad_branch.specs.Branch.{IsWon, CanSwitch};
ghost use Rattle.pad_chain.specs.State.{held_of};
ghost use Rattle.pad_chain.specs.Tie.{StandsFor};
ghost use Rattle.pad_chain.specs.Moved.{EndsIn, IsMoved};
ghost use Rattle.pad_chain.specs.Leads.{Leads};

use crate::chain::Chain;
use crate::moved::{Moved, Moves};
use pad_branch::{Held, Won, applied, reverted};
use pad_graph::Standing;
use pad_patch::{Steps, UnitStore};
use pad_text::Name;
use std::alloc::{AllocError, Global};
use std::collections::BTreeMap;
use std::sync::ledger::Ledger;

/// Whether what is held at a name is marked.
fn is_marked(messages: &BTreeMap<Name, Held>, name: &Name) -> bool
    ensures { result ≡ marks (get name_cmp messages.now) name.now }
{
    match messages.get(name) {
        Some(held) => held.pathless,
        None => false,
    }
}

impl<S: UnitStore> Chain<S> {
    /// How the chosen path comes from the path to the message with this name, or to the base. `reverted` are the messages of that
    /// path that are not on the chosen path, `applied` those of the chosen path that are not on that path. None where no path through
    /// the root ends in the name. The chain stays what it is.
    pub fn moves_from<L: Ledger>(
        &self,
        alloc: Global,
        from: &Name,
        steps: &mut Steps<L>,
    ) -> Result<Option<Moved>, AllocError>
        ensures some { IfOk result (λ told. IfSome told (λ moved. (base : Base) (received : List Message) (choice : Choice) → StandsFor self.now base received choice
            → (path : List Message) × EndsIn base received choice.root path from.now × IsMoved base path choice.chosen moved × Leads (moved.reverted ++ moved.applied) (text base path) (text base choice.chosen))) }
        ensures none { IfOk result (λ told. IsNone told → (base : Base) (received : List Message) (choice : Choice) → StandsFor self.now base received choice
            → (path : List Message) → ¬ (EndsIn base received choice.root path from.now)) }
        ensures cost { IfOk result (λ told. steps.new ≤ steps.old + length self.now.branch.branch.undos + 2 * self.now.graph.known) }
    {
        match self.text_and_moves_from(alloc, from, steps)? {
            Some((_, moved)) => Ok(Some(moved)),
            None => Ok(None),
        }
    }

    /// The same, with the text after that path. The moves that leave it fit that text one after another, whatever the chain stands
    /// for.
    pub fn text_and_moves_from<L: Ledger>(
        &self,
        alloc: Global,
        from: &Name,
        steps: &mut Steps<L>,
    ) -> Result<Option<(S, Moved)>, AllocError>
        ensures some { IfOk result (λ told. IfSome told (λ both. (base : Base) (received : List Message) (choice : Choice) → StandsFor self.now base received choice
            → (path : List Message) × EndsIn base received choice.root path from.now × (S.units both.0 ≡ text base path) × IsMoved base path choice.chosen both.1 × Leads (both.1.reverted ++ both.1.applied) (S.units both.0) self.now.branch.branch.units)) }
        ensures back { IfOk result (λ told. IfSome told (λ both. (fork : List ℕ) × Leads both.1.reverted (S.units both.0) fork)) }
        ensures none { IfOk result (λ told. IsNone told → (base : Base) (received : List Message) (choice : Choice) → StandsFor self.now base received choice
            → (path : List Message) → ¬ (EndsIn base received choice.root path from.now)) }
        ensures cost { IfOk result (λ told. steps.new ≤ steps.old + length self.now.branch.branch.undos + 2 * self.now.graph.known) }
    {
        let Some(won) = self.tested(alloc, from, steps)? else {
            return Ok(None);
        };
        let both = self.moves_of(alloc, won)?;
        Ok(Some(both))
    }

    /// The text of a path that was tested, and how the chosen path comes from it.
    fn moves_of(&self, alloc: Global, won: Won<S>) -> Result<(S, Moved), AllocError>
        requires { won.keep ≤ length self.now.branch.branch.undos }
        ensures text { IfOk result (λ both. S.units both.0 ≡ S.units won.text) }
        ensures back { IfOk result (λ both. both.1.reverted ≡ map move_back (reverse won.undos.items)) }
        ensures on { IfOk result (λ both. both.1.applied ≡ map move_on (messages_at (held_of self.now) (map undone_name (drop won.keep self.now.branch.branch.undos)))) }
    {
        let undos = self.branch.undos();
        let on = applied(alloc, &self.messages, &undos[won.keep..])?;
        let back = reverted(alloc, won.undos)?;
        let moved = Moved {
            reverted: Moves::new(back),
            applied: Moves::new(on),
        };
        Ok((won.text, moved))
    }

    /// The path through the root to the message with this name, or to the base, if it is sound.
    fn tested<L: Ledger>(
        &self,
        alloc: Global,
        from: &Name,
        steps: &mut Steps<L>,
    ) -> Result<Option<Won<S>>, AllocError>
        ensures won { IfOk result (λ told. IfSome told (λ won. (base : Base) (received : List Message) (choice : Choice) (stands : StandsFor self.now base received choice)
            → (path : List Message) × IsLinkedPath base received (path ++ choice.root) × (last_name base (path ++ choice.root) ≡ from.now)
            × IsWon base received choice.root stands.above path self.now.branch.branch (held_of self.now) won.keep won.undos.items (S.units won.text))) }
        ensures switch { IfOk result (λ told. IfSome told (λ won. CanSwitch self.now.branch.branch won.keep won.undos.items (S.units won.text))) }
        ensures none { IfOk result (λ told. IsNone told → (base : Base) (received : List Message) (choice : Choice) → StandsFor self.now base received choice
            → (path : List Message) → ¬ (EndsIn base received choice.root path from.now)) }
        ensures cost { IfOk result (λ told. steps.new ≤ steps.old + length self.now.branch.branch.undos + 2 * self.now.graph.known) }
    {
        let Standing::Linked(height) = self.graph.standing(from) else {
            return Ok(None);
        };
        if height < self.branch.root_height() || height > self.graph.known() {
            return Ok(None);
        }
        if is_marked(&self.messages, from) {
            return Ok(None);
        }
        match self
            .branch
            .test_path(alloc, &self.messages, from, height, steps)?
        {
            Ok(won) => Ok(Some(won)),
            Err(_) => Ok(None),
        }
    }
}
