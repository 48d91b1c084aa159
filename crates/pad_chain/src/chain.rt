//! The chain: what came, and what is chosen of it.

mod receiving;

ghost use Rattle.std.specs.Prelude.{◌≡◌, ◌≢◌, ◌≤◌, ◌+◌, ◌%◌, ◌^◌, ◌<◌, ◌↔◌, ℕ, List, [], true, false, length, IsTrue, IfOk, IfErr, OnOk};
ghost use Rattle.pad_text.specs.declared.name.Name.{Name};
ghost use Rattle.pad_text.specs.Hash.{document_hash};
ghost use Rattle.pad_patch.specs.Misfit.{longest_text};
ghost use Rattle.pad_message.specs.declared.message.Message.{Message};
ghost use Rattle.pad_message.specs.Kind.{IsInterval, HasInterval};
ghost use Rattle.pad_message.specs.declared.kind.Kind.TheVariants.{Checkpoint};
ghost use Rattle.pad_message.specs.Message.{name_of};
ghost use Rattle.pad_message.specs.Adopt.{CanAdopt, IsAdoptableWith};
ghost use Rattle.pad_graph.specs.Chain.{Link};
ghost use Rattle.pad_graph.specs.State as graph;
ghost use Rattle.pad_graph.specs.Graph.{IsStanding};
ghost use Rattle.pad_graph.specs.declared.graph.TheConstants.{MOST_NAMES};
ghost use Rattle.pad_graph.specs.declared.standing.Standing.TheVariants.{Unknown};
ghost use Rattle.pad_model.specs.declared.base.Base.{Base};
ghost use Rattle.pad_model.specs.Base.{first_base, Gives};
ghost use Rattle.pad_model.specs.Path.{text, interval, since_checkpoint};
ghost use Rattle.pad_list.specs.Number.{IsNumberOf};
ghost use Rattle.pad_model.specs.Choice.{Choice, first_choice};
ghost use Rattle.pad_model.specs.Count.{IsKnown, IsWaiting, IsKept};
ghost use Rattle.pad_checkpoint.specs.Place.{place_of};
ghost use Rattle.pad_checkpoint.specs.Links.{names_of, AreLinks};
ghost use Rattle.pad_branch.specs.Branch.{tip_of, height_of};
ghost use Rattle.pad_chain.specs.declared.adopt_refused.AdoptRefused.TheVariants.{NotACheckpoint};
ghost use Rattle.pad_chain.specs.Tie.{StandsFor};
ghost use Rattle.pad_chain.specs.Knows.{Knows};

mod moving;

use crate::adopt_refused::AdoptRefused;
use pad_branch::{Branch, Held};
use pad_checkpoint::{Place, Pruning};
use pad_graph::{Graph, Standing};
use pad_message::{Kind, Message, USUAL_INTERVAL};
use pad_model::Base;
use pad_patch::UnitStore;
use pad_text::{Name, Text};
use std::alloc::{AllocError, Global};
use std::collections::BTreeMap;
use std::marker::Model;

/// A chain of messages, with one text: that at the end of the chosen path.
#[derive(Drop)]
pub struct Chain<S: UnitStore> {
    graph: Graph,
    pruning: Pruning,
    messages: BTreeMap<Name, Held>,
    branch: Branch<S>,
    found: Vec<Name>,
    whole: bool,
}

impl<S: UnitStore> Model for Chain<S> {
    ghost use Rattle.std.specs.Prelude.{reverse, IfSome};
    ghost use Rattle.std.specs.BTreeMap.{get};
    ghost use Rattle.pad_text.specs.declared.name.Name.{Name};
    ghost use Rattle.pad_graph.specs.State.{name_cmp};
    ghost use Rattle.pad_branch.specs.Held.{IsHeldAs};
    ghost use Rattle.pad_chain.specs.State.{View};

    ghost Value = { View };

    ghost view = { λ chain. record { graph = chain.graph; pruning = chain.pruning; messages = chain.messages.entries; branch = chain.branch; found = reverse chain.found.items; whole = chain.whole } };

    ghost invariant = { λ chain. (name : Name) → IfSome (get name_cmp chain.messages name) (IsHeldAs name) };
}

/// Lends the text that a message inserts which can be a base.
fn adopted_text(message: &Message) -> &Text
    requires { CanAdopt message.now }
    ensures whole { (text : List ℕ) → IsAdoptableWith message.now text → text ≡ result.now }
    ensures short { length result.now ≤ longest_text }
{
    &message.patch.ops.as_slice()[0].insert
}

/// The interval of a message that can be a base.
fn adopted_interval(message: &Message) -> u16
    requires can { CanAdopt message.now }
    requires interval { HasInterval message.now.kind }
    ensures is { (interval : ℕ) → message.now.kind ≡ Checkpoint interval → interval ≡ result }
    ensures may { IsInterval result }
{
    match message.kind {
        Kind::Checkpoint(interval) => interval,
        Kind::Patch => USUAL_INTERVAL,
    }
}

/// The name of a message that can be a base.
fn adopted_name(alloc: Global, message: &Message) -> Result<Name, AllocError>
    requires can { CanAdopt message.now }
    requires interval { HasInterval message.now.kind }
    ensures { IfOk result (λ name. name ≡ name_of message.now) }
{
    message.name(alloc)
}

/// Whether the next message stands at a multiple of the interval, where so many came since the last checkpoint and the chain has
/// this height.
fn is_due(since: u64, interval: u16, height: u64) -> bool
    requires some { IsInterval interval }
    requires few { since ≤ height }
    requires high { height + 1 < 2 ^ 64 }
    ensures { IsTrue result ↔ ((since + 1) % interval ≡ 0) }
{
    (since + 1) % u64::from(interval) == 0
}

/// A branch's text is no longer than a text may be: the bound is this function's contract.
fn text_is_short<S: UnitStore>(branch: &Branch<S>)
    ensures { length branch.now.branch.units ≤ longest_text }
{
    let _ = branch.tip();
}

impl<S: UnitStore> Chain<S> {
    /// The chain of the first base: sixty-four zeros, the empty text, the usual interval.
    pub fn new(alloc: Global) -> Result<Chain<S>, AllocError>
        ensures stands { IfOk result (λ chain. StandsFor chain first_base [] first_choice × (chain.whole ≡ false)) }
        ensures knows { IfOk result (λ chain. Knows chain first_base []) }
    {
        Chain::first(alloc, false)
    }

    /// A chain of the first base that never truncates: its root stays the base.
    pub fn whole(alloc: Global) -> Result<Chain<S>, AllocError>
        ensures stands { IfOk result (λ chain. StandsFor chain first_base [] first_choice × (chain.whole ≡ true)) }
        ensures knows { IfOk result (λ chain. Knows chain first_base []) }
    {
        Chain::first(alloc, true)
    }

    /// The chain of the first base, to which no message came yet.
    fn first(alloc: Global, whole: bool) -> Result<Chain<S>, AllocError>
        ensures stands { IfOk result (λ chain. StandsFor chain first_base [] first_choice × (chain.whole ≡ whole)) }
        ensures knows { IfOk result (λ chain. Knows chain first_base []) }
    {
        let base = Base::first(alloc);
        let text = S::from_text(alloc, &base.text)?;
        Chain::begun(alloc, base.name, text, base.interval, whole)
    }

    /// The chain from a checkpoint on, which becomes its base. `NotACheckpoint` comes exactly where the message can not be a base.
    pub fn adopt(alloc: Global, message: &Message) -> Result<Chain<S>, AdoptRefused>
        requires { HasInterval message.now.kind }
        ensures stands { IfOk result (λ chain. ((base : Base) → Gives message.now base → StandsFor chain base [] first_choice) × (chain.whole ≡ false)) }
        ensures knows { IfOk result (λ chain. (base : Base) → Gives message.now base → Knows chain base []) }
        ensures ok { OnOk result (CanAdopt message.now) }
        ensures refused { IfErr result (λ refused. refused ≡ NotACheckpoint → ¬ (CanAdopt message.now)) }
    {
        if !message.can_adopt(alloc)? {
            return Err(AdoptRefused::NotACheckpoint);
        }
        let interval = adopted_interval(message);
        let name = adopted_name(alloc, message)?;
        let text = S::from_text(alloc, adopted_text(message))?;
        let chain = Chain::begun(alloc, name, text, interval, false)?;
        Ok(chain)
    }

    /// The chain of a base with this name, text and interval, to which no message came yet.
    fn begun(
        alloc: Global,
        name: Name,
        text: S,
        interval: u16,
        whole: bool,
    ) -> Result<Chain<S>, AllocError>
        requires short { length (S.units text) ≤ longest_text }
        requires interval { IsInterval interval }
        ensures stands { IfOk result (λ chain. (base : Base) → base.name ≡ name → base.text ≡ S.units text → base.interval ≡ interval → StandsFor chain base [] first_choice) }
        ensures knows { IfOk result (λ chain. (base : Base) → base.name ≡ name → Knows chain base []) }
        ensures whole { IfOk result (λ chain. chain.whole ≡ whole) }
    {
        let graph = Graph::new(alloc, name)?;
        let branch = Branch::at_root(alloc, name, 0, text, interval)?;
        Ok(Chain {
            graph,
            pruning: Pruning::new(Place { name, height: 0 }),
            messages: BTreeMap::new(alloc),
            branch,
            found: Vec::new(alloc),
            whole,
        })
    }

    /// Where the chosen path ends.
    pub fn best(&self) -> Place
        ensures is { result ≡ record { name = (tip_of self.now.branch.branch).name; height = height_of self.now.branch.branch } }
        ensures stands { (base : Base) (received : List Message) (choice : Choice) → StandsFor self.now base received choice → result ≡ place_of base choice.chosen }
    {
        Place {
            name: self.branch.tip().name,
            height: self.branch.height(),
        }
    }

    /// Where the path up to the kept root ends.
    pub fn root(&self) -> Place
        ensures is { result ≡ self.now.pruning.root }
        ensures stands { (base : Base) (received : List Message) (choice : Choice) → StandsFor self.now base received choice → result ≡ place_of base choice.root }
    {
        self.pruning.root()
    }

    /// Lends the text after the chosen path.
    pub fn text(&self) -> &S
        ensures is { S.units result.now ≡ self.now.branch.branch.units }
        ensures short { length (S.units result.now) ≤ longest_text }
        ensures stands { (base : Base) (received : List Message) (choice : Choice) → StandsFor self.now base received choice → S.units result.now ≡ text base choice.chosen }
    {
        text_is_short(&self.branch);
        self.branch.text()
    }

    /// The document hash of the text after the chosen path.
    pub fn hash(&self) -> Name
        ensures is { result ≡ document_hash self.now.branch.branch.units }
        ensures stands { (base : Base) (received : List Message) (choice : Choice) → StandsFor self.now base received choice → result ≡ document_hash (text base choice.chosen) }
    {
        self.branch.tip().hash
    }

    /// After how many messages the next checkpoint may come.
    pub fn interval(&self) -> u16
        ensures is { result ≡ (tip_of self.now.branch.branch).interval }
        ensures may { IsInterval result }
        ensures stands { (base : Base) (received : List Message) (choice : Choice) → StandsFor self.now base received choice → result ≡ interval base choice.chosen }
    {
        self.branch.tip().interval
    }

    /// Whether a checkpoint may be the next message of the chosen path.
    pub fn due(&self) -> bool
        ensures is { IsTrue result ↔ (((tip_of self.now.branch.branch).since + 1) % (tip_of self.now.branch.branch).interval ≡ 0) }
        ensures stands { (base : Base) (received : List Message) (choice : Choice) → StandsFor self.now base received choice
            → IsTrue result ↔ ((since_checkpoint choice.chosen + 1) % interval base choice.chosen ≡ 0) }
    {
        let tip = self.branch.tip();
        is_due(tip.since, tip.interval, self.branch.height())
    }

    /// How many different names came, the base's not counted; at most `MOST_NAMES`.
    pub fn known(&self) -> u64
        ensures is { result ≡ self.now.graph.known }
        ensures few { result ≤ MOST_NAMES }
        ensures knows { (base : Base) (received : List Message) → Knows self.now base received → IsNumberOf (IsKnown base received) result }
        ensures stands { (base : Base) (received : List Message) (choice : Choice) → StandsFor self.now base received choice → IsNumberOf (IsKnown base received) result }
    {
        self.graph.known()
    }

    /// How many messages wait for their parents.
    pub fn waiting(&self) -> u64
        ensures is { result ≡ self.now.graph.waiting }
        ensures stands { (base : Base) (received : List Message) (choice : Choice) → StandsFor self.now base received choice → IsNumberOf (IsWaiting base received) result }
    {
        self.graph.waiting()
    }

    /// How many messages are linked through the root, and the root itself.
    pub fn kept(&self) -> u64
        ensures is { result ≡ self.now.graph.kept }
        ensures stands { (base : Base) (received : List Message) (choice : Choice) → StandsFor self.now base received choice → (above : ℕ) × IsNumberOf (IsKept base received choice.root) above × (result ≡ above + 1) }
    {
        self.graph.kept()
    }

    /// How many messages overtook the chosen path from below the root.
    pub fn overtaken(&self) -> u64
        ensures is { result ≡ self.now.pruning.overtaken }
        ensures stands { (base : Base) (received : List Message) (choice : Choice) → StandsFor self.now base received choice → result ≡ choice.overtaken }
    {
        self.pruning.overtaken()
    }

    /// How many messages were found not to be sound.
    pub fn found(&self) -> u64
        ensures { result ≡ length self.now.found }
    {
        self.found.len() as u64
    }

    /// How the message with this name stands.
    pub fn standing(&self, name: &Name) -> Standing
        ensures is { result ≡ graph.standing (graph.state_of self.now.graph) name.now }
        ensures knows { (base : Base) (received : List Message) → Knows self.now base received → (result ≡ Unknown) ↔ ((name.now ≢ base.name) × ¬ (IsKnown base received name.now)) }
        ensures stands { (base : Base) (received : List Message) (choice : Choice) → StandsFor self.now base received choice → (links : List Link) × AreLinks base received links × IsStanding base.name links (names_of choice.root) name.now result }
    {
        self.graph.standing(name)
    }
}
