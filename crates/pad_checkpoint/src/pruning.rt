//! The kept root, and the messages that overtook.

ghost use Rattle.std.specs.Prelude.{◌≡◌, ℕ, ◌+◌, ◌-◌, ◌^◌, ◌∷◌, ◌++◌, List, IfOk, OnOk, OnErr, count_by, min};
ghost use Rattle.pad_message.specs.declared.message.Message.{Message};
ghost use Rattle.pad_graph.specs.Chain.{Link};
ghost use Rattle.pad_graph.specs.State.{state_of};
ghost use Rattle.pad_model.specs.declared.base.Base.{Base};
ghost use Rattle.pad_model.specs.Path.{NamesDiffer};
ghost use Rattle.pad_list.specs.Number.{IsNumberOf};
ghost use Rattle.pad_model.specs.Choice.{cut, higher, Choice, Overtakes};
ghost use Rattle.pad_checkpoint.specs.Place.{place_of};
ghost use Rattle.pad_checkpoint.specs.Links.{AreLinks};
ghost use Rattle.pad_checkpoint.specs.Below.{betters, AreBelow};
ghost use Rattle.pad_checkpoint.specs.Settled.{IsRooted, IsSettled, KeepsLinks};

use crate::cuts::last_but_one;
use crate::marks::Marks;
use crate::place::Place;
use pad_graph::{Graph, Linking, Linkings, Standing, chains_are_one};
use std::alloc::{AllocError, Global};
use std::cmp::Ordering;

/// The kept root, and how many messages overtook.
#[derive(Clone, Copy, Debug)]
pub struct Pruning {
    root: Place,
    overtaken: u64,
}

/// Whether the linking is higher than the place, or as high with a lesser name.
fn is_better(linking: &Linking, best: &Place) -> bool
    ensures { result ≡ betters best.now linking.now }
{
    if linking.height != best.height {
        return linking.height > best.height;
    }
    linking.name.cmp(&best.name) == Ordering::Less
}

/// How many of the linkings are higher than the place, or as high with a lesser name.
fn count_better(linkings: &[Linking], best: &Place) -> usize
    ensures { result ≡ count_by (betters best.now) linkings.now }
{
    linkings
        .iter()
        .filter(|linking| is_better(linking, best))
        .count()
}

impl Pruning {
    /// The base is the root, and nothing overtook.
    pub fn new(base: Place) -> Pruning
        ensures root { result.root ≡ base }
        ensures overtaken { result.overtaken ≡ 0 }
    {
        Pruning {
            root: base,
            overtaken: 0,
        }
    }

    /// The kept root.
    pub fn root(&self) -> Place
        ensures { result ≡ self.now.root }
    {
        self.root
    }

    /// How many messages overtook.
    pub fn overtaken(&self) -> u64
        ensures { result ≡ self.now.overtaken }
    {
        self.overtaken
    }

    /// Counts those of the messages that became linked below the root which better the best chain by height and name. The count
    /// stops at the greatest number of 64 bits.
    pub fn count_below(&mut self, below: &Linkings, best: &Place)
        ensures counted { self.new ≡ record self.old { overtaken = min (self.old.overtaken + count_by (betters best.now) below.now) (2 ^ 64 - 1) } }
        ensures overtook { (base : Base) (received : List Message) (message : Message) (choice : Choice) (links : List Link) → NamesDiffer (message ∷ received) → AreLinks base received links
            → AreBelow base links message choice.root below.now → best.now ≡ place_of base choice.chosen
            → (more : ℕ) × IsNumberOf (Overtakes base received message choice) more × (self.new.overtaken ≡ min (self.old.overtaken + more) (2 ^ 64 - 1)) }
    {
        let more = count_better(below.as_slice(), best);
        self.overtaken = self.overtaken.saturating_add(more as u64);
    }

    /// Moves the root up to the cut of the best chain, where that is higher, and drops what is not linked through it. The marks
    /// are those of the best chain above the root. It answers how many messages were dropped, and reads the marks from the far end back
    /// to the last but one checkpoint. Nothing moves if the graph does not know that one as linked through the root. Root and graph are
    /// unchanged where there is no memory.
    pub fn settle(
        &mut self,
        alloc: Global,
        graph: &mut Graph,
        path: &Marks,
    ) -> Result<u64, AllocError>
        ensures settled { IfOk result (λ many. (base : Base) (received root above : List Message) (links : List Link) → IsRooted base received root above links self.old.root path.now (state_of graph.old)
            → IsSettled base links root (higher root (cut (above ++ root))) self.new.root (state_of graph.new) many) }
        ensures links { OnOk result (KeepsLinks (state_of graph.old) (state_of graph.new)) }
        ensures overtaken { self.new.overtaken ≡ self.old.overtaken }
        ensures same_root { OnErr result (self.new ≡ self.old) }
        ensures same_graph { OnErr result (state_of graph.new ≡ state_of graph.old) }
    {
        chains_are_one();
        let Some(mark) = last_but_one(path.as_slice()) else {
            return Ok(0);
        };
        let Standing::Linked(_) = graph.standing(&mark.place.name) else {
            return Ok(0);
        };
        let dropped = graph.keep_from(alloc, &mark.place.name)?;
        self.root = mark.place;
        Ok(dropped)
    }
}
