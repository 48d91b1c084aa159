//! The graph: which names are linked, which wait, and which are gone.

ghost use Rattle.std.specs.Prelude.{◌≡◌, ◌⊎◌, ◌<◌, ◌≤◌, List, [], ◌∷◌, IfOk, IfErr, OnOk, OnErr, Some, None, Err};
ghost use Rattle.std.specs.List.Sorted.{IsSorted};
ghost use Rattle.pad_text.specs.declared.name.Name.{Name};
ghost use Rattle.pad_graph.specs.declared.graph.TheConstants.{MOST_NAMES};
ghost use Rattle.pad_graph.specs.declared.add_refused.AddRefused.TheVariants.{Full};
ghost use Rattle.pad_graph.specs.declared.added.Added.TheVariants.{Known};
ghost use Rattle.pad_graph.specs.declared.node.Mark.TheVariants.{Waiting as Waits};
ghost use Rattle.pad_graph.specs.declared.standing.Standing.TheVariants.{Unknown};
ghost use Rattle.pad_graph.specs.Added.{IsAdded, HasName, links_after, linking_cmp};
ghost use Rattle.pad_graph.specs.Chain.{Link, top, IsChain};
ghost use Rattle.pad_list.specs.Number.{IsNumberOf};
ghost use Rattle.pad_graph.specs.State.{state_of, standing, last_added, IsHeld};
ghost use Rattle.pad_graph.specs.Graph.{IsStanding, IsParentOf, AreFound, Stands, AreDropped, IsDropped};
ghost use Rattle.pad_graph.specs.Inside.Marks.{IsUnder, IsApart, kept_by};

use crate::add_refused::AddRefused;
use crate::added::Added;
use crate::hanging::hanging;
use crate::last::Last;
use crate::linking::Linking;
use crate::linkings::Linkings;
use crate::marking::{forget_all, mark_all};
use crate::node::{Mark, Node};
use crate::standing::Standing;
use crate::tables::{height_of, hold, names_of, parent_of, remove_child, without_base};
use pad_text::Name;
use std::alloc::{AllocError, Global};
use std::collections::BTreeMap;
use std::marker::Model;

/// The most names that a graph knows.
pub const MOST_NAMES: u64 = 1_048_576;

/// Names with their parents, and what is linked on the base. Contracts read its tables by `state_of`.
#[derive(Drop)]
pub struct Graph {
    nodes: BTreeMap<Name, Node>,
    children: BTreeMap<Name, Vec<Name>>,
    root: Name,
    known: u64,
    waiting: u64,
    kept: u64,
    last: Option<Last>,
    linked: Vec<Linking>,
    dropped: Vec<Linking>,
}

impl Model for Graph {
    ghost use Rattle.pad_graph.specs.State.{Tables};
    ghost use Rattle.pad_graph.specs.Inside.Fields.{tables_of, IsGraph};

    ghost Value = { Tables };

    ghost view = { tables_of };

    ghost invariant = { IsGraph };
}

impl Graph {
    /// The graph of a base alone, which is its root.
    pub fn new(alloc: Global, base: Name) -> Result<Graph, AllocError>
        ensures { IfOk result (λ graph. Stands (state_of graph) base [] []) }
    {
        let mut nodes = BTreeMap::new(alloc);
        let node = Node {
            parent: base,
            standing: Standing::Linked(0),
        };
        match nodes.insert(base, node) {
            Ok(_) => {}
            Err(_) => return Err(AllocError),
        }
        Ok(Graph {
            nodes,
            children: BTreeMap::new(alloc),
            root: base,
            known: 0,
            waiting: 0,
            kept: 1,
            last: None,
            linked: Vec::new(alloc),
            dropped: Vec::new(alloc),
        })
    }

    /// How the graph knows a name.
    pub fn standing(&self, name: &Name) -> Standing
        ensures is { result ≡ standing (state_of self.now) name.now }
        ensures stands { (base : Name) (links : List Link) (root : List Name) → Stands (state_of self.now) base links root → IsStanding base links root name.now result }
    {
        match self.nodes.get(name) {
            Some(node) => node.standing,
            None => Standing::Unknown,
        }
    }

    /// The parent with which a name was added. None for a name that is unknown or gone, and for the base.
    pub fn parent(&self, name: &Name) -> Option<Name>
        ensures { (base : Name) (links : List Link) (root : List Name) → Stands (state_of self.now) base links root → IsParentOf base links root name.now result }
    {
        match self.nodes.get(name) {
            Some(node) => node.told_parent(),
            None => None,
        }
    }

    /// Lends the names that were added on a name that is not gone.
    pub fn children(&self, name: &Name) -> &[Name]
        ensures { result.now ≡ (state_of self.now).children name.now }
    {
        names_of(&self.children, name)
    }

    /// Lends what the last `keep_from` dropped, the base among it where that was the root.
    pub fn dropped(&self) -> &[Linking]
        ensures { result.now ≡ (state_of self.now).dropped }
    {
        self.dropped.as_slice()
    }

    /// How many names were added; at most `MOST_NAMES`.
    pub fn known(&self) -> u64
        ensures is { result ≡ (state_of self.now).known }
        ensures few { result ≤ MOST_NAMES }
    {
        self.known
    }

    /// How many names wait.
    pub fn waiting(&self) -> u64
        ensures { result ≡ (state_of self.now).waiting }
    {
        self.waiting
    }

    /// How many names are linked through the root, itself included.
    pub fn kept(&self) -> u64
        ensures { result ≡ (state_of self.now).kept }
    {
        self.kept
    }

    /// Adds a message's name and its parent's. It links the message, if it can, with all that waited for it.
    ///
    /// `Full` comes exactly where the name is new and `MOST_NAMES` are known. The graph is unchanged where it is refused.
    pub fn add(&mut self, alloc: Global, name: Name, parent: Name) -> Result<Added, AddRefused>
        ensures known { IfOk result (λ added. added ≡ Known → state_of self.new ≡ state_of self.old) }
        ensures stands { IfOk result (λ added. (base : Name) (links : List Link) (root : List Name) → Stands (state_of self.old) base links root → IsAdded base links root (record { name = name; parent = parent }) added × Stands (state_of self.new) base (links_after (record { name = name; parent = parent }) links added) root) }
        ensures last { IfOk result (λ added. (added ≡ Known) ⊎ (last_added (state_of self.new) ≡ Some name)) }
        ensures full { IfErr result (λ refused. refused ≡ Full → (standing (state_of self.old) name ≡ Unknown) × ((state_of self.old).known ≡ MOST_NAMES)) }
        ensures room { standing (state_of self.old) name ≡ Unknown → (state_of self.old).known ≡ MOST_NAMES → result ≡ Err Full }
        ensures err { OnErr result (state_of self.new ≡ state_of self.old) }
    {
        if self.nodes.contains_key(&name) {
            return Ok(Added::Known);
        }
        if self.known >= MOST_NAMES {
            return Err(AddRefused::Full);
        }
        match self.standing(&parent) {
            Standing::Linked(height) => {
                let found = self.link(alloc, name, parent, height, Mark::Linked)?;
                Ok(Added::Linked(found))
            }
            Standing::Gone(height) => {
                let found = self.link(alloc, name, parent, height, Mark::Gone)?;
                Ok(Added::Below(found))
            }
            _ => {
                self.wait(alloc, name, parent)?;
                Ok(Added::Waiting)
            }
        }
    }

    /// Takes back the message that was added last. It takes no memory.
    pub fn undo_add(&mut self, name: &Name)
        requires { last_added (state_of self.old) ≡ Some name.now }
        ensures { (base : Name) (link : Link) (links : List Link) (root : List Name) → Stands (state_of self.old) base (link ∷ links) root → Stands (state_of self.new) base links root }
    {
        let Some(last) = self.last else {
            return;
        };
        let parent = parent_of(&self.nodes, name);
        mark_all(&mut self.nodes, self.linked.as_slice(), Mark::Waiting);
        let _ = self.nodes.remove(name);
        remove_child(&mut self.children, &parent);
        self.known -= 1;
        self.waiting = last.waiting;
        self.kept = last.kept;
        self.last = None;
        self.linked.clear();
    }

    /// Makes this name the root, and drops what is linked and not through it: those names are gone from then on. It answers
    /// how many messages were dropped. It is unchanged where there is no memory.
    pub fn keep_from(&mut self, alloc: Global, root: &Name) -> Result<u64, AllocError>
        requires { IsHeld (standing (state_of self.old) root.now) }
        ensures stands { OnOk result ((base : Name) (links : List Link) (below names : List Name) → Stands (state_of self.old) base links below → IsChain base links names → top base names ≡ root.now → Stands (state_of self.new) base links names) }
        ensures dropped { OnOk result ((base : Name) (links : List Link) (below names : List Name) → Stands (state_of self.old) base links below → IsChain base links names → top base names ≡ root.now → AreDropped base links below names (state_of self.new).dropped) }
        ensures many { IfOk result (λ many. (base : Name) (links : List Link) (below names : List Name) → Stands (state_of self.old) base links below → IsChain base links names → top base names ≡ root.now → IsNumberOf (IsDropped base links below names) many) }
        ensures err { OnErr result (state_of self.new ≡ state_of self.old) }
    {
        if *root == self.root {
            self.dropped.clear();
            return Ok(0);
        }
        let height = height_of(&self.nodes, &self.root);
        let first = Linking {
            height,
            name: self.root,
        };
        let found = hanging(alloc, &self.children, first, root, self.kept)?;
        mark_all(&mut self.nodes, found.as_slice(), Mark::Gone);
        forget_all(&mut self.children, found.as_slice());
        let many = found.len() as u64;
        let messages = without_base(height, many);
        self.kept -= many;
        self.root = *root;
        self.last = None;
        self.linked.clear();
        self.dropped = found;
        Ok(messages)
    }

    /// How many of the names that are marked together become kept.
    fn many_kept(mark: Mark, many: u64) -> u64
        ensures { result ≡ kept_by mark many }
    {
        match mark {
            Mark::Linked => many,
            _ => 0,
        }
    }

    /// Adds a new name, and marks those that become linked with it. It is unchanged where there is no memory.
    fn enter(
        &mut self,
        alloc: Global,
        name: Name,
        parent: Name,
        found: &[Linking],
        mark: Mark,
    ) -> Result<(), AllocError>
        requires room { self.old.known < MOST_NAMES }
        requires new { (state_of self.old).node name ≡ None }
        requires found { (base : Name) (links : List Link) (root : List Name) → Stands (state_of self.old) base links root → AreFound base links root (record { name = name; parent = parent }) mark found.now }
        ensures ok { OnOk result ((base : Name) (links : List Link) (root : List Name) → Stands (state_of self.old) base links root → Stands (state_of self.new) base (record { name = name; parent = parent } ∷ links) root) }
        ensures last { OnOk result (last_added (state_of self.new) ≡ Some name) }
        ensures err { OnErr result (state_of self.new ≡ state_of self.old) }
    {
        let mut linked = Vec::new(alloc);
        linked.extend_from_slice(found)?;
        let node = Node {
            parent,
            standing: Standing::Waiting,
        };
        let last = Last {
            name,
            waiting: self.waiting,
            kept: self.kept,
        };
        match hold(alloc, &mut self.nodes, &mut self.children, name, node) {
            Ok(()) => {}
            Err(_) => return Err(AllocError),
        }
        mark_all(&mut self.nodes, found, mark);
        let many = found.len() as u64;
        self.known += 1;
        self.waiting = self.waiting + 1 - many;
        self.kept += Graph::many_kept(mark, many);
        self.last = Some(last);
        self.linked = linked;
        Ok(())
    }

    /// Adds a new name that waits.
    fn wait(&mut self, alloc: Global, name: Name, parent: Name) -> Result<(), AllocError>
        requires room { self.old.known < MOST_NAMES }
        requires new { (state_of self.old).node name ≡ None }
        requires apart { IsApart (standing (state_of self.old) parent) }
        ensures ok { OnOk result ((base : Name) (links : List Link) (root : List Name) → Stands (state_of self.old) base links root → AreFound base links root (record { name = name; parent = parent }) Waits [] × Stands (state_of self.new) base (record { name = name; parent = parent } ∷ links) root) }
        ensures last { OnOk result (last_added (state_of self.new) ≡ Some name) }
        ensures err { OnErr result (state_of self.new ≡ state_of self.old) }
    {
        self.enter(alloc, name, parent, &[], Mark::Waiting)?;
        Ok(())
    }

    /// Adds a new name that is linked, with all that waited for it. They are marked so.
    fn link(
        &mut self,
        alloc: Global,
        name: Name,
        parent: Name,
        height: u64,
        mark: Mark,
    ) -> Result<Linkings, AllocError>
        requires room { self.old.known < MOST_NAMES }
        requires new { (state_of self.old).node name ≡ None }
        requires under { IsUnder mark height (standing (state_of self.old) parent) }
        ensures ok { IfOk result (λ found. (base : Name) (links : List Link) (root : List Name) → Stands (state_of self.old) base links root → AreFound base links root (record { name = name; parent = parent }) mark found × Stands (state_of self.new) base (record { name = name; parent = parent } ∷ links) root) }
        ensures sorted { IfOk result (IsSorted linking_cmp) }
        ensures itself { IfOk result (λ found. HasName found name) }
        ensures last { OnOk result (last_added (state_of self.new) ≡ Some name) }
        ensures err { OnErr result (state_of self.new ≡ state_of self.old) }
    {
        let limit = self.known + 1;
        let first = Linking {
            height: height + 1,
            name,
        };
        let mut found = hanging(alloc, &self.children, first, &name, limit)?;
        found.sort()?;
        self.enter(alloc, name, parent, found.as_slice(), mark)?;
        Ok(Linkings::new(found))
    }
}
