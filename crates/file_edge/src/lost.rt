ghost use Rattle.std.specs.Prelude.{◌≡◌, [], false, IsTrue, IfOk};
ghost use Rattle.file_edge.specs.Lost.{Losses, is_lost, StayLost};

use crate::name::Name;
use std::alloc::Global;
use std::marker::Model;

/// The files whose sync failed in this run. The system may answer a later sync of such a file Ok though what was written
/// to it is gone.
#[derive(Debug, Drop)]
pub(crate) struct Lost {
    names: Vec<Name>,
    all: bool,
}

impl Model for Lost {
    ghost use Rattle.file_edge.specs.Lost.{Losses};

    ghost Value = { Losses };

    ghost view = { λ lost. record { names = lost.names.items; all = lost.all } };
}

impl Lost {
    /// None yet.
    pub(crate) fn new(alloc: Global) -> Lost
        ensures { result ≡ record { names = []; all = false } }
    {
        Lost {
            names: Vec::new(alloc),
            all: false,
        }
    }

    /// Whether a sync of this file failed.
    pub(crate) fn has(&self, name: &str) -> bool
        ensures { result ≡ is_lost self.now name.now }
    {
        self.all || self.has_name(name)
    }

    /// Whether this file is among those that are named.
    fn has_name(&self, name: &str) -> bool
        ensures { result ≡ is_lost (record self.now { all = false }) name.now }
    {
        self.names.iter().any(|other| other.is(name))
    }

    /// Adds a file. If there is no memory for its name, every file counts as lost.
    #[tactic(auto, using(crate::proofs::LostLemmas::added_name))]
    pub(crate) fn add(&mut self, name: Name)
        ensures added { IsTrue (is_lost self.new name) }
        ensures kept { StayLost self.old self.new }
    {
        if self.names.push(name).is_err() {
            self.all = true;
        }
    }

    /// Adds every file.
    pub(crate) fn add_all(&mut self)
        ensures kept { StayLost self.old self.new }
        ensures all { IsTrue self.new.all }
    {
        self.all = true;
    }

    /// Adds the file of this name. If there is no memory for it, every file counts as lost.
    pub(crate) fn add_named(&mut self, alloc: Global, name: &str)
        ensures added { IsTrue (is_lost self.new name.now) }
        ensures kept { StayLost self.old self.new }
    {
        match Name::of(alloc, name) {
            Ok(name) => self.add(name),
            Err(_) => self.all = true,
        }
    }
}
