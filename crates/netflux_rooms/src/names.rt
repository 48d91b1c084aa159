ghost use Rattle.std.specs.Prelude.{◌≡◌, OnOk, Some, None, List, ℕ, bytes_eq, false};
ghost use Rattle.netflux_rooms.specs.Tables.{names_at};

use crate::key::Key;
use netflux_codec::Id;
use std::alloc::{AllocError, Global};
use std::collections::BTreeMap;

/// The open connections by their identities. Clients choose what is looked up, so the map is ordered.
#[derive(Drop)]
pub(crate) struct Names {
    ids: BTreeMap<Key, u64>,
}

impl Names {
    /// Nobody.
    pub(crate) fn new(alloc: Global) -> Names
        ensures { (id : List ℕ) → names_at result.ids.entries id ≡ None }
    {
        Names {
            ids: BTreeMap::new(alloc),
        }
    }

    /// The connection of an identity.
    pub(crate) fn get(&self, id: &Id) -> Option<u64>
        ensures { result ≡ names_at self.now.ids.entries id.now }
    {
        let key = Key::of(id);
        self.ids.get(&key).copied()
    }

    /// One more.
    pub(crate) fn add(&mut self, id: Id, number: u64) -> Result<(), AllocError>
        ensures here { OnOk result (names_at self.new.ids.entries id ≡ Some number) }
        ensures apart { OnOk result ((other : List ℕ) → bytes_eq id other ≡ false
            → names_at self.new.ids.entries other ≡ names_at self.old.ids.entries other) }
    {
        let key = Key::of(&id);
        self.ids.insert(key, number)?;
        Ok(())
    }

    /// One less.
    pub(crate) fn remove(&mut self, id: &Id)
        ensures here { names_at self.new.ids.entries id.now ≡ None }
        ensures apart { (other : List ℕ) → bytes_eq id.now other ≡ false
            → names_at self.new.ids.entries other ≡ names_at self.old.ids.entries other }
    {
        let key = Key::of(id);
        self.ids.remove(&key);
    }
}
