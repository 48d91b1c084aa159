ghost use Rattle.std.specs.Prelude.{◌≡◌, OnOk, IfOk, [], ◌∷◌, ◌++◌, List, ℕ, nat_eq, false, length, option_copied};
ghost use Rattle.std.specs.Map.{lookup};
ghost use Rattle.std.specs.Option.{is_some};
ghost use Rattle.netflux_rooms.specs.Inside.Seats.{without};

use indexmap::IndexMap;
use netflux_codec::Id;
use std::alloc::{AllocError, Global};

/// An open connection.
#[derive(Drop)]
pub(crate) struct Seat {
    /// Which of those taken in it is, from 1.
    pub(crate) serial: u64,
    /// Its identity.
    pub(crate) id: Id,
}

/// The open connections by the port's numbers, in the order in which they opened.
#[derive(Drop)]
pub(crate) struct Seats {
    table: IndexMap<u64, Seat>,
}

impl Seats {
    /// No connections.
    pub(crate) fn new(alloc: Global) -> Seats
        ensures { result.table.entries ≡ [] }
    {
        Seats {
            table: IndexMap::new(alloc),
        }
    }

    /// How many they are.
    pub(crate) fn len(&self) -> usize
        ensures { result ≡ length self.now.table.entries }
    {
        self.table.len()
    }

    /// Whether a connection is open.
    pub(crate) fn contains(&self, number: u64) -> bool
        ensures { result ≡ is_some (lookup (nat_eq number) self.now.table.entries) }
    {
        self.table.contains_key(&number)
    }

    /// The seat of a connection.
    pub(crate) fn get(&self, number: u64) -> Option<&Seat>
        ensures { option_copied result ≡ lookup (nat_eq number) self.now.table.entries }
    {
        self.table.get(&number)
    }

    /// One connection more.
    pub(crate) fn add(&mut self, number: u64, seat: Seat) -> Result<(), AllocError>
        requires { is_some (lookup (nat_eq number) self.old.table.entries) ≡ false }
        ensures { OnOk result (self.new.table.entries ≡ self.old.table.entries ++ (number, seat) ∷ []) }
    {
        self.table.insert(number, seat)?;
        Ok(())
    }

    /// One connection less.
    pub(crate) fn remove(&mut self, number: u64)
        ensures { self.new.table.entries ≡ without number self.old.table.entries }
    {
        let _unique = self.table.len();
        self.table.shift_remove(&number);
    }
}
