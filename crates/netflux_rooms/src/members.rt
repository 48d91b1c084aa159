ghost use Rattle.std.specs.Prelude.{◌≡◌, OnOk, IfOk, [], ◌∷◌, ◌++◌, nat_eq, false, IsTrue, ◌↔◌, length};
ghost use Rattle.std.specs.List.{list_any};
ghost use Rattle.netflux_rooms.specs.Rooms.{but};

use indexmap::IndexSet;
use std::alloc::{AllocError, Global};
use std::marker::Model;

/// The members of a channel. Contracts see their numbers, in the order of joining.
#[derive(Drop)]
pub(crate) struct Members {
    numbers: IndexSet<u64>,
}

impl Model for Members {
    ghost use Rattle.std.specs.Prelude.{ℕ, List};

    ghost Value = { List ℕ };

    ghost view = { λ it. it.numbers.keys };
}

impl Members {
    /// No members.
    pub(crate) fn new(alloc: Global) -> Members
        ensures { result ≡ [] }
    {
        Members {
            numbers: IndexSet::new(alloc),
        }
    }

    /// Whether this connection is a member.
    pub(crate) fn contains(&self, number: u64) -> bool
        ensures { result ≡ list_any (nat_eq number) self.now }
    {
        self.numbers.contains(&number)
    }

    /// Lends the numbers.
    pub(crate) fn as_slice(&self) -> &[u64]
        ensures { result.now ≡ self.now }
    {
        self.numbers.as_slice()
    }

    /// Whether there are none.
    pub(crate) fn is_empty(&self) -> bool
        ensures { IsTrue result ↔ (length self.now ≡ 0) }
    {
        self.numbers.is_empty()
    }

    /// One member more.
    pub(crate) fn join(&mut self, number: u64) -> Result<(), AllocError>
        requires { list_any (nat_eq number) self.old ≡ false }
        ensures { OnOk result (self.new ≡ self.old ++ number ∷ []) }
    {
        self.numbers.insert(number)?;
        Ok(())
    }

    /// One member less.
    pub(crate) fn leave(&mut self, number: u64)
        ensures { self.new ≡ but number self.old }
    {
        let _unique = self.numbers.len();
        self.numbers.shift_remove(&number);
    }
}
