ghost use Rattle.std.specs.Prelude.{◌≡◌, ◌≤◌, ◌↔◌, true, false, IsTrue, Contains};
ghost use Rattle.pad_edge.specs.Calls.{no_calls, one_more};

use crate::failed::Failed;
use std::marker::Model;

/// The calls of a fake in memory: which of them fail, by their numbers from 0, and how many were made and failed.
#[derive(Debug, Drop)]
pub(crate) struct Calls {
    failing: Vec<u64>,
    made: u64,
    faults: u64,
}

impl Model for Calls {
    ghost use Rattle.pad_edge.specs.Calls.{CallCounts};

    ghost Value = { CallCounts };

    ghost view = { λ calls. record { failing = calls.failing.items; made = calls.made; faults = calls.faults } };
}

impl Calls {
    /// No call was made yet. It only moves the list.
    pub(crate) fn new(failing: Vec<u64>) -> Calls
        ensures { result ≡ no_calls failing.items }
    {
        Calls {
            failing,
            made: 0,
            faults: 0,
        }
    }

    /// Whether the next call is one of those that fail.
    pub(crate) fn fails_next(&self) -> bool
        ensures { IsTrue result ↔ Contains self.now.failing self.now.made }
    {
        self.failing.contains(&self.made)
    }

    /// Counts a call that did what was asked.
    pub(crate) fn count_done(&mut self)
        ensures { self.new ≡ one_more self.old false }
    {
        self.made = self.made.saturating_add(1);
    }

    /// Counts a call that fails, and gives its error.
    pub(crate) fn count_failed(&mut self) -> Failed
        ensures counts { self.new ≡ one_more self.old true }
        ensures later { self.old.faults ≤ self.new.faults }
    {
        self.made = self.made.saturating_add(1);
        self.faults = self.faults.saturating_add(1);
        Failed
    }
}
