ghost use Rattle.std.specs.Prelude.{◌≡◌, ℕ, List};
ghost use Rattle.pad_edge.specs.Clock.{next_moment, moments_after};

use crate::clock::Clock;
use std::marker::Model;

/// A clock in memory. It shows the moments of a list in order, then the last one again and again, and 0 if the list is
/// empty. Contracts see the moments still to come.
#[derive(Debug, Drop)]
pub struct MemClock {
    moments: Vec<u64>,
    shown: usize,
}

impl Model for MemClock {
    ghost use Rattle.std.specs.Prelude.{ℕ, ◌≤◌, List, drop, vec_len};

    ghost Value = { List ℕ };

    ghost view = { λ clock. drop clock.shown clock.moments.items };

    ghost invariant = { λ clock. clock.shown ≤ vec_len clock.moments };
}

impl MemClock {
    /// A clock that shows these moments. It only moves the list.
    pub fn new(moments: Vec<u64>) -> MemClock
        ensures { result ≡ moments.items }
    {
        MemClock { moments, shown: 0 }
    }
}

impl Clock for MemClock {
    ghost tells = { Unit {0} };

    ghost coming = { λ clock. clock };

    fn now(&mut self) -> u64
        ensures now { result ≡ next_moment self.old }
        ensures coming { self.new ≡ moments_after self.old }
    {
        match &self.moments[self.shown..] {
            [] => 0,
            [moment] => *moment,
            [moment, ..] => {
                let moment = *moment;
                self.shown += 1;
                moment
            }
        }
    }
}
