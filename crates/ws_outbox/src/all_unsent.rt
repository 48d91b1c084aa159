ghost use Rattle.std.specs.Prelude.{◌≡◌, ◌+◌, ◌-◌, ◌≤◌};

use crate::limits::ALL_UNSENT_BYTES;
use std::marker::Model;

/// How many bytes wait to go out, over all connections together: at most `ALL_UNSENT_BYTES`. Contracts see the number.
#[derive(Drop)]
pub struct AllUnsent {
    bytes: usize,
}

impl Model for AllUnsent {
    ghost use Rattle.std.specs.Prelude.{ℕ, ◌≤◌};
    ghost use Rattle.ws_outbox.specs.declared.limits.TheConstants.{ALL_UNSENT_BYTES};

    ghost Value = { ℕ };

    ghost view = { λ all. all.bytes };

    ghost invariant = { λ all. all.bytes ≤ ALL_UNSENT_BYTES };
}

impl AllUnsent {
    /// Nothing waits.
    pub fn new() -> AllUnsent
        ensures { result ≡ 0 }
    {
        AllUnsent { bytes: 0 }
    }

    /// How many more may wait.
    pub fn room(&self) -> usize
        ensures { self.now + result ≡ ALL_UNSENT_BYTES }
    {
        ALL_UNSENT_BYTES - self.bytes
    }

    /// Over one connection so many waited before, and so many wait now.
    pub fn change(&mut self, before: usize, now: usize)
        requires { self.old + now ≤ ALL_UNSENT_BYTES + before }
        ensures { self.new ≡ (self.old + now) - before }
    {
        if now >= before {
            self.bytes += now - before;
        } else {
            self.bytes = self.bytes.saturating_sub(before - now);
        }
    }
}
