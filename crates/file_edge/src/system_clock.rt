ghost use Rattle.std.specs.Prelude.{ℕ, List, []};

use pad_edge::Clock;
use std::time::{SystemTime, UNIX_EPOCH};

/// The clock of the system. Contracts know none of the moments that it shows.
#[derive(Drop)]
pub struct SystemClock<R: std::time::Clock + Drop> {
    rt: R,
}

impl<R: std::time::Clock + Drop> SystemClock<R> {
    /// The clock of this runtime.
    pub fn new(rt: R) -> SystemClock<R> {
        SystemClock { rt }
    }
}

impl<R: std::time::Clock + Drop> Clock for SystemClock<R> {
    ghost tells = { ⊥ };

    ghost coming = { λ _. [] };

    /// 0 if the clock cannot be read or is set before 1970.
    fn now(&mut self) -> u64 {
        let Ok(time) = SystemTime::now(&self.rt) else {
            return 0;
        };
        match time.duration_since(UNIX_EPOCH) {
            Ok(since) => since.as_secs(),
            Err(_) => 0,
        }
    }
}
