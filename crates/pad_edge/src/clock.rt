ghost use Rattle.std.specs.Prelude.{◌≡◌, ℕ, List};
ghost use Rattle.pad_edge.specs.Clock.{next_moment, moments_after};

/// A clock of whole seconds since 1970.
pub trait Clock {
    /// Whether it knows beforehand which moments it will show.
    ghost tells: { Type 0 };

    /// The moments still to come, in their order. The last one stays.
    ghost coming: { Self → List ℕ };

    /// The seconds since 1970. It takes no memory and cannot fail.
    fn now(&mut self) -> u64
        ensures now { tells → result ≡ next_moment (coming self.old) }
        ensures coming { tells → coming self.new ≡ moments_after (coming self.old) };
}
