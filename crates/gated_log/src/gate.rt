ghost use Rattle.std.specs.Prelude.{◌<◌, ◌≤◌};
ghost use Rattle.log_format.specs.declared.layout.TheConstants.{MAGIC_SIZE};
ghost use Rattle.log_format.specs.declared.form.TheConstants.{MOST_BYTES_TWO};

/// A gate of a log file.
#[derive(Clone, Copy, Debug)]
pub struct Gate {
    pub place: u64,
    pub byte: u8,
    ghost behind_magic: { MAGIC_SIZE ≤ place },
    ghost within: { place < MOST_BYTES_TWO },
}
