ghost use Rattle.std.specs.Prelude.{◌≡◌, ◌++◌, [], ◌∷◌};
ghost use Rattle.log_format.specs.Form.{magic_of, most_entries_of, most_bytes_of};

use crate::layout::{EMPTY_LOG, MAGIC_SIZE};

/// The first eight bytes of a file of form One.
pub const MAGIC_ONE: [u8; MAGIC_SIZE] = *b"PADLOG1\n";

/// The first eight bytes of a file of form Two.
pub const MAGIC_TWO: [u8; MAGIC_SIZE] = *b"PADLOG2\n";

/// The most entries that a log of form One may have.
pub const MOST_ENTRIES_ONE: u64 = 1_048_576;

/// The most entries that a log of form Two may have.
pub const MOST_ENTRIES_TWO: u64 = 1_048_577;

/// The most bytes that a file of form One may have.
pub const MOST_BYTES_ONE: u64 = 1 << 30;

/// The most bytes that a file of form Two may have.
pub const MOST_BYTES_TWO: u64 = (1 << 30) + (1 << 24);

/// A form of log files. The two differ in their magic and their limits alone.
#[derive(Clone, Copy, Debug, PartialEq, Eq)]
pub enum Form {
    /// Files that begin with `PADLOG1` and a line feed.
    One,
    /// Files that begin with `PADLOG2` and a line feed.
    Two,
}

impl Form {
    /// The magic: the first eight bytes of a file.
    pub fn magic(self) -> [u8; MAGIC_SIZE]
        ensures { result ≡ magic_of self }
    {
        match self {
            Form::One => MAGIC_ONE,
            Form::Two => MAGIC_TWO,
        }
    }

    /// The file of a log without entries: the magic and a closed gate.
    pub fn empty_log(self) -> [u8; EMPTY_LOG]
        ensures { result ≡ magic_of self ++ 0 ∷ [] }
    {
        match self {
            Form::One => *b"PADLOG1\n\0",
            Form::Two => *b"PADLOG2\n\0",
        }
    }

    /// The most entries that a log may have.
    pub fn most_entries(self) -> u64
        ensures { result ≡ most_entries_of self }
    {
        match self {
            Form::One => MOST_ENTRIES_ONE,
            Form::Two => MOST_ENTRIES_TWO,
        }
    }

    /// The most bytes that a file may have.
    pub fn most_bytes(self) -> u64
        ensures { result ≡ most_bytes_of self }
    {
        match self {
            Form::One => MOST_BYTES_ONE,
            Form::Two => MOST_BYTES_TWO,
        }
    }
}
