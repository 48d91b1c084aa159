use thiserror::Error;

/// Why a log file cannot be loaded. Of several damages the first in this order counts: `Long`, `Magic`, `Many`.
#[derive(Clone, Copy, Debug, PartialEq, Eq, Error)]
pub enum Damage {
    /// The file has more than nine bytes, and these are its first eight: not the magic.
    #[error("the file does not begin as a log file does")]
    Magic([u8; 8]),
    /// The file has this many bytes, more than its form allows.
    #[error("the file has {0} bytes")]
    Long(u64),
    /// The file has more entries than its form allows.
    #[error("the file has too many entries")]
    Many,
    /// The payload of this index is not what the layer above keeps in a log. Loading a log does not find this damage.
    #[error("entry {0} is not readable")]
    Entry(u64),
}
