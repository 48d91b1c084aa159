use thiserror::Error;

/// Why nothing was generated, or not all of it was written.
#[derive(Clone, Copy, Debug, PartialEq, Eq, Error)]
pub enum GenerateRefused {
    /// A write failed.
    #[error("a write failed")]
    Write,
    /// Memory ran out.
    #[error("out of memory")]
    NoMemory,
}
