use thiserror::Error;

/// Why serving ended early.
#[derive(Clone, Copy, Debug, PartialEq, Eq, Error)]
pub enum ServeRefused {
    /// The folder could not be made or opened.
    #[error("the volume failed")]
    Store,
    /// The port could not listen, or failed.
    #[error("the port failed")]
    Link,
    /// A write failed.
    #[error("a write failed")]
    Write,
    /// Memory ran out.
    #[error("out of memory")]
    NoMemory,
}
