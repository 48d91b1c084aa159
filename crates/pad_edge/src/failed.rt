use thiserror::Error;

/// A call to the outside did not do what it was asked for.
#[derive(Clone, Copy, Debug, PartialEq, Eq, Error)]
#[error("a call to the outside failed")]
pub struct Failed;
