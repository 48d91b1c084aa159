use thiserror::Error;

/// Why a patch does not fit a text. The first class that occurs is told, with the least index in it.
#[derive(Clone, Copy, Debug, PartialEq, Eq, Error)]
pub enum Misfit {
    /// The operation at this index starts before the one before it ends. Touching is allowed.
    #[error("operation {0} starts before the one before it ends")]
    Order(usize),
    /// The operation at this index ends after the text.
    #[error("operation {0} ends after the text")]
    Range(usize),
    /// The operation at this index starts or ends between the two units of a surrogate pair.
    #[error("operation {0} cuts a surrogate pair")]
    Pair(usize),
    /// The result has more than 262,144 units.
    #[error("the result is too long")]
    TooLong,
    /// The patch was made for a text with another document hash.
    #[error("the patch is for another text")]
    BeforeHash,
}
