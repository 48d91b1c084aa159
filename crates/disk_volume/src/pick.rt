/// What a stop leaves of the ranges that were written to a file since its last sync that answered Ok. A cut since then is
/// undone by `Old`, and done with `New` and `Torn`.
#[derive(Clone, Copy, Debug, PartialEq, Eq)]
pub enum Pick {
    /// The old bytes and the old length.
    Old,
    /// The new bytes and the new length.
    New,
    /// The new length, with this byte all over the ranges.
    Torn(u8),
}
