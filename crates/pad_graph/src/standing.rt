/// How a graph knows a name.
#[derive(Clone, Copy, Debug, PartialEq, Eq)]
pub enum Standing {
    /// It is neither the base nor was it added.
    Unknown,
    /// It was added, and does not hang on the base.
    Waiting,
    /// It is the root or is linked through it, at this height.
    Linked(u64),
    /// It is linked at this height, and not through the root.
    Gone(u64),
}
