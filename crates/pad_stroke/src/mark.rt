/// Which edit typed a unit, and where in what it typed.
#[derive(Clone, Copy, Debug, PartialEq, Eq)]
pub struct Mark {
    /// The number of the edit.
    pub stroke: u64,
    /// The place of the unit in the edit's insertion, from 0.
    pub index: u64,
}
