/// Where an inserted unit of a merge comes from: its place among all units that one of the two patches inserts, from left to right.
#[derive(Clone, Copy, Debug, PartialEq, Eq)]
pub enum Origin {
    /// A place among the units that the first patch inserts.
    First(u64),
    /// A place among the units that the second patch inserts.
    Second(u64),
}
