/// What the keeper was asked.
#[derive(Clone, Copy, Debug, PartialEq, Eq)]
pub enum Asked {
    /// Nothing.
    Nothing,
    /// A history under this number, and whether the next entry may be adopted: it is a default history of which no entry was heard yet.
    History(u32, bool),
    /// The history of a repair, under this number.
    Repair(u32),
}
