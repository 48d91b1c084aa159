use crate::pick::Pick;

/// In which call a volume in memory stops.
#[derive(Clone, Copy, Debug)]
pub enum Stop {
    /// In none.
    Unset,
    /// In the call of this number.
    Set(u64, Pick),
    /// It has stopped.
    Past(Pick),
}

/// What becomes of a call.
#[derive(Clone, Copy, Debug, PartialEq, Eq)]
pub enum Turn {
    /// It is carried out.
    Goes,
    /// It is carried out, and the volume stops in it.
    Stops,
    /// It fails and does nothing.
    Fails,
}
