use crate::origin::Origin;

/// One unit of a copy of a text.
#[derive(Clone, Copy, Debug)]
pub(crate) enum CopiedUnit {
    /// The unit of the text at this place.
    Kept(u32),
    /// This new unit, and where it was inserted.
    New(u16, Origin),
}
