ghost use Rattle.std.specs.Prelude.{◌≡◌};

use crate::origin::Origin;

/// One of the two patches of a merge.
#[derive(Clone, Copy, Debug)]
pub(crate) enum Side {
    /// The patch that is applied first.
    Earlier,
    /// The patch that is applied to the text after the first.
    Later,
}

impl Side {
    ghost use Rattle.pad_merge.specs.CopiedUnit.{origin_in};

    /// The origin of the unit at a place among all that this patch inserts.
    pub fn origin(self, place: u64) -> Origin
        ensures { result ≡ origin_in self place }
    {
        match self {
            Side::Earlier => Origin::First(place),
            Side::Later => Origin::Second(place),
        }
    }
}
