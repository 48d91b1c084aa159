ghost use Rattle.std.specs.Prelude.{◌≡◌};
ghost use Rattle.netflux_codec.specs.Who.{IsWho, who_digits};

use crate::digits::{Id, KeeperId};

/// Who joined a channel.
#[derive(Clone, Copy, Debug, PartialEq, Eq)]
pub enum Who {
    /// A connection.
    Member(Id),
    /// The history keeper.
    Keeper(KeeperId),
}

impl Who {
    /// Lends the digits of the identity.
    pub fn as_str(&self) -> &str
        ensures value { result.now ≡ who_digits self.now }
        ensures are { IsWho self.now }
    {
        match self {
            Who::Member(id) => id.as_str(),
            Who::Keeper(keeper) => keeper.as_str(),
        }
    }
}
