//! How many requests the lines of a script make.
ghost use Rattle.std.specs.Prelude.{◌↔◌, ◌<◌, IsTrue};

/// The fewest bytes of a line that makes requests, the newline that ends it included.
pub const LEAST_BYTES: u64 = 5;

/// The most requests that one line makes.
pub const MOST_EACH: u64 = 64;

/// A client makes its requests while fewer than so many were made.
pub const MOST_REQUESTS: u32 = 4_294_967_000;

/// Whether a client that made so many requests may make more.
pub fn may_request(made: u32) -> bool
    ensures { IsTrue result ↔ (made < MOST_REQUESTS) }
{
    made < MOST_REQUESTS
}
