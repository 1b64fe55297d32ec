//! The limits of a daemon.
ghost use Rattle.std.specs.Prelude.{◌≡◌};
ghost use Rattle.std.specs.Duration.{as_nanos};

use std::time::Duration;

/// How many connections for stop orders are kept, and how many orders are answered.
pub const MAX_ORDERS: usize = 64;

/// How many of the places clients that only read may hold, and how many all others may, if there are both.
pub const MOST_OF_A_SIDE: usize = 15;

/// How many connections of a socket a pause accepts at most. It is a power of two.
pub const MAX_ACCEPTED: usize = 1 << 10;

/// How long clients may take replies after the order to stop.
pub fn finishing_time() -> Duration
    ensures { as_nanos result ≡ 5_000_000_000 }
{
    Duration::from_secs(5)
}

/// After which time a connection that couldn't be accepted is tried again.
pub fn retry_time() -> Duration {
    Duration::from_secs(1)
}

/// How long a pass asks for more after it has found something.
pub fn gathering_time() -> Duration {
    Duration::from_micros(20)
}

/// How long replies may leave after a look whether the store is in its place.
pub fn looking_time() -> Duration {
    Duration::from_secs(1)
}
