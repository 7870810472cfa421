//! What the machine's clocks read at one time.

ghost use Rattle.std.specs.{Prelude.{◌≡◌, option_map}, Duration.as_nanos};
ghost use Rattle.gx_clock.specs.Moments.{date_of, local_time};

use crate::moments::{DAY, MINUTE};
use crate::offset::UtcOffset;
use std::time::{Clock, Duration, Instant};

/// What the machine's clocks read at one time; `None` where one can't be read.
#[derive(Clone, Copy)]
pub struct ClockReading {
    /// How long ago 1970 began in UTC, by the wall clock.
    pub since: Option<Duration>,
    /// The monotonic clock.
    pub begun: Option<Instant>,
}

/// The local time, in nanoseconds since the beginning of 1970 there, and no earlier than that.
fn local_time(offset: UtcOffset, since: Duration) -> u128
    ensures { result ≡ local_time offset (as_nanos since) }
{
    match offset {
        UtcOffset::Ahead(minutes) => since.as_nanos() + u128::from(minutes) * MINUTE,
        UtcOffset::Behind(minutes) => since
            .as_nanos()
            .saturating_sub(u128::from(minutes) * MINUTE),
    }
}

impl ClockReading {
    /// What the clocks read now.
    pub fn take<R: Clock>(rt: &R) -> ClockReading {
        ClockReading {
            since: rt.since_1970().ok(),
            begun: Instant::now(rt).ok(),
        }
    }

    /// The local date, in days since 1 January 1970: that of the midnight from which moments count. 0 where the wall clock
    /// can't be read.
    pub fn date(self, offset: UtcOffset) -> u32
        ensures { result ≡ date_of offset (option_map as_nanos self.since) }
    {
        match self.since {
            Some(since) => (local_time(offset, since) / DAY).min(u128::from(u32::MAX)) as u32,
            None => 0,
        }
    }
}
