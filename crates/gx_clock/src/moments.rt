//! The moment of the day, and how moments go on.

ghost use Rattle.std.specs.{Prelude.{◌≡◌, ◌≤◌, ◌<◌, option_map}, Duration.as_nanos, Time.instant_nanos};
ghost use Rattle.gx_clock.specs.Moments.{ahead_of_utc, first_moment, moment_at, moment_of_day, day, last_shown};

use crate::offset::UtcOffset;
use gx_units::Moment;
use std::time::{Duration, Instant};

/// The nanoseconds of a minute.
pub(crate) const MINUTE: u128 = 60_000_000_000;

/// The nanoseconds of a day.
pub(crate) const DAY: u128 = 86_400_000_000_000;

/// The last moment that a clock shows: three days behind its midnight, less a nanosecond.
pub(crate) const LAST_SHOWN: Moment = 259_199_999_999_999;

/// By how much local time is ahead of UTC, less whole days.
fn ahead(offset: UtcOffset) -> u128
    ensures { result ≡ ahead_of_utc offset }
{
    match offset {
        UtcOffset::Ahead(minutes) => u128::from(minutes) * MINUTE,
        UtcOffset::Behind(minutes) => DAY - u128::from(minutes) * MINUTE % DAY,
    }
}

/// How long ago local midnight was, so long behind the beginning of 1970 in UTC.
pub fn moment_of_day(offset: UtcOffset, since: Duration) -> Moment
    ensures exact { result ≡ moment_of_day offset (as_nanos since) }
    ensures within { result < day }
{
    ((since.as_nanos() + ahead(offset)) % DAY) as u64
}

/// The moment at a reading of the monotonic clock, which was at `begun` at the moment `start`. A clock that goes back shows
/// `start` at the least, and none shows more than [`LAST_SHOWN`].
pub fn moment_at(start: Moment, begun: Instant, now: Instant) -> Moment
    ensures exact { result ≡ moment_at start (instant_nanos begun) (instant_nanos now) }
{
    let gone = now.duration_since(begun).as_nanos();
    (u128::from(start) + gone).min(u128::from(LAST_SHOWN)) as u64
}

/// The first moment of a run: that of the wall clock, or midnight where that can't be read, but no earlier than `last`, that
/// of the day's last record.
pub fn first_moment(offset: UtcOffset, since: Option<Duration>, last: Moment) -> Moment
    ensures exact { result ≡ first_moment offset (option_map as_nanos since) last }
    ensures shown { result ≤ last_shown }
{
    let moment = match since {
        Some(since) => moment_of_day(offset, since),
        None => 0,
    };
    moment.max(last).min(LAST_SHOWN)
}
