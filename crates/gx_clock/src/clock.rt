//! A clock that has begun.

ghost use Rattle.std.specs.{Prelude.{◌≡◌, ◌≤◌, min, option_map}, Duration.as_nanos, Time.instant_nanos};
ghost use Rattle.gx_clock.specs.Moments.{first_moment, last_shown, IsShown};

use crate::moments::{LAST_SHOWN, first_moment, moment_at};
use crate::now::ClockReading;
use crate::offset::UtcOffset;
use gx_units::Moment;
use std::marker::Model;
use std::sync::atomic::{AtomicU64, Ordering};
use std::time::{Clock, Duration, Instant};

/// The clock of a server's day. It shows its first moment, and what the monotonic clock has gone on by since then: what is
/// done to the wall clock meanwhile changes nothing.
#[derive(Drop)]
pub struct DayClock {
    start: Moment,
    begun: Option<Instant>,
    shown: AtomicU64,
}

impl Model for DayClock {
    ghost use Rattle.std.specs.Prelude.{◌≤◌, option_map};
    ghost use Rattle.std.specs.Time.{instant_nanos};
    ghost use Rattle.gx_clock.specs.Moments.{ClockData, last_shown};

    ghost Value = { ClockData };

    ghost view = { λ c. record { start = c.start; begun = option_map instant_nanos c.begun } };

    ghost invariant = { λ c. c.start ≤ last_shown };
}

impl DayClock {
    /// A clock that begins at these readings of the wall clock and of the monotonic clock, `None` where one can't be read,
    /// behind the day's last record.
    pub fn at(
        offset: UtcOffset,
        since: Option<Duration>,
        begun: Option<Instant>,
        last: Moment,
    ) -> DayClock
        ensures start { result.start ≡ first_moment offset (option_map as_nanos since) last }
        ensures begun { result.begun ≡ option_map instant_nanos begun }
    {
        let start = first_moment(offset, since, last);
        DayClock {
            start,
            begun,
            shown: AtomicU64::new(start),
        }
    }

    /// A clock that begins now, behind the day's last record, which is of the moment `last`.
    pub fn begin<R: Clock>(rt: &R, offset: UtcOffset, last: Moment) -> DayClock
        ensures { min last last_shown ≤ result.start }
    {
        let reading = ClockReading::take(rt);
        DayClock::at(offset, reading.since, reading.begun, last)
    }

    /// The moment at a reading of the monotonic clock. Where that can't be read, the latest that was shown.
    pub fn show(&self, reading: Option<Instant>) -> Moment
        ensures read { IsShown self.now (option_map instant_nanos reading) result }
        ensures from { self.now.start ≤ result }
        ensures until { result ≤ last_shown }
    {
        match (self.begun, reading) {
            (Some(begun), Some(now)) => {
                let moment = moment_at(self.start, begun, now);
                self.shown.fetch_max(moment, Ordering::SeqCst);
                moment
            }
            _ => self
                .shown
                .load(Ordering::SeqCst)
                .max(self.start)
                .min(LAST_SHOWN),
        }
    }

    /// The moment now.
    pub fn now<R: Clock>(&self, rt: &R) -> Moment
        ensures from { self.now.start ≤ result }
        ensures until { result ≤ last_shown }
    {
        self.show(Instant::now(rt).ok())
    }
}
