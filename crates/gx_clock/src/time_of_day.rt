//! A time of day, and when it comes next.

ghost use Rattle.std.specs.Prelude.{◌≡◌, ◌+◌, ◌*◌, ◌%◌, ◌≤◌, ◌<◌};
ghost use Rattle.gx_clock.specs.{Moments.{day, last_shown}, Times.{second, time_at, time_of, written_time}};

use crate::offset::two_digits;
use gx_units::Moment;

/// The nanoseconds of a second.
const SECOND: u64 = 1_000_000_000;

/// The nanoseconds of a day.
const DAY: u64 = 86_400_000_000_000;

/// A time of day, to the second.
#[derive(Clone, Copy, PartialEq, Eq)]
pub struct TimeOfDay {
    /// The seconds since midnight, below 86,400 where it was read.
    pub seconds: u32,
}

/// The time of so many hours, minutes and seconds, where there are fewer than 24, 60 and 60.
fn time_with(hours: u16, minutes: u16, seconds: u16) -> Option<TimeOfDay>
    ensures { result ≡ time_at hours minutes seconds }
{
    if hours < 24 && minutes < 60 && seconds < 60 {
        Some(TimeOfDay {
            seconds: u32::from(hours) * 3_600 + u32::from(minutes) * 60 + u32::from(seconds),
        })
    } else {
        None
    }
}

/// The time that six digits write: two for the hours, two for the minutes, and two for the seconds.
fn time_written(a: u8, b: u8, c: u8, d: u8, e: u8, f: u8) -> Option<TimeOfDay>
    ensures { result ≡ written_time a b c d e f }
{
    let hours = two_digits(a, b)?;
    let minutes = two_digits(c, d)?;
    let seconds = two_digits(e, f)?;
    time_with(hours, minutes, seconds)
}

impl TimeOfDay {
    /// The time that a text writes: `HH:MM` or `HH:MM:SS`.
    pub fn parse(text: &str) -> Option<TimeOfDay>
        ensures { result ≡ time_of text.now }
    {
        match text.as_bytes() {
            [a, b, b':', c, d] => time_written(*a, *b, *c, *d, b'0', b'0'),
            [a, b, b':', c, d, b':', e, f] => time_written(*a, *b, *c, *d, *e, *f),
            _ => None,
        }
    }

    /// When this time comes next, from this moment on.
    pub fn next_from(self, moment: Moment) -> Moment
        requires shown { moment ≤ last_shown }
        ensures later { moment ≤ result }
        ensures first { result < moment + day }
        ensures time { result % day ≡ self.seconds * second % day }
    {
        let time = u64::from(self.seconds) * SECOND % DAY;
        let past = moment % DAY;
        let midnight = moment - past;
        if past <= time {
            midnight + time
        } else {
            midnight + DAY + time
        }
    }
}
