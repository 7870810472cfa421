//! The clock of a server's day: moments are nanoseconds past the midnight before the server starts, and go on past the next.
//!
//! - `offset`: how far local time is from UTC, and how that is written;
//! - `moments`: the moment of the day, and how moments go on;
//! - `time_of_day`: a time of day, and when it comes next;
//! - `now`: what the machine's clocks read, and the date;
//! - `clock`: a clock that has begun.
#![tactic(auto)]

mod clock;
mod laws;
mod moments;
mod now;
mod offset;
mod time_of_day;

pub use clock::DayClock;
pub use laws::{
    days_begin_at_midnight, local_time_is_behind, moments_go_on, no_other_text_is_read,
    offsets_are_read,
};
pub use moments::{first_moment, moment_at, moment_of_day};
pub use now::ClockReading;
pub use offset::UtcOffset;
pub use time_of_day::TimeOfDay;
