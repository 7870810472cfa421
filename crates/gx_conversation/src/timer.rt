//! Time that has passed.

use std::time::{Clock, Duration, Instant};

/// A moment from which on time is counted.
#[derive(Clone, Copy)]
pub(crate) struct Timer {
    since: Option<Instant>,
}

impl Timer {
    pub(crate) fn start<R: Clock>(rt: &R) -> Timer {
        Timer {
            since: Instant::now(rt).ok(),
        }
    }

    /// Whether so many milliseconds have passed; so too where the clock can't be read.
    pub(crate) fn has_passed<R: Clock>(self, rt: &R, milliseconds: u64) -> bool {
        match self.since {
            Some(since) => match since.elapsed(rt) {
                Ok(passed) => passed >= Duration::from_millis(milliseconds),
                Err(_) => true,
            },
            None => true,
        }
    }
}
