//! The times of the day at which samples are taken and orders counted.

use gx_units::Moment;

/// How many spans a day is cut into.
const MOST: u64 = 48;

/// A part of the day, cut into spans of one width.
#[derive(Clone, Copy, PartialEq, Eq)]
pub struct Spans {
    /// In nanoseconds past midnight.
    pub from: Moment,
    /// In nanoseconds.
    pub width: u64,
    /// How many there are.
    pub count: u64,
}

impl Spans {
    /// From the first moment to the last one, both among them.
    pub fn between(first: Moment, last: Moment) -> Spans {
        Spans {
            from: first,
            width: last.saturating_sub(first) / MOST + 1,
            count: MOST,
        }
    }

    /// The first moment of the span at this place, from 0.
    pub fn begin(self, place: u64) -> Moment {
        self.from.saturating_add(self.width.saturating_mul(place))
    }

    /// The last moment of the span at this place.
    pub fn end(self, place: u64) -> Moment {
        self.begin(place)
            .saturating_add(self.width.saturating_sub(1))
    }
}
