//! The peak of a figure, and what one more record makes of it.

ghost use Rattle.std.specs.Prelude.{◌≡◌};
ghost use Rattle.gx_peaks.specs.{Peaks.is_over, Raising.{passed_at, raised_to, taken_in, peak_at_zero}};

use gx_units::Moment;

/// The greatest that a figure came to, and where it was first past its limit. Numbers are those of records.
#[derive(Clone, Copy, PartialEq, Eq)]
pub struct Peak {
    /// The greatest: shares, or ten-thousandths of a dollar.
    pub used: u128,
    /// The record behind which the figure first stood there; 0 where it never was above 0.
    pub number: u64,
    /// The moment of that record, in nanoseconds past midnight; 0 where there is none.
    pub moment: Moment,
    /// The limit that was in force behind that record.
    pub limit: Option<u64>,
    /// The first record behind which the figure was past the limit then in force.
    pub first_past: Option<u64>,
}

/// What a figure and its limit are behind a record.
#[derive(Clone, Copy, PartialEq, Eq)]
pub struct Reading {
    /// What is used, in shares or in ten-thousandths of a dollar.
    pub used: u128,
    /// The limit in force, in the same unit.
    pub limit: Option<u64>,
    /// The number and the moment of the record.
    pub number: u64,
    /// In nanoseconds past midnight.
    pub moment: Moment,
}

impl Reading {
    /// The figure is past the limit.
    fn is_over(self) -> bool
        ensures { result ≡ is_over self.used self.limit }
    {
        match self.limit {
            Some(most) => self.used > u128::from(most),
            None => false,
        }
    }
}

impl Peak {
    /// The peak of a figure that was 0 all the time, under this limit of the file.
    pub fn unmoved(limit: Option<u64>) -> Peak
        ensures { result ≡ peak_at_zero limit }
    {
        Peak {
            used: 0,
            number: 0,
            moment: 0,
            limit,
            first_past: None,
        }
    }

    /// Moved to the reading, where that is greater.
    fn raised(self, now: Reading) -> Peak
        ensures { result ≡ raised_to now self }
    {
        if now.used <= self.used {
            return self;
        }
        Peak {
            used: now.used,
            number: now.number,
            moment: now.moment,
            limit: now.limit,
            first_past: self.first_past,
        }
    }

    /// First past the limit at the reading, where it is past it there and never was before.
    fn passed(self, now: Reading) -> Peak
        ensures { result ≡ passed_at now self }
    {
        if self.first_past.is_some() || !now.is_over() {
            return self;
        }
        Peak {
            first_past: Some(now.number),
            ..self
        }
    }

    /// The peak once the figure is read behind one more record.
    pub fn taking_in(self, now: Reading) -> Peak
        ensures { result ≡ taken_in now self }
    {
        self.raised(now).passed(now)
    }
}
