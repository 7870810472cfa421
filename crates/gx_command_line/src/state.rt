//! Which state of an audit's day is wanted, and in which form.

use crate::commands::{AT, JSON, ORDERS};
use clap::ArgMatches;
use gx_clock::TimeOfDay;

/// Behind which record of an audit.
#[derive(Clone, Copy)]
pub enum Behind {
    /// The last.
    Last,
    /// That of this number, the first being 1; 0 for none.
    Record(u64),
    /// The last that is no later than this time of day.
    Time(TimeOfDay),
}

impl Behind {
    /// What the value of `--at` says: the number of a record, or a time of day, `HH:MM` or `HH:MM:SS`.
    pub fn parse(text: &str) -> Option<Behind> {
        match (TimeOfDay::parse(text), text.parse()) {
            (Some(time), _) => Some(Behind::Time(time)),
            (None, Ok(number)) => Some(Behind::Record(number)),
            _ => None,
        }
    }
}

/// Which state is wanted, and how it is told.
#[derive(Clone, Copy)]
pub struct StateOptions {
    /// Behind which record, or at which time of day.
    pub behind: Behind,
    /// Whether each live order is told.
    pub with_orders: bool,
    /// Whether it is told as JSON.
    pub is_json: bool,
}

/// Which state is wanted; `None` where it is neither a record's nor a time's.
pub(crate) fn state_asked<'a>(given: &ArgMatches<'a>) -> Option<StateOptions> {
    let behind = match given.get_str(AT) {
        Some(text) => Behind::parse(text)?,
        None => Behind::Last,
    };
    Some(StateOptions {
        behind,
        with_orders: given.get_flag(ORDERS),
        is_json: given.get_flag(JSON),
    })
}
