//! Values of options that are read by themselves, where they can't be.

ghost use Rattle.std.specs.Prelude.{◌≡◌, ◌↔◌, IsSome, IfSome, None};
ghost use Rattle.gx_clock.specs.{Offsets.offset_of, Times.time_of};

use crate::commands::{AT, EVERY, FROM, MIDNIGHT, TO, UNTIL, WARN};
use crate::follow::{Every, WarnedShares};
use crate::state::Behind;
use gx_clock::{TimeOfDay, UtcOffset};
use std::fmt;

/// So many bytes of a value are shown at most.
const SHOWN: usize = 64;

/// An option whose value is read by itself.
#[derive(Clone, Copy)]
pub enum ReadOption {
    /// `--midnight <OFFSET>`.
    Midnight,
    /// `--until <TIME>`.
    Until,
    /// `--from <TIME>`.
    From,
    /// `--to <TIME>`.
    To,
    /// `--at <PLACE>`.
    At,
    /// `--every <TIME>`.
    Every,
    /// `--warn <SHARES>`.
    Warn,
}

/// All of them, in the order in which they are read.
pub(crate) const READ_OPTIONS: [ReadOption; 7] = [
    ReadOption::Midnight,
    ReadOption::Until,
    ReadOption::From,
    ReadOption::To,
    ReadOption::At,
    ReadOption::Every,
    ReadOption::Warn,
];

impl ReadOption {
    /// The name that it is read by, and what help calls its value.
    pub(crate) fn words(self) -> (&'static str, &'static str) {
        match self {
            ReadOption::Midnight => (MIDNIGHT, "OFFSET"),
            ReadOption::Until => (UNTIL, "TIME"),
            ReadOption::From => (FROM, "TIME"),
            ReadOption::To => (TO, "TIME"),
            ReadOption::At => (AT, "PLACE"),
            ReadOption::Every => (EVERY, "TIME"),
            ReadOption::Warn => (WARN, "SHARES"),
        }
    }

    /// What is told of a value that can't be read.
    fn wanted(self) -> &'static str {
        match self {
            ReadOption::Midnight => "it is not +HH:MM or -HH:MM of at most 14 hours",
            ReadOption::At => {
                "it is neither a record's number nor a time of day, HH:MM or HH:MM:SS"
            }
            ReadOption::Every => "it is not a time from 1ms to 3600s, as 1s or 500ms",
            ReadOption::Warn => "it is not numbers from 1 to 100 with commas between them",
            _ => "it is not a time of day, HH:MM or HH:MM:SS",
        }
    }
}

/// A value that can't be read. Its `Display` is the text for the user, with each byte that is no visible ASCII character as
/// `\xNN`.
#[derive(Clone, Copy)]
pub struct BadValue<'a> {
    option: ReadOption,
    text: &'a str,
}

impl<'a> BadValue<'a> {
    /// The value of `--midnight`, if it is no offset.
    pub fn of_midnight(text: &'a str) -> Option<BadValue<'a>>
        ensures bad { IsSome result ↔ offset_of text.entry.now ≡ None }
        ensures text { IfSome result (λ bad. bad.text ≡ text.entry) }
    {
        match UtcOffset::parse(text) {
            Some(_) => None,
            None => Some(BadValue {
                option: ReadOption::Midnight,
                text,
            }),
        }
    }

    /// The value of the option, if it is no time of day.
    pub fn of_time(option: ReadOption, text: &'a str) -> Option<BadValue<'a>>
        ensures bad { IsSome result ↔ time_of text.entry.now ≡ None }
        ensures text { IfSome result (λ bad. bad.text ≡ text.entry) }
    {
        match TimeOfDay::parse(text) {
            Some(_) => None,
            None => Some(BadValue { option, text }),
        }
    }
    /// The value of the option, if that can't be read.
    pub fn of(option: ReadOption, text: &'a str) -> Option<BadValue<'a>>
        ensures text { IfSome result (λ bad. bad.text ≡ text.entry) }
    {
        let is_read = match option {
            ReadOption::Midnight => return BadValue::of_midnight(text),
            ReadOption::At => Behind::parse(text).is_some(),
            ReadOption::Every => Every::parse(text).is_some(),
            ReadOption::Warn => WarnedShares::parse(text).is_some(),
            _ => return BadValue::of_time(option, text),
        };
        if is_read {
            return None;
        }
        Some(BadValue { option, text })
    }
}

impl fmt::Display for BadValue<'_> {
    fn fmt<W: fmt::Write>(&self, f: &mut fmt::Formatter<W>) -> fmt::Result {
        let (name, value) = self.option.words();
        let wanted = self.option.wanted();
        let bytes = self.text.as_bytes();
        let shown = bytes[..bytes.len().min(SHOWN)].escape_ascii();
        let rest = if bytes.len() > SHOWN { ".." } else { "" };
        write!(
            f,
            "error: invalid value '{shown}{rest}' for '--{name} <{value}>': {wanted}\n\nFor more information, try '--help'.\n"
        )
    }
}
