//! How a journal is followed, and of what it is warned.

use crate::commands::{EVERY, JSON, ONCE, WARN};
use clap::ArgMatches;
use std::alloc::{AllocFailed, Global};

/// The most milliseconds between two looks: an hour.
const LONGEST_MILLIS: u64 = 3_600_000;

/// How often a journal that has nothing new is looked at.
#[derive(Clone, Copy)]
pub struct Every {
    /// So many milliseconds lie between two looks.
    pub milliseconds: u64,
}

/// A number that is written out.
fn number(text: &str) -> Option<u64> {
    match text.parse() {
        Ok(number) => Some(number),
        Err(_) => None,
    }
}

impl Every {
    /// Each second.
    pub const SECOND: Every = Every {
        milliseconds: 1_000,
    };

    /// So many milliseconds, from one to an hour.
    fn of(milliseconds: u64) -> Option<Every> {
        if milliseconds == 0 || milliseconds > LONGEST_MILLIS {
            return None;
        }
        Some(Every { milliseconds })
    }

    /// What the value of `--every` says: seconds or milliseconds, as `1s` or `500ms`.
    pub fn parse(text: &str) -> Option<Every> {
        if let Some(front) = text.strip_suffix("ms") {
            return Every::of(number(front)?);
        }
        let seconds = number(text.strip_suffix("s")?)?;
        Every::of(seconds.checked_mul(1_000)?)
    }
}

/// The shares of limits, in hundredths, of which is warned.
#[derive(Clone, Copy)]
pub struct WarnedShares<'a> {
    text: &'a str,
}

/// A share that is written out: from 1 to 100.
fn share(text: &str) -> Option<u8> {
    match text.parse() {
        Ok(share) if 0u8 < share && share <= 100 => Some(share),
        _ => None,
    }
}

impl<'a> WarnedShares<'a> {
    /// Three quarters, and nine tenths.
    pub const USUAL: WarnedShares<'static> = WarnedShares { text: "75,90" };

    /// What the value of `--warn` says: shares from 1 to 100 with commas between them.
    pub fn parse(text: &'a str) -> Option<WarnedShares<'a>> {
        for part in text.split(",") {
            share(part)?;
        }
        Some(WarnedShares { text })
    }

    /// The shares, as they are written.
    ///
    /// # Errors
    ///
    /// Where memory was refused.
    pub fn list(self, alloc: Global) -> Result<Vec<u8>, AllocFailed<u8>> {
        let mut list = Vec::new(alloc);
        for part in self.text.split(",") {
            if let Some(share) = share(part) {
                list.push(share)?;
            }
        }
        Ok(list)
    }
}

/// How a journal is followed, and how it is told.
#[derive(Clone, Copy)]
pub struct FollowAsked<'a> {
    /// How often it is looked at.
    pub every: Every,
    /// Of what is warned.
    pub shares: WarnedShares<'a>,
    /// Whether each line is a JSON object.
    pub is_json: bool,
    /// Whether it ends where the journal ends now.
    pub is_once: bool,
}

/// How a journal is to be followed; `None` where that can't be read.
pub(crate) fn follow_asked<'a>(given: &ArgMatches<'a>) -> Option<FollowAsked<'a>> {
    let every = match given.get_str(EVERY) {
        Some(text) => Every::parse(text)?,
        None => Every::SECOND,
    };
    let shares = match given.get_str(WARN) {
        Some(text) => WarnedShares::parse(text)?,
        None => WarnedShares::USUAL,
    };
    Some(FollowAsked {
        every,
        shares,
        is_json: given.get_flag(JSON),
        is_once: given.get_flag(ONCE),
    })
}
