//! Minutes and moments as a clock shows them.

ghost use Rattle.std.specs.Prelude.{◌≡◌, ◌++◌, OnOk};
ghost use Rattle.gx_text.specs.Moments.{minute_text, moment_text};

use crate::appending::{append, append_with_zeros};
use gx_units::{Moment, OutOfMemory};

/// The nanoseconds of a minute.
const MINUTE: u64 = 60_000_000_000;

/// The nanoseconds of a second.
const SECOND: u64 = 1_000_000_000;

/// How many decimals the seconds of a moment have.
#[derive(Clone, Copy, PartialEq, Eq)]
pub enum Decimals {
    /// Microseconds; what is less is cut off.
    Six,
    /// Nanoseconds.
    Nine,
}

/// Puts a minute at the end of the text, as `10:29`. Minutes count from midnight; the hours go on past 23.
///
/// # Errors
///
/// `OutOfMemory` where memory was refused; then a part of it may stand at the end of the text.
#[tactic(auto, unfolding(crate::specs::Moments::minute_text))]
pub fn append_minute(text: &mut Vec<u8>, minute: u64) -> Result<(), OutOfMemory>
    ensures { OnOk result (text.new.items ≡ text.old.items ++ minute_text minute) }
{
    append_with_zeros(text, 2, minute / 60)?;
    append(text, b":")?;
    append_with_zeros(text, 2, minute % 60)
}

/// Puts a moment at the end of the text, as `10:29:43.698373` or `10:29:43.698373412`. The hours go on past 23.
///
/// # Errors
///
/// `OutOfMemory` where memory was refused; then a part of it may stand at the end of the text.
#[tactic(auto, unfolding(crate::specs::Moments::moment_text))]
pub fn append_moment(
    text: &mut Vec<u8>,
    moment: Moment,
    decimals: Decimals,
) -> Result<(), OutOfMemory>
    ensures { OnOk result (text.new.items ≡ text.old.items ++ moment_text decimals moment) }
{
    append_minute(text, moment / MINUTE)?;
    append(text, b":")?;
    append_with_zeros(text, 2, moment / SECOND % 60)?;
    append(text, b".")?;
    match decimals {
        Decimals::Six => append_with_zeros(text, 6, moment / 1_000 % 1_000_000),
        Decimals::Nine => append_with_zeros(text, 9, moment % SECOND),
    }
}
