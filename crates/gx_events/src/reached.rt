//! How full a day is.

ghost use Rattle.std.specs.Prelude.{◌≡◌};
ghost use Rattle.gx_events.specs.Events.{is_reached, newly_reached, records_used, used_at};

use crate::event::Event;
use gx_history::record::RecordData;

/// The most records of a day, but for granted Kills and Logouts.
const DAY_LIMIT: u64 = 16_777_216;

/// The most lines of a day.
const LINE_LIMIT: u64 = 65_535;

/// The hundredths that are told.
static PERCENTAGES: [u64; 4] = [99, 90, 75, 50];

/// Whether so many hundredths of the most are reached.
fn is_reached(most: u64, percent: u64, now: u64) -> bool
    ensures { result ≡ is_reached most percent now }
{
    u128::from(percent) * u128::from(most) <= u128::from(now) * 100
}

/// The most hundredths that are reached now, and were not before.
fn newly_reached(most: u64, before: u64, now: u64) -> Option<u64>
    ensures { result ≡ newly_reached most before now }
{
    PERCENTAGES.iter().copied().find(|percent| is_reached(most, *percent, now)
        && !is_reached(most, *percent, before))
}

/// How full the day is, where the number of the record is the first at so many hundredths of its records.
pub(crate) fn records_used(shown: &RecordData) -> Option<Event>
    ensures { result ≡ records_used shown.now }
{
    let number = shown.number;
    let percent = newly_reached(DAY_LIMIT, number.saturating_sub(1), number)?;
    Some(Event::RecordsUsed(percent, DAY_LIMIT.saturating_sub(number)))
}

/// How many lines are used, where this one is the first at so many hundredths of them.
pub(crate) fn used_at(highest: u16, line: u16) -> Option<Event>
    ensures { result ≡ used_at highest line }
{
    let percent = newly_reached(LINE_LIMIT, u64::from(highest), u64::from(line))?;
    Some(Event::LinesUsed(percent, LINE_LIMIT.saturating_sub(u64::from(line))))
}
