//! Whether a day has room for one more record.

ghost use Rattle.std.specs.Prelude.{◌<◌, ◌≤◌, IsFalse, IsTrue};
ghost use Rattle.gx_history.specs.Verdicts.{day_limit};

/// The most records of a day, but for granted Kills and Logouts.
const DAY_LIMIT: usize = 16_777_216;

/// Whether a day of so many records is full: no more are made in it, but of granted Kills and Logouts.
pub fn is_full(records: usize) -> bool
    ensures full { IsTrue result → day_limit ≤ records }
    ensures room { IsFalse result → records < day_limit }
{
    records >= DAY_LIMIT
}
