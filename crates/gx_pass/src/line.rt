//! The line of a record.

ghost use Rattle.std.specs.Prelude.{◌≡◌};
ghost use Rattle.gx_pass.specs.Views.{line_in};

use gx_history::record::RecordData;

/// The last line that there is.
pub const LAST_LINE: u16 = u16::MAX;

/// The line of a record's step, 0 where it is nobody's.
pub fn line_in(noted: &RecordData) -> u16
    ensures { result ≡ line_in noted.now }
{
    noted.step.line()
}
