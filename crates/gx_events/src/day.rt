//! The log of a whole day.

ghost use Rattle.std.specs.Prelude.{◌≡◌, IfOk};
ghost use Rattle.gx_events.specs.Lines.{log_of};

use crate::event_log::EventLog;
use gx_history::record::Record;
use gx_policy::Policy;
use gx_text::Form;
use gx_units::OutOfMemory;
use std::alloc::Global;

/// The log of these records, from the first of their day on.
/// Part of the interface: it is a whole day in one call, and the program tells its records as they
/// come.
///
/// # Errors
///
/// `OutOfMemory` where memory was refused.
pub fn day_log(
    alloc: Global,
    form: Form,
    policy: &Policy,
    records: &[Record],
) -> Result<Vec<u8>, OutOfMemory>
    ensures { IfOk result (λ text. text.items ≡ log_of form policy.now records.now) }
{
    let mut log = EventLog::new(alloc, form, policy)?;
    log.tell(alloc, records)
}
