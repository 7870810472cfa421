//! The log of a day, if one is asked for.

ghost use Rattle.std.specs.Prelude.{◌≡◌, [], IfOk, IfSome};
ghost use Rattle.gx_events.specs.Known.{known_of};

use gx_control::ServerControl;
use gx_events::EventLog;
use gx_listen::DayLog;
use gx_policy::Policy;
use gx_units::OutOfMemory;
use std::alloc::Global;

/// The log of a day under the policy, in front of its first record, if one is asked for; of so many records an earlier run
/// has told.
pub(crate) fn day_log(
    alloc: Global,
    policy: &Policy,
    control: &ServerControl,
    earlier: u64,
) -> Result<Option<DayLog>, OutOfMemory>
    ensures known { IfOk result (λ log. IfSome log
        (λ l. l.events.known ≡ known_of policy.now [])) }
{
    let Some(form) = control.log.form() else {
        return Ok(None);
    };
    let events = EventLog::new(alloc, form, policy)?;
    Ok(Some(DayLog { events, earlier }))
}
