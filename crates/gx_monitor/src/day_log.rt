//! The log of a day, kept while its records are made again.

ghost use Rattle.std.specs.Prelude.{◌≡◌, ◌-◌, [], drop, IfOk, length};
ghost use Rattle.gx_monitor.specs.Logs.{IsLogOf};

use gx_events::EventLog;
use gx_history::record::RecordData;
use gx_history::records::Records;
use gx_policy::Policy;
use gx_records::{ShowsRecords, Watches};
use gx_text::{Form, append};
use gx_units::OutOfMemory;
use std::alloc::Global;

/// The log of a day, which looks on while its records are made again.
#[derive(Drop)]
pub struct DayLog {
    /// Where its text grows.
    pub alloc: Global,
    /// The log, which stands behind the records so far.
    pub log: EventLog,
    /// All its lines so far.
    pub text: Vec<u8>,
}

/// The last of the records, alone; none where there is none.
fn last_of<'a>(records: &Records<'a>) -> Records<'a>
    ensures { result ≡ drop (length records.now - 1) records.now }
{
    records.past(records.len().saturating_sub(1))
}

impl DayLog {
    /// Of a day without a record.
    ///
    /// # Errors
    ///
    /// `OutOfMemory` where memory was refused.
    #[tactic(auto, using(crate::proofs::Log_next::empty_log))]
    pub fn new(alloc: Global, form: Form, policy: &Policy) -> Result<DayLog, OutOfMemory>
        ensures form { IfOk result (λ day. day.log.form ≡ form) }
        ensures none { IfOk result (IsLogOf policy.now []) }
    {
        let log = EventLog::new(alloc, form, policy)?;
        Ok(DayLog {
            alloc,
            log,
            text: Vec::new(alloc),
        })
    }
}

impl<G: ShowsRecords> Watches<G> for DayLog {
    ghost use Rattle.gx_text.specs.declared.form.Form.{Form};
    ghost use Rattle.gx_monitor.specs.Logs.{IsLogOf};

    ghost Asked = { Form };

    ghost asked = { λ day. day.log.form };

    ghost saw = { λ day policy records. IsLogOf policy records day };

    ghost expects = { λ day policy records _. IsLogOf policy records day };

    fn before(&mut self, _gate: &G, _next: &RecordData) -> Result<(), OutOfMemory> {
        Ok(())
    }

    fn after(&mut self, gate: &G, _left: &RecordData) -> Result<(), OutOfMemory> {
        let last = last_of(&gate.shown_records()).to_vec(self.alloc)?;
        let lines = self.log.tell(self.alloc, last.as_slice())?;
        append(&mut self.text, lines.as_slice())
    }
}
