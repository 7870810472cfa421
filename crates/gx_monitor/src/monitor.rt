//! What is told as records come.

ghost use Rattle.std.specs.Prelude.{◌≡◌, ◌++◌, ◌∷◌, [], drop, flat_map, IfOk, length, OnErr, OnOk};
ghost use Rattle.gx_events.specs.Lines.{closing_line};
ghost use Rattle.gx_policy.specs.declared.policy.PolicyData.{PolicyData};
ghost use Rattle.gx_warnings.specs.Keeping.{AreWarningsKept, warnings_of};
ghost use Rattle.gx_monitor.specs.{Lines.told_line, Logs.IsLogOf};

use crate::day_log::DayLog;
use crate::lines::append_lines_from;
use gx_endings::Both;
use gx_policy::Policy;
use gx_text::{Form, append};
use gx_units::OutOfMemory;
use gx_warnings::Warnings;
use std::alloc::Global;

/// What is told as the records of a day come: its log and its warnings, which look on while the records are made again, and
/// how much of both was told.
#[derive(Drop)]
pub struct Monitor {
    /// How lines are written.
    pub form: Form,
    /// The log, and the warnings.
    pub watched: Both<DayLog, Warnings>,
    /// So many bytes of the log were told.
    pub written: usize,
    /// So many warnings were told, those of a first use among them.
    pub told: usize,
}

/// The bytes from this place on; none where there are fewer.
fn bytes_from(text: &[u8], place: usize) -> &[u8]
    ensures { result.now ≡ drop place text.now }
{
    if place > text.len() {
        return &[];
    }
    &text[place..]
}

impl Monitor {
    /// In front of the first record. It will warn of these shares, in hundredths.
    ///
    /// # Errors
    ///
    /// `OutOfMemory` where memory was refused.
    pub fn new(
        alloc: Global,
        form: Form,
        policy: &Policy,
        shares: &[u8],
    ) -> Result<Monitor, OutOfMemory>
        ensures form { IfOk result (λ m. m.form ≡ form) }
        ensures log_form { IfOk result (λ m. m.watched.first.log.form ≡ form) }
        ensures log { IfOk result (λ m. IsLogOf policy.now [] m.watched.first) }
        ensures shares { IfOk result (λ m. m.watched.second.shares.items ≡ 0 ∷ shares.now) }
        ensures warnings { (p : PolicyData)
            → IfOk result (λ m. AreWarningsKept p [] m.watched.second) }
        ensures begins { IfOk result (λ m. m.written ≡ 0) }
        ensures nothing_told { IfOk result (λ m. m.told ≡ 0) }
    {
        let first = DayLog::new(alloc, form, policy)?;
        let second = Warnings::new(alloc, shares)?;
        Ok(Monitor {
            form,
            watched: Both { first, second },
            written: 0,
            told: 0,
        })
    }

    /// What has come of the log and of the warnings since the last call: the lines of the log, and a line for each warning
    /// behind them.
    ///
    /// # Errors
    ///
    /// `OutOfMemory` where memory was refused; then all of it is told by the next call.
    pub fn tell(&mut self, alloc: Global, policy: &Policy) -> Result<Vec<u8>, OutOfMemory>
        ensures lines { IfOk result (λ text. text.items
            ≡ drop self.old.written self.old.watched.first.text.items
            ++ flat_map (told_line self.old.form policy.now)
            (drop self.old.told (warnings_of self.old.watched.second))) }
        ensures written { OnOk result
            (self.new.written ≡ length self.old.watched.first.text.items) }
        ensures told { OnOk result
            (self.new.told ≡ length (warnings_of self.old.watched.second)) }
        ensures watched { self.new.watched ≡ self.old.watched }
        ensures form { self.new.form ≡ self.old.form }
        ensures refused { OnErr result (self.new ≡ self.old) }
    {
        let mut text = Vec::new(alloc);
        let log = self.watched.first.text.as_slice();
        append(&mut text, bytes_from(log, self.written))?;
        let warnings = &self.watched.second;
        append_lines_from(&mut text, self.form, policy, warnings, self.told)?;
        self.written = log.len();
        self.told = warnings.count();
        Ok(text)
    }

    /// What is left to be told where the day's records end.
    ///
    /// # Errors
    ///
    /// `OutOfMemory` where memory was refused.
    pub fn close(&self, alloc: Global) -> Result<Vec<u8>, OutOfMemory>
        ensures { IfOk result (λ text. text.items
            ≡ closing_line self.now.watched.first.log.form self.now.watched.first.log.known) }
    {
        self.watched.first.log.close(alloc)
    }
}
