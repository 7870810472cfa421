//! The log, and what it knows of the records before.

ghost use Rattle.std.specs.Prelude.{◌≡◌, ◌++◌, [], List, IfOk, OnErr, OnOk};
ghost use Rattle.gx_policy.specs.declared.policy.PolicyData.{PolicyData};
ghost use Rattle.gx_history.specs.declared.record.RecordData.{RecordData};
ghost use Rattle.gx_events.specs.{Events.{earlier_limit, is_first_within, lines_used, more_denied, own_event, untold_denials}, Known.{one_more_if, denied_so_far, known_next, known_of, minute_of}, Lines.{closing_line, lines_behind, record_lines}};

use crate::event::Event;
use crate::judged::{command_event, denies_login, login_event, login_line, logout_event};
use crate::limits::{Limits, RuleLimit};
use crate::lines::append_line;
use crate::reached::{records_used, used_at};
use gx_desk::Action;
use gx_history::record::{Record, RecordData, Request, Step};
use gx_policy::Policy;
use gx_text::Form;
use gx_units::{Moment, OutOfMemory};
use std::alloc::Global;
use std::marker::Model;

/// The nanoseconds of a minute.
const MINUTE: u64 = 60_000_000_000;

/// The log of a day, record by record. Contracts see its form and what it knows of the records that were told or passed
/// over: the limits in force, the moment of the last record, how many logins were denied within its minute, and the highest
/// line.
#[derive(Drop)]
pub struct EventLog {
    form: Form,
    limits: Limits,
    moment: Moment,
    denied: u64,
    highest_line: u16,
}

impl Model for EventLog {
    ghost use Rattle.gx_events.specs.Lines.{LogState};

    ghost Value = { LogState };

    ghost view = { λ log. record {
      form = log.form;
      known = record {
        limits = log.limits;
        moment = log.moment;
        denied = log.denied;
        highest = log.highest_line;
      };
    } };
}

/// The minute of a moment.
fn minute_of(moment: Moment) -> u64
    ensures { result ≡ minute_of moment }
{
    moment / MINUTE
}

/// The count with one more, where there is one.
fn counted(one_more: bool, count: u64) -> u64
    ensures { result ≡ one_more_if one_more count }
{
    if one_more {
        count.saturating_add(1)
    } else {
        count
    }
}

impl EventLog {
    /// A log of this form, in front of the first record.
    ///
    /// # Errors
    ///
    /// `OutOfMemory` where the limits of the policy's rules were refused their memory.
    #[tactic(auto, using(crate::proofs::Known_next::known_first))]
    pub fn new(alloc: Global, form: Form, policy: &Policy) -> Result<EventLog, OutOfMemory>
        ensures form { IfOk result (λ log. log.form ≡ form) }
        ensures known { IfOk result (λ log. log.known ≡ known_of policy.now []) }
    {
        let limits = Limits::new(alloc, policy.rules())?;
        Ok(EventLog {
            form,
            limits,
            moment: 0,
            denied: 0,
            highest_line: 0,
        })
    }

    /// A log of its own that stands where this one does.
    fn copied(&self, alloc: Global) -> Result<EventLog, OutOfMemory>
        ensures { IfOk result (λ log. log ≡ self.now) }
    {
        let limits = self.limits.copied(alloc)?;
        Ok(EventLog {
            form: self.form,
            limits,
            moment: self.moment,
            denied: self.denied,
            highest_line: self.highest_line,
        })
    }

    /// How many logins were denied so far within the minute.
    fn denied_so_far(&self, minute: u64) -> u64
        ensures { result ≡ denied_so_far self.now.known minute }
    {
        if minute_of(self.moment) == minute {
            self.denied
        } else {
            0
        }
    }

    /// What is known of the limit that the command is to change.
    fn earlier_limit(&self, action: &Action) -> Option<RuleLimit>
        ensures { result ≡ earlier_limit self.now.known action.now }
    {
        match action {
            Action::SetLimit(rule, _) => self.limits.entry(*rule),
            _ => None,
        }
    }

    /// Whether no login was denied so far within the minute of the record.
    fn is_first_within(&self, shown: &RecordData) -> bool
        ensures { result ≡ is_first_within self.now.known shown.now }
    {
        self.denied_so_far(minute_of(shown.moment)) == 0
    }

    /// What is told of the record itself.
    fn own_event(&self, shown: &RecordData) -> Option<Event>
        ensures { result ≡ own_event self.now.known shown.now }
    {
        let Step::Asked(asked) = &shown.step else {
            return None;
        };
        let (user, line) = (asked.user, asked.line);
        match &asked.request {
            Request::Login(_) => {
                login_event(user, line, self.is_first_within(shown), &shown.verdict)
            }
            Request::Logout => logout_event(user, line, &shown.verdict),
            Request::Command(command) => {
                let action = command.action;
                command_event(user, self.earlier_limit(&action), action, &shown.verdict)
            }
            _ => None,
        }
    }

    /// How many more logins were denied within the minute of the last record.
    fn untold_denials(&self) -> Option<Event>
        ensures { result ≡ untold_denials self.now.known }
    {
        if self.denied <= 1 {
            return None;
        }
        Some(Event::MoreDenied(self.denied - 1, minute_of(self.moment)))
    }

    /// This is told with the first record of another minute.
    fn more_denied(&self, shown: &RecordData) -> Option<Event>
        ensures { result ≡ more_denied self.now.known shown.now }
    {
        if minute_of(self.moment) == minute_of(shown.moment) {
            return None;
        }
        self.untold_denials()
    }

    /// How many lines are used, with a login on the first line at so many hundredths of them.
    fn lines_used(&self, shown: &RecordData) -> Option<Event>
        ensures { result ≡ lines_used self.now.known shown.now }
    {
        used_at(self.highest_line, login_line(shown)?)
    }

    /// Puts the lines of the record at the end of the text.
    fn append_lines(&self, text: &mut Vec<u8>, shown: &RecordData) -> Result<(), OutOfMemory>
        ensures { OnOk result (text.new.items
            ≡ text.old.items ++ record_lines self.now.form self.now.known shown.now) }
    {
        let (form, moment, number) = (self.form, shown.moment, shown.number);
        append_line(text, form, moment, number, self.more_denied(shown))?;
        append_line(text, form, moment, number, self.own_event(shown))?;
        append_line(text, form, moment, number, self.lines_used(shown))?;
        append_line(text, form, moment, number, records_used(shown))
    }

    /// The highest line on which a login was asked for, this record's among them.
    fn highest_with(&self, shown: &RecordData) -> u16
        ensures { result ≡ (known_next self.now.known shown.now).highest }
    {
        match login_line(shown) {
            Some(line) => self.highest_line.max(line),
            None => self.highest_line,
        }
    }

    /// Takes the record into what is known.
    fn note(&mut self, shown: &RecordData)
        ensures known { self.new.known ≡ known_next self.old.known shown.now }
        ensures form { self.new.form ≡ self.old.form }
    {
        let earlier = self.denied_so_far(minute_of(shown.moment));
        self.denied = counted(denies_login(shown), earlier);
        self.moment = shown.moment;
        self.highest_line = self.highest_with(shown);
        self.limits.note(shown);
    }

    /// The lines of these records, which come behind all that were told or passed over before.
    ///
    /// # Errors
    ///
    /// `OutOfMemory` where memory was refused. The log then stands where it stood, and can be asked again.
    pub fn tell(&mut self, alloc: Global, records: &[Record]) -> Result<Vec<u8>, OutOfMemory>
        ensures lines { (policy : PolicyData) (before : List RecordData)
            → self.old.known ≡ known_of policy before
            → IfOk result (λ text.
            text.items ≡ lines_behind self.old.form policy before records.now) }
        ensures known { (policy : PolicyData) (before : List RecordData)
            → self.old.known ≡ known_of policy before
            → OnOk result (self.new.known ≡ known_of policy (before ++ records.now)) }
        ensures form { self.new.form ≡ self.old.form }
        ensures refused { OnErr result (self.new ≡ self.old) }
    {
        let mut next = self.copied(alloc)?;
        let mut text = Vec::new(alloc);
        for record in records {
            let content = record.content();
            next.append_lines(&mut text, &content)?;
            next.note(&content);
        }
        *self = next;
        Ok(text)
    }

    /// What is left to be told where the log ends behind the records that were told or passed over: how many more logins
    /// were denied within the minute of the last one. Empty where there were none.
    ///
    /// # Errors
    ///
    /// `OutOfMemory` where memory was refused.
    pub fn close(&self, alloc: Global) -> Result<Vec<u8>, OutOfMemory>
        ensures { IfOk result (λ text.
            text.items ≡ closing_line self.now.form self.now.known) }
    {
        let mut text = Vec::new(alloc);
        append_line(&mut text, self.form, self.moment, 0, self.untold_denials())?;
        Ok(text)
    }

    /// Passes these records over, which come behind all that were told or passed over before: nothing is told of them.
    pub fn pass_over(&mut self, records: &[Record])
        ensures known { (policy : PolicyData) (before : List RecordData)
            → self.old.known ≡ known_of policy before
            → self.new.known ≡ known_of policy (before ++ records.now) }
        ensures form { self.new.form ≡ self.old.form }
    {
        for record in records {
            self.note(&record.content());
        }
    }
}
