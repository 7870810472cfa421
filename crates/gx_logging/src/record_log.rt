//! The log of the records of a door.

ghost use Rattle.std.specs.Prelude.{◌≡◌, ◌+◌, ◌<◌, ◌≤◌, ◌^◌, [], drop, length, take, IfNone, IfOk, IfSome, IsTrue, OnErr, OnOk, OnSome};
ghost use mathlib.Core.List.{IsPrefix};
ghost use Rattle.gx_pass.specs.Views.{with_told};
ghost use Rattle.gx_events.specs.{Known.known_of, Lines.{closing_line, lines_behind}};

use gx_door::Door;
use gx_events::EventLog;
use gx_history::record::Record;
use gx_units::OutOfMemory;
use std::alloc::Global;
use std::marker::Model;
use std::sync::Wait;

/// The lines of so many records are given at a time.
const PIECE: u64 = 1_024;

/// Gives the lines of the records that are made at a door, in their order and each once. Contracts see what its pass has met, of
/// how many records the lines were given, and what is known of these.
#[derive(Drop)]
pub struct RecordLog<D: Door> {
    /// Taken out for each call of the door.
    pass: Option<D::Pass>,
    done: u64,
    events: EventLog,
}

impl<D: Door> Model for RecordLog<D> {
    ghost use Rattle.std.specs.Prelude.{is_some, IsTrue};
    ghost use Rattle.gx_door.specs.Acts.{history_met};
    ghost use Rattle.gx_logging.specs.Logging.{IsLogging, LoggingData};

    ghost Value = { LoggingData };

    ghost view = { λ l. record {
      met = history_met D.observed l.pass;
      done = l.done;
      form = l.events.form;
      known = l.events.known;
    } };

    ghost invariant = { λ l. IsTrue (is_some l.pass) × IsLogging D.policy (record {
      met = history_met D.observed l.pass;
      done = l.done;
      form = l.events.form;
      known = l.events.known;
    }) };
}

impl<D: Door> RecordLog<D> {
    /// In front of the day's first record.
    pub fn new(pass: D::Pass, events: EventLog) -> RecordLog<D>
        requires known { events.known ≡ known_of D.policy [] }
        ensures met { result.met ≡ D.observed pass }
        ensures done { result.done ≡ 0 }
        ensures form { result.form ≡ events.form }
    {
        RecordLog {
            pass: Some(pass),
            done: 0,
            events,
        }
    }

    /// How many records there are: at least as many as the pass has met.
    fn length(&mut self, door: &D) -> u64
        ensures told { self.new.met ≡ with_told self.old.met result }
        ensures front { length self.old.met.front ≤ result }
        ensures done { self.new.done ≡ self.old.done }
        ensures form { self.new.form ≡ self.old.form }
        ensures known { self.new.known ≡ self.old.known }
    {
        let Some(mut pass) = self.pass.take() else {
            unreachable!()
        };
        let count = door.length(&mut pass);
        self.pass = Some(pass);
        count
    }

    /// The records behind those whose lines were given, at most so many, one at least.
    #[tactic(auto, using(gx_journal::proofs::Journal_next::are_next, crate::proofs::Lines_next::is_one, crate::proofs::Lines_next::are_few))]
    fn fetch<R: Wait>(&mut self, rt: &R, door: &D, most: u64) -> Result<Vec<Record>, OutOfMemory>
        requires some { 0 < most }
        requires left { self.old.done < self.old.met.told }
        requires room { self.old.done + most < 2 ^ 64 }
        ensures front { IsPrefix self.old.met.front self.new.met.front }
        ensures done { self.new.done ≡ self.old.done }
        ensures form { self.new.form ≡ self.old.form }
        ensures known { self.new.known ≡ self.old.known }
        ensures next { IfOk result (λ v. v.items
            ≡ take (length v.items) (drop self.new.done self.new.met.front)) }
        ensures some { IfOk result (λ v. 0 < length v.items) }
        ensures few { IfOk result (λ v. length v.items ≤ most) }
    {
        let Some(pass) = self.pass.take() else {
            unreachable!()
        };
        let (pass, records) = door.records(rt, pass, self.done + 1, most);
        self.pass = Some(pass);
        records
    }

    /// The lines of the next records that the pass has met.
    #[tactic(auto, using(crate::proofs::Lines_next::gives))]
    fn give(&mut self, alloc: Global, records: &[Record]) -> Result<Vec<u8>, OutOfMemory>
        requires next { records.now
            ≡ take (length records.now) (drop self.old.done self.old.met.front) }
        requires room { self.old.done + length records.now < 2 ^ 64 }
        ensures lines { IfOk result (λ text. text.items ≡ lines_behind self.old.form D.policy
            (take self.old.done self.old.met.front) records.now) }
        ensures done { OnOk result (self.new.done ≡ self.old.done + length records.now) }
        ensures met { self.new.met ≡ self.old.met }
        ensures form { self.new.form ≡ self.old.form }
        ensures refused { OnErr result (self.new ≡ self.old) }
    {
        let text = self.events.tell(alloc, records)?;
        self.done += records.len() as u64;
        Ok(text)
    }

    /// Passes over the next records that the pass has met.
    fn pass_over(&mut self, records: &[Record])
        requires next { records.now
            ≡ take (length records.now) (drop self.old.done self.old.met.front) }
        requires room { self.old.done + length records.now < 2 ^ 64 }
        ensures done { self.new.done ≡ self.old.done + length records.now }
        ensures met { self.new.met ≡ self.old.met }
        ensures form { self.new.form ≡ self.old.form }
    {
        self.events.pass_over(records);
        self.done += records.len() as u64;
    }

    /// Passes over the records that come next, up to this number of them: no line of theirs is given. Answers whether there
    /// may be more of them. At `OutOfMemory` none was passed over.
    pub fn skip_next<R: Wait>(&mut self, rt: &R, door: &D, last: u64) -> Result<bool, OutOfMemory>
        ensures more { IfOk result (λ more. IsTrue more → self.old.done < self.new.done) }
        ensures last { self.old.done ≤ last → self.new.done ≤ last }
        ensures none { last ≤ self.old.done → self.new.done ≡ self.old.done }
        ensures front { IsPrefix self.old.met.front self.new.met.front }
        ensures form { self.new.form ≡ self.old.form }
        ensures refused { OnErr result (self.new.done ≡ self.old.done) }
    {
        let count = self.length(door).min(last);
        if count <= self.done {
            return Ok(false);
        }
        let most = PIECE.min(count - self.done);
        let records = self.fetch(rt, door, most)?;
        self.pass_over(records.as_slice());
        Ok(true)
    }

    /// What is left to be told where the log ends behind the records whose lines were given or that were passed over:
    /// how many more logins were denied within the minute of the last one.
    ///
    /// # Errors
    ///
    /// `OutOfMemory` where memory was refused.
    #[tactic(auto, using(crate::proofs::Lines_next::closes))]
    pub fn close(&self, alloc: Global) -> Result<Vec<u8>, OutOfMemory>
        ensures { IfOk result (λ text. text.items
            ≡ closing_line self.now.form
            (known_of D.policy (take self.now.done self.now.met.front))) }
    {
        self.events.close(alloc)
    }

    /// The lines of the records that were made since lines were given last, of so many at most; `None` where there are none.
    /// At `OutOfMemory` none was given.
    #[tactic(auto, using(crate::proofs::Lines_next::between))]
    pub fn next_lines<R: Wait>(
        &mut self,
        rt: &R,
        alloc: Global,
        door: &D,
    ) -> Result<Option<Vec<u8>>, OutOfMemory>
        ensures lines { IfOk result (λ found. IfSome found (λ text.
            text.items ≡ lines_behind self.old.form D.policy
            (take self.old.done self.new.met.front)
            (drop self.old.done (take self.new.done self.new.met.front)))) }
        ensures more { IfOk result (λ found. OnSome found (self.old.done < self.new.done)) }
        ensures none { IfOk result (λ found.
            IfNone found (self.new.done ≡ length self.new.met.front)) }
        ensures front { IsPrefix self.old.met.front self.new.met.front }
        ensures form { self.new.form ≡ self.old.form }
        ensures refused { OnErr result (self.new.done ≡ self.old.done) }
    {
        let count = self.length(door);
        if count <= self.done {
            return Ok(None);
        }
        let most = PIECE.min(count - self.done);
        let records = self.fetch(rt, door, most)?;
        let text = self.give(alloc, records.as_slice())?;
        Ok(Some(text))
    }
}
