//! How a day's records lie in memory: a row for each, and what is long in lists of its own.

ghost use Rattle.std.specs.Prelude.{◌≡◌, ◌+◌, ◌<◌, ◌≤◌, option_copied, IsTrue, OnErr, OnOk};
ghost use Rattle.gx_history.specs.{Requests.{asked_of, kind_of}, Rows.{IsThere, no_lists, record_in, step_at, step_in, verdict_in, with_details}, Showing.{is_verdict_of}};

use crate::record::{Asked, Fill, RecordData, Step, Verdict, VerdictKind};
use gx_policy::RuleName;
use gx_units::{Moment, OutOfMemory};
use std::alloc::Global;
use std::marker::Model;

/// What happened, and what became of it. What is long is named by its place in its list.
#[derive(Clone, Copy)]
pub(crate) enum RowContent {
    /// The request at this place was granted.
    Granted(usize),
    /// The request at the first place was denied, by the rule at the second.
    Denied(usize, usize),
    /// Two orders met: the moment that was handed in, and the place of their fill.
    Filled(Moment, usize),
    /// An order came to rest: the moment that was handed in, and its number.
    Rested(Moment, u64),
    /// An order has ended: the moment that was handed in, and its number.
    Expired(Moment, u64),
}

/// A record.
#[derive(Clone, Copy)]
pub(crate) struct RecordRow {
    /// The number of the record.
    pub(crate) number: u64,
    /// The moment of the record.
    pub(crate) moment: Moment,
    /// All else.
    pub(crate) event: RowContent,
}

/// What is long in the records, each kind in the order of its records, and places reserved for more.
#[derive(Drop)]
pub(crate) struct Details {
    asked: Vec<Asked>,
    rules: Vec<RuleName>,
    fills: Vec<Fill>,
    reserved: usize,
}

impl Model for Details {
    ghost use Rattle.std.specs.Prelude.{◌+◌, ◌≤◌, vec_len, vec_capacity};
    ghost use Rattle.gx_history.specs.Rows.{KeptLists};

    ghost Value = { KeptLists };

    ghost view = { λ d. record { lists = record { asked = d.asked.items; rules = d.rules.items; fills = d.fills.items }; reserved = d.reserved } };

    ghost invariant = { λ d. (vec_len d.asked + d.reserved ≤ vec_capacity d.asked)
        × (vec_len d.rules + d.reserved ≤ vec_capacity d.rules)
        × (vec_len d.fills + d.reserved ≤ vec_capacity d.fills) };
}

impl Details {
    /// None, and no place reserved. Takes no memory.
    pub(crate) fn new(alloc: Global) -> Details
        ensures lists { result.lists ≡ no_lists }
        ensures reserved { result.reserved ≡ 0 }
    {
        Details {
            asked: Vec::new(alloc),
            rules: Vec::new(alloc),
            fills: Vec::new(alloc),
            reserved: 0,
        }
    }

    /// The records that `put` has places for.
    pub(crate) fn reserved(&self) -> usize
        ensures { result ≡ self.now.reserved }
    {
        self.reserved
    }

    /// Reserves places for those of at least so many records. Places that are reserved already count.
    pub(crate) fn reserve(&mut self, places: usize) -> Result<(), OutOfMemory>
        requires { self.old.reserved ≤ places }
        ensures lists { self.new.lists ≡ self.old.lists }
        ensures few { self.new.reserved ≤ places }
        ensures ok { OnOk result (self.new.reserved ≡ places) }
        ensures err { OnErr result (self.new ≡ self.old) }
    {
        self.asked.reserve(places)?;
        self.rules.reserve(places)?;
        self.fills.reserve(places)?;
        self.reserved = places;
        Ok(())
    }

    /// Puts what is long in them last, and names it by its place.
    #[inline(always)]
    #[tactic(auto, using(gx_units::proofs::Lists_found::get_last))]
    pub(crate) fn put(&mut self, step: &Step, verdict: &Verdict) -> RowContent
        requires of_step { IsTrue (is_verdict_of step.now verdict.now) }
        requires room { 0 < self.old.reserved }
        ensures lists { self.new.lists ≡ with_details step.now verdict.now self.old.lists }
        ensures reserved { self.new.reserved + 1 ≡ self.old.reserved }
        ensures step { step_in self.new.lists.asked result ≡ step.now }
        ensures verdict { verdict_in self.new.lists.rules self.new.lists.fills result
            ≡ verdict.now }
        ensures there { IsThere self.new.lists result }
    {
        self.reserved -= 1;
        match (step, verdict) {
            (Step::Asked(asked), Verdict::Granted) => {
                let place = self.asked.len();
                self.asked.push_reserved(*asked);
                RowContent::Granted(place)
            }
            (Step::Asked(asked), Verdict::Denied(rule)) => {
                let event = RowContent::Denied(self.asked.len(), self.rules.len());
                self.asked.push_reserved(*asked);
                self.rules.push_reserved(*rule);
                event
            }
            (Step::Matching(handed), Verdict::Filled(fill)) => {
                let place = self.fills.len();
                self.fills.push_reserved(*fill);
                RowContent::Filled(*handed, place)
            }
            (Step::Matching(handed), Verdict::Rested(order)) => RowContent::Rested(*handed, *order),
            (Step::Matching(handed), Verdict::Expired(order)) => RowContent::Expired(
                *handed, *order,
            ),
            _ => unreachable!(),
        }
    }

    #[inline(always)]
    fn step_at(&self, place: usize) -> Step
        ensures { result ≡ step_at self.now.lists.asked place }
    {
        match self.asked.get(place) {
            Some(asked) => Step::Asked(*asked),
            None => Step::Matching(0),
        }
    }

    #[inline(always)]
    fn step(&self, event: &RowContent) -> Step
        ensures { result ≡ step_in self.now.lists.asked event.now }
    {
        match event {
            RowContent::Granted(place) | RowContent::Denied(place, _) => self.step_at(*place),
            RowContent::Filled(handed, _)
            | RowContent::Rested(handed, _)
            | RowContent::Expired(handed, _) => { Step::Matching(*handed) }
        }
    }

    #[inline(always)]
    fn verdict(&self, event: &RowContent) -> Verdict
        ensures { result ≡ verdict_in self.now.lists.rules self.now.lists.fills event.now }
    {
        match event {
            RowContent::Granted(_) => Verdict::Granted,
            RowContent::Denied(_, place) => match self.rules.get(*place) {
                Some(rule) => Verdict::Denied(*rule),
                None => Verdict::Granted,
            },
            RowContent::Filled(_, place) => match self.fills.get(*place) {
                Some(fill) => Verdict::Filled(*fill),
                None => Verdict::Granted,
            },
            RowContent::Rested(_, order) => Verdict::Rested(*order),
            RowContent::Expired(_, order) => Verdict::Expired(*order),
        }
    }

    /// What was asked for in this event, where it lies, if it is no matching step.
    #[inline(always)]
    pub(crate) fn asked(&self, event: &RowContent) -> Option<&Asked>
        ensures { option_copied result ≡ asked_of (step_in self.now.lists.asked event.now) }
    {
        match event {
            RowContent::Granted(place) | RowContent::Denied(place, _) => self.asked.get(*place),
            RowContent::Filled(_, _) | RowContent::Rested(_, _) | RowContent::Expired(_, _) => None,
        }
    }

    /// Which verdict this event has. It looks at no rule and no fill.
    #[inline(always)]
    pub(crate) fn kind(&self, event: &RowContent) -> VerdictKind
        ensures { result
            ≡ kind_of (verdict_in self.now.lists.rules self.now.lists.fills event.now) }
    {
        match event {
            RowContent::Denied(_, place) if *place < self.rules.len() => VerdictKind::Denied,
            RowContent::Filled(_, place) if *place < self.fills.len() => VerdictKind::Filled,
            RowContent::Granted(_) | RowContent::Denied(_, _) | RowContent::Filled(_, _) =>
                VerdictKind::Granted,
            RowContent::Rested(_, _) => VerdictKind::Rested,
            RowContent::Expired(_, _) => VerdictKind::Expired,
        }
    }

    /// The record that this row stands for.
    #[inline(always)]
    pub(crate) fn record(&self, row: &RecordRow) -> RecordData
        ensures { result ≡ record_in self.now.lists row.now }
    {
        RecordData {
            number: row.number,
            moment: row.moment,
            step: self.step(&row.event),
            verdict: self.verdict(&row.event),
        }
    }
}
