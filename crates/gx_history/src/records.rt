//! Records of a day, as a history shows them.

ghost use Rattle.std.specs.{Prelude.{◌≡◌, ◌<◌, IfOk, length, option_and_then, option_copied, option_map, take, drop}, List.slice_get};
ghost use Rattle.gx_policy.specs.Lists.{slice};
ghost use Rattle.gx_history.specs.{Requests.{asked_of, kind_of}, Rows.{AllShowable, records_in}};

use crate::record::{Asked, Record, VerdictKind};
use crate::rows::{Details, RecordRow};
use crate::slices::{at_most, count_before, past};
use gx_units::{Moment, OutOfMemory};
use std::alloc::Global;
use std::marker::Model;

/// Some of a day's records, one behind the other, where they lie.
#[derive(Drop)]
pub struct Records<'a> {
    details: &'a Details,
    rows: &'a [RecordRow],
}

impl<'a> Model for Records<'a> {
    ghost use Rattle.std.specs.Prelude.{List};
    ghost use Rattle.gx_history.specs.{Rows.{AllShowable, records_in}, declared.record.RecordData.{RecordData}};

    ghost Value = { List RecordData };

    ghost view = { λ r. records_in r.details.now.lists r.rows.now };

    ghost invariant = { λ r. AllShowable (records_in r.details.now.lists r.rows.now) };
}

impl<'a> Records<'a> {
    /// Those of these rows.
    pub(crate) fn new(details: &'a Details, rows: &'a [RecordRow]) -> Records<'a>
        requires { AllShowable (records_in details.now.lists rows.now) }
        ensures { result ≡ records_in details.now.lists rows.now }
    {
        Records { details, rows }
    }

    /// How many there are.
    #[tactic(auto, using(crate::proofs::Rows_table::records_length))]
    pub fn len(&self) -> usize
        ensures { result ≡ length self.now }
    {
        self.rows.len()
    }

    /// The one at this place, from 0; None where there are no more than so many.
    #[inline(always)]
    pub fn get(&self, place: usize) -> Option<Record>
        ensures { result ≡ slice_get self.now place }
    {
        let row = self.rows.get(place)?;
        Some(Record::new(self.details.record(row)))
    }

    /// The one at this place, from 0. The place has to be one of them.
    #[inline(always)]
    #[tactic(auto, using(gx_units::proofs::Lists_found::found_within))]
    pub fn at(&self, place: usize) -> Record
        requires { place < length self.now }
        ensures { slice_get self.now place ≡ Some result }
    {
        match self.get(place) {
            Some(record) => record,
            None => unreachable!(),
        }
    }

    /// Which verdict the record at this place has, from 0; None where there are no more than so many. No record is made.
    #[inline(always)]
    pub fn kind_at(&self, place: usize) -> Option<VerdictKind>
        ensures { result ≡ option_map (λ r. kind_of r.verdict) (slice_get self.now place) }
    {
        let row = self.rows.get(place)?;
        Some(self.details.kind(&row.event))
    }

    /// The moment of the record at this place, from 0; None where there are no more than so many. No record is made.
    #[inline(always)]
    pub fn moment_at(&self, place: usize) -> Option<Moment>
        ensures { result ≡ option_map (λ r. r.moment) (slice_get self.now place) }
    {
        Some(self.rows.get(place)?.moment)
    }

    /// The request of the record at this place, from 0, where it lies; None of a matching step, and where there are no more
    /// than so many. No record is made.
    #[inline(always)]
    pub fn asked_at(&self, place: usize) -> Option<&Asked>
        ensures { option_copied result
            ≡ option_and_then (λ r. asked_of r.step) (slice_get self.now place) }
    {
        let row = self.rows.get(place)?;
        self.details.asked(&row.event)
    }

    /// Those behind so many.
    pub fn past(&self, count: usize) -> Records<'a>
        ensures { result ≡ drop count self.now }
    {
        Records {
            details: self.details,
            rows: past(self.rows, count),
        }
    }

    /// At most so many of the first.
    fn at_most(&self, most: usize) -> Records<'a>
        ensures { result ≡ take most self.now }
    {
        Records {
            details: self.details,
            rows: at_most(self.rows, most),
        }
    }

    /// Those behind so many, and at most so many of them.
    pub fn part(&self, earlier: usize, most: usize) -> Records<'a>
        ensures { result ≡ take most (drop earlier self.now) }
    {
        self.past(earlier).at_most(most)
    }

    /// Those from this number on, 0 counting as 1, and at most so many.
    #[tactic(auto, using(crate::proofs::Lists_slice::slice_is))]
    pub fn slice(&self, from: u64, most: u64) -> Records<'a>
        ensures { result ≡ slice self.now from most }
    {
        self.part(count_before(from), most as usize)
    }

    /// A list of them.
    #[tactic(auto, using(gx_units::proofs::Lists_found::one_more_taken, std::proofs::lemmas::List::take_all))]
    pub fn to_vec(&self, alloc: Global) -> Result<Vec<Record>, OutOfMemory>
        ensures { IfOk result (λ list. list.items ≡ self.now) }
    {
        let mut list = Vec::with_capacity(alloc, self.len())?;
        for place in 0..self.len() {
            list.push(self.at(place))?;
        }
        Ok(list)
    }
}
