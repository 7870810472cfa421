//! The streams of all users.

ghost use Rattle.std.specs.{Prelude.{◌≡◌, ◌<◌, ◌^◌, ◌≤◌, [], is_some, length, option_map, IsTrue, IfOk, IsOk, OnOk, OnErr}, List.{AllByRecursion, find}};
ghost use Rattle.gx_policy.specs.Lists.{slice};
ghost use Rattle.gx_streams.specs.{Kept.{reserved_in, with_reserved_last, with_last, with_reserved}, Recorded.IsRecorded, Spans.{copies_in, is_named, AreNumbered}, Streams.{empty_streams, with_reader_entitled, has_own_stream, on_list_of, reports_in, with_fill}};

use crate::entries::Entries;
use crate::fill::{FillRole, ReportedFill};
use crate::reader::Reader;
use crate::readers::Readers;
use crate::recorded::Source;
use crate::report_lists::{Found, ReportLists};
use crate::stored_report::StoredReport;
use crate::window::Window;
use gx_history::records::Records;
use gx_history::report::Report;
use gx_history::slices::count_before;
use gx_policy::Policy;
use gx_units::{Firm, OutOfMemory, UserName};
use std::alloc::Global;
use std::marker::Model;

/// No span has more fills.
const SPAN_LIMIT: usize = 1024;

/// So many fills have room from the first on: a list that grows moves all that it holds.
const FIRST_FILLS: usize = 4096;

/// How many reports a user has, and where he stands among the policy's users: a call that looks
/// for him at this place first finds him there. The place that was asked for, if he is none of them.
#[derive(Clone, Copy)]
pub struct Owed {
    /// How many reports he has.
    pub count: usize,
    /// His place.
    pub place: usize,
}

/// What each user of the policy was told, in order, places reserved for more, and whose later fills
/// each reader gets.
#[derive(Drop)]
pub struct Streams {
    alloc: Global,
    fills: Vec<ReportedFill>,
    lists: ReportLists,
    readers: Readers,
}

impl Model for Streams {
    ghost use Rattle.gx_streams.specs.Streams.{AllStreams};

    ghost Value = { AllStreams };

    ghost use Rattle.gx_streams.specs.Table.{streams_of, IsSoundTable};

    ghost view = { λ s. streams_of s.fills.items s.lists s.readers };

    ghost invariant = { λ s. IsSoundTable s.fills.items s.lists s.readers };
}

/// The reader of this name, who has these entries. A reader has none, so whoever has some is not
/// looked for.
#[inline(always)]
fn reader_of<'a>(readers: &'a Readers, user: UserName, entries: &Entries<'_>) -> Option<&'a Reader>
    requires { IsTrue (is_some (find (is_named user) readers.now)) → entries.now ≡ [] }
    ensures { option_map (λ r. r.now) result ≡ find (is_named user) readers.now }
{
    if entries.len() > 0 {
        return None;
    }
    readers.find(user)
}

#[tactic(auto, using(crate::proofs::Streams_read::taken_is))]
fn copies(
    alloc: Global,
    fills: &[ReportedFill],
    reader: &Reader,
    from: u64,
    most: u64,
) -> Result<Vec<Report>, OutOfMemory>
    requires { AreNumbered fills.now 1 reader.now.earlier reader.now.current }
    ensures { IfOk result (λ reports. reports.items
        ≡ slice (copies_in fills.now reader.now.earlier reader.now.current) from most) }
{
    let mut window = Window::new(alloc, count_before(from), most as usize);
    window.see_spans(fills, reader.earlier(), reader.current())?;
    Ok(window.into_taken())
}

impl Streams {
    /// The policy's users, whom nothing was told, no place reserved, and no reader with an account.
    ///
    /// # Errors
    ///
    /// `OutOfMemory` where memory was refused.
    #[tactic(auto, using(crate::proofs::Streams_first::opened))]
    pub fn new(alloc: Global, policy: &Policy) -> Result<Streams, OutOfMemory>
        ensures { IfOk result (λ streams. streams ≡ empty_streams policy.now) }
    {
        let fills = Vec::with_capacity(alloc, FIRST_FILLS)?;
        let lists = ReportLists::new(alloc, policy)?;
        let readers = Readers::new(alloc, policy)?;
        Ok(Streams {
            alloc,
            fills,
            lists,
            readers,
        })
    }

    /// Whether the user is one of the policy, and no reader. Takes no memory.
    pub fn is_told(&self, user: UserName) -> bool
        ensures { result ≡ has_own_stream self.now user }
    {
        self.lists.knows(user) && self.readers.find(user).is_none()
    }

    /// Puts the report last in the user's stream, in a place of its own: those that are kept stay
    /// kept.
    /// Part of the interface: it is for who has kept no place, and the program always has.
    ///
    /// `OutOfMemory`: the stream could not grow, and nothing has changed.
    pub fn append(&mut self, user: UserName, report: Report) -> Result<(), OutOfMemory>
        requires told { IsTrue (has_own_stream self.old user) }
        ensures ok { OnOk result (self.new ≡ on_list_of user (with_last report) self.old) }
        ensures err { OnErr result (self.new ≡ self.old) }
    {
        self.lists.append(user, 0, StoredReport::Typed(report))
    }

    /// Reserves at least so many places for the user, who is looked for at this place of the policy's users first. Places
    /// that are kept already count.
    ///
    /// `OutOfMemory`: the stream could not grow, and nothing has changed.
    #[inline(always)]
    pub fn reserve(&mut self, user: UserName, near: usize, places: usize) -> Result<(), OutOfMemory>
        requires told { IsTrue (has_own_stream self.old user) }
        ensures ok { OnOk result (self.new ≡ on_list_of user (with_reserved places) self.old) }
        ensures enough { places ≤ reserved_in self.old.lists user → IsOk result }
        ensures err { OnErr result (self.new ≡ self.old) }
    {
        self.lists.reserve(user, near, places)
    }

    /// Puts the report last in the user's stream, in a reserved place. He is looked for at this place of the policy's
    /// users first. Takes no memory.
    #[inline(always)]
    pub fn append_reserved(&mut self, user: UserName, near: usize, report: Report)
        requires { 0 < reserved_in self.old.lists user }
        ensures { self.new ≡ on_list_of user (with_reserved_last report) self.old }
    {
        self.lists
            .append_reserved(user, near, StoredReport::Typed(report));
    }

    /// Begins a span for the reader at this place, with the mask that he has.
    fn begin_span(&mut self, place: usize) -> Result<(), OutOfMemory>
        ensures { self.new ≡ self.old }
    {
        match self.readers.mask_at(place) {
            Some((user, mask)) => self.entitle(user, mask),
            None => Ok(()),
        }
    }

    /// Once the spans may have no more fills, begins one for each reader, with the mask that he has.
    fn begin_spans(&mut self) -> Result<(), OutOfMemory>
        ensures { self.new ≡ self.old }
    {
        if self.fills.as_slice().len() % SPAN_LIMIT != 0 {
            return Ok(());
        }
        for place in 0..self.readers.count() {
            self.begin_span(place)?;
        }
        Ok(())
    }

    /// Puts the fill last, and counts it for each reader in the span that goes on.
    fn put_fill(
        &mut self,
        fill: ReportedFill,
        near_taker: usize,
        near_maker: usize,
    ) -> Result<(), OutOfMemory>
        requires taker { IsTrue (has_own_stream self.old fill.taker.user) }
        requires maker { IsTrue (has_own_stream self.old fill.maker.user) }
        ensures ok { OnOk result (self.new ≡ with_fill fill self.old) }
        ensures err { OnErr result (self.new ≡ self.old) }
    {
        let place = self.fills.as_slice().len();
        self.fills.reserve(1)?;
        let taker = StoredReport::Filled(place, FillRole::Taker);
        let maker = StoredReport::Filled(place, FillRole::Maker);
        self.lists.append_both(
            fill.taker.user,
            near_taker,
            taker,
            fill.maker.user,
            near_maker,
            maker,
        )?;
        self.readers.note(&fill);
        match self.fills.push(fill) {
            Ok(()) => {}
            Err(_) => unreachable!(),
        }
        Ok(())
    }

    /// Puts the report of the fill last in the taker's user's stream, then in the maker's, and in
    /// each reader's a drop copy of the taker's side and then one of the maker's, where the account
    /// is his. Places that are kept stay kept. Both users are looked for at these places of the
    /// policy's users first.
    ///
    /// `OutOfMemory`: something could not grow, and nothing has changed.
    pub fn append_fill(
        &mut self,
        fill: ReportedFill,
        near_taker: usize,
        near_maker: usize,
    ) -> Result<(), OutOfMemory>
        requires taker { IsTrue (has_own_stream self.old fill.taker.user) }
        requires maker { IsTrue (has_own_stream self.old fill.maker.user) }
        ensures ok { OnOk result (self.new ≡ with_fill fill self.old) }
        ensures err { OnErr result (self.new ≡ self.old) }
    {
        self.begin_spans()?;
        self.put_fill(fill, near_taker, near_maker)
    }

    /// The reader gets the later fills of the accounts in the mask, which are in the file's order,
    /// the first in the lowest bit. No list changes.
    ///
    /// `OutOfMemory`: there was no memory for one more span, and nothing has changed.
    pub fn entitle(&mut self, reader: UserName, mask: u64) -> Result<(), OutOfMemory>
        ensures ok { OnOk result (self.new ≡ with_reader_entitled reader mask self.old) }
        ensures err { OnErr result (self.new ≡ self.old) }
    {
        let fill = self.fills.as_slice().len();
        self.readers.entitle(reader, mask, fill)
    }

    /// Puts the user's reports from this number on, 0 counting as 1, and at most so many, into this
    /// list, in place of what stands there, and answers how many reports he has. He is looked for at
    /// this place of the policy's users first.
    ///
    /// An Accepted is read off the record of its order, by the firm of the account that the user trades for: each that is
    /// asked for has to be what these records tell.
    ///
    /// The list's room is kept, so that a user who is no reader is told without memory while it is
    /// enough. Of a reader it looks at each span, and at the fills of those that it gives something
    /// of, at most 1,024 of each, up to the last report that is asked for.
    ///
    /// `OutOfMemory`: there was no memory for the copy, and what the list has is nothing to go by.
    pub fn put_slice(
        &self,
        records: &Records<'_>,
        house: Option<Firm>,
        user: UserName,
        near: usize,
        from: u64,
        most: u64,
        reports: &mut Vec<Report>,
    ) -> Result<Owed, OutOfMemory>
        requires recorded { AllByRecursion (IsRecorded house records.now)
            (slice (reports_in self.now user) from most) }
        ensures part { OnOk result
            (reports.new.items ≡ slice (reports_in self.now user) from most) }
        ensures count { IfOk result (λ o. o.count ≡ length (reports_in self.now user)) }
        ensures few { IfOk result (λ o. o.count < 2 ^ 63) }
    {
        let fills = self.fills.as_slice();
        let Found { entries, place } = self.lists.find(user, near);
        match reader_of(&self.readers, user, &entries) {
            Some(reader) => {
                *reports = copies(self.alloc, fills, reader, from, most)?;
                Ok(Owed {
                    count: reader.count(),
                    place,
                })
            }
            None => {
                let count = entries.len();
                let source = Source { house, records };
                entries
                    .slice(from, most)
                    .put_reports(fills, &source, reports)?;
                Ok(Owed { count, place })
            }
        }
    }

    /// The user's reports from this number on, 0 counting as 1, and at most so many, in a list of their own. The program
    /// makes `put_slice` in its place, into a list that is kept.
    ///
    /// `OutOfMemory`: there was no memory for the list.
    pub fn slice(
        &self,
        records: &Records<'_>,
        house: Option<Firm>,
        user: UserName,
        from: u64,
        most: u64,
    ) -> Result<Vec<Report>, OutOfMemory>
        requires recorded { AllByRecursion (IsRecorded house records.now)
            (slice (reports_in self.now user) from most) }
        ensures part { IfOk result
            (λ part. part.items ≡ slice (reports_in self.now user) from most) }
    {
        let mut reports = Vec::new(self.alloc);
        let _ = self.put_slice(records, house, user, 0, from, most, &mut reports)?;
        Ok(reports)
    }

    /// How many reports the user has. Takes no memory, and walks no fills.
    pub fn len(&self, user: UserName) -> usize
        ensures count { result ≡ length (reports_in self.now user) }
        ensures few { result < 2 ^ 63 }
    {
        // What this ensures: there are so few fills.
        let _ = self.fills.as_slice();
        match self.readers.find(user) {
            Some(reader) => reader.count(),
            None => self.lists.find(user, 0).entries.len(),
        }
    }

    /// Lets it go. Its drop is proved here once, and not in each crate that owns one.
    pub fn release(self) {}
}
