//! What is kept of a day's records, so that no view walks them.

ghost use Rattle.std.specs.Prelude.{◌≡◌, ◌<◌, [], length, slice_get, IfOk, OnErr, OnOk};
ghost use Rattle.gx_board.specs.{Counting.counts_with, Summaries.{Counted, FollowsSummary, IsNoted, IsSummary, IsSummaryBehind, Notes, pushed_if, recent_records, Stays}};

use crate::counts::{Counts, commands, denies, is_kept};
use crate::denied::{DeniedRow, first_rows, note};
use circular_buffer::HeapCircularBuffer;
use gx_history::record::RecordData;
use gx_history::records::Records;
use gx_overview::commands::{GrantedCommand, granted_commands};
use gx_policy::Policy;
use gx_records::ShowsRecords;
use gx_units::OutOfMemory;
use std::alloc::Global;

/// So many denials are kept, and so many commands.
const MOST_RECENT: usize = 100;

/// What is kept of a day's records: numbers, all commands that were granted, how often each rule denied a request, and the last
/// denials and commands.
#[derive(Drop)]
pub struct Summary {
    /// What the records say in numbers.
    pub counts: Counts,
    /// The commands that they grant, in their order.
    pub commands: Vec<GrantedCommand>,
    /// How often each rule denied a request.
    pub denied: Vec<DeniedRow>,
    /// The last records whose requests were denied.
    pub last_denied: HeapCircularBuffer<RecordData>,
    /// The last records of commands, granted or denied.
    pub last_commands: HeapCircularBuffer<RecordData>,
}

/// Room for the last records.
fn ring(alloc: Global) -> Result<HeapCircularBuffer<RecordData>, OutOfMemory>
    ensures { IfOk result (λ ring. ring ≡ recent_records []) }
{
    Ok(HeapCircularBuffer::with_capacity(alloc, MOST_RECENT)?)
}

/// Puts the record last, where the condition holds.
fn push_where(is_so: bool, ring: &mut HeapCircularBuffer<RecordData>, left: &RecordData)
    ensures { ring.new ≡ pushed_if is_so left.now ring.old }
{
    if is_so {
        ring.push_back(*left);
    }
}

impl Summary {
    /// Of no record.
    ///
    /// # Errors
    ///
    /// `OutOfMemory` where memory was refused.
    #[tactic(auto, using(crate::proofs::Summary_call::begins))]
    pub fn new(alloc: Global, policy: &Policy) -> Result<Summary, OutOfMemory>
        ensures none { IfOk result (IsSummary policy.now []) }
        ensures behind { IfOk result (IsSummaryBehind policy.now []) }
    {
        let denied = first_rows(alloc, policy)?;
        let last_denied = ring(alloc)?;
        let last_commands = ring(alloc)?;
        Ok(Summary {
            counts: Counts::none(),
            commands: Vec::new(alloc),
            denied,
            last_denied,
            last_commands,
        })
    }

    /// Notes the record, but for the command that it may grant.
    fn note_kept(&mut self, left: &RecordData, counts: Counts)
        requires { counts ≡ counts_with left.now self.old.counts }
        ensures { Notes left.now self.old self.new }
    {
        self.counts = counts;
        note(&mut self.denied, left);
        push_where(denies(left), &mut self.last_denied, left);
        push_where(commands(left), &mut self.last_commands, left);
    }

    /// Notes the record at this place, but for the command that it may grant. Of most records nothing is kept but the counts:
    /// they are not made, since the gate's lock is held meanwhile.
    #[inline(always)]
    fn note(&mut self, more: &Records<'_>, place: usize)
        requires within { place < length more.now }
        ensures noted { IsNoted (slice_get more.now place) self.old self.new }
    {
        let kind = more.kind_at(place);
        let asked = more.asked_at(place);
        let counts = self.counts.with_parts(kind, asked);
        if is_kept(kind, asked) {
            self.note_kept(&more.at(place).content(), counts);
        } else {
            self.counts = counts;
        }
    }

    /// Counts these records, which come behind those that it has counted.
    fn count(&mut self, more: &Records<'_>)
        ensures counted { Counted more.now self.old self.new }
        ensures commands_kept { self.new.commands.items ≡ self.old.commands.items }
    {
        for place in 0..more.len() {
            self.note(more, place);
        }
    }

    /// Follows these records, which come behind those that it has followed.
    ///
    /// # Errors
    ///
    /// `OutOfMemory` where memory was refused; then it has followed none of them.
    pub fn follow(&mut self, alloc: Global, more: &Records<'_>) -> Result<(), OutOfMemory>
        ensures followed { OnOk result (FollowsSummary more.now self.old self.new) }
        ensures refused { OnErr result (Stays self.old self.new) }
    {
        let granted = granted_commands(alloc, more)?;
        self.commands.extend_from_slice(granted.as_slice())?;
        self.count(more);
        Ok(())
    }

    /// Follows all the gate's records behind those that it has followed.
    ///
    /// # Errors
    ///
    /// `OutOfMemory` where memory was refused; then it has followed none of them.
    pub fn catch_up<G: ShowsRecords>(&mut self, alloc: Global, gate: &G) -> Result<(), OutOfMemory>
        requires behind { IsSummaryBehind
            (G.state gate.now).policy (G.state gate.now).records self.old }
        ensures behind { IsSummaryBehind
            (G.state gate.now).policy (G.state gate.now).records self.new }
        ensures all { OnOk result
            (IsSummary (G.state gate.now).policy (G.state gate.now).records self.new) }
    {
        // The records are fewer than 2^63, so that no count stops.
        gate.length();
        let records = gate.shown_records();
        let more = records.past(self.counts.records as usize);
        self.follow(alloc, &more)?;
        Ok(())
    }
}
