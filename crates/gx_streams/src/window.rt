//! Reports that are asked for, among those that pass by.

ghost use Rattle.std.specs.Prelude.{◌≡◌, [], ◌∷◌, ◌&&◌, ◌==◌, length, OnOk};
ghost use Rattle.gx_streams.specs.{Fills.{fill_copies, copies_of_all, fill_copy}, Spans.{copies_in, next_of, AreNumbered}, Windows.{taken_after, is_full, window}};

use crate::fill::{FillRole, ReportedFill};
use crate::span::Span;
use gx_history::report::Report;
use gx_history::slices::{at_most, past};
use gx_units::OutOfMemory;
use std::alloc::Global;
use std::marker::Model;

/// Passes over some reports and takes at most so many of the next.
#[derive(Drop)]
pub(crate) struct Window {
    skip: usize,
    most: usize,
    taken: Vec<Report>,
}

impl Model for Window {
    ghost use Rattle.gx_streams.specs.Windows.{Taken};

    ghost Value = { Taken };

    ghost view = { λ w. record { skip = w.skip; most = w.most; taken = w.taken.items } };
}

fn next_span(later: &[Span], current: Span) -> Span
    ensures { result ≡ next_of later.now current }
{
    match later.first() {
        Some(span) => *span,
        None => current,
    }
}

impl Window {
    /// Nothing taken yet. Takes no memory.
    pub(crate) fn new(alloc: Global, skip: usize, most: usize) -> Window
        ensures { result ≡ window skip most }
    {
        Window {
            skip,
            most,
            taken: Vec::new(alloc),
        }
    }

    /// Whether nothing that passes by is taken any more.
    fn is_full(&self) -> bool
        ensures { result ≡ is_full self.now }
    {
        self.skip == 0 && self.most <= self.taken.as_slice().len()
    }

    /// One report passes by.
    fn see(&mut self, report: Report) -> Result<(), OutOfMemory>
        ensures { OnOk result (self.new ≡ taken_after (report ∷ []) self.old) }
    {
        if self.skip > 0 {
            self.skip -= 1;
        } else if self.taken.as_slice().len() < self.most {
            self.taken.push(report)?;
        }
        Ok(())
    }

    fn see_side(
        &mut self,
        mask: u64,
        fill: &ReportedFill,
        party: FillRole,
    ) -> Result<(), OutOfMemory>
        ensures { OnOk result (self.new ≡ taken_after (fill_copy mask fill.now party) self.old) }
    {
        if fill.concerns(mask, party) {
            self.see(fill.copy(party))
        } else {
            Ok(())
        }
    }

    #[tactic(auto, using(crate::proofs::Windows_passed::after_both))]
    fn see_fill(&mut self, mask: u64, fill: &ReportedFill) -> Result<(), OutOfMemory>
        ensures { OnOk result (self.new ≡ taken_after (fill_copies mask fill.now) self.old) }
    {
        self.see_side(mask, fill, FillRole::Taker)?;
        self.see_side(mask, fill, FillRole::Maker)
    }

    /// The drop copies of fills pass by. None is looked at any more once the window is full.
    fn see_fills(&mut self, mask: u64, fills: &[ReportedFill]) -> Result<(), OutOfMemory>
        ensures { OnOk result (self.new ≡ taken_after (copies_of_all mask fills.now) self.old) }
    {
        for fill in fills {
            if self.is_full() {
                return Ok(());
            }
            self.see_fill(mask, fill)?;
        }
        Ok(())
    }

    /// The drop copies of a span pass by, so many: at once, where none of them is taken.
    fn see_span(
        &mut self,
        mask: u64,
        count: usize,
        fills: &[ReportedFill],
    ) -> Result<(), OutOfMemory>
        requires { count ≡ length (copies_of_all mask fills.now) }
        ensures { OnOk result (self.new ≡ taken_after (copies_of_all mask fills.now) self.old) }
    {
        if count <= self.skip {
            self.skip -= count;
            return Ok(());
        }
        self.see_fills(mask, fills)
    }

    /// The drop copies of spans pass by, each up to where the next begins, and then those of the
    /// current one.
    pub(crate) fn see_spans(
        &mut self,
        fills: &[ReportedFill],
        spans: &[Span],
        current: Span,
    ) -> Result<(), OutOfMemory>
        requires { AreNumbered fills.now 1 spans.now current }
        ensures { OnOk result (self.new
            ≡ taken_after (copies_in fills.now spans.now current) self.old) }
    {
        for (i, span) in spans.iter().enumerate() {
            let next = next_span(past(spans, i + 1), current);
            let length = next.first_fill.saturating_sub(span.first_fill);
            let count = next.first_report.saturating_sub(span.first_report);
            self.see_span(
                span.mask,
                count,
                at_most(past(fills, span.first_fill), length),
            )?;
        }
        self.see_fills(current.mask, past(fills, current.first_fill))
    }

    /// What was taken.
    pub(crate) fn into_taken(self) -> Vec<Report>
        ensures { result.items ≡ self.taken }
    {
        self.taken
    }
}
