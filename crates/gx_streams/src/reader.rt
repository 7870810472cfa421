//! One reader's spans.

ghost use Rattle.std.specs.Prelude.{◌≡◌, ◌<◌, ◌+◌, ◌^◌, OnOk, OnErr};
ghost use Rattle.gx_streams.specs.Spans.{with_copies_counted, entitled_from, no_spans};

use crate::fill::ReportedFill;
use crate::span::Span;
use gx_units::{OutOfMemory, UserName};
use std::alloc::Global;
use std::marker::Model;

/// The spans of a reader, and how many reports he has.
#[derive(Drop)]
pub(crate) struct Reader {
    user: UserName,
    earlier: Vec<Span>,
    current: Span,
    count: usize,
}

impl Model for Reader {
    ghost use Rattle.gx_streams.specs.Spans.{ReaderSpans};

    ghost Value = { ReaderSpans };

    ghost view = { λ r. record { user = r.user; earlier = r.earlier.items; current = r.current; count = r.count } };
}

impl Reader {
    /// A reader without accounts. Takes no memory.
    pub(crate) fn new(alloc: Global, user: UserName) -> Reader
        ensures { result ≡ no_spans user }
    {
        Reader {
            user,
            earlier: Vec::new(alloc),
            current: Span {
                first_fill: 0,
                mask: 0,
                first_report: 1,
            },
            count: 0,
        }
    }

    /// How many reports he has.
    pub(crate) fn count(&self) -> usize
        ensures { result ≡ self.now.count }
    {
        self.count
    }

    /// His spans before the current one.
    pub(crate) fn earlier(&self) -> &[Span]
        ensures { result.now ≡ self.now.earlier }
    {
        self.earlier.as_slice()
    }

    /// The span that goes on.
    pub(crate) fn current(&self) -> Span
        ensures { result ≡ self.now.current }
    {
        self.current
    }

    /// Counts the copies of one more fill.
    pub(crate) fn note(&mut self, fill: &ReportedFill)
        requires { self.old.count + 2 < 2 ^ 64 }
        ensures { self.new ≡ with_copies_counted fill.now self.old }
    {
        self.count += fill.count(self.current.mask);
    }

    /// Begins a span with this mask at this fill.
    pub(crate) fn entitle(&mut self, mask: u64, fill: usize) -> Result<(), OutOfMemory>
        requires { self.old.count + 1 < 2 ^ 64 }
        ensures ok { OnOk result (self.new ≡ entitled_from mask fill self.old) }
        ensures err { OnErr result (self.new ≡ self.old) }
    {
        self.earlier.push(self.current)?;
        self.current = Span {
            first_fill: fill,
            mask,
            first_report: self.count + 1,
        };
        Ok(())
    }
}
