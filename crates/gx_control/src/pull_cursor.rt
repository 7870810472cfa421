//! When a writer looks for reports.

ghost use Rattle.std.specs.Prelude.{◌≡◌, true};
ghost use Rattle.gx_control.specs.PullCursors.{may_have_more, pull_cursor};

use std::marker::Model;

/// When the writer of a connection looks for reports: what it has seen of the records.
#[derive(Drop)]
pub struct PullCursor {
    /// How many records there were at the last pull.
    seen: u64,
    /// The last pull may have left reports that were there.
    more: bool,
}

impl Model for PullCursor {
    ghost use Rattle.gx_control.specs.PullCursors.{pull_cursor, PullCursorData};

    ghost Value = { PullCursorData };

    ghost view = { λ w. pull_cursor w.seen w.more };
}

impl PullCursor {
    /// Before the first pull.
    pub fn new() -> PullCursor
        ensures { result ≡ pull_cursor 0 true }
    {
        PullCursor {
            seen: 0,
            more: true,
        }
    }

    /// Whether a pull may bring reports, where there are so many records.
    pub fn may_have_more(&self, length: u64) -> bool
        ensures { result ≡ may_have_more self.now length }
    {
        self.more || length != self.seen
    }

    /// A pull was made where there were so many records, which may have left reports that were
    /// there.
    pub fn note_pull(&mut self, length: u64, more: bool)
        ensures { self.new ≡ pull_cursor length more }
    {
        self.seen = length;
        self.more = more;
    }
}
