//! The text that waits to be written.

ghost use Rattle.std.specs.Prelude.{◌≡◌, ◌+◌, ◌<◌, ◌≤◌, ◌++◌, [], length, IsFalse, IsTrue};
ghost use Rattle.gx_log.specs.Queues.{one_more_line, log_room};

use arrayvec::ArrayVec;
use std::marker::Model;
use std::mem;

/// So many bytes of lines wait at most.
pub const LOG_ROOM: usize = 16_384;

/// The bytes of lines that wait. No memory is asked for.
type Text = ArrayVec<u8, 16_384>;

/// Lines that wait to be written, and how many were left out since some were taken last.
#[derive(Drop)]
pub struct Queue {
    text: Text,
    left_out: u64,
}

impl Model for Queue {
    ghost use Rattle.gx_log.specs.Queues.{QueueData};

    ghost Value = { QueueData };

    ghost view = { λ q. record { text = q.text.items; left_out = q.left_out } };
}

/// Lines that were taken to be written, and how many were left out before.
#[derive(Drop)]
pub struct Batch {
    text: Text,
    left_out: u64,
}

impl Model for Batch {
    ghost use Rattle.gx_log.specs.Queues.{QueueData};

    ghost Value = { QueueData };

    ghost view = { λ b. record { text = b.text.items; left_out = b.left_out } };
}

impl Queue {
    /// Nothing waits.
    pub fn new() -> Queue
        ensures text { result.text ≡ [] }
        ensures none { result.left_out ≡ 0 }
    {
        Queue {
            text: Text::new(),
            left_out: 0,
        }
    }

    /// Puts a text, a line or a few, behind what waits, if there is room for it. Answers whether there was.
    pub fn put(&mut self, text: &[u8]) -> bool
        ensures fits { length self.old.text + length text.now ≤ log_room → IsTrue result }
        ensures room { IsTrue result → length self.old.text + length text.now ≤ log_room }
        ensures put { IsTrue result → self.new.text ≡ self.old.text ++ text.now }
        ensures refused { IsFalse result → self.new.text ≡ self.old.text }
        ensures left_out { self.new.left_out ≡ self.old.left_out }
    {
        self.text.try_extend_from_slice(text).is_ok()
    }

    /// One more line was left out.
    pub fn leave_out(&mut self)
        ensures left_out { self.new.left_out ≡ one_more_line self.old.left_out }
        ensures text { self.new.text ≡ self.old.text }
    {
        self.left_out = self.left_out.saturating_add(1);
    }

    /// Puts a line behind what waits; where there is no room for it, it is left out, and counted.
    pub fn tell(&mut self, line: &[u8])
        ensures told { length self.old.text + length line.now ≤ log_room
            → self.new.text ≡ self.old.text ++ line.now }
        ensures kept { length self.old.text + length line.now ≤ log_room
            → self.new.left_out ≡ self.old.left_out }
        ensures left_out { log_room < length self.old.text + length line.now
            → self.new.left_out ≡ one_more_line self.old.left_out }
        ensures refused { log_room < length self.old.text + length line.now
            → self.new.text ≡ self.old.text }
    {
        if !self.put(line) {
            self.leave_out();
        }
    }

    /// Whether nothing is to be written.
    pub fn is_empty(&self) -> bool
        ensures empty { IsTrue result → self.now.text ≡ [] }
        ensures none { IsTrue result → self.now.left_out ≡ 0 }
    {
        self.text.is_empty() && self.left_out == 0
    }

    /// Takes all that waits. Nothing does then, and none is left out.
    pub fn take(&mut self) -> Batch
        ensures batch { result ≡ self.old }
        ensures text { self.new.text ≡ [] }
        ensures none { self.new.left_out ≡ 0 }
    {
        Batch {
            text: mem::replace(&mut self.text, Text::new()),
            left_out: mem::replace(&mut self.left_out, 0),
        }
    }
}

impl Batch {
    /// The lines.
    pub fn text(&self) -> &[u8]
        ensures { result.now ≡ self.now.text }
    {
        self.text.as_slice()
    }

    /// How many were left out.
    pub fn left_out(&self) -> u64
        ensures { result ≡ self.now.left_out }
    {
        self.left_out
    }
}
