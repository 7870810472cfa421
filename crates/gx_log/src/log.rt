//! What the threads of a server share of its log.

use crate::event::event_line;
use crate::queue::{Batch, Queue};
use gx_text::Form;
use gx_units::Moment;
use std::alloc::Global;
use std::marker::Model;
use std::sync::atomic::{AtomicBool, Ordering};
use std::sync::{Condvar, Mutex, Wait};
use std::time::{Clock, Duration};

/// So many milliseconds whoever writes waits at most for a line.
const LINE_WAIT_MILLIS: u64 = 1_000;

/// Where lines wait to be written on standard error. Nobody who tells one waits for it to be written.
#[derive(Drop)]
pub struct Log {
    /// How its lines are written, where a log is asked for; without that only what has to be told is.
    form: Option<Form>,
    queue: Mutex<Queue>,
    /// Whether lines that were taken are being written.
    writing: AtomicBool,
    closed: AtomicBool,
    /// Wakes who writes.
    news: Condvar,
    /// Wakes who waits for room, or for the end.
    room: Condvar,
}

// Clauses see nothing of it, which keeps the proofs of threads small.
impl Model for Log {
    ghost use Rattle.std.specs.Prelude.{⊤};

    ghost Value = { ⊤ };

    ghost view = { λ _. tt };
}

impl Log {
    /// Nothing was told. Lines are written so, where a log is asked for.
    pub fn new(form: Option<Form>) -> Log {
        Log {
            form,
            queue: Mutex::new(Queue::new()),
            writing: AtomicBool::new(false),
            closed: AtomicBool::new(false),
            news: Condvar::new(),
            room: Condvar::new(),
        }
    }

    /// How its lines are written, where a log is asked for.
    pub fn form(&self) -> Option<Form> {
        self.form
    }

    /// Tells what happened at this moment, in these words.
    pub fn tell_event<R: Wait>(
        &self,
        rt: &R,
        alloc: Global,
        moment: Moment,
        kind: &str,
        words: &str,
    ) {
        match event_line(alloc, self.form, moment, kind, words) {
            Ok(line) => self.tell(rt, line.as_slice()),
            Err(_) => self.leave_out(rt),
        }
    }

    /// Tells a line; where too much waits it is left out, and counted.
    pub fn tell<R: Wait>(&self, rt: &R, line: &[u8]) {
        self.queue.lock(rt).tell(line);
        self.news.notify_one();
    }

    /// A line was left out, since there was no memory to put it together.
    pub fn leave_out<R: Wait>(&self, rt: &R) {
        self.queue.lock(rt).leave_out();
        self.news.notify_one();
    }

    /// Tells a text, once there is room for it; gives up after so long. Answers whether it is told.
    pub fn put<R: Wait + Clock>(&self, rt: &R, text: &[u8], patience: Duration) -> bool {
        let mut is_put = false;
        let _ = self
            .room
            .wait_timeout_while(rt, self.queue.lock(rt), patience, |queue| {
                is_put = queue.put(text);
                !is_put
            });
        self.news.notify_one();
        is_put
    }

    /// Takes what waits, once something does or a while has passed. What was taken before is written by now.
    pub fn take<R: Wait + Clock>(&self, rt: &R) -> Batch {
        let mut queue = self.queue.lock(rt);
        self.writing.store(false, Ordering::SeqCst);
        self.room.notify_all();
        let patience = Duration::from_millis(LINE_WAIT_MILLIS);
        queue = self
            .news
            .wait_timeout_while(rt, queue, patience, |queue| queue.is_empty())
            .0;
        self.writing.store(!queue.is_empty(), Ordering::SeqCst);
        queue.take()
    }

    /// Waits until all that was told is written, or so long. Answers whether it is.
    pub fn await_written<R: Wait + Clock>(&self, rt: &R, patience: Duration) -> bool {
        let writing = &self.writing;
        let (queue, _timed) = self
            .room
            .wait_timeout_while(rt, self.queue.lock(rt), patience, |queue| {
                !queue.is_empty() || writing.load(Ordering::SeqCst)
            });
        queue.is_empty() && !self.writing.load(Ordering::SeqCst)
    }

    /// Nothing more is told: who writes ends.
    pub fn close<R: Wait>(&self, rt: &R) {
        self.closed.store(true, Ordering::SeqCst);
        drop(self.queue.lock(rt));
        self.news.notify_one();
    }

    /// Whether nothing more is told.
    pub fn is_closed(&self) -> bool {
        self.closed.load(Ordering::SeqCst)
    }
}
