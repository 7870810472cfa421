//! How long it takes until a user is told of a step, as it is counted.

ghost use Rattle.std.specs.Prelude.{◌≡◌, ◌<◌, length, nat_le, position, IfSome};
ghost use Rattle.gx_control.specs.Buckets.{bucket_of, with_answer_counted, no_answers};

use std::marker::Model;
use std::sync::atomic::{AtomicU64, Ordering};

/// How many nanoseconds a time of each bucket takes at most; those of the last bucket have no bound.
static BOUNDS: [u64; 16] = [
    10_000,
    25_000,
    50_000,
    100_000,
    250_000,
    500_000,
    1_000_000,
    2_500_000,
    5_000_000,
    10_000_000,
    25_000_000,
    50_000_000,
    100_000_000,
    250_000_000,
    500_000_000,
    1_000_000_000,
];

/// The place of the first bound that is not below the time, where there is one.
fn first_not_below(bounds: &[u64], time: u64) -> Option<usize>
    ensures first { result ≡ position (λ bound. nat_le time bound) bounds.now }
    ensures within { IfSome result (λ place. place < length bounds.now) }
{
    bounds.iter().position(|bound| time <= *bound)
}

/// The bucket that so many nanoseconds fall into: the first whose bound is not below them, the last where all are.
fn bucket_of(time: u64) -> usize
    ensures bucket { result ≡ bucket_of time }
    ensures within { result < 17 }
{
    first_not_below(&BOUNDS, time).unwrap_or(BOUNDS.len())
}

/// How many answers took how long. A count that 64 bits can't hold stays at the most that they can.
#[derive(Clone, Copy)]
pub struct AnswerCounts {
    /// How many fall into each bucket: those of at most 10, 25, 50, 100, 250 and 500 microseconds, 1, 2.5, 5, 10, 25, 50, 100,
    /// 250 and 500 milliseconds, 1 second, and all others, each without those of the buckets before it.
    pub by_bucket: [u64; 17],
    /// How many nanoseconds they took together.
    pub nanoseconds: u64,
}

impl AnswerCounts {
    /// Nothing was counted.
    pub fn new() -> AnswerCounts
        ensures { result ≡ no_answers }
    {
        AnswerCounts {
            by_bucket: [0; 17],
            nanoseconds: 0,
        }
    }

    /// One more answer, which took so many nanoseconds.
    pub fn note(&mut self, time: u64)
        ensures { self.new ≡ with_answer_counted self.old time }
    {
        let bucket = bucket_of(time);
        self.by_bucket[bucket] = self.by_bucket[bucket].saturating_add(1);
        self.nanoseconds = self.nanoseconds.saturating_add(time);
    }
}

/// That so many answers were counted. It is made by counting alone.
#[derive(Drop)]
pub struct AnswersNoted {
    counts: AnswerCounts,
}

impl Model for AnswersNoted {
    ghost use Rattle.gx_control.specs.declared.answer_times.AnswerCounts.{AnswerCounts};

    ghost Value = { AnswerCounts };

    ghost view = { λ n. n.counts };
}

/// How many answers of a run took how long, as the writers of all its connections count them. Contracts see nothing of it.
#[derive(Drop)]
pub struct AnswerTimes {
    by_bucket: [AtomicU64; 17],
    nanoseconds: AtomicU64,
}

impl Model for AnswerTimes {
    ghost use Rattle.std.specs.Prelude.{⊤};

    ghost Value = { ⊤ };

    ghost view = { λ _. tt };
}

impl AnswerTimes {
    /// Nothing was counted.
    pub fn new() -> AnswerTimes {
        AnswerTimes {
            by_bucket: [
                AtomicU64::new(0),
                AtomicU64::new(0),
                AtomicU64::new(0),
                AtomicU64::new(0),
                AtomicU64::new(0),
                AtomicU64::new(0),
                AtomicU64::new(0),
                AtomicU64::new(0),
                AtomicU64::new(0),
                AtomicU64::new(0),
                AtomicU64::new(0),
                AtomicU64::new(0),
                AtomicU64::new(0),
                AtomicU64::new(0),
                AtomicU64::new(0),
                AtomicU64::new(0),
                AtomicU64::new(0),
            ],
            nanoseconds: AtomicU64::new(0),
        }
    }

    /// Counts these, too. Nobody waits for it.
    pub fn add(&self, counts: AnswerCounts) -> AnswersNoted
        ensures { result ≡ counts }
    {
        for (count, more) in self.by_bucket.iter().zip(&counts.by_bucket) {
            if *more > 0 {
                count.fetch_add(*more, Ordering::Relaxed);
            }
        }
        self.nanoseconds
            .fetch_add(counts.nanoseconds, Ordering::Relaxed);
        AnswersNoted { counts }
    }

    /// What was counted so far. Answers that are counted meanwhile may be in it in part.
    pub fn counts(&self) -> AnswerCounts {
        let mut counts = AnswerCounts::new();
        for (into, count) in counts.by_bucket.iter_mut().zip(&self.by_bucket) {
            *into = count.load(Ordering::Relaxed);
        }
        counts.nanoseconds = self.nanoseconds.load(Ordering::Relaxed);
        counts
    }
}
