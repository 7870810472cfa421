//! Who is connected and has not logged in.

ghost use Rattle.std.specs.Prelude.{◌≡◌, [], IfNone, IfSome, OnErr};
ghost use Rattle.gx_control.specs.Newcomers.{IsFirst};

use crate::peer::Peer;
use crate::tally::{Mishap, Tally};
use gx_units::OutOfMemory;
use std::alloc::Global;
use std::collections::BTreeMap;
use std::sync::atomic::{AtomicBool, Ordering};
use std::sync::{Arc, Mutex, Wait};
use std::time::{Clock, Duration, Instant};

/// Of so many who have not logged in one is hung up on, where places are wanted.
const CROWD: usize = 16;

/// Those who have not logged in, by the number of their connection, so that the one who came first is the first.
#[derive(Drop)]
struct NewcomerQueue<P: Drop> {
    by_number: BTreeMap<u64, P>,
}

impl<P: Drop> NewcomerQueue<P> {
    /// The one who came first, who is none of them any more.
    fn take_first(&mut self) -> Option<P>
        ensures some { IfSome result (λ p.
            IsFirst p self.old.by_number.entries self.new.by_number.entries) }
        ensures none { IfNone result (self.old.by_number.entries ≡ []) }
    {
        match self.by_number.pop_first() {
            Some((_number, peer)) => Some(peer),
            None => None,
        }
    }

    /// One more.
    fn add(&mut self, number: u64, peer: P) -> Result<(), OutOfMemory>
        ensures err { OnErr result (self.new.by_number.entries ≡ self.old.by_number.entries) }
    {
        match self.by_number.insert(number, peer) {
            Ok(_) => Ok(()),
            Err(_) => Err(OutOfMemory),
        }
    }
}

/// Somebody who has come, and when.
#[derive(Drop)]
struct Newcomer {
    peer: Arc<Peer, Global>,
    came: Instant,
}

/// Those who have not logged in. Whoever does not log in in time is hung up on, and so is the one who came first where
/// his place is wanted.
#[derive(Drop)]
pub struct Newcomers {
    queue: Mutex<NewcomerQueue<Newcomer>>,
    patience: Duration,
    closed: AtomicBool,
}

impl NewcomerQueue<Newcomer> {
    /// The one who came first, if he had so long for his login.
    fn take_late<R: Clock>(&mut self, rt: &R, patience: Duration) -> Option<Newcomer>
        ensures some { IfSome result (λ p.
            IsFirst p self.old.by_number.entries self.new.by_number.entries) }
        ensures none { IfNone result (self.new.by_number.entries ≡ self.old.by_number.entries) }
    {
        match self.by_number.first_key_value() {
            Some((_number, newcomer)) if newcomer.is_late(rt, patience) => self.take_first(),
            _ => None,
        }
    }
}

impl Newcomer {
    /// Whether he had so long for his login; not where the clock can't be read.
    fn is_late<R: Clock>(&self, rt: &R, patience: Duration) -> bool {
        match self.came.elapsed(rt) {
            Ok(since) => since >= patience,
            Err(_) => false,
        }
    }
}

impl Newcomers {
    /// None yet. Each has so many seconds for his login.
    pub fn new(alloc: Global, seconds: u64) -> Newcomers {
        Newcomers {
            queue: Mutex::new(NewcomerQueue {
                by_number: BTreeMap::new(alloc),
            }),
            patience: Duration::from_secs(seconds),
            closed: AtomicBool::new(false),
        }
    }

    /// Nobody comes any more.
    pub fn close(&self) {
        self.closed.store(true, Ordering::SeqCst);
    }

    /// Whether nobody comes any more.
    pub fn is_closed(&self) -> bool {
        self.closed.load(Ordering::SeqCst)
    }

    /// Somebody has come.
    ///
    /// # Errors
    ///
    /// Where there is no memory for him, or no clock, he is not one of them.
    pub fn come<R: Wait + Clock>(
        &self,
        rt: &R,
        peer: Arc<Peer, Global>,
    ) -> Result<(), OutOfMemory> {
        let number = peer.number;
        let Ok(came) = Instant::now(rt) else {
            return Err(OutOfMemory);
        };
        self.queue.lock(rt).add(number, Newcomer { peer, came })
    }

    /// The peer of this number has logged in, or is gone.
    pub fn leave<R: Wait>(&self, rt: &R, number: u64) {
        let _ = self.queue.lock(rt).by_number.remove(&number);
    }

    /// Hangs up on the one who came first. Answers whether there was one.
    pub fn cut_first<R: Wait>(&self, rt: &R) -> bool {
        let first = self.queue.lock(rt).take_first();
        match first {
            Some(newcomer) => {
                newcomer.peer.hang_up();
                true
            }
            None => false,
        }
    }

    /// How many of them are hung up on together, where places are wanted: one, and of more than sixteen a sixteenth.
    fn crowd<R: Wait>(&self, rt: &R) -> usize {
        1 + self.queue.lock(rt).by_number.len() / CROWD
    }

    /// Hangs up on those who came first: on one, and of more than sixteen on a sixteenth, so that the next who come need
    /// not wait. Answers on how many.
    pub fn cut_oldest<R: Wait>(&self, rt: &R) -> u64 {
        let mut count = 0u64;
        for _ in 0..self.crowd(rt) {
            if !self.cut_first(rt) {
                break;
            }
            count = count.saturating_add(1);
        }
        count
    }

    /// Hangs up on each who had his time for a login, and counts him.
    pub fn cut_late<R: Wait + Clock>(&self, rt: &R, tally: &Tally) {
        for _ in rt.forever() {
            let late = self.queue.lock(rt).take_late(rt, self.patience);
            match late {
                Some(newcomer) => newcomer.peer.hang_up(),
                None => return,
            }
            tally.note(Mishap::Late, 1);
        }
    }

    /// Hangs up on all.
    pub fn cut_all<R: Wait>(&self, rt: &R) {
        for _ in rt.forever() {
            if !self.cut_first(rt) {
                return;
            }
        }
    }
}
