//! The moments of the last orders.

ghost use Rattle.std.specs.{Prelude.{◌≡◌, [], nat_le, IfOk}, List.Sorted.IsNonDecreasing};
ghost use Rattle.circular_buffer.specs.Buffer.{buffer};
ghost use Rattle.gx_ledger.specs.Running.{comes_last, is_recent_at, with_latest, recent_in};

use circular_buffer::HeapCircularBuffer;
use gx_units::OutOfMemory;
use std::alloc::Global;
use std::marker::Model;

/// The moments of the last orders, as many as there is room for.
#[derive(Drop)]
pub struct Moments {
    ring: HeapCircularBuffer<u64>,
    /// No moment came that was earlier than the one before it, and a day has no other.
    rises: bool,
}

impl Model for Moments {
    ghost use Rattle.std.specs.Prelude.{ℕ, IsTrue};
    ghost use Rattle.std.specs.List.Sorted.{IsNonDecreasing};
    ghost use Rattle.circular_buffer.specs.Buffer.{Buffer};

    ghost Value = { Buffer ℕ };

    ghost view = { λ moments. moments.ring };

    ghost invariant = { λ moments. IsTrue moments.rises → IsNonDecreasing moments.ring.items };
}

/// Whether none of the moments is later.
fn comes_last(ring: &HeapCircularBuffer<u64>, moment: u64) -> bool
    ensures { result ≡ comes_last ring.now.items moment }
{
    match ring.back() {
        Some(last) => *last <= moment,
        None => true,
    }
}

/// Whether the moment at this index lies less than the window back.
fn is_recent(ring: &HeapCircularBuffer<u64>, index: usize, window: u64, moment: u64) -> bool
    ensures { result ≡ is_recent_at ring.now.items index window moment }
{
    match ring.get(index) {
        Some(m) => moment.saturating_sub(*m) < window,
        None => false,
    }
}

/// How many of the last moments are recent, from the newest on.
fn recent_in_turn(ring: &HeapCircularBuffer<u64>, window: u64, moment: u64) -> u64
    ensures { result ≡ recent_in ring.now.items window moment }
{
    let len = ring.len();
    let mut left = len;
    while left > 0 && is_recent(ring, left - 1, window, moment) {
        left -= 1;
    }
    (len - left) as u64
}

/// Whether so many of the last moments, of which none is earlier than the one before it, are recent.
#[tactic(auto, using(crate::proofs::Moments_rise::enough_recent, crate::proofs::Moments_rise::never_more))]
fn are_enough_recent(ring: &HeapCircularBuffer<u64>, window: u64, moment: u64, limit: u64) -> bool
    requires { IsNonDecreasing ring.now.items }
    ensures { result ≡ nat_le limit (recent_in ring.now.items window moment) }
{
    let len = ring.len();
    if limit == 0 {
        return true;
    }
    limit <= len as u64 && is_recent(ring, len - limit as usize, window, moment)
}

impl Moments {
    /// No moment yet, and room for this many. `OutOfMemory` where memory was refused.
    pub fn with_room(alloc: Global, room: usize) -> Result<Moments, OutOfMemory>
        ensures { IfOk result (λ moments. moments ≡ buffer [] room) }
    {
        let ring = HeapCircularBuffer::with_capacity(alloc, room)?;
        Ok(Moments { ring, rises: true })
    }

    /// Keeps the moment in place of the oldest where there is no room for more.
    #[inline(always)]
    pub fn push(&mut self, moment: u64)
        ensures { self.new ≡ with_latest moment self.old }
    {
        if self.ring.capacity() == 0 {
            return;
        }
        let rises = self.rises && comes_last(&self.ring, moment);
        self.rises = rises;
        self.ring.push_back(moment);
    }

    /// Whether so many of the last moments lie less than the window back.
    pub fn are_recent(&self, window: u64, moment: u64, limit: u64) -> bool
        ensures { result ≡ nat_le limit (recent_in self.now.items window moment) }
    {
        if self.rises {
            are_enough_recent(&self.ring, window, moment, limit)
        } else {
            limit <= recent_in_turn(&self.ring, window, moment)
        }
    }
}
