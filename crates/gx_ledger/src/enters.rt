//! The last granted Enters, and how many of them are alike.

ghost use Rattle.std.specs.Prelude.{◌≡◌, ◌∷◌, ◌++◌, ◌<◌, List, [], IfOk, IsTrue, count_by, length, nat_le};
ghost use Rattle.circular_buffer.specs.Buffer.{buffer};
ghost use Rattle.gx_ledger.specs.{Cells.{AreCounted, cell_of, one_less, spread_key}, Running.{are_alike, count_alike, with_latest}, declared.group.RepeatKey.RepeatKey};

use crate::alike::alike_among;
use crate::group::RepeatKey;
use circular_buffer::HeapCircularBuffer;
use gx_units::OutOfMemory;
use std::alloc::Global;
use std::marker::Model;

/// The last granted Enters, as many as there is room for.
///
/// They are counted by cells, so that the ring is looked at only where a like one may be in it.
#[derive(Drop)]
pub struct Enters {
    ring: HeapCircularBuffer<RepeatKey>,
    /// Eight for each Enter that there is room for, so that few unlike ones share a cell.
    cells: Vec<u8>,
}

impl Model for Enters {
    ghost use Rattle.std.specs.Prelude.{◌≡◌, ◌*◌, length};
    ghost use Rattle.circular_buffer.specs.Buffer.{Buffer};
    ghost use Rattle.gx_ledger.specs.Cells.{AreCounted};
    ghost use Rattle.gx_ledger.specs.declared.group.RepeatKey.{RepeatKey};

    ghost Value = { Buffer RepeatKey };

    ghost view = { λ enters. enters.ring };

    ghost invariant = { λ enters.
        (length enters.cells.items ≡ enters.ring.capacity * 8)
        × AreCounted enters.cells.items enters.ring.items };
}

/// All that like Enters have in common, spread over the numbers of 64 bits.
fn spread(entered: &RepeatKey) -> u64
    ensures { result ≡ spread_key entered.now }
{
    let terms = u64::from(entered.price) * 0x1_0000_0000 + u64::from(entered.shares);
    let named = u64::from_le_bytes(entered.stock.bytes).wrapping_add(u64::from(entered.side));
    terms
        .wrapping_mul(0x9E37_79B9_7F4A_7C15)
        .wrapping_add(named.wrapping_mul(0xC2B2_AE3D_27D4_EB4F))
}

/// Which of so many cells the Enter falls into.
fn cell_of(cells: usize, entered: &RepeatKey) -> usize
    ensures is { result ≡ cell_of cells entered.now }
    ensures within { 0 < cells → result < cells }
{
    let product = u128::from(spread(entered)) * cells as u128;
    (product / 0x1_0000_0000_0000_0000) as usize
}

/// Counts one more Enter.
fn count_up(cells: &mut Vec<u8>, entered: &RepeatKey)
    ensures len { length cells.new.items ≡ length cells.old.items }
    ensures counted { (enters : List RepeatKey) → AreCounted cells.old.items enters
        → AreCounted cells.new.items (enters ++ entered.now ∷ []) }
{
    let cell = cell_of(cells.len(), entered);
    if cell < cells.len() {
        cells[cell] = cells[cell].saturating_add(1);
    }
}

/// What a cell holds once an Enter has left it. One that came to 255 is not known to hold fewer.
fn one_less(count: u8) -> u8
    ensures { result ≡ one_less count }
{
    if count == u8::MAX {
        u8::MAX
    } else {
        count.saturating_sub(1)
    }
}

/// Counts the first of the Enters no more.
fn count_down(cells: &mut Vec<u8>, gone: &RepeatKey)
    ensures len { length cells.new.items ≡ length cells.old.items }
    ensures counted { (enters : List RepeatKey) → AreCounted cells.old.items (gone.now ∷ enters)
        → AreCounted cells.new.items enters }
{
    let cell = cell_of(cells.len(), gone);
    if cell < cells.len() {
        cells[cell] = one_less(cells[cell]);
    }
}

/// Whether fewer than so many of the Enters that are counted fall into the cell of this one, as far as the cells tell.
#[inline(always)]
fn are_fewer(cells: &[u8], asked: &RepeatKey, limit: u64) -> bool
    ensures { IsTrue result → (enters : List RepeatKey) → AreCounted cells.now enters
        → count_by (are_alike asked.now) enters < limit }
{
    let cell = cell_of(cells.len(), asked);
    if cell >= cells.len() || cells[cell] == u8::MAX {
        return false;
    }
    u64::from(cells[cell]) < limit
}

/// How many of the Enters are such as this one.
#[inline(never)]
fn alike_in_ring(enters: &HeapCircularBuffer<RepeatKey>, asked: &RepeatKey) -> u64
    ensures { result ≡ count_by (are_alike asked.now) enters.now.items }
{
    let _len = enters.len();
    let (older, newer) = enters.as_slices();
    (alike_among(older, asked) + alike_among(newer, asked)) as u64
}

impl Enters {
    /// No Enter yet, and room for this many. `OutOfMemory` where memory was refused.
    pub fn with_room(alloc: Global, room: usize) -> Result<Enters, OutOfMemory>
        ensures { IfOk result (λ enters. enters ≡ buffer [] room) }
    {
        let Some(count) = room.checked_mul(8) else {
            return Err(OutOfMemory);
        };
        let ring = HeapCircularBuffer::with_capacity(alloc, room)?;
        let cells = vec![in alloc; 0; count]?;
        Ok(Enters { ring, cells })
    }

    /// Keeps the Enter in place of the oldest where there is no room for more.
    #[inline(always)]
    pub fn push(&mut self, entered: RepeatKey)
        ensures { self.new ≡ with_latest entered self.old }
    {
        if self.ring.capacity() == 0 {
            return;
        }
        count_up(&mut self.cells, &entered);
        if let Some(gone) = self.ring.push_back(entered) {
            count_down(&mut self.cells, &gone);
        }
    }

    /// Whether the Enters that are such as this one come to the limit. The ring is looked at only where so many are in one
    /// cell.
    #[inline(always)]
    pub fn are_alike(&self, asked: &RepeatKey, limit: u64) -> bool
        ensures { result ≡ nat_le limit (count_alike self.now.items asked.now) }
    {
        if are_fewer(&self.cells, asked, limit) {
            return false;
        }
        limit <= alike_in_ring(&self.ring, asked)
    }
}
