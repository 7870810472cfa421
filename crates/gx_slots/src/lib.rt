//! Where names are likely to stand in a list. Nothing but time rests on these places.
#![tactic(auto)]

use gx_units::{OutOfMemory, Symbol, UserName};
use std::alloc::Global;

/// An odd number by which names spread over the numbers of 64 bits.
const SPREAD: u64 = 0x9E37_79B9_7F4A_7C15;

/// A name's bytes as one number: two names of a kind have two numbers.
pub trait Spelled {
    /// That number.
    fn number(self) -> u64;
}

impl Spelled for UserName {
    #[inline(always)]
    fn number(self) -> u64 {
        let [a, b, c, d, e, f] = self.bytes;
        let front = u64::from(u32::from_le_bytes([a, b, c, d]));
        front | u64::from(u16::from_le_bytes([e, f])) << 32
    }
}

impl Spelled for Symbol {
    #[inline(always)]
    fn number(self) -> u64 {
        u64::from_le_bytes(self.bytes)
    }
}

/// A name, and what is known of its place.
#[derive(Clone, Copy)]
struct Slot<P> {
    number: u64,
    place: P,
}

/// What is known of the places of some names. Of names that share a slot it is known of the last one alone: whoever asks
/// for another goes by a hash.
#[derive(Drop)]
pub struct Slots<P> {
    slots: Vec<Slot<P>>,
    /// The bits of a slot's index.
    mask: usize,
}

impl<P: Copy> Slots<P> {
    /// No name yet, and so many slots, a power of two; `nowhere` stands in each.
    ///
    /// # Errors
    ///
    /// `OutOfMemory` where memory was refused.
    pub fn new(alloc: Global, count: usize, nowhere: P) -> Result<Slots<P>, OutOfMemory> {
        let mut slots = Vec::with_capacity(alloc, count)?;
        for _ in 0..count {
            slots.push(Slot {
                number: 0,
                place: nowhere,
            })?;
        }
        Ok(Slots {
            slots,
            mask: count.saturating_sub(1),
        })
    }

    #[inline(always)]
    fn index_of(&self, number: u64) -> usize {
        (number.wrapping_mul(SPREAD) >> 40) as usize & self.mask
    }

    /// Notes the name's place.
    pub fn put<N: Spelled>(&mut self, name: N, place: P) {
        let number = name.number();
        let index = self.index_of(number);
        if index < self.slots.len() {
            self.slots[index] = Slot { number, place };
        }
    }

    /// What is known of the name's place.
    #[inline(always)]
    pub fn find<N: Spelled>(&self, name: N) -> Option<P> {
        let number = name.number();
        match self.slots.get(self.index_of(number)) {
            Some(slot) if slot.number == number => Some(slot.place),
            _ => None,
        }
    }
}
