//! Packets of a text that comes in pieces.

ghost use Rattle.std.specs.Prelude.{◌≡◌, ℕ, ◌≤◌, ◌<◌, List, [], drop, length, is_some, IsTrue, IfOk, OnErr};
ghost use Rattle.gx_soup.specs.{Standard.longest_packet, Packets.packets_of, Feeding.{HasRead, Gives}};

use crate::front::{First, put_front};
use crate::packet::{ClientPacket, SoupFault};
use gx_units::OutOfMemory;
use std::alloc::Global;
use std::marker::Model;

/// What a piece brought.
#[derive(Drop)]
pub struct Fed {
    /// The packets that this piece completed, in order, before any fault.
    pub packets: Vec<ClientPacket>,
    /// What is wrong with the bytes behind them.
    pub fault: Option<SoupFault>,
}

/// Reads a client's packets from a text that comes in pieces. It holds back the bytes of a packet that is not whole
/// yet, and a fault once it has met one. What a packet costs is in proportion to its length, in however many pieces
/// it comes.
#[derive(Drop)]
pub struct Feeder {
    alloc: Global,
    rest: Vec<u8>,
    fault: Option<SoupFault>,
}

impl Model for Feeder {
    ghost use Rattle.std.specs.Prelude.{◌<◌, length};
    ghost use Rattle.gx_soup.specs.Standard.{longest_packet};
    ghost use Rattle.gx_soup.specs.Feeding.{Held};

    ghost Value = { Held };

    ghost view = { λ f. record { rest = f.rest.items; fault = f.fault } };

    ghost invariant = { λ f. length f.rest.items < longest_packet };
}

impl Feeder {
    /// A feeder that has read nothing. It takes no memory.
    pub fn new(alloc: Global) -> Feeder
        ensures { HasRead result [] }
    {
        Feeder {
            alloc,
            rest: Vec::new(alloc),
            fault: None,
        }
    }

    /// Takes the next piece. The packets given and the fault are those of all bytes fed so far, however they were
    /// cut into pieces: each packet is given with the piece that completes it, and a fault is told as soon as it
    /// shows. After a fault each piece gives no packet and the same fault. At an `Err` nothing has changed, and the
    /// same piece may be fed again.
    pub fn feed(&mut self, piece: &[u8]) -> Result<Fed, OutOfMemory>
        ensures fed { IfOk result (λ fed. (before : List ℕ) → HasRead self.old before
            → Gives fed.packets.items fed.fault self.new before piece.now) }
        ensures faulted { IsTrue (is_some self.old.fault)
            → IfOk result (λ fed. (fed.packets.items ≡ []) × (fed.fault ≡ self.old.fault)) }
        ensures bounded { length self.new.rest < longest_packet }
        ensures err { OnErr result (self.new ≡ self.old) }
    {
        let mut packets = Vec::new(self.alloc);
        let fault = self.feed_into(piece, &mut packets)?;
        Ok(Fed { packets, fault })
    }

    /// Takes the next piece as `feed` does, and answers the fault. Its packets stand in the list then, whose room is kept,
    /// in place of those that stood there; none does at an `Err`.
    pub fn feed_into(
        &mut self,
        piece: &[u8],
        packets: &mut Vec<ClientPacket>,
    ) -> Result<Option<SoupFault>, OutOfMemory>
        ensures fed { IfOk result (λ fault. (before : List ℕ) → HasRead self.old before
            → Gives packets.new.items fault self.new before piece.now) }
        ensures faulted { IsTrue (is_some self.old.fault)
            → IfOk result (λ fault. (packets.new.items ≡ []) × (fault ≡ self.old.fault)) }
        ensures bounded { length self.new.rest < longest_packet }
        ensures err { OnErr result (self.new ≡ self.old) }
        ensures none { OnErr result (packets.new.items ≡ []) }
    {
        packets.clear();
        if self.fault.is_some() {
            return Ok(self.fault);
        }
        let held = self.rest.len();
        self.rest.extend_from_slice(piece)?;
        match cut(self.alloc, self.rest.as_slice(), packets) {
            Ok(split) => {
                drop_front(&mut self.rest, split.used);
                self.fault = split.fault;
                Ok(split.fault)
            }
            Err(refused) => {
                packets.clear();
                self.rest.truncate(held);
                Err(refused)
            }
        }
    }
}

/// Where the packets of some bytes end: the fault after them, and how many bytes they and it take.
#[derive(Clone, Copy)]
struct Split {
    fault: Option<SoupFault>,
    used: usize,
}

/// Cuts off what is told of these bytes, and puts their packets into the empty list. While nothing is told it takes no
/// longer for more bytes.
fn cut(alloc: Global, bytes: &[u8], packets: &mut Vec<ClientPacket>) -> Result<Split, OutOfMemory>
    requires { packets.old.items ≡ [] }
    ensures within { IfOk result (λ s. s.used ≤ length bytes.now) }
    ensures bounded { IfOk result (λ s. length (drop s.used bytes.now) < longest_packet) }
    ensures packets { IfOk result (λ s.
        packets_of bytes.now ≡ record {
          packets = packets.new.items;
          fault = s.fault;
          rest = drop s.used bytes.now;
        }) }
{
    let mut used = 0;
    while used < bytes.len() {
        match put_front(alloc, &bytes[used..], packets)? {
            First::Short => return Ok(Split { fault: None, used }),
            First::Faulty(fault) => {
                return Ok(Split {
                    fault: Some(fault),
                    used: bytes.len(),
                });
            }
            First::Whole(taken) => used += taken,
        }
    }
    Ok(Split { fault: None, used })
}

/// Drops the first bytes, and moves the others to the front where there is room to fill.
fn drop_front(bytes: &mut Vec<u8>, count: usize)
    requires { count ≤ length bytes.old.items }
    ensures { bytes.new.items ≡ drop count bytes.old.items }
{
    if count > 0 {
        let left = bytes.len() - count;
        bytes.copy_within(count.., 0);
        bytes.truncate(left);
    }
}
