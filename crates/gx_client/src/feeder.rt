//! A server's packets, from a text that comes in pieces.

ghost use Rattle.std.specs.{Prelude.{◌≡◌, ℕ, ◌≤◌, ◌<◌, List, [], ◌++◌, drop, length, is_some, IsTrue, IfOk, OnOk, OnErr}, Option.option_to_list};
ghost use Rattle.gx_soup.specs.Standard.{longest_packet};
ghost use Rattle.gx_client.specs.{ServerPackets.server_packets_of, ServerFeeding.{HasReadServerBytes, GivesServerPackets}};

use crate::front::{ServerFault, ServerFront, read_front};
use gx_soup::ServerPacket;
use gx_units::OutOfMemory;
use std::alloc::Global;
use std::marker::Model;

/// What a piece brought.
#[derive(Drop)]
pub struct ServerFed {
    /// The packets that this piece completed, in order, before any fault. Debug and Unsequenced Data are passed over. The
    /// name in a Login Accepted is given on the left of its field, and a number past 64 bits as the greatest of 64 bits.
    pub packets: Vec<ServerPacket>,
    /// What is wrong with the bytes behind them.
    pub fault: Option<ServerFault>,
}

/// Reads a server's packets from a text that comes in pieces. It holds back the bytes of a packet that is not whole
/// yet, and a fault once it has met one. What a packet costs is in proportion to its length, in however many pieces
/// it comes.
#[derive(Drop)]
pub struct ServerFeeder {
    alloc: Global,
    rest: Vec<u8>,
    fault: Option<ServerFault>,
}

impl Model for ServerFeeder {
    ghost use Rattle.std.specs.Prelude.{◌<◌, length};
    ghost use Rattle.gx_soup.specs.Standard.{longest_packet};
    ghost use Rattle.gx_client.specs.ServerFeeding.{HeldServerBytes};

    ghost Value = { HeldServerBytes };

    ghost view = { λ f. record { rest = f.rest.items; fault = f.fault } };

    ghost invariant = { λ f. length f.rest.items < longest_packet };
}

impl ServerFeeder {
    /// A feeder that has read nothing. It takes no memory.
    pub fn new(alloc: Global) -> ServerFeeder
        ensures { HasReadServerBytes result [] }
    {
        ServerFeeder {
            alloc,
            rest: Vec::new(alloc),
            fault: None,
        }
    }

    /// Takes the next piece. The packets given and the fault are those of all bytes fed so far, however they were
    /// cut into pieces: each packet is given with the piece that completes it, and a fault is told as soon as it
    /// shows. After a fault each piece gives no packet and the same fault. At an `Err` nothing has changed, and the
    /// same piece may be fed again.
    pub fn feed(&mut self, piece: &[u8]) -> Result<ServerFed, OutOfMemory>
        ensures fed { IfOk result (λ fed. (before : List ℕ)
            → HasReadServerBytes self.old before
            → GivesServerPackets fed.packets.items fed.fault self.new before piece.now) }
        ensures faulted { IsTrue (is_some self.old.fault)
            → IfOk result (λ fed. (fed.packets.items ≡ []) × (fed.fault ≡ self.old.fault)) }
        ensures bounded { length self.new.rest < longest_packet }
        ensures err { OnErr result (self.new ≡ self.old) }
    {
        if self.fault.is_some() {
            return Ok(ServerFed {
                packets: Vec::new(self.alloc),
                fault: self.fault,
            });
        }
        let held = self.rest.len();
        self.rest.extend_from_slice(piece)?;
        match cut(self.alloc, self.rest.as_slice()) {
            Ok(split) => {
                drop_front(&mut self.rest, split.used);
                self.fault = split.fault;
                Ok(ServerFed {
                    packets: split.packets,
                    fault: split.fault,
                })
            }
            Err(refused) => {
                self.rest.truncate(held);
                Err(refused)
            }
        }
    }
}

/// Packets, the fault after them, and how many bytes they and it take.
#[derive(Drop)]
struct PacketSplit {
    packets: Vec<ServerPacket>,
    fault: Option<ServerFault>,
    used: usize,
}

/// Cuts off what is told of these bytes. While nothing is told it takes no longer for more bytes.
fn cut(alloc: Global, bytes: &[u8]) -> Result<PacketSplit, OutOfMemory>
    ensures within { IfOk result (λ s. s.used ≤ length bytes.now) }
    ensures bounded { IfOk result (λ s. length (drop s.used bytes.now) < longest_packet) }
    ensures packets { IfOk result (λ s.
        server_packets_of bytes.now ≡ record {
          packets = s.packets.items;
          fault = s.fault;
          rest = drop s.used bytes.now;
        }) }
{
    let mut packets = Vec::new(alloc);
    let mut used = 0;
    while used < bytes.len() {
        match read_front(alloc, &bytes[used..])? {
            ServerFront::Short => {
                return Ok(PacketSplit {
                    packets,
                    fault: None,
                    used,
                });
            }
            ServerFront::Faulty(fault) => {
                return Ok(PacketSplit {
                    packets,
                    fault: Some(fault),
                    used: bytes.len(),
                });
            }
            ServerFront::Whole(packet, taken) => {
                push_heard(&mut packets, packet)?;
                used += taken;
            }
        }
    }
    Ok(PacketSplit {
        packets,
        fault: None,
        used,
    })
}

/// Puts a packet behind the others, if it was not passed over.
fn push_heard(
    packets: &mut Vec<ServerPacket>,
    heard: Option<ServerPacket>,
) -> Result<(), OutOfMemory>
    ensures { OnOk result (packets.new.items ≡ packets.old.items ++ option_to_list heard) }
{
    if let Some(packet) = heard {
        packets.push(packet)?;
    }
    Ok(())
}

/// Drops the first bytes, and moves the others to the front where there is room to fill.
fn drop_front(bytes: &mut Vec<u8>, count: usize)
    requires { count ≤ length bytes.old.items }
    ensures { bytes.new.items ≡ drop count bytes.old.items }
{
    if count > 0 {
        bytes.drain(..count);
    }
}
