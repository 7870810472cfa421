//! The first packets of a connection.

ghost use Rattle.std.specs.{Prelude.{◌≡◌, ◌≢◌, ◌≤◌, ◌<◌, ℕ, List, ◌++◌, drop, length, take, IfErr, IfNone, IfOk, IfSome}, Io.KnownBytes.Consumes};
ghost use Rattle.gx_soup.specs.declared.packet.ClientPacket.TheVariants as client;
ghost use Rattle.gx_soup.specs.{declared.packet.LoginRequest.LoginRequest, Feeding.HasRead};
ghost use Rattle.gx_reception.specs.{Arrivals.{ComesTo, HasEnded, IsKnock, Knocks}, Openings.{from_first, is_idle, IsIdle}};

use crate::opening::{Knock, Opening};
use gx_devices::CallCounter;
use gx_soup::{ClientPacket, Fed, Feeder, LoginRequest};
use std::alloc::Global;
use std::io::Read;
use std::sync::Wait;

/// Whether a packet leaves each session as it is: a heartbeat, or a Debug packet.
pub fn is_idle(packet: &ClientPacket) -> bool
    ensures { result ≡ is_idle packet.now }
{
    match packet {
        ClientPacket::Heartbeat | ClientPacket::Debug => true,
        ClientPacket::Login(_) | ClientPacket::Data(_) | ClientPacket::Logout => false,
    }
}

/// The place of the first packet that is not idle; their number, where all are.
fn first_place(packets: &[ClientPacket]) -> usize
    ensures place { drop result packets.now ≡ from_first packets.now }
    ensures within { result ≤ length packets.now }
{
    for at in 0..packets.len() {
        if !is_idle(&packets[at]) {
            return at;
        }
    }
    packets.len()
}

/// The login, if the packet is one.
fn login_of(packet: &ClientPacket) -> Option<LoginRequest>
    ensures some { IfSome result (λ login. packet.now ≡ client.Login login) }
    ensures none { IfNone result ((login : LoginRequest) → packet.now ≢ client.Login login) }
{
    match packet {
        ClientPacket::Login(login) => Some(*login),
        ClientPacket::Data(_)
        | ClientPacket::Heartbeat
        | ClientPacket::Logout
        | ClientPacket::Debug => None,
    }
}

/// What a piece comes to that has a packet in this place.
#[tactic(auto, using(crate::proofs::Packets_idle::is_other))]
fn knock_at(feeder: Feeder, fed: Fed, at: usize) -> Knock
    requires within { at < length fed.packets.items }
    ensures knock { IsKnock (drop at fed.packets.items) fed.fault feeder result }
{
    let Fed { packets, fault } = fed;
    let Some(login) = login_of(&packets[at]) else {
        return Knock::Other;
    };
    Knock::Login(Opening {
        login,
        packets,
        at,
        fault,
        feeder,
    })
}

/// What a piece comes to, behind idle packets; the feeder, where all of it is idle.
#[tactic(auto, using(crate::proofs::Packets_idle::comes_knocking, crate::proofs::Packets_idle::comes_broken, crate::proofs::Packets_idle::stays_idle))]
fn take_piece(feeder: Feeder, piece: &[u8]) -> Result<Feeder, Knock>
    ensures idle { IfOk result (λ f. (before : List ℕ)
        → HasRead feeder before → IsIdle before
        → HasRead f (before ++ piece.now) × IsIdle (before ++ piece.now)) }
    ensures comes { IfErr result (λ k. (before : List ℕ)
        → HasRead feeder before → IsIdle before
        → ComesTo (before ++ piece.now) ⊥ k) }
{
    let mut feeder = feeder;
    let Ok(fed) = feeder.feed(piece) else {
        return Err(Knock::Refused);
    };
    let at = first_place(&fed.packets);
    if at < fed.packets.len() {
        return Err(knock_at(feeder, fed, at));
    }
    match fed.fault {
        Some(fault) => Err(Knock::Broken(fault)),
        None => Ok(feeder),
    }
}

/// Reads the next piece: how many bytes it has, at least one; `None` at the end of the input, or where the reader fails.
pub fn read_piece<I: Read>(reader: &mut CallCounter<I>, buffer: &mut [u8; 4096]) -> Option<usize>
    ensures some { IfSome result (λ n. (0 < n) × (n ≤ length buffer.new)) }
    ensures read { IfSome result (λ n. Consumes (I.remaining reader.old.device)
        (I.remaining reader.new.device) (take n buffer.new)) }
    ensures ended { IfNone result (HasEnded (I.remaining reader.old.device)
        (I.remaining reader.new.device) reader.old.failed reader.new.failed) }
{
    match reader.read(buffer) {
        Ok(0) => None,
        Ok(n) => Some(n),
        Err(_) => None,
    }
}

/// Reads a connection up to the piece that has its first packet other than a heartbeat or a Debug packet, and no further.
pub fn await_login<I: Read, R: Wait>(rt: &R, alloc: Global, reader: &mut CallCounter<I>) -> Knock
    ensures { Knocks (I.remaining reader.old.device) (I.remaining reader.new.device)
        reader.new.failed result }
{
    let mut feeder = Feeder::new(alloc);
    let mut buffer = [0u8; 4096];
    for _ in rt.forever() {
        let Some(n) = read_piece(reader, &mut buffer) else {
            return Knock::Ended;
        };
        feeder = match take_piece(feeder, &buffer[..n]) {
            Ok(feeder) => feeder,
            Err(knock) => return knock,
        };
    }
    unreachable!()
}
