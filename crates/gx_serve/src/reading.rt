//! The reader of a connection.

ghost use Rattle.std.specs.Prelude.{◌≡◌, ℕ, List, ◌++◌, IsFalse, IsTrue, is_some};
ghost use Rattle.gx_soup.specs.{Feeding.HasRead, Packets.packets_of};
ghost use Rattle.gx_reception.specs.Openings.{is_idle, IsOpening};
ghost use Rattle.gx_serve.specs.Readings.{cut_in, IfOpen, IsCut, IsSessionKept, IsLeft, Stands, WasHeard};

use crate::announcing::{Announces, announce};
use crate::conduct::Exclusion;
use crate::shared_connection::{SharedConnection, is_farewell};
use crate::state::taking::Taken;
use crate::state::{Break, BrokenOff, Over, ReaderEnded};
use gx_access_gate::StepFault;
use gx_control::{Notified, Wakeups};
use gx_devices::CallCounter;
use gx_door::{Dial, Door};
use gx_reception::{Opening, is_idle, read_piece};
use gx_soup::{ClientPacket, Feeder, SoupFault};
use std::io::Read;
use std::marker::Model;
use std::sync::Wait;
use std::time::Clock;

/// So many packets are taken before the matching steps behind them are made.
const GROUP: usize = 8;

/// So many groups of one piece are taken at most before what came of them is kept.
const PORTION: u64 = 8;

/// What the bytes read so far leave of a session.
#[derive(Drop)]
pub enum Left {
    /// It goes on.
    Open,
    /// It is over.
    Over(Over),
    /// It was told that there is no memory for what came.
    Refused(BrokenOff),
    /// It was told that behind its packets comes what is none.
    Broken(SoupFault, BrokenOff),
    /// It was told that it ends, since its user is put out.
    Excluded(Exclusion, BrokenOff),
}

/// Why a session was cut off by its reader.
#[derive(Clone, Copy)]
pub enum Cut {
    /// Its bytes are no packets.
    Broken(SoupFault),
    /// Its user was put out.
    Excluded(Exclusion),
}

/// What a reader has come to. Contracts see what the bytes left of the session.
#[derive(Drop)]
pub struct Heard {
    left: Left,
    _ended: ReaderEnded,
}

impl Model for Heard {
    ghost use Rattle.gx_serve.specs.declared.reading.Left.{Left};

    ghost Value = { Left };

    ghost view = { λ h. h.left };
}

impl Heard {
    /// Why the session was cut off, if it was.
    pub fn cut(&self) -> Option<Cut>
        ensures { result ≡ cut_in self.now }
    {
        match self.left {
            Left::Broken(fault, _) => Some(Cut::Broken(fault)),
            Left::Excluded(why, _) => Some(Cut::Excluded(why)),
            Left::Open | Left::Over(_) | Left::Refused(_) => None,
        }
    }
}

/// Tells the session that what came is no packet, if so.
fn break_off<D: Door, R: Wait + Clock + Dial>(
    rt: &R,
    door: &D,
    wakeups: &Wakeups<'_>,
    shared: &SharedConnection<D::Pass>,
    fault: Option<SoupFault>,
) -> Left
    ensures { IsCut fault result }
{
    match fault {
        Some(fault) => {
            let told = shared.break_off(rt, door, Break::Fault);
            wakeups.wake_writer(rt);
            Left::Broken(fault, told)
        }
        None => Left::Open,
    }
}

/// Wakes the matcher behind a packet, unless it asks for nothing.
fn note<R: Wait>(rt: &R, wakeups: &Wakeups<'_>, packet: &ClientPacket) -> Option<Notified>
    ensures { IsFalse (is_idle packet.now) → IsTrue (is_some result) }
{
    if is_idle(packet) {
        return None;
    }
    Some(wakeups.wake_matcher(rt))
}

/// Whether one of these packets asks for anything.
fn is_asking(group: &[ClientPacket]) -> bool {
    for packet in group {
        if !is_idle(packet) {
            return true;
        }
    }
    false
}

/// Behind packets: makes the matching steps that they ask for, unless they are many, and wakes the writer and the matcher.
/// Where orders may wait still and the matcher is far behind, it waits. Nothing is done where they ask for nothing.
fn settle<D: Door, R: Wait + Clock + Dial>(
    rt: &R,
    door: &D,
    wakeups: &Wakeups<'_>,
    shared: &SharedConnection<D::Pass>,
    group: &[ClientPacket],
) {
    if !is_asking(group) {
        return;
    }
    let settled = shared.settle(rt, door);
    wakeups.wake_both(rt, !settled);
}

/// Takes a few packets until the session is over, or its user is put out, announces what commands among them ended, and makes
/// the matching steps behind them. The writer is woken before one that asks for the session's end, which waits for him.
fn take_group<D: Door, R: Wait + Clock + Dial + Announces>(
    rt: &R,
    door: &D,
    wakeups: &Wakeups<'_>,
    shared: &SharedConnection<D::Pass>,
    group: &[ClientPacket],
) -> Left
    ensures { IsSessionKept result }
{
    for packet in group {
        if is_farewell(packet) {
            wakeups.wake_writer(rt);
        }
        match shared.take(rt, door, packet) {
            Taken::Packet(taken) => {
                let announced = announce(rt, taken.ended());
                if let Some(over) = taken.over(&announced, &note(rt, wakeups, packet)) {
                    wakeups.wake_writer(rt);
                    return Left::Over(over);
                }
            }
            Taken::Excluded(why, told) => {
                wakeups.wake_both(rt, false);
                return Left::Excluded(why, told);
            }
        }
    }
    settle(rt, door, wakeups, shared, group);
    Left::Open
}

/// Takes packets until the session is over, or its user is put out. Whoever sends many at once waits for what came of them to
/// be kept, so that this is never far behind.
fn take_packets<D: Door, R: Wait + Clock + Dial + Announces>(
    rt: &R,
    door: &D,
    wakeups: &Wakeups<'_>,
    shared: &SharedConnection<D::Pass>,
    packets: &[ClientPacket],
) -> Left
    ensures { IsSessionKept result }
{
    let mut taken = 0u64;
    for group in packets.chunks(GROUP) {
        match take_group(rt, door, wakeups, shared, group) {
            Left::Open => taken = taken.saturating_add(1),
            left => return left,
        }
        if taken % PORTION == 0 {
            door.keep_all(rt);
        }
    }
    Left::Open
}

/// Takes packets, and tells the session of the fault behind them, unless it is over. Answers what this leaves of it.
fn take_all<D: Door, R: Wait + Clock + Dial + Announces>(
    rt: &R,
    door: &D,
    wakeups: &Wakeups<'_>,
    shared: &SharedConnection<D::Pass>,
    packets: &[ClientPacket],
    fault: Option<SoupFault>,
) -> Left
    ensures { IsLeft fault result }
{
    match take_packets(rt, door, wakeups, shared, packets) {
        Left::Open => break_off(rt, door, wakeups, shared, fault),
        left => left,
    }
}

/// Takes the packets of a piece. Answers what it leaves of the session.
fn take_piece<D: Door, R: Wait + Clock + Dial + Announces>(
    rt: &R,
    door: &D,
    wakeups: &Wakeups<'_>,
    shared: &SharedConnection<D::Pass>,
    feeder: &mut Feeder,
    piece: &[u8],
) -> Left
    ensures left { (before : List ℕ) → HasRead feeder.old before
        → IsLeft (packets_of (before ++ piece.now)).fault result }
    ensures read { (before : List ℕ) → HasRead feeder.old before
        → IfOpen result (HasRead feeder.new (before ++ piece.now)) }
{
    let Ok(fed) = feeder.feed(piece) else {
        let told = shared.break_off(rt, door, Break::Refused(StepFault::OutOfMemory));
        wakeups.wake_writer(rt);
        return Left::Refused(told);
    };
    take_all(rt, door, wakeups, shared, &fed.packets, fed.fault)
}

/// Takes the packets of a piece, unless the session is over, or was told that it ends.
#[tactic(auto, using(crate::proofs::Reader_next::opened, crate::proofs::Reader_next::still_broken))]
fn hear_piece<D: Door, R: Wait + Clock + Dial + Announces>(
    rt: &R,
    door: &D,
    wakeups: &Wakeups<'_>,
    shared: &SharedConnection<D::Pass>,
    feeder: &mut Feeder,
    left: Left,
    piece: &[u8],
) -> Left
    ensures { (before : List ℕ) → Stands left feeder.old before
        → Stands result feeder.new (before ++ piece.now) }
{
    match left {
        Left::Open => take_piece(rt, door, wakeups, shared, feeder, piece),
        Left::Over(over) => Left::Over(over),
        Left::Refused(told) => Left::Refused(told),
        Left::Broken(fault, told) => Left::Broken(fault, told),
        Left::Excluded(why, told) => Left::Excluded(why, told),
    }
}

/// Takes the packets that a connection begins with, its login first.
fn take_opening<D: Door, R: Wait + Clock + Dial + Announces>(
    rt: &R,
    door: &D,
    wakeups: &Wakeups<'_>,
    shared: &SharedConnection<D::Pass>,
    opening: &Opening,
) -> Left
    ensures { IsLeft opening.now.fault result }
{
    take_all(
        rt,
        door,
        wakeups,
        shared,
        opening.packets(),
        opening.fault(),
    )
}

/// Takes the packets that a connection begins with, its login first, then reads on and takes each that comes, until its
/// input ends or fails. Once the session is over, what comes is let go. What its commands ended is announced.
pub fn read_on<D: Door, I: Read, R: Wait + Clock + Dial + Announces>(
    rt: &R,
    door: &D,
    wakeups: &Wakeups<'_>,
    shared: &SharedConnection<D::Pass>,
    opening: Opening,
    reader: &mut CallCounter<I>,
) -> Heard
    ensures { (before : List ℕ) → IsOpening before opening
        → WasHeard before (I.remaining reader.old.device) (I.remaining reader.new.device)
        reader.new.failed result }
{
    let mut buffer = [0u8; 4096];
    let mut left = take_opening(rt, door, wakeups, shared, &opening);
    let mut feeder = opening.into_feeder();
    for _ in rt.forever() {
        let Some(n) = read_piece(reader, &mut buffer) else {
            let ended = shared.end(rt, door);
            wakeups.wake_writer(rt);
            return Heard {
                left,
                _ended: ended,
            };
        };
        left = hear_piece(rt, door, wakeups, shared, &mut feeder, left, &buffer[..n]);
    }
    unreachable!()
}
