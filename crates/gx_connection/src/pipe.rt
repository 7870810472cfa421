//! A connection over any reader and any writer.

ghost use Rattle.std.specs.Prelude.{◌≡◌, ℕ, ◌-◌, ◌^◌, ◌<◌, ◌≤◌, List, fold, IfOk, IfErr, IsErrOf, OnOk};
ghost use Rattle.gx_access_gate.specs.Gates.{GateData};
ghost use Rattle.gx_devices.specs.{Devices.{IsUnfailing, counted_on}, Pieces.flow_of, Stopping.trail};
ghost use Rattle.gx_connection.specs.{Faults.{IsTold, IsToldRightly}, Piping.{IsTaken, PipeStopsIn, IsPipeCutShort, IsRunAfter, Exchanged, Broken, IsAfterFault, IsLeaving, IsTranscript, IsPipe, packet_marks}, Transcript.{run_at, nothing_written, run_on_packet, opened_at}};
ghost use Rattle.gx_session.specs.Happenings.{happening_of};

use crate::connection::Connection;
use crate::fault::PipeFault;
use crate::room::{PullRoom, Room};
use gx_access_gate::{AccessGate, StepFault};
use gx_devices::CallCounter;
use gx_session::Event;
use gx_soup::{ClientPacket, Feeder};
use std::alloc::Global;
use std::io::{Read, Write};

/// After so many reads the input of [`run_pipe`] is called endless.
const READS: u64 = 1_000_000_000;

/// Takes packets in order, each answered before the next. What is answered is flushed behind the last one.
fn take_packets<G: AccessGate, W: Write>(
    room: &mut PullRoom,
    gate: &mut G,
    connection: &mut Connection,
    writer: &mut CallCounter<W>,
    packets: &[ClientPacket],
) -> Result<(), PipeFault>
    requires { writer.old.failed < 2 ^ 64 - 1 }
    ensures ok { OnOk result
        (IsTaken
        (fold run_on_packet (nothing_written (G.state gate.old) connection.old) packets.now)
        (G.state gate.new) connection.new
        (W.contents writer.old.device) (W.contents writer.new.device)) }
    ensures err { IfErr result (λ fault. (text : List ℕ) → PipeStopsIn
        (run_at (G.state gate.old) connection.old text)
        (trail packet_marks run_on_packet
        (run_at (G.state gate.old) connection.old text) packets.now)
        fault (G.state gate.new) connection.new
        (W.contents writer.old.device) (W.contents writer.new.device)) }
    ensures kept { OnOk result (writer.new.failed ≡ writer.old.failed) }
    ensures told { IfErr result (IsTold writer.old.failed writer.new.failed (G.state gate.new)) }
{
    let mut left = packets.len();
    for packet in packets {
        left = left.wrapping_sub(1);
        room.flushes = left == 0;
        connection.take(room, gate, packet, writer)?;
    }
    Ok(())
}

/// Reads a piece, and answers its packets. The answer says whether the connection is at its end.
fn exchange<G: AccessGate, W: Write>(
    room: &mut Room,
    gate: &mut G,
    connection: &mut Connection,
    feeder: &mut Feeder,
    writer: &mut CallCounter<W>,
    piece: &[u8],
) -> Result<bool, PipeFault>
    requires { writer.old.failed < 2 ^ 64 - 1 }
    ensures ok { IfOk result (λ over. (before : GateData) (first : ℕ) (bytes : List ℕ)
        → IsRunAfter before first (G.state gate.old) connection.old feeder.old bytes
        → Exchanged before first bytes piece.now over (G.state gate.new) connection.new feeder.new
        (W.contents writer.old.device) (W.contents writer.new.device)) }
    ensures err { IfErr result (λ fault. (before : GateData) (first : ℕ) (bytes : List ℕ)
        → IsRunAfter before first (G.state gate.old) connection.old feeder.old bytes
        → Broken before first bytes piece.now fault (G.state gate.new) connection.new
        (W.contents writer.old.device) (W.contents writer.new.device)) }
    ensures kept { OnOk result (writer.new.failed ≡ writer.old.failed) }
    ensures told { IfErr result (IsTold writer.old.failed writer.new.failed (G.state gate.new)) }
{
    let fault = feeder.feed_into(piece, &mut room.packets)?;
    take_packets(
        &mut room.pull,
        gate,
        connection,
        writer,
        room.packets.as_slice(),
    )?;
    let is_over = connection.session.is_over();
    Ok(fault.is_some() | is_over)
}

/// Runs a connection until its end or a fault, with so many reads at most.
fn serve<G: AccessGate, R: Read, W: Write>(
    alloc: Global,
    gate: &mut G,
    first: u64,
    connection: &mut Connection,
    reader: &mut CallCounter<R>,
    writer: &mut CallCounter<W>,
    reads: u64,
) -> Result<(), PipeFault>
    requires opened { connection.old ≡ opened_at first }
    requires reader { reader.old.failed < 2 ^ 64 - 1 }
    requires writer { writer.old.failed < 2 ^ 64 - 1 }
    ensures pipe { OnOk result (IsTranscript
        (flow_of R.remaining W.contents reader.old reader.new writer.old writer.new)
        (G.state gate.old) first (G.state gate.new)) }
    ensures cut { IfErr result (λ fault. IsPipeCutShort
        (flow_of R.remaining W.contents reader.old reader.new writer.old writer.new)
        (G.state gate.old) first fault (G.state gate.new) connection.new) }
    ensures unfailing { OnOk result (IsUnfailing
        reader.old.failed reader.new.failed writer.old.failed writer.new.failed) }
    ensures endless { IsErrOf result PipeFault.Endless
        → counted_on reader.old.calls reads ≤ reader.new.calls }
    ensures told { IfErr result (IsToldRightly
        reader.old.failed reader.new.failed writer.old.failed writer.new.failed
        (G.state gate.new)) }
{
    let mut feeder = Feeder::new(alloc);
    let mut room = Room::new(alloc);
    let mut buffer = [0u8; 4096];
    for _ in 0..reads {
        let n = match reader.read(&mut buffer) {
            Ok(n) => n,
            Err(_) => return Err(PipeFault::ReadFailed),
        };
        if n == 0 {
            connection.leave(gate, Event::End)?;
            return Ok(());
        }
        let over = exchange(
            &mut room,
            gate,
            connection,
            &mut feeder,
            writer,
            &buffer[..n],
        )?;
        if over {
            connection.leave(gate, Event::Fault)?;
            return Ok(());
        }
    }
    Err(PipeFault::Endless)
}

/// What a session is told of a fault: a refused step, or that no more input comes.
fn event_of_fault<'a>(fault: PipeFault) -> Event<'a>
    ensures { IsLeaving (happening_of result) }
{
    match fault {
        PipeFault::OutOfMemory => Event::Refused(StepFault::OutOfMemory),
        PipeFault::DayFull => Event::Refused(StepFault::DayFull),
        PipeFault::ReadFailed | PipeFault::WriteFailed | PipeFault::Endless => Event::Fault,
    }
}

/// Runs a connection to its end: SoupBinTCP packets in, the steps that the session table asks for on the
/// gate, SoupBinTCP packets out. The k-th packet comes at the moment `first + k - 1`, on line 1. Each packet
/// is answered before the next is taken; then, unless the session is over, orders are matched at its moment
/// until none waits, and the reports that are there are sent.
///
/// A refused matching step ends the run as any refused step does. After a fault a user who is on is logged
/// out at the moment of the last packet, without exception: it wants no memory, and no room in the day.
///
/// The input is read at most `reads` times, and is called endless where it has not ended by then.
pub fn run_pipe_within<G: AccessGate, R: Read, W: Write>(
    alloc: Global,
    gate: &mut G,
    first: u64,
    reader: &mut CallCounter<R>,
    writer: &mut CallCounter<W>,
    reads: u64,
) -> Result<(), PipeFault>
    requires reader { reader.old.failed < 2 ^ 64 - 1 }
    requires writer { writer.old.failed < 2 ^ 64 - 1 }
    ensures pipe { OnOk result (IsTranscript
        (flow_of R.remaining W.contents reader.old reader.new writer.old writer.new)
        (G.state gate.old) first (G.state gate.new)) }
    // Where the reader tells its bytes: the gate and the bytes written are the pipe's of all.
    ensures all { OnOk result (IsPipe
        (flow_of R.remaining W.contents reader.old reader.new writer.old writer.new)
        (G.state gate.old) first (G.state gate.new)) }
    // The first packets were taken and answered whole; at a failed read or an endless input, all.
    ensures fault { IfErr result (λ fault. IsAfterFault
        (flow_of R.remaining W.contents reader.old reader.new writer.old writer.new)
        (G.state gate.old) first (G.state gate.new) fault) }
    ensures unfailing { OnOk result (IsUnfailing
        reader.old.failed reader.new.failed writer.old.failed writer.new.failed) }
    ensures endless { IsErrOf result PipeFault.Endless
        → counted_on reader.old.calls reads ≤ reader.new.calls }
    ensures told { IfErr result (IsToldRightly
        reader.old.failed reader.new.failed writer.old.failed writer.new.failed
        (G.state gate.new)) }
{
    let mut connection = Connection::new(first);
    match serve(alloc, gate, first, &mut connection, reader, writer, reads) {
        Ok(()) => Ok(()),
        Err(fault) => {
            let _ = connection.leave(gate, event_of_fault(fault));
            Err(fault)
        }
    }
}

/// [`run_pipe_within`] a thousand million reads.
pub fn run_pipe<G: AccessGate, R: Read, W: Write>(
    alloc: Global,
    gate: &mut G,
    first: u64,
    reader: &mut CallCounter<R>,
    writer: &mut CallCounter<W>,
) -> Result<(), PipeFault>
    requires reader { reader.old.failed < 2 ^ 64 - 1 }
    requires writer { writer.old.failed < 2 ^ 64 - 1 }
    ensures pipe { OnOk result (IsTranscript
        (flow_of R.remaining W.contents reader.old reader.new writer.old writer.new)
        (G.state gate.old) first (G.state gate.new)) }
    // Where the reader tells its bytes: the gate and the bytes written are the pipe's of all.
    ensures all { OnOk result (IsPipe
        (flow_of R.remaining W.contents reader.old reader.new writer.old writer.new)
        (G.state gate.old) first (G.state gate.new)) }
    // The first packets were taken and answered whole; at a failed read or an endless input, all.
    ensures fault { IfErr result (λ fault. IsAfterFault
        (flow_of R.remaining W.contents reader.old reader.new writer.old writer.new)
        (G.state gate.old) first (G.state gate.new) fault) }
    ensures unfailing { OnOk result (IsUnfailing
        reader.old.failed reader.new.failed writer.old.failed writer.new.failed) }
    ensures endless { IsErrOf result PipeFault.Endless
        → counted_on reader.old.calls 1000000000 ≤ reader.new.calls }
    ensures told { IfErr result (IsToldRightly
        reader.old.failed reader.new.failed writer.old.failed writer.new.failed
        (G.state gate.new)) }
{
    run_pipe_within(alloc, gate, first, reader, writer, READS)
}
