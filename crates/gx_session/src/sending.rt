//! Sending reports, and packets of the session's own.

ghost use Rattle.gx_devices.specs.{Blaming.IsBlamed, Devices.IsFront};
ghost use Rattle.std.specs.{Prelude.{◌≡◌, ◌-◌, ◌^◌, ◌<◌, [], ◌++◌, IfErr, OnOk, OnErr}, Io.KnownBytes.Appends};
ghost use Rattle.gx_session.specs.{Sending.{control_bytes, report_packet, reports_text}};

use crate::event::{Control, Sign};
use gx_access_gate::{LoginAnswer, Pulled};
use gx_devices::{CallCounter, WriteFault, write_flushing, write_whole};
use gx_history::report::Report;
use gx_ouch::MESSAGE_ROOM;
use gx_soup::{ServerPacket, append_sequenced, encode};
use gx_units::OutOfMemory;
use std::alloc::Global;
use std::io::Write;

/// Room for nearly each report in its packet.
const PACKET_ROOM: usize = 72;

/// Puts a report in a Sequenced Data packet at the end of the text.
fn append_report(text: &mut Vec<u8>, report: &Report) -> Result<(), OutOfMemory>
    ensures { OnOk result (text.new.items ≡ text.old.items ++ report_packet report.now) }
{
    let mut room = [0u8; MESSAGE_ROOM];
    let length = report.write(&mut room);
    append_sequenced(text, &room[..length])
}

/// Makes the text one Sequenced Data packet for each of the reports, in their order. Its room is kept.
fn put_reports(text: &mut Vec<u8>, reports: &[Report]) -> Result<(), OutOfMemory>
    ensures { OnOk result (text.new.items ≡ reports_text reports.now) }
{
    text.clear();
    text.reserve(reports.len().saturating_mul(PACKET_ROOM))?;
    for report in reports {
        append_report(text, report)?;
    }
    Ok(())
}

/// Sends the reports of a pull: one Sequenced Data packet each, in their order, and nothing else.
/// After a fault a front of these packets is written; nothing, where a growth was refused.
pub fn send_pulled<W: Write>(
    alloc: Global,
    pulled: &Pulled,
    writer: &mut CallCounter<W>,
) -> Result<(), WriteFault>
    requires { writer.old.failed < 2 ^ 64 - 1 }
    ensures sent { OnOk result (Appends
        (W.contents writer.old.device) (W.contents writer.new.device)
        (reports_text pulled.now.reports)) }
    ensures front { OnErr result (IsFront
        (W.contents writer.old.device) (W.contents writer.new.device)
        (reports_text pulled.now.reports)) }
    ensures nothing { IfErr result (λ fault. fault ≡ WriteFault.OutOfMemory → Appends
        (W.contents writer.old.device) (W.contents writer.new.device) []) }
    ensures kept { OnOk result (writer.new.failed ≡ writer.old.failed) }
    ensures told { IfErr result (IsBlamed writer.old.failed writer.new.failed) }
{
    let mut text = Vec::new(alloc);
    send_reports(&mut text, pulled.reports.as_slice(), writer, true)
}

/// Sends reports as `send_pulled` does, and puts their packets together in this text, whose room is kept for the next. The
/// writer is flushed behind them where that is asked for, though there may be none.
pub fn send_reports<W: Write>(
    text: &mut Vec<u8>,
    reports: &[Report],
    writer: &mut CallCounter<W>,
    flushes: bool,
) -> Result<(), WriteFault>
    requires { writer.old.failed < 2 ^ 64 - 1 }
    ensures sent { OnOk result (Appends
        (W.contents writer.old.device) (W.contents writer.new.device)
        (reports_text reports.now)) }
    ensures front { OnErr result (IsFront
        (W.contents writer.old.device) (W.contents writer.new.device)
        (reports_text reports.now)) }
    ensures nothing { IfErr result (λ fault. fault ≡ WriteFault.OutOfMemory → Appends
        (W.contents writer.old.device) (W.contents writer.new.device) []) }
    ensures kept { OnOk result (writer.new.failed ≡ writer.old.failed) }
    ensures told { IfErr result (IsBlamed writer.old.failed writer.new.failed) }
{
    put_reports(text, reports)?;
    write_flushing(writer, text.as_slice(), flushes)?;
    Ok(())
}

/// Sends a packet of the session's own, and nothing else. After a fault a front of it is written;
/// nothing, where a growth was refused.
pub fn send_control<W: Write>(
    alloc: Global,
    control: Control,
    writer: &mut CallCounter<W>,
) -> Result<(), WriteFault>
    requires { writer.old.failed < 2 ^ 64 - 1 }
    ensures sent { OnOk result (Appends
        (W.contents writer.old.device) (W.contents writer.new.device) (control_bytes control)) }
    ensures front { OnErr result (IsFront
        (W.contents writer.old.device) (W.contents writer.new.device) (control_bytes control)) }
    ensures nothing { IfErr result (λ fault. fault ≡ WriteFault.OutOfMemory → Appends
        (W.contents writer.old.device) (W.contents writer.new.device) []) }
    ensures kept { OnOk result (writer.new.failed ≡ writer.old.failed) }
    ensures told { IfErr result (IsBlamed writer.old.failed writer.new.failed) }
{
    let packet = match control {
        Control::Answer(LoginAnswer::Accepted { session, next }) => {
            ServerPacket::Accepted(session, next)
        }
        Control::Answer(LoginAnswer::Rejected(reason)) => ServerPacket::Rejected(reason),
        Control::Sign(Sign::Heartbeat) => ServerPacket::Heartbeat,
        Control::Sign(Sign::EndOfSession) => ServerPacket::EndOfSession,
    };
    let bytes = encode(alloc, &packet)?;
    write_whole(writer, bytes.as_slice())?;
    Ok(())
}
