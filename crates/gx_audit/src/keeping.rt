//! The audit of a run.

ghost use Rattle.std.specs.{Prelude.{◌≡◌, ◌^◌, ◌+◌, ◌<◌, ◌≤◌, ◌-◌, ◌++◌, length, OnErr, OnOk}, Io.KnownBytes.Appends};
ghost use Rattle.arrayvec.specs.ArrayVec.{array_vec_len};
ghost use Rattle.gx_audit_bytes.specs.{Audits.{all_bytes, whole_audit}, Headers.front_of, Records.record_bytes};
ghost use Rattle.gx_devices.specs.Devices.{IsFront};

use crate::day::header_of;
use arrayvec::ArrayVec;
use gx_audit_bytes::{AuditVersion, RECORD_SIZE, write_record_in};
use gx_devices::{CallCounter, WriteFailed, write_whole};
use gx_history::record::Record;
use gx_history::records::Records;
use gx_records::ShowsRecords;
use std::io::Write;

/// How many records are written at a time.
const PIECE: usize = 64;

/// The bytes of so many records: no memory is asked for.
type PieceBytes = ArrayVec<u8, 8_192>;

/// Writes the audit of the gate's records in this version: the policy's header, where it has one, and then each record as
/// its 128 bytes, one behind the other. Takes no memory. After a fault a front of that is written.
#[tactic(auto, using(crate::proofs::Audit_next::behind_front, crate::proofs::Audit_next::front_cut, crate::proofs::Audit_next::records_cut))]
pub fn write_audit<G: ShowsRecords, W: Write>(
    version: AuditVersion,
    gate: &G,
    writer: &mut CallCounter<W>,
) -> Result<(), WriteFailed>
    requires { writer.old.failed < 2 ^ 64 - 1 }
    ensures written { OnOk result (Appends
        (W.contents writer.old.device) (W.contents writer.new.device)
        (whole_audit version (G.state gate.now).policy (G.state gate.now).records)) }
    ensures front { OnErr result (IsFront
        (W.contents writer.old.device) (W.contents writer.new.device)
        (whole_audit version (G.state gate.now).policy (G.state gate.now).records)) }
    ensures kept { OnOk result (writer.new.failed ≡ writer.old.failed) }
    ensures told { OnErr result (writer.old.failed < writer.new.failed) }
{
    write_front(version, gate, writer)?;
    write_records(version, &gate.shown_records(), writer)
}

/// Writes what stands in front of the records.
#[tactic(auto, using(crate::proofs::Audit_next::no_front_written, crate::proofs::Header_call::front_is))]
fn write_front<G: ShowsRecords, W: Write>(
    version: AuditVersion,
    gate: &G,
    writer: &mut CallCounter<W>,
) -> Result<(), WriteFailed>
    requires { writer.old.failed < 2 ^ 64 - 1 }
    ensures written { OnOk result (Appends
        (W.contents writer.old.device) (W.contents writer.new.device)
        (front_of version (G.state gate.now).policy)) }
    ensures front { OnErr result (IsFront
        (W.contents writer.old.device) (W.contents writer.new.device)
        (front_of version (G.state gate.now).policy)) }
    ensures kept { OnOk result (writer.new.failed ≡ writer.old.failed) }
    ensures told { OnErr result (writer.old.failed < writer.new.failed) }
{
    if !version.has_header() {
        return Ok(());
    }
    write_whole(writer, &header_of(version, gate))
}

/// Writes the records.
fn write_records<W: Write>(
    version: AuditVersion,
    records: &Records<'_>,
    writer: &mut CallCounter<W>,
) -> Result<(), WriteFailed>
    requires { writer.old.failed < 2 ^ 64 - 1 }
    ensures written { OnOk result (Appends
        (W.contents writer.old.device) (W.contents writer.new.device)
        (all_bytes version records.now)) }
    ensures front { OnErr result (IsFront
        (W.contents writer.old.device) (W.contents writer.new.device)
        (all_bytes version records.now)) }
    ensures kept { OnOk result (writer.new.failed ≡ writer.old.failed) }
    ensures told { OnErr result (writer.old.failed < writer.new.failed) }
{
    let count = records.len();
    let mut bytes = PieceBytes::new();
    let mut done = 0;
    while done < count {
        let size = PIECE.min(count - done);
        write_piece(version, &records.part(done, size), &mut bytes, writer)?;
        done += size;
    }
    Ok(())
}

/// Writes a few records, through this room for their bytes.
fn write_piece<W: Write>(
    version: AuditVersion,
    piece: &Records<'_>,
    bytes: &mut PieceBytes,
    writer: &mut CallCounter<W>,
) -> Result<(), WriteFailed>
    requires few { length piece.now ≤ 64 }
    requires writer { writer.old.failed < 2 ^ 64 - 1 }
    ensures written { OnOk result (Appends
        (W.contents writer.old.device) (W.contents writer.new.device)
        (all_bytes version piece.now)) }
    ensures front { OnErr result (IsFront
        (W.contents writer.old.device) (W.contents writer.new.device)
        (all_bytes version piece.now)) }
    ensures kept { OnOk result (writer.new.failed ≡ writer.old.failed) }
    ensures told { OnErr result (writer.old.failed < writer.new.failed) }
{
    put_piece(version, bytes, piece);
    write_whole(writer, bytes.as_slice())
}

/// Puts the bytes of a few records into the room, in place of what it has.
#[inline(always)]
fn put_piece(version: AuditVersion, bytes: &mut PieceBytes, piece: &Records<'_>)
    requires { length piece.now ≤ 64 }
    ensures { bytes.new.items ≡ all_bytes version piece.now }
{
    bytes.clear();
    for place in 0..piece.len() {
        put(version, bytes, &piece.at(place));
    }
}

/// Puts the record's bytes last.
fn put(version: AuditVersion, bytes: &mut PieceBytes, given: &Record)
    requires { array_vec_len bytes.old + 128 ≤ 8192 }
    ensures bytes { bytes.new.items ≡ bytes.old.items ++ record_bytes version given.now }
    ensures length { array_vec_len bytes.new ≡ array_vec_len bytes.old + 128 }
{
    let shown: [u8; RECORD_SIZE] = write_record_in(version, given);
    match bytes.try_extend_from_slice(&shown) {
        Ok(()) => {}
        Err(_) => unreachable!(),
    }
}
