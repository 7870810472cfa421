//! A device that records are put on.

ghost use Rattle.gx_devices.specs.Devices.{IsFront};
ghost use Rattle.std.specs.{Prelude.{◌≡◌, ◌+◌, ◌*◌, ◌-◌, ◌^◌, ◌<◌, ◌≤◌, length, vec_capacity, None, IsTrue, IsFalse, OnErr, OnOk}, Io.KnownBytes.Appends};
ghost use Rattle.gx_journal.specs.Journals.{is_broken, journal_bytes, most_at_once};

use gx_audit_bytes::{AuditVersion, put_record_bytes};
use gx_devices::{CallCounter, WriteFailed, write_whole};
use gx_history::record::Record;
use std::io::Write;
use std::marker::Model;

/// A device that the day's records are put on, each as its 128 bytes in an audit of its version. Behind its first fault
/// nothing is put on it any more. Contracts see what the device holds, the version, how many records are on it, how many of
/// its calls have failed, and the fault. It takes no memory: it has a fault only where a call of the device has failed.
pub struct JournalWriter<W: Write> {
    writer: CallCounter<W>,
    version: AuditVersion,
    done: u64,
    fault: Option<WriteFailed>,
    /// Room for the bytes of as many records as are put at once.
    bytes: Vec<u8>,
}

impl<W: Write> Model for JournalWriter<W> {
    ghost use Rattle.std.specs.Prelude.{◌≡◌, ◌*◌, ◌<◌, ◌≤◌, is_none, is_some, vec_capacity, IsTrue};
    ghost use Rattle.gx_journal.specs.Journals.{most_at_once, JournalWriterData};

    ghost Value = { JournalWriterData };

    ghost view = { λ t. record {
      contents = W.contents t.writer.device;
      version = t.version;
      done = t.done;
      failed = t.writer.failed;
      fault = t.fault;
    } };

    ghost invariant = { λ t. (IsTrue (is_none t.fault) → t.writer.failed ≡ 0)
        × (IsTrue (is_some t.fault) → 0 < t.writer.failed)
        × (128 * most_at_once ≤ vec_capacity t.bytes) };
}

/// Writes the records' bytes, and flushes the writer; where one fails, a front of them. They are made in this room.
fn put_on<W: Write>(
    version: AuditVersion,
    writer: &mut CallCounter<W>,
    records: &[Record],
    room: &mut Vec<u8>,
) -> Result<(), WriteFailed>
    requires counts { writer.old.failed < 2 ^ 64 - 1 }
    requires room { 128 * length records.now ≤ vec_capacity room.old }
    ensures whole { OnOk result (Appends
        (W.contents writer.old.device) (W.contents writer.new.device)
        (journal_bytes version records.now)) }
    ensures front { OnErr result (IsFront
        (W.contents writer.old.device) (W.contents writer.new.device)
        (journal_bytes version records.now)) }
    ensures kept { OnOk result (writer.new.failed ≡ writer.old.failed) }
    ensures told { OnErr result (writer.old.failed < writer.new.failed) }
    ensures room { vec_capacity room.old ≤ vec_capacity room.new }
{
    room.clear();
    put_record_bytes(version, room, records);
    write_whole(writer, room.as_slice())
}

impl<W: Write> JournalWriter<W> {
    /// A device with so many of the day's records, of this version, and room for the bytes of those that are put at once.
    pub(crate) fn new(
        version: AuditVersion,
        done: u64,
        device: W,
        bytes: Vec<u8>,
    ) -> JournalWriter<W>
        requires room { 128 * most_at_once ≤ vec_capacity bytes }
        ensures contents { result.contents ≡ W.contents device }
        ensures version { result.version ≡ version }
        ensures done { result.done ≡ done }
        ensures failed { result.failed ≡ 0 }
        ensures fault { result.fault ≡ None }
    {
        JournalWriter {
            writer: CallCounter::new(device),
            version,
            done,
            fault: None,
            bytes,
        }
    }

    /// How many records are on it.
    pub fn done(&self) -> u64
        ensures { result ≡ self.now.done }
    {
        self.done
    }

    /// Whether nothing is put on it any more: a call of the device has failed.
    pub fn is_broken(&self) -> bool
        ensures broken { result ≡ is_broken self.now }
        ensures failed { IsTrue result → 0 < self.now.failed }
    {
        self.fault.is_some()
    }

    /// Puts the records on it, in one call of the device if that takes them. Answers whether it did: where it did not, a call of
    /// the device has failed.
    pub fn put(&mut self, records: &[Record]) -> bool
        requires room { self.old.done + length records.now < 2 ^ 64 }
        requires few { length records.now ≤ most_at_once }
        ensures answer { IsTrue result → self.new.fault ≡ None }
        ensures whole { IsTrue result → Appends
            self.old.contents self.new.contents (journal_bytes self.old.version records.now) }
        ensures done { IsTrue result → self.new.done ≡ self.old.done + length records.now }
        ensures broken { IsFalse result → IsTrue (is_broken self.new) }
        ensures front { IsFalse result → IsFront
            self.old.contents self.new.contents (journal_bytes self.old.version records.now) }
        ensures stays { IsFalse result → self.new.done ≡ self.old.done }
        ensures failed { IsFalse result → IsFalse (is_broken self.old)
            → self.old.failed < self.new.failed }
        ensures version { self.new.version ≡ self.old.version }
        ensures refused { IsTrue (is_broken self.old) → IsFalse result }
        ensures over { IsTrue (is_broken self.old) → self.new ≡ self.old }
    {
        if self.fault.is_some() {
            return false;
        }
        match put_on(self.version, &mut self.writer, records, &mut self.bytes) {
            Ok(()) => {
                self.done += records.len() as u64;
                true
            }
            Err(failed) => {
                self.fault = Some(failed);
                false
            }
        }
    }

    /// The device, and why nothing was put on it any more, if so.
    pub fn into_parts(self) -> (W, Option<WriteFailed>)
        ensures contents { W.contents result.0 ≡ self.contents }
        ensures fault { result.1 ≡ self.fault }
    {
        let JournalWriter {
            writer,
            version: _,
            done: _,
            fault,
            bytes: _,
        } = self;
        (writer.into_inner(), fault)
    }
}
