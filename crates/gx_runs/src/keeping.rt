//! The journal of a server's day, as a file.

ghost use Rattle.std.specs.Prelude.{◌-◌, ◌^◌, ◌<◌};

use gx_access_gate::AccessGate;
use gx_audit::{Resumed, resume};
use gx_audit_bytes::{AuditVersion, RECORD_SIZE, write_header_in};
use gx_command_line::JournalFile;
use gx_devices::{CallCounter, write_whole};
use gx_files::{Measure, Measured, Watched};
use gx_log::Log;
use gx_policy::Policy;
use gx_program::{
    Content, Failure, Resource, expected_of, file_named, go_to, identity_of, longest_file,
    look_before, read_file,
};
use gx_server::{ErrorRecorder, ProgramFault};
use gx_units::OutOfMemory;
use std::fs::{File, OpenOptions, TryLockError};
use std::io::{Seek, SeekFrom, Write};
use std::sync::Wait;
use std::{fs, io};

/// So many bytes at the end of a journal may not be on the disk, where each write of it is forced there: as many as one write
/// has, 4,096 records of 128 bytes.
const TAIL: u64 = 524_288;

/// The file of a journal, and the name that it was opened by.
#[derive(Drop)]
struct NamedFile {
    rt: HostRuntime,
    path: String,
    file: File,
}

impl Measured for NamedFile {
    ghost told = { λ _ _. Unit {0} };

    fn measure(&self) -> io::Result<Measure> {
        let found = self.file.metadata()?;
        Ok(Measure {
            length: found.len(),
            is_named: identity_of(&found) == file_named(&self.rt, self.path.as_str()),
        })
    }
}

impl Write for NamedFile {
    fn write(&mut self, buf: &[u8]) -> io::Result<usize> {
        self.file.write(buf)
    }

    fn flush(&mut self) -> io::Result<()> {
        self.file.flush()
    }
}

/// The file of a journal, which no other program may move, or make longer or shorter, and which becomes no longer than the system
/// lets a file be. A flush forces it to the disk, where that was asked for.
#[derive(Drop)]
pub struct JournalDevice {
    watched: Watched<NamedFile>,
    is_synced: bool,
}

impl Write for JournalDevice {
    fn write(&mut self, buf: &[u8]) -> io::Result<usize> {
        self.watched.write(buf)
    }

    fn flush(&mut self) -> io::Result<()> {
        if self.is_synced {
            self.watched.file.file.sync_data()
        } else {
            Ok(())
        }
    }
}

/// A day that goes on. Its gate is closed, and never dropped.
pub struct Day<G> {
    /// The gate of the records in the journal.
    pub gate: G,
    /// The version of the journal.
    pub version: AuditVersion,
    /// How many bytes of another one, which was cut off, stood behind them.
    pub cut: u64,
    /// The journal, behind its last whole record.
    pub device: ErrorRecorder<JournalDevice>,
}

/// Opens the file of a journal, to be read and written, and leaves it as it is. Where there is none it is made, or refused.
pub fn open_file<'a>(rt: &HostRuntime, path: &'a str, is_made: bool) -> Result<File, Failure<'a>> {
    look_before(rt, path, Content::Records)?;
    let mut options = OpenOptions::new();
    options.read(true).append(true).create(is_made);
    match options.open(rt, path) {
        Ok(file) => Ok(file),
        Err(error) => Err(Failure::unwritten(Resource::File(path), error)),
    }
}

/// Whether the file of a journal is this program's alone, from now on: no other one keeps it.
pub(crate) fn is_ours<'a>(path: &'a str, file: &File) -> Result<bool, Failure<'a>> {
    match file.try_lock() {
        Ok(()) => Ok(true),
        Err(TryLockError::WouldBlock) => Ok(false),
        Err(TryLockError::Error(error)) => Err(Failure::unwritten(Resource::File(path), error)),
    }
}

/// Opens the file of a journal, for this program alone, and leaves it as it is.
pub fn open_journal<'a>(rt: &HostRuntime, path: &'a str) -> Result<File, Failure<'a>> {
    let file = open_file(rt, path, true)?;
    if is_ours(path, &file)? {
        Ok(file)
    } else {
        Err(ProgramFault::JournalInUse.into())
    }
}

/// A day as its journal's file holds it. Its gate is closed, and never dropped.
pub(crate) struct Found<G> {
    /// The gate of its records, and how many bytes of the file they are.
    pub resumed: Resumed<G>,
    /// The version of the journal: that of the file where a day was begun in it, else the one that is asked for.
    pub version: AuditVersion,
    /// How many bytes the file has.
    pub length: u64,
}

/// The day that the file holds.
fn read_day<'a, G: AccessGate>(
    rt: &HostRuntime,
    policy: &Policy,
    path: &'a str,
    file: &File,
    asked: AuditVersion,
) -> Result<Found<G>, Failure<'a>> {
    let bytes = read_file(rt, path, Content::Records, file, expected_of(file))?;
    match resume(rt.alloc(), policy, bytes.as_slice()) {
        Ok(resumed) => Ok(Found {
            version: if resumed.kept > 0 {
                AuditVersion::of(bytes.as_slice())
            } else {
                asked
            },
            resumed,
            length: bytes.len() as u64,
        }),
        Err(fault) => Err(ProgramFault::from(fault).into()),
    }
}

/// Forces the name of a file to the disk: the folder that it stands in.
fn sync_folder(rt: &HostRuntime, path: &str) -> io::Result<()> {
    let whole = fs::canonicalize(rt, path)?;
    match whole.parent() {
        Some(folder) => File::open(rt, folder)?.sync_all(),
        None => Ok(()),
    }
}

/// Cuts off what does not stand, and writes the header in this version where no day was begun.
fn prepare<'a>(
    policy: &Policy,
    version: AuditVersion,
    path: &'a str,
    kept: u64,
    device: &mut CallCounter<ErrorRecorder<JournalDevice>>,
) -> Result<(), Failure<'a>>
    requires { device.old.failed < 2 ^ 64 - 1 }
{
    if let Err(error) = device.device().device.watched.file.file.set_len(kept) {
        return Err(Failure::unwritten(Resource::File(path), error));
    }
    if kept > 0 {
        return Ok(());
    }
    match write_whole(device, &write_header_in(version, policy)) {
        Ok(()) => Ok(()),
        Err(failed) => Err(Failure::of_writing(
            failed.into(),
            Resource::File(path),
            device.device().cause,
        )),
    }
}

/// The last bytes of a file of so many.
fn tail_of<'a>(
    rt: &HostRuntime,
    path: &'a str,
    start: u64,
    length: u64,
) -> Result<Vec<u8>, Failure<'a>> {
    match File::open(rt, path) {
        Ok(mut file) => {
            go_to(path, &mut file, start)?;
            let count = length.saturating_sub(start) as usize;
            read_file(rt, path, Content::Records, file, count)
        }
        Err(error) => Err(Failure::unread(path, error)),
    }
}

/// Writes these bytes at this place of a file, over what is there, and forces them to the disk.
fn write_at(rt: &HostRuntime, path: &str, start: u64, bytes: &[u8]) -> io::Result<()> {
    let mut options = OpenOptions::new();
    options.write(true);
    let mut file = options.open(rt, path)?;
    file.seek(SeekFrom::Start(start))?;
    file.write_all(bytes)?;
    file.sync_data()
}

/// Writes the end of a journal of so many bytes once more, in its place: what an earlier server wrote and could not force to the
/// disk may be read as if it were there, since Linux takes it for written once that has failed.
fn write_tail<'a>(rt: &HostRuntime, path: &'a str, length: u64) -> Result<(), Failure<'a>> {
    let start = length.saturating_sub(TAIL);
    let bytes = tail_of(rt, path, start, length)?;
    match write_at(rt, path, start, bytes.as_slice()) {
        Ok(()) => Ok(()),
        Err(error) => Err(Failure::unwritten(Resource::File(path), error)),
    }
}

/// Prepares the journal, and forces what it has and its name to the disk, where it is forced there.
fn prepare_named<'a>(
    rt: &HostRuntime,
    policy: &Policy,
    version: AuditVersion,
    journal: JournalFile<'a>,
    kept: u64,
    device: &mut CallCounter<ErrorRecorder<JournalDevice>>,
) -> Result<(), Failure<'a>>
    requires { device.old.failed < 2 ^ 64 - 1 }
{
    prepare(policy, version, journal.path, kept, device)?;
    if !journal.is_synced {
        return Ok(());
    }
    write_tail(rt, journal.path, kept)?;
    match sync_folder(rt, journal.path) {
        Ok(()) => Ok(()),
        Err(error) => Err(Failure::unwritten(Resource::File(journal.path), error)),
    }
}

/// A journal's device: its open file, of which so many bytes stand, prepared to go on behind them.
fn open_device<'a>(
    rt: &HostRuntime,
    policy: &Policy,
    version: AuditVersion,
    journal: JournalFile<'a>,
    file: File,
    kept: u64,
) -> Result<ErrorRecorder<JournalDevice>, Failure<'a>> {
    let Ok(path) = String::from_str(rt.alloc(), journal.path) else {
        return Err(OutOfMemory.into());
    };
    let watched = Watched {
        file: NamedFile {
            rt: *rt,
            path,
            file,
        },
        length: kept,
        most: longest_file(rt).unwrap_or(u64::MAX),
    };
    let is_synced = journal.is_synced;
    let mut device = CallCounter::new(ErrorRecorder::new(JournalDevice { watched, is_synced }));
    prepare_named(rt, policy, version, journal, kept, &mut device)?;
    Ok(device.into_inner())
}

/// The day of the journal in its open file, which is this program's from now on. A day that is begun there is kept in the
/// version that is asked for.
pub fn take_up<'a, G: AccessGate>(
    rt: &HostRuntime,
    policy: &Policy,
    journal: JournalFile<'a>,
    file: File,
    asked: AuditVersion,
) -> Result<Day<G>, Failure<'a>> {
    let found = read_day(rt, policy, journal.path, &file, asked)?;
    go_on_from(rt, policy, journal, file, found)
}

/// The day that was found in the journal's file, which is this program's: what does not stand there is cut off.
pub(crate) fn go_on_from<'a, G: AccessGate>(
    rt: &HostRuntime,
    policy: &Policy,
    journal: JournalFile<'a>,
    file: File,
    found: Found<G>,
) -> Result<Day<G>, Failure<'a>> {
    let Found {
        resumed,
        version,
        length,
    } = found;
    let Resumed { gate, kept } = resumed;
    match open_device(rt, policy, version, journal, file, kept) {
        Ok(device) => Ok(Day {
            cut: length.saturating_sub(kept),
            gate,
            version,
            device,
        }),
        Err(ended) => {
            gate.close();
            Err(ended)
        }
    }
}

/// Whether a journal is as it was left: another program may have changed it behind the last write.
pub fn look_back<'a>(path: &'a str, device: &JournalDevice) -> Result<(), Failure<'a>> {
    match device.watched.check() {
        Ok(()) => Ok(()),
        Err(error) => Err(Failure::unwritten(Resource::File(path), error)),
    }
}

/// Tells how many records a journal has room for, where the system lets no file be as long as a day may want.
pub fn tell_room<R: Wait>(rt: &R, host: &HostRuntime, log: &Log) {
    let Some(most) = longest_file(host) else {
        return;
    };
    let records = (most / RECORD_SIZE as u64).saturating_sub(1);
    let made = format!(in host.alloc();
        "journal: a file may have {most} bytes (ulimit -f), so this one has room for {records} records\n"
    );
    match made {
        Ok(line) => log.tell(rt, line.as_bytes()),
        Err(_) => log.leave_out(rt),
    }
}

/// Tells that a part of a record was cut off, if so.
pub fn tell_cut<R: Wait>(rt: &R, host: &HostRuntime, log: &Log, count: u64, cut: u64) {
    if cut == 0 {
        return;
    }
    let made = format!(in host.alloc();
        "journal: {count} records, and {cut} bytes of one that was cut off\n"
    );
    match made {
        Ok(line) => log.tell(rt, line.as_bytes()),
        Err(_) => log.leave_out(rt),
    }
}
