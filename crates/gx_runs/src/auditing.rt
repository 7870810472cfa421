//! The file of a run's audit: opened before the run, and put in its place behind it.

ghost use Rattle.std.specs.Prelude.{◌-◌, ◌^◌, ◌<◌};

use gx_audit::write_audit;
use gx_audit_bytes::{AuditVersion, RECORD_SIZE};
use gx_devices::{CallCounter, WriteFault, write_whole};
use gx_files::FileIdentity;
use gx_program::{
    Failure, Named, Resource, file_named, identity_of, longest_file, tell_apart, write_failure,
};
use gx_records::ShowsRecords;
use gx_server::{ErrorRecorder, ProgramFault};
use gx_units::OutOfMemory;
use std::fs::{File, OpenOptions, TryLockError};
use std::io::{Error, ErrorKind, Write};
use std::os::unix::fs::FileTypeExt;
use std::{fs, io};

/// What is told of a name beside the audit's that is not free for it.
const NOT_REGULAR: &str = "the name with .tmp behind it is not a regular file's";

/// What is told of an audit that the system lets no file be as long as.
const TOO_LONG: &str = "it would be longer than a file may be (ulimit -f)";

/// Where the audit of a run goes.
#[derive(Drop)]
pub struct AuditFile<'a> {
    path: &'a str,
    way: AuditWay,
}

/// How the audit comes there.
#[derive(Drop)]
enum AuditWay {
    /// It is written into what the name leads to: a device, or a file behind a symbolic link.
    Through(File),
    /// The same, for a named pipe: to open it waits for a reader.
    Pipe,
    /// It is written beside, and put in place when it is whole.
    Beside(Beside),
}

/// A file beside that of the audit, which takes its place at the end. Both are locked.
#[derive(Drop)]
struct Beside {
    name: String,
    file: File,
    /// What stands in its place until then, if something does.
    standing: Option<File>,
}

/// That the audit's file can't be written.
fn unwritten<'a>(path: &'a str, error: Error) -> Failure<'a> {
    Failure::unwritten(Resource::File(path), error)
}

/// Opens a file to be written, as it is.
fn open_to_write(rt: &HostRuntime, path: &str, create: bool) -> io::Result<File> {
    let mut options = OpenOptions::new();
    options.write(true).create(create);
    options.open(rt, path)
}

/// Locks the file for this program alone.
fn lock<'a>(path: &'a str, file: File) -> Result<File, Failure<'a>> {
    match file.try_lock() {
        Ok(()) => Ok(file),
        Err(TryLockError::WouldBlock) => Err(ProgramFault::AuditInUse.into()),
        Err(TryLockError::Error(error)) => Err(unwritten(path, error)),
    }
}

/// What stands in the audit's place, locked; `None` where nothing does.
fn claim<'a>(rt: &HostRuntime, path: &'a str) -> Result<Option<File>, Failure<'a>> {
    match open_to_write(rt, path, false) {
        Ok(file) => Ok(Some(lock(path, file)?)),
        Err(error) if error.kind() == ErrorKind::NotFound => Ok(None),
        Err(error) => Err(unwritten(path, error)),
    }
}

/// The name beside a file's.
fn name_beside(rt: &HostRuntime, path: &str) -> Result<String, OutOfMemory> {
    match format!(in rt.alloc(); "{path}.tmp") {
        Ok(name) => Ok(name),
        Err(_) => Err(OutOfMemory),
    }
}

/// Which file this is.
fn identity(file: &File) -> Option<FileIdentity> {
    match file.metadata() {
        Ok(found) => identity_of(&found),
        Err(_) => None,
    }
}

/// Whether there is a file of this name that is no regular one.
fn is_odd(rt: &HostRuntime, name: &str) -> bool {
    match fs::symlink_metadata(rt, name) {
        Ok(found) => !found.is_file(),
        Err(_) => false,
    }
}

/// The file of this name beside the audit's, locked. What is left there of a run that was cut off stays for now.
fn open_beside<'a>(
    rt: &HostRuntime,
    named: Named<'a>,
    path: &'a str,
    name: &str,
) -> Result<File, Failure<'a>> {
    if is_odd(rt, name) {
        return Err(unwritten(path, Error::new(ErrorKind::InvalidData, NOT_REGULAR)));
    }
    let file = match open_to_write(rt, name, true) {
        Ok(file) => file,
        Err(error) => return Err(unwritten(path, error)),
    };
    tell_apart(
        rt,
        Named {
            audit: Some(name),
            ..named
        },
    )?;
    let file = lock(path, file)?;
    if identity(&file) != file_named(rt, name) {
        return Err(ProgramFault::AuditInUse.into());
    }
    Ok(file)
}

/// The audit's file where a regular file stands or nothing does.
fn way_beside<'a>(
    rt: &HostRuntime,
    named: Named<'a>,
    path: &'a str,
) -> Result<AuditWay, Failure<'a>> {
    let standing = claim(rt, path)?;
    let name = name_beside(rt, path)?;
    let file = open_beside(rt, named, path, name.as_str())?;
    Ok(AuditWay::Beside(Beside {
        name,
        file,
        standing,
    }))
}

/// The audit's file where something else stands.
fn way_through<'a>(rt: &HostRuntime, path: &'a str) -> Result<AuditWay, Failure<'a>> {
    if let Ok(found) = fs::metadata(rt, path) {
        if found.file_type().is_fifo() {
            return Ok(AuditWay::Pipe);
        }
    }
    match open_to_write(rt, path, true) {
        Ok(file) if identity(&file).is_some() => Ok(AuditWay::Through(lock(path, file)?)),
        Ok(file) => Ok(AuditWay::Through(file)),
        Err(error) => Err(unwritten(path, error)),
    }
}

/// What stands in an audit's place.
trait Audited {
    /// How many bytes it has.
    fn length(&self) -> u64;

    /// Writes it.
    fn put<W: Write>(&self, writer: &mut CallCounter<W>) -> Result<(), WriteFault>
        requires { writer.old.failed < 2 ^ 64 - 1 };
}

/// The records of a gate, in this version.
#[derive(Drop)]
struct GateAudit<'g, G: ShowsRecords> {
    version: AuditVersion,
    gate: &'g G,
}

impl<G: ShowsRecords> Audited for GateAudit<'_, G> {
    fn length(&self) -> u64 {
        let header = u64::from(self.version.has_header());
        let records = self.gate.length().saturating_add(header);
        records.saturating_mul(RECORD_SIZE as u64)
    }

    fn put<W: Write>(&self, writer: &mut CallCounter<W>) -> Result<(), WriteFault> {
        Ok(write_audit(self.version, self.gate, writer)?)
    }
}

/// Why there is none.
#[derive(Drop)]
struct NoAudit<'t> {
    text: &'t [u8],
}

impl Audited for NoAudit<'_> {
    fn length(&self) -> u64 {
        self.text.len() as u64
    }

    fn put<W: Write>(&self, writer: &mut CallCounter<W>) -> Result<(), WriteFault> {
        Ok(write_whole(writer, self.text)?)
    }
}

/// Writes what is to stand in the audit's place to the device of this one.
fn write_to<'a, A: Audited, W: Write + Drop>(
    audit: &A,
    device: W,
    place: Resource<'a>,
) -> Result<(), Failure<'a>> {
    let mut writer = CallCounter::new(ErrorRecorder::new(device));
    match audit.put(&mut writer) {
        Ok(()) => Ok(()),
        Err(fault) => Err(Failure::of_writing(fault, place, writer.into_inner().cause)),
    }
}

/// Makes room for so many bytes in a file, where it is a regular one: what it has is cut off.
fn make_room<'a>(
    rt: &HostRuntime,
    path: &'a str,
    file: &File,
    length: u64,
) -> Result<(), Failure<'a>> {
    if identity(file).is_none() {
        return Ok(());
    }
    if length > longest_file(rt).unwrap_or(u64::MAX) {
        return Err(unwritten(path, Error::new(ErrorKind::InvalidData, TOO_LONG)));
    }
    match file.set_len(0) {
        Ok(()) => Ok(()),
        Err(error) => Err(unwritten(path, error)),
    }
}

/// Writes it into an open file, from its beginning.
fn write_through<'a, A: Audited>(
    rt: &HostRuntime,
    audit: &A,
    path: &'a str,
    file: &File,
) -> Result<(), Failure<'a>> {
    make_room(rt, path, file, audit.length())?;
    write_to(audit, file, Resource::File(path))
}

/// Writes it into a named pipe.
fn write_pipe<'a, A: Audited>(
    rt: &HostRuntime,
    audit: &A,
    path: &'a str,
) -> Result<(), Failure<'a>> {
    match open_to_write(rt, path, false) {
        Ok(file) => write_to(audit, file, Resource::File(path)),
        Err(error) => Err(unwritten(path, error)),
    }
}

impl Beside {
    /// Whether what stands in the audit's place is what stood there, or else is no one's.
    fn hold_place<'a>(&self, rt: &HostRuntime, path: &'a str) -> Result<Option<File>, Failure<'a>> {
        if let Some(file) = &self.standing {
            let held = identity(file);
            if held.is_some() && held == file_named(rt, path) {
                return Ok(None);
            }
        }
        claim(rt, path)
    }

    /// Gives the file the mode of what stands in its place.
    fn take_mode(&self) -> io::Result<()> {
        match &self.standing {
            Some(file) => self.file.set_permissions(file.metadata()?.permissions()),
            None => Ok(()),
        }
    }

    /// Puts the file in its place, which is held.
    fn move_there(&self, rt: &HostRuntime, path: &str) -> io::Result<()> {
        self.take_mode()?;
        self.file.sync_data()?;
        fs::rename(rt, self.name.as_str(), path)
    }

    /// Puts the file in its place.
    fn put<'a>(&self, rt: &HostRuntime, path: &'a str) -> Result<(), Failure<'a>> {
        let _held = self.hold_place(rt, path)?;
        match self.move_there(rt, path) {
            Ok(()) => Ok(()),
            Err(error) => Err(unwritten(path, error)),
        }
    }

    /// Writes it into the file, and puts that in its place.
    fn write<'a, A: Audited>(
        &self,
        rt: &HostRuntime,
        audit: &A,
        path: &'a str,
    ) -> Result<(), Failure<'a>> {
        write_through(rt, audit, path, &self.file)?;
        self.put(rt, path)
    }
}

/// Whether a file may be made where the system says so of its name: no file has an empty one.
fn is_new(path: &str, error: &Error) -> bool {
    error.kind() == ErrorKind::NotFound && !path.is_empty()
}

impl<'a> AuditFile<'a> {
    /// Opens the file that the audit is to go to, and leaves it as it is.
    fn open(
        rt: &HostRuntime,
        named: Named<'a>,
        path: &'a str,
    ) -> Result<AuditFile<'a>, Failure<'a>> {
        let way = match fs::symlink_metadata(rt, path) {
            Ok(found) if found.is_file() => way_beside(rt, named, path)?,
            Ok(_) => way_through(rt, path)?,
            Err(error) if is_new(path, &error) => way_beside(rt, named, path)?,
            Err(error) => return Err(unwritten(path, error)),
        };
        Ok(AuditFile { path, way })
    }

    /// Writes it there.
    fn write<A: Audited>(&self, rt: &HostRuntime, audit: &A) -> Result<(), Failure<'a>> {
        let path = self.path;
        match &self.way {
            AuditWay::Through(file) => write_through(rt, audit, path, file),
            AuditWay::Pipe => write_pipe(rt, audit, path),
            AuditWay::Beside(beside) => beside.write(rt, audit, path),
        }
    }

    /// Lets the file go where there is nothing to be written.
    fn leave(self, rt: &HostRuntime) {
        if let AuditWay::Beside(beside) = self.way {
            let _ = fs::remove_file(rt, beside.name.as_str());
        }
    }
}

/// Opens the audit's file, where an audit is wanted.
pub fn open_audit<'a>(
    rt: &HostRuntime,
    named: Named<'a>,
) -> Result<Option<AuditFile<'a>>, Failure<'a>> {
    match named.audit {
        Some(path) => Ok(Some(AuditFile::open(rt, named, path)?)),
        None => Ok(None),
    }
}

/// Closes a gate, and writes its audit in this version, where one is wanted.
pub fn close_audited<'a, G: ShowsRecords>(
    rt: &HostRuntime,
    version: AuditVersion,
    gate: G,
    audit: Option<AuditFile<'a>>,
) -> Result<(), Failure<'a>> {
    let kept = match audit {
        Some(file) => file.write(
            rt,
            &GateAudit {
                version,
                gate: &gate,
            },
        ),
        None => Ok(()),
    };
    gate.close();
    kept
}

/// Writes why there is no audit in its place, where one is wanted: its records would be more than were kept.
pub fn fail_audit<'a>(
    rt: &HostRuntime,
    why: &Failure<'a>,
    audit: Option<AuditFile<'a>>,
) -> Result<(), Failure<'a>> {
    let Some(file) = audit else {
        return Ok(());
    };
    let mut text = Vec::new(rt.alloc());
    if write_failure(&mut text, why).is_err() {
        return Err(OutOfMemory.into());
    }
    file.write(
        rt,
        &NoAudit {
            text: text.as_slice(),
        },
    )
}

/// Lets the audit's file go, where there was no run.
pub fn leave_audit<'a>(rt: &HostRuntime, audit: Option<AuditFile<'a>>) {
    if let Some(file) = audit {
        file.leave(rt);
    }
}
