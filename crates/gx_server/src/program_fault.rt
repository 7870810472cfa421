//! Why the program gave up, and how that is told.

ghost use Rattle.std.specs.Prelude.{◌≡◌, ◌≢◌, ◌+◌, ◌≤◌, ◌++◌, length, decimal, if◌then◌else◌};
ghost use Rattle.arrayvec.specs.ArrayVec.{array_vec_len};
ghost use Rattle.gx_policyvalues.specs.Field.{is_memory};
ghost use Rattle.gx_server.specs.declared.program_fault.ProgramFault.TheVariants as faults;
ghost use Rattle.gx_connection.specs.Faults.{fault_words};
ghost use Rattle.gx_server.specs.Telling.{out_of_memory, script_words, policy_words, gate_line, fault_line, script_status, status_of, journal_fault, journal_status, journal_words, script_device, device_of, shared_words};

use arrayvec::ArrayVec;
use gx_audit::AuditFault;
use gx_connection::PipeFault;
use gx_files::SharedFile;
use gx_policyvalues::{FaultKind, PolicyFault};
use gx_script_run::{Explained, ScriptFault};
use gx_units::OutOfMemory;
use itoa::Buffer;
use std::io::ErrorKind;

/// The line that tells a fault: no memory is asked for.
pub type FaultLine = ArrayVec<u8, 64>;

/// A device of a run.
#[derive(Clone, Copy, PartialEq, Eq)]
pub enum Device {
    /// What a connection or a script is read from.
    Reader,
    /// What its answers are written to.
    Writer,
}

/// Why the program gave up.
#[derive(Drop)]
pub enum ProgramFault {
    /// A connection was given up, or it failed so before there was one.
    Pipe(PipeFault),
    /// A script ended early.
    Script(Explained),
    /// A file can't be read, is no regular one, or is longer than it may be.
    Unread,
    /// The policy file has a fault.
    Policy(PolicyFault),
    /// The port can't be listened on, or no connection to it could be accepted.
    ListenFailed,
    /// What the journal's file holds is no journal of a day under the policy.
    Journal(AuditFault),
    /// Another program keeps a journal in the file.
    JournalInUse,
    /// Another program is to write its audit into the file, or has locked it.
    AuditInUse,
    /// Two of the files that the arguments name are one.
    OneFile(SharedFile),
    /// The journal's day has no line left for a connection.
    NoLines,
}

impl From<PipeFault> for ProgramFault {
    ghost from_gives = { λ fault e. e ≡ faults.Pipe fault };

    fn from(fault: PipeFault) -> ProgramFault {
        ProgramFault::Pipe(fault)
    }
}

impl From<Explained> for ProgramFault {
    ghost from_gives = { λ explained e. e ≡ faults.Script explained };

    fn from(explained: Explained) -> ProgramFault {
        ProgramFault::Script(explained)
    }
}

impl From<OutOfMemory> for ProgramFault {
    ghost from_gives = { λ _ e. e ≡ out_of_memory };

    fn from(_refused: OutOfMemory) -> ProgramFault {
        ProgramFault::Pipe(PipeFault::OutOfMemory)
    }
}

impl From<PolicyFault> for ProgramFault {
    ghost from_gives = { λ fault e. e
        ≡ (if is_memory fault.kind then out_of_memory else faults.Policy fault) };

    fn from(fault: PolicyFault) -> ProgramFault {
        if fault.kind.is_memory() {
            return ProgramFault::Pipe(PipeFault::OutOfMemory);
        }
        ProgramFault::Policy(fault)
    }
}

impl From<AuditFault> for ProgramFault {
    ghost from_gives = { λ fault e. e ≡ journal_fault fault };

    fn from(fault: AuditFault) -> ProgramFault {
        match fault {
            AuditFault::OutOfMemory => ProgramFault::Pipe(PipeFault::OutOfMemory),
            fault => ProgramFault::Journal(fault),
        }
    }
}

impl ProgramFault {
    /// Why a file can't be read, where the system answers with an error of this kind.
    pub fn unread(kind: ErrorKind) -> ProgramFault
        ensures memory { kind ≡ ErrorKind.OutOfMemory → result ≡ out_of_memory }
        ensures unread { kind ≢ ErrorKind.OutOfMemory → result ≡ faults.Unread }
    {
        match kind {
            ErrorKind::OutOfMemory => ProgramFault::Pipe(PipeFault::OutOfMemory),
            _ => ProgramFault::Unread,
        }
    }

    /// The exit status: 2 where two arguments name one file, 3 for a fault of the policy file, 4 for a bad line of a
    /// script or for what is no journal, else 1.
    pub fn status(&self) -> u8
        ensures { result ≡ status_of self.now }
    {
        match self {
            ProgramFault::Pipe(_) | ProgramFault::Unread | ProgramFault::ListenFailed => 1,
            ProgramFault::JournalInUse | ProgramFault::AuditInUse | ProgramFault::NoLines => 1,
            ProgramFault::OneFile(_) => 2,
            ProgramFault::Journal(fault) => journal_status(*fault),
            ProgramFault::Script(explained) => script_status(explained.fault),
            ProgramFault::Policy(fault) => { if fault.kind.is_memory() { 1 } else { 3 } }
        }
    }

    /// The device for whose failing a run was given up, if it was for one's.
    pub fn failed_device(&self) -> Option<Device>
        ensures { result ≡ device_of self.now }
    {
        match self {
            ProgramFault::Pipe(PipeFault::ReadFailed) => Some(Device::Reader),
            ProgramFault::Pipe(PipeFault::WriteFailed) => Some(Device::Writer),
            ProgramFault::Script(explained) => script_device(explained.fault),
            _ => None,
        }
    }

    /// The line on standard error, with its line end.
    pub fn line(&self) -> FaultLine
        ensures { result.items ≡ fault_line self.now }
    {
        match self {
            ProgramFault::Pipe(fault) => line_of(pipe_words(*fault)),
            ProgramFault::Script(explained) => script_line(explained.fault),
            ProgramFault::Unread => line_of(b"read failed"),
            ProgramFault::Policy(fault) => policy_line(fault.kind),
            ProgramFault::ListenFailed => line_of(b"listen failed"),
            ProgramFault::Journal(fault) => journal_line(*fault),
            ProgramFault::JournalInUse => line_of(b"journal in use"),
            ProgramFault::AuditInUse => line_of(b"audit in use"),
            ProgramFault::OneFile(pair) => line_of(shared_words(*pair)),
            ProgramFault::NoLines => line_of(b"no lines left"),
        }
    }
}

fn script_status(fault: ScriptFault) -> u8
    ensures { result ≡ script_status fault }
{
    match fault {
        ScriptFault::BadLine(_) => 4,
        _ => 1,
    }
}

fn script_device(fault: ScriptFault) -> Option<Device>
    ensures { result ≡ script_device fault }
{
    match fault {
        ScriptFault::ReadFailed => Some(Device::Reader),
        ScriptFault::WriteFailed => Some(Device::Writer),
        _ => None,
    }
}

/// What is told of a connection's fault, as short as a line has room for.
fn pipe_words(fault: PipeFault) -> &'static [u8]
    ensures words { result.now ≡ fault_words fault }
    ensures short { length result.now ≤ 20 }
{
    fault.words().as_bytes()
}

fn script_line(fault: ScriptFault) -> FaultLine
    ensures { result.items ≡ gate_line (script_words fault) }
{
    match fault {
        ScriptFault::BadLine(number) => bad_line(number),
        ScriptFault::ReadFailed => line_of(b"read failed"),
        ScriptFault::WriteFailed => line_of(b"write failed"),
        ScriptFault::OutOfMemory => line_of(b"out of memory"),
        ScriptFault::Endless => line_of(b"endless input"),
    }
}

fn bad_line(number: u64) -> FaultLine
    ensures { result.items ≡ gate_line (script_words (ScriptFault.BadLine number)) }
{
    let mut digits = Buffer::new();
    line_around(b"line ", digits.format(number).as_bytes(), b": bad step")
}

fn policy_line(kind: FaultKind) -> FaultLine
    ensures { result.items ≡ gate_line (policy_words kind) }
{
    if kind.is_memory() {
        return line_of(b"out of memory");
    }
    line_around(b"policy fault", b" ", kind.words().as_bytes())
}

/// The status of what is no journal.
fn journal_status(fault: AuditFault) -> u8
    ensures { result ≡ journal_status fault }
{
    match fault {
        AuditFault::OutOfMemory => 1,
        _ => 4,
    }
}

fn journal_line(fault: AuditFault) -> FaultLine
    ensures { result.items ≡ gate_line (journal_words fault) }
{
    match fault {
        AuditFault::Truncated => line_of(b"journal truncated"),
        AuditFault::BadRecord(number) => numbered_line(b"journal bad record ", number),
        AuditFault::IllegalVerdict(number) => numbered_line(b"journal illegal verdict ", number),
        AuditFault::OutOfMemory => line_of(b"out of memory"),
        AuditFault::OtherPolicy => line_of(b"journal other policy"),
    }
}

/// Which options name one file.
fn shared_words(pair: SharedFile) -> &'static [u8]
    ensures words { result.now ≡ shared_words pair }
    ensures short { length result.now ≤ 35 }
{
    match pair {
        SharedFile::PolicyAndJournal => b"--policy and --journal are one file",
        SharedFile::PolicyAndAudit => b"--policy and --audit are one file",
        SharedFile::JournalAndAudit => b"--journal and --audit are one file",
    }
}

/// A line of words and a number.
fn numbered_line(words: &[u8], number: u64) -> FaultLine
    requires { length words.now ≤ 37 }
    ensures { result.items ≡ gate_line (words.now ++ decimal number) }
{
    let mut digits = Buffer::new();
    line_around(words, digits.format(number).as_bytes(), b"")
}

/// A line of these words.
fn line_of(words: &[u8]) -> FaultLine
    requires { length words.now ≤ 57 }
    ensures { result.items ≡ gate_line words.now }
{
    let mut line = FaultLine::new();
    put(&mut line, b"gate: ");
    put(&mut line, words);
    put(&mut line, b"\n");
    line
}

/// A line of words in three pieces.
fn line_around(before: &[u8], words: &[u8], after: &[u8]) -> FaultLine
    requires { length before.now + length words.now + length after.now ≤ 57 }
    ensures { result.items ≡ gate_line (before.now ++ words.now ++ after.now) }
{
    let mut all = FaultLine::new();
    put(&mut all, before);
    put(&mut all, words);
    put(&mut all, after);
    line_of(all.as_slice())
}

/// Puts the bytes at the end.
fn put(line: &mut FaultLine, bytes: &[u8])
    requires { array_vec_len line.old + length bytes.now ≤ 64 }
    ensures bytes { line.new.items ≡ line.old.items ++ bytes.now }
    ensures length { array_vec_len line.new ≡ array_vec_len line.old + length bytes.now }
{
    match line.try_extend_from_slice(bytes) {
        Ok(()) => {}
        Err(_) => unreachable!(),
    }
}
