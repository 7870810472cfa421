//! Why the program gave up, and how that is told.

use gx_connection::PipeFault;
use gx_devices::WriteFault;
use gx_log::Log;
use gx_server::{Device, ProgramFault};
use gx_shortened::Shortened;
use gx_units::OutOfMemory;
use std::io::Write;
use std::process::ExitCode;
use std::sync::Wait;
use std::{fmt, io};

/// What can't be read, written or listened on.
#[derive(Clone, Copy)]
pub enum Resource<'a> {
    /// The file of this name.
    File(&'a str),
    /// Standard input.
    Input,
    /// Standard output.
    Output,
    /// The address that a server listens on.
    Address,
}

impl fmt::Display for Resource<'_> {
    fn fmt<W: fmt::Write>(&self, f: &mut fmt::Formatter<W>) -> fmt::Result {
        match self {
            Resource::File(name) => {
                let name = Shortened::of(name);
                write!(f, "{name}")
            }
            Resource::Input => f.write_str("standard input"),
            Resource::Output => f.write_str("standard output"),
            Resource::Address => f.write_str("127.0.0.1"),
        }
    }
}

/// Why the program gave up, and, where the system refused something, of what and in which words.
#[derive(Drop)]
pub struct Failure<'a> {
    fault: ProgramFault,
    resource: Resource<'a>,
    said: Option<io::Error>,
}

impl<'a> Failure<'a> {
    /// That a file can't be read.
    pub fn unread(name: &'a str, error: io::Error) -> Failure<'a> {
        Failure {
            fault: ProgramFault::unread(error.kind()),
            resource: Resource::File(name),
            said: Some(error),
        }
    }

    /// That a file or a device can't be written.
    pub fn unwritten(resource: Resource<'a>, error: io::Error) -> Failure<'a> {
        Failure {
            fault: PipeFault::WriteFailed.into(),
            resource,
            said: Some(error),
        }
    }

    /// That an address can't be listened on.
    pub fn no_listener(error: io::Error) -> Failure<'a> {
        Failure {
            fault: ProgramFault::ListenFailed,
            resource: Resource::Address,
            said: Some(error),
        }
    }

    /// The fault of what writes there, and what the system said of it, if it said something.
    pub fn of_writing(
        fault: WriteFault,
        resource: Resource<'a>,
        said: Option<io::Error>,
    ) -> Failure<'a> {
        match fault {
            WriteFault::OutOfMemory => OutOfMemory.into(),
            WriteFault::WriteFailed => Failure {
                fault: PipeFault::WriteFailed.into(),
                resource,
                said,
            },
        }
    }

    /// The fault of a run over standard input and output, and what the system said of the one that failed.
    pub fn of_run(
        fault: ProgramFault,
        read: Option<io::Error>,
        written: Option<io::Error>,
    ) -> Failure<'a> {
        let (resource, said) = said_of(fault.failed_device(), read, written);
        Failure {
            fault,
            resource,
            said,
        }
    }
}

/// What the system said of the device that failed, if one did.
fn said_of<'a>(
    failed: Option<Device>,
    read: Option<io::Error>,
    written: Option<io::Error>,
) -> (Resource<'a>, Option<io::Error>) {
    match failed {
        Some(Device::Reader) => (Resource::Input, read),
        Some(Device::Writer) => (Resource::Output, written),
        None => (Resource::Output, None),
    }
}

impl<'a> From<ProgramFault> for Failure<'a> {
    fn from(fault: ProgramFault) -> Failure<'a> {
        Failure {
            fault,
            resource: Resource::Output,
            said: None,
        }
    }
}

impl<'a> From<OutOfMemory> for Failure<'a> {
    fn from(refused: OutOfMemory) -> Failure<'a> {
        ProgramFault::from(refused).into()
    }
}

/// Writes what more there is to tell of the fault: of a policy file or of a script, where it stands; of a file or a device, what
/// the system said.
fn write_more<W: Write>(to: &mut W, ended: &Failure) -> io::Result<()> {
    match &ended.fault {
        ProgramFault::Policy(fault) => {
            let place = fault.place();
            writeln!(to, "{place}")?;
        }
        ProgramFault::Script(explained) => {
            if let Some(wrong) = explained.wrong {
                writeln!(to, "{wrong}")?;
            }
        }
        ProgramFault::Unread
        | ProgramFault::ListenFailed
        | ProgramFault::Pipe(_)
        | ProgramFault::Journal(_)
        | ProgramFault::JournalInUse
        | ProgramFault::AuditInUse
        | ProgramFault::OneFile(_)
        | ProgramFault::NoLines => {}
    }
    if let Some(error) = ended.said {
        let resource = ended.resource;
        writeln!(to, "{resource}: {error}")?;
    }
    Ok(())
}

/// Writes why the program gave up: a line for its fault, and what more there is to tell of it.
pub fn write_failure<W: Write>(to: &mut W, ended: &Failure) -> io::Result<()> {
    let line = ended.fault.line();
    to.write_all(line.as_slice())?;
    write_more(to, ended)
}

/// Tells why the program gave up: the status that says so.
pub fn tell(rt: &HostRuntime, ended: Failure) -> ExitCode {
    let _ = write_failure(&mut io::writer(&rt.stderr()), &ended);
    ExitCode::from(ended.fault.status())
}

/// Tells in the log why a server gave up: the status that says so. Where there is no memory for all of it, a front is told.
pub fn tell_in<R: Wait>(rt: &R, host: &HostRuntime, log: &Log, ended: Failure) -> ExitCode {
    let line = ended.fault.line();
    log.tell(rt, line.as_slice());
    let mut more = Vec::new(host.alloc());
    let _ = write_more(&mut more, &ended);
    log.tell(rt, more.as_slice());
    ExitCode::from(ended.fault.status())
}

/// Prints the text on standard output; nothing where there is none.
pub fn print<'a>(rt: &HostRuntime, text: &[u8]) -> Result<(), Failure<'a>> {
    if text.is_empty() {
        return Ok(());
    }
    match io::writer(rt).write_all(text) {
        Ok(()) => Ok(()),
        Err(error) => Err(Failure::unwritten(Resource::Output, error)),
    }
}
