//! A run over standard input.

ghost use Rattle.std.specs.Prelude.{◌-◌, ◌^◌, ◌<◌};

use crate::auditing::{AuditFile, close_audited, open_audit};
use crate::starts::Start;
use gx_audit_bytes::AuditVersion;
use gx_clock::UtcOffset;
use gx_command_line::RunFiles;
use gx_connection::run_pipe;
use gx_devices::CallCounter;
use gx_program::{Failure, Named, Resource, held_back, policy_file, tell_apart};
use gx_records::ShowsRecords;
use gx_script_run::run_script;
use gx_server::{ErrorRecorder, ProgramFault, open_gate};
use std::alloc::Global;
use std::io;
use std::io::{Read, Write};

/// The moment of a connection's first packet.
const FIRST_MOMENT: u64 = 1;

/// What standard input is.
#[derive(Clone, Copy)]
pub enum Input {
    /// The packets of a connection.
    Packets,
    /// The lines of a script.
    Lines,
}

/// Runs an input on a gate.
fn run_input<G: ShowsRecords, R: Read, W: Write>(
    alloc: Global,
    input: Input,
    gate: &mut G,
    reader: &mut CallCounter<R>,
    writer: &mut CallCounter<W>,
) -> Result<(), ProgramFault>
    requires reader { reader.old.failed < 2 ^ 64 - 1 }
    requires writer { writer.old.failed < 2 ^ 64 - 1 }
{
    match input {
        Input::Packets => Ok(run_pipe(alloc, gate, FIRST_MOMENT, reader, writer)?),
        Input::Lines => Ok(run_script(alloc, gate, reader, writer)?),
    }
}

/// Writes what is held back still.
fn write_rest<'a, W: Write>(writer: &mut CallCounter<W>) -> Result<(), Failure<'a>> {
    match writer.flush() {
        Ok(()) => Ok(()),
        Err(error) => Err(Failure::unwritten(Resource::Output, error)),
    }
}

/// Runs standard input on a gate. What it prints is written before more is read, and in the end.
fn follow<'a, G: ShowsRecords>(
    rt: &HostRuntime,
    input: Input,
    gate: &mut G,
) -> Result<(), Failure<'a>> {
    let mut reader = CallCounter::new(ErrorRecorder::new(rt.reader()));
    let mut writer = held_back(rt.alloc(), io::writer(rt))?;
    let ended = match run_input(rt.alloc(), input, gate, &mut reader, &mut writer) {
        Ok(()) => Ok(()),
        Err(fault) => Err(Failure::of_run(fault, reader.device().cause, writer.device().cause)),
    };
    ended.and(write_rest(&mut writer))
}

/// Runs standard input on a gate, and writes the audit in this version.
fn follow_audited<'a, G: ShowsRecords>(
    rt: &HostRuntime,
    input: Input,
    version: AuditVersion,
    gate: G,
    audit: Option<AuditFile<'a>>,
) -> Result<(), Failure<'a>> {
    let mut gate = gate;
    let followed = follow(rt, input, &mut gate);
    let kept = close_audited(rt, version, gate, audit);
    followed.and(kept)
}

/// Runs standard input on a gate under a policy file, or under the sample policy, and writes the audit.
fn follow_under<'a, G: ShowsRecords>(
    rt: &HostRuntime,
    input: Input,
    version: AuditVersion,
    file: Option<&[u8]>,
    named: Named<'a>,
) -> Result<(), Failure<'a>> {
    let gate: G = open_gate(rt.alloc(), file)?;
    match open_audit(rt, named) {
        Ok(audit) => follow_audited(rt, input, version, gate, audit),
        Err(ended) => {
            gate.close();
            Err(ended)
        }
    }
}

/// The files of a run, of which no two may be one.
pub fn names_of<'a>(
    rt: &HostRuntime,
    files: RunFiles<'a>,
    journal: Option<&'a str>,
) -> Result<Named<'a>, Failure<'a>> {
    let named = Named {
        policy: files.policy,
        journal,
        audit: files.audit,
    };
    tell_apart(rt, named)?;
    Ok(named)
}

/// Runs standard input on a gate of its own, and writes the audit.
pub fn run_files<'a, G: ShowsRecords>(
    rt: &HostRuntime,
    input: Input,
    files: RunFiles<'a>,
) -> Result<(), Failure<'a>> {
    let start = Start::of_run(rt, files.version, UtcOffset::UTC);
    let named = names_of(rt, files, None)?;
    let file = policy_file(rt, files.policy)?;
    follow_under::<G>(rt, input, start.version, file.as_deref(), named)
}
