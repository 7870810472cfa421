//! Runs on a case's gate: connections and scripts over devices, and the text of what came of them.

ghost use Rattle.std.specs.Prelude.{◌-◌, ◌<◌};

use crate::audits::{report_audit, report_first_version};
use gx_access_gate::AccessGate;
use gx_connection::{PipeFault, run_pipe_within};
use gx_devices::CallCounter;
use gx_history::record::Record;
use gx_policy::Policy;
use gx_records::ShowsRecords;
use gx_script_run::{Explained, run_script};
use gx_script_text::outcome_line;
use gx_server::ErrorRecorder;
use gx_test_devices::{
    DeviceLimits, OutputText, ShortReader, ShortWriter, halves, hex_bytes_of, limits_of, put_hex,
    report_session,
};
use gx_units::unpadded;
use std::alloc::Global;
use std::{fmt, io};

/// What an input is: packets of a connection, or lines of a script.
#[derive(Clone, Copy)]
enum InputKind {
    Pipe,
    Script,
}

/// How a run ended.
#[derive(Clone, Copy)]
enum RunEnd {
    Pipe(Result<(), PipeFault>),
    Script(Result<(), Explained>),
}

impl fmt::Display for RunEnd {
    fn fmt<W: fmt::Write>(&self, f: &mut fmt::Formatter<W>) -> fmt::Result {
        match self {
            RunEnd::Pipe(Ok(())) => f.write_str("pipe: done"),
            RunEnd::Pipe(Err(fault)) => write!(f, "pipe: {fault}"),
            RunEnd::Script(Ok(())) => f.write_str("script: done"),
            RunEnd::Script(Err(explained)) => {
                let fault = explained.fault;
                match explained.wrong {
                    Some(wrong) => write!(f, "script: {fault}; {wrong}"),
                    None => write!(f, "script: {fault}"),
                }
            }
        }
    }
}

/// What came of a run: how it ended, how often a device failed and why it last did, and what was written.
#[derive(Drop)]
struct RunOutcome {
    end: RunEnd,
    failed_reads: u64,
    failed_writes: u64,
    cause: Option<io::Error>,
    written: Vec<u8>,
}

impl RunOutcome {
    /// Writes how the run ended, and how often its devices failed and why they last did, if they did.
    fn put(&self, out: &mut OutputText) {
        out.put_shown(&self.end);
        if self.failed_reads > 0 || self.failed_writes > 0 {
            out.put("; ");
            out.put_number(self.failed_reads);
            out.put(" reads and ");
            out.put_number(self.failed_writes);
            out.put(" writes failed");
        }
        if let Some(cause) = self.cause {
            out.put(": ");
            out.put_shown(&cause);
        }
        out.put("\n")
    }
}

/// Runs an input over devices of these limits.
fn run_on<G: AccessGate>(
    kind: InputKind,
    alloc: Global,
    gate: &mut G,
    limits: DeviceLimits,
    input: &[u8],
) -> RunOutcome {
    let mut reader = CallCounter::new(ErrorRecorder::new(ShortReader::new(input, limits)));
    let mut writer = CallCounter::new(ErrorRecorder::new(ShortWriter::new(alloc, limits)));
    let end = match kind {
        InputKind::Pipe => RunEnd::Pipe(run_pipe_within(
            alloc,
            gate,
            1,
            &mut reader,
            &mut writer,
            limits.most_reads,
        )),
        InputKind::Script => RunEnd::Script(run_script(alloc, gate, &mut reader, &mut writer)),
    };
    RunOutcome {
        end,
        failed_reads: reader.failed(),
        failed_writes: writer.failed(),
        cause: reader.device().cause.or(writer.device().cause),
        written: writer.into_inner().device.taken,
    }
}

/// Writes the verdict of a record.
fn put_verdict(alloc: Global, out: &mut OutputText, entry: &Record) {
    let content = entry.content();
    match outcome_line(alloc, content.number, &content.verdict) {
        Ok(line) => out.put_bytes(line.as_slice()),
        Err(_) => out.mark_incomplete(),
    }
}

/// Writes the verdicts of these records, a line each.
pub(crate) fn put_records(alloc: Global, out: &mut OutputText, records: &[Record]) {
    for entry in records {
        put_verdict(alloc, out, entry);
    }
}

/// Writes the verdicts of the records from this number on, a line each.
fn put_verdicts<G: AccessGate>(alloc: Global, out: &mut OutputText, gate: &G, from: u64) {
    match gate.records(from, u64::MAX) {
        Ok(records) => put_records(alloc, out, records.as_slice()),
        Err(_) => out.mark_incomplete(),
    }
}

/// Runs a connection whose bytes are in hex, and writes the verdicts of its records, the bytes that it was sent, in hex, and
/// how it ended.
fn report_pipe<G: AccessGate>(
    alloc: Global,
    out: &mut OutputText,
    gate: &mut G,
    limits: DeviceLimits,
    text: &str,
) {
    let from = gate.length().saturating_add(1);
    let input = hex_bytes_of(alloc, out, text);
    let outcome = run_on(InputKind::Pipe, alloc, gate, limits, input.as_slice());
    put_verdicts(alloc, out, gate, from);
    put_hex(alloc, out, outcome.written.as_slice());
    outcome.put(out)
}

/// Runs a script, and writes what it printed, with a line end behind it, and how it ended.
fn report_script<G: AccessGate>(
    alloc: Global,
    out: &mut OutputText,
    gate: &mut G,
    limits: DeviceLimits,
    text: &str,
) {
    let outcome = run_on(InputKind::Script, alloc, gate, limits, text.as_bytes());
    out.put_bytes(outcome.written.as_slice());
    if outcome.written.last().is_some_and(|last| *last != b'\n') {
        out.put("\n");
    }
    outcome.put(out)
}

/// Makes the step of a script's line, and makes it again if it left no record: then it was refused.
fn step_again<G: AccessGate>(alloc: Global, gate: &mut G, limits: DeviceLimits, line: &str) {
    let before = gate.length();
    run_on(InputKind::Script, alloc, gate, limits, line.as_bytes());
    if gate.length() == before {
        run_on(InputKind::Script, alloc, gate, limits, line.as_bytes());
    }
}

/// Makes the steps of a script's lines, each again where it is refused, and writes the verdicts of their records.
fn report_again<G: AccessGate>(
    alloc: Global,
    out: &mut OutputText,
    gate: &mut G,
    limits: DeviceLimits,
    text: &str,
) {
    let from = gate.length().saturating_add(1);
    for line in text.lines() {
        step_again(alloc, gate, limits, line);
    }
    put_verdicts(alloc, out, gate, from)
}

/// Runs a part of a case: its first line says what it is, and names its devices' limits where it has its own.
fn report_part<G: ShowsRecords>(
    alloc: Global,
    out: &mut OutputText,
    gate: &mut G,
    part: &str,
    usual: DeviceLimits,
) {
    let (head, text) = halves(part, "\n");
    let (kind, words) = halves(head, " ");
    let limits = limits_of(words, usual);
    if kind == "pipe" {
        report_pipe(alloc, out, gate, limits, text)
    } else if kind == "script" {
        report_script(alloc, out, gate, limits, text)
    } else if kind == "again" {
        report_again(alloc, out, gate, limits, text)
    } else if kind == "audit" {
        report_audit(alloc, out, gate, limits)
    } else if kind == "audit-1" {
        report_first_version(alloc, out, gate)
    } else {
        report_session(alloc, out, words, text)
    }
}

/// Writes a name behind a word, without the spaces behind it.
fn put_named(out: &mut OutputText, word: &str, name: &[u8]) {
    out.put(word);
    out.put_bytes(unpadded(name))
}

/// Writes which users are logged in, and on which line, and which accounts are killed.
fn put_standing<G: AccessGate>(out: &mut OutputText, gate: &G, policy: &Policy) {
    for user in policy.users() {
        if let Some(line) = gate.on(user.name) {
            put_named(out, "on: ", &user.name.bytes);
            out.put(" ");
            out.put_number(u64::from(line));
            out.put("\n");
        }
    }
    for account in policy.accounts() {
        if gate.is_killed(account.name) {
            put_named(out, "killed: ", &account.name.bytes);
            out.put("\n");
        }
    }
}

/// Runs the parts of a case on a gate, one after the other, and reports each.
pub fn report_parts<G: ShowsRecords>(
    alloc: Global,
    out: &mut OutputText,
    gate: &mut G,
    policy: &Policy,
    parts: &str,
    usual: DeviceLimits,
) {
    for part in parts.split("\n-- ") {
        report_part(alloc, out, gate, part, usual);
    }
    put_standing(out, gate, policy)
}
