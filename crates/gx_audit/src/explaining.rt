//! What is wrong with a record that the check refuses.

use crate::checking::check_record;
use crate::fault::AuditFault;
use crate::places::bytes_at;
use gx_access_gate::AccessGate;
use gx_audit_bytes::{AuditVersion, RECORD_SIZE, read_record_in, wrong_field};
use gx_history::record::RecordData;
use gx_policy::Policy;
use gx_script_text::{append, append_number, append_verdict};
use gx_units::OutOfMemory;
use std::alloc::Global;

/// What more there is to tell of an answer: the wrong field of a bad record, or what an illegal one says and what the
/// rules say, as a `G` judges by them; nothing of others.
///
/// # Errors
///
/// `OutOfMemory` where memory was refused.
pub fn more_of_audit<G: AccessGate>(
    alloc: Global,
    policy: &Policy,
    audit: &[u8],
    answer: Result<u64, AuditFault>,
) -> Result<Option<Vec<u8>>, OutOfMemory> {
    match answer {
        Err(AuditFault::BadRecord(number)) => match bytes_at(audit, number) {
            Some(bytes) => {
                let field = wrong_field(AuditVersion::of(audit), &bytes);
                Ok(Some(field_line(alloc, field)?))
            }
            None => Ok(None),
        },
        Err(AuditFault::IllegalVerdict(number)) => match bytes_at(audit, number) {
            Some(bytes) => illegal_line::<G>(alloc, policy, audit, number, &bytes),
            None => Ok(None),
        },
        _ => Ok(None),
    }
}

/// The line that names a field.
fn field_line(alloc: Global, field: &str) -> Result<Vec<u8>, OutOfMemory> {
    let mut line = Vec::from_slice(alloc, b"field: ")?;
    append(&mut line, field.as_bytes())?;
    append(&mut line, b"\n")?;
    Ok(line)
}

/// The line that says what an illegal record says, and what the rules say.
fn illegal_line<G: AccessGate>(
    alloc: Global,
    policy: &Policy,
    audit: &[u8],
    number: u64,
    bytes: &[u8; RECORD_SIZE],
) -> Result<Option<Vec<u8>>, OutOfMemory> {
    let Some(recorded) = read_record_in(AuditVersion::of(audit), bytes) else {
        return Ok(None);
    };
    let mut line = Vec::from_slice(alloc, b"record: ")?;
    append_said(&mut line, &recorded.content())?;
    append(&mut line, b"; rules: ")?;
    match left_by_rules::<G>(alloc, policy, audit, number)? {
        Some(left) => append_said(&mut line, &left)?,
        None => append(&mut line, b"no record")?,
    }
    append(&mut line, b"\n")?;
    Ok(Some(line))
}

/// Puts a record's moment and its verdict last.
fn append_said(line: &mut Vec<u8>, content: &RecordData) -> Result<(), OutOfMemory> {
    append(line, b"at ")?;
    append_number(line, content.moment)?;
    append(line, b" ")?;
    append_verdict(line, &content.verdict)
}

/// The record that the step of an illegal one leaves by the rules: it is made again, behind the records before it.
fn left_by_rules<G: AccessGate>(
    alloc: Global,
    policy: &Policy,
    audit: &[u8],
    number: u64,
) -> Result<Option<RecordData>, OutOfMemory> {
    let mut gate = G::open(alloc, policy)?;
    let left = left_behind(&mut gate, audit, number);
    gate.close();
    left
}

/// The record of this number once the steps of the records up to it are made; `None` where the last leaves none.
fn left_behind<G: AccessGate>(
    gate: &mut G,
    audit: &[u8],
    number: u64,
) -> Result<Option<RecordData>, OutOfMemory> {
    replay(gate, audit, number)?;
    let left = gate.records(number, 1)?;
    match left.as_slice() {
        [record, ..] => Ok(Some(record.content())),
        _ => Ok(None),
    }
}

/// Makes the steps of the records up to this number, as far as each leaves its record.
fn replay<G: AccessGate>(gate: &mut G, audit: &[u8], number: u64) -> Result<(), OutOfMemory> {
    let version = AuditVersion::of(audit);
    for at in 0..number {
        let Some(bytes) = bytes_at(audit, at + 1) else {
            return Ok(());
        };
        match check_record(gate, version, &bytes) {
            Ok(()) => {}
            Err(AuditFault::OutOfMemory) => return Err(OutOfMemory),
            Err(_) => return Ok(()),
        }
    }
    Ok(())
}
