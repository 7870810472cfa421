//! What stands in an audit's day.

use crate::telling::{tell_fault, write};
use gx_audit::{count_until, replay_first};
use gx_command_line::{AuditFiles, Behind, StateOptions};
use gx_policy::Policy;
use gx_program::{Content, Failure, bytes_of, policy_of};
use gx_records::{ShowsRecords, ShowsState};
use gx_state::{state_json, state_text};
use gx_units::OutOfMemory;
use std::alloc::Global;
use std::process::ExitCode;

/// The nanoseconds of a second.
const SECOND: u64 = 1_000_000_000;

/// How many of an audit's records are wanted.
fn records_wanted(audit: &[u8], behind: Behind) -> u64 {
    match behind {
        Behind::Last => u64::MAX,
        Behind::Record(number) => number,
        Behind::Time(time) => count_until(audit, u64::from(time.seconds) * SECOND),
    }
}

/// What is told of the gate.
fn output_text<G: ShowsRecords + ShowsState>(
    alloc: Global,
    gate: &G,
    asked: StateOptions,
) -> Result<Vec<u8>, OutOfMemory> {
    if asked.is_json {
        state_json(alloc, gate, asked.with_orders)
    } else {
        state_text(alloc, gate, asked.with_orders)
    }
}

/// Tells what stands behind the record that is wanted: the status that says whether the audit is legal up to there.
fn tell_state<'a, G: ShowsRecords + ShowsState>(
    rt: &HostRuntime,
    policy: &Policy,
    audit: &[u8],
    asked: StateOptions,
) -> Result<ExitCode, Failure<'a>> {
    let wanted = records_wanted(audit, asked.behind);
    match replay_first::<G>(rt.alloc(), policy, audit, wanted) {
        Ok(gate) => {
            let text = output_text(rt.alloc(), &gate, asked);
            gate.close();
            write(rt, text?.as_slice(), 0)
        }
        Err(fault) => tell_fault(rt, fault),
    }
}

/// Tells what stands in an audit's day under a policy.
fn state_under<'a, G: ShowsRecords + ShowsState>(
    rt: &HostRuntime,
    policy: &Policy,
    path: &'a str,
    asked: StateOptions,
) -> Result<ExitCode, Failure<'a>> {
    let audit = bytes_of(rt, path, Content::Records)?;
    tell_state::<G>(rt, policy, audit.as_slice(), asked)
}

/// Tells what stands in an audit's day: the status that says whether the audit is legal up to there.
pub fn state<'a, G: ShowsRecords + ShowsState>(
    rt: &HostRuntime,
    files: AuditFiles<'a>,
    asked: StateOptions,
) -> Result<ExitCode, Failure<'a>> {
    let policy = policy_of(rt, files.policy)?;
    state_under::<G>(rt, &policy, files.audit, asked)
}
