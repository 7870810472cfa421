//! Scenarios: connections in memory, served by the server's own code at a shared gate whose journal is written to a device in
//! memory, and the text of what came of them.

ghost use Rattle.std.specs.Prelude.{◌≡◌, []};

use crate::shared_case::{SharedCase, report_shared};
use gx_access_gate::AccessGate;
use gx_audit::{Resumed, resume};
use gx_audit_bytes::AuditVersion::Two;
use gx_audit_bytes::write_header;
use gx_case_parts::put_audit;
use gx_journal::{JournalRoom, Journaled};
use gx_pass::GateName;
use gx_policy::Policy;
use gx_records::{ShowsRecords, ShowsState};
use gx_shared::{CountedPass, Entrance, KeptDay, Permits, SharedGate, close_kept};
use gx_test_devices::{DeviceLimits, LARGE, OutputText, ShortWriter, limits_of, put_hex};
use gx_test_server::{Scenario, run_scenario, write_failure, write_owed, write_packets};
use gx_units::OutOfMemory;
use std::alloc::Global;
use std::marker::Brand;
use std::sync::Wait;
use std::thread::Threads;
use std::time::Clock;

/// A scenario, and the limits of the journal's device.
#[derive(Clone, Copy)]
pub(crate) struct ScenarioCase<'a, 't> {
    scenario: &'a Scenario<'t>,
    limits: DeviceLimits,
}

/// The journal's file: the policy's header, and what was written behind it.
fn journal_of(alloc: Global, policy: &Policy, written: &[u8]) -> Result<Vec<u8>, OutOfMemory> {
    let mut file = Vec::from_slice(alloc, &write_header(policy))?;
    file.extend_from_slice(written)?;
    Ok(file)
}

/// Writes what each peer is owed by the day of a journal that failed.
fn put_failed<G: AccessGate>(
    alloc: Global,
    out: &mut OutputText,
    policy: &Policy,
    file: &[u8],
    scenario: &Scenario<'_>,
) {
    out.put("the journal failed\n");
    let Ok(Resumed { gate, kept: _ }) = resume::<G>(alloc, policy, file) else {
        return out.put("the journal is not legal\n");
    };
    write_owed(alloc, out, &gate, scenario);
    gate.close();
}

/// Writes the journal, and what each peer is owed by its day.
fn put_journal<G: AccessGate>(
    alloc: Global,
    out: &mut OutputText,
    policy: &Policy,
    gate: &G,
    has_failed: bool,
    written: &[u8],
    scenario: &Scenario<'_>,
) {
    let Ok(file) = journal_of(alloc, policy, written) else {
        return out.mark_incomplete();
    };
    if has_failed {
        return put_failed::<G>(alloc, out, policy, file.as_slice(), scenario);
    }
    write_owed(alloc, out, gate, scenario);
    out.put("journal: ");
    put_hex(alloc, out, file.as_slice())
}

/// Runs a scenario at a gate whose journal is written with this pass, and reports it.
pub(crate) fn run_at_gate<
    G: ShowsRecords + ShowsState + Send,
    N: GateName + Send + Sync,
    R: Threads + Wait + Clock + Sync,
>(
    rt: &R,
    alloc: Global,
    out: &mut OutputText,
    policy: &Policy,
    shared: SharedGate<G, N>,
    permits: Permits<N>,
    pass: CountedPass<N>,
    case: ScenarioCase<'_, '_>,
)
    requires front { pass.held.front ≡ [] }
    requires none_added { pass.added ≡ 0 }
{
    let Ok(room) = JournalRoom::new(alloc) else {
        shared.release();
        return out.mark_incomplete();
    };
    let device = ShortWriter::new(alloc, case.limits);
    let door: Journaled<'_, SharedGate<G, N>, ShortWriter, Brand> = Journaled::new(
        room, Two, &shared, pass, 0, device,
    );
    let failure = run_scenario(
        rt,
        alloc,
        &door,
        Entrance::new(&shared, permits),
        case.scenario,
    );
    let journal = door.into_journal();
    let (kept, _met, _total) = close_kept(shared, journal);
    let KeptDay {
        gate,
        fault,
        device,
    } = kept;
    match failure {
        Some(failure) => write_failure(out, case.scenario, failure),
        None => out.mark_incomplete(),
    }
    write_packets(rt, alloc, case.scenario, out);
    let written = device.taken.as_slice();
    put_journal(
        alloc,
        out,
        policy,
        &gate,
        fault.is_some(),
        written,
        case.scenario,
    );
    put_audit(alloc, out, &gate);
    gate.close();
}

/// Runs a scenario at a gate of its own, and reports it; the words are the limits of the journal's device, if it has any.
pub(crate) fn report_scenario<
    G: ShowsRecords + ShowsState + Send,
    R: Threads + Wait + Clock + Sync,
>(rt: &R, alloc: Global, out: &mut OutputText, policy: &Policy, words: &str, text: &str) {
    let Ok(scenario) = Scenario::new(alloc, text) else {
        return out.mark_incomplete();
    };
    let case = ScenarioCase {
        scenario: &scenario,
        limits: limits_of(words, LARGE),
    };
    report_shared::<G, R>(rt, alloc, out, policy, SharedCase::Scenario(case))
}
