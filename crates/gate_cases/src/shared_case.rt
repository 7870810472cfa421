//! Cases that run at a shared gate of their own: a scenario, or calls.

ghost use Rattle.std.specs.Prelude.{◌≡◌};
ghost use Rattle.gx_shared.specs.Permits.{all_parts};

use crate::scenarios::{ScenarioCase, run_at_gate};
use gx_case_parts::{put_audit, report_calls};
use gx_pass::{Blank, GateName};
use gx_policy::Policy;
use gx_records::{ShowsRecords, ShowsState};
use gx_shared::{BlankLedgers, CountedPass, Entrance, Permits, SharedGate};
use gx_test_devices::OutputText;
use gx_test_server::{ClockReads, ClockedRuntime, ScenarioClock};
use std::alloc::Global;
use std::marker::Brand;
use std::sync::Wait;
use std::thread::Threads;
use std::time::Clock;

/// A case at a shared gate.
#[derive(Clone, Copy)]
pub(crate) enum SharedCase<'a, 't> {
    /// A scenario.
    Scenario(ScenarioCase<'a, 't>),
    /// Calls.
    Calls(&'t str),
}

/// Makes the calls at a gate, on a clock that stands still, and writes what came of them.
fn make_calls_at<
    G: ShowsRecords + ShowsState + Send,
    N: GateName + Send + Sync,
    R: Threads + Wait + Clock + Sync,
>(
    rt: &R,
    alloc: Global,
    out: &mut OutputText,
    shared: &SharedGate<G, N>,
    permits: Permits<N>,
    name: &str,
) {
    let (clock, clock_reads) = (ScenarioClock::new(), ClockReads::new());
    let mut entrance = Entrance::new(shared, permits);
    report_calls(
        &ClockedRuntime::new(rt, &clock, &clock_reads),
        alloc,
        out,
        shared,
        &mut entrance,
        name,
    )
}

/// Makes the calls at a gate, and writes what came of them and its audit.
fn report_calls_at<
    G: ShowsRecords + ShowsState + Send,
    N: GateName + Send + Sync,
    R: Threads + Wait + Clock + Sync,
>(
    rt: &R,
    alloc: Global,
    out: &mut OutputText,
    shared: SharedGate<G, N>,
    permits: Permits<N>,
    pass: CountedPass<N>,
    name: &str,
) {
    make_calls_at(rt, alloc, out, &shared, permits, name);
    let (gate, _met, _total) = shared.close(pass);
    put_audit(alloc, out, &gate);
    gate.close();
}

/// Runs and reports a case at a gate over this table and these ledgers.
fn report_shared_over<
    G: ShowsRecords + ShowsState + Send,
    N: GateName + Send + Sync,
    R: Threads + Wait + Clock + Sync,
>(
    rt: &R,
    alloc: Global,
    out: &mut OutputText,
    policy: &Policy,
    blank: Blank,
    ledgers: BlankLedgers,
    case: SharedCase<'_, '_>,
)
    requires policy { policy.now ≡ N.policy }
    requires blank { blank ≡ N.table }
    requires records { ledgers.records ≡ N.name }
    requires lines { ledgers.lines ≡ N.lines }
    requires parts { N.parts ≡ all_parts }
{
    let Ok(gate) = G::open(alloc, policy) else {
        return out.mark_incomplete();
    };
    match SharedGate::<G, N>::over(gate, blank, ledgers) {
        Ok((shared, permits, pass)) => match case {
            SharedCase::Scenario(scenario) => {
                run_at_gate(rt, alloc, out, policy, shared, permits, pass, scenario)
            }
            SharedCase::Calls(name) => report_calls_at(rt, alloc, out, shared, permits, pass, name),
        },
        Err(_) => out.mark_incomplete(),
    }
}

/// Runs and reports a case at a shared gate of its own.
pub(crate) fn report_shared<G: ShowsRecords + ShowsState + Send, R: Threads + Wait + Clock + Sync>(
    rt: &R,
    alloc: Global,
    out: &mut OutputText,
    policy: &Policy,
    case: SharedCase<'_, '_>,
) {
    match Blank::new(alloc) {
        Ok(blank) => report_shared_over::<G, Brand, R>(
            rt,
            alloc,
            out,
            policy,
            blank,
            BlankLedgers::new(),
            case,
        ),
        Err(_) => out.mark_incomplete(),
    }
}
