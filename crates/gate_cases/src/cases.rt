//! Cases: each is run over devices of both kinds.

use crate::scenarios::report_scenario;
use crate::shared_case::{SharedCase, report_shared};
use gx_case_parts::report_parts;
use gx_policy::Policy;
use gx_records::{ShowsRecords, ShowsState};
use gx_server::sample_policy;
use gx_test_devices::{BYTE_BY_BYTE, DeviceLimits, LARGE, OutputText, halves};
use std::alloc::Global;
use std::sync::Wait;
use std::thread::Threads;
use std::time::Clock;

/// Runs the parts on a new gate.
fn run_once<G: ShowsRecords>(
    alloc: Global,
    policy: &Policy,
    parts: &str,
    usual: DeviceLimits,
) -> OutputText {
    let mut out = OutputText::new(alloc);
    match G::open(alloc, policy) {
        Ok(gate) => {
            let mut gate = gate;
            report_parts(alloc, &mut out, &mut gate, policy, parts, usual);
            gate.close();
        }
        Err(_) => out.mark_incomplete(),
    }
    out
}

/// Runs the parts over devices of both kinds, and writes what each did: once where it is the same.
fn run<G: ShowsRecords>(alloc: Global, out: &mut OutputText, policy: &Policy, parts: &str) {
    let large = run_once::<G>(alloc, policy, parts, LARGE);
    let byte_by_byte = run_once::<G>(alloc, policy, parts, BYTE_BY_BYTE);
    out.put(large.as_str());
    out.inherit_gaps(&large);
    out.inherit_gaps(&byte_by_byte);
    if byte_by_byte.as_str() != large.as_str() {
        out.put("byte by byte:\n");
        out.put(byte_by_byte.as_str());
    }
}

/// Runs a case: its first part says whether it is a scenario, or calls.
fn answer<G: ShowsRecords + ShowsState + Send, R: Threads + Wait + Clock + Sync>(
    rt: &R,
    alloc: Global,
    out: &mut OutputText,
    policy: &Policy,
    parts: &str,
) {
    let (head, text) = halves(parts, "\n");
    let (kind, words) = halves(head, " ");
    if kind == "play" {
        report_scenario::<G, R>(rt, alloc, out, policy, words, text)
    } else if kind == "calls" {
        report_shared::<G, R>(rt, alloc, out, policy, SharedCase::Calls(words))
    } else {
        run::<G>(alloc, out, policy, parts)
    }
}

/// Runs the cases of a text, and writes the title of each and what it does.
fn answer_all<G: ShowsRecords + ShowsState + Send, R: Threads + Wait + Clock + Sync>(
    rt: &R,
    alloc: Global,
    out: &mut OutputText,
    policy: &Policy,
    text: &str,
) {
    for case in text.split("\n== ") {
        let (title, parts) = halves(case, "\n-- ");
        out.put("== ");
        out.put_line(title.strip_prefix("== ").unwrap_or(title));
        answer::<G, R>(rt, alloc, out, policy, parts);
    }
}

/// Runs the cases of a text, under the sample policy, and writes what each does.
pub fn answer_text<G: ShowsRecords + ShowsState + Send, R: Threads + Wait + Clock + Sync>(
    rt: &R,
    alloc: Global,
    out: &mut OutputText,
    text: &str,
) {
    let Ok(policy) = sample_policy(alloc) else {
        return out.mark_incomplete();
    };
    answer_all::<G, R>(rt, alloc, out, &policy, text);
    policy.release()
}
