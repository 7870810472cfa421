//! What is printed of a scenario.

use crate::connection::first_packet;
use crate::driver::ScenarioFailure;
use crate::scenario::{Scenario, ScenarioPeer};
use gx_access_gate::AccessGate;
use gx_control::words_of;
use gx_history::report::Report;
use gx_ouch::MESSAGE_ROOM;
use gx_serve::{Cut, Exclusion};
use gx_test_devices::{OutputText, put_hex};
use gx_units::{UserName, padded};
use std::alloc::Global;
use std::sync::Wait;

/// Why a peer was cut off, in words.
fn reason_of(cut: Cut) -> (&'static str, &'static str) {
    match cut {
        Cut::Broken(fault) => (": no packets: ", words_of(fault)),
        Cut::Excluded(Exclusion::Silent) => (": put out: ", "1000 denials in silence"),
        Cut::Excluded(Exclusion::Kept) => (": put out: ", "the last records are kept"),
    }
}

/// Writes the packets that were sent, a line each.
fn put_packets(alloc: Global, out: &mut OutputText, name: &str, bytes: &[u8]) {
    let mut rest = bytes;
    for _ in 0..bytes.len() {
        let Some((packet, behind)) = first_packet(rest) else {
            break;
        };
        out.put(name);
        out.put(": ");
        put_hex(alloc, out, packet);
        rest = behind;
    }
    if !rest.is_empty() {
        out.put(name);
        out.put(": a packet that was cut\n");
    }
}

/// Writes what a peer was sent, and why he was cut off, if he was.
fn put_peer<R: Wait>(rt: &R, alloc: Global, out: &mut OutputText, peer: &ScenarioPeer<'_>) {
    match peer.connection.written(rt, alloc) {
        Ok(bytes) => put_packets(alloc, out, peer.name, bytes.as_slice()),
        Err(_) => out.mark_incomplete(),
    }
    if let Some(cut) = peer.connection.cut_reason(rt) {
        let (reason, words) = reason_of(cut);
        out.put(peer.name);
        out.put(reason);
        out.put_line(words);
    }
}

/// Writes what each peer was sent.
pub fn write_packets<R: Wait>(
    rt: &R,
    alloc: Global,
    scenario: &Scenario<'_>,
    out: &mut OutputText,
) {
    for peer in &scenario.peers {
        put_peer(rt, alloc, out, peer);
    }
}

/// Writes a report that a peer is owed, in hex.
fn put_report(alloc: Global, out: &mut OutputText, name: &str, report: &Report) {
    let mut room = [0u8; MESSAGE_ROOM];
    let size = report.write(&mut room);
    out.put(name);
    out.put(" is owed ");
    put_hex(alloc, out, &room[..size])
}

/// Writes the reports that the gate owes the user of a peer's name.
fn put_owed<G: AccessGate>(alloc: Global, out: &mut OutputText, gate: &G, name: &str) {
    let user = UserName {
        bytes: padded(name.as_bytes()).unwrap_or([b' '; 6]),
    };
    match gate.reports(user, 1, u64::MAX) {
        Ok(owed) => {
            for report in owed.reports.as_slice() {
                put_report(alloc, out, name, report);
            }
        }
        Err(_) => out.mark_incomplete(),
    }
}

/// Writes, for each peer, the reports that the gate owes the user of his name.
pub fn write_owed<G: AccessGate>(
    alloc: Global,
    out: &mut OutputText,
    gate: &G,
    scenario: &Scenario<'_>,
) {
    for peer in &scenario.peers {
        put_owed(alloc, out, gate, peer.name);
    }
}

/// Writes what was waited for in vain.
pub fn write_failure(out: &mut OutputText, scenario: &Scenario<'_>, failure: ScenarioFailure) {
    match failure {
        ScenarioFailure::Nothing => {}
        ScenarioFailure::Step(place) => {
            let line = *scenario.lines.get(place).unwrap_or(&"");
            out.put("in vain: ");
            out.put_line(line);
        }
        ScenarioFailure::EndOf(place) => {
            out.put("in vain: the end of ");
            if let Some(peer) = scenario.peers.get(place) {
                out.put(peer.name);
            }
            out.put("\n");
        }
    }
}
