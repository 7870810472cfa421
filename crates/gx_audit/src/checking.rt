//! The check that bytes are the records of a legal day.

ghost use Rattle.std.specs.Prelude.{◌≡◌, ◌≢◌, ◌+◌, ◌-◌, ◌<◌, ◌≤◌, IsTrue, IsFalse, IfOk, IfErr, OnOk, Err, ◌++◌, [], length, take, drop, option_map, Some};
ghost use Rattle.gx_history.specs.Verdicts.{next, IsLegal};
ghost use Rattle.gx_access_gate.specs.declared.outcome.StepFault.TheVariants as stepping;
ghost use Rattle.gx_audit.specs.declared.fault.AuditFault.TheVariants as faults;
ghost use Rattle.gx_audit.specs.{Auditing.{record_left, with_left, HasOtherHeader, IsAnswer, IsOneMore, IsOnlyAnswer, IsRecordFault, NoneFollows}, Replaying.{EndsAt, IsHeaderFault, IsRecordsFault}};
ghost use Rattle.gx_audit_bytes.specs.{Reading.{record_of, shows_rule, IsAskableStep, IsRecordShown}, Headers.front_of, Records.record_bytes, Versions.{has_header, version_of}};

use crate::fault::AuditFault;
use gx_access_gate::{AccessGate, Outcome, StepFault};
use gx_audit_bytes::{
    AuditVersion, RECORD_SIZE, read_record_in, same_bytes, shows_verdict, whole, write_header_in,
};
use gx_history::record::{RecordData, Step};
use gx_policy::Policy;
use gx_records::{NoWatch, Watches};
use std::alloc::Global;

/// Whether the bytes are the audit of a legal day under the policy: how many records there are, or the first fault. Bytes
/// that begin with `GXH2` are taken as version 2, those that begin with `GXH3` as version 3 with the day of their header,
/// all others as version 1. The steps are made again on a gate of its own, a `G`.
#[tactic(auto, using(crate::proofs::Bytes_only::is_only))]
pub fn check_audit<G: AccessGate>(
    alloc: Global,
    policy: &Policy,
    bytes: &[u8],
) -> Result<u64, AuditFault>
    ensures answer { IsAnswer policy.now bytes.now result }
    // Where memory was not refused, no other answer is right.
    ensures only { IsOnlyAnswer policy.now bytes.now result }
{
    let version = AuditVersion::of(bytes);
    match records_start(policy, version, bytes) {
        Ok(start) => check_behind::<G>(alloc, policy, version, bytes, start),
        Err(fault) => Err(fault),
    }
}

/// Where the records begin: behind the header, where there has to be one.
#[tactic(auto, using(crate::proofs::Header_call::told_of_header, crate::proofs::Header_call::headless))]
pub(crate) fn records_start(
    policy: &Policy,
    version: AuditVersion,
    bytes: &[u8],
) -> Result<usize, AuditFault>
    requires version { version_of bytes.now ≡ version }
    ensures within { IfOk result (λ start. start ≤ length bytes.now) }
    ensures front { IfOk result (λ start.
        front_of version policy.now ++ drop start bytes.now ≡ bytes.now) }
    ensures fault { IfErr result (λ e. IsAnswer policy.now bytes.now (Err e)) }
{
    if !version.has_header() {
        return Ok(0);
    }
    header_end(policy, version, bytes)
}

/// Where the policy's header in this version ends, with which the bytes have to begin.
#[tactic(auto, using(crate::proofs::Header_call::other_header))]
pub fn header_end(policy: &Policy, version: AuditVersion, bytes: &[u8]) -> Result<usize, AuditFault>
    requires version { version_of bytes.now ≡ version }
    ensures within { IfOk result (λ end. end ≤ length bytes.now) }
    ensures headed { OnOk result (IsTrue (has_header version)) }
    ensures front { IfOk result (λ end.
        front_of version policy.now ++ drop end bytes.now ≡ bytes.now) }
    ensures fault { IfErr result (λ e. IsHeaderFault policy.now bytes.now e) }
{
    if bytes.len() < RECORD_SIZE {
        return Err(AuditFault::Truncated);
    }
    if same_bytes(&record_at(bytes, 0), &write_header_in(version, policy)) {
        Ok(RECORD_SIZE)
    } else {
        Err(AuditFault::OtherPolicy)
    }
}

/// Whether the fault is that of another header.
fn tells_other_policy(fault: AuditFault) -> bool
    ensures other { IsTrue result → fault ≡ faults.OtherPolicy }
    ensures same { IsFalse result → fault ≢ faults.OtherPolicy }
{
    matches!(fault, AuditFault::OtherPolicy)
}

/// Whether the audit has a whole header, which is not the policy's.
#[tactic(auto, using(crate::proofs::Header_call::no_header, crate::proofs::Header_call::no_other_header, crate::proofs::Header_call::header_told, crate::proofs::Header_call::header_not_told))]
pub fn is_of_other_policy(policy: &Policy, bytes: &[u8]) -> bool
    ensures other { IsTrue result → HasOtherHeader policy.now bytes.now }
    ensures same { IsFalse result → ¬ (HasOtherHeader policy.now bytes.now) }
{
    let version = AuditVersion::of(bytes);
    if !version.has_header() {
        return false;
    }
    match header_end(policy, version, bytes) {
        Ok(_) => false,
        Err(fault) => tells_other_policy(fault),
    }
}

/// Checks the records from this place on, on a gate of its own.
#[tactic(auto, using(crate::proofs::Audit_walk::answer_under))]
fn check_behind<G: AccessGate>(
    alloc: Global,
    policy: &Policy,
    version: AuditVersion,
    bytes: &[u8],
    start: usize,
) -> Result<u64, AuditFault>
    requires version { version_of bytes.now ≡ version }
    requires within { start ≤ length bytes.now }
    requires front { front_of version policy.now ++ drop start bytes.now ≡ bytes.now }
    ensures { IsAnswer policy.now bytes.now result }
{
    let Ok(mut gate) = G::open(alloc, policy) else {
        return Err(AuditFault::OutOfMemory);
    };
    let answer = check_records(&mut gate, version, bytes, start);
    gate.close();
    answer
}

/// Makes the steps of the records from this place on, on a new gate: how many records there are, or the first fault.
#[tactic(auto, using(crate::proofs::Audit_walk::answer_of_records, crate::proofs::Audit_walk::left_told, crate::proofs::Audit_walk::all_legal))]
fn check_records<G: AccessGate>(
    gate: &mut G,
    version: AuditVersion,
    bytes: &[u8],
    start: usize,
) -> Result<u64, AuditFault>
    requires new { (G.state gate.old).records ≡ [] }
    requires version { version_of bytes.now ≡ version }
    requires within { start ≤ length bytes.now }
    requires front { front_of version (G.state gate.old).policy ++ drop start bytes.now
        ≡ bytes.now }
    ensures { IsAnswer (G.state gate.old).policy bytes.now result }
{
    match follow_records(gate, version, bytes, start) {
        Ok(end) if end < bytes.len() => Err(AuditFault::Truncated),
        Ok(_) => Ok(gate.length()),
        Err(fault) => Err(fault),
    }
}

/// Makes the steps of the whole records from this place on, on a new gate. Answers where they end.
pub(crate) fn follow_records<G: AccessGate>(
    gate: &mut G,
    version: AuditVersion,
    bytes: &[u8],
    start: usize,
) -> Result<usize, AuditFault>
    requires new { (G.state gate.old).records ≡ [] }
    requires version { version_of bytes.now ≡ version }
    requires within { start ≤ length bytes.now }
    requires front { front_of version (G.state gate.old).policy ++ drop start bytes.now
        ≡ bytes.now }
    ensures policy { (G.state gate.new).policy ≡ (G.state gate.old).policy }
    ensures legal { OnOk result (IsLegal (G.state gate.old).policy (G.state gate.new).records) }
    ensures whole { IfOk result (λ end.
        EndsAt version (G.state gate.old).policy bytes.now (G.state gate.new).records end) }
    ensures fault { IfErr result (λ e. IsRecordsFault (G.state gate.old).policy bytes.now e) }
{
    let mut at = start;
    while bytes.len() - at >= RECORD_SIZE {
        match check_record(gate, version, &record_at(bytes, at)) {
            Ok(()) => at += RECORD_SIZE,
            Err(fault) => return Err(fault),
        }
    }
    // that its records are those of a legal day
    gate.is_legal();
    Ok(at)
}

/// The bytes from this place on.
#[tactic(auto, using(crate::proofs::Rest_bounds::take_the_rest, crate::proofs::Rest_bounds::rest_size))]
fn behind(bytes: &[u8], at: usize) -> &[u8]
    requires { at ≤ length bytes.now }
    ensures rest { result.now ≡ drop at bytes.now }
    ensures len { length result.now ≡ length bytes.now - at }
{
    &bytes[at..]
}

/// The bytes of the record that begins here.
pub fn record_at(bytes: &[u8], at: usize) -> [u8; RECORD_SIZE]
    requires { at + RECORD_SIZE ≤ length bytes.now }
    ensures { result ≡ take RECORD_SIZE (drop at bytes.now) }
{
    let left = behind(bytes, at);
    whole(&left[..RECORD_SIZE])
}

/// Checks that these bytes are the gate's next record in this version, by making its step.
///
/// After `IllegalVerdict` the gate has the record that the step left, if it left one.
pub fn check_record<G: AccessGate>(
    gate: &mut G,
    version: AuditVersion,
    bytes: &[u8; RECORD_SIZE],
) -> Result<(), AuditFault>
    ensures policy { (G.state gate.new).policy ≡ (G.state gate.old).policy }
    ensures legal { IsLegal (G.state gate.old).policy (G.state gate.old).records }
    ensures ok { OnOk result
        (IsOneMore version (G.state gate.old).records (G.state gate.new).records bytes.now) }
    ensures len { OnOk result (length (G.state gate.new).records
        ≡ length (G.state gate.old).records + 1) }
    ensures fault { IfErr result (λ e.
        IsRecordFault version (G.state gate.old).policy (G.state gate.old).records bytes.now e) }
{
    check_watched(gate, &mut NoWatch, version, bytes)
}

/// Checks that these bytes are the gate's next record in this version, as [`check_record`] does, while the watcher looks on.
#[tactic(auto, using(gx_audit_bytes::proofs::Verdict_read::shown_names_rule))]
pub fn check_watched<G: AccessGate, W: Watches<G>>(
    gate: &mut G,
    watcher: &mut W,
    version: AuditVersion,
    bytes: &[u8; RECORD_SIZE],
) -> Result<(), AuditFault>
    requires saw { W.saw watcher.old (G.state gate.old).policy (G.state gate.old).records }
    ensures policy { (G.state gate.new).policy ≡ (G.state gate.old).policy }
    ensures legal { IsLegal (G.state gate.old).policy (G.state gate.old).records }
    ensures ok { OnOk result
        (IsOneMore version (G.state gate.old).records (G.state gate.new).records bytes.now) }
    ensures len { OnOk result (length (G.state gate.new).records
        ≡ length (G.state gate.old).records + 1) }
    ensures saw { OnOk result
        (W.saw watcher.new (G.state gate.new).policy (G.state gate.new).records) }
    ensures asked { W.asked watcher.new ≡ W.asked watcher.old }
    ensures fault { IfErr result (λ e.
        IsRecordFault version (G.state gate.old).policy (G.state gate.old).records bytes.now e) }
{
    // that the records so far are those of a legal day
    gate.is_legal();
    let number = gate.length() + 1;
    let Some(record) = read_record_in(version, bytes) else {
        return Err(AuditFault::BadRecord(number));
    };
    let shown = record.content();
    if shown.number != number {
        return Err(AuditFault::BadRecord(number));
    }
    follow_watched(gate, watcher, version, number, &shown, bytes)
}

/// Makes the step of the record that these bytes show, as [`follow`] does, while the watcher looks on.
#[tactic(auto, using(crate::proofs::Watcher_call::stands_last, crate::proofs::Watcher_call::is_expected))]
fn follow_watched<G: AccessGate, W: Watches<G>>(
    gate: &mut G,
    watcher: &mut W,
    version: AuditVersion,
    number: u64,
    shown: &RecordData,
    bytes: &[u8; RECORD_SIZE],
) -> Result<(), AuditFault>
    requires saw { W.saw watcher.old (G.state gate.old).policy (G.state gate.old).records }
    requires number { number ≡ length (G.state gate.old).records + 1 }
    requires numbered { shown.now.number ≡ number }
    requires shows { record_of version bytes.now ≡ Some shown.now }
    requires bytes { record_bytes version shown.now ≡ bytes.now }
    requires read_back { IsRecordShown version shown.now }
    requires named { IsTrue (shows_rule shown.now.verdict) }
    requires askable { IsAskableStep shown.now.step }
    ensures policy { (G.state gate.new).policy ≡ (G.state gate.old).policy }
    ensures ok { OnOk result
        (IsOneMore version (G.state gate.old).records (G.state gate.new).records bytes.now) }
    ensures len { OnOk result (length (G.state gate.new).records
        ≡ length (G.state gate.old).records + 1) }
    ensures saw { OnOk result
        (W.saw watcher.new (G.state gate.new).policy (G.state gate.new).records) }
    ensures asked { W.asked watcher.new ≡ W.asked watcher.old }
    ensures fault { IfErr result (λ e.
        IsRecordFault version (G.state gate.old).policy (G.state gate.old).records bytes.now e) }
{
    let Ok(()) = watcher.before(gate, shown) else {
        return Err(AuditFault::OutOfMemory);
    };
    follow(gate, version, number, shown, bytes)?;
    let Ok(()) = watcher.after(gate, shown) else {
        return Err(AuditFault::OutOfMemory);
    };
    Ok(())
}

/// Makes the step of the record that these bytes show, and checks that it leaves this record.
fn follow<G: AccessGate>(
    gate: &mut G,
    version: AuditVersion,
    number: u64,
    shown: &RecordData,
    bytes: &[u8; RECORD_SIZE],
) -> Result<(), AuditFault>
    requires number { number ≡ length (G.state gate.old).records + 1 }
    requires numbered { shown.now.number ≡ number }
    requires shows { record_of version bytes.now ≡ Some shown.now }
    requires bytes { record_bytes version shown.now ≡ bytes.now }
    requires read_back { IsRecordShown version shown.now }
    requires named { IsTrue (shows_rule shown.now.verdict) }
    requires askable { IsAskableStep shown.now.step }
    ensures policy { (G.state gate.new).policy ≡ (G.state gate.old).policy }
    ensures ok { OnOk result
        (IsOneMore version (G.state gate.old).records (G.state gate.new).records bytes.now) }
    ensures len { OnOk result (length (G.state gate.new).records
        ≡ length (G.state gate.old).records + 1) }
    ensures fault { IfErr result (λ e.
        IsRecordFault version (G.state gate.old).policy (G.state gate.old).records bytes.now e) }
{
    match made(gate, shown.step) {
        Ok(Some(outcome)) => {
            if has_outcome(shown, &outcome) {
                Ok(())
            } else {
                Err(AuditFault::IllegalVerdict(number))
            }
        }
        Ok(None) | Err(StepFault::DayFull) => Err(AuditFault::IllegalVerdict(number)),
        Err(StepFault::OutOfMemory) => Err(AuditFault::OutOfMemory),
    }
}

/// Makes the step: what came of it, if it leaves a record. `DayFull` where no record of this step follows.
#[tactic(auto, using(crate::proofs::FullDay_bounds::none_asked, crate::proofs::FullDay_bounds::none_matched))]
fn made<G: AccessGate>(gate: &mut G, step: Step) -> Result<Option<Outcome>, StepFault>
    requires askable { IsAskableStep step }
    ensures policy { (G.state gate.new).policy ≡ (G.state gate.old).policy }
    ensures next { IfOk result (λ found. next
        (G.state gate.old).policy
        (G.state gate.old).records
        step ≡ option_map (record_left step) found) }
    ensures records { IfOk result (λ found. (G.state gate.new).records
        ≡ with_left (G.state gate.old).records (option_map (record_left step) found)) }
    ensures day_full { IfErr result (λ e. e ≡ stepping.DayFull
        → NoneFollows (G.state gate.old).policy (G.state gate.old).records step) }
{
    match step {
        Step::Asked(asked) => {
            let outcome = gate.step(asked)?;
            Ok(Some(outcome))
        }
        Step::Matching(handed) => gate.match_one(handed),
    }
}

/// Whether the record shows this outcome of its step.
#[tactic(auto, using(crate::proofs::Outcome_call::same_outcome))]
fn has_outcome(shown: &RecordData, outcome: &Outcome) -> bool
    requires { IsTrue (shows_rule shown.now.verdict) }
    ensures same { IsTrue result → record_left shown.now.step outcome.now ≡ shown.now }
    ensures other { IsFalse result → record_left shown.now.step outcome.now ≢ shown.now }
{
    shown.number == outcome.number
        && shown.moment == outcome.moment
        && shows_verdict(&shown.verdict, &outcome.verdict)
}
