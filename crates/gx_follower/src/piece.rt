//! The bytes of an audit, taken one piece after the other.

ghost use Rattle.std.specs.Prelude.{◌≡◌, ◌+◌, ◌<◌, ◌^◌, ◌++◌, [], Err, Some, length, IfErr, IfOk, OnOk, IsTrue};
ghost use Rattle.gx_audit.specs.{Auditing.IsAnswer, Replaying.IsReplayFault, Resuming.Stands};
ghost use Rattle.gx_audit_bytes.specs.{Audits.{whole_audit, AreShown}, Versions.{has_header, version_of}};
ghost use Rattle.gx_follower.specs.Readings.{read_of, whole_of, HasBegun, IsKnown, IsReading, IsSettled, IsTold};

use arrayvec::ArrayVec;
use gx_access_gate::AccessGate;
use gx_audit::{AuditFault, check_watched, header_end, is_new};
use gx_audit_bytes::{AuditVersion, RECORD_SIZE, whole};
use gx_records::Watches;

/// The bytes of a record or a header that is not whole yet.
pub(crate) type Rest = ArrayVec<u8, 128>;

/// What stands of the bytes read, beside the records of which a gate knows.
#[derive(Drop)]
pub(crate) struct Reading {
    /// The version of the audit; `None` while fewer bytes were read than a header or a record has.
    pub(crate) version: Option<AuditVersion>,
    /// How many bytes the header and the whole records have.
    pub(crate) whole: u64,
    /// The bytes behind these.
    pub(crate) rest: Rest,
}

/// Takes the policy's header.
#[tactic(auto, using(crate::proofs::Audit_first::known_header, crate::proofs::Audit_first::header_whole, crate::proofs::Audit_first::told_of_header))]
fn begin_headed<G: AccessGate>(
    gate: &G,
    version: AuditVersion,
    block: &[u8; RECORD_SIZE],
) -> Result<(), AuditFault>
    requires new { (G.state gate.now).records ≡ [] }
    requires version { version_of block.now ≡ version }
    requires headed { IsTrue (has_header version) }
    ensures known { OnOk result
        (IsKnown version (G.state gate.now).policy (G.state gate.now).records) }
    ensures whole { OnOk result (whole_audit
        version (G.state gate.now).policy (G.state gate.now).records ≡ block.now) }
    ensures fault { IfErr result (λ e. IsTold (G.state gate.now).policy block.now e) }
{
    match header_end(gate.policy(), version, block) {
        Ok(_) => Ok(()),
        Err(fault) => Err(fault),
    }
}

/// Takes the next record.
#[tactic(auto, using(crate::proofs::Audit_next::known_on, crate::proofs::Audit_next::whole_on, crate::proofs::Audit_next::told_of_record))]
fn take_record<G: AccessGate, W: Watches<G>>(
    gate: &mut G,
    watcher: &mut W,
    version: AuditVersion,
    block: &[u8; RECORD_SIZE],
) -> Result<AuditVersion, AuditFault>
    requires shown { AreShown version (G.state gate.old).records }
    requires version { version_of
        (whole_audit version (G.state gate.old).policy (G.state gate.old).records ++ block.now)
        ≡ version }
    requires saw { W.saw watcher.old (G.state gate.old).policy (G.state gate.old).records }
    ensures policy { (G.state gate.new).policy ≡ (G.state gate.old).policy }
    ensures known { IfOk result
        (λ v. IsKnown v (G.state gate.new).policy (G.state gate.new).records) }
    ensures whole { IfOk result (λ v. whole_audit
        v (G.state gate.new).policy (G.state gate.new).records
        ≡ whole_audit version (G.state gate.old).policy (G.state gate.old).records
        ++ block.now) }
    ensures saw { OnOk result
        (W.saw watcher.new (G.state gate.new).policy (G.state gate.new).records) }
    ensures asked { W.asked watcher.new ≡ W.asked watcher.old }
    ensures fault { IfErr result (λ e. IsTold (G.state gate.old).policy
        (whole_audit version (G.state gate.old).policy (G.state gate.old).records
        ++ block.now) e) }
{
    match check_watched(gate, watcher, version, block) {
        Ok(()) => Ok(version),
        Err(fault) => Err(fault),
    }
}

/// Takes the first bytes, so many as a header or a record has: the version is the one that they show.
#[tactic(auto, using(crate::proofs::Audit_first::begins_bare, crate::proofs::Audit_first::none_whole, crate::proofs::Audit_first::told_at_first, gx_audit::proofs::Audit_walk::none_shown))]
fn begin<G: AccessGate, W: Watches<G>>(
    gate: &mut G,
    watcher: &mut W,
    block: &[u8; RECORD_SIZE],
) -> Result<AuditVersion, AuditFault>
    requires new { (G.state gate.old).records ≡ [] }
    requires saw { W.saw watcher.old (G.state gate.old).policy (G.state gate.old).records }
    ensures policy { (G.state gate.new).policy ≡ (G.state gate.old).policy }
    ensures known { IfOk result
        (λ v. IsKnown v (G.state gate.new).policy (G.state gate.new).records) }
    ensures whole { IfOk result (λ v. whole_audit
        v (G.state gate.new).policy (G.state gate.new).records ≡ block.now) }
    ensures saw { OnOk result
        (W.saw watcher.new (G.state gate.new).policy (G.state gate.new).records) }
    ensures asked { W.asked watcher.new ≡ W.asked watcher.old }
    ensures fault { IfErr result (λ e. IsTold (G.state gate.old).policy block.now e) }
{
    let version = AuditVersion::of(block);
    if version.has_header() {
        return match begin_headed(gate, version, block) {
            Ok(()) => Ok(version),
            Err(fault) => Err(fault),
        };
    }
    take_record(gate, watcher, version, block)
}

/// Takes the next bytes, so many as a header or a record has, behind those of the whole records.
fn take_block<G: AccessGate, W: Watches<G>>(
    gate: &mut G,
    watcher: &mut W,
    version: Option<AuditVersion>,
    block: &[u8; RECORD_SIZE],
) -> Result<AuditVersion, AuditFault>
    requires begun { HasBegun version (G.state gate.old) }
    requires saw { W.saw watcher.old (G.state gate.old).policy (G.state gate.old).records }
    ensures policy { (G.state gate.new).policy ≡ (G.state gate.old).policy }
    ensures known { IfOk result (λ v. HasBegun (Some v) (G.state gate.new)) }
    ensures whole { IfOk result (λ v. whole_of (Some v) (G.state gate.new)
        ≡ whole_of version (G.state gate.old) ++ block.now) }
    ensures saw { OnOk result
        (W.saw watcher.new (G.state gate.new).policy (G.state gate.new).records) }
    ensures asked { W.asked watcher.new ≡ W.asked watcher.old }
    ensures fault { IfErr result (λ e. IsTold (G.state gate.old).policy
        (whole_of version (G.state gate.old) ++ block.now) e) }
{
    match version {
        Some(known) => take_record(gate, watcher, known, block),
        None => begin(gate, watcher, block),
    }
}

/// Takes the rest, if it has become whole.
#[tactic(auto, using(crate::proofs::Reading_next::settled_on, crate::proofs::Reading_next::read_on, crate::proofs::Reading_next::told_on, crate::proofs::Reading_next::counts))]
fn settle<G: AccessGate, W: Watches<G>>(
    gate: &mut G,
    watcher: &mut W,
    reading: &mut Reading,
) -> Result<(), AuditFault>
    requires reading { IsReading reading.old (G.state gate.old) }
    requires saw { W.saw watcher.old (G.state gate.old).policy (G.state gate.old).records }
    ensures policy { (G.state gate.new).policy ≡ (G.state gate.old).policy }
    ensures settled { OnOk result (IsSettled reading.new (G.state gate.new)) }
    ensures read { OnOk result
        (read_of reading.new (G.state gate.new) ≡ read_of reading.old (G.state gate.old)) }
    ensures saw { OnOk result
        (W.saw watcher.new (G.state gate.new).policy (G.state gate.new).records) }
    ensures asked { W.asked watcher.new ≡ W.asked watcher.old }
    ensures fault { IfErr result (λ e. IsTold (G.state gate.old).policy
        (read_of reading.old (G.state gate.old)) e) }
{
    if !reading.rest.is_full() {
        return Ok(());
    }
    let block: [u8; RECORD_SIZE] = whole(reading.rest.as_slice());
    match take_block(gate, watcher, reading.version, &block) {
        Ok(version) => {
            reading.version = Some(version);
            reading.whole += RECORD_SIZE as u64;
            reading.rest.clear();
            Ok(())
        }
        Err(fault) => Err(fault),
    }
}

/// Puts as many of the bytes behind the rest as there is room for, and answers the others.
fn fill<'a>(rest: &mut Rest, bytes: &'a [u8]) -> &'a [u8]
    ensures bytes { rest.new.items ++ result.now ≡ rest.old.items ++ bytes.now }
    ensures fewer { length rest.old.items < 128 → 0 < length bytes.now
        → length result.now < length bytes.now }
{
    let count = rest.remaining_capacity().min(bytes.len());
    let (front, behind) = bytes.split_at(count);
    match rest.try_extend_from_slice(front) {
        Ok(()) => behind,
        Err(_) => unreachable!(),
    }
}

/// Takes these bytes, behind those that were read.
pub(crate) fn take_all<G: AccessGate, W: Watches<G>>(
    gate: &mut G,
    watcher: &mut W,
    reading: &mut Reading,
    bytes: &[u8],
) -> Result<(), AuditFault>
    requires settled { IsSettled reading.old (G.state gate.old) }
    requires room { length (read_of reading.old (G.state gate.old)) + length bytes.now < 2 ^ 64 }
    requires saw { W.saw watcher.old (G.state gate.old).policy (G.state gate.old).records }
    ensures policy { (G.state gate.new).policy ≡ (G.state gate.old).policy }
    ensures settled { OnOk result (IsSettled reading.new (G.state gate.new)) }
    ensures read { OnOk result (read_of reading.new (G.state gate.new)
        ≡ read_of reading.old (G.state gate.old) ++ bytes.now) }
    ensures saw { OnOk result
        (W.saw watcher.new (G.state gate.new).policy (G.state gate.new).records) }
    ensures asked { W.asked watcher.new ≡ W.asked watcher.old }
    ensures fault { IfErr result (λ e. IsAnswer (G.state gate.old).policy
        (read_of reading.old (G.state gate.old) ++ bytes.now) (Err e)) }
{
    let mut left = bytes;
    while !left.is_empty() {
        left = fill(&mut reading.rest, left);
        match settle(gate, watcher, reading) {
            Ok(()) => {}
            Err(fault) => return Err(fault),
        }
    }
    Ok(())
}

/// How many of the bytes stand: those of a journal that goes on, or none, where no day was begun in them.
#[tactic(auto, using(crate::proofs::Reading_stands::is_day, crate::proofs::Reading_stands::is_new_day, crate::proofs::Reading_stands::is_cut, crate::proofs::Reading_stands::is_bare))]
pub(crate) fn kept_of<G: AccessGate>(gate: &G, reading: &Reading) -> Result<u64, AuditFault>
    requires settled { IsSettled reading.now (G.state gate.now) }
    ensures stands { IfOk result (λ kept. Stands (G.state gate.now).policy
        (read_of reading.now (G.state gate.now)) (G.state gate.now).records kept) }
    ensures fault { IfErr result (λ e. IsReplayFault (G.state gate.now).policy
        (read_of reading.now (G.state gate.now)) e) }
{
    match reading.version {
        Some(version) => {
            if version.has_header() {
                Ok(reading.whole)
            } else {
                Err(AuditFault::OtherPolicy)
            }
        }
        None => {
            if is_new(gate.policy(), reading.rest.as_slice()) {
                Ok(0)
            } else {
                Err(AuditFault::Truncated)
            }
        }
    }
}
