//! A record, written as bytes.

ghost use Rattle.std.specs.Prelude.{◌≡◌, ◌+◌, ◌≤◌, ◌++◌, ◌∷◌, Some, length, IsTrue};
ghost use Rattle.gx_ouch.specs.Layout.{LiesIn};
ghost use Rattle.gx_history.specs.{Requests.handed_moment, Showing.is_showable};
ghost use Rattle.gx_audit_bytes.specs.declared.version.AuditVersion.TheVariants as versions;
ghost use Rattle.gx_audit_bytes.specs.{Bodies.zero_padded, Reading.{record_of, shows_rule, IsRecordShown, NumbersFit, StepIsRead, VerdictIsRead}, Records.{audit_record, record_contents, record_bytes, user_shown, kind_shown, body_shown, verdict_letter, rule_shown, order_shown, maker_shown, shares_shown, price_shown, HasPlaces}, Versions.mark_of};

use crate::bodies::{request_body, request_kind};
use crate::draft::{RECORD_SIZE, RecordDraft, zero_padded};
use crate::version::AuditVersion;
use gx_history::record::{Record, RecordData, Step, Verdict};
use gx_policy::RuleName;
use gx_units::RuleId;

pub(crate) const NO_USER: [u8; 6] = *b"      ";

pub(crate) const NO_RULE: [u8; 8] = *b"        ";

/// The record as an audit of version 1 shows it: each part at its place. Takes no memory.
pub fn write_record(given: &Record) -> [u8; RECORD_SIZE]
    ensures bytes { result ≡ record_bytes versions.One given.now }
    ensures fields { LiesIn audit_record (record_contents versions.One given.now) result }
    ensures read_back { record_of versions.One result ≡ Some given.now }
    ensures shown { IsRecordShown versions.One given.now }
{
    write_record_in(AuditVersion::One, given)
}

/// The record as an audit of version 2 shows it: each part at its place. Takes no memory.
/// Part of the interface: `write_record_in`, which the program calls, for version 2 alone.
pub fn write_record_2(given: &Record) -> [u8; RECORD_SIZE]
    ensures bytes { result ≡ record_bytes versions.Two given.now }
    ensures fields { LiesIn audit_record (record_contents versions.Two given.now) result }
    ensures read_back { record_of versions.Two result ≡ Some given.now }
    ensures shown { IsRecordShown versions.Two given.now }
{
    write_record_in(AuditVersion::Two, given)
}

/// The record as an audit of this version shows it. Takes no memory.
pub fn write_record_in(version: AuditVersion, given: &Record) -> [u8; RECORD_SIZE]
    ensures bytes { result ≡ record_bytes version given.now }
    ensures fields { LiesIn audit_record (record_contents version given.now) result }
    ensures read_back { record_of version result ≡ Some given.now }
    ensures shown { IsRecordShown version given.now }
{
    write_content(version, &given.content())
}

/// What stands in a record, as the audit shows it.
#[tactic(auto, using(crate::proofs::Record_read::read_back, crate::proofs::Record_read::fields_lie, crate::proofs::Record_read::is_shown))]
pub(crate) fn write_content(version: AuditVersion, content: &RecordData) -> [u8; RECORD_SIZE]
    ensures bytes { result ≡ record_bytes version content.now }
    ensures fields { LiesIn audit_record (record_contents version content.now) result }
    ensures read_back { IsTrue (is_showable content.now)
        → record_of version result ≡ Some content.now }
    ensures shown { IsTrue (is_showable content.now) → IsRecordShown version content.now }
{
    record_draft(version, content).into_whole()
}

#[tactic(auto, unfolding(crate::specs::Records::record_bytes))]
fn record_draft(version: AuditVersion, content: &RecordData) -> RecordDraft
    ensures bytes { result ≡ record_bytes version content.now }
    ensures len { length result ≡ 128 }
    ensures places { HasPlaces version content.now }
    ensures fit { NumbersFit content.now }
    ensures step { StepIsRead content.now.step }
    ensures verdict { IsTrue (shows_rule content.now.verdict)
        → VerdictIsRead content.now.verdict }
{
    let mut draft = RecordDraft::new();
    draft.put(&mark(version));
    draft.put(&content.number.to_be_bytes());
    draft.put(&handed(&content.step).to_be_bytes());
    draft.put(&content.moment.to_be_bytes());
    draft.put(&content.step.line().to_be_bytes());
    draft.put(&user(&content.step));
    draft.put(&[kind(&content.step)]);
    put_body(&mut draft, &content.step);
    draft.put(&[letter(&content.verdict)]);
    draft.put(&rule(&content.verdict));
    draft.put(&order(&content.verdict).to_be_bytes());
    draft.put(&maker(&content.verdict).to_be_bytes());
    draft.put(&shares(&content.verdict).to_be_bytes());
    draft.put(&price(&content.verdict).to_be_bytes());
    draft
}

pub(crate) fn mark(version: AuditVersion) -> [u8; 4]
    ensures bytes { result ≡ 71 ∷ mark_of version }
    ensures len { length (mark_of version) ≡ 3 }
{
    match version {
        AuditVersion::One => *b"GXA1",
        AuditVersion::Two => *b"GXA2",
        AuditVersion::Three(_) => *b"GXA3",
    }
}

fn handed(step: &Step) -> u64
    ensures { result ≡ handed_moment step.now }
{
    match step {
        Step::Asked(asked) => asked.handed,
        Step::Matching(handed) => *handed,
    }
}

fn user(step: &Step) -> [u8; 6]
    ensures { result ≡ user_shown step.now }
{
    match step {
        Step::Asked(asked) => asked.user.bytes,
        Step::Matching(_) => NO_USER,
    }
}

fn kind(step: &Step) -> u8
    ensures { result ≡ kind_shown step.now }
{
    match step {
        Step::Asked(asked) => request_kind(&asked.request),
        Step::Matching(_) => b'4',
    }
}

/// Writes what the step shows in its body, with zero bytes up to the body's end.
#[tactic(auto, using(crate::proofs::Request_read::asked_read, crate::proofs::Request_read::matching_read))]
fn put_body(draft: &mut RecordDraft, step: &Step)
    requires { length draft.old + 58 ≤ RECORD_SIZE }
    ensures bytes { draft.new ≡ draft.old ++ zero_padded 58 (body_shown step.now) }
    ensures len { length draft.new ≡ length draft.old + 58 }
    ensures read { StepIsRead step.now }
{
    match step {
        Step::Asked(asked) => {
            draft.put(&zero_padded::<58>(request_body(&asked.request).as_slice()))
        }
        Step::Matching(_) => draft.put(&[0; 58]),
    }
}

fn letter(verdict: &Verdict) -> u8
    ensures { result ≡ verdict_letter verdict.now }
{
    match verdict {
        Verdict::Granted => b'G',
        Verdict::Denied(_) => b'D',
        Verdict::Filled(_) => b'F',
        Verdict::Rested(_) => b'R',
        Verdict::Expired(_) => b'E',
    }
}

#[tactic(auto, using(crate::proofs::Verdict_read::grant_read, crate::proofs::Verdict_read::denial_read, crate::proofs::Verdict_read::fill_read, crate::proofs::Verdict_read::rest_read, crate::proofs::Verdict_read::expiry_read))]
fn rule(verdict: &Verdict) -> [u8; 8]
    ensures bytes { result ≡ rule_shown verdict.now }
    ensures read { IsTrue (shows_rule verdict.now) → VerdictIsRead verdict.now }
{
    match verdict {
        Verdict::Denied(rule) => rule.id().bytes,
        _ => NO_RULE,
    }
}

fn order(verdict: &Verdict) -> u64
    ensures { result ≡ order_shown verdict.now }
{
    match verdict {
        Verdict::Filled(fill) => fill.taker,
        Verdict::Rested(order) | Verdict::Expired(order) => *order,
        _ => 0,
    }
}

fn maker(verdict: &Verdict) -> u64
    ensures { result ≡ maker_shown verdict.now }
{
    match verdict {
        Verdict::Filled(fill) => fill.maker,
        _ => 0,
    }
}

fn shares(verdict: &Verdict) -> u32
    ensures { result ≡ shares_shown verdict.now }
{
    match verdict {
        Verdict::Filled(fill) => fill.shares,
        _ => 0,
    }
}

fn price(verdict: &Verdict) -> u32
    ensures { result ≡ price_shown verdict.now }
{
    match verdict {
        Verdict::Filled(fill) => fill.price,
        _ => 0,
    }
}
