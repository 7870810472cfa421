//! The header of an audit of version 2 or 3.

ghost use Rattle.std.specs.Prelude.{◌≡◌, ℕ, List, ◌++◌, length};
ghost use Rattle.gx_ouch.specs.Layout.{LiesIn, with_fields};
ghost use Rattle.gx_history.specs.InForce.{lifters_asked};
ghost use Rattle.gx_audit_bytes.specs.declared.version.AuditVersion.TheVariants as versions;
ghost use Rattle.gx_audit_bytes.specs.{Headers.{audit_header, dated_bytes, dated_contents, dated_header, header_bytes, header_contents, header_in, policy_shown, session_shown}, Versions.{version_of, DayFits}};

use crate::day::{AuditDay, minutes, sign};
use crate::draft::{RECORD_SIZE, RecordDraft, whole};
use crate::version::AuditVersion;
use gx_digest::policy_digest;
use gx_policy::{Lifters, Policy};

/// The mark of a header of version 2.
pub(crate) const MARK: [u8; 4] = *b"GXH2";

/// The mark of a header of version 3.
pub(crate) const DATED_MARK: [u8; 4] = *b"GXH3";

/// The header of an audit of version 2 under this policy: each part at its place. Takes no memory.
pub fn write_header(policy: &Policy) -> [u8; RECORD_SIZE]
    ensures bytes { result ≡ header_bytes policy.now }
    ensures fields { LiesIn audit_header (header_contents policy.now) result }
{
    whole(header_draft(policy).as_slice())
}

/// The header of an audit of version 3 under this policy and of this day: each part at its place. Takes no memory.
#[tactic(auto, using(crate::proofs::Header_parts::day_read))]
pub fn write_header_3(policy: &Policy, day: AuditDay) -> [u8; RECORD_SIZE]
    ensures bytes { result ≡ dated_bytes policy.now day }
    ensures fields { LiesIn dated_header (dated_contents policy.now day) result }
    ensures read_back { (behind : List ℕ)
        → version_of (result ++ behind) ≡ versions.Three day }
    ensures fits { DayFits (versions.Three day) }
{
    whole(dated_draft(policy, day).as_slice())
}

/// The header of an audit of this version under this policy; in version 1, which has none, that of version 2. Takes no
/// memory.
pub fn write_header_in(version: AuditVersion, policy: &Policy) -> [u8; RECORD_SIZE]
    ensures bytes { result ≡ header_in version policy.now }
    ensures fits { DayFits version }
{
    match version {
        AuditVersion::One | AuditVersion::Two => write_header(policy),
        AuditVersion::Three(day) => write_header_3(policy, day),
    }
}

#[tactic(auto, unfolding(crate::specs::Headers::header_bytes))]
fn header_draft(policy: &Policy) -> RecordDraft
    ensures bytes { result ≡ header_bytes policy.now }
    ensures len { length result ≡ 128 }
{
    let mut draft = policy_draft(MARK, policy);
    draft.put(&[0; 105]);
    draft
}

#[tactic(auto, unfolding(crate::specs::Headers::dated_bytes))]
fn dated_draft(policy: &Policy, day: AuditDay) -> RecordDraft
    ensures bytes { result ≡ dated_bytes policy.now day }
    ensures len { length result ≡ 128 }
    ensures fits { DayFits (versions.Three day) }
{
    let mut draft = policy_draft(DATED_MARK, policy);
    draft.put(&policy_digest(policy));
    draft.put(&day.date.to_be_bytes());
    draft.put(&[sign(day.offset)]);
    draft.put(&minutes(day.offset).to_be_bytes());
    draft.put(&[0; 66]);
    draft
}

/// The mark, and what each header says of the policy.
fn policy_draft(mark: [u8; 4], policy: &Policy) -> RecordDraft
    ensures bytes { result ≡ with_fields mark (policy_shown policy.now) }
    ensures len { length result ≡ 23 }
{
    let mut draft = RecordDraft::new();
    draft.put(&mark);
    draft.put(&session(policy));
    draft.put(&[lifters(policy.lifters())]);
    draft.put(&accounts(policy).to_be_bytes());
    draft.put(&stocks(policy).to_be_bytes());
    draft.put(&users(policy).to_be_bytes());
    draft.put(&rules(policy).to_be_bytes());
    draft
}

#[tactic(auto, using(crate::proofs::Fields_cut::take_session))]
fn session(policy: &Policy) -> [u8; 10]
    ensures { result ≡ session_shown policy.now }
{
    policy.session().bytes
}

fn lifters(asked: Lifters) -> u8
    ensures { result ≡ lifters_asked asked }
{
    match asked {
        Lifters::One => 1,
        Lifters::Two => 2,
    }
}

/// How many accounts there are. What a policy keeps is told with its rules.
#[tactic(auto, using(crate::proofs::Counts_bounds::accounts_fit))]
fn accounts(policy: &Policy) -> u16
    ensures { result ≡ length policy.now.accounts }
{
    policy.rules();
    policy.accounts().len() as u16
}

#[tactic(auto, using(crate::proofs::Counts_bounds::stocks_fit))]
fn stocks(policy: &Policy) -> u16
    ensures { result ≡ length policy.now.stocks }
{
    policy.rules();
    policy.stocks().len() as u16
}

#[tactic(auto, using(crate::proofs::Counts_bounds::users_fit))]
fn users(policy: &Policy) -> u16
    ensures { result ≡ length policy.now.users }
{
    policy.rules();
    policy.users().len() as u16
}

#[tactic(auto, using(crate::proofs::Counts_bounds::rules_fit))]
fn rules(policy: &Policy) -> u16
    ensures { result ≡ length policy.now.rules }
{
    policy.rules().len() as u16
}
