//! The records that an audit shows.

ghost use Rattle.std.specs.Prelude.{◌≡◌, IfOk, OnOk, IsErrOf};
ghost use Rattle.gx_audit.specs.Auditing.{HasOtherHeader};
ghost use Rattle.gx_audit_bytes.specs.Versions.{version_of};
ghost use Rattle.gx_show.specs.declared.reading.FindingFault.TheVariants as faults;
ghost use Rattle.gx_show.specs.Reading.{behind_header, IsFound, IsRead};

use crate::choice::Choice;
use crate::choosing::chosen_records;
use gx_audit::{is_of_other_policy, record_at};
use gx_audit_bytes::{AuditVersion, RECORD_SIZE, read_record_in};
use gx_history::record::Record;
use gx_history::slices::past;
use gx_policy::Policy;
use gx_units::OutOfMemory;
use std::alloc::Global;

/// Records of an audit.
#[derive(Drop)]
pub struct AuditRecords {
    /// In their order.
    pub records: Vec<Record>,
    /// The number of the first record whose bytes are no record's: what stands from there on is not looked at.
    pub bad: Option<u64>,
}

/// Why no records of an audit are found.
#[derive(Clone, Copy, PartialEq, Eq)]
pub enum FindingFault {
    /// The audit has a whole header, which is not the policy's.
    OtherPolicy,
    /// A growth was refused.
    OutOfMemory,
}

impl From<OutOfMemory> for FindingFault {
    ghost from_gives = { λ _ e. e ≡ faults.OutOfMemory };

    fn from(_refused: OutOfMemory) -> FindingFault {
        FindingFault::OutOfMemory
    }
}

/// The records of an audit under a policy that are asked for, in their order: of all that the audit shows, up to the first
/// that is no record, none is left out, and none is there twice.
///
/// # Errors
///
/// `OtherPolicy` exactly where the audit's header is whole and not the policy's.
pub fn found_in_audit(
    alloc: Global,
    policy: &Policy,
    choice: &Choice,
    audit: &[u8],
) -> Result<AuditRecords, FindingFault>
    ensures found { IfOk result (λ f.
        IsFound policy.now choice.now audit.now f.records.items f.bad) }
    ensures other { IsErrOf result faults.OtherPolicy → HasOtherHeader policy.now audit.now }
    ensures same { OnOk result (¬ (HasOtherHeader policy.now audit.now)) }
{
    if is_of_other_policy(policy, audit) {
        return Err(FindingFault::OtherPolicy);
    }
    let read = read_records(alloc, audit)?;
    let records = chosen_records(alloc, policy, choice, read.records.as_slice())?;
    Ok(AuditRecords {
        records,
        bad: read.bad,
    })
}

/// The bytes behind the header, where there is one.
fn behind_header(version: AuditVersion, audit: &[u8]) -> &[u8]
    requires { version_of audit.now ≡ version }
    ensures { result.now ≡ behind_header audit.now }
{
    match version {
        AuditVersion::One => audit,
        AuditVersion::Two | AuditVersion::Three(_) => past(audit, RECORD_SIZE),
    }
}

/// The records that an audit shows, up to the first that is none.
///
/// # Errors
///
/// `OutOfMemory` where memory was refused.
pub fn read_records(alloc: Global, audit: &[u8]) -> Result<AuditRecords, OutOfMemory>
    ensures { IfOk result (λ read. IsRead audit.now read.records.items read.bad) }
{
    let version = AuditVersion::of(audit);
    let left = behind_header(version, audit);
    let mut records = Vec::new(alloc);
    let mut at = 0;
    while left.len() - at >= RECORD_SIZE {
        let Some(record) = read_record_in(version, &record_at(left, at)) else {
            let bad = Some(records.len() as u64 + 1);
            return Ok(AuditRecords { records, bad });
        };
        records.push(record)?;
        at += RECORD_SIZE;
    }
    Ok(AuditRecords { records, bad: None })
}
