//! What another policy changes of an audit's day.

ghost use Rattle.std.specs.Prelude.{◌≡◌, IfErr, IfOk, Some};
ghost use Rattle.gx_whatif.specs.Answering.{IsComparison, IsWhatIf, IsWhatIfFault};

use crate::change::VerdictChange;
use crate::fault::WhatIfFault;
use crate::heading::{HeadingRow, heading_rows};
use crate::other_day::{MeansPolicy, OtherDay};
use gx_audit::{AuditFault, replay_watched};
use gx_policy::Policy;
use gx_records::{ShowsRecords, ShowsState};
use std::alloc::Global;
use std::marker::Brand;

/// What another policy changes of an audit's day.
#[derive(Drop)]
pub struct WhatIf {
    /// How many records the day has.
    pub records: u64,
    /// Each record whose verdict changes, in their order.
    pub changes: Vec<VerdictChange>,
    /// How many changes come under each heading.
    pub rows: Vec<HeadingRow>,
}

/// The records of a day, and the changes of them.
#[derive(Drop)]
struct Comparison {
    records: u64,
    changes: Vec<VerdictChange>,
}

/// What the other policy changes of the audit's day, a day under its own policy.
///
/// The audit, in any version, has to be that of a legal day under its policy; it may be cut in its last record. The step of
/// each record is made again on a gate of its own under the other policy, one after the other. A matching step that finds no
/// order waiting there has no verdict. Where no order waits after a record, none is left waiting under the other policy:
/// matching steps are made there until none does. Each order has the number of the record whose step it came of.
///
/// # Errors
///
/// What the check of the audit answers; and `DayFull` where the day under the other policy fills up.
pub fn what_if<G: ShowsRecords + ShowsState>(
    alloc: Global,
    policy: &Policy,
    audit: &[u8],
    other: &Policy,
) -> Result<WhatIf, WhatIfFault>
    ensures found { IfOk result (λ w. IsWhatIf
        policy.now other.now audit.now w.records w.changes.items w.rows.items) }
    ensures fault { IfErr result (λ e. IsWhatIfFault policy.now other.now audit.now e) }
{
    let found = compare::<G>(alloc, policy, audit, other)?;
    let Ok(rows) = heading_rows(alloc, policy, found.changes.as_slice()) else {
        return Err(WhatIfFault::Audit(AuditFault::OutOfMemory));
    };
    Ok(WhatIf {
        records: found.records,
        changes: found.changes,
        rows,
    })
}

/// The changes under the other policy.
fn compare<G: ShowsRecords + ShowsState>(
    alloc: Global,
    policy: &Policy,
    audit: &[u8],
    other: &Policy,
) -> Result<Comparison, WhatIfFault>
    ensures found { IfOk result (λ found. IsComparison
        policy.now other.now audit.now found.records found.changes.items) }
    ensures fault { IfErr result (λ e. IsWhatIfFault policy.now other.now audit.now e) }
{
    compare_under::<G, Brand>(alloc, policy, audit, other)
}

/// The changes under the policy that `N` means.
#[tactic(auto, using(crate::proofs::Watcher_next::made_legal))]
fn compare_under<G: ShowsRecords + ShowsState, N: MeansPolicy>(
    alloc: Global,
    policy: &Policy,
    audit: &[u8],
    other: &Policy,
) -> Result<Comparison, WhatIfFault>
    requires meant { N.meant ≡ Some other.now }
    ensures found { IfOk result (λ found. IsComparison
        policy.now other.now audit.now found.records found.changes.items) }
    ensures fault { IfErr result (λ e. IsWhatIfFault policy.now other.now audit.now e) }
{
    let Ok(mut watch) = OtherDay::<G, N>::open(alloc, other) else {
        return Err(WhatIfFault::Audit(AuditFault::OutOfMemory));
    };
    match replay_watched::<G, OtherDay<G, N>>(alloc, policy, audit, u64::MAX, &mut watch) {
        Ok(gate) => {
            let records = gate.length();
            gate.close();
            match watch.end() {
                Some(changes) => Ok(Comparison { records, changes }),
                None => Err(WhatIfFault::DayFull),
            }
        }
        Err(fault) => {
            watch.end();
            Err(WhatIfFault::Audit(fault))
        }
    }
}
