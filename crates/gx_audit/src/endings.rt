//! What the Kills and Close Days of an audit ended.

ghost use Rattle.std.specs.Prelude.{[], IfOk, IsFalse, IsTrue};
ghost use Rattle.gx_audit.specs.Endings.{AreEndings, AreOrderEnds, IsFaulty, IsOfDay};

use crate::beginning::replay_watched;
use crate::fault::AuditFault;
use gx_endings::endings::{Ending, Endings};
use gx_endings::order_ends::{OrderEnd, OrderEnds};
use gx_policy::Policy;
use gx_records::{ShowsState, Watches};
use gx_units::OutOfMemory;
use std::alloc::Global;

/// Has the watcher look on at the whole records of the audit, which may be cut in its last one, on a gate of its own: whether
/// they are those of a legal day under the policy.
fn look_on<G: ShowsState, W: Watches<G>>(
    alloc: Global,
    policy: &Policy,
    audit: &[u8],
    watcher: &mut W,
) -> Result<bool, OutOfMemory>
    requires saw { W.saw watcher.old policy.now [] }
    ensures legal { IfOk result (λ legal. IsTrue legal
        → IsOfDay policy.now audit.now (λ records. W.saw watcher.new policy.now records)) }
    ensures faulty { IfOk result (λ legal. IsFalse legal → IsFaulty policy.now audit.now) }
{
    match replay_watched::<G, W>(alloc, policy, audit, u64::MAX, watcher) {
        Ok(gate) => {
            gate.close();
            Ok(true)
        }
        Err(AuditFault::OutOfMemory) => Err(OutOfMemory),
        Err(_) => Ok(false),
    }
}

/// What each granted Kill and Close Day of an audit ended, in their order: none where the audit is not that of a legal day
/// under the policy, since nothing is known then. The audit may be cut in its last record. The steps are made again on a
/// gate of its own, a `G`.
///
/// # Errors
///
/// `OutOfMemory` where memory was refused.
pub fn endings_of<G: ShowsState>(
    alloc: Global,
    policy: &Policy,
    audit: &[u8],
) -> Result<Vec<Ending>, OutOfMemory>
    ensures endings { IfOk result (λ found. AreEndings policy.now audit.now found.items) }
{
    let mut watch = Endings::new(alloc);
    if look_on::<G, Endings>(alloc, policy, audit, &mut watch)? {
        Ok(watch.list)
    } else {
        Ok(Vec::new(alloc))
    }
}

/// Each order that was live when a granted Kill or Close Day of an audit ended it, in their order, as of [`endings_of`].
///
/// # Errors
///
/// `OutOfMemory` where memory was refused.
pub fn order_ends_of<G: ShowsState>(
    alloc: Global,
    policy: &Policy,
    audit: &[u8],
) -> Result<Vec<OrderEnd>, OutOfMemory>
    ensures ends { IfOk result (λ found. AreOrderEnds policy.now audit.now found.items) }
{
    let mut watch = OrderEnds::new(alloc);
    if look_on::<G, OrderEnds>(alloc, policy, audit, &mut watch)? {
        Ok(watch.list)
    } else {
        Ok(Vec::new(alloc))
    }
}
