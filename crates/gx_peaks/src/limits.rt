//! The limits of the policy's file.

ghost use Rattle.std.specs.Prelude.{◌≡◌, []};
ghost use Rattle.gx_records.specs.State.{limit_in_force};

use gx_policy::Policy;
use gx_units::RuleId;

/// The limit of the rule of this name in the file, which is in force before all records.
#[tactic(auto, using(crate::proofs::Limit_kept::file_limit_is))]
pub fn file_limit(policy: &Policy, name: RuleId) -> Option<u64>
    ensures { result ≡ limit_in_force policy.now [] name }
{
    match policy.rule(name) {
        Some(rule) => rule.kind.limit(),
        None => None,
    }
}
