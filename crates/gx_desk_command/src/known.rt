//! What a policy file tells a terminal: accounts, and the limits of rules.

use gx_policy::{ExposureLimit, KindName, OrderLimit, Policy};
use gx_program::{Failure, policy_of};
use gx_terminal::{KnownLimit, LimitUnit};
use gx_units::{AccountName, OutOfMemory};
use std::alloc::Global;

/// What is known before a run.
#[derive(Drop)]
pub(crate) struct KnownBefore {
    /// The accounts that `kill --all` kills, if they are known.
    pub accounts: Option<Vec<AccountName>>,
    /// The limits of rules; none where nothing is known of them.
    pub limits: Vec<KnownLimit>,
}

/// The names of the accounts.
fn names_of(alloc: Global, policy: &Policy) -> Result<Vec<AccountName>, OutOfMemory> {
    let mut names = Vec::new(alloc);
    for account in policy.accounts() {
        names.push(account.name)?;
    }
    Ok(names)
}

/// What the limit of a rule of this kind is counted in; none where Set Limit may not change it.
fn unit_of(kind: KindName) -> Option<LimitUnit> {
    match kind {
        KindName::Order(OrderLimit::Shares)
        | KindName::Exposure(ExposureLimit::GrossShares)
        | KindName::Exposure(ExposureLimit::NetShares) => Some(LimitUnit::Shares),
        KindName::Order(OrderLimit::Value) | KindName::Exposure(ExposureLimit::GrossValue) => {
            Some(LimitUnit::Dollars)
        }
        KindName::Order(OrderLimit::Collar) => Some(LimitUnit::Price),
        KindName::Listed(_) | KindName::Plain(_) | KindName::Rate | KindName::Repeat => None,
    }
}

/// The limits of the rules.
fn limits_of(alloc: Global, policy: &Policy) -> Result<Vec<KnownLimit>, OutOfMemory> {
    let mut limits = Vec::new(alloc);
    for rule in policy.rules() {
        if let (Some(unit), Some(limit)) = (unit_of(rule.kind.name()), rule.kind.limit()) {
            limits.push(KnownLimit {
                rule: rule.name,
                unit,
                limit,
            })?;
        }
    }
    Ok(limits)
}

/// What the policy tells that is named, if one is.
pub(crate) fn known_in_file<'a>(
    host: &HostRuntime,
    path: Option<&'a str>,
) -> Result<KnownBefore, Failure<'a>> {
    let alloc = host.alloc();
    if path.is_none() {
        return Ok(KnownBefore {
            accounts: None,
            limits: Vec::new(alloc),
        });
    }
    let policy = policy_of(host, path)?;
    Ok(KnownBefore {
        accounts: Some(names_of(alloc, &policy)?),
        limits: limits_of(alloc, &policy)?,
    })
}
