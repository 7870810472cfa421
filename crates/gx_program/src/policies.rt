//! The policy that a run stands under, and what is told of a policy file.

use crate::ending::{Failure, print};
use crate::files::{Content, bytes_of};
use gx_policy::Policy;
use gx_server::{desk_policy, migrated_policy, policy_for, told_of_policy};

/// The bytes of the policy file that was asked for, if one was.
pub fn policy_file<'a>(
    rt: &HostRuntime,
    path: Option<&'a str>,
) -> Result<Option<Vec<u8>>, Failure<'a>> {
    match path {
        Some(path) => Ok(Some(bytes_of(rt, path, Content::Policy)?)),
        None => Ok(None),
    }
}

/// The policy of the file that was asked for, if one was, or else the sample policy.
pub fn policy_of<'a>(rt: &HostRuntime, path: Option<&'a str>) -> Result<Policy, Failure<'a>> {
    let file = policy_file(rt, path)?;
    Ok(policy_for(rt.alloc(), file.as_deref())?)
}

/// Tells how much a policy file holds.
pub fn tell_policy<'a>(rt: &HostRuntime, path: &'a str) -> Result<(), Failure<'a>> {
    let bytes = bytes_of(rt, path, Content::Policy)?;
    let line = told_of_policy(rt.alloc(), bytes.as_slice())?;
    print(rt, line.as_slice())
}

/// Prints a policy file in the newest version.
pub fn print_migrated<'a>(rt: &HostRuntime, path: &'a str) -> Result<(), Failure<'a>> {
    let bytes = bytes_of(rt, path, Content::Policy)?;
    let text = migrated_policy(rt.alloc(), bytes.as_slice())?;
    print(rt, text.as_slice())
}

/// Prints a policy file without its users.
pub fn print_for_desk<'a>(rt: &HostRuntime, path: &'a str) -> Result<(), Failure<'a>> {
    let bytes = bytes_of(rt, path, Content::Policy)?;
    let text = desk_policy(rt.alloc(), bytes.as_slice())?;
    print(rt, text.as_slice())
}
