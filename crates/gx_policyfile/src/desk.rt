//! A policy file without its users: for whoever is to know what the policy has, and no password.

ghost use Rattle.std.specs.Prelude.{◌≡◌, ◌≢◌, Err, IfOk, IfErr, IsOk, IsTrue};
ghost use Rattle.toml.specs.View.{table_view};
ghost use Rattle.gx_policyvalues.specs.declared.fault.FaultKind.TheVariants as faults;
ghost use Rattle.gx_policyfile.specs.{Policies.{policy, means}, Migrating.without_users};

use crate::migrating::{have_same_parts, lift_alike, number_of};
use crate::reading::accepted;
use crate::version::{lifters, version};
use gx_policytext::{find, printed};
use gx_policyvalues::{PolicyFault, tree};
use gx_units::OutOfMemory;
use std::alloc::Global;
use toml::Table;

/// Puts what a file has under a key, if it has anything there, into a table.
fn put_at(
    alloc: Global,
    kept: &mut Table,
    key: &'static str,
    top: &Table,
) -> Result<(), OutOfMemory> {
    let Some(value) = find(top, key) else {
        return Ok(());
    };
    let name = String::from_str(alloc, key)?;
    let copy = value.clone()?;
    kept.insert(name, copy)?;
    Ok(())
}

/// What a file says of the session, the accounts, the stocks and the rules.
fn kept_of(alloc: Global, top: &Table) -> Result<Table, OutOfMemory> {
    let mut kept = Table::new(alloc);
    for key in ["session", "account", "stock", "rule"] {
        put_at(alloc, &mut kept, key, top)?;
    }
    Ok(kept)
}

/// Whether the second file means the policy of the first without its users.
#[tactic(auto, using(crate::proofs::Files_same::policy_without_users))]
fn is_without_users(alloc: Global, top: &Table, read: &Table) -> bool
    ensures { IsTrue result → IsOk (policy (table_view top.now))
        → policy (table_view read.now) ≡ without_users (policy (table_view top.now)) }
{
    if !lift_alike(top, read) || !have_same_parts(alloc, top, read) {
        return false;
    }
    if find(read, "user").is_some() {
        return false;
    }
    match accepted(alloc, read) {
        Ok(()) => true,
        Err(_) => false,
    }
}

/// Whether the text means the policy of this file without its users.
#[tactic(auto, unfolding(crate::specs::Policies::means))]
fn reads_without_users(alloc: Global, top: &Table, text: &[u8]) -> bool
    ensures { IsTrue result → IsOk (policy (table_view top.now))
        → means text.now ≡ without_users (policy (table_view top.now)) }
{
    match tree(alloc, text) {
        Ok(read) => is_without_users(alloc, top, &read),
        Err(_) => false,
    }
}

/// The text of a file that means a policy without its users.
fn text_without_users(alloc: Global, top: &Table) -> Result<Vec<u8>, OutOfMemory> {
    let Ok(lifting) = lifters(version(top), top) else {
        return Err(OutOfMemory);
    };
    let kept = kept_of(alloc, top)?;
    let text = printed(alloc, number_of(lifting), &kept)?;
    Ok(text.into_bytes())
}

fn checked_text(alloc: Global, top: &Table) -> Result<Vec<u8>, PolicyFault>
    ensures policy { IfOk result (λ text. IsOk (policy (table_view top.now))
        → means text.items ≡ without_users (policy (table_view top.now))) }
    ensures err { IfErr result (λ e. e.kind ≡ faults.OutOfMemory) }
{
    let Ok(bytes) = text_without_users(alloc, top) else {
        return Err(PolicyFault::memory());
    };
    if reads_without_users(alloc, top, bytes.as_slice()) {
        Ok(bytes)
    } else {
        Err(PolicyFault::memory())
    }
}

/// A text of version 2 that means the policy of this file without its users, and so without a password, or the file's first
/// fault. It is read back before it is answered, as that of [`migrate`](crate::migrate) is.
#[tactic(auto, unfolding(crate::specs::Policies::means), using(crate::proofs::Policy_answered::not_memory))]
pub fn policy_for_desk(alloc: Global, bytes: &[u8]) -> Result<Vec<u8>, PolicyFault>
    ensures policy { IfOk result (λ text. means text.items ≡ without_users (means bytes.now)) }
    ensures fault { IfErr result (λ e.
        e.kind ≢ faults.OutOfMemory → means bytes.now ≡ Err e.kind) }
{
    let top = tree(alloc, bytes)?;
    accepted(alloc, &top)?;
    checked_text(alloc, &top)
}
