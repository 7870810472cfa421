//! A policy file as one of version 2.

ghost use Rattle.std.specs.Prelude.{codes, ◌≡◌, ◌≢◌, Ok, Err, OnOk, IfOk, IfErr, IsOk, IsTrue};
ghost use Rattle.toml.specs.View.{table_view};
ghost use Rattle.gx_policyvalues.specs.declared.fault.FaultKind.TheVariants.{OutOfMemory};
ghost use Rattle.gx_policyfile.specs.{Version.{version_number, version, lifters}, Policies.{policy, means, version_of}, Migrating.{say_the_same, lift_alike}};

use crate::reading::accepted;
use crate::version::{lifters, number, version};
use gx_policy::Lifters;
use gx_policytext::{is_same_at, printed};
use gx_policyvalues::{PolicyFault, tree};
use std::alloc::Global;
use toml::Table;

fn is_second(file: &Table) -> bool
    ensures { IsTrue result → version_number (table_view file.now) ≡ Ok 2 }
{
    match number(file) {
        Ok(number) => number == 2,
        Err(_) => false,
    }
}

fn are_equal(one: Lifters, other: Lifters) -> bool
    ensures { IsTrue result → one ≡ other }
{
    match one {
        Lifters::One => match other {
            Lifters::One => true,
            Lifters::Two => false,
        },
        Lifters::Two => match other {
            Lifters::One => false,
            Lifters::Two => true,
        },
    }
}

/// Whether as many officers have to lift in the one file as in the other.
pub(crate) fn lift_alike(one: &Table, other: &Table) -> bool
    ensures { IsTrue result → lift_alike (table_view one.now) (table_view other.now) }
{
    match lifters(version(one), one) {
        Ok(as_one) => match lifters(version(other), other) {
            Ok(as_other) => are_equal(as_one, as_other),
            Err(_) => false,
        },
        Err(_) => false,
    }
}

/// Whether the files say the same of the session, the accounts, the stocks and the rules.
pub(crate) fn have_same_parts(alloc: Global, one: &Table, other: &Table) -> bool
    ensures session { IsTrue result
        → say_the_same (codes "session") (table_view one.now) (table_view other.now) }
    ensures accounts { IsTrue result
        → say_the_same (codes "account") (table_view one.now) (table_view other.now) }
    ensures stocks { IsTrue result
        → say_the_same (codes "stock") (table_view one.now) (table_view other.now) }
    ensures rules { IsTrue result
        → say_the_same (codes "rule") (table_view one.now) (table_view other.now) }
{
    is_same_at(alloc, "session", one, other)
        && is_same_at(alloc, "account", one, other)
        && is_same_at(alloc, "stock", one, other)
        && is_same_at(alloc, "rule", one, other)
}

/// Whether the second file is one of version 2 that means the policy of the first.
#[tactic(auto, using(crate::proofs::Files_same::same_policy))]
fn is_migrated(alloc: Global, top: &Table, migrated: &Table) -> bool
    ensures version { IsTrue result → version_number (table_view migrated.now) ≡ Ok 2 }
    ensures policy { IsTrue result → IsOk (policy (table_view top.now))
        → policy (table_view migrated.now) ≡ policy (table_view top.now) }
{
    if !is_second(migrated) {
        return false;
    }
    if !lift_alike(top, migrated) || !have_same_parts(alloc, top, migrated) {
        return false;
    }
    if !is_same_at(alloc, "user", top, migrated) {
        return false;
    }
    match accepted(alloc, migrated) {
        Ok(()) => true,
        Err(_) => false,
    }
}

/// Whether the text is one of version 2 that means the policy of this file.
#[tactic(auto, unfolding(crate::specs::Policies::means, crate::specs::Policies::version_of))]
fn reads_as(alloc: Global, top: &Table, text: &[u8]) -> bool
    ensures version { IsTrue result → version_of text.now ≡ Ok 2 }
    ensures policy { IsTrue result → IsOk (policy (table_view top.now))
        → means text.now ≡ policy (table_view top.now) }
{
    match tree(alloc, text) {
        Ok(read) => is_migrated(alloc, top, &read),
        Err(_) => false,
    }
}

pub(crate) fn number_of(lifters: Lifters) -> i64 {
    match lifters {
        Lifters::One => 1,
        Lifters::Two => 2,
    }
}

/// The text of version 2 of a file that means a policy. What is printed is read back; if it did not mean the same,
/// the fault would be that of memory.
fn migrated(alloc: Global, top: &Table) -> Result<Vec<u8>, PolicyFault>
    ensures version { IfOk result (λ text. version_of text.items ≡ Ok 2) }
    ensures policy { IfOk result (λ text. IsOk (policy (table_view top.now))
        → means text.items ≡ policy (table_view top.now)) }
    ensures err { IfErr result (λ e. e.kind ≡ OutOfMemory) }
{
    let Ok(lifting) = lifters(version(top), top) else {
        return Err(PolicyFault::memory());
    };
    let Ok(text) = printed(alloc, number_of(lifting), top) else {
        return Err(PolicyFault::memory());
    };
    let bytes = text.into_bytes();
    if reads_as(alloc, top, bytes.as_slice()) {
        Ok(bytes)
    } else {
        Err(PolicyFault::memory())
    }
}

/// A text of version 2 that means the policy of this file, or the file's first fault. It has the keys in the format's
/// order, and none of the file's comments.
///
/// The text is read back before it is answered. A text that meant another policy would be answered by OutOfMemory;
/// that does not come, as the text says under each key what the file says.
#[tactic(auto, unfolding(crate::specs::Policies::means), using(crate::proofs::Policy_answered::not_memory))]
pub fn migrate(alloc: Global, bytes: &[u8]) -> Result<Vec<u8>, PolicyFault>
    ensures version { IfOk result (λ text. version_of text.items ≡ Ok 2) }
    ensures same { IfOk result (λ text. means text.items ≡ means bytes.now) }
    ensures policy { OnOk result (IsOk (means bytes.now)) }
    ensures fault { IfErr result (λ e. e.kind ≢ OutOfMemory → means bytes.now ≡ Err e.kind) }
{
    let top = tree(alloc, bytes)?;
    accepted(alloc, &top)?;
    migrated(alloc, &top)
}
