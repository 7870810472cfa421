//! The whole file.

ghost use Rattle.std.specs.Prelude.{◌≡◌, ◌≢◌, false, Ok, Err, OnOk, IfOk, IfErr, IsOk, IsTrue, map};
ghost use Rattle.toml.specs.View.{table_view};
ghost use Rattle.gx_policy.specs.Soundness.{is_sound};
ghost use Rattle.gx_policyvalues.specs.{declared.fault.FaultKind.TheVariants.OutOfMemory, Field.{Gives, is_memory}};
ghost use Rattle.gx_policyfile.specs.Policies.{of_entries, of_places, policy, means, version_of};

use crate::account::accounts;
use crate::rule::rules;
use crate::stock::stocks;
use crate::user::users;
use crate::version::{FileVersion, lifters, number, top_keys, version};
use gx_policy::{Accounts, FileRules, Lifters, Policy, PolicyData, Stocks, Users};
use gx_policyvalues::{Letters, PolicyFault, field, tables_at, tree};
use gx_units::SessionName;
use std::alloc::Global;
use toml::Table;

/// What the keys at the top of the file say.
#[derive(Clone, Copy)]
struct Heading {
    version: FileVersion,
    session: SessionName,
    lifters: Lifters,
}

/// What the entries of the four places say, behind the heading.
fn of_entries(
    alloc: Global,
    heading: Heading,
    account_tables: &[&Table],
    stock_tables: &[&Table],
    user_tables: &[&Table],
    rule_tables: &[&Table],
) -> Result<PolicyData, PolicyFault>
    ensures { Gives (λ p. p) result
        (of_entries heading.version heading.session.bytes heading.lifters
        (map (λ t. table_view t.now) account_tables.now)
        (map (λ t. table_view t.now) stock_tables.now)
        (map (λ t. table_view t.now) user_tables.now)
        (map (λ t. table_view t.now) rule_tables.now)) }
{
    let version = heading.version;
    let accounts = accounts(alloc, version, account_tables)?;
    let stocks = stocks(alloc, version, stock_tables)?;
    let users = users(alloc, version, &accounts, user_tables)?;
    let rules = rules(alloc, version, &accounts, &stocks, rule_tables)?;
    Ok(PolicyData {
        session: heading.session,
        lifters: heading.lifters,
        accounts: Accounts::new(accounts),
        stocks: Stocks::new(stocks),
        users: Users::new(users),
        rules: FileRules::new(rules),
    })
}

/// What the four places say, behind the heading.
fn of_places(alloc: Global, heading: Heading, top: &Table) -> Result<PolicyData, PolicyFault>
    ensures { Gives (λ p. p) result
        (of_places heading.version heading.session.bytes heading.lifters (table_view top.now)) }
{
    let accounts = tables_at(alloc, top, "account")?;
    let stocks = tables_at(alloc, top, "stock")?;
    let users = tables_at(alloc, top, "user")?;
    let rules = tables_at(alloc, top, "rule")?;
    of_entries(alloc, heading, &accounts, &stocks, &users, &rules)
}

#[tactic(auto, unfolding(crate::specs::Policies::policy))]
fn policy(alloc: Global, top: &Table) -> Result<PolicyData, PolicyFault>
    ensures { Gives (λ p. p) result (policy (table_view top.now)) }
{
    let version = version(top);
    field::only_keys(top, top_keys(version))?;
    let _number = number(top)?;
    let session = field::field_at(top, "session", Letters::Visible)?;
    let heading = Heading {
        version,
        session: SessionName { bytes: session },
        lifters: lifters(version, top)?,
    };
    of_places(alloc, heading, top)
}

/// The policy that the bytes of a file mean, or their first fault.
#[tactic(auto, unfolding(crate::specs::Policies::means), using(crate::proofs::Policy_answered::not_memory))]
pub fn read_policy(alloc: Global, bytes: &[u8]) -> Result<Policy, PolicyFault>
    ensures policy { IfOk result (λ p. means bytes.now ≡ Ok p) }
    ensures sound { IfOk result (λ p. IsTrue (is_sound p)) }
    ensures fault { IfErr result (λ e. e.kind ≢ OutOfMemory → means bytes.now ≡ Err e.kind) }
{
    let top = tree(alloc, bytes)?;
    match policy(alloc, &top) {
        Ok(read) => Ok(Policy::new(read)),
        Err(fault) => Err(fault.with_value(alloc, &top)),
    }
}

/// Whether the file is a policy, or its first fault.
pub fn accepted(alloc: Global, top: &Table) -> Result<(), PolicyFault>
    ensures ok { OnOk result (IsOk (policy (table_view top.now))) }
    ensures fault { IfErr result (λ e. is_memory e.kind ≡ false
        → policy (table_view top.now) ≡ Err e.kind) }
{
    match policy(alloc, top) {
        Ok(_) => Ok(()),
        Err(fault) => Err(fault.with_value(alloc, top)),
    }
}

/// The version of a file that means a policy, or the file's first fault.
#[tactic(auto, unfolding(crate::specs::Policies::means, crate::specs::Policies::version_of), using(crate::proofs::Policy_answered::not_memory))]
pub fn read_version(alloc: Global, bytes: &[u8]) -> Result<u64, PolicyFault>
    ensures version { IfOk result (λ n. version_of bytes.now ≡ Ok n) }
    ensures policy { OnOk result (IsOk (means bytes.now)) }
    ensures fault { IfErr result (λ e. e.kind ≢ OutOfMemory → means bytes.now ≡ Err e.kind) }
{
    let top = tree(alloc, bytes)?;
    accepted(alloc, &top)?;
    number(&top)
}
