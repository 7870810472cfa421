//! Names of accounts and stocks that the file has.

ghost use Rattle.std.specs.{Prelude.{◌≡◌, OnOk, IfErr, ok_or}, List.list_any};
ghost use Rattle.toml.specs.View.{view, table_view, items_view};
ghost use Rattle.gx_units.specs.Names.{same_account, same_stock};
ghost use Rattle.gx_policyvalues.specs.{declared.fault.FaultKind.TheVariants.{BadValue, OutOfMemory}, Field.{Gives, seen_result}};
ghost use Rattle.gx_policyfile.specs.Known.{is_account, is_stock, account_name, stock_name, with_account, with_stock, listed_accounts, listed_stocks, known_account, known_accounts, known_stocks, scope};

use gx_policy::{Account, AccountNames, Scope, Stock};
use gx_policytext::find;
use gx_policyvalues::{Allowed, FaultKind, Letters, PolicyFault, field};
use gx_units::{AccountName, Symbol};
use std::alloc::Global;
use toml::{Table, Value};

/// What the key `account` allows.
pub const AN_ACCOUNT: Allowed = Allowed::Words("the name of an account of this file");

/// What the key `accounts` allows.
const ACCOUNTS: Allowed = Allowed::Words("an array of names of accounts of this file");

/// What the key `stocks` allows.
pub const STOCKS: Allowed = Allowed::Words("an array of names of stocks of this file");

fn account_name(value: &Value) -> Option<AccountName>
    ensures { ok_or result BadValue ≡ account_name (view value.now) }
{
    match field::field(value, Letters::Plain) {
        Some(bytes) => Some(AccountName { bytes }),
        None => None,
    }
}

fn is_account(accounts: &[Account], name: &AccountName) -> bool
    ensures { result ≡ is_account accounts.now name.now }
{
    accounts.iter().any(|a| a.name == *name)
}

fn has_account(names: &[AccountName], name: &AccountName) -> bool
    ensures { result ≡ list_any (λ n. same_account n name.now) names.now }
{
    names.iter().any(|n| *n == *name)
}

/// An account of the file, under the key `account`.
///
/// # Errors
///
/// `BadValue` where it is no name, `UnknownName` where the file has no such account.
#[tactic(auto, unfolding(crate::specs::Known::known_account))]
pub fn known_account(accounts: &[Account], value: &Value) -> Result<AccountName, PolicyFault>
    ensures { seen_result (λ n. n) result ≡ known_account accounts.now (view value.now) }
{
    match account_name(value) {
        Some(name) => {
            if is_account(accounts, &name) {
                Ok(name)
            } else {
                Err(PolicyFault::at(FaultKind::UnknownName, "account", AN_ACCOUNT))
            }
        }
        None => Err(PolicyFault::at(FaultKind::BadValue, "account", AN_ACCOUNT)),
    }
}

#[tactic(auto, unfolding(crate::specs::Known::with_account))]
fn add_account(names: &mut Vec<AccountName>, name: AccountName) -> Result<(), PolicyFault>
    ensures ok { OnOk result (names.new.items ≡ with_account names.old.items name) }
    ensures err { IfErr result (λ e. e.kind ≡ OutOfMemory) }
{
    if !has_account(names, &name) {
        names.push(name)?;
    }
    Ok(())
}

fn account_list(
    alloc: Global,
    accounts: &[Account],
    values: &[Value],
) -> Result<Vec<AccountName>, PolicyFault>
    ensures { Gives (λ v. v.items) result (listed_accounts accounts.now (items_view values.now)) }
{
    let mut names = Vec::new(alloc);
    let mut all_known = true;
    for value in values {
        match account_name(value) {
            Some(name) => {
                if is_account(accounts, &name) {
                    add_account(&mut names, name)?;
                } else {
                    all_known = false;
                }
            }
            None => return Err(PolicyFault::at(FaultKind::BadValue, "accounts", ACCOUNTS)),
        }
    }
    if all_known {
        Ok(names)
    } else {
        Err(PolicyFault::at(FaultKind::UnknownName, "accounts", ACCOUNTS))
    }
}

/// An array of accounts of the file, each once, under the key `accounts`.
///
/// # Errors
///
/// The first fault of the value, or that memory was refused.
#[tactic(auto, unfolding(crate::specs::Known::known_accounts))]
pub fn known_accounts(
    alloc: Global,
    accounts: &[Account],
    value: &Value,
) -> Result<Vec<AccountName>, PolicyFault>
    ensures { Gives (λ v. v.items) result (known_accounts accounts.now (view value.now)) }
{
    match value.as_array() {
        Some(values) => account_list(alloc, accounts, values.as_slice()),
        None => Err(PolicyFault::at(FaultKind::BadValue, "accounts", ACCOUNTS)),
    }
}

/// The accounts that an entry is for.
///
/// # Errors
///
/// The first fault of the key `accounts`, or that memory was refused.
#[tactic(auto, unfolding(crate::specs::Known::scope))]
pub fn scope(alloc: Global, accounts: &[Account], entry: &Table) -> Result<Scope, PolicyFault>
    ensures { Gives (λ s. s) result (scope accounts.now (table_view entry.now)) }
{
    match find(entry, "accounts") {
        Some(value) => {
            let names = known_accounts(alloc, accounts, value)?;
            Ok(Scope::Only(AccountNames::new(names)))
        }
        None => Ok(Scope::All),
    }
}

fn stock_name(value: &Value) -> Option<Symbol>
    ensures { ok_or result BadValue ≡ stock_name (view value.now) }
{
    match field::field(value, Letters::Visible) {
        Some(bytes) => Some(Symbol { bytes }),
        None => None,
    }
}

fn is_stock(stocks: &[Stock], name: &Symbol) -> bool
    ensures { result ≡ is_stock stocks.now name.now }
{
    stocks.iter().any(|s| s.name == *name)
}

fn has_stock(names: &[Symbol], name: &Symbol) -> bool
    ensures { result ≡ list_any (λ n. same_stock n name.now) names.now }
{
    names.iter().any(|n| *n == *name)
}

#[tactic(auto, unfolding(crate::specs::Known::with_stock))]
fn add_stock(names: &mut Vec<Symbol>, name: Symbol) -> Result<(), PolicyFault>
    ensures ok { OnOk result (names.new.items ≡ with_stock names.old.items name) }
    ensures err { IfErr result (λ e. e.kind ≡ OutOfMemory) }
{
    if !has_stock(names, &name) {
        names.push(name)?;
    }
    Ok(())
}

fn stock_list(alloc: Global, stocks: &[Stock], values: &[Value]) -> Result<Vec<Symbol>, PolicyFault>
    ensures { Gives (λ v. v.items) result (listed_stocks stocks.now (items_view values.now)) }
{
    let mut names = Vec::new(alloc);
    let mut all_known = true;
    for value in values {
        match stock_name(value) {
            Some(name) => {
                if is_stock(stocks, &name) {
                    add_stock(&mut names, name)?;
                } else {
                    all_known = false;
                }
            }
            None => return Err(PolicyFault::at(FaultKind::BadValue, "stocks", STOCKS)),
        }
    }
    if all_known {
        Ok(names)
    } else {
        Err(PolicyFault::at(FaultKind::UnknownName, "stocks", STOCKS))
    }
}

/// An array of stocks of the file, each once, under the key `stocks`.
///
/// # Errors
///
/// The first fault of the value, or that memory was refused.
#[tactic(auto, unfolding(crate::specs::Known::known_stocks))]
pub fn known_stocks(
    alloc: Global,
    stocks: &[Stock],
    value: &Value,
) -> Result<Vec<Symbol>, PolicyFault>
    ensures { Gives (λ v. v.items) result (known_stocks stocks.now (view value.now)) }
{
    match value.as_array() {
        Some(values) => stock_list(alloc, stocks, values.as_slice()),
        None => Err(PolicyFault::at(FaultKind::BadValue, "stocks", STOCKS)),
    }
}
