//! What the body tells, as JSON.

ghost use Rattle.std.specs.Prelude.{◌≡◌, ◌≢◌, bytes_eq, [], IfErr, IfOk, IsUtf8, None, Some, option_map};
ghost use Rattle.serde_json.specs.{Read.read, View.{items_view, view}};
ghost use Rattle.gx_page_reader.specs.States.{IsTold, row_account, accounts_behind, accounts_seen, accounts_told, row_amount, row_limit, limits_behind, limits_told, padded_field, row_rule, text_member, row_unit, unit_of};
ghost use Rattle.gx_page_reader.specs.declared.fault.PageFault.TheVariants as faults;

use crate::fault::PageFault;
use gx_terminal::{KnownLimit, LimitUnit};
use gx_units::{AccountName, OutOfMemory, RuleId, padded};
use serde_json::{Category, Value};
use std::alloc::Global;

/// What the page tells.
#[derive(Drop)]
pub struct PageState {
    /// The value that its body is.
    pub value: Value,
}

/// A name in its field.
fn padded_field<const N: usize>(text: &str) -> Option<[u8; N]>
    ensures { result ≡ padded_field N text.now }
{
    if text.is_empty() {
        return None;
    }
    padded(text.as_bytes())
}

/// The text of the member of this name.
fn text_member<'a>(row: &'a Value, key: &str) -> Option<&'a str>
    ensures { option_map (λ s. s.now) result ≡ text_member key.now (view row.now) }
{
    row.get(key)?.as_str()
}

/// The account that a row names.
fn row_account(row: &Value) -> Option<AccountName>
    ensures { result ≡ row_account (view row.now) }
{
    let bytes = padded_field(text_member(row, "account")?)?;
    Some(AccountName { bytes })
}

/// The accounts of these rows, one behind the other, where each names one.
fn accounts_in(alloc: Global, rows: &[Value]) -> Result<Option<Vec<AccountName>>, OutOfMemory>
    ensures { IfOk result
        (λ found. accounts_seen found ≡ accounts_behind [] (items_view rows.now)) }
{
    let mut names = Vec::new(alloc);
    for row in rows {
        let Some(name) = row_account(row) else {
            return Ok(None);
        };
        names.push(name)?;
    }
    Ok(Some(names))
}

fn is(text: &str, word: &[u8]) -> bool
    ensures { result ≡ bytes_eq text.now word.now }
{
    text.as_bytes() == word
}

/// What a limit is counted in, by the page's words.
fn unit_of(word: &str) -> Option<LimitUnit>
    ensures { result ≡ unit_of word.now }
{
    if is(word, b"shares") {
        return Some(LimitUnit::Shares);
    }
    if is(word, b"dollars/10000") {
        return Some(LimitUnit::Dollars);
    }
    if is(word, b"price/10000") {
        return Some(LimitUnit::Price);
    }
    None
}

fn row_rule(row: &Value) -> Option<[u8; 8]>
    ensures { result ≡ row_rule (view row.now) }
{
    padded_field(text_member(row, "rule")?)
}

fn row_unit(row: &Value) -> Option<LimitUnit>
    ensures { result ≡ row_unit (view row.now) }
{
    unit_of(text_member(row, "unit")?)
}

fn row_amount(row: &Value) -> Option<u64>
    ensures { result ≡ row_amount (view row.now) }
{
    row.get("limit")?.as_u64()
}

/// What is known of a rule's limit by its row.
fn row_limit(row: &Value) -> Option<KnownLimit>
    ensures { result ≡ row_limit (view row.now) }
{
    match (row_rule(row), row_unit(row), row_amount(row)) {
        (Some(bytes), Some(unit), Some(limit)) => Some(KnownLimit {
            rule: RuleId { bytes },
            unit,
            limit,
        }),
        _ => None,
    }
}

/// The limits that these rows tell, one behind the other.
fn limits_in(alloc: Global, rows: &[Value]) -> Result<Vec<KnownLimit>, OutOfMemory>
    ensures { IfOk result (λ limits. limits.items ≡ limits_behind [] (items_view rows.now)) }
{
    let mut limits = Vec::new(alloc);
    for row in rows {
        if let Some(limit) = row_limit(row) {
            limits.push(limit)?;
        }
    }
    Ok(limits)
}

impl PageState {
    /// What the body of a page's answer tells.
    ///
    /// # Errors
    ///
    /// `NoState` where the body is no JSON, and `OutOfMemory` where memory was refused.
    pub fn read(alloc: Global, body: &[u8]) -> Result<PageState, PageFault>
        ensures told { IfOk result (λ state. read body.now ≡ Some (view state.value)) }
        ensures kinds { IfErr result
            (λ fault. fault ≢ faults.OutOfMemory → fault ≡ faults.NoState) }
        ensures no_state { IfErr result
            (λ fault. fault ≡ faults.NoState → IsUtf8 body.now → read body.now ≡ None) }
    {
        match Value::from_slice(alloc, body) {
            Ok(value) => Ok(PageState { value }),
            Err(error) if error.classify() == Category::Memory => Err(PageFault::OutOfMemory),
            Err(_) => Err(PageFault::NoState),
        }
    }

    /// The accounts that the page shows, in its order.
    ///
    /// # Errors
    ///
    /// `NoState` where it has no list of accounts, or one that names none, and `OutOfMemory` where memory was refused.
    pub fn accounts(&self, alloc: Global) -> Result<Vec<AccountName>, PageFault>
        ensures { IsTold result (accounts_told (view self.now.value)) }
    {
        let Some(rows) = self.value.get("accounts") else {
            return Err(PageFault::NoState);
        };
        let Some(rows) = rows.as_array() else {
            return Err(PageFault::NoState);
        };
        match accounts_in(alloc, rows.as_slice()) {
            Ok(Some(names)) => Ok(names),
            Ok(None) => Err(PageFault::NoState),
            Err(OutOfMemory) => Err(PageFault::OutOfMemory),
        }
    }

    /// The limits that the page shows, in its order.
    ///
    /// # Errors
    ///
    /// `NoState` where it has no list of limits, and `OutOfMemory` where memory was refused.
    pub fn limits(&self, alloc: Global) -> Result<Vec<KnownLimit>, PageFault>
        ensures { IsTold result (limits_told (view self.now.value)) }
    {
        let Some(rows) = self.value.get("limits") else {
            return Err(PageFault::NoState);
        };
        let Some(rows) = rows.as_array() else {
            return Err(PageFault::NoState);
        };
        match limits_in(alloc, rows.as_slice()) {
            Ok(limits) => Ok(limits),
            Err(OutOfMemory) => Err(PageFault::OutOfMemory),
        }
    }
}
