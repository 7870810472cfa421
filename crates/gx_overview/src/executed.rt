//! What each account has executed, by side: one pass over the records.

ghost use Rattle.std.specs.{Prelude.{◌≡◌, [], fold, map, nat_eq, IfOk, OnOk}, Map.lookup};
ghost use Rattle.gx_history.specs.Executions.{executions};
ghost use Rattle.gx_overview.specs.Executed.{executed_row, no_executions, row_filled, rows_after, rows_filled, with_fill, KnowOrders, NoteRecord};

use crate::owners::{Owner, Owners};
use gx_history::record::{Fill, Record, Step, Verdict};
use gx_history::records::Records;
use gx_people::People;
use gx_policy::{Account, Policy};
use gx_records::ShowsRecords;
use gx_units::{AccountName, OutOfMemory, value_of};
use std::alloc::Global;

/// What was executed.
///
/// A sum stops at 128 bits: a day's fills stay far below.
#[derive(Clone, Copy, PartialEq, Eq)]
pub struct ExecutedTotals {
    /// How many shares.
    pub shares: u128,
    /// At the prices of the fills, in ten-thousandths of a dollar.
    pub value: u128,
}

/// What an account has executed.
#[derive(Clone, Copy, PartialEq, Eq)]
pub struct ExecutedRow {
    /// The name of the account.
    pub account: AccountName,
    /// By its buys.
    pub bought: ExecutedTotals,
    /// By all that is no buy.
    pub sold: ExecutedTotals,
}

const NOTHING: ExecutedTotals = ExecutedTotals {
    shares: 0,
    value: 0,
};

impl ExecutedTotals {
    /// With one more fill.
    pub fn with_fill(self, fill: &Fill) -> ExecutedTotals
        ensures { result ≡ with_fill fill.now self }
    {
        ExecutedTotals {
            shares: self.shares.saturating_add(u128::from(fill.shares)),
            value: self.value.saturating_add(value_of(fill.shares, fill.price)),
        }
    }
}

impl ExecutedRow {
    fn note(&mut self, owner: Owner, fill: &Fill)
        ensures { self.new ≡ row_filled owner fill.now self.old }
    {
        if self.account != owner.account {
            return;
        }
        if owner.buys {
            self.bought = self.bought.with_fill(fill);
        } else {
            self.sold = self.sold.with_fill(fill);
        }
    }
}

fn note_side(rows: &mut [ExecutedRow], owner: Owner, fill: &Fill)
    ensures { rows.new ≡ map (row_filled owner fill.now) rows.old }
{
    for row in rows.iter_mut() {
        row.note(owner, fill);
    }
}

fn note_if_known(rows: &mut [ExecutedRow], owner: Option<Owner>, fill: &Fill)
    ensures { rows.new ≡ rows_filled fill.now rows.old owner }
{
    if let Some(owner) = owner {
        note_side(rows, owner, fill);
    }
}

fn note_fill(rows: &mut [ExecutedRow], owners: &Owners, fill: &Fill)
    ensures { rows.new ≡ rows_filled fill.now
        (rows_filled fill.now rows.old
        (lookup (nat_eq fill.now.taker) owners.now.by_number.entries))
        (lookup (nat_eq fill.now.maker) owners.now.by_number.entries) }
{
    note_if_known(rows, owners.numbered(fill.taker), fill);
    note_if_known(rows, owners.numbered(fill.maker), fill);
}

fn note_record(
    rows: &mut [ExecutedRow],
    owners: &mut Owners,
    policy: &Policy,
    people: &People,
    left: &Record,
) -> Result<(), OutOfMemory>
    requires people { people.now ≡ policy.now.users }
    ensures noted { OnOk result
        (NoteRecord policy.now left.now owners.old owners.new rows.old rows.new) }
{
    let shown = left.content();
    match (&shown.verdict, &shown.step) {
        (Verdict::Granted, Step::Asked(asked)) => owners.note(policy, people, &shown, asked),
        (Verdict::Filled(fill), _) => {
            note_fill(rows, owners, fill);
            Ok(())
        }
        _ => Ok(()),
    }
}

/// The same of each of these records, by who owns the orders in them.
fn note_each(
    rows: &mut [ExecutedRow],
    owners: &mut Owners,
    policy: &Policy,
    people: &People,
    records: &Records<'_>,
) -> Result<(), OutOfMemory>
    requires people { people.now ≡ policy.now.users }
    requires none { KnowOrders owners.old [] }
    ensures noted { OnOk result
        (rows.new ≡ fold rows_after rows.old (executions policy.now records.now)) }
{
    for place in 0..records.len() {
        note_record(rows, owners, policy, people, &records.at(place))?;
    }
    Ok(())
}

/// Notes the fills of these records in the rows of the accounts whose orders they are of.
fn note_records(
    alloc: Global,
    rows: &mut [ExecutedRow],
    policy: &Policy,
    records: &Records<'_>,
) -> Result<(), OutOfMemory>
    ensures noted { OnOk result
        (rows.new ≡ fold rows_after rows.old (executions policy.now records.now)) }
{
    let people = People::new(alloc, policy)?;
    let noted = note_each(rows, &mut Owners::new(alloc), policy, &people, records);
    people.release();
    noted
}

fn first_row(account: &Account) -> ExecutedRow
    ensures { result ≡ no_executions account.now }
{
    ExecutedRow {
        account: account.name,
        bought: NOTHING,
        sold: NOTHING,
    }
}

fn first_rows(alloc: Global, accounts: &[Account]) -> Result<Vec<ExecutedRow>, OutOfMemory>
    ensures { IfOk result (λ rows. rows.items ≡ map no_executions accounts.now) }
{
    let mut rows = Vec::new(alloc);
    for account in accounts {
        rows.push(first_row(account))?;
    }
    Ok(rows)
}

/// What each account of the policy has executed, in the file's order. It is one pass over the records, which keeps the owner
/// of each order.
///
/// # Errors
///
/// `OutOfMemory` where the rows or the owners were refused their memory.
pub fn executed_rows<G: ShowsRecords>(
    alloc: Global,
    gate: &G,
) -> Result<Vec<ExecutedRow>, OutOfMemory>
    ensures rows { IfOk result (λ rows. rows.items ≡ map
        (executed_row (G.state gate.now).policy (G.state gate.now).records)
        (G.state gate.now).policy.accounts) }
{
    let policy = gate.policy();
    let mut rows = first_rows(alloc, policy.accounts())?;
    note_records(alloc, &mut rows, policy, &gate.shown_records())?;
    Ok(rows)
}
