//! What each account asked for, and what became of its orders: one pass over the records.

ghost use Rattle.std.specs.{Prelude.{◌≡◌, map, nat_eq, IfOk, OnOk}, Map.lookup};
ghost use Rattle.gx_activity.specs.{Activity.{activity_row, idle}, Noting.{entries_done, entries_of_number, entries_told, requests_with, row_in, row_with, so_far, NoteDeeds}};
ghost use Rattle.gx_policy.specs.declared.policy.Account.{Account};

use crate::deeds::Deed;
use gx_history::record::{Fill, Record, Request, Step, Verdict};
use gx_history::records::Records;
use gx_overview::owners::Owners;
use gx_people::People;
use gx_policy::{Account, Policy};
use gx_records::ShowsRecords;
use gx_units::{AccountName, OutOfMemory, UserName};
use indexmap::IndexMap;
use std::alloc::Global;

/// How many requests of each kind there were.
#[derive(Clone, Copy, PartialEq, Eq)]
pub struct OrderRequests {
    /// How many asked for an Enter Order.
    pub enters: u64,
    /// How many asked for a Replace Order.
    pub replaces: u64,
    /// How many asked for a Cancel Order.
    pub cancels: u64,
}

/// What an account did.
#[derive(Clone, Copy, PartialEq, Eq)]
pub struct ActivityRow {
    /// The name of the account.
    pub account: AccountName,
    /// Those of its users that were granted.
    pub granted: OrderRequests,
    /// Those of its users that were denied.
    pub denied: OrderRequests,
    /// How many sides of fills its orders had: a fill between two of them counts twice.
    pub fills: u64,
    /// How many of its orders met nothing and came to rest.
    pub rested: u64,
    /// How many of its immediate-or-cancel orders met nothing and ended.
    pub expired: u64,
}

const NONE: OrderRequests = OrderRequests {
    enters: 0,
    replaces: 0,
    cancels: 0,
};

impl OrderRequests {
    fn with(self, request: &Request) -> OrderRequests
        ensures { result ≡ requests_with request.now self }
    {
        let mut counts = self;
        match request {
            Request::Enter(_) => counts.enters = counts.enters.saturating_add(1),
            Request::Replace(_) => counts.replaces = counts.replaces.saturating_add(1),
            Request::Cancel(_) => counts.cancels = counts.cancels.saturating_add(1),
            _ => (),
        }
        counts
    }
}

impl ActivityRow {
    /// Before any record.
    fn new(account: AccountName) -> ActivityRow
        ensures { result ≡ idle account }
    {
        ActivityRow {
            account,
            granted: NONE,
            denied: NONE,
            fills: 0,
            rested: 0,
            expired: 0,
        }
    }

    /// Counts what the row's account did.
    fn note(&mut self, deed: &Deed)
        ensures { self.new ≡ row_with deed.now self.old }
    {
        match deed {
            Deed::Granted(request) => self.granted = self.granted.with(request),
            Deed::Denied(request) => self.denied = self.denied.with(request),
            Deed::Filled => self.fills = self.fills.saturating_add(1),
            Deed::Rested => self.rested = self.rested.saturating_add(1),
            Deed::Expired => self.expired = self.expired.saturating_add(1),
        }
    }
}

/// The row of the account, that of one that did nothing where there is none.
fn row_in(table: &IndexMap<AccountName, ActivityRow>, account: AccountName) -> ActivityRow
    ensures { result ≡ row_in table.now.entries account }
{
    match table.get(&account) {
        Some(row) => *row,
        None => ActivityRow::new(account),
    }
}

fn note_account(
    table: &mut IndexMap<AccountName, ActivityRow>,
    account: AccountName,
    deed: &Deed,
) -> Result<(), OutOfMemory>
    ensures done { OnOk result
        (table.new.entries ≡ entries_done account deed.now table.old.entries) }
{
    let mut row = row_in(table, account);
    row.note(deed);
    table.insert(account, row)?;
    Ok(())
}

fn note_if_known(
    table: &mut IndexMap<AccountName, ActivityRow>,
    account: Option<AccountName>,
    deed: &Deed,
) -> Result<(), OutOfMemory>
    ensures done { OnOk result
        (table.new.entries ≡ entries_told table.old.entries account deed.now) }
{
    match account {
        Some(account) => note_account(table, account, deed),
        None => Ok(()),
    }
}

/// Notes what was done to the order of this number, in the row of its account.
fn note_order(
    table: &mut IndexMap<AccountName, ActivityRow>,
    owners: &Owners,
    number: u64,
    deed: &Deed,
) -> Result<(), OutOfMemory>
    ensures done { OnOk result (table.new.entries ≡ entries_of_number table.old.entries
        (lookup (nat_eq number) owners.now.by_number.entries) deed.now) }
{
    match owners.numbered(number) {
        Some(owner) => note_account(table, owner.account, deed),
        None => Ok(()),
    }
}

/// Notes both sides of a fill.
fn note_fill(
    table: &mut IndexMap<AccountName, ActivityRow>,
    owners: &Owners,
    fill: &Fill,
) -> Result<(), OutOfMemory>
    ensures done { OnOk result (table.new.entries ≡ entries_of_number
        (entries_of_number table.old.entries
        (lookup (nat_eq fill.now.taker) owners.now.by_number.entries) Deed.Filled)
        (lookup (nat_eq fill.now.maker) owners.now.by_number.entries) Deed.Filled) }
{
    note_order(table, owners, fill.taker, &Deed::Filled)?;
    note_order(table, owners, fill.maker, &Deed::Filled)
}

fn note_record(
    table: &mut IndexMap<AccountName, ActivityRow>,
    owners: &mut Owners,
    policy: &Policy,
    people: &People,
    left: &Record,
) -> Result<(), OutOfMemory>
    requires people { people.now ≡ policy.now.users }
    ensures noted { OnOk result (NoteDeeds policy.now left.now
        owners.old owners.new table.old.entries table.new.entries) }
{
    let shown = left.content();
    match (&shown.verdict, &shown.step) {
        (Verdict::Granted, Step::Asked(asked)) => {
            let account = people.account_of(asked.user);
            note_if_known(table, account, &Deed::Granted(asked.request))?;
            owners.note(policy, people, &shown, asked)
        }
        (Verdict::Denied(_), Step::Asked(asked)) => {
            let account = people.account_of(asked.user);
            note_if_known(table, account, &Deed::Denied(asked.request))
        }
        (Verdict::Filled(fill), _) => note_fill(table, owners, fill),
        (Verdict::Rested(number), _) => note_order(table, owners, *number, &Deed::Rested),
        (Verdict::Expired(number), _) => note_order(table, owners, *number, &Deed::Expired),
        _ => Ok(()),
    }
}

/// Notes what these records tell, in rows by their accounts: a record costs the same however many accounts there are.
fn note_records(
    alloc: Global,
    policy: &Policy,
    records: &Records<'_>,
) -> Result<IndexMap<AccountName, ActivityRow>, OutOfMemory>
    ensures noted { IfOk result (λ table. (a : Account)
        → row_in table.entries a.name ≡ so_far policy.now records.now a) }
{
    let people = People::new(alloc, policy)?;
    let mut table = IndexMap::new(alloc);
    let mut owners = Owners::new(alloc);
    for place in 0..records.len() {
        note_record(&mut table, &mut owners, policy, &people, &records.at(place))?;
    }
    Ok(table)
}

/// The rows of these accounts.
fn rows_of(
    alloc: Global,
    table: &IndexMap<AccountName, ActivityRow>,
    accounts: &[Account],
) -> Result<Vec<ActivityRow>, OutOfMemory>
    ensures { IfOk result (λ rows. rows.items
        ≡ map (λ (a : Account). row_in table.now.entries a.name) accounts.now) }
{
    let mut rows = Vec::new(alloc);
    for account in accounts {
        rows.push(row_in(table, account.name))?;
    }
    Ok(rows)
}

/// What each account of the policy did, in the file's order. It is one pass over the records, which keeps the owner of each
/// order.
///
/// # Errors
///
/// `OutOfMemory` where the rows or the owners were refused their memory.
pub fn activity_rows<G: ShowsRecords>(
    alloc: Global,
    gate: &G,
) -> Result<Vec<ActivityRow>, OutOfMemory>
    ensures rows { IfOk result (λ rows. rows.items ≡ map
        (activity_row (G.state gate.now).policy (G.state gate.now).records)
        (G.state gate.now).policy.accounts) }
{
    // That the records are fewer than 2^63, so that no count stops.
    gate.length();
    let policy = gate.policy();
    let table = note_records(alloc, policy, &gate.shown_records())?;
    let rows = rows_of(alloc, &table, policy.accounts())?;
    Ok(rows)
}
