//! How often each rule denied what an account's users asked for: one pass over the records.

ghost use Rattle.std.specs.Prelude.{◌≡◌, IfOk, OnOk};
ghost use Rattle.gx_activity.specs.{Denials.{denial_in, denial_row, denial_rows, denials, denial_row_of}, declared.denials.Denial.Denial, Denying.{counted_in, counted_once, denial_table, once_more}};

use crate::listing::rows_in;
use gx_history::record::{Record, Step, Verdict};
use gx_history::records::Records;
use gx_people::People;
use gx_policy::Policy;
use gx_records::ShowsRecords;
use gx_units::{AccountName, OutOfMemory, RuleId};
use indexmap::IndexMap;
use std::alloc::Global;

/// A rule that denied a request, and the account of the user who asked.
#[derive(Clone, Copy, PartialEq, Eq, Hash)]
pub struct Denial {
    /// The name of the rule, padded with spaces, as an audit writes it: a rule of the policy file has no built-in rule's name.
    pub rule: RuleId,
    /// None of an officer, a reader, and a user who is not known.
    pub account: Option<AccountName>,
}

/// How often the rule denied requests of the account's users.
#[derive(Clone, Copy, PartialEq, Eq)]
pub struct DenialRow {
    /// The rule, and the account of the users who asked.
    pub denial: Denial,
    /// How many of their requests it denied.
    pub count: u64,
}

impl DenialRow {
    fn once_more(self) -> DenialRow
        ensures { result ≡ once_more self }
    {
        DenialRow {
            denial: self.denial,
            count: self.count.saturating_add(1),
        }
    }
}

/// By which rule the record's request was denied, if it was, and of which account its user is.
fn denial_in(policy: &Policy, people: &People, left: &Record) -> Option<Denial>
    requires people { people.now ≡ policy.now.users }
    ensures { result ≡ denial_in policy.now left.now }
{
    let shown = left.content();
    match (&shown.verdict, &shown.step) {
        (Verdict::Denied(rule), Step::Asked(asked)) => Some(Denial {
            rule: rule.id(),
            account: people.account_of(asked.user),
        }),
        _ => None,
    }
}

fn count(table: &mut IndexMap<Denial, DenialRow>, denial: Denial) -> Result<(), OutOfMemory>
    ensures counted { OnOk result
        (table.new.entries ≡ counted_once table.old.entries denial) }
{
    let row = match table.get(&denial) {
        Some(row) => *row,
        None => DenialRow { denial, count: 0 },
    };
    table.insert(denial, row.once_more())?;
    Ok(())
}

fn count_in(
    table: &mut IndexMap<Denial, DenialRow>,
    policy: &Policy,
    people: &People,
    left: &Record,
) -> Result<(), OutOfMemory>
    requires people { people.now ≡ policy.now.users }
    ensures counted { OnOk result
        (table.new.entries ≡ counted_in table.old.entries (denial_in policy.now left.now)) }
{
    match denial_in(policy, people, left) {
        Some(denial) => count(table, denial),
        None => Ok(()),
    }
}

/// Counts the denials of these records.
fn count_all(
    alloc: Global,
    policy: &Policy,
    records: &Records<'_>,
) -> Result<IndexMap<Denial, DenialRow>, OutOfMemory>
    ensures table { IfOk result
        (λ table. table.entries ≡ denial_table policy.now records.now) }
{
    let people = People::new(alloc, policy)?;
    let mut table = IndexMap::new(alloc);
    for place in 0..records.len() {
        count_in(&mut table, policy, &people, &records.at(place))?;
    }
    Ok(table)
}

/// How often each rule denied requests of each account's users, and of users who trade for none, in the order in which these
/// first came: what never came has no row. It is one pass over the records.
///
/// # Errors
///
/// `OutOfMemory` where the rows were refused their memory.
pub fn denial_rows<G: ShowsRecords>(alloc: Global, gate: &G) -> Result<Vec<DenialRow>, OutOfMemory>
    ensures rows { IfOk result (λ rows. rows.items
        ≡ denial_rows (G.state gate.now).policy (G.state gate.now).records) }
    ensures all { IfOk result (λ rows. (d : Denial) → denial_row_of rows.items d
        ≡ denial_row (denials (G.state gate.now).policy (G.state gate.now).records) d) }
{
    // That the records are fewer than 2^63, so that no count stops.
    gate.length();
    let table = count_all(alloc, gate.policy(), &gate.shown_records())?;
    rows_in(alloc, &table)
}
