//! How many changes come under each heading.

ghost use Rattle.std.specs.{Map.lookup, Prelude.{◌≡◌, IfOk, OnOk, map, option_and_then, unwrap_or}};
ghost use Rattle.gx_history.specs.Requests.{denied_by};
ghost use Rattle.gx_whatif.specs.{Counting.{counted_each, heading_counted, heading_uncounted, heading_once_more, heading_table}, Headings.{all_headings, denied_no_more, denied_now, heading_rows, headings, heading_of_account, same_heading}};
ghost use Rattle.gx_policy.specs.People.{account_of_role, role_in};

use crate::change::VerdictChange;
use gx_history::record::Verdict;
use gx_people::People;
use gx_policy::{Policy, RuleName};
use gx_units::{AccountName, OutOfMemory, RuleId, UserName};
use indexmap::IndexMap;
use std::alloc::Global;

/// Under what changes are counted.
#[derive(Clone, Copy, PartialEq, Eq, Hash)]
pub enum Heading {
    /// The rule denies under the other policy what it did not deny in the day.
    DeniedNow(RuleId),
    /// The rule denied in the day what it does not deny under the other policy.
    DeniedNoMore(RuleId),
    /// Who asked trades for this account, by the day's own policy.
    OfAccount(AccountName),
    /// A matching step, or of somebody who trades for no account.
    OfNoAccount,
}

/// How many changes come under a heading.
#[derive(Clone, Copy, PartialEq, Eq)]
pub struct HeadingRow {
    /// The heading.
    pub heading: Heading,
    /// How many changes.
    pub count: u64,
}

impl HeadingRow {
    fn once_more(self) -> HeadingRow
        ensures { result ≡ heading_once_more self }
    {
        HeadingRow {
            heading: self.heading,
            count: self.count.saturating_add(1),
        }
    }
}

/// The rule that denies under the other policy, if one does.
fn denier(told: &Option<Verdict>) -> Option<RuleName>
    ensures { result ≡ option_and_then denied_by told.now }
{
    match told {
        Some(verdict) => verdict.denied_by(),
        None => None,
    }
}

/// The account that the user trades for, if there is a user, and he trades for one.
fn account_of(people: &People, user: Option<UserName>) -> Option<AccountName>
    ensures { result ≡ option_and_then
        (λ name. option_and_then account_of_role (role_in people.now name)) user }
{
    match user {
        Some(user) => people.account_of(user),
        None => None,
    }
}

/// The heading of the account, or of none.
fn of_account(account: Option<AccountName>) -> Heading
    ensures { result ≡ heading_of_account account }
{
    match account {
        Some(account) => Heading::OfAccount(account),
        None => Heading::OfNoAccount,
    }
}

/// The row of the heading, or that of one which never came.
fn row_of(table: &IndexMap<Heading, HeadingRow>, heading: Heading) -> HeadingRow
    ensures { result
        ≡ unwrap_or (lookup (same_heading heading) table.now.entries)
        (heading_uncounted heading) }
{
    match table.get(&heading) {
        Some(row) => *row,
        None => HeadingRow { heading, count: 0 },
    }
}

fn count(table: &mut IndexMap<Heading, HeadingRow>, heading: Heading) -> Result<(), OutOfMemory>
    ensures counted { OnOk result
        (table.new.entries ≡ heading_counted table.old.entries heading) }
{
    let row = row_of(table, heading);
    table.insert(heading, row.once_more())?;
    Ok(())
}

fn count_denied_now(
    table: &mut IndexMap<Heading, HeadingRow>,
    rule: Option<RuleName>,
) -> Result<(), OutOfMemory>
    ensures counted { OnOk result
        (table.new.entries ≡ counted_each table.old.entries (denied_now rule)) }
{
    match rule {
        Some(rule) => count(table, Heading::DeniedNow(rule.id())),
        None => Ok(()),
    }
}

fn count_denied_no_more(
    table: &mut IndexMap<Heading, HeadingRow>,
    rule: Option<RuleName>,
) -> Result<(), OutOfMemory>
    ensures counted { OnOk result
        (table.new.entries ≡ counted_each table.old.entries (denied_no_more rule)) }
{
    match rule {
        Some(rule) => count(table, Heading::DeniedNoMore(rule.id())),
        None => Ok(()),
    }
}

/// Counts a change under its headings.
fn count_change(
    table: &mut IndexMap<Heading, HeadingRow>,
    policy: &Policy,
    people: &People,
    change: &VerdictChange,
) -> Result<(), OutOfMemory>
    requires people { people.now ≡ policy.now.users }
    ensures counted { OnOk result (table.new.entries
        ≡ counted_each table.old.entries (headings policy.now change.now)) }
{
    count_denied_now(table, denier(&change.told))?;
    count_denied_no_more(table, change.recorded.denied_by())?;
    count(table, of_account(account_of(people, change.user)))
}

/// Counts these changes.
fn count_all(
    alloc: Global,
    policy: &Policy,
    found: &[VerdictChange],
) -> Result<IndexMap<Heading, HeadingRow>, OutOfMemory>
    ensures table { IfOk result
        (λ table. table.entries ≡ heading_table (all_headings policy.now found.now)) }
{
    let people = People::new(alloc, policy)?;
    let mut table = IndexMap::new(alloc);
    for change in found {
        count_change(&mut table, policy, &people, change)?;
    }
    Ok(table)
}

/// How many of these changes come under each heading, in the order in which they first come. It is one pass over them.
///
/// # Errors
///
/// `OutOfMemory` where the rows were refused their memory.
#[tactic(auto, using(crate::proofs::Counts_next::rows_are))]
pub(crate) fn heading_rows(
    alloc: Global,
    policy: &Policy,
    found: &[VerdictChange],
) -> Result<Vec<HeadingRow>, OutOfMemory>
    ensures rows { IfOk result (λ rows. rows.items ≡ heading_rows policy.now found.now) }
{
    // That there are fewer than 2^64, so that no count stops.
    found.len();
    let table = count_all(alloc, policy, found)?;
    rows_in(alloc, &table)
}

/// The rows of the table, in its order.
fn rows_in(
    alloc: Global,
    table: &IndexMap<Heading, HeadingRow>,
) -> Result<Vec<HeadingRow>, OutOfMemory>
    ensures { IfOk result (λ rows. rows.items ≡ map (λ e. e.1) table.now.entries) }
{
    Ok(table.values().copied().collect(alloc)?)
}
