//! What stands of each account: whether it is killed, and by which command; its live orders.

ghost use Rattle.std.specs.Prelude.{◌≡◌, fold, map, IfOk, OnOk};
ghost use Rattle.gx_overview.specs.{Accounts.{account_row, entries_with, kill_of, kill_state, lift_since, row_of, sums_in, with_order}, Commands.granted_commands};

use crate::commands::{GrantedCommand, Subject, last_about};
use gx_history::live_order::LiveOrder;
use gx_policy::Account;
use gx_records::ShowsState;
use gx_slab::live::LiveOrders;
use gx_units::{AccountName, OutOfMemory};
use indexmap::IndexMap;
use std::alloc::Global;

/// The live orders of an account.
///
/// A count stops at 64 bits and a sum at 128: a day's orders stay far below.
#[derive(Clone, Copy, PartialEq, Eq)]
pub struct LiveSums {
    /// How many they are.
    pub orders: u64,
    /// The open shares of its buys.
    pub buys: u128,
    /// Those of all that is no buy.
    pub sells: u128,
}

/// Whether an account is killed, and by which commands.
#[derive(Clone, Copy, PartialEq, Eq)]
pub struct KillState {
    /// An officer has killed it, and not enough officers have lifted it since.
    pub is_killed: bool,
    /// Where it is killed, the last Kill of it that was granted.
    pub kill: Option<GrantedCommand>,
    /// Where an officer has lifted it since that Kill, the last Lift of it that was granted: another officer's is asked for
    /// too.
    pub lift: Option<GrantedCommand>,
}

/// What stands of an account.
#[derive(Clone, Copy, PartialEq, Eq)]
pub struct AccountRow {
    /// The name of the account.
    pub account: AccountName,
    /// Whether it is killed.
    pub killed: KillState,
    /// What it has open.
    pub live: LiveSums,
}

const NO_ORDERS: LiveSums = LiveSums {
    orders: 0,
    buys: 0,
    sells: 0,
};

impl LiveSums {
    fn with_order(self, order: &LiveOrder) -> LiveSums
        ensures { result ≡ with_order order.now self }
    {
        let open = u128::from(order.open());
        let orders = self.orders.saturating_add(1);
        if order.terms.side == b'B' {
            LiveSums {
                orders,
                buys: self.buys.saturating_add(open),
                sells: self.sells,
            }
        } else {
            LiveSums {
                orders,
                buys: self.buys,
                sells: self.sells.saturating_add(open),
            }
        }
    }
}

/// The sums of the account, none where nothing of it was counted.
fn sums_in(table: &IndexMap<AccountName, LiveSums>, account: AccountName) -> LiveSums
    ensures { result ≡ sums_in table.now.entries account }
{
    match table.get(&account) {
        Some(sums) => *sums,
        None => NO_ORDERS,
    }
}

fn note_order(
    table: &mut IndexMap<AccountName, LiveSums>,
    order: &LiveOrder,
) -> Result<(), OutOfMemory>
    ensures noted { OnOk result
        (table.new.entries ≡ entries_with table.old.entries order.now) }
{
    let sums = sums_in(table, order.account).with_order(order);
    table.insert(order.account, sums)?;
    Ok(())
}

/// Counts these live orders, each in the sums of its account.
fn note_live(
    table: &mut IndexMap<AccountName, LiveSums>,
    live: LiveOrders<'_>,
) -> Result<(), OutOfMemory>
    ensures noted { OnOk result
        (table.new.entries ≡ fold entries_with table.old.entries live.entry) }
{
    for order in live {
        note_order(table, order)?;
    }
    Ok(())
}

fn kill_of(
    is_killed: bool,
    commands: &[GrantedCommand],
    account: AccountName,
) -> Option<GrantedCommand>
    ensures { result ≡ kill_of is_killed commands.now account }
{
    if is_killed {
        last_about(commands, Subject::KillOf(account))
    } else {
        None
    }
}

/// The Lift, where it came behind the Kill.
fn lift_since(kill: Option<GrantedCommand>, lift: Option<GrantedCommand>) -> Option<GrantedCommand>
    ensures { result ≡ lift_since kill lift }
{
    let (Some(kill), Some(lift)) = (kill, lift) else {
        return None;
    };
    if kill.number < lift.number {
        Some(lift)
    } else {
        None
    }
}

/// Whether the account is killed, and by which of the commands, which are all that were granted in the day
/// ([`crate::commands::granted_commands`] of its records).
pub fn kill_state<G: ShowsState>(
    gate: &G,
    commands: &[GrantedCommand],
    account: AccountName,
) -> KillState
    requires commands { commands.now ≡ granted_commands (G.state gate.now).records }
    ensures state { result
        ≡ kill_state (G.state gate.now).policy (G.state gate.now).records account }
{
    let is_killed = gate.is_killed(account);
    let kill = kill_of(is_killed, commands, account);
    KillState {
        is_killed,
        kill,
        lift: lift_since(kill, last_about(commands, Subject::LiftOf(account))),
    }
}

/// The row of the account, by the commands and the sums of its live orders.
fn row_of<G: ShowsState>(
    gate: &G,
    commands: &[GrantedCommand],
    table: &IndexMap<AccountName, LiveSums>,
    account: &Account,
) -> AccountRow
    requires { commands.now ≡ granted_commands (G.state gate.now).records }
    ensures { result ≡ row_of (G.state gate.now).policy (G.state gate.now).records
        table.now.entries account.now }
{
    let name = account.name;
    AccountRow {
        account: name,
        killed: kill_state(gate, commands, name),
        live: sums_in(table, name),
    }
}

fn rows_of<G: ShowsState>(
    alloc: Global,
    gate: &G,
    commands: &[GrantedCommand],
    table: &IndexMap<AccountName, LiveSums>,
    accounts: &[Account],
) -> Result<Vec<AccountRow>, OutOfMemory>
    requires { commands.now ≡ granted_commands (G.state gate.now).records }
    ensures { IfOk result (λ rows. rows.items ≡ map
        (row_of (G.state gate.now).policy (G.state gate.now).records table.now.entries)
        accounts.now) }
{
    let mut rows = Vec::new(alloc);
    for account in accounts {
        rows.push(row_of(gate, commands, table, account))?;
    }
    Ok(rows)
}

/// What stands of each account of the policy, in the file's order. A live order costs the same however many accounts there
/// are. The commands are all that were granted in the day
/// ([`crate::commands::granted_commands`] of its records).
///
/// # Errors
///
/// `OutOfMemory` where the rows were refused their memory.
pub fn account_rows<G: ShowsState>(
    alloc: Global,
    gate: &G,
    commands: &[GrantedCommand],
) -> Result<Vec<AccountRow>, OutOfMemory>
    requires commands { commands.now ≡ granted_commands (G.state gate.now).records }
    ensures rows { IfOk result (λ rows. rows.items ≡ map
        (account_row (G.state gate.now).policy (G.state gate.now).records)
        (G.state gate.now).policy.accounts) }
{
    let mut table = IndexMap::new(alloc);
    note_live(&mut table, gate.live_orders())?;
    let rows = rows_of(alloc, gate, commands, &table, gate.policy().accounts())?;
    Ok(rows)
}
