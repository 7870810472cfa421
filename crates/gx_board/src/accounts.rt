//! What a viewer is shown of an account: whether it is killed, and how many orders it has live.

ghost use Rattle.std.specs.Prelude.{◌≡◌, filter, map, IfOk};
ghost use Rattle.gx_history.specs.Live.{live};
ghost use Rattle.gx_overview.specs.Commands.{granted_commands};
ghost use Rattle.gx_board.specs.{Accounts.{account_state, account_states, live_orders, orders_of_trader}, Sight.is_shown};

use crate::sight::is_shown;
use gx_overview::accounts::{KillState, kill_state};
use gx_overview::commands::GrantedCommand;
use gx_policy::{Account, Role, User};
use gx_records::ShowsState;
use gx_units::{AccountName, OutOfMemory, UserName};
use std::alloc::Global;

/// What stands of an account.
#[derive(Clone, Copy, PartialEq, Eq)]
pub struct AccountState {
    /// The name of the account.
    pub account: AccountName,
    /// Whether it is killed.
    pub killed: KillState,
    /// How many live orders it has.
    pub orders: u64,
}

/// How many live orders the user has, if he trades for the account.
fn orders_of_trader<G: ShowsState>(gate: &G, account: AccountName, user: &User) -> u64
    ensures { result ≡ orders_of_trader
        (live (G.state gate.now).policy (G.state gate.now).records) account user.now }
{
    match user.role {
        Role::Trader(his) if his == account => gate.live_count_of(user.name) as u64,
        _ => 0,
    }
}

/// How many live orders the account has: those of its traders, and no order is looked at. A live order is of one of its traders,
/// whose names differ, since the records are a legal day and the policy is sound.
fn live_orders<G: ShowsState>(gate: &G, account: AccountName) -> u64
    ensures { result
        ≡ live_orders (G.state gate.now).policy (G.state gate.now).records account }
{
    gate.is_legal();
    let _ = gate.policy().rules();
    let mut orders: u64 = 0;
    for user in gate.policy().users() {
        orders = orders.saturating_add(orders_of_trader(gate, account, user));
    }
    orders
}

fn account_state<G: ShowsState>(
    gate: &G,
    commands: &[GrantedCommand],
    account: &Account,
) -> AccountState
    requires { commands.now ≡ granted_commands (G.state gate.now).records }
    ensures { result
        ≡ account_state (G.state gate.now).policy (G.state gate.now).records account.now }
{
    let name = account.name;
    AccountState {
        account: name,
        killed: kill_state(gate, commands, name),
        orders: live_orders(gate, name),
    }
}

/// What stands of each of these accounts that is the viewer's.
fn states_among<G: ShowsState>(
    alloc: Global,
    gate: &G,
    commands: &[GrantedCommand],
    viewer: UserName,
    accounts: &[Account],
) -> Result<Vec<AccountState>, OutOfMemory>
    requires { commands.now ≡ granted_commands (G.state gate.now).records }
    ensures { IfOk result (λ states. states.items ≡ map
        (account_state (G.state gate.now).policy (G.state gate.now).records)
        (filter (λ a. is_shown (G.state gate.now).policy (G.state gate.now).records viewer a.name)
        accounts.now)) }
{
    let mut states = Vec::new(alloc);
    for account in accounts {
        if is_shown(gate, viewer, account.name) {
            states.push(account_state(gate, commands, account))?;
        }
    }
    Ok(states)
}

/// What stands of each account that is the viewer's, in the policy's order. The commands are all that were granted in the day.
///
/// # Errors
///
/// `OutOfMemory` where the list was refused its memory.
pub(crate) fn account_states<G: ShowsState>(
    alloc: Global,
    gate: &G,
    commands: &[GrantedCommand],
    viewer: UserName,
) -> Result<Vec<AccountState>, OutOfMemory>
    requires { commands.now ≡ granted_commands (G.state gate.now).records }
    ensures { IfOk result (λ states. states.items
        ≡ account_states (G.state gate.now).policy (G.state gate.now).records viewer) }
{
    states_among(alloc, gate, commands, viewer, gate.policy().accounts())
}
