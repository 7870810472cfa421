//! What the policy says of accounts, each looked for at a place first.

ghost use Rattle.std.specs.Prelude.{◌≡◌, option_and_then, option_map, position, IsTrue};
ghost use Rattle.gx_units.specs.Names.{same_account};
ghost use Rattle.gx_history.specs.{Asking.fits_firm, Orders.firm_of};
ghost use Rattle.gx_policy.specs.{People.account_named, Soundness.accounts_differ};
ghost use Rattle.gx_gate_state.specs.Matching.{place_of};

use gx_history::record::Request;
use gx_policy::{Account, Policy};
use gx_units::{AccountName, Firm};

const BLANK_FIRM: Firm = Firm { bytes: *b"    " };

/// The account of this name. It is looked for at this place first.
fn account_near(policy: &Policy, near: usize, name: AccountName) -> Option<Account>
    ensures { result ≡ account_named policy.now name }
{
    // What this ensures: no two accounts have one name.
    let _ = policy.rules();
    let accounts = policy.accounts();
    match accounts.get(near) {
        Some(there) if there.name == name => Some(*there),
        _ => policy.account(name),
    }
}

fn find_place(accounts: &[Account], name: AccountName) -> Option<usize>
    ensures { result ≡ position (λ a. same_account a.name name) accounts.now }
{
    accounts.iter().position(|account| account.name == name)
}

/// The same where no two have one name. It is looked for at this place first.
fn find_place_near(accounts: &[Account], near: usize, name: AccountName) -> Option<usize>
    requires { IsTrue (accounts_differ accounts.now) }
    ensures { result ≡ position (λ a. same_account a.name name) accounts.now }
{
    match accounts.get(near) {
        Some(there) if there.name == name => Some(near),
        _ => find_place(accounts, name),
    }
}

/// The account's place in the file, from 0; their number where it is not there. Here and below, it is looked for at this
/// place first.
pub fn place_of(policy: &Policy, name: AccountName, near: usize) -> usize
    ensures { result ≡ place_of policy.now.accounts name }
{
    // What this ensures: no two accounts have one name.
    let _ = policy.rules();
    let accounts = policy.accounts();
    match find_place_near(accounts, near, name) {
        Some(place) => place,
        None => accounts.len(),
    }
}

/// The firm of the account, if it is one of the policy. It is looked for at this place first.
fn house_of_account(policy: &Policy, account: AccountName, near: usize) -> Option<Firm>
    ensures { result ≡ option_map (λ a. a.firm) (account_named policy.now account) }
{
    match account_near(policy, near, account) {
        Some(found) => Some(found.firm),
        None => None,
    }
}

/// The firm of the account that a user trades for, if he trades for this one.
pub fn house_of(policy: &Policy, account: Option<AccountName>, near: usize) -> Option<Firm>
    ensures { result ≡ option_and_then
        (λ name. option_map (λ a. a.firm) (account_named policy.now name)) account }
{
    match account {
        Some(name) => house_of_account(policy, name, near),
        None => None,
    }
}

/// The account's firm, or the one asked for where the policy has no such account.
pub fn firm_of(policy: &Policy, account: AccountName, near: usize, asked_for: Firm) -> Firm
    ensures { result ≡ firm_of policy.now account asked_for }
{
    house_of_account(policy, account, near).unwrap_or(asked_for)
}

/// Whether an Enter's firm is blank, or that of the account that it is for; true for any other
/// request.
pub fn fits_firm(
    policy: &Policy,
    account: Option<AccountName>,
    near: usize,
    request: &Request,
) -> bool
    ensures { result ≡ fits_firm policy.now account request.now }
{
    match (request, account) {
        (Request::Enter(m), Some(name)) => {
            m.firm == BLANK_FIRM || m.firm == firm_of(policy, name, near, m.firm)
        }
        (Request::Enter(m), None) => m.firm == BLANK_FIRM,
        _ => true,
    }
}
