//! Who may kill an account from the page.

ghost use Rattle.std.specs.Prelude.{◌≡◌};
ghost use Rattle.gx_button.specs.Permission.{has_kill_power, may_user_kill};

use gx_policy::{Policy, Role};
use gx_units::{AccountName, UserName};

/// Whether the user is an officer who has the power to kill.
pub fn has_power(policy: &Policy, user: UserName) -> bool
    ensures { result ≡ has_kill_power policy.now user }
{
    match policy.user(user) {
        Some(known) => match &known.role {
            Role::Officer(powers, _) => powers.kill,
            Role::Trader(_) | Role::Reader(_) => false,
        },
        None => false,
    }
}

/// Whether the user may kill the account: an officer who has the power, and the account, which is one of the policy.
pub fn may_kill(policy: &Policy, user: UserName, account: AccountName) -> bool
    ensures { result ≡ may_user_kill policy.now user account }
{
    let Some(known) = policy.user(user) else {
        return false;
    };
    match &known.role {
        Role::Officer(powers, scope) => {
            powers.kill && scope.covers(account) && policy.account(account).is_some()
        }
        _ => false,
    }
}
