//! Who asks to log in.

ghost use Rattle.std.specs.Prelude.{◌≡◌};
ghost use Rattle.gx_policy.specs.People.{is_officer, role_in};
ghost use Rattle.gx_door.specs.Callers.{caller_of};

use gx_policy::{Policy, Role};
use gx_units::{Password, UserName};

/// Who asks to log in, by the policy.
#[derive(Clone, Copy, PartialEq, Eq)]
pub enum Caller {
    /// A trader, with his password.
    Trader,
    /// An officer or a reader, with his password.
    Staff,
    /// Somebody who has no user's password.
    Stranger,
}

/// Whether the policy has an officer of this name. Commands are granted to officers alone.
pub fn is_officer(policy: &Policy, user: UserName) -> bool
    ensures { result ≡ is_officer (role_in policy.now.users user) }
{
    match policy.user(user) {
        Some(user) => matches!(user.role, Role::Officer(..)),
        None => false,
    }
}

impl Caller {
    /// Who logs in with this name and this password, in upper or lower case.
    pub fn of(policy: &Policy, user: UserName, password: Password) -> Caller
        ensures { result ≡ caller_of policy.now user password }
    {
        let Some(user) = policy.user(user.folded()) else {
            return Caller::Stranger;
        };
        if user.password != password.folded() {
            return Caller::Stranger;
        }
        match user.role {
            Role::Trader(_) => Caller::Trader,
            Role::Officer(..) | Role::Reader(_) => Caller::Staff,
        }
    }
}
