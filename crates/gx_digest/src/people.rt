//! Accounts and stocks, and users with their roles.

ghost use Rattle.std.specs.Prelude.{◌≡◌};
ghost use Rattle.gx_digest.specs.{Hashing.TakesIn, PolicyText.{account_text, stock_text, scope_text, powers_text, power_text, role_text, user_text}};

use crate::lists::put_number;
use crate::writing::{Written, put, write_list};
use gx_policy::{Account, Powers, Role, Scope, Stock, User};
use sha2::Sha256;

impl Written for Account {
    ghost text = { account_text };

    fn write(&self, hasher: &mut Sha256) {
        put(hasher, &self.name.bytes);
        put(hasher, &self.firm.bytes);
    }
}

impl Written for Stock {
    ghost text = { stock_text };

    fn write(&self, hasher: &mut Sha256) {
        put(hasher, &self.name.bytes);
        put_number(hasher, u64::from(self.reference));
    }
}

/// `A` for all accounts; else `O`, and the accounts.
pub(crate) fn put_scope(hasher: &mut Sha256, scope: &Scope)
    ensures { TakesIn hasher.old hasher.new (scope_text scope.now) }
{
    match scope {
        Scope::All => put(hasher, b"A"),
        Scope::Only(names) => {
            put(hasher, b"O");
            write_list(hasher, names.as_slice());
        }
    }
}

fn power(has: bool) -> u8
    ensures { result ≡ power_text has }
{
    if has { b'Y' } else { b'N' }
}

fn powers_bytes(powers: &Powers) -> [u8; 6]
    ensures { result ≡ powers_text powers.now }
{
    [
        power(powers.kill),
        power(powers.lift),
        power(powers.limits),
        power(powers.symbols),
        power(powers.people),
        power(powers.close),
    ]
}

fn put_role(hasher: &mut Sha256, role: &Role)
    ensures { TakesIn hasher.old hasher.new (role_text role.now) }
{
    match role {
        Role::Trader(account) => {
            put(hasher, b"T");
            put(hasher, &account.bytes);
        }
        Role::Officer(powers, scope) => {
            put(hasher, b"O");
            put(hasher, &powers_bytes(powers));
            put_scope(hasher, scope);
        }
        Role::Reader(names) => {
            put(hasher, b"R");
            write_list(hasher, names.as_slice());
        }
    }
}

impl Written for User {
    ghost text = { user_text };

    fn write(&self, hasher: &mut Sha256) {
        put(hasher, &self.name.bytes);
        put_role(hasher, &self.role);
    }
}
