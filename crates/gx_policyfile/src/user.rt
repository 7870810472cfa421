//! The file's users.

ghost use Rattle.std.specs.Prelude.{◌≡◌, [], map, codes, ok_or};
ghost use Rattle.toml.specs.View.{view, table_view, items_view};
ghost use Rattle.gx_units.specs.Names.{same_user};
ghost use Rattle.gx_policyvalues.specs.{declared.fault.FaultKind.TheVariants.BadValue, Field.{Gives, seen_result, choice, word_at, optional, each_item}};
ghost use Rattle.gx_policyfile.specs.{Known.known_accounts, Users.{role_words, user_keys, power_words, no_powers, with_power, powers, role, user}, Policies.users};

use crate::known::{AN_ACCOUNT, known_account, known_accounts, scope};
use crate::place::{Entry, entries};
use crate::version::FileVersion;
use gx_policy::{Account, AccountNames, Powers, Role, Stock, User};
use gx_policytext::find;
use gx_policyvalues::{Allowed, FaultKind, Letters, PolicyFault, field};
use gx_units::{AccountName, Password, UserName};
use std::alloc::Global;
use toml::{Table, Value};

/// What a user is.
#[derive(Clone, Copy)]
pub enum RoleWord {
    /// He enters orders for an account.
    Trader,
    /// He gives commands.
    Officer,
    /// He is shown fills of accounts.
    Reader,
}

/// One power of an officer.
#[derive(Clone, Copy)]
pub enum PowerWord {
    /// Kill.
    Kill,
    /// Lift.
    Lift,
    /// Set Limit.
    Limits,
    /// Restrict and Unrestrict.
    Symbols,
    /// Grant and Revoke.
    People,
    /// Close Day.
    Close,
}

/// The words of the key `role`.
const ROLE_WORDS: [(&str, RoleWord); 3] = [
    ("trader", RoleWord::Trader),
    ("officer", RoleWord::Officer),
    ("reader", RoleWord::Reader),
];

/// What the key `role` allows.
const ROLES: Allowed = Allowed::Words("\"trader\", \"officer\" or \"reader\"");

/// The words of the key `powers`.
const POWER_WORDS: [(&str, PowerWord); 6] = [
    ("kill", PowerWord::Kill),
    ("lift", PowerWord::Lift),
    ("limits", PowerWord::Limits),
    ("symbols", PowerWord::Symbols),
    ("people", PowerWord::People),
    ("close", PowerWord::Close),
];

/// What the key `powers` allows.
const POWERS: Allowed = Allowed::Words(
    "an array of \"kill\", \"lift\", \"limits\", \"symbols\", \"people\" and \"close\"",
);

fn role_word(entry: &Table) -> Option<RoleWord>
    ensures { result ≡ word_at (codes "role") role_words (table_view entry.now) }
{
    field::word_at(entry, "role", &ROLE_WORDS)
}

/// The keys of a user of this role.
fn keys_of(word: Option<RoleWord>) -> &'static [&'static str]
    ensures { map (λ k. k.now) result.now ≡ user_keys word }
{
    match word {
        Some(RoleWord::Trader) => &["name", "password", "role", "account"],
        Some(RoleWord::Officer) => &["name", "password", "role", "powers", "accounts"],
        Some(RoleWord::Reader) => &["name", "password", "role", "accounts"],
        None => &["name", "password", "role", "account", "powers", "accounts"],
    }
}

fn power_word(value: &Value) -> Option<PowerWord>
    ensures { ok_or result BadValue ≡ choice power_words (view value.now) }
{
    field::choice(value, &POWER_WORDS)
}

fn with_power(powers: Powers, power: PowerWord) -> Powers
    ensures { result ≡ with_power powers power }
{
    let mut powers = powers;
    match power {
        PowerWord::Kill => powers.kill = true,
        PowerWord::Lift => powers.lift = true,
        PowerWord::Limits => powers.limits = true,
        PowerWord::Symbols => powers.symbols = true,
        PowerWord::People => powers.people = true,
        PowerWord::Close => powers.close = true,
    }
    powers
}

fn power_list(values: &[Value]) -> Option<Powers>
    ensures { ok_or result BadValue
        ≡ each_item (choice power_words) with_power no_powers (items_view values.now) }
{
    let mut powers = Powers {
        kill: false,
        lift: false,
        limits: false,
        symbols: false,
        people: false,
        close: false,
    };
    for value in values {
        match power_word(value) {
            Some(power) => powers = with_power(powers, power),
            None => return None,
        }
    }
    Some(powers)
}

#[tactic(auto, unfolding(crate::specs::Users::powers))]
fn powers(value: &Value) -> Result<Powers, PolicyFault>
    ensures { seen_result (λ p. p) result ≡ powers (view value.now) }
{
    let bad = Err(PolicyFault::at(FaultKind::BadValue, "powers", POWERS));
    match value.as_array() {
        Some(values) => match power_list(values.as_slice()) {
            Some(powers) => Ok(powers),
            None => bad,
        },
        None => bad,
    }
}

fn reader_accounts(
    alloc: Global,
    accounts: &[Account],
    entry: &Table,
) -> Result<Vec<AccountName>, PolicyFault>
    ensures { Gives (λ v. v.items) result
        (optional (codes "accounts") (known_accounts accounts.now) [] (table_view entry.now)) }
{
    match find(entry, "accounts") {
        Some(value) => known_accounts(alloc, accounts, value),
        None => Ok(Vec::new(alloc)),
    }
}

#[tactic(auto, unfolding(crate::specs::Users::role))]
fn role(
    alloc: Global,
    accounts: &[Account],
    word: RoleWord,
    entry: &Table,
) -> Result<Role, PolicyFault>
    ensures { Gives (λ r. r) result (role accounts.now word (table_view entry.now)) }
{
    match word {
        RoleWord::Trader => {
            let value = field::value_at(entry, "account", AN_ACCOUNT)?;
            Ok(Role::Trader(known_account(accounts, value)?))
        }
        RoleWord::Officer => {
            let powers = powers(field::value_at(entry, "powers", POWERS)?)?;
            let scope = scope(alloc, accounts, entry)?;
            Ok(Role::Officer(powers, scope))
        }
        RoleWord::Reader => {
            let names = reader_accounts(alloc, accounts, entry)?;
            Ok(Role::Reader(AccountNames::new(names)))
        }
    }
}

#[tactic(auto, unfolding(crate::specs::Users::user))]
fn user(alloc: Global, accounts: &[Account], entry: &Table) -> Result<User, PolicyFault>
    ensures { Gives (λ u. u) result (user accounts.now (table_view entry.now)) }
{
    field::only_keys(entry, keys_of(role_word(entry)))?;
    let name = field::field_at(entry, "name", Letters::Visible)?;
    let password = field::field_at(entry, "password", Letters::Visible)?;
    let word = field::choice_at(entry, "role", &ROLE_WORDS, ROLES)?;
    let role = role(alloc, accounts, word, entry)?;
    Ok(User {
        name: UserName { bytes: name }.folded(),
        password: Password { bytes: password }.folded(),
        role,
    })
}

impl Entry for User {
    ghost meant = { λ _ accounts _ entry. user accounts entry };

    ghost is_same = { λ a b. same_user a.name b.name };

    fn read(
        alloc: Global,
        _version: FileVersion,
        accounts: &[Account],
        _stocks: &[Stock],
        entry: &Table,
    ) -> Result<User, PolicyFault> {
        user(alloc, accounts, entry)
    }

    fn is_same(&self, other: &User) -> bool {
        self.name == other.name
    }
}

/// The users of the file, in its order.
///
/// # Errors
///
/// The first fault of the entries, or that memory was refused.
#[tactic(auto, unfolding(crate::specs::Policies::users))]
pub fn users(
    alloc: Global,
    version: FileVersion,
    accounts: &[Account],
    tables: &[&Table],
) -> Result<Vec<User>, PolicyFault>
    ensures { Gives (λ v. v.items) result
        (users accounts.now (map (λ t. table_view t.now) tables.now)) }
{
    entries(alloc, "user", version, accounts, &[], 256, tables)
}
