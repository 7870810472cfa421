//! The people of a policy, as they are now.

ghost use Rattle.std.specs.Prelude.{◌≤◌, ◌<◌, ◌^◌, length, ◌≡◌, IsTrue, IfOk, option_map, option_and_then, is_some, IfSome, ◌&&◌, ◌||◌, not};
ghost use Rattle.gx_units.specs.{Names.{same_account, same_user}, declared.names.{AccountName.AccountName, UserName.UserName}};
ghost use Rattle.gx_history.specs.{Masks.mask_by, Logins.password_is, Readers.reader_in};
ghost use Rattle.gx_policy.specs.People.{account_of_role, is_officer, is_reader, role_in, user_in};
ghost use Rattle.gx_people.specs.{Entitled.{granted_to, has, has_room, holds_account, may, revoked_from, sees, sees_after, sees_with, sees_without}, View.role_of_current};

use crate::person::{CurrentRole, Person};
use crate::power::Power;
use gx_desk::WrittenName;
use gx_index::{Near, get_near};
use gx_policy::{Account, Policy, Role};
use gx_slots::Slots;
use gx_units::{AccountName, OutOfMemory, Password, UserName};
use indexmap::IndexMap;
use std::alloc::Global;
use std::marker::Model;

/// A change of what a reader sees, as it would be.
#[derive(Clone, Copy)]
enum Change {
    Nothing,
    /// He is shown this account.
    Grant(AccountName),
    /// This account is hidden from him.
    Revoke(AccountName),
}

/// The users of a policy, in the file's order, each reader with the accounts that are his now.
#[derive(Drop)]
pub struct People {
    by_name: IndexMap<UserName, Person>,
    /// Where each name is looked for first.
    slots: Slots<Near>,
}

impl Model for People {
    ghost use Rattle.std.specs.Prelude.{List};
    ghost use Rattle.gx_policy.specs.declared.policy.User.{User};

    ghost Value = { List User };

    ghost use Rattle.gx_people.specs.View.{users_of};

    ghost view = { λ people. users_of people.by_name.entries };
}

/// Where the account that a trader trades for stands among these; 0 for any other user.
fn near_account(accounts: &[Account], role: &Role) -> usize {
    match role {
        Role::Trader(name) => accounts.iter().position(|a| a.name == *name).unwrap_or(0),
        _ => 0,
    }
}

/// So many users have a slot of their own: four for each that a policy may have.
const USER_SLOTS: usize = 1024;

/// Where each user, and the account that he trades for, stand in the policy.
fn slots_of(alloc: Global, policy: &Policy) -> Result<Slots<Near>, OutOfMemory> {
    let mut slots = Slots::new(alloc, USER_SLOTS, Near::FIRST)?;
    for (place, user) in policy.users().iter().enumerate() {
        slots.put(
            user.name,
            Near {
                user: place,
                account: near_account(policy.accounts(), &user.role),
                ..Near::FIRST
            },
        );
    }
    Ok(slots)
}

impl People {
    /// The people as the policy says, before any command. Takes memory for a copy of what it keeps, and for each reader
    /// for as many accounts as a policy may have.
    pub fn new(alloc: Global, policy: &Policy) -> Result<People, OutOfMemory>
        ensures { IfOk result (λ people. people ≡ policy.now.users) }
    {
        // What this ensures: no two users have one name.
        let _ = policy.rules();
        let slots = slots_of(alloc, policy)?;
        let mut by_name = IndexMap::with_capacity(alloc, policy.users().len())?;
        for user in policy.users() {
            let standing = CurrentRole::of(alloc, &user.role)?;
            let person = Person {
                password: user.password,
                standing,
                near_account: near_account(policy.accounts(), &user.role),
            };
            by_name.insert(user.name, person)?;
        }
        Ok(People { by_name, slots })
    }

    #[tactic(auto, using(crate::proofs::Persons_table::role_found))]
    #[inline(always)]
    fn standing_near(&self, name: UserName, near: usize) -> Option<&CurrentRole>
        ensures { option_map (λ s. role_of_current s.now) result ≡ role_in self.now name }
    {
        let person = get_near(&self.by_name, near, name)?;
        Some(&person.standing)
    }

    fn standing(&self, name: UserName) -> Option<&CurrentRole>
        ensures { option_map (λ s. role_of_current s.now) result ≡ role_in self.now name }
    {
        self.standing_near(name, 0)
    }

    /// Where the user, and the account that he trades for, stand in the policy: tables in its order
    /// look there first. Nothing but time rests on it; it is 0 for what is not known.
    pub fn near(&self, user: UserName) -> Near {
        match self.slots.find(user) {
            Some(near) => near,
            None => self.near_by_hash(user),
        }
    }

    /// The same of a user who shares his slot with another.
    #[inline(never)]
    fn near_by_hash(&self, user: UserName) -> Near {
        match self.by_name.get_full(&user) {
            Some((place, _, person)) => Near {
                user: place,
                account: person.near_account,
                ..Near::FIRST
            },
            None => Near::FIRST,
        }
    }

    /// Whether the policy has this user.
    #[tactic(auto, using(crate::proofs::Persons_table::user_found))]
    pub fn knows(&self, user: UserName) -> bool
        ensures { result ≡ is_some (user_in self.now user) }
    {
        self.by_name.contains_key(&user)
    }

    /// Whether the user, who is looked for at this place of the policy's users first, gives commands.
    pub fn is_officer(&self, user: UserName, near: usize) -> bool
        ensures { result ≡ is_officer (role_in self.now user) }
    {
        matches!(
            self.standing_near(user, near),
            Some(CurrentRole::Officer(_, _))
        )
    }

    /// Whether the user is shown fills of others.
    /// Part of the interface: it stands beside `is_officer` and `account_of`.
    pub fn is_reader(&self, user: UserName) -> bool
        ensures { result ≡ is_reader (role_in self.now user) }
    {
        match self.standing(user) {
            Some(standing) => standing.is_reader(),
            None => false,
        }
    }

    /// The account that a trader trades for; None for any other user.
    pub fn account_of(&self, user: UserName) -> Option<AccountName>
        ensures { result ≡ option_and_then account_of_role (role_in self.now user) }
    {
        self.account_near(user, 0)
    }

    /// The same of a user who is looked for at this place of the policy's users first.
    #[inline(always)]
    pub fn account_near(&self, user: UserName, near: usize) -> Option<AccountName>
        ensures { result ≡ option_and_then account_of_role (role_in self.now user) }
    {
        match self.standing_near(user, near)? {
            CurrentRole::Trader(account) => Some(*account),
            _ => None,
        }
    }

    /// Whether the password, in upper case, is that of the user.
    #[tactic(auto, using(crate::proofs::Persons_table::password_found_is))]
    pub fn password_is(&self, user: UserName, password: Password) -> bool
        ensures { result ≡ password_is self.now user password }
    {
        match self.by_name.get(&user) {
            Some(person) => person.password == password,
            None => false,
        }
    }

    /// Whether the user is an officer with the power.
    pub fn has(&self, officer: UserName, power: Power) -> bool
        ensures { result ≡ has self.now officer power }
    {
        match self.standing(officer) {
            Some(CurrentRole::Officer(powers, _)) => power.is_among(*powers),
            _ => false,
        }
    }

    /// Whether the user is an officer with the account in his scope.
    pub fn holds(&self, officer: UserName, account: AccountName) -> bool
        ensures { result ≡ holds_account self.now officer account }
    {
        match self.standing(officer) {
            Some(CurrentRole::Officer(_, scope)) => scope.covers(account),
            _ => false,
        }
    }

    /// Whether the user is an officer with the power, and the account is one of his.
    /// Part of the interface: it is `has` and `holds` in one, and the program asks these.
    pub fn may(&self, officer: UserName, power: Power, account: AccountName) -> bool
        ensures { result ≡ may self.now officer power account }
    {
        self.has(officer, power) && self.holds(officer, account)
    }

    /// Whether the user is a reader, and the account is his now.
    pub fn sees(&self, reader: UserName, account: AccountName) -> bool
        ensures { result ≡ sees self.now reader account }
    {
        match self.standing(reader) {
            Some(standing) => standing.sees(account),
            None => false,
        }
    }

    /// Whether the user would see the account after the change.
    fn sees_after(&self, reader: UserName, change: Change, account: AccountName) -> bool
        ensures { result ≡ sees_after self.now reader change account }
    {
        match change {
            Change::Nothing => self.sees(reader, account),
            Change::Grant(shown) => account == shown || self.sees(reader, account),
            Change::Revoke(hidden) => account != hidden && self.sees(reader, account),
        }
    }

    /// The accounts of these that the reader would see after the change, as bits in their order,
    /// the first in the lowest. Takes no memory.
    fn mask_of(&self, accounts: &[Account], reader: UserName, change: Change) -> u64
        requires few { length accounts.now ≤ 64 }
        ensures bits { result ≡ mask_by (sees_after self.now reader change) accounts.now }
        ensures within { result < 2 ^ length accounts.now }
    {
        match accounts.split_first() {
            None => 0,
            Some((first, others)) => {
                let seen = self.sees_after(reader, change, first.name);
                u64::from(seen) + 2 * self.mask_of(others, reader, change)
            }
        }
    }

    /// The accounts of the policy that the reader would see after the change, as bits in the file's
    /// order, the first in the lowest. Takes no memory.
    fn mask_after(&self, policy: &Policy, reader: UserName, change: Change) -> u64
        ensures { result ≡ mask_by (sees_after self.now reader change) policy.now.accounts }
    {
        // What this ensures: there are at most 64 accounts.
        let _ = policy.rules();
        self.mask_of(policy.accounts(), reader, change)
    }

    /// The accounts that the reader sees now, as bits in the file's order, the first in the lowest.
    /// Takes no memory.
    pub fn mask(&self, policy: &Policy, reader: UserName) -> u64
        ensures { result ≡ mask_by (sees self.now reader) policy.now.accounts }
    {
        self.mask_after(policy, reader, Change::Nothing)
    }

    /// Those that he would see with this one. Takes no memory.
    pub fn mask_with(&self, policy: &Policy, reader: UserName, account: AccountName) -> u64
        ensures { result ≡ mask_by (sees_with self.now reader account) policy.now.accounts }
    {
        self.mask_after(policy, reader, Change::Grant(account))
    }

    /// Those that he would see without this one. Takes no memory.
    pub fn mask_without(&self, policy: &Policy, reader: UserName, account: AccountName) -> u64
        ensures { result ≡ mask_by (sees_without self.now reader account) policy.now.accounts }
    {
        self.mask_after(policy, reader, Change::Revoke(account))
    }

    /// The name of the reader whom an officer names, in the policy's own spelling. It looks at each user in turn.
    pub fn reader_named(&self, written: WrittenName) -> Option<UserName>
        ensures name { result ≡ option_map (λ u. u.name) (reader_in self.now written) }
        ensures reads { IfSome result (λ name. IsTrue (is_reader (role_in self.now name))) }
    {
        for (name, person) in self.by_name.iter() {
            if written.bytes.eq_ignore_ascii_case(&name.bytes) && person.standing.is_reader() {
                return Some(*name);
            }
        }
        None
    }

    /// Gives the reader the account. Takes no memory.
    pub fn grant(&mut self, reader: UserName, account: AccountName)
        requires known { IsTrue (is_reader (role_in self.old reader)) }
        requires room { IsTrue (has_room self.old reader account) }
        ensures granted { self.new ≡ granted_to reader account self.old }
        ensures pair { (user : UserName) (other : AccountName) → sees self.new user other
            ≡ ((same_user user reader && same_account other account)
            || sees self.old user other) }
    {
        let Some(person) = self.by_name.get_mut(&reader) else {
            return;
        };
        person.standing.grant(account);
    }

    /// Takes the account from the reader.
    pub fn revoke(&mut self, reader: UserName, account: AccountName)
        requires known { IsTrue (is_reader (role_in self.old reader)) }
        ensures revoked { self.new ≡ revoked_from reader account self.old }
        ensures pair { (user : UserName) (other : AccountName) → sees self.new user other
            ≡ (not (same_user user reader && same_account other account)
            && sees self.old user other) }
    {
        let Some(person) = self.by_name.get_mut(&reader) else {
            return;
        };
        person.standing.revoke(account);
    }

    /// Lets it go. Its drop is proved here once, and not in each crate that owns one.
    pub fn release(self) {}
}
