//! A policy of one's own.

ghost use Rattle.std.specs.Prelude.{◌≡◌, IfOk};

use crate::policy::{
    Accounts, FileRule, FileRules, Policy, PolicyData, Role, RuleKind, Stocks, Symbols, User, Users,
};
use gx_units::OutOfMemory;
use std::alloc::Global;

fn copied_symbols(alloc: Global, names: &Symbols) -> Result<Symbols, OutOfMemory>
    ensures { IfOk result (λ r. r ≡ names.now) }
{
    Ok(Symbols::new(names.as_slice().to_vec(alloc)?))
}

fn copied_role(alloc: Global, role: &Role) -> Result<Role, OutOfMemory>
    ensures { IfOk result (λ r. r ≡ role.now) }
{
    match role {
        Role::Trader(account) => Ok(Role::Trader(*account)),
        Role::Officer(powers, scope) => Ok(Role::Officer(*powers, scope.copied(alloc)?)),
        Role::Reader(names) => Ok(Role::Reader(names.copied(alloc)?)),
    }
}

fn copied_kind(alloc: Global, kind: &RuleKind) -> Result<RuleKind, OutOfMemory>
    ensures { IfOk result (λ r. r ≡ kind.now) }
{
    match kind {
        RuleKind::Listed(kind, stocks) => Ok(RuleKind::Listed(
            *kind,
            copied_symbols(alloc, stocks)?,
        )),
        RuleKind::Plain(kind) => Ok(RuleKind::Plain(*kind)),
        RuleKind::Order(kind, limit) => Ok(RuleKind::Order(*kind, *limit)),
        RuleKind::Exposure(kind, limit, count) => Ok(RuleKind::Exposure(*kind, *limit, *count)),
        RuleKind::Rate(rate, count) => Ok(RuleKind::Rate(*rate, *count)),
        RuleKind::Repeat(repeat, count) => Ok(RuleKind::Repeat(*repeat, *count)),
    }
}

fn copied_user(alloc: Global, user: &User) -> Result<User, OutOfMemory>
    ensures { IfOk result (λ r. r ≡ user.now) }
{
    let role = copied_role(alloc, &user.role)?;
    Ok(User {
        name: user.name,
        password: user.password,
        role,
    })
}

fn copied_rule(alloc: Global, rule: &FileRule) -> Result<FileRule, OutOfMemory>
    ensures { IfOk result (λ r. r ≡ rule.now) }
{
    let kind = copied_kind(alloc, &rule.kind)?;
    let scope = rule.scope.copied(alloc)?;
    Ok(FileRule {
        name: rule.name,
        kind,
        scope,
    })
}

fn copied_users(alloc: Global, users: &[User]) -> Result<Users, OutOfMemory>
    ensures { IfOk result (λ r. r ≡ users.now) }
{
    let mut copies = Vec::new(alloc);
    for user in users {
        copies.push(copied_user(alloc, user)?)?;
    }
    Ok(Users::new(copies))
}

fn copied_rules(alloc: Global, rules: &[FileRule]) -> Result<FileRules, OutOfMemory>
    ensures { IfOk result (λ r. r ≡ rules.now) }
{
    let mut copies = Vec::new(alloc);
    for rule in rules {
        copies.push(copied_rule(alloc, rule)?)?;
    }
    Ok(FileRules::new(copies))
}

impl Policy {
    /// A policy of its own that says the same.
    ///
    /// # Errors
    ///
    /// `OutOfMemory` where memory was refused.
    pub fn copied(&self, alloc: Global) -> Result<Policy, OutOfMemory>
        ensures { IfOk result (λ policy. policy ≡ self.now) }
    {
        let rules = copied_rules(alloc, self.rules())?;
        let accounts = Accounts::new(self.accounts().to_vec(alloc)?);
        let stocks = Stocks::new(self.stocks().to_vec(alloc)?);
        let users = copied_users(alloc, self.users())?;
        Ok(Policy::new(PolicyData {
            session: self.session(),
            lifters: self.lifters(),
            accounts,
            stocks,
            users,
            rules,
        }))
    }
}
