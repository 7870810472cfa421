//! What the policy file says.

ghost use Rattle.std.specs.Prelude.{◌≡◌, List, IfOk};

use crate::kinds::{ExposureLimit, ListKind, OrderLimit, PlainKind};
use gx_units::{AccountName, Firm, OutOfMemory, Password, RuleId, SessionName, Symbol, UserName};
use std::alloc::Global;
use std::marker::Model;

/// A customer's account, and the firm that orders of it are entered for.
#[derive(Clone, Copy, PartialEq, Eq)]
pub struct Account {
    /// The name of the account.
    pub name: AccountName,
    /// The firm that its orders have to name: OUCH's Firm.
    pub firm: Firm,
}

/// A listed stock.
#[derive(Clone, Copy, PartialEq, Eq)]
pub struct Stock {
    /// Its name: OUCH's Stock.
    pub name: Symbol,
    /// The price that collars use until the day's first fill, in ten-thousandths of a dollar.
    pub reference: u32,
}

/// Which accounts a rule or an officer is for.
#[derive(Drop)]
pub enum Scope {
    /// All accounts of the policy.
    All,
    /// These alone.
    Only(AccountNames),
}

impl Scope {
    ghost use Rattle.gx_policy.specs.People.{covers};

    /// Whether the account is in scope.
    pub fn covers(&self, account: AccountName) -> bool
        ensures { result ≡ covers self.now account }
    {
        match self {
            Scope::All => true,
            Scope::Only(names) => names.contains(account),
        }
    }

    /// A scope of its own of the same accounts.
    ///
    /// # Errors
    ///
    /// `OutOfMemory` where memory was refused.
    pub fn copied(&self, alloc: Global) -> Result<Scope, OutOfMemory>
        ensures { IfOk result (λ scope. scope ≡ self.now) }
    {
        match self {
            Scope::All => Ok(Scope::All),
            Scope::Only(names) => Ok(Scope::Only(names.copied(alloc)?)),
        }
    }
}

/// What an officer may do: each power is for the commands of its name.
#[derive(Clone, Copy, PartialEq, Eq)]
pub struct Powers {
    /// Kill.
    pub kill: bool,
    /// Lift.
    pub lift: bool,
    /// Set Limit.
    pub limits: bool,
    /// Restrict and Unrestrict.
    pub symbols: bool,
    /// Grant and Revoke.
    pub people: bool,
    /// Close Day.
    pub close: bool,
}

/// What a user is.
#[derive(Drop)]
pub enum Role {
    /// Enters orders for this account.
    Trader(AccountName),
    /// Gives commands, within his powers and his accounts.
    Officer(Powers, Scope),
    /// Is shown the fills of accounts, at first of these.
    Reader(AccountNames),
}

/// Someone who may log in.
#[derive(Drop)]
pub struct User {
    /// In upper case.
    pub name: UserName,
    /// In upper case.
    pub password: Password,
    /// What he may do.
    pub role: Role,
}

/// Whether a limit holds for each account or for all in scope.
#[derive(Clone, Copy, PartialEq, Eq)]
pub enum Count {
    /// For each account by itself.
    Each,
    /// For all accounts in scope, counted together.
    Together,
}

/// At most so many orders in a window of time.
#[derive(Clone, Copy, PartialEq, Eq)]
pub struct Rate {
    /// The greatest number of orders in the window.
    pub limit: u64,
    /// In nanoseconds.
    pub window: u64,
}

/// At most so many alike among the last orders.
#[derive(Clone, Copy, PartialEq, Eq)]
pub struct Repeat {
    /// The greatest number of like orders among them.
    pub limit: u64,
    /// How many of the last orders are looked at.
    pub span: u64,
}

/// What a rule of the file forbids an Enter or a Replace.
#[derive(Drop)]
pub enum RuleKind {
    /// Orders in these stocks.
    Listed(ListKind, Symbols),
    /// Orders that are so.
    Plain(PlainKind),
    /// More than this in one order.
    Order(OrderLimit, u64),
    /// More than this, open and executed.
    Exposure(ExposureLimit, u64, Count),
    /// More orders than this in a window of time.
    Rate(Rate, Count),
    /// More like orders than this among the last, an Enter alone.
    Repeat(Repeat, Count),
}

/// A rule of the policy file. It is for orders of the accounts in its scope.
#[derive(Drop)]
pub struct FileRule {
    /// The name of the rule.
    pub name: RuleId,
    /// What it forbids.
    pub kind: RuleKind,
    /// The accounts that it is for.
    pub scope: Scope,
}

/// How many different officers have to lift an account since its last Kill, before it is killed no longer.
#[derive(Clone, Copy, PartialEq, Eq)]
pub enum Lifters {
    /// One officer.
    One,
    /// Two different officers.
    Two,
}

/// What the policy file says, in its order.
#[derive(Drop)]
pub struct PolicyData {
    /// The name of the day's session, which SoupBinTCP calls Session.
    pub session: SessionName,
    /// How many officers have to lift an account.
    pub lifters: Lifters,
    /// The accounts of customers.
    pub accounts: Accounts,
    /// The stocks that are listed.
    pub stocks: Stocks,
    /// Who may log in.
    pub users: Users,
    /// The rules of the file; the built-in ones are not among them.
    pub rules: FileRules,
}

/// A policy whose limits, spelling and names are those of a policy file.
#[derive(Drop)]
pub struct Policy {
    inner: PolicyData,
}

impl Model for Policy {
    ghost use Rattle.std.specs.Prelude.{IsTrue};
    ghost use Rattle.gx_policy.specs.declared.policy.PolicyData.{PolicyData};
    ghost use Rattle.gx_policy.specs.Soundness.{is_sound};

    ghost Value = { PolicyData };

    ghost view = { λ policy. policy.inner };

    ghost invariant = { λ policy. IsTrue (is_sound policy.inner) };
}

impl Policy {
    ghost use Rattle.std.specs.Prelude.{IsTrue};
    ghost use Rattle.gx_policy.specs.Soundness.{is_sound};

    /// The policy that this data says.
    pub fn new(given: PolicyData) -> Policy
        requires { IsTrue (is_sound given) }
        ensures { result ≡ given }
    {
        Policy { inner: given }
    }

    /// The name of the day's session.
    pub fn session(&self) -> SessionName
        ensures { result ≡ self.now.session }
    {
        self.inner.session
    }

    /// How many different officers have to lift a killed account.
    pub fn lifters(&self) -> Lifters
        ensures { result ≡ self.now.lifters }
    {
        self.inner.lifters
    }

    /// The accounts, in the file's order.
    pub fn accounts(&self) -> &[Account]
        ensures { result.now ≡ self.now.accounts }
    {
        self.inner.accounts.as_slice()
    }

    /// The listed stocks, in the file's order.
    pub fn stocks(&self) -> &[Stock]
        ensures { result.now ≡ self.now.stocks }
    {
        self.inner.stocks.as_slice()
    }

    /// The users, in the file's order.
    pub fn users(&self) -> &[User]
        ensures { result.now ≡ self.now.users }
    {
        self.inner.users.as_slice()
    }

    /// The file's rules, in their order, which is the order in which they are asked.
    pub fn rules(&self) -> &[FileRule]
        ensures same { result.now ≡ self.now.rules }
        ensures sound { IsTrue (is_sound self.now) }
    {
        self.inner.rules.as_slice()
    }

    /// Lets it go. Its drop is proved here once, and not in each crate that owns one.
    pub fn release(self) {}
}

/// Names of accounts.
#[derive(Drop)]
pub struct AccountNames {
    items: Vec<AccountName>,
}

impl Model for AccountNames {
    ghost use Rattle.std.specs.Prelude.{List};
    ghost use Rattle.gx_units.specs.declared.names.AccountName.{AccountName};

    ghost Value = { List AccountName };

    ghost view = { λ list. list.items.items };
}

impl AccountNames {
    ghost use Rattle.gx_policy.specs.People.{names_account};

    /// The list of these items.
    pub fn new(items: Vec<AccountName>) -> AccountNames
        ensures { result ≡ items.items }
    {
        AccountNames { items }
    }

    /// The items, in their order.
    pub fn as_slice(&self) -> &[AccountName]
        ensures { result.now ≡ self.now }
    {
        self.items.as_slice()
    }

    /// Whether the account is among them.
    pub fn contains(&self, account: AccountName) -> bool
        ensures { result ≡ names_account self.now account }
    {
        self.items.as_slice().iter().any(|name| *name == account)
    }

    /// A list of its own of the same items.
    ///
    /// # Errors
    ///
    /// `OutOfMemory` where memory was refused.
    pub fn copied(&self, alloc: Global) -> Result<AccountNames, OutOfMemory>
        ensures { IfOk result (λ names. names ≡ self.now) }
    {
        Ok(AccountNames::new(self.items.as_slice().to_vec(alloc)?))
    }
}

/// Names of stocks.
#[derive(Drop)]
pub struct Symbols {
    items: Vec<Symbol>,
}

impl Model for Symbols {
    ghost use Rattle.std.specs.Prelude.{List};
    ghost use Rattle.gx_units.specs.declared.names.Symbol.{Symbol};

    ghost Value = { List Symbol };

    ghost view = { λ list. list.items.items };
}

impl Symbols {
    /// The list of these items.
    pub fn new(items: Vec<Symbol>) -> Symbols
        ensures { result ≡ items.items }
    {
        Symbols { items }
    }

    /// The items, in their order.
    pub fn as_slice(&self) -> &[Symbol]
        ensures { result.now ≡ self.now }
    {
        self.items.as_slice()
    }
}

/// The accounts, in the file's order.
#[derive(Drop)]
pub struct Accounts {
    items: Vec<Account>,
}

impl Model for Accounts {
    ghost use Rattle.std.specs.Prelude.{List};
    ghost use Rattle.gx_policy.specs.declared.policy.Account.{Account};

    ghost Value = { List Account };

    ghost view = { λ list. list.items.items };
}

impl Accounts {
    /// The list of these items.
    pub fn new(items: Vec<Account>) -> Accounts
        ensures { result ≡ items.items }
    {
        Accounts { items }
    }

    /// The items, in their order.
    pub fn as_slice(&self) -> &[Account]
        ensures { result.now ≡ self.now }
    {
        self.items.as_slice()
    }
}

/// The stocks, in the file's order.
#[derive(Drop)]
pub struct Stocks {
    items: Vec<Stock>,
}

impl Model for Stocks {
    ghost use Rattle.std.specs.Prelude.{List};
    ghost use Rattle.gx_policy.specs.declared.policy.Stock.{Stock};

    ghost Value = { List Stock };

    ghost view = { λ list. list.items.items };
}

impl Stocks {
    /// The list of these items.
    pub fn new(items: Vec<Stock>) -> Stocks
        ensures { result ≡ items.items }
    {
        Stocks { items }
    }

    /// The items, in their order.
    pub fn as_slice(&self) -> &[Stock]
        ensures { result.now ≡ self.now }
    {
        self.items.as_slice()
    }
}

/// The users, in the file's order.
#[derive(Drop)]
pub struct Users {
    items: Vec<User>,
}

impl Model for Users {
    ghost use Rattle.std.specs.Prelude.{List};
    ghost use Rattle.gx_policy.specs.declared.policy.User.{User};

    ghost Value = { List User };

    ghost view = { λ list. list.items.items };
}

impl Users {
    /// The list of these items.
    pub fn new(items: Vec<User>) -> Users
        ensures { result ≡ items.items }
    {
        Users { items }
    }

    /// The items, in their order.
    pub fn as_slice(&self) -> &[User]
        ensures { result.now ≡ self.now }
    {
        self.items.as_slice()
    }
}

/// The rules, in the file's order.
#[derive(Drop)]
pub struct FileRules {
    items: Vec<FileRule>,
}

impl Model for FileRules {
    ghost use Rattle.std.specs.Prelude.{List};
    ghost use Rattle.gx_policy.specs.declared.policy.FileRule.{FileRule};

    ghost Value = { List FileRule };

    ghost view = { λ list. list.items.items };
}

impl FileRules {
    /// The list of these items.
    pub fn new(items: Vec<FileRule>) -> FileRules
        ensures { result ≡ items.items }
    {
        FileRules { items }
    }

    /// The items, in their order.
    pub fn as_slice(&self) -> &[FileRule]
        ensures { result.now ≡ self.now }
    {
        self.items.as_slice()
    }
}
