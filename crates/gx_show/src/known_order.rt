//! What is kept of an order.

ghost use Rattle.std.specs.Prelude.{◌≡◌};
ghost use Rattle.gx_show.specs.Testing.{passes};

use gx_units::{AccountName, Symbol, Token, UserName};

/// What is kept of an order, to tell which records speak of it.
#[derive(Clone, Copy, PartialEq, Eq)]
pub struct KnownOrder {
    /// The number of the record that granted it.
    pub number: u64,
    /// Who entered it, in upper case.
    pub user: UserName,
    /// The account that he trades for.
    pub account: AccountName,
    /// The token that it was asked for under.
    pub token: Token,
    /// The stock that it trades.
    pub stock: Symbol,
}

/// Which orders are looked for.
#[derive(Clone, Copy)]
pub(crate) enum OrderTest {
    OfAccount(AccountName),
    OfUser(UserName),
    Numbered(u64),
    InStock(Symbol),
}

impl KnownOrder {
    /// Whether it is one of those that are looked for.
    pub(crate) fn passes(&self, test: OrderTest) -> bool
        ensures { result ≡ passes test self.now }
    {
        match test {
            OrderTest::OfAccount(account) => self.account == account,
            OrderTest::OfUser(user) => self.user == user,
            OrderTest::Numbered(number) => self.number == number,
            OrderTest::InStock(stock) => self.stock == stock,
        }
    }
}
