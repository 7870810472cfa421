//! What is kept of one live order.

ghost use Rattle.std.specs.Prelude.{◌≡◌};
ghost use Rattle.gx_history.specs.LiveOrders.{is_under, replacement_order, shares_open, token_of};
ghost use Rattle.gx_units.specs.Names.{same_account};

use crate::record::RecordData;
use gx_ouch::{OrderTerms, ReplaceOrder};
use gx_units::{AccountName, Token, UserName};

/// A user, and one of his tokens.
#[derive(Clone, Copy, PartialEq, Eq, Hash)]
pub struct UserToken {
    /// The name in upper case.
    pub user: UserName,
    /// The token, compared as bytes.
    pub token: Token,
}

/// An order that has shares open. Shares are counted singly.
#[derive(Clone, Copy, PartialEq, Eq)]
pub struct LiveOrder {
    /// The number of the record that granted it.
    pub number: u64,
    /// Who entered it, in upper case.
    pub user: UserName,
    /// The account that he trades for.
    pub account: AccountName,
    /// The token that it was asked for under.
    pub token: Token,
    /// As asked for; side, stock, capacity and cross type are those of its chain.
    pub terms: OrderTerms,
    /// The size asked for, or the one that its last Cancel set.
    pub total: u32,
    /// The shares that its chain has executed.
    pub done: u32,
    /// It waits to be matched: it has not come to rest.
    pub waits: bool,
}

impl LiveOrder {
    /// The shares that may still be executed.
    pub fn open(&self) -> u32
        ensures { result ≡ shares_open self.now }
    {
        self.total.saturating_sub(self.done)
    }

    /// It is one of the user, and was asked for under the token.
    pub fn is_under(&self, user: UserName, token: Token) -> bool
        ensures { result ≡ is_under user token self.now }
    {
        self.user == user && self.token == token
    }

    /// It is one of the account.
    pub fn is_of_account(&self, account: AccountName) -> bool
        ensures { result ≡ same_account account self.now.account }
    {
        account == self.account
    }

    /// The user and the token that it was asked for under.
    pub fn user_token(&self) -> UserToken
        ensures { result ≡ token_of self.now }
    {
        UserToken {
            user: self.user,
            token: self.token,
        }
    }

    /// The order that comes in its place by a granted Replace, whose record this is: its chain's, with the terms that are
    /// asked for now. It waits, behind all others.
    pub fn replaced_by(&self, left: &RecordData, m: &ReplaceOrder) -> LiveOrder
        ensures { result ≡ replacement_order left.now m.now self.now }
    {
        LiveOrder {
            number: left.number,
            token: m.replacement_token,
            terms: OrderTerms {
                shares: m.shares,
                price: m.price,
                time_in_force: m.time_in_force,
                display: m.display,
                intermarket_sweep: m.intermarket_sweep,
                minimum_quantity: m.minimum_quantity,
                ..self.terms
            },
            total: m.shares,
            waits: true,
            ..*self
        }
    }
}
