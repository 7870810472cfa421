//! Which records are asked for.

use gx_units::{AccountName, RuleId, Symbol, UserName};

/// An order, and how it ended.
#[derive(Clone, Copy)]
pub struct OrderLife {
    /// The number of the record that made it.
    pub number: u64,
    /// The number of the granted Kill or Close Day that it ended by; None where it did not end so.
    pub ended_by: Option<u64>,
}

/// Which records are asked for: those that concern all that is named here, and all records where nothing is.
#[derive(Clone, Copy)]
pub struct Choice {
    /// Requests of its traders, what became of its orders, commands that name it or a rule that covers it, and Close Day.
    pub account: Option<AccountName>,
    /// What the user asked for, and what became of his orders. His name is in upper case.
    pub user: Option<UserName>,
    /// The life of the order: the record that made it, each request that names it, what it came to in matching, and the
    /// Kill or Close Day that it ended by.
    pub order: Option<OrderLife>,
    /// Enters in the stock, what concerns orders in it, and the commands that put it on a list or take it off.
    pub stock: Option<Symbol>,
    /// Denials by the rule, and commands on it.
    pub rule: Option<RuleId>,
    /// Denied requests alone.
    pub only_denied: bool,
    /// No record of an earlier moment, in nanoseconds past midnight.
    pub from: u64,
    /// No record of a later moment, in nanoseconds past midnight.
    pub to: u64,
}

impl Choice {
    /// All records.
    pub const ALL: Choice = Choice {
        account: None,
        user: None,
        order: None,
        stock: None,
        rule: None,
        only_denied: false,
        from: 0,
        to: u64::MAX,
    };
}
