//! A record as a row of fields.

use gx_desk::{Tag, WrittenName};
use gx_policy::RuleName;
use gx_units::{AccountName, Firm, RuleId, Symbol, Token, UserName};

/// What a record is of.
#[derive(Clone, Copy, PartialEq, Eq)]
pub enum RowKind {
    /// A Login Request.
    Login,
    /// A Logout Request, or the end of a connection.
    Logout,
    /// A payload that is no message.
    Unreadable,
    /// An Enter Order.
    Enter,
    /// A Replace Order.
    Replace,
    /// A Cancel Order.
    Cancel,
    /// An officer's Kill.
    Kill,
    /// An officer's Lift.
    Lift,
    /// An officer's Set Limit.
    SetLimit,
    /// An officer's Restrict.
    Restrict,
    /// An officer's Unrestrict.
    Unrestrict,
    /// An officer's Grant.
    Grant,
    /// An officer's Revoke.
    Revoke,
    /// An officer's Close Day.
    CloseDay,
    /// A matching step.
    Match,
}

/// What became of it.
#[derive(Clone, Copy, PartialEq, Eq)]
pub enum RowVerdict {
    /// The request was granted.
    Granted,
    /// The request was denied.
    Denied,
    /// Two orders met, and both were executed.
    Filled,
    /// The order met nothing, and rests in the book.
    Rested,
    /// The immediate-or-cancel order met nothing, and has ended.
    Expired,
}

/// The fields of a record, one beside the other: None where a field is not one of such a record.
#[derive(Clone, Copy)]
pub struct Row {
    /// The number of the record; the first of the day is 1.
    pub number: u64,
    /// In nanoseconds past midnight.
    pub moment: u64,
    /// What the record is of.
    pub kind: RowKind,
    /// The moment that was handed in, in nanoseconds past midnight.
    pub handed: u64,
    /// What became of it.
    pub verdict: RowVerdict,
    /// The number of the connection, of a request.
    pub line: Option<u16>,
    /// Who asked.
    pub user: Option<UserName>,
    /// Of a login: whether the password was right.
    pub password_is_right: Option<bool>,
    /// Of a login: whether the session's name was right.
    pub session_is_right: Option<bool>,
    /// Of a login: the number of the first report that is wanted.
    pub wanted: Option<u64>,
    /// Of a payload that is no message, in bytes.
    pub length: Option<u16>,
    /// Of a payload that is no message: its first byte.
    pub first: Option<u8>,
    /// Of an Enter, or of the order that a Replace or a Cancel names.
    pub token: Option<Token>,
    /// Of the order that a Replace asks for.
    pub new_token: Option<Token>,
    /// Of an Enter.
    pub side: Option<u8>,
    /// Of an Enter, a Replace or a Cancel.
    pub shares: Option<u32>,
    /// Of an Enter, a Restrict or an Unrestrict.
    pub stock: Option<Symbol>,
    /// Of an Enter or a Replace, in ten-thousandths of a dollar.
    pub price: Option<u32>,
    /// Of an Enter or a Replace.
    pub time_in_force: Option<u32>,
    /// Of an Enter.
    pub firm: Option<Firm>,
    /// Of an Enter or a Replace.
    pub display: Option<u8>,
    /// Of an Enter.
    pub capacity: Option<u8>,
    /// Of an Enter or a Replace.
    pub intermarket_sweep: Option<u8>,
    /// Of an Enter or a Replace.
    pub minimum_quantity: Option<u32>,
    /// Of an Enter.
    pub cross_type: Option<u8>,
    /// Of an Enter.
    pub customer_type: Option<u8>,
    /// Of a command.
    pub tag: Option<Tag>,
    /// Of a Kill, a Lift, a Grant or a Revoke.
    pub named_account: Option<AccountName>,
    /// Of a Set Limit, a Restrict or an Unrestrict.
    pub named_rule: Option<RuleId>,
    /// Of a Set Limit.
    pub limit: Option<u64>,
    /// Of a Grant or a Revoke.
    pub reader: Option<WrittenName>,
    /// Of a denial: the rule that denied the request.
    pub rule: Option<RuleName>,
    /// Of a rest or an expiry: the order that came to rest, or expired.
    pub order: Option<u64>,
    /// Of a fill: the order that came in.
    pub taker: Option<u64>,
    /// Of a fill: the order that rested.
    pub maker: Option<u64>,
    /// Of a fill.
    pub fill_shares: Option<u32>,
    /// Of a fill, in ten-thousandths of a dollar.
    pub fill_price: Option<u32>,
}

/// No field but what each record has, of a matching step that is granted.
pub(crate) const BLANK: Row = Row {
    number: 0,
    moment: 0,
    kind: RowKind::Match,
    handed: 0,
    verdict: RowVerdict::Granted,
    line: None,
    user: None,
    password_is_right: None,
    session_is_right: None,
    wanted: None,
    length: None,
    first: None,
    token: None,
    new_token: None,
    side: None,
    shares: None,
    stock: None,
    price: None,
    time_in_force: None,
    firm: None,
    display: None,
    capacity: None,
    intermarket_sweep: None,
    minimum_quantity: None,
    cross_type: None,
    customer_type: None,
    tag: None,
    named_account: None,
    named_rule: None,
    limit: None,
    reader: None,
    rule: None,
    order: None,
    taker: None,
    maker: None,
    fill_shares: None,
    fill_price: None,
};
