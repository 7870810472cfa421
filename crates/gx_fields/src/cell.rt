//! The cells of a row, as they stand beside one another in a table.

ghost use Rattle.std.specs.Prelude.{◌≡◌, option_map};
ghost use Rattle.gx_fields.specs.Cells.{cells_of};

use crate::reasons::Reason;
use crate::row::{Row, RowKind, RowVerdict};
use gx_desk::{Tag, WrittenName};
use gx_ouch::RejectReason;
use gx_policy::RuleName;
use gx_units::{AccountName, Firm, Moment, RuleId, Symbol, Token, UserName};

/// How many cells a row has.
pub const CELLS: usize = 43;

/// The names of the cells, in their order.
pub const NAMES: [&str; CELLS] = [
    "number",
    "moment",
    "clock",
    "line",
    "user",
    "account",
    "kind",
    "handed",
    "token",
    "new_token",
    "side",
    "shares",
    "stock",
    "price",
    "time_in_force",
    "firm",
    "display",
    "capacity",
    "intermarket_sweep",
    "minimum_quantity",
    "cross_type",
    "customer_type",
    "tag",
    "named_account",
    "named_rule",
    "limit",
    "reader",
    "password",
    "session",
    "wanted",
    "length",
    "first",
    "verdict",
    "rule",
    "reason",
    "reject",
    "order",
    "taker",
    "maker",
    "fill_shares",
    "fill_price",
    "ended_orders",
    "ended_shares",
];

/// Live orders that a Kill or a Close Day ended.
#[derive(Clone, Copy, PartialEq, Eq)]
pub struct EndedOrders {
    /// How many live orders ended.
    pub orders: u64,
    /// The shares that these had open.
    pub shares: u64,
}

/// What is told beside the fields of a record.
#[derive(Clone, Copy)]
pub struct Beside {
    /// The account of the trader who asked.
    pub account: Option<AccountName>,
    /// Of a denial: why, in words.
    pub reason: Option<Reason>,
    /// Of a denial that is answered by a Rejected: its reason.
    pub reject: Option<RejectReason>,
    /// What the record ended, where it is a granted Kill or Close Day and that is known.
    pub ended: Option<EndedOrders>,
}

/// A cell: nothing stands in it where its value is None.
#[derive(Clone, Copy)]
pub enum Cell {
    /// A number of at most 64 bits.
    Number(Option<u64>),
    /// A number of at most 32 bits.
    Number32(Option<u32>),
    /// A number of at most 16 bits.
    Number16(Option<u16>),
    /// A number of at most 8 bits.
    Number8(Option<u8>),
    /// A moment as a clock shows it.
    Clock(Moment),
    /// A field of one byte.
    Letter(Option<u8>),
    /// The name of a user.
    User(Option<UserName>),
    /// The name of an account.
    Account(Option<AccountName>),
    /// The name of a stock.
    Stock(Option<Symbol>),
    /// The name of a rule of the policy file.
    RuleId(Option<RuleId>),
    /// The token of an order.
    Token(Option<Token>),
    /// The firm that an order is entered for.
    Firm(Option<Firm>),
    /// The tag of a command.
    Tag(Option<Tag>),
    /// The name of a user as an officer wrote it.
    Reader(Option<WrittenName>),
    /// What the record is of.
    Kind(RowKind),
    /// What became of it.
    Verdict(RowVerdict),
    /// The answer on a password or a session name.
    Right(Option<bool>),
    /// The rule that denied a request.
    Rule(Option<RuleName>),
    /// Why a request was denied, in words.
    Reason(Option<Reason>),
    /// The reason in the Rejected that answers a denial.
    Reject(Option<RejectReason>),
}

fn orders_ended(ended: Option<EndedOrders>) -> Option<u64>
    ensures { result ≡ option_map (λ (e : EndedOrders). e.orders) ended }
{
    match ended {
        Some(ended) => Some(ended.orders),
        None => None,
    }
}

fn shares_ended(ended: Option<EndedOrders>) -> Option<u64>
    ensures { result ≡ option_map (λ (e : EndedOrders). e.shares) ended }
{
    match ended {
        Some(ended) => Some(ended.shares),
        None => None,
    }
}

/// The cells of a row, in the order of their names.
pub fn cells_of(row: &Row, beside: &Beside) -> [Cell; CELLS]
    ensures { result ≡ cells_of row.now beside.now }
{
    [
        Cell::Number(Some(row.number)),
        Cell::Number(Some(row.moment)),
        Cell::Clock(row.moment),
        Cell::Number16(row.line),
        Cell::User(row.user),
        Cell::Account(beside.account),
        Cell::Kind(row.kind),
        Cell::Number(Some(row.handed)),
        Cell::Token(row.token),
        Cell::Token(row.new_token),
        Cell::Letter(row.side),
        Cell::Number32(row.shares),
        Cell::Stock(row.stock),
        Cell::Number32(row.price),
        Cell::Number32(row.time_in_force),
        Cell::Firm(row.firm),
        Cell::Letter(row.display),
        Cell::Letter(row.capacity),
        Cell::Letter(row.intermarket_sweep),
        Cell::Number32(row.minimum_quantity),
        Cell::Letter(row.cross_type),
        Cell::Letter(row.customer_type),
        Cell::Tag(row.tag),
        Cell::Account(row.named_account),
        Cell::RuleId(row.named_rule),
        Cell::Number(row.limit),
        Cell::Reader(row.reader),
        Cell::Right(row.password_is_right),
        Cell::Right(row.session_is_right),
        Cell::Number(row.wanted),
        Cell::Number16(row.length),
        Cell::Number8(row.first),
        Cell::Verdict(row.verdict),
        Cell::Rule(row.rule),
        Cell::Reason(beside.reason),
        Cell::Reject(beside.reject),
        Cell::Number(row.order),
        Cell::Number(row.taker),
        Cell::Number(row.maker),
        Cell::Number32(row.fill_shares),
        Cell::Number32(row.fill_price),
        Cell::Number(orders_ended(beside.ended)),
        Cell::Number(shares_ended(beside.ended)),
    ]
}
