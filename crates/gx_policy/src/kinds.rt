//! The kinds of rules that a policy file may have, each with its word, its letter and how its denials are told.

ghost use Rattle.std.specs.Prelude.{◌≡◌, [], unwrap_or};
ghost use Rattle.gx_policy.specs.Kinds.{is_gross, is_net, kind_letter, kind_meaning, kind_name, kind_reason, limit_of, stocks_of};

use crate::policy::RuleKind;
use gx_ouch::RejectReason;
use gx_units::Symbol;

/// Why stocks may not be traded.
#[derive(Clone, Copy, PartialEq, Eq)]
pub enum ListKind {
    /// They are halted.
    Halt,
    /// They are restricted.
    Restricted,
}

/// What an order may not be, whatever its size.
#[derive(Clone, Copy, PartialEq, Eq)]
pub enum PlainKind {
    /// A short sale.
    NoShort,
    /// An intermarket sweep order.
    NoIso,
    /// Of shares that are no multiple of 100.
    OddLot,
}

/// What one order may have at most.
#[derive(Clone, Copy, PartialEq, Eq)]
pub enum OrderLimit {
    /// Shares.
    Shares,
    /// Value, in ten-thousandths of a dollar.
    Value,
    /// A distance of its price from the reference, in ten-thousandths of the reference.
    Collar,
}

/// What accounts may have at most, open and executed.
#[derive(Clone, Copy, PartialEq, Eq)]
pub enum ExposureLimit {
    /// Shares.
    GrossShares,
    /// Value, in ten-thousandths of a dollar.
    GrossValue,
    /// Shares on one side of a stock, less those executed on the other.
    NetShares,
}

/// A kind of rule, whatever its stocks and its numbers are.
#[derive(Clone, Copy, PartialEq, Eq)]
pub enum KindName {
    /// Stocks that may not be traded.
    Listed(ListKind),
    /// What an order may not be.
    Plain(PlainKind),
    /// A limit of one order.
    Order(OrderLimit),
    /// A limit of open and executed shares, or of their value.
    Exposure(ExposureLimit),
    /// A limit of orders in a window of time.
    Rate,
    /// A limit of like orders among the last.
    Repeat,
}

/// The words of a rule's key `kind`, in the order in which they came: the last is of policy files of version 2 alone.
pub const KIND_WORDS: [(&str, KindName); 13] = [
    ("halt", KindName::Listed(ListKind::Halt)),
    ("restricted", KindName::Listed(ListKind::Restricted)),
    ("no_short", KindName::Plain(PlainKind::NoShort)),
    ("no_iso", KindName::Plain(PlainKind::NoIso)),
    ("odd_lot", KindName::Plain(PlainKind::OddLot)),
    ("order_shares", KindName::Order(OrderLimit::Shares)),
    ("order_value", KindName::Order(OrderLimit::Value)),
    ("collar", KindName::Order(OrderLimit::Collar)),
    (
        "gross_shares",
        KindName::Exposure(ExposureLimit::GrossShares),
    ),
    ("gross_value", KindName::Exposure(ExposureLimit::GrossValue)),
    ("rate", KindName::Rate),
    ("repeat", KindName::Repeat),
    ("net_shares", KindName::Exposure(ExposureLimit::NetShares)),
];

/// How many of [`KIND_WORDS`] a policy file of version 1 knows.
pub const FIRST_KINDS: usize = 12;

/// What the key `kind` of a policy file of version 1 may say, as a fault tells it.
pub const FIRST_KINDS_TOLD: &str =
    "one of \"halt\", \"restricted\", \"no_short\", \"no_iso\", \"odd_lot\", \"order_shares\", \"order_value\", \"collar\", \"gross_shares\", \"gross_value\", \"rate\" and \"repeat\"";

/// What that of version 2 may say.
pub const KINDS_TOLD: &str =
    "one of \"halt\", \"restricted\", \"no_short\", \"no_iso\", \"odd_lot\", \"order_shares\", \"order_value\", \"collar\", \"gross_shares\", \"gross_value\", \"rate\", \"repeat\" and \"net_shares\"";

impl RuleKind {
    /// The kind, without its stocks and its numbers.
    pub fn name(&self) -> KindName
        ensures { result ≡ kind_name self.now }
    {
        match self {
            RuleKind::Listed(kind, _) => KindName::Listed(*kind),
            RuleKind::Plain(kind) => KindName::Plain(*kind),
            RuleKind::Order(kind, _) => KindName::Order(*kind),
            RuleKind::Exposure(kind, _, _) => KindName::Exposure(*kind),
            RuleKind::Rate(_, _) => KindName::Rate,
            RuleKind::Repeat(_, _) => KindName::Repeat,
        }
    }

    /// The limit that Set Limit may change.
    pub fn limit(&self) -> Option<u64>
        ensures { result ≡ limit_of self.now }
    {
        match self {
            RuleKind::Order(_, limit) | RuleKind::Exposure(_, limit, _) => Some(*limit),
            RuleKind::Listed(_, _)
            | RuleKind::Plain(_)
            | RuleKind::Rate(_, _)
            | RuleKind::Repeat(_, _) => None,
        }
    }

    /// The stocks that Restrict and Unrestrict may change; none where the kind has no list.
    pub fn stocks(&self) -> &[Symbol]
        ensures { result.now ≡ unwrap_or (stocks_of self.now) [] }
    {
        match self {
            RuleKind::Listed(_, stocks) => stocks.as_slice(),
            _ => &[],
        }
    }

    /// Whether it is a rule on gross shares or on gross value.
    pub fn is_gross(&self) -> bool
        ensures { result ≡ is_gross self.now }
    {
        matches!(
            self,
            RuleKind::Exposure(ExposureLimit::GrossShares | ExposureLimit::GrossValue, _, _)
        )
    }

    /// Whether it is a rule on net shares.
    pub fn is_net(&self) -> bool
        ensures { result ≡ is_net self.now }
    {
        matches!(self, RuleKind::Exposure(ExposureLimit::NetShares, _, _))
    }
}

impl KindName {
    /// The letter that stands for it where a policy is digested. No two kinds have one letter.
    pub fn letter(self) -> u8
        ensures { result ≡ kind_letter self }
    {
        match self {
            KindName::Listed(ListKind::Halt) => b'H',
            KindName::Listed(ListKind::Restricted) => b'R',
            KindName::Plain(PlainKind::NoShort) => b'N',
            KindName::Plain(PlainKind::NoIso) => b'I',
            KindName::Plain(PlainKind::OddLot) => b'L',
            KindName::Order(OrderLimit::Shares) => b'S',
            KindName::Order(OrderLimit::Value) => b'V',
            KindName::Order(OrderLimit::Collar) => b'C',
            KindName::Exposure(ExposureLimit::GrossShares) => b'G',
            KindName::Exposure(ExposureLimit::GrossValue) => b'W',
            KindName::Exposure(ExposureLimit::NetShares) => b'T',
            KindName::Rate => b'Q',
            KindName::Repeat => b'P',
        }
    }

    /// The reason in the Rejected that answers a denial by a rule of this kind.
    pub fn reject_reason(self) -> RejectReason
        ensures { result ≡ kind_reason self }
    {
        match self {
            KindName::Listed(ListKind::Halt) => RejectReason::Halted,
            KindName::Listed(ListKind::Restricted) => RejectReason::RestrictedStock,
            KindName::Plain(PlainKind::NoShort) => RejectReason::ShortSale,
            KindName::Plain(PlainKind::NoIso) => RejectReason::IntermarketSweep,
            KindName::Plain(PlainKind::OddLot) => RejectReason::OddLot,
            KindName::Order(OrderLimit::Shares) => RejectReason::SharesExceedSafety,
            KindName::Order(OrderLimit::Value) => RejectReason::DollarLimit,
            KindName::Order(OrderLimit::Collar) => RejectReason::InvalidPrice,
            KindName::Exposure(ExposureLimit::GrossShares) => RejectReason::SharesLimit,
            KindName::Exposure(ExposureLimit::GrossValue) => RejectReason::DollarLimit,
            KindName::Exposure(ExposureLimit::NetShares) => RejectReason::SharesLimit,
            KindName::Rate => RejectReason::Other,
            KindName::Repeat => RejectReason::Other,
        }
    }

    /// What a denial by a rule of this kind means, in words.
    pub fn meaning(self) -> &'static [u8]
        ensures { result.now ≡ kind_meaning self }
    {
        match self {
            KindName::Listed(ListKind::Halt) => b"stock is halted",
            KindName::Listed(ListKind::Restricted) => b"stock is restricted",
            KindName::Plain(PlainKind::NoShort) => b"short sales are not taken",
            KindName::Plain(PlainKind::NoIso) => b"intermarket sweeps are not taken",
            KindName::Plain(PlainKind::OddLot) => b"shares are no multiple of 100",
            KindName::Order(OrderLimit::Shares) => b"more shares than one order may have",
            KindName::Order(OrderLimit::Value) => b"more value than one order may have",
            KindName::Order(OrderLimit::Collar) => b"price is off the collar",
            KindName::Exposure(ExposureLimit::GrossShares) => {
                b"more open and executed shares than the limit"
            }
            KindName::Exposure(ExposureLimit::GrossValue) => {
                b"more open and executed value than the limit"
            }
            KindName::Exposure(ExposureLimit::NetShares) => b"more shares on a side than the limit",
            KindName::Rate => b"more orders than the limit in the window",
            KindName::Repeat => b"more like orders than the limit",
        }
    }
}
