//! What a rule of the file asks to be counted.

ghost use Rattle.std.specs.Prelude.{◌≡◌};
ghost use Rattle.gx_ledger.specs.Tallies.{asks_of, count_of};

use gx_policy::{Count, ExposureLimit, Rate, Repeat, RuleKind};

/// What a rule asks for.
#[derive(Clone, Copy)]
pub enum FigureKind {
    /// No figure of accounts or stocks.
    Nothing,
    /// The last price of the stock, which is all that a limit of one order can ask for.
    Reference,
    /// Open and executed shares.
    Shares,
    /// Their value.
    Value,
    /// Open and executed shares on the sides of a stock.
    Sides,
    /// Recent orders.
    Recent(Rate),
    /// Like ones among the last.
    Alike(Repeat),
}

impl FigureKind {
    /// What a rule of this kind asks for.
    pub fn of(kind: &RuleKind) -> FigureKind
        ensures { result ≡ asks_of kind.now }
    {
        match kind {
            RuleKind::Listed(_, _) | RuleKind::Plain(_) => FigureKind::Nothing,
            RuleKind::Order(_, _) => FigureKind::Reference,
            RuleKind::Exposure(ExposureLimit::GrossShares, _, _) => FigureKind::Shares,
            RuleKind::Exposure(ExposureLimit::GrossValue, _, _) => FigureKind::Value,
            RuleKind::Exposure(ExposureLimit::NetShares, _, _) => FigureKind::Sides,
            RuleKind::Rate(rate, _) => FigureKind::Recent(*rate),
            RuleKind::Repeat(repeat, _) => FigureKind::Alike(*repeat),
        }
    }
}

/// Whose orders count together; None where the kind counts nothing.
pub fn count_of(kind: &RuleKind) -> Option<Count>
    ensures { result ≡ count_of kind.now }
{
    match kind {
        RuleKind::Exposure(_, _, count) | RuleKind::Rate(_, count) | RuleKind::Repeat(_, count) =>
            Some(*count),
        RuleKind::Listed(_, _) | RuleKind::Plain(_) | RuleKind::Order(_, _) => None,
    }
}
