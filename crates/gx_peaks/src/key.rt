//! Under which key the peak of a figure is kept.

ghost use Rattle.std.specs.Prelude.{◌≡◌};
ghost use Rattle.gx_peaks.specs.Keys.{account_bytes, key_of, stock_bytes, whose};

use crate::figure::Figure;
use gx_history::facts::StockSide;
use gx_policy::{Count, Policy, RuleKind};
use gx_units::{AccountName, RuleId};
use std::hash::{Hash, Hasher};

/// Whose figure it is, and of which rule: figures of one key are one figure.
#[derive(Clone, Copy, PartialEq, Eq)]
pub struct PeakKey {
    /// The name of the rule.
    pub rule: RuleId,
    /// The account; None where the rule counts all accounts of its scope together.
    pub whose: Option<AccountName>,
    /// The side of a stock that a net rule counts; None for a gross rule.
    pub side: Option<StockSide>,
}

/// The account's bytes; zeros where there is none.
fn account_bytes(whose: Option<AccountName>) -> [u8; 8]
    ensures { result ≡ account_bytes whose }
{
    match whose {
        Some(account) => account.bytes,
        None => [0; 8],
    }
}

/// The bytes of the side's stock; zeros where there is none.
fn stock_bytes(side: Option<StockSide>) -> [u8; 8]
    ensures { result ≡ stock_bytes side }
{
    match side {
        Some(side) => side.stock.bytes,
        None => [0; 8],
    }
}

impl Hash for PeakKey {
    ghost use Rattle.gx_peaks.specs.Keys.{key_bytes};
    ghost use Rattle.gx_peaks.specs.Same.{same_bytes};

    ghost hash_input = { key_bytes };

    ghost respects_eq = { same_bytes };

    fn hash<H: Hasher>(&self, state: &mut H) {
        state.write(&self.rule.bytes);
        state.write(&account_bytes(self.whose));
        state.write(&stock_bytes(self.side));
    }
}

/// The account, where a rule of this kind counts it by itself.
fn whose(kind: &RuleKind, account: AccountName) -> Option<AccountName>
    ensures { result ≡ whose kind.now account }
{
    match kind {
        RuleKind::Exposure(_, _, Count::Each) => Some(account),
        _ => None,
    }
}

/// The key of the figure's peak.
pub fn key_of(policy: &Policy, figure: Figure) -> PeakKey
    ensures { result ≡ key_of policy.now figure }
{
    let whose = match policy.rule(figure.rule) {
        Some(rule) => whose(&rule.kind, figure.account),
        None => None,
    };
    PeakKey {
        rule: figure.rule,
        whose,
        side: figure.side,
    }
}
