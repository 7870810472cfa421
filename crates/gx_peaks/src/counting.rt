//! Whether there is a rule for a figure.

ghost use Rattle.std.specs.Prelude.{◌≡◌};
ghost use Rattle.gx_peaks.specs.Figures.{counts, fits, is_counted};

use crate::figure::Figure;
use gx_history::facts::StockSide;
use gx_policy::{ExposureLimit, FileRule, Policy, RuleKind};
use gx_units::AccountName;

/// Whether a rule of this kind counts figures on a side of a stock, or on none.
fn fits(kind: &RuleKind, side: Option<StockSide>) -> bool
    ensures { result ≡ fits kind.now side }
{
    match kind {
        RuleKind::Exposure(ExposureLimit::GrossShares | ExposureLimit::GrossValue, _, _) => {
            side.is_none()
        },
        RuleKind::Exposure(ExposureLimit::NetShares, _, _) => side.is_some(),
        _ => false,
    }
}

/// Whether the rule is for the account, and counts figures on this side of a stock, or on none.
pub fn counts(rule: &FileRule, account: AccountName, side: Option<StockSide>) -> bool
    ensures { result ≡ counts rule.now account side }
{
    rule.scope.covers(account) && fits(&rule.kind, side)
}

/// Whether there is such a rule for the account.
#[tactic(auto, using(crate::proofs::Figure_sort::counted_is))]
pub fn is_counted(policy: &Policy, figure: Figure) -> bool
    ensures { result ≡ is_counted policy.now figure }
{
    let Some(rule) = policy.rule(figure.rule) else {
        return false;
    };
    policy.account(figure.account).is_some() && counts(rule, figure.account, figure.side)
}
