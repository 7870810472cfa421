//! Which figures there are, and what each comes to.

ghost use Rattle.std.specs.Prelude.{◌≡◌};
ghost use Rattle.gx_peaks.specs.Figures.{above_zero, used_of};

use gx_history::facts::StockSide;
use gx_records::ShowsState;
use gx_units::{AccountName, RuleId};

/// What one gross or net rule counts of one account, or of all accounts of its scope where it counts them together.
#[derive(Clone, Copy, PartialEq, Eq)]
pub struct Figure {
    /// The name of the rule.
    pub rule: RuleId,
    /// An account that the rule is for: any of them where all are counted together.
    pub account: AccountName,
    /// The side of a stock that a net rule counts; None for a gross rule.
    pub side: Option<StockSide>,
}

/// How far a net figure is above 0.
fn above_zero(net: i128) -> u128
    ensures { result ≡ above_zero net }
{
    if net < 0 { 0 } else { net as u128 }
}

impl Figure {
    /// What it comes to behind the gate's records: shares, or ten-thousandths of a dollar. None where there is no such rule
    /// for the account.
    pub fn used<G: ShowsState>(self, gate: &G) -> Option<u128>
        ensures { result ≡ used_of (G.state gate.now).policy self (G.state gate.now).records }
    {
        match self.side {
            None => gate.gross_used(self.rule, self.account),
            Some(side) => gate.net_used(self.rule, self.account, side).map(above_zero),
        }
    }
}
