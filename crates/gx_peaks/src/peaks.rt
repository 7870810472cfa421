//! The peaks of all figures of a day.

ghost use Rattle.std.specs.Prelude.{◌≡◌, List, [], IfSome, is_some, option_map, unwrap_or};
ghost use Rattle.gx_history.specs.declared.record.RecordData.{RecordData};
ghost use Rattle.gx_policy.specs.declared.policy.PolicyData.{PolicyData};
ghost use Rattle.gx_records.specs.State.{gross_used, net_used};
ghost use Rattle.gx_peaks.specs.{Figures.{above_zero, is_counted}, Keys.key_of, Noting.{peak_under, AreOver}, Peaks.IsPeakOf};

use crate::counting::is_counted;
use crate::figure::Figure;
use crate::key::key_of;
use crate::peak::Peak;
use crate::table::PeakTable;
use gx_history::facts::StockSide;
use gx_policy::Policy;
use gx_units::{AccountName, RuleId};
use std::alloc::Global;

/// The peaks of all figures of a day, which looks on while its records are made again.
#[derive(Drop)]
pub struct Peaks {
    /// The peaks of the figures that have been asked for.
    pub table: PeakTable,
    /// The account whose sell the record that comes next fills as the order that came in.
    pub seller: Option<AccountName>,
}

impl Peaks {
    /// Of a day without a record.
    pub fn new(alloc: Global) -> Peaks
        ensures none { (policy : PolicyData) → AreOver policy [] result }
    {
        Peaks {
            table: PeakTable::new(alloc),
            seller: None,
        }
    }

    /// The figure's peak; None where there is no such rule for the account.
    fn peak(&self, policy: &Policy, figure: Figure) -> Option<Peak>
        ensures counted { is_some result ≡ is_counted policy.now figure }
        ensures peak { IfSome result
            (λ p. p ≡ peak_under policy.now self.now.table (key_of policy.now figure)) }
    {
        if !is_counted(policy, figure) {
            return None;
        }
        Some(self.table.peak_under(policy, key_of(policy, figure)))
    }

    /// The greatest that was used of the limit of a rule on gross shares or on gross value in the day, by the account, or by
    /// all accounts of the rule's scope where it counts them together: in shares, or in ten-thousandths of a dollar. None
    /// where the policy has no such rule of this name, or has no such account in the rule's scope.
    pub fn gross(&self, policy: &Policy, rule: RuleId, account: AccountName) -> Option<Peak>
        ensures counted { (records : List RecordData)
            → is_some result ≡ is_some (gross_used policy.now records rule account) }
        ensures peak { (records : List RecordData) → AreOver policy.now records self.now
            → IfSome result (IsPeakOf policy.now rule
            (λ behind. unwrap_or (gross_used policy.now behind rule account) 0) records) }
    {
        let side = None;
        let figure = Figure {
            rule,
            account,
            side,
        };
        self.peak(policy, figure)
    }

    /// The greatest that was used of the limit of a rule on net shares in the day, on this side of the stock, as far as it
    /// was above 0. None as of [`Peaks::gross`].
    pub fn net(
        &self,
        policy: &Policy,
        rule: RuleId,
        account: AccountName,
        on: StockSide,
    ) -> Option<Peak>
        ensures counted { (records : List RecordData)
            → is_some result ≡ is_some (net_used policy.now records rule account on) }
        ensures peak { (records : List RecordData) → AreOver policy.now records self.now
            → IfSome result (IsPeakOf policy.now rule
            (λ behind. unwrap_or
            (option_map above_zero (net_used policy.now behind rule account on)) 0)
            records) }
    {
        let side = Some(on);
        let figure = Figure {
            rule,
            account,
            side,
        };
        self.peak(policy, figure)
    }
}
