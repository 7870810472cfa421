//! The figures that a record can raise, and those whose limit it sets.

ghost use Rattle.std.specs.{Prelude.{◌≡◌, ◌++◌, [], OnOk, slice_get}, Option.option_map_or};
ghost use Rattle.gx_history.specs.Live.{live, live_numbered};
ghost use Rattle.gx_warnings.specs.Moving.{figures_among, figures_of_gain, figures_of_order, figures_of_setting, figures_under, warnings_after, set_figure};

use crate::table::WarningTable;
use gx_history::facts::StockSide;
use gx_history::record::RecordData;
use gx_peaks::counting::counts;
use gx_peaks::figure::Figure;
use gx_peaks::touched::set_in;
use gx_policy::FileRule;
use gx_records::ShowsState;
use gx_units::{AccountName, OutOfMemory, RuleId};

/// Puts the figures that the rules count of the account, on this side of a stock or on none, at the end of the list.
fn add_figures(
    list: &mut Vec<Figure>,
    rules: &[FileRule],
    account: AccountName,
    side: Option<StockSide>,
) -> Result<(), OutOfMemory>
    ensures { OnOk result
        (list.new.items ≡ list.old.items ++ figures_among account side rules.now) }
{
    for rule in rules {
        if counts(rule, account, side) {
            let rule = rule.name;
            list.push(Figure {
                rule,
                account,
                side,
            })?;
        }
    }
    Ok(())
}

/// Puts the figures that count the live order of this number, if there is one, at the end of the list.
fn add_order<G: ShowsState>(
    list: &mut Vec<Figure>,
    gate: &G,
    number: u64,
) -> Result<(), OutOfMemory>
    ensures { OnOk result (list.new.items ≡ list.old.items
        ++ figures_of_order (G.state gate.now).policy
        (live_numbered (live (G.state gate.now).policy (G.state gate.now).records) number)) }
{
    let Some(order) = gate.live_order(number) else {
        return Ok(());
    };
    let rules = gate.policy().rules();
    add_figures(list, rules, order.account, None)?;
    let stock = order.terms.stock;
    let buys = order.terms.side == b'B';
    add_figures(list, rules, order.account, Some(StockSide { stock, buys }))
}

/// Puts the gross figures of the account of a sell that was filled, if there is one, at the end of the list.
fn add_gain<G: ShowsState>(
    list: &mut Vec<Figure>,
    gate: &G,
    seller: Option<AccountName>,
) -> Result<(), OutOfMemory>
    ensures { OnOk result (list.new.items
        ≡ list.old.items ++ figures_of_gain (G.state gate.now).policy seller) }
{
    match seller {
        Some(account) => add_figures(list, gate.policy().rules(), account, None),
        None => Ok(()),
    }
}

impl WarningTable {
    /// Puts the figure whose first use is kept at this place, if it is one of the rule, at the end of the list.
    fn add_place(
        &self,
        list: &mut Vec<Figure>,
        rule: RuleId,
        place: usize,
    ) -> Result<(), OutOfMemory>
        ensures { OnOk result (list.new.items ≡ list.old.items
            ++ option_map_or (set_figure rule) (slice_get self.now.entries.entries place) []) }
    {
        let Some((mark, warning)) = self.entries.get_index(place) else {
            return Ok(());
        };
        if mark.share == 0 && warning.figure.rule == rule {
            list.push(warning.figure)?;
        }
        Ok(())
    }

    /// Puts all figures of the rule that have been above 0 at the end of the list.
    fn add_rule(&self, list: &mut Vec<Figure>, rule: RuleId) -> Result<(), OutOfMemory>
        ensures { OnOk result (list.new.items
            ≡ list.old.items ++ figures_under rule self.now.entries.entries) }
    {
        for place in 0..self.entries.len() {
            self.add_place(list, rule, place)?;
        }
        Ok(())
    }

    /// Puts all figures of the rule whose limit was set, if one was, at the end of the list.
    fn add_setting(&self, list: &mut Vec<Figure>, set: Option<RuleId>) -> Result<(), OutOfMemory>
        ensures { OnOk result (list.new.items
            ≡ list.old.items ++ figures_of_setting set self.now.entries.entries) }
    {
        match set {
            Some(rule) => self.add_rule(list, rule),
            None => Ok(()),
        }
    }

    /// Fills the list with the figures that the gate's last record can have moved to a share of their limits.
    ///
    /// # Errors
    ///
    /// `OutOfMemory` where memory was refused; then the list may hold some of them.
    pub(crate) fn list_moved<G: ShowsState>(
        &self,
        list: &mut Vec<Figure>,
        gate: &G,
        left: &RecordData,
        seller: Option<AccountName>,
    ) -> Result<(), OutOfMemory>
        ensures { OnOk result (list.new.items ≡ warnings_after (G.state gate.now).policy
            (G.state gate.now).records left.now seller self.now.entries.entries) }
    {
        list.clear();
        add_order(list, gate, left.number)?;
        add_gain(list, gate, seller)?;
        self.add_setting(list, set_in(left))
    }
}
