//! The peaks that are kept, and how they are brought up to one more record.

ghost use Rattle.std.specs.{Prelude.{◌≡◌, OnOk}, Map.keys_of};
ghost use Rattle.indexmap.specs.IndexMap.{IsEmpty};
ghost use Rattle.gx_history.specs.Live.{live, live_numbered};
ghost use Rattle.gx_peaks.specs.{Noting.{peak_under, AdvancesTo, AreTheirs, IsNoted, IsOfAccount, IsOfOrder, IsOfPlace, IsOfRule, IsOfSeller, IsOfSetting, IsUnder}, Raising.reading_of};

use crate::counting::counts;
use crate::figure::Figure;
use crate::key::{PeakKey, key_of};
use crate::limits::file_limit;
use crate::peak::{Peak, Reading};
use gx_history::facts::StockSide;
use gx_policy::{FileRule, Policy};
use gx_records::ShowsState;
use gx_units::{AccountName, OutOfMemory, RuleId};
use indexmap::IndexMap;
use std::alloc::Global;

/// A peak, and the account for which its figure was asked last.
#[derive(Clone, Copy, PartialEq, Eq)]
pub struct HeldPeak {
    /// The account for which the figure was asked last.
    pub account: AccountName,
    /// The peak itself.
    pub peak: Peak,
}

/// The peaks of the figures that have been asked for.
#[derive(Drop)]
pub struct PeakTable {
    /// The peak of each key, and the account for which it was asked last.
    pub peaks: IndexMap<PeakKey, HeldPeak>,
}

/// What the figure of the rule, which comes to this, is behind the gate's last record.
fn reading<G: ShowsState>(gate: &G, rule: RuleId, used: u128) -> Reading
    ensures { result ≡ reading_of (G.state gate.now).policy (G.state gate.now).records rule used }
{
    Reading {
        used,
        limit: gate.limit(rule),
        number: gate.length(),
        moment: gate.moment_of_last(),
    }
}

impl PeakTable {
    /// Of no figure.
    pub fn new(alloc: Global) -> PeakTable
        ensures none { IsEmpty result.peaks }
    {
        PeakTable {
            peaks: IndexMap::new(alloc),
        }
    }

    /// The peak that is kept under the key; where none is, that of a figure that was 0 all the time.
    pub fn peak_under(&self, policy: &Policy, key: PeakKey) -> Peak
        ensures { result ≡ peak_under policy.now self.now key }
    {
        match self.peaks.get(&key) {
            Some(held) => held.peak,
            None => Peak::unmoved(file_limit(policy, key.rule)),
        }
    }

    /// Notes what the figure is behind the gate's last record.
    fn note<G: ShowsState>(&mut self, gate: &G, figure: Figure) -> Result<(), OutOfMemory>
        ensures noted { OnOk result (IsNoted
            (G.state gate.now).policy (G.state gate.now).records figure self.old self.new) }
    {
        let Some(used) = figure.used(gate) else {
            return Ok(());
        };
        let key = key_of(gate.policy(), figure);
        let before = self.peak_under(gate.policy(), key);
        let peak = before.taking_in(reading(gate, figure.rule, used));
        let account = figure.account;
        self.peaks.insert(key, HeldPeak { account, peak })?;
        Ok(())
    }
}

impl PeakTable {
    /// Notes what the account's figure of the rule is on this side of a stock, or on none, if the rule counts one there.
    fn note_under<G: ShowsState>(
        &mut self,
        gate: &G,
        rule: &FileRule,
        account: AccountName,
        side: Option<StockSide>,
    ) -> Result<(), OutOfMemory>
        ensures noted { OnOk result (AdvancesTo (G.state gate.now).policy (G.state gate.now).records
            (IsUnder (G.state gate.now).policy rule.now account side) self.old self.new) }
    {
        if !counts(rule, account, side) {
            return Ok(());
        }
        let rule = rule.name;
        let figure = Figure {
            rule,
            account,
            side,
        };
        self.note(gate, figure)
    }

    /// Notes what the account's figures are on this side of a stock, or on none, of all rules that count one there.
    fn note_account<G: ShowsState>(
        &mut self,
        gate: &G,
        account: AccountName,
        side: Option<StockSide>,
    ) -> Result<(), OutOfMemory>
        ensures noted { OnOk result (AdvancesTo (G.state gate.now).policy (G.state gate.now).records
            (IsOfAccount (G.state gate.now).policy account side) self.old self.new) }
    {
        for rule in gate.policy().rules() {
            self.note_under(gate, rule, account, side)?;
        }
        Ok(())
    }

    /// Notes the figures that count the live order of this number, if there is one.
    ///
    /// # Errors
    ///
    /// `OutOfMemory` where memory was refused; then some of the figures may be noted.
    pub fn note_order<G: ShowsState>(&mut self, gate: &G, number: u64) -> Result<(), OutOfMemory>
        ensures noted { OnOk result (AdvancesTo (G.state gate.now).policy (G.state gate.now).records
            (IsOfOrder (G.state gate.now).policy (live_numbered
            (live (G.state gate.now).policy (G.state gate.now).records) number))
            self.old self.new) }
    {
        let Some(order) = gate.live_order(number) else {
            return Ok(());
        };
        self.note_account(gate, order.account, None)?;
        let stock = order.terms.stock;
        let buys = order.terms.side == b'B';
        self.note_account(gate, order.account, Some(StockSide { stock, buys }))
    }

    /// Notes the gross figures of the account of a sell that was filled, if there is one.
    ///
    /// # Errors
    ///
    /// `OutOfMemory` where memory was refused; then some of the figures may be noted.
    pub fn note_gain<G: ShowsState>(
        &mut self,
        gate: &G,
        seller: Option<AccountName>,
    ) -> Result<(), OutOfMemory>
        ensures noted { OnOk result (AdvancesTo (G.state gate.now).policy (G.state gate.now).records
            (IsOfSeller (G.state gate.now).policy seller) self.old self.new) }
    {
        match seller {
            Some(account) => self.note_account(gate, account, None),
            None => Ok(()),
        }
    }

    /// Notes the figure whose peak is kept at this place, if it is one of the rule.
    fn note_place<G: ShowsState>(
        &mut self,
        gate: &G,
        rule: RuleId,
        place: usize,
    ) -> Result<(), OutOfMemory>
        requires theirs { AreTheirs (G.state gate.now).policy self.old }
        ensures theirs { OnOk result (AreTheirs (G.state gate.now).policy self.new) }
        ensures keys { OnOk result
            (keys_of self.new.peaks.entries ≡ keys_of self.old.peaks.entries) }
        ensures noted { OnOk result (AdvancesTo (G.state gate.now).policy (G.state gate.now).records
            (IsOfPlace (G.state gate.now).policy rule self.old place) self.old self.new) }
    {
        let Some((key, held)) = self.peaks.get_index(place) else {
            return Ok(());
        };
        if key.rule != rule {
            return Ok(());
        }
        let (account, side) = (held.account, key.side);
        let figure = Figure {
            rule,
            account,
            side,
        };
        self.note(gate, figure)
    }

    /// Notes all figures of the rule whose peaks are kept.
    fn note_rule<G: ShowsState>(&mut self, gate: &G, rule: RuleId) -> Result<(), OutOfMemory>
        requires theirs { AreTheirs (G.state gate.now).policy self.old }
        ensures noted { OnOk result (AdvancesTo (G.state gate.now).policy (G.state gate.now).records
            (IsOfRule (G.state gate.now).policy rule self.new) self.old self.new) }
    {
        for place in 0..self.peaks.len() {
            self.note_place(gate, rule, place)?;
        }
        Ok(())
    }

    /// Notes all figures that are kept of the rule whose limit was set, if one was.
    ///
    /// # Errors
    ///
    /// `OutOfMemory` where memory was refused; then some of the figures may be noted.
    pub fn note_setting<G: ShowsState>(
        &mut self,
        gate: &G,
        set: Option<RuleId>,
    ) -> Result<(), OutOfMemory>
        requires theirs { AreTheirs (G.state gate.now).policy self.old }
        ensures noted { OnOk result (AdvancesTo (G.state gate.now).policy (G.state gate.now).records
            (IsOfSetting (G.state gate.now).policy set self.new) self.old self.new) }
    {
        match set {
            Some(rule) => self.note_rule(gate, rule),
            None => Ok(()),
        }
    }
}
